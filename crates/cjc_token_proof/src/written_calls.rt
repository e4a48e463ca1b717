//! Calls of a package's components by token are the calls of its narrow code: where its methods stand in Method and
//! begin, what its class infos say of their tables, and what each call reaches. Whoever promises that components run
//! as narrow code cites it. It has definitions and laws alone, and knows no instruction.
ghost use Rattle.std.specs.Prelude.{ℕ, List, Option};
ghost use Rattle.std.specs.Prelude.{◌≡◌, ◌+◌, ◌||◌, None, Some, false, length, position, slice_get, true};
ghost use Rattle.cjc_card_semantics.specs.Bytecode.Alike.{IsFound, reached_as, start_as};
ghost use Rattle.cjc_bytes.specs.declared.fault.MemberId.{MemberId as Member};
ghost use Rattle.cjc_card_semantics.specs.Bytecode.Machine.{Reached, Start, Within};
ghost use Rattle.cjc_card_semantics.specs.Bytecode.Renaming.{option_as, shape_as};
ghost use Rattle.cjc_token_proof.specs.Calls.Reaching.{BeginsAtOffsets, is_in_method, reached_at};
ghost use Rattle.cjc_jvm_semantics.specs.Linked.{Method};
ghost use Rattle.cjc_jvm_semantics.specs.OnePackage.{is_initialiser, method_at};
ghost use Rattle.cjc_token_proof.specs.Calls.Reaching as Reaching;
ghost use Rattle.cjc_card_semantics.specs.Machine.Calls as Calls;
ghost use Rattle.cjc_card_semantics.specs.Machine.Methods.{Code, start_of};
ghost use Rattle.cjc_world_proof.specs.Bytecode.declared.method_code.MethodCode.{MethodCode};
ghost use Rattle.cjc_components.specs.Methods.{method_offset, placed_methods};
ghost use Rattle.cjc_components.specs.Package.{Package, world};
ghost use Rattle.cjc_components.specs.Written.{IsPackage, added_words};
ghost use Rattle.cjc_components.specs.LowerList.Listed.{ListTree};
ghost use Rattle.cjc_card_semantics.specs.Bytecode.Meanings as Meanings;
ghost use Rattle.cjc_ncode.specs.Lowering.Naming.{Fit, IsClass, callee};
ghost use Rattle.cjc_ncode.specs.declared.narrow.PoolKey.TheVariants as keys;
ghost use Rattle.cjc_world.specs.Classes.{Class, class_at, class_named};
ghost use Rattle.cjc_world.specs.Classes.{Member as ClassMember};
ghost use Rattle.cjc_world.specs.Lookup.{member_at, own_method};
ghost use Rattle.cjc_tokens.specs.Members.{is_constructor, same};
ghost use Rattle.cjc_bytes.specs.AccessFlags.{is_interface, is_private, is_static};
ghost use Rattle.cjc_token_proof.specs.Calls.Selecting.{signature};
ghost use Rattle.cjc_tokens.specs.Methods.{interface_methods};
ghost use Rattle.cjc_components.specs.Descriptor.{method_descriptor};
ghost use Rattle.cjc_ncode.specs.Lowering.Package.{HoldsMethods};
ghost use Rattle.cjc_ncode.specs.Lowering.Placed.{Placed, code_of, offset_of};
ghost use Rattle.cjc_ncode.specs.Lowering.Agreement.{IsAmong};
ghost use Rattle.cjc_components.specs.LowerNarrow.Rows.Package.{words};
ghost use Rattle.cjc_ncode.specs.ByLabel.{Callee};
ghost use Rattle.cjc_ncode.specs.ByLabel as ByLabel;
ghost use Rattle.cjc_script.specs.Sorts.{Shape};
ghost use Rattle.cjc_token_proof.specs.Tables.Loading.{naming, part};
ghost use Rattle.cjc_token_proof.specs.Tables.Sound.{IsSound};
ghost use Rattle.cjc_world.specs.declared.found.Found.{Found};
ghost use Rattle.cjc_world.specs.Files.{Files};
ghost use Rattle.cjc_vtable.specs.Kept.{Keeps};
ghost use Rattle.cjc_token_proof.specs.WrittenCalls.Calls.{ExportsKeep, IsNamed, KeepsSubtypes, KeepsTokens};
ghost use Rattle.cjc_token_proof.specs.WrittenCalls.Calls.{NoStaticMethods, Receives, TakesWords};
ghost use Rattle.cjc_token_proof.specs.WrittenCalls.Standing.{AreMethods, AreReady, IsSmall, TakeTheirWords, place};

use crate::tables::classes_are_told;
use cjc_components::layout::layouts_are_laid_out;
use cjc_vtable::slot_laws::tokens_mean_methods;
use cjc_vtable::{dispatch_laws, token_laws};
use cjc_world::lookup_laws;

/// Method holds the methods of a package one behind the other, with their handlers in the same order, where each can
/// be laid out.
pub fn methods_stand()
    ensures { (p : Package) → AreReady p → HoldsMethods (naming p) (part p) (placed_methods p) }
{
    layouts_are_laid_out();
}

/// What is written for a package has its methods in the order of Method, abstract where their class files say so.
pub fn methods_are_in_order<T>()
    ensures { (list : ListTree) (files : Files) (codes : List MethodCode) (rows : Method
        → List (Option T)) (p : Package) → IsPackage list files codes rows p → AreMethods p }
{}

/// The code of each method takes as many words of arguments as the method's flags and descriptor say, and so does a
/// method that is added to its class.
pub fn methods_take_their_words<T>()
    ensures { (list : ListTree) (files : Files) (codes : List MethodCode) (rows : Method
        → List (Option T)) (p : Package) → IsPackage list files codes rows p → TakeTheirWords p }
{}

/// Each method of a class file that stands in Method begins on the card at its offset, with what its header says, and
/// Descriptor lists it there.
pub fn methods_begin_at_offsets()
    ensures { (list : List ℕ) (p : Package) → IsSound list p.files → AreReady p → AreMethods p
        → BeginsAtOffsets p.files (world p) (naming p) (method_offset p) (place p) }
{
    layouts_are_laid_out();
}

/// A method of an interface that a class has no code of, and that so is added to the class in Method, begins on
/// the card at its offset as an abstract one, with the words of its descriptor.
pub fn added_methods_begin()
    ensures { (list : List ℕ) (p : Package) → IsSound list p.files → AreReady p → AreMethods p → TakeTheirWords p
        → (f : Found) → f.imported ≡ false → is_in_method (world p) f ≡ true → method_at p.files f ≡ None
        → (s : Start Code) × ((let n = naming p in start_of n.loaded n.part (method_offset p f)) ≡ Some s)
        × (s.is_abstract ≡ true) × (s.nargs ≡ added_words (world p) f (class_at (world p) f.imported f.class)) }
{
    layouts_are_laid_out();
}

/// Whether a call has a receiver is the same by name and by token.
pub fn calls_take_objects_alike()
    ensures { (p : Package) (m : Callee) → Calls.on_object (callee (naming p) m) ≡ ByLabel.on_object m }
{}

/// Each call that narrow code names reaches by token the method that it reaches by name, at its place, or makes the
/// same event: a static method, a constructor or a private method, a virtual method of a class, one of the
/// superclass, and one of an interface; on each object, on arrays, and without receiver. What it reaches is one of
/// the methods of Method.
pub fn calls_reach()
    ensures alike { (list : List ℕ) (p : Package) → IsSound list p.files → AreReady p → AreMethods p → IsSmall p
        → Keeps (world p) → KeepsSubtypes (world p) → KeepsTokens (world p) → ExportsKeep p
        → (m : Callee) → IsNamed (world p) m → (o : Option (Shape (List ℕ))) → Receives (world p) o
        → (r : Reached Placed) → reached_at p.files (world p) (place p) m o ≡ r → IsFound r
        → (let n = naming p in Calls.reached n.loaded (callee n m) (option_as (shape_as n.class) o)
        ≡ reached_as (code_of n) (offset_of n) r) }
    ensures there { (list : List ℕ) (p : Package) → IsSound list p.files → AreReady p → AreMethods p → IsSmall p
        → Keeps (world p) → ExportsKeep p
        → (m : Callee) → IsNamed (world p) m → (o : Option (Shape (List ℕ))) → Receives (world p) o
        → (start : Start Placed) → reached_at p.files (world p) (place p) m o ≡ Within start
        → IsAmong (placed_methods p) start.code }
{
    layouts_are_laid_out();
    dispatch_laws();
    token_laws();
    lookup_laws();
    classes_are_told();
}

/// Each call takes by token as many words of arguments as it takes by name: by the header of the method where it is one
/// of the package, of one that its class got from an interface too, by the descriptor of an imported one, and an
/// interface's by its operand.
pub fn calls_take_words()
    ensures { (list : List ℕ) (p : Package) → IsSound list p.files → AreReady p → AreMethods p → TakeTheirWords p
        → IsSmall p → Keeps (world p) → KeepsSubtypes (world p) → KeepsTokens (world p) → ExportsKeep p
        → (m : Callee) → IsNamed (world p) m → TakesWords (world p) m → (k : ℕ) → words p.files (world p) m ≡ Some k
        → (let n = naming p in Calls.words n.loaded (callee n m) ≡ Some k) }
{
    layouts_are_laid_out();
    dispatch_laws();
    token_laws();
    lookup_laws();
    classes_are_told();
    tokens_mean_methods();
}

/// A method that a class of the package declares is the one that Descriptor lists under its name and
/// descriptor, and has no token there just where it is static, private or a constructor.
pub fn methods_are_declared()
    ensures declared { (list : List ℕ) (p : Package) → IsSound list p.files → IsSmall p → Keeps (world p)
        → ExportsKeep p
        → (id : Member) (c : Class) → class_named (world p) id.class ≡ Some c → c.is_imported ≡ false
        → is_initialiser id.name ≡ false → (f : Found) → own_method false id.name id.desc c ≡ Some f
        → (let n = naming p in Calls.declared n.loaded (n.class id.class) id ≡ Some (record {
          part = n.part;
          method = method_descriptor p c f;
        })) }
    ensures tokens { (list : List ℕ) (p : Package) → IsSound list p.files → IsSmall p → Keeps (world p) → ExportsKeep p
        → (x : List ℕ) (c : Class) → class_named (world p) x ≡ Some c → c.is_imported ≡ false
        → (i : ℕ) (m : ClassMember) → slice_get c.methods i ≡ Some m
        → Calls.has_no_token (method_descriptor p c (member_at c (length c.fields + i))) ≡ (is_static m.flags
        || (is_private m.flags || is_constructor m.name)) }
{
    dispatch_laws();
    token_laws();
    lookup_laws();
}

/// A method of an interface of the package has under its name the token of its place among the interface's methods.
pub fn interface_methods_are_named()
    ensures { (list : List ℕ) (p : Package) → IsSound list p.files → (id : Member) (i : Class)
        → class_named (world p) id.class ≡ Some i → i.is_imported ≡ false → is_interface i.flags ≡ true
        → (let n = naming p in Calls.interface_token n.loaded (n.class id.class) id)
        ≡ position (λ s. same s (signature id)) (interface_methods (world p) i) }
{}

/// A static method that a script calls begins by token as it does by name, and is one of the methods of Method.
pub fn entries_are_called()
    ensures alike { (list : List ℕ) (p : Package) → IsSound list p.files → AreReady p → AreMethods p → IsSmall p
        → Keeps (world p) → ExportsKeep p → NoStaticMethods (world p)
        → (id : Member) → (let n = naming p in let methods = Reaching.placed_methods p.files (place p)
        in Calls.called n.loaded id ≡ option_as (start_as (code_of n) (offset_of n)) (methods.called id)) }
    ensures there { (list : List ℕ) (p : Package) → IsSound list p.files → AreReady p → AreMethods p → IsSmall p
        → Keeps (world p) → ExportsKeep p → NoStaticMethods (world p)
        → (id : Member) (start : Start Placed) → (let methods = Reaching.placed_methods p.files (place p)
        in methods.called id ≡ Some start → IsAmong (placed_methods p) start.code) }
{
    layouts_are_laid_out();
    dispatch_laws();
    token_laws();
    lookup_laws();
    classes_are_told();
}

/// Each method that a script sends to an object is one of the methods of Method.
pub fn sent_methods_stand()
    ensures { (list : List ℕ) (p : Package) → IsSound list p.files → AreReady p → AreMethods p → IsSmall p
        → Keeps (world p) → ExportsKeep p
        → (kind : Shape (List ℕ)) → Receives (world p) (Some kind) → (id : Member) (start : Start Placed)
        → (let methods = Reaching.placed_methods p.files (place p) in methods.sent kind id ≡ Some start
        → IsAmong (placed_methods p) start.code) }
{
    layouts_are_laid_out();
    dispatch_laws();
    token_laws();
    lookup_laws();
    classes_are_told();
}

/// What names of classes and calls stand for is what their entries in the pool mean: a class by its class_ref,
/// a virtual method of a class and one of the superclass by its token, and of the package itself a static
/// method, a constructor or a private method.
pub fn calls_fit_their_keys()
    ensures classes { (list : List ℕ) (p : Package) → IsSound list p.files → IsSmall p → Keeps (world p) → ExportsKeep p
        → (x : List ℕ) (c : Class) → class_named (world p) x ≡ Some c → IsClass (naming p) x }
    ensures virtual_call { (list : List ℕ) (p : Package) → IsSound list p.files → IsSmall p → Keeps (world p)
        → ExportsKeep p → KeepsTokens (world p) → (m : Member) (c : Class) → class_named (world p) m.class ≡ Some c
        → is_interface c.flags ≡ false → Fit (naming p) (Meanings.Calls Meanings.Virtual) (keys.Virtual m) }
    ensures super_call { (list : List ℕ) (p : Package) → IsSound list p.files → IsSmall p → Keeps (world p)
        → ExportsKeep p → KeepsTokens (world p) → (m : Member) (c : Class) → class_named (world p) m.class ≡ Some c
        → is_interface c.flags ≡ false → Fit (naming p) (Meanings.Calls Meanings.Special) (keys.Super m) }
    ensures special_call { (list : List ℕ) (p : Package) → IsSound list p.files → IsSmall p → Keeps (world p)
        → ExportsKeep p → KeepsTokens (world p) → (m : Member) (c : Class) → class_named (world p) m.class ≡ Some c
        → c.is_imported ≡ false → Fit (naming p) (Meanings.Calls Meanings.Special) (keys.StaticMethod m) }
    ensures static_call { (list : List ℕ) (p : Package) → IsSound list p.files → IsSmall p → Keeps (world p)
        → ExportsKeep p → KeepsTokens (world p) → (m : Member) (c : Class) → class_named (world p) m.class ≡ Some c
        → c.is_imported ≡ false → Fit (naming p) (Meanings.Calls Meanings.Static) (keys.StaticMethod m) }
{
    dispatch_laws();
    token_laws();
    lookup_laws();
}
