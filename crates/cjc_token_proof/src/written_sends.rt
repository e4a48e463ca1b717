//! What the narrow code of a package names is known, what objects there are receive calls, and what a script sends
//! begins by token as by name. Whoever promises that components run as narrow code cites it. It has definitions and
//! laws alone, and knows no layout.
ghost use Rattle.std.specs.Prelude.{◌≡◌, ℕ, List, Option, Some, false, slice_get};
ghost use Rattle.cjc_card_semantics.specs.Bytecode.Alike.{KnownKind, KnownThing, start_as};
ghost use Rattle.cjc_card_semantics.specs.Bytecode.Renaming.{KnownOperation, option_as, shape_as};
ghost use Rattle.cjc_bytes.specs.declared.fault.MemberId.{MemberId as Member};
ghost use Rattle.cjc_bytes.specs.declared.settings.Settings.{Settings};
ghost use Rattle.cjc_jvm_semantics.specs.Linked.{Method};
ghost use Rattle.cjc_token_proof.specs.ByToken.Classes.{memories};
ghost use Rattle.cjc_token_proof.specs.Calls.Reaching as Reaching;
ghost use Rattle.cjc_card_semantics.specs.Machine.Calls as Calls;
ghost use Rattle.cjc_world_proof.specs.Bytecode.declared.method_code.MethodCode.{MethodCode};
ghost use Rattle.cjc_components.specs.Methods.{placed_methods};
ghost use Rattle.cjc_components.specs.Package.{Package, pool, world};
ghost use Rattle.cjc_components.specs.Written.{IsPackage};
ghost use Rattle.cjc_components.specs.LowerList.Listed.{ListTree};
ghost use Rattle.cjc_components.specs.LowerNarrow.Rows.Selected.{near_fields};
ghost use Rattle.cjc_ncode.specs.Lowering.Agreement.{IsAmong, IsKnownCall, names};
ghost use Rattle.cjc_ncode.specs.Lowering.Placed.{Placed, code_of, offset_of};
ghost use Rattle.cjc_ncode.specs.ByLabel.{Callee, operation};
ghost use Rattle.cjc_ncode.specs.declared.narrow.NInsn.{NInsn};
ghost use Rattle.cjc_script.specs.Sorts.{Shape};
ghost use Rattle.cjc_token_proof.specs.Tables.Known.{known_names};
ghost use Rattle.cjc_token_proof.specs.Tables.Loading.{naming};
ghost use Rattle.cjc_token_proof.specs.Tables.Sound.{IsSound};
ghost use Rattle.cjc_vtable.specs.Kept.{IsKept, Keeps};
ghost use Rattle.cjc_world.specs.Classes.{all_classes};
ghost use Rattle.cjc_world.specs.Files.{Files};
ghost use Rattle.cjc_token_proof.specs.WrittenCalls.Calls.{ExportsKeep, IsNamed, KeepsSubtypes, KeepsTokens};
ghost use Rattle.cjc_token_proof.specs.WrittenCalls.Calls.{NoStaticMethods, Receives, TakesWords};
ghost use Rattle.cjc_token_proof.specs.WrittenCalls.Standing.{AreMethods, AreReady, IsSmall, place};
ghost use Rattle.cjc_token_proof.specs.WrittenSends.Named.{CallsAreNamed, CodeNamesAsWritten, FaultsAreClasses};
ghost use Rattle.cjc_token_proof.specs.WrittenSends.Named.{InstructionsNameWhatIsThere, is_called, known, known_tests};
ghost use Rattle.cjc_token_proof.specs.WrittenSends.Sends.{ExportsSend, InterfacesAsk};

use crate::by_token::kinds_are_told;
use crate::tables::classes_are_told;
use cjc_components::layout::layouts_are_laid_out;
use cjc_vtable::{dispatch_laws, token_laws};
use cjc_world::lookup_laws;

/// Each instruction that is written for a package names nothing, or is one that is written for an instruction of its
/// method.
pub fn code_names_as_written<T>()
    ensures { (list : ListTree) (codes : List MethodCode) (rows : Method → List (Option T)) (p : Package)
        → IsPackage list p.files codes rows p → CodeNamesAsWritten p (near_fields (pool p)) }
{}

/// What an instruction in Method names is known: fields, static cells, classes and calls, where code names as it is
/// written outside int mode, and the class files name what is there. Each call of the package is one that the rules of
/// names allow.
pub fn operations_are_known()
    ensures known { (p : Package) (near : List Member) → CodeNamesAsWritten p near → InstructionsNameWhatIsThere p
        → (q : Placed) (k : ℕ) (insn : NInsn) → IsAmong (placed_methods p) q
        → (let m = q.method in slice_get m.insns k ≡ Some insn)
        → KnownOperation (known p) (IsKnownCall (known_tests p)) (operation insn) }
    ensures calls { (p : Package) → CallsAreNamed p → (m : Callee) → IsKnownCall (known_tests p) m
        → IsNamed (world p) m }
    ensures words { (p : Package) → CallsAreNamed p → (m : Callee) → IsKnownCall (known_tests p) m
        → TakesWords (world p) m }
{}

/// Each object and array that is known is of a class that receives calls: no interface, and of the package none that is
/// abstract.
pub fn known_objects_receive_calls()
    ensures objects { (p : Package) → FaultsAreClasses (world p) → (kind : Shape (List ℕ))
        → KnownThing (names (naming p) (memories (naming p) (known_names (is_called p) p))) (known p)
        (IsAmong (placed_methods p)) (IsKnownCall (known_tests p)) kind → Receives (world p) (Some kind) }
    ensures receivers { (p : Package) → FaultsAreClasses (world p) → (o : Option (Shape (List ℕ)))
        → KnownKind (names (naming p) (memories (naming p) (known_names (is_called p) p))) (known p)
        (IsAmong (placed_methods p)) (IsKnownCall (known_tests p)) o → Receives (world p) o }
{}

/// In a package of read files that breaks no rule, no interface has a private or static method but its initialiser.
pub fn package_interfaces_ask()
    ensures ask { (list : List ℕ) (files : Files) (codes : List MethodCode) (settings : Settings)
        → IsKept list files codes settings → InterfacesAsk false (all_classes files) }
    ensures no_static { (list : List ℕ) (files : Files) (codes : List MethodCode) (settings : Settings)
        → IsKept list files codes settings → NoStaticMethods (all_classes files) }
{}

/// A method that a script sends to an object begins by token as by name, or is none by both: to an array or an
/// object of whatever class, by the name of whatever class or interface, and whatever its name and descriptor
/// are.
pub fn sent_methods_begin_alike()
    ensures { (list : List ℕ) (p : Package) → IsSound list p.files → AreReady p → AreMethods p → IsSmall p
        → Keeps (world p) → KeepsSubtypes (world p) → KeepsTokens (world p) → ExportsKeep p
        → InterfacesAsk false (world p) → ExportsSend p
        → (kind : Shape (List ℕ)) → Receives (world p) (Some kind) → (id : Member)
        → (let n = naming p in let methods = Reaching.placed_methods p.files (place p)
        in Calls.sent n.loaded (shape_as n.class kind) id ≡ option_as (start_as (code_of n) (offset_of n))
        (methods.sent kind id)) }
{
    layouts_are_laid_out();
    dispatch_laws();
    token_laws();
    lookup_laws();
    classes_are_told();
    kinds_are_told();
}
