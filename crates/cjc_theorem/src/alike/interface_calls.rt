//! That calls of interfaces' methods and of private ones, in the code of a package, are ones that can be
//! named, and which words they take. For whoever promises that each call reaches by token what it reaches by name. It
//! has laws alone, and knows no virtual call; nothing here runs.

ghost use Rattle.std.specs.Prelude.{◌≡◌, ℕ, List, Some, false, true};
ghost use Rattle.cjc_bytes.specs.AccessFlags.{is_private};
ghost use Rattle.cjc_bytes.specs.declared.fault.MemberId.{MemberId as Member};
ghost use Rattle.cjc_jvm_semantics.specs.OnePackage.{ResolvedMember};
ghost use Rattle.cjc_world.specs.ClassFile.declared.tree.ClassTree.{ClassTree};
ghost use Rattle.cjc_components.specs.Bytecode.Jvm as jvm;
ghost use Rattle.cjc_components.specs.Bytecode.declared.insn.JOp.TheVariants as jop;
ghost use Rattle.cjc_components.specs.Package.{Package, world};
ghost use Rattle.cjc_components.specs.Bytecode.declared.method_code.MethodCode.{MethodCode};
ghost use Rattle.cjc_token_proof.specs.List.Listed.{ListTree};
ghost use Rattle.cjc_token_proof.specs.Narrow.Rows.Resolved.{method_found, resolved_method};
ghost use Rattle.cjc_narrow_proof.specs.Laws.Unbroken.{IsInsnOf};
ghost use Rattle.cjc_ncode.specs.ByLabel.{Fixed, OnInterface};
ghost use Rattle.cjc_token_proof.specs.WrittenCalls.Calls.{IsNamed, TakesWords};
ghost use Rattle.cjc_shape_proof.specs.Written.Checked.{IsOfFiles};

/// What an invokeinterface calls is a method of the interface in which it is found, with a place there; it takes the
/// words of its operand, whatever they are.
pub fn interface_calls_are_named()
    ensures named { (list : ListTree) (codes : List MethodCode) (p : Package)
        → IsOfFiles list codes p → (class : ClassTree) (id : Member)
        → IsInsnOf p.files codes class (jop.Call jvm.invokeinterface id) → (words : ℕ)
        → IsNamed (world p) (OnInterface words (resolved_method (world p) id)) }
    ensures words { (list : ListTree) (codes : List MethodCode) (p : Package)
        → IsOfFiles list codes p → (class : ClassTree) (id : Member)
        → IsInsnOf p.files codes class (jop.Call jvm.invokeinterface id) → (words : ℕ)
        → TakesWords (world p) (OnInterface words (resolved_method (world p) id)) }
{}

/// The private method that an invokespecial finds is one that calls can name, by the class that declares it.
pub fn private_calls_are_named()
    ensures { (list : ListTree) (codes : List MethodCode) (p : Package)
        → IsOfFiles list codes p → (class : ClassTree) (id : Member)
        → IsInsnOf p.files codes class (jop.Call jvm.invokespecial id)
        → (hit : ResolvedMember) → method_found (world p) id ≡ Some hit → is_private hit.flags ≡ true
        → IsNamed (world p) (Fixed true (resolved_method (world p) id)) }
{}

/// What an invokestatic finds takes the words of its descriptor, and what an invokespecial finds those and its
/// receiver: a constructor or a private method.
pub fn fixed_calls_take_words()
    ensures statics { (list : ListTree) (codes : List MethodCode) (p : Package)
        → IsOfFiles list codes p → (class : ClassTree) (id : Member)
        → IsInsnOf p.files codes class (jop.Call jvm.invokestatic id)
        → TakesWords (world p) (Fixed false (resolved_method (world p) id)) }
    ensures specials { (list : ListTree) (codes : List MethodCode) (p : Package)
        → IsOfFiles list codes p → (class : ClassTree) (id : Member)
        → IsInsnOf p.files codes class (jop.Call jvm.invokespecial id)
        → TakesWords (world p) (Fixed true (resolved_method (world p) id)) }
{}
