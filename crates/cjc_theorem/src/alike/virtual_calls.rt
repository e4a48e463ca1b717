//! That the calls of virtual methods in the code of a package, by invokevirtual and by invokespecial
//! on what its superclass has, are ones that can be named, and which words they take. For whoever promises that
//! each call reaches by token what it reaches by name. It has a definition and laws alone, and knows no static,
//! private or interface call; nothing here runs.

ghost use Rattle.std.specs.Prelude.{◌≡◌, ℕ, List, Some, false};
ghost use Rattle.cjc_bytes.specs.AccessFlags.{is_interface, is_private};
ghost use Rattle.cjc_bytes.specs.declared.fault.MemberId.{MemberId as Member};
ghost use Rattle.cjc_jvm_semantics.specs.OnePackage.{ResolvedMember, is_constructor, of_class};
ghost use Rattle.cjc_world.specs.ClassFile.declared.tree.ClassTree.{ClassTree};
ghost use Rattle.cjc_components.specs.Bytecode.Jvm as jvm;
ghost use Rattle.cjc_components.specs.Bytecode.declared.insn.JOp.TheVariants as jop;
ghost use Rattle.cjc_components.specs.Package.{Package, world};
ghost use Rattle.cjc_components.specs.Bytecode.declared.method_code.MethodCode.{MethodCode};
ghost use Rattle.cjc_token_proof.specs.List.Listed.{ListTree};
ghost use Rattle.cjc_token_proof.specs.Narrow.Rows.Resolved.{method_found, virtual_by};
ghost use Rattle.cjc_narrow_proof.specs.Laws.Unbroken.{IsInsnOf};
ghost use Rattle.cjc_ncode.specs.ByLabel.{OnObject, OnSuper};
ghost use Rattle.cjc_world.specs.Classes.{class_named};
ghost use Rattle.cjc_token_proof.specs.WrittenCalls.Calls.{IsNamed, TakesWords};
ghost use Rattle.cjc_shape_proof.specs.Written.Checked.{IsOfFiles};

use cjc_shape_proof::check_proof::flags::methods_keep_flags;
use cjc_tokens::token_laws::interface_tokens_mean_methods;
use cjc_vtable::package_laws;
use cjc_vtable::slot_laws::asked_methods_have_tokens;
use cjc_world::lookup_laws;

/// What an invokevirtual calls is a virtual method of a class, by the class that code names where it is of the
/// package, and by the one that declares the method otherwise: a public or protected one, a package-visible
/// one, or one that an abstract class got from an interface. It takes the words of its descriptor.
pub fn virtual_calls_are_named()
    ensures named { (list : ListTree) (codes : List MethodCode) (p : Package)
        → IsOfFiles list codes p → (class : ClassTree) (id : Member)
        → IsInsnOf p.files codes class (jop.Call jvm.invokevirtual id)
        → IsNamed (world p) (OnObject (virtual_by (world p) id (class_named (world p) id.class))) }
    ensures words { (list : ListTree) (codes : List MethodCode) (p : Package)
        → IsOfFiles list codes p → (class : ClassTree) (id : Member)
        → IsInsnOf p.files codes class (jop.Call jvm.invokevirtual id)
        → TakesWords (world p) (OnObject (virtual_by (world p) id (class_named (world p) id.class))) }
{
    asked_methods_have_tokens();
    interface_tokens_mean_methods();
    lookup_laws();
    methods_keep_flags();
    package_laws();
}

/// What an invokespecial in a class calls, where it is neither a constructor nor private, is a virtual method
/// that the superclass and the class have by one token. It takes the words of its descriptor.
pub fn super_calls_are_named()
    ensures named { (list : ListTree) (codes : List MethodCode) (p : Package)
        → IsOfFiles list codes p → (class : ClassTree) (id : Member)
        → IsInsnOf p.files codes class (jop.Call jvm.invokespecial id)
        → is_interface class.flags ≡ false → is_constructor id.name ≡ false
        → (hit : ResolvedMember) → method_found (world p) id ≡ Some hit → is_private hit.flags ≡ false
        → IsNamed (world p) (OnSuper (of_class class.name id)) }
    ensures words { (list : ListTree) (codes : List MethodCode) (p : Package)
        → IsOfFiles list codes p → (class : ClassTree) (id : Member)
        → IsInsnOf p.files codes class (jop.Call jvm.invokespecial id)
        → TakesWords (world p) (OnSuper (of_class class.name id)) }
{
    asked_methods_have_tokens();
    interface_tokens_mean_methods();
    lookup_laws();
    methods_keep_flags();
    package_laws();
}
