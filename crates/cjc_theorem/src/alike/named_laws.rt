//! What the code of a converted package names stands in its pool and means what its opcodes use, and its export
//! files say what calls ask. For whoever promises that its components run as its narrow code. It has
//! definitions and laws alone; nothing here runs.

ghost use Rattle.std.specs.Prelude.{◌≡◌, ℕ, List, Some, false, slice_get, true};
ghost use Rattle.cjc_bytes.specs.declared.fault.MemberId.{MemberId as Member};
ghost use Rattle.cjc_jvm_semantics.specs.OnePackage.{is_constructor};
ghost use Rattle.cjc_world.specs.ClassFile.declared.tree.ClassTree.{ClassTree};
ghost use Rattle.cjc_components.specs.Bytecode.Jvm as jvm;
ghost use Rattle.cjc_components.specs.Bytecode.declared.insn.JOp.TheVariants as jop;
ghost use Rattle.cjc_components.specs.Package.{LaidMethod, Package, world};
ghost use Rattle.cjc_shape_proof.specs.LowerJudge.declared.judged.Judged.{Judged};
ghost use Rattle.cjc_token_proof.specs.List.Listed.{ListTree};
ghost use Rattle.cjc_theorem.specs.Alike.Opcodes.{CallsHaveOpcodes};
ghost use Rattle.cjc_token_proof.specs.Narrow.Rows.Resolved.{resolved_method};
ghost use Rattle.cjc_narrow_proof.specs.Laws.Unbroken.{IsInsnOf};
ghost use Rattle.cjc_ncode.specs.ByLabel.{Fixed};
ghost use Rattle.cjc_ncode.specs.declared.narrow.NInsn.{NInsn as Narrow};
ghost use Rattle.cjc_narrow_proof.specs.Selected.Names.{NamesFit};
ghost use Rattle.cjc_token_proof.specs.Tables.Loading.{naming};
ghost use Rattle.cjc_token_proof.specs.WrittenCalls.Calls.{ExportsKeep, IsNamed};
ghost use Rattle.cjc_components.specs.Bytecode.declared.method_code.MethodCode.{MethodCode};
ghost use Rattle.cjc_shape_proof.specs.Written.Checked.{IsOfFiles};
ghost use Rattle.cjc_shape_proof.specs.Written.Converted.{IsConverted};
ghost use Rattle.cjc_shape_proof.specs.LowerCheckProof.Code.Kinds.{AllHaveKinds};
ghost use Rattle.cjc_token_proof.specs.WrittenCalls.Standing.{IsSmall};
ghost use Rattle.cjc_shape_proof.specs.Written.Joined.{NamesAreThere};

use cjc_shape_proof::written::converted_methods_are_consistent;
use cjc_token_proof::written_calls::calls_fit_their_keys;
use cjc_vtable::package_laws;

/// The export files of a converted package have static initialisers, java/lang/Object is a class there, and
/// each of their interfaces has its methods by their places.
pub fn export_files_are_kept()
    ensures { (list : ListTree) (files : List (List ℕ)) (judged : Judged) (p : Package)
        → IsConverted list files judged p → ExportsKeep p }
{}

/// What each instruction of a package's methods names stands in its pool and means what the opcode uses: classes,
/// fields, static fields of the package, and methods by how they are called, imported ones too. So does what each
/// handler catches; entry 0 serves one that names java/lang/Object. So it is where code names what its class files
/// name, whichever methods are in int mode, Method is short, and keys are of the kinds that their opcodes use.
pub fn names_of_files_are_there()
    ensures { (list : ListTree) (codes : List MethodCode) (p : Package) → IsOfFiles list codes p
        → CallsHaveOpcodes codes → IsSmall p → AllHaveKinds p.methods → NamesAreThere p }
{
    calls_fit_their_keys();
    package_laws();
}

/// So it is with a converted package.
pub fn names_are_there()
    ensures instructions { (list : ListTree) (files : List (List ℕ)) (judged : Judged) (p : Package)
        → IsConverted list files judged p → CallsHaveOpcodes judged.codes
        → (k : ℕ) (m : LaidMethod) → slice_get p.methods k ≡ Some m → (j : ℕ) (insn : Narrow)
        → (let code = m.code in slice_get code.insns j ≡ Some insn) → NamesFit (naming p) insn }
    ensures all { (list : ListTree) (files : List (List ℕ)) (judged : Judged) (p : Package)
        → IsConverted list files judged p → CallsHaveOpcodes judged.codes → NamesAreThere p }
{
    converted_methods_are_consistent();
    names_of_files_are_there();
}

/// What an invokestatic calls, and the constructor that an invokespecial calls, is a method that calls can
/// name, by the class that declares it.
pub fn fixed_calls_are_named()
    ensures statics { (list : ListTree) (codes : List MethodCode) (p : Package)
        → IsOfFiles list codes p → (class : ClassTree) (id : Member)
        → IsInsnOf p.files codes class (jop.Call jvm.invokestatic id)
        → IsNamed (world p) (Fixed false (resolved_method (world p) id)) }
    ensures constructors { (list : ListTree) (codes : List MethodCode) (p : Package)
        → IsOfFiles list codes p → (class : ClassTree) (id : Member)
        → IsInsnOf p.files codes class (jop.Call jvm.invokespecial id) → is_constructor id.name ≡ true
        → IsNamed (world p) (Fixed true (resolved_method (world p) id)) }
{}
