//! Which opcodes the calls of a judged package have, from how its class files are decoded. For whoever promises what
//! its code names. Nothing here runs.

ghost use Rattle.std.specs.Prelude.{ℕ, List};
ghost use Rattle.cjc_shape_proof.specs.LowerJudge.declared.judged.Judged.{Judged};
ghost use Rattle.cjc_token_proof.specs.List.Listed.{ListTree};
ghost use Rattle.cjc_theorem.specs.Alike.Opcodes.{CallsHaveOpcodes};
ghost use Rattle.cjc_shape_proof.specs.LowerShape.Prepared.{IsSound};
ghost use Rattle.cjc_components.specs.Bytecode.declared.method_code.MethodCode.{MethodCode};
ghost use Rattle.cjc_components.specs.Package.{Package};
ghost use Rattle.cjc_shape_proof.specs.Written.Checked.{IsChecked};

/// Each call of a package whose files break no rule that is tested before it is written is an invokevirtual, an
/// invokespecial, an invokeinterface or an invokestatic.
pub fn calls_have_opcodes()
    ensures { (list : ListTree) (files : List (List ℕ)) (judged : Judged)
        → IsSound list files judged → CallsHaveOpcodes judged.codes }
{}

/// So it is with the instructions of a package whose files break no rule, whichever of its methods are in int mode.
pub fn calls_of_files_have_opcodes()
    ensures { (list : ListTree) (codes : List MethodCode) (p : Package) → IsChecked list codes p
        → CallsHaveOpcodes codes }
{}
