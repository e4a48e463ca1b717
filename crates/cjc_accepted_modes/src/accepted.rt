//! All rules: what is written for a package by the modes of its methods breaks none of the type checker's.
ghost use Rattle.std.specs.Prelude.{ℕ, List};
ghost use Rattle.cjc_verified_proof.specs.Components.Package.{Package};
ghost use Rattle.cjc_verified_proof.specs.List.Listed.{ListTree};
ghost use Rattle.cjc_verified_proof.specs.Verify.Verified.{IsVerified};
ghost use Rattle.cjc_accepted_proof.specs.Written.{written_pair};
ghost use Rattle.cjc_theorem.specs.LowerJudge.declared.judged.Judged.{Judged};
ghost use Rattle.cjc_int_theorem.specs.ByModes.{IsConvertedByModes};
ghost use Rattle.cjc_accepted_theorem.specs.Readable.{IsReadable};

use crate::stands::code_of_packages_by_modes_stands;
use cjc_accepted_theorem::converted::converted_packages_are_accepted;

/// What is written for a package by the modes of its methods breaks no rule of the type checker.
pub fn packages_by_modes_are_accepted()
    ensures { (list : ListTree) (files : List (List ℕ)) (judged : Judged) (p : Package)
        → (is : IsReadable list files judged p)
        → (let laid = is.laid in let q = laid.is_package in IsConvertedByModes list judged.codes q.tables p)
        → IsVerified (written_pair p) }
{
    code_of_packages_by_modes_stands();
    converted_packages_are_accepted();
}
