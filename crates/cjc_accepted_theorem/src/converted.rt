//! All rules: what is written for a converted package breaks none of the type checker's, where its parts break none.
ghost use Rattle.std.specs.Prelude.{ℕ, List};
ghost use Rattle.cjc_verified_proof.specs.Components.Package.{Package};
ghost use Rattle.cjc_theorem.specs.LowerJudge.declared.judged.Judged.{Judged};
ghost use Rattle.cjc_verified_proof.specs.List.Listed.{ListTree};
ghost use Rattle.cjc_verified_proof.specs.Verify.Verified.{IsVerified};
ghost use Rattle.cjc_accepted_proof.specs.Accepted.{CodeStands};
ghost use Rattle.cjc_accepted_proof.specs.Written.{written_pair};
ghost use Rattle.cjc_accepted_theorem.specs.Readable.{IsReadable};

use crate::abstracts::converted_packages_have_no_abstract_methods;
use crate::carded::converted_packages_have_card_types;
use crate::entries::converted_packages_have_named_entries;
use crate::headers::converted_packages_have_fit_headers;
use cjc_accepted_proof::accepted::written_packages_are_accepted;
use cjc_theorem::shape_proof::written::sizes_fit;

/// What is written for a converted package breaks no rule of the type checker, where each method has a closed table
/// that breaks no rule.
pub fn converted_packages_are_accepted()
    ensures { (list : ListTree) (files : List (List ℕ)) (judged : Judged) (p : Package)
        → IsReadable list files judged p → CodeStands p
        → IsVerified (written_pair p) }
{
    converted_packages_have_card_types();
    converted_packages_have_fit_headers();
    converted_packages_have_named_entries();
    converted_packages_have_no_abstract_methods();
    sizes_fit();
    written_packages_are_accepted();
}
