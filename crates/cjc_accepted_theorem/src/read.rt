//! Class_refs in types: those that are written are read back as the classes that they name.
ghost use Rattle.std.specs.Prelude.{ℕ, List};
ghost use Rattle.cjc_verified_proof.specs.Components.Package.{Package, world};
ghost use Rattle.cjc_theorem.specs.LowerJudge.declared.judged.Judged.{Judged};
ghost use Rattle.cjc_verified_proof.specs.List.Listed.{ListTree};
ghost use Rattle.cjc_verified_proof.specs.TokenProof.Tables.Loading.{naming};
ghost use Rattle.cjc_accepted_proof.specs.CardActs.CardTypes.{is_type_of};
ghost use Rattle.cjc_accepted_proof.specs.Frames.{AreFew, SubtypesAgree, type_named};
ghost use Rattle.cjc_accepted_proof.specs.Read.{RefsAreRead};
ghost use Rattle.cjc_accepted_theorem.specs.Readable.{IsReadable};

use cjc_accepted_proof::subtypes::subtypes_are_read;
use cjc_theorem::shape_proof::written::laid_out_packages_fit;
use cjc_verified_proof::token_proof::by_token::kinds_are_subtypes;

/// The class_refs that are written for a converted package are read back from the nibbles of types as the classes that
/// they name, so a type that is a subtype of another by name is of it by token; so is java/lang/Throwable of what
/// java/lang/Object is of, and the card has few types.
pub fn converted_packages_have_their_types()
    ensures refs { (list : ListTree) (files : List (List ℕ)) (judged : Judged) (p : Package)
        → IsReadable list files judged p → RefsAreRead (world p) (naming p) }
    ensures subtypes { (list : ListTree) (files : List (List ℕ)) (judged : Judged) (p : Package)
        → IsReadable list files judged p
        → (let n = naming p in SubtypesAgree (type_named (world p) n.class_ref) (is_type_of n.loaded) (world p)) }
    ensures few { (list : ListTree) (files : List (List ℕ)) (judged : Judged) (p : Package)
        → IsReadable list files judged p → (let n = naming p in AreFew (type_named (world p) n.class_ref)) }
{
    kinds_are_subtypes();
    laid_out_packages_fit();
    subtypes_are_read();
}
