//! Components beside their package: those that are written for it are of it.
ghost use Rattle.std.specs.Prelude.{ℕ, List};
ghost use Rattle.cjc_components.specs.Package.{Package};
ghost use Rattle.cjc_components.specs.Paired.Pairs.{ArePaired};
ghost use Rattle.cjc_shape_proof.specs.LowerJudge.declared.judged.Judged.{Judged};
ghost use Rattle.cjc_components.specs.LowerList.Listed.{ListTree};
ghost use Rattle.cjc_shape_proof.specs.Written.Checked.{IsOfFiles};
ghost use Rattle.cjc_shape_proof.specs.Written.LaidOut.{IsLaidOut};
ghost use Rattle.cjc_verified_proof.specs.TokenProof.Components.Whole.{whole};

use cjc_shape_proof::written::static_images_fit;
use cjc_verified_proof::token_proof::tables::{fields_are_typed, static_fields_are_told};

/// The components that are written for a package that is laid out are of it, whichever of its methods are in int mode:
/// they have as many classes, methods of each class and static cells as it has.
pub fn written_components_are_paired()
    ensures { (list : ListTree) (files : List (List ℕ)) (judged : Judged) (p : Package)
        → IsLaidOut list files judged p → IsOfFiles list judged.codes p → ArePaired p.files p.image (whole p) }
{
    fields_are_typed();
    static_fields_are_told();
    static_images_fit();
}
