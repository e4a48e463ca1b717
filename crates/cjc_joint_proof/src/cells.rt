//! Static fields of several packages by name, and their static field images: each package's cells are those of its
//! image, whatever other packages hold. Whoever promises that a group runs alike cites it. It has definitions and laws
//! alone.
ghost use Rattle.std.specs.Prelude.{List};
ghost use Rattle.cjc_joint_proof.specs.Cells.{HaveCells, JointCellsAgree, Statics};

use cjc_token_proof::by_token::static_fields_agree;

/// What instructions and reports ask of static fields of a group is the same by name and in the images of its
/// packages, one behind the other: each letter reads and puts what the field holds, in the image of the field's
/// package, and a report shows the cells package by package.
pub fn joint_static_fields_agree()
    ensures { (group : List Statics) → HaveCells group → JointCellsAgree group }
{
    static_fields_agree();
}
