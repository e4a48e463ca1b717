//! That converted packages which a group links have code for package-visible abstract methods of superclasses in other
//! packages. It has a law alone; nothing here runs.
ghost use Rattle.std.specs.Prelude.{◌≤◌, List, length};
ghost use Rattle.cjc_components.specs.Package.{Package};
ghost use Rattle.cjc_joint_files.specs.Fair.{AreFairTogether};
ghost use Rattle.cjc_joint_files.specs.Written.{AreWrittenTogether};
ghost use Rattle.cjc_joint_proof.specs.JointPackages.{files_together};
ghost use Rattle.cjc_joint_whole.specs.Whole.{AreImplemented};

use crate::packages::written_packages_are_grouped;
use cjc_joint_whole::implementing::grouped_packages_are_implemented;

/// Of converted packages that break no rule together, over fair files, at most sixteen, each class that is not abstract
/// has code for the package-visible abstract methods of superclasses in other packages (735).
pub fn written_packages_are_implemented()
    ensures { (packages : List Package) → AreWrittenTogether packages → AreFairTogether packages
        → length packages ≤ 16 → AreImplemented (files_together packages) }
{
    grouped_packages_are_implemented();
    written_packages_are_grouped();
}
