//! What stands above the classes and interfaces of converted packages that a group links. It has laws alone; nothing here
//! runs.
ghost use Rattle.std.specs.Prelude.{List};
ghost use Rattle.cjc_components.specs.Package.{Package};
ghost use Rattle.cjc_joint_files.specs.Fair.{AreFairTogether};
ghost use Rattle.cjc_joint_files.specs.Members.{AreMembersOf};
ghost use Rattle.cjc_joint_files.specs.Written.{AreWrittenTogether};
ghost use Rattle.cjc_joint_theorem.specs.Members.{Member};
ghost use Rattle.cjc_joint_whole.specs.Told.{IsToldAbove};

use crate::packages::written_packages_are_grouped;

/// Of converted packages that break no rule together, over fair files, it is told what stands above their classes and
/// interfaces: so methods that code selects by their receivers stand for what the joint world has.
pub fn written_packages_are_told_above()
    ensures { (packages : List Package) (members : List Member) → AreWrittenTogether packages
        → AreFairTogether packages → AreMembersOf packages members → IsToldAbove members }
{
    written_packages_are_grouped();
}
