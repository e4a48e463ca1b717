//! Converted packages that break no rule together, over fair files, as a group whose components run together. It has laws
//! alone; nothing here runs.
ghost use Rattle.std.specs.Prelude.{List};
ghost use Rattle.cjc_components.specs.Package.{Package};
ghost use Rattle.cjc_joint_files.specs.Fair.{AreFairTogether};
ghost use Rattle.cjc_joint_files.specs.Members.{AreMembersOf};
ghost use Rattle.cjc_joint_files.specs.Written.{AreWrittenTogether};
ghost use Rattle.cjc_joint_proof.specs.JointPackages.{files_together};
ghost use Rattle.cjc_joint_theorem.specs.Members.{Member};
ghost use Rattle.cjc_joint_whole.specs.Faces.{InterfacesAreKnown};
ghost use Rattle.cjc_joint_whole.specs.Grouped.{AreGrouped};
ghost use Rattle.cjc_joint_whole.specs.Selected.{SelectTogether};
ghost use Rattle.cjc_joint_whole.specs.Whole.{AreImplemented, AreWhole};

use cjc_joint_whole::above::converted_packages_find_above;
use cjc_joint_whole::faces::packages_of_files_name_faces;
use cjc_joint_whole::linking::{
    grouped_packages_select_together, packages_that_keep_rules_are_linked,
};
use cjc_joint_whole::selected::converted_packages_select_alone;
use cjc_narrow_proof::intervals::range_laws::least_ranges_exist;
use cjc_theorem::fair_exports::fair_exports_are_sound;
use cjc_theorem::whole_runs::whole_packages_run_alike;

/// Each of converted packages that break no rule together knows what stands in the group above the interfaces of its
/// classes, where no class is listed twice outside the group.
pub fn written_packages_know_interfaces()
    ensures { (packages : List Package) → AreWrittenTogether packages → AreFairTogether packages
        → InterfacesAreKnown packages }
{
    packages_that_keep_rules_are_linked();
}

/// Converted packages that break no rule together, over fair files, are a group: each runs by itself, and what it calls of
/// a superclass is found from there as a method at which selection may end. So they have what calls that are selected by
/// their receivers rest on.
pub fn written_packages_are_grouped()
    ensures grouped { (packages : List Package) → AreWrittenTogether packages → AreFairTogether packages
        → AreGrouped packages }
    ensures together { (packages : List Package) → AreWrittenTogether packages → AreFairTogether packages
        → SelectTogether packages }
{
    converted_packages_find_above();
    converted_packages_select_alone();
    fair_exports_are_sound();
    grouped_packages_select_together();
    packages_of_files_name_faces();
    written_packages_know_interfaces();
}

/// By name they are whole members of a group, with the least tables of their methods, where package-visible abstract
/// methods of classes of other packages are implemented.
pub fn written_packages_are_whole()
    ensures { (packages : List Package) → AreWrittenTogether packages → AreFairTogether packages
        → AreImplemented (files_together packages) → (members : List Member) × AreMembersOf packages members
        × AreWhole members }
{
    least_ranges_exist();
    whole_packages_run_alike();
    written_packages_are_grouped();
}
