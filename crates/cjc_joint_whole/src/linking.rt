//! Packages that break no rule by themselves and none together, as a group whose components run together: that they link
//! with one another as they were converted follows from what is tested of them. It has a definition and laws alone;
//! nothing here runs.
ghost use Rattle.std.specs.Prelude.{◌≡◌, ◌≢◌, ℕ, List, Some, slice_get};
ghost use Rattle.cjc_components.specs.Package.{Package};
ghost use Rattle.cjc_joint_proof.specs.Begun.{all_images};
ghost use Rattle.cjc_joint_proof.specs.JointCode.{run as run_in_packages};
ghost use Rattle.cjc_joint_proof.specs.JointNames.{joint_labels, joint_named};
ghost use Rattle.cjc_joint_proof.specs.JointPackages.{AreLinked, files_together};
ghost use Rattle.cjc_joint_proof.specs.JointTables.{KeepSupers};
ghost use Rattle.cjc_joint_proof.specs.JointTowers.{loaded_together};
ghost use Rattle.cjc_jvm_semantics.specs.Group.{joint_image};
ghost use Rattle.cjc_jvm_semantics.specs.Linked.{Method};
ghost use Rattle.cjc_joint_whole.specs.Grouped.{AreGrouped};
ghost use Rattle.cjc_joint_whole.specs.Linking.{KeepGroupRules};
ghost use Rattle.cjc_joint_whole.specs.Selected.{SelectTogether};
ghost use Rattle.cjc_joint_whole.specs.Sent.{ObjectsAreSentAlike};
ghost use Rattle.cjc_joint_whole.specs.Tokens.{stands_at};
ghost use Rattle.cjc_token_proof.specs.CardSemantics.Machine.ByToken.{run as run_by_token};
ghost use Rattle.cjc_token_proof.specs.Script.declared.report.Outcome.TheVariants.{Stuck};
ghost use Rattle.cjc_token_proof.specs.Script.declared.script.Script.{Script};

use crate::faces::{joint_faces_dispatch, joint_interface_methods_are_selected};
use crate::selected::selected_components_run_alike;
use crate::sent::joint_objects_are_sent_alike;
use cjc_group::packages_agree;

/// Packages that break no rule together link with one another: what each imports is what is written for a package before
/// it, or from outside and then the same for all; what it says of classes of packages is what stands above them there,
/// and no class from outside stands below one of a package.
pub fn packages_that_keep_rules_are_linked()
    ensures linked { (packages : List Package) → KeepGroupRules packages → AreLinked packages }
    ensures supers { (packages : List Package) → KeepGroupRules packages → KeepSupers packages }
{
    packages_agree();
}

/// So packages that a group links, each of which runs by itself, over fair files from outside, have what calls that are
/// selected by their receivers rest on; their classes are in order together.
pub fn grouped_packages_select_together()
    ensures { (packages : List Package) → AreGrouped packages → SelectTogether packages }
{
    packages_that_keep_rules_are_linked();
}

/// And their components, loaded together, give the report of their narrow code, for every script and every number of
/// instructions where that is not stuck, where what scripts send to objects of class files agrees.
pub fn grouped_components_run_alike()
    ensures { (packages : List Package) (first : Package) → slice_get packages 0 ≡ Some first → AreGrouped packages
        → (let files = files_together packages in let image = joint_image (all_images packages) in
        let at = stands_at first packages in let code = λ (m : Method). (let p = at m in p.method) in
        ObjectsAreSentAlike packages at → (script : Script) (n : ℕ)
        → ((place : ℕ) → (let r = run_in_packages (joint_named files image code) (joint_labels files code) script n
        in r.outcome) ≢ Stuck place)
        → run_by_token (loaded_together packages) script n
        ≡ run_in_packages (joint_named files image code) (joint_labels files code) script n) }
{
    grouped_packages_select_together();
    joint_faces_dispatch();
    joint_interface_methods_are_selected();
    joint_objects_are_sent_alike();
    selected_components_run_alike();
}
