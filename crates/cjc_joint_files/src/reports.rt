//! The joint reports of packages that were converted, by name and by token. It has laws alone; nothing here runs.
ghost use Rattle.std.specs.Prelude.{◌≡◌, ◌≤◌, ℕ, List, Some, length, slice_get};
ghost use Rattle.cjc_cmd_card.specs.LowerScriptText.Scripted.{ScriptTree};
ghost use Rattle.cjc_cmd_link.specs.Runs.{IsReady};
ghost use Rattle.cjc_cmd_link.specs.declared.reads.GroupInput.{GroupInput};
ghost use Rattle.cjc_components.specs.Package.{Package};
ghost use Rattle.cjc_joint_files.specs.Fair.{AreFairTogether};
ghost use Rattle.cjc_joint_files.specs.Ready.{AreReadOf};
ghost use Rattle.cjc_joint_files.specs.Reports.{RunsWritten};
ghost use Rattle.cjc_joint_files.specs.Written.{AreWrittenTogether};
ghost use Rattle.cjc_joint_proof.specs.Loading.{group_of};
ghost use Rattle.cjc_link_semantics.specs.Loaded.{Member};
ghost use Rattle.cjc_link_semantics.specs.Together.{BehaveAlike};

use crate::implemented::written_packages_are_implemented;
use crate::packages::{written_packages_are_grouped, written_packages_are_whole};
use crate::ready::ready_packages_are_written_together;
use crate::told::written_packages_are_told_above;
use cjc_components::layout::order_changes_no_search;
use cjc_joint_whole::members::whole_members_run_together;
use cjc_joint_whole::selected::selected_components_run_alike;
use cjc_joint_whole::sent_faces::{joint_interfaces_agree, members_have_faces};
use cjc_theorem::fair_exports::fair_exports_are_sound;

/// Converted packages, 16 at most, that break no rule together, over fair files, behave alike together: for every
/// script their class files by name and their components by token give reports that agree, with at most three
/// instructions by token for one by name.
pub fn written_packages_run_alike()
    ensures { (packages : List Package) (first : Package) → slice_get packages 0 ≡ Some first
        → length packages ≤ 16 → AreWrittenTogether packages → AreFairTogether packages
        → BehaveAlike (group_of packages) }
{
    fair_exports_are_sound();
    joint_interfaces_agree();
    members_have_faces();
    order_changes_no_search();
    selected_components_run_alike();
    whole_members_run_together();
    written_packages_are_grouped();
    written_packages_are_implemented();
    written_packages_are_told_above();
    written_packages_are_whole();
}

/// So where nothing is refused of what was read of a group, and that is the lists and files of packages that were
/// converted and the components that are written for them, over fair files, these are run and behave alike.
pub fn ready_packages_run_alike()
    ensures { (input : GroupInput) (name script : List ℕ) (group : List Member) (tree : ScriptTree)
        (packages : List Package) (first : Package) → slice_get packages 0 ≡ Some first → length packages ≤ 16
        → IsReady input name script group tree → AreReadOf input.members packages → AreFairTogether packages
        → RunsWritten packages group }
{
    ready_packages_are_written_together();
    written_packages_run_alike();
}
