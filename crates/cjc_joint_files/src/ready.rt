//! What `link` and `linkjvm` read of packages that were converted, where nothing is refused. It has laws alone; nothing here
//! runs.
ghost use Rattle.std.specs.Prelude.{◌≡◌, ℕ, List};
ghost use Rattle.cjc_cmd_card.specs.LowerScriptText.Scripted.{ScriptTree};
ghost use Rattle.cjc_cmd_link.specs.Runs.{IsReady};
ghost use Rattle.cjc_cmd_link.specs.declared.reads.GroupInput.{GroupInput};
ghost use Rattle.cjc_components.specs.Package.{Package};
ghost use Rattle.cjc_joint_files.specs.Ready.{AreReadOf};
ghost use Rattle.cjc_joint_files.specs.Written.{AreWrittenTogether};
ghost use Rattle.cjc_joint_proof.specs.Loading.{group_of};
ghost use Rattle.cjc_link_semantics.specs.Loaded.{Member};

use cjc_link_semantics::check_rules::consistent_where_unbroken;

/// Where nothing is refused of what was read of a group, and that is the lists and files of packages that were converted
/// and the components that are written for them, together they break no rule, and what is run are these packages with
/// their components.
pub fn ready_packages_are_written_together()
    ensures together { (input : GroupInput) (name script : List ℕ) (group : List Member) (tree : ScriptTree)
        (packages : List Package) → IsReady input name script group tree → AreReadOf input.members packages
        → AreWrittenTogether packages }
    ensures members { (input : GroupInput) (name script : List ℕ) (group : List Member) (tree : ScriptTree)
        (packages : List Package) → IsReady input name script group tree → AreReadOf input.members packages
        → group ≡ group_of packages }
{
    consistent_where_unbroken();
}
