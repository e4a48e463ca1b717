//! What holds of the answers of all runs, whatever the words. `run` says of each answer what decides it.

ghost use Rattle.std.specs.Prelude.{◌≡◌, ℕ, List as Items, Some, IfSome, IsSomeAnd};
ghost use Rattle.cjc_cmd_compat.specs.List.Listed.{ListTree};
ghost use Rattle.cjc_cmd_make.specs.CmdConvert.Conversion.Conversion.{ExportsAreFair};
ghost use Rattle.cjc_cmd_verify.specs.Judge.Spelt.{FileTree, SpellTrees, exports_of};
ghost use Rattle.cjc_shelf.specs.Bytes.declared.fault.Refusal.{Refusal};
ghost use Rattle.cjc_shelf.specs.Shelf.{Files, Shelved};
ghost use Rattle.cjc_shelf.specs.Sink.{Sunk};
ghost use Rattle.cjc_shelf.specs.Command.Answer.{Acts, IsEndOver, IsRefused};
ghost use Rattle.cjc_shelf.specs.Command.Plan.{complete, verdict};
ghost use Rattle.cjc_shelf.specs.declared.command.status.Status.{Status as Answer};
ghost use Rattle.cjc_shelf.specs.declared.command.status.Status.TheVariants as answers;
ghost use Rattle.cjc_run.specs.Request.{Request, convert};
ghost use Rattle.cjc_run.specs.Command.{command_of};
ghost use Rattle.cjc_run.specs.Convert.{plan_of_convert};
ghost use Rattle.cjc_run.specs.Together.{Agrees};
ghost use Rattle.cjc_run.specs.Written.{Accepts, AreWritten};

use cjc_accepted_files::short::written_files_in_short_mode_are_as_before;
use cjc_accepted_files::unbroken::{written_files_are_accepted, written_files_break_nothing};
use cjc_cmd_make::cmd_convert::conversion::one_answer;
use cjc_cmd_make::report::one_answer as one_summary;
use cjc_cmd_verify::cmd_card::report::one_answer as one_report;
use cjc_cmd_verify::one_answer as one_verdict;
use cjc_joint_files::reports::ready_packages_run_alike;

/// The words and the told files decide one answer: two runs in which no fault count rises and memory is there
/// end the same way, and of all refusals that a run may answer for them there is one.
pub fn one_status()
    ensures one { (asked : Request) (files : Files) (a b : Answer) → IsEndOver (command_of asked) files a
        → IsEndOver (command_of asked) files b → a ≡ b }
    ensures refused { (asked : Request) (files : Files) (r s : Refusal) → IsRefused (command_of asked) (Some files) r
        → IsRefused (command_of asked) (Some files) s → r ≡ s }
{
    one_answer();
    one_report();
    one_summary();
    one_verdict();
}

/// Behind a conversion that is done stand the files of which `run` says that `verify` accepts them: where the list and
/// its files were not written over, and the export files among them are fair.
pub fn done_conversions_are_written()
    ensures { (name dir : Items ℕ) (old new : Shelved) (from to : Sunk)
        → Acts (command_of (convert name dir)) old new from to answers.Done
        → IfSome old.files (λ before. IsSomeAnd new.files (λ after. (list : ListTree) (inputs : Items (Items ℕ))
        → verdict before (plan_of_convert name) ≡ complete (list, inputs)
        → verdict after (plan_of_convert name) ≡ complete (list, inputs)
        → (trees : Items FileTree) → SpellTrees list.lines inputs trees → ExportsAreFair (exports_of trees)
        → AreWritten name dir after)) }
{}

/// Whatever acts on what is asked for, accepts what a conversion wrote.
pub(crate) fn written_files_pass()
    ensures { (asked : Request) (old new : Shelved) (from to : Sunk) (answer : Answer)
        → Acts (command_of asked) old new from to answer → Accepts asked old new from to answer }
{
    written_files_are_accepted();
    written_files_break_nothing();
}

/// What is run together of packages that conversions wrote agrees.
pub(crate) fn written_packages_agree()
    ensures { (asked : Request) (old : Shelved) → Agrees asked old }
{
    ready_packages_run_alike();
    written_files_break_nothing();
    written_files_in_short_mode_are_as_before();
}
