//! What holds of the answers to all numbers and sizes. It has no code that runs.

ghost use Rattle.std.specs.Prelude.{◌≡◌, ℕ, Ok, Err};
ghost use Rattle.cjc_cmd_card.specs.Bytes.declared.fault.Refusal.{Refusal};
ghost use Rattle.cjc_cmd_card.specs.Shelf.declared.command.status.Todo.{Todo};
ghost use Rattle.cjc_cmd_make.specs.Report.Runs.{Makes};

use cjc_cmd_card::report::one_answer as one_run;
use cjc_cmd_convert::conversion::one_answer as one_conversion;

/// A number and a size decide one answer: one refusal, or a summary, and not both.
pub fn one_answer()
    ensures one { (given : ℕ × ℕ) (r s : Refusal) → Makes given (Err r) → Makes given (Err s) → r ≡ s }
    ensures not_both { (given : ℕ × ℕ) (todo : Todo) (r : Refusal) → Makes given (Ok todo) → Makes given (Err r) → ⊥ }
{
    one_conversion();
    one_run();
}
