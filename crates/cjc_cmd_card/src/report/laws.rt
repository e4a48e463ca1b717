//! What holds of the answers to all that is read. It has no code that runs.

ghost use Rattle.std.specs.Prelude.{◌≡◌, List, ℕ, Ok, Err};
ghost use Rattle.cjc_cmd_check.specs.Bytes.declared.fault.Refusal.{Refusal};
ghost use Rattle.cjc_cmd_jvm.specs.LowerShelf.declared.command.status.Todo.{Todo};
ghost use Rattle.cjc_cmd_card.specs.Report.Runs.{Runs};
ghost use Rattle.cjc_cmd_card.specs.declared.running.input.Input.{Input};

use cjc_card::check_rules::consistent_where_unbroken;

/// What was read decides one answer: one refusal, or one report, and not both.
pub fn one_answer()
    ensures one { (n : ℕ) (script : List ℕ) (input : Input) (r s : Refusal) → Runs n script input (Err r)
        → Runs n script input (Err s) → r ≡ s }
    ensures not_both { (n : ℕ) (script : List ℕ) (input : Input) (todo : Todo) (r : Refusal)
        → Runs n script input (Ok todo) → Runs n script input (Err r) → ⊥ }
{
    consistent_where_unbroken();
}
