//! What holds of the answers to all that is read. It has no code that runs.

ghost use Rattle.std.specs.Prelude.{◌≡◌, Ok, Err};
ghost use Rattle.cjc_cmd_card.specs.declared.running.input.Input.{Input};
ghost use Rattle.cjc_cmd_card.specs.Shelf.declared.command.status.Todo.{Todo};
ghost use Rattle.cjc_cmd_verify.specs.Verify.{Verifies};
ghost use Rattle.cjc_cmd_card.specs.Bytes.declared.fault.Refusal.{Refusal};

use cjc_cmd_card::check_rules::consistent_where_unbroken;

/// What was read decides one answer: one refusal, or that all is well, and not both.
pub fn one_answer()
    ensures one { (input : Input) (r s : Refusal) → Verifies input (Err r) → Verifies input (Err s) → r ≡ s }
    ensures not_both { (input : Input) (todo : Todo) (r : Refusal) → Verifies input (Ok todo) → Verifies input (Err r)
        → ⊥ }
{
    consistent_where_unbroken();
}
