//! What holds of the answers to all versions. It has no code that runs.

ghost use Rattle.std.specs.Prelude.{◌≡◌, List, ℕ, Ok, Err};
ghost use Rattle.cjc_world.specs.Bytes.declared.fault.Refusal.{Refusal};
ghost use Rattle.cjc_cmd_compat.specs.Compat.{Compares};
ghost use Rattle.cjc_cmd_check.specs.LowerShelf.declared.command.status.Todo.{Todo};

/// What was read decides one answer: one refusal, or that all is well, and not both.
pub fn one_answer()
    ensures one { (old new : List ℕ) (files : List ℕ × List ℕ) (r s : Refusal) → Compares old new files (Err r)
        → Compares old new files (Err s) → r ≡ s }
    ensures not_both { (old new : List ℕ) (files : List ℕ × List ℕ) (todo : Todo) (r : Refusal)
        → Compares old new files (Ok todo) → Compares old new files (Err r) → ⊥ }
{}
