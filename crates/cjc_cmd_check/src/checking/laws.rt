//! What holds of the answers to all folders. It has no code that runs.

ghost use Rattle.std.specs.Prelude.{◌≡◌, List, ℕ, Ok, Err};
ghost use Rattle.cjc_bytes.specs.declared.fault.Refusal.{Refusal};
ghost use Rattle.cjc_shelf.specs.declared.command.status.Todo.{Todo};
ghost use Rattle.cjc_cmd_check.specs.declared.folder.folder.Folder.{Folder};
ghost use Rattle.cjc_cmd_check.specs.Check.{Checks};

/// What was read decides one answer: one refusal, or that all is well, and not both.
pub fn one_answer()
    ensures one { (folder : Folder) (r s : Refusal) → Checks folder (Err r) → Checks folder (Err s) → r ≡ s }
    ensures not_both { (folder : Folder) (todo : Todo) (r : Refusal) → Checks folder (Ok todo) → Checks folder (Err r)
        → ⊥ }
{}
