//! Whether a run leaves every object a number. Called by reporting.rt.

ghost use Rattle.std.specs.Prelude.{◌≡◌, ◌+◌, length, IfSome};
ghost use Rattle.std.specs.List.{sum_by};

use cjc_script_text::script::{Answer, Entry};

/// What is left of a number when so many are taken from it.
fn left_behind(left: u32, count: usize) -> Option<u32>
    ensures { IfSome result (λ rest. rest + count ≡ left) }
{
    if count > left as usize {
        return None;
    }
    Some(left - count as u32)
}

/// What is left when one is taken for each act of entries.
pub(crate) fn behind_entries(entries: &[Entry], left: u32) -> Option<u32>
    ensures { IfSome result (λ rest. rest + sum_by (λ e. length e.acts) entries.now ≡ left) }
{
    let mut rest = left;
    for entry in entries {
        rest = left_behind(rest, entry.acts.items().len())?;
    }
    Some(rest)
}

/// What is left when one is taken for each act of answers.
pub(crate) fn behind_answers(answers: &[Answer], left: u32) -> Option<u32>
    ensures { IfSome result (λ rest. rest + sum_by (λ a. length a.acts) answers.now ≡ left) }
{
    let mut rest = left;
    for answer in answers {
        rest = left_behind(rest, answer.acts.items().len())?;
    }
    Some(rest)
}
