//! Whether a run leaves each array and object a number. Called by runs.rt.

ghost use Rattle.std.specs.Prelude.{◌≡◌, ◌<◌, ◌+◌, ◌^◌, length, true, IfSome};
ghost use Rattle.std.specs.List.{sum_by};
ghost use Rattle.cjc_card.specs.States.{objects_at_most};

use crate::turns::Machine;
use cjc_script::{Answer, Entry};

// What is left of a number when so many are taken from it.
fn left_behind(left: u32, count: usize) -> Option<u32>
    ensures { IfSome result (λ rest. rest + count ≡ left) }
{
    if count > left as usize {
        return None;
    }
    Some(left - count as u32)
}

// What is left when one is taken for each act of entries.
fn behind_entries(entries: &[Entry], left: u32) -> Option<u32>
    ensures { IfSome result (λ rest. rest + sum_by (λ e. length e.acts) entries.now ≡ left) }
{
    let mut rest = left;
    for entry in entries {
        rest = left_behind(rest, entry.acts.items().len())?;
    }
    Some(rest)
}

// What is left when one is taken for each act of answers.
fn behind_answers(answers: &[Answer], left: u32) -> Option<u32>
    ensures { IfSome result (λ rest. rest + sum_by (λ a. length a.acts) answers.now ≡ left) }
{
    let mut rest = left;
    for answer in answers {
        rest = left_behind(rest, answer.acts.items().len())?;
    }
    Some(rest)
}

/// Whether n instructions, the arrays and objects there are and the acts that are left are together fewer than 32 bits
/// count.
pub(crate) fn has_room(machine: &Machine<'_>, n: u32) -> bool
    ensures { result ≡ true → n + objects_at_most machine.now < 2 ^ 32 }
{
    let Some(left) = left_behind(u32::MAX - n, machine.heap.len()) else {
        return false;
    };
    match behind_entries(machine.entries, left) {
        Some(rest) => behind_answers(machine.answers, rest).is_some(),
        None => false,
    }
}
