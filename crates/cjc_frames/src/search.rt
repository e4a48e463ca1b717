//! `first_broken`, from a method to the first instruction that breaks a rule of its frames. What the crate is called
//! for.

ghost use Rattle.std.specs.Prelude.{◌≡◌, ◌<◌, ℕ, length, Some, None, IfOk, IfSome, MatchOption};
ghost use Rattle.std.specs.List.{range_with_len};
ghost use Rattle.cjc_fixpoint.specs.Kept.{StandsForLeast};
ghost use Rattle.cjc_frames.specs.Flow.{frame_flow};
ghost use Rattle.cjc_frames.specs.Search.{first_from};
ghost use Rattle.cjc_frames.specs.Tables.{IsBrokenAt, IsLeastTable, IsUnbroken};

use crate::method::Method;
use crate::rules::{Subtypes, row_rule};
use crate::states::Frame;
use cjc_fixpoint::bytes::{BrokenAt, NoMemory, Row};
use cjc_fixpoint::{Table, all_marks, solve};
use std::alloc::Global;

/// The first broken rule of a method.
#[derive(Clone, Copy)]
struct FirstBroken {
    /// The place of the instruction that breaks it.
    place: usize,
    rule: u16,
}

/// The least table, with a row for each instruction.
fn least_table(alloc: Global, method: &Method<'_>) -> Result<Table<Frame>, NoMemory>
    ensures marks { IfOk result (λ table. table.marks ≡ range_with_len 0 (length method.now.steps)) }
    ensures stands { IfOk result (λ table. StandsForLeast (frame_flow method.now) (length method.now.steps) table.marks
        table.rows) }
{
    let places = method.places();
    let marks = all_marks(alloc, places)?;
    solve(alloc, method, places, &marks)
}

/// The rows of a table.
fn rows_of(table: Table<Frame>) -> Row<Option<Frame>>
    ensures { result ≡ table.rows }
{
    let Table {
        marks: _marks,
        rows,
    } = table;
    rows
}

/// The rows of the least table.
fn least_rows(alloc: Global, method: &Method<'_>) -> Result<Row<Option<Frame>>, NoMemory>
    ensures { IfOk result (λ rows. IsLeastTable method.now rows) }
{
    let table = least_table(alloc, method)?;
    Ok(rows_of(table))
}

/// The first rule that instructions break by their rows.
fn first_by<T: Subtypes>(
    types: &T,
    method: &Method<'_>,
    rows: &[Option<Frame>],
) -> Option<FirstBroken>
    requires { length rows.now ≡ length method.now.steps }
    ensures first { result ≡ first_from (T.subtype types.now) method.now.max_stack 0 method.now.steps rows.now }
    ensures within { IfSome result (λ f. f.place < length method.now.steps) }
{
    let steps = method.steps;
    for place in 0..steps.len() {
        let broken = row_rule(types, method.max_stack, &steps[place], &rows[place]);
        if let Some(rule) = broken {
            return Some(FirstBroken { place, rule });
        }
    }
    None
}

/// The first rule that a method breaks by its least table, and the offset of the instruction that breaks it; none where
/// no instruction that the table reaches breaks one. There is one such answer, which is given unless memory runs out.
pub fn first_broken<T: Subtypes>(
    alloc: Global,
    types: &T,
    method: &Method<'_>,
) -> Result<Option<BrokenAt>, NoMemory>
    ensures answer { IfOk result (λ broken. MatchOption broken (IsUnbroken (T.subtype types.now) method.now)
        (λ b. IsBrokenAt (T.subtype types.now) method.now b.offset b.rule)) }
    ensures unbroken { IsUnbroken (T.subtype types.now) method.now → IfOk result (λ broken. broken ≡ None) }
    ensures breaks { (offset rule : ℕ) → IsBrokenAt (T.subtype types.now) method.now offset rule
        → IfOk result (λ broken. broken ≡ Some (record { rule = rule; offset = offset })) }
{
    let rows = least_rows(alloc, method)?;
    match first_by(types, method, rows.items()) {
        Some(first) => Ok(Some(BrokenAt {
            rule: first.rule,
            offset: method.steps[first.place].at,
        })),
        None => Ok(None),
    }
}
