//! Marks that go from classes to all that stand below them, cycles among them too: each class is looked at once.
//! Called by `rows`. It knows no export file.

ghost use Rattle.std.specs.Prelude.{◌≡◌, ◌++◌, [], get_or, IfOk, OnOk};
ghost use Rattle.cjc_check_index.specs.Imported.Working.Reach.{IsReached, marked_from, marks_after, stack_after};
ghost use Rattle.cjc_check_index.specs.Imported.Working.Reach.{with_mark, with_new};

use cjc_check_rules::bytes::{NoMemory, Row};
use std::alloc::Global;

/// What stands below a class.
fn below_at(below: &[Row<usize>], at: usize) -> &[usize]
    ensures { result.now ≡ get_or below.now at [] }
{
    if at < below.len() {
        below[at].items()
    } else {
        &[]
    }
}

/// Marks a class, and notes it to be looked at where it wasn't marked.
fn mark(marks: &mut Vec<bool>, stack: &mut Vec<usize>, at: usize) -> Result<(), NoMemory>
    ensures marks { OnOk result (marks.new.items ≡ with_mark marks.old.items at) }
    ensures stack { OnOk result (stack.new.items ≡ with_new marks.old.items stack.old.items at) }
{
    if at < marks.len() && !marks[at] {
        marks[at] = true;
        stack.push(at)?;
    }
    Ok(())
}

/// Marks several classes.
fn mark_each(
    marks: &mut Vec<bool>,
    stack: &mut Vec<usize>,
    places: &[usize],
) -> Result<(), NoMemory>
    ensures marks { OnOk result (marks.new.items ≡ marks_after marks.old.items places.now) }
    ensures stack { OnOk result (stack.new.items ≡ stack_after marks.old.items stack.old.items places.now) }
{
    for at in places {
        mark(marks, stack, *at)?;
    }
    Ok(())
}

/// The classes that are marked.
fn marked_places(alloc: Global, marks: &[bool]) -> Result<Vec<usize>, NoMemory>
    ensures { IfOk result (λ places. places.items ≡ marked_from 0 marks.now) }
{
    let mut places = Vec::new(alloc);
    for (i, is_marked) in marks.iter().enumerate() {
        if *is_marked {
            places.push(i)?;
        }
    }
    Ok(places)
}

/// The marks, and those of all that stand below what is marked.
pub(crate) fn reach(
    alloc: Global,
    below: &[Row<usize>],
    begin: Row<bool>,
) -> Result<Row<bool>, NoMemory>
    ensures { IfOk result (λ marks. IsReached below.now begin marks) }
{
    let mut marks = begin.into_vec();
    let mut stack = marked_places(alloc, marks.as_slice())?;
    while let Some(at) = stack.pop() {
        mark_each(&mut marks, &mut stack, below_at(below, at))?;
    }
    Ok(Row::of(marks))
}
