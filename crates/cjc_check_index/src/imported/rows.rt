//! By token, which classes have a member or inherit one, from what each lists itself. Called by `tokens`.

ghost use Rattle.std.specs.Prelude.{◌≡◌, ◌<◌, ℕ, List, IfOk, false, get_or, map, Bool};
ghost use Rattle.cjc_check_rules.specs.ExportFile.declared.tree.ExportClass.{ExportClass as Class};
ghost use Rattle.cjc_check_index.specs.Imported.Tokens.{by_token, each_class};
ghost use Rattle.cjc_check_index.specs.Imported.Working.Graph.{AreBelow, above_of};
ghost use Rattle.cjc_check_index.specs.Imported.Working.Rows.{column, has_or_inherits, inherits, is_any_marked};

use crate::imported::reach::reach;
use cjc_check_rules::bytes::{NoMemory, Row};
use std::alloc::Global;

/// The answers of all classes to one token.
fn column(alloc: Global, tables: &[Row<bool>], token: usize) -> Result<Row<bool>, NoMemory>
    ensures { IfOk result (λ row. row ≡ column tables.now token) }
{
    let mut row = Row::new(alloc);
    for table in tables {
        row.push(answer(table.items(), token))?;
    }
    Ok(row)
}

/// An answer, no where there is none.
pub(crate) fn answer(answers: &[bool], at: usize) -> bool
    ensures { result ≡ get_or answers.now at false }
{
    at < answers.len() && answers[at]
}

/// Which classes have a member of a token or inherit one.
fn closed_row(
    alloc: Global,
    below: &[Row<usize>],
    tables: &[Row<bool>],
    token: usize,
) -> Result<Row<bool>, NoMemory>
    requires { token < 256 }
    ensures { (classes : List Class) → (test : ℕ → Class → Bool) → AreBelow (above_of classes) below.now
        → tables.now ≡ each_class test classes
        → IfOk result (λ row. row ≡ map (has_or_inherits (test token) classes) classes) }
{
    let begin = column(alloc, tables, token)?;
    let marks = reach(alloc, below, begin)?;
    Ok(marks)
}

/// By token, which classes have a member or inherit one.
pub(crate) fn closed_rows(
    alloc: Global,
    below: &[Row<usize>],
    tables: &[Row<bool>],
) -> Result<Row<Row<bool>>, NoMemory>
    ensures { (classes : List Class) → (test : ℕ → Class → Bool) → AreBelow (above_of classes) below.now
        → tables.now ≡ each_class test classes
        → IfOk result (λ rows. rows ≡ by_token (λ token. has_or_inherits (test token) classes) classes) }
{
    let mut rows = Row::new(alloc);
    for token in 0..256 {
        rows.push(closed_row(alloc, below, tables, token)?)?;
    }
    Ok(rows)
}

/// Whether one of several places is marked.
fn is_any_marked(marks: &[bool], places: &[usize]) -> bool
    ensures { result ≡ is_any_marked marks.now places.now }
{
    for place in places {
        if answer(marks, *place) {
            return true;
        }
    }
    false
}

/// Which classes inherit a member, from those that have or inherit one.
fn inherited_row(alloc: Global, above: &[Row<usize>], marks: &[bool]) -> Result<Row<bool>, NoMemory>
    ensures { IfOk result (λ row. row ≡ map (is_any_marked marks.now) above.now) }
{
    let mut row = Row::new(alloc);
    for places in above {
        row.push(is_any_marked(marks, places.items()))?;
    }
    Ok(row)
}

/// By token, which classes inherit a member, from those that have or inherit one.
pub(crate) fn inherited_rows(
    alloc: Global,
    above: &[Row<usize>],
    rows: &[Row<bool>],
) -> Result<Row<Row<bool>>, NoMemory>
    ensures { IfOk result (λ inherited. inherited ≡ map (λ marks. map (is_any_marked marks) above.now) rows.now) }
{
    let mut inherited = Row::new(alloc);
    for marks in rows {
        inherited.push(inherited_row(alloc, above, marks.items())?)?;
    }
    Ok(inherited)
}
