//! Place after place with its row, where a table keeps rows at marks alone: the row between marks is what the
//! place before hands on. For whoever reads a solved table once from front to back.

ghost use Rattle.std.specs.Prelude.{◌≡◌, ◌+◌, ◌<◌, None, Some, MatchOption, length, slice_get, OnErr, OnOk, IfOk};
ghost use Rattle.cjc_fixpoint.specs.Working.HandedLaws.{OwnMaybe};
ghost use Rattle.cjc_fixpoint.specs.Kept.{IsAscending, StandsForLeast, full, handed_on, mark_of};
ghost use Rattle.cjc_fixpoint.specs.Walks.{IsNext};

use crate::flow::{Flow, Repeating};
use crate::marks::is_at;
use crate::table::Table;
use cjc_bytes::NoMemory;
use std::alloc::Global;
use std::marker::Model;
use std::mem;

/// A row once more.
fn copied<F: Flow>(
    alloc: Global,
    flow: &F,
    row: &Option<F::State>,
) -> Result<Option<F::State>, NoMemory>
    ensures { IfOk result (λ copied. copied ≡ row.now) }
{
    match row {
        None => Ok(None),
        Some(state) => Ok(Some(flow.copy(alloc, state)?)),
    }
}

/// What a place hands to the next, where that is a place without a mark; else anything. `mark` is the mark that it may
/// have.
pub fn passed_on<F: Repeating>(
    alloc: Global,
    flow: &F,
    marks: &[u32],
    mark: usize,
    at: u32,
    places: u32,
    row: Option<F::State>,
) -> Result<Option<F::State>, NoMemory>
    requires ascending { IsAscending marks.now }
    requires at { at < places }
    requires row { OwnMaybe (F.meaning flow.now) row }
    ensures { IfOk result (λ next. at + 1 < places → mark_of marks.now (at + 1) ≡ None
        → next ≡ handed_on (F.meaning flow.now) at row) }
{
    let next = at + 1;
    if next == places {
        return Ok(None);
    }
    if is_at(marks, mark, next) {
        return Ok(None);
    }
    match row {
        None => Ok(None),
        Some(state) => flow.pass(alloc, at, state),
    }
}

/// The same of a row that is kept.
fn passed_on_copy<F: Repeating>(
    alloc: Global,
    flow: &F,
    marks: &[u32],
    mark: usize,
    at: u32,
    places: u32,
    row: &Option<F::State>,
) -> Result<Option<F::State>, NoMemory>
    requires ascending { IsAscending marks.now }
    requires at { at < places }
    requires row { OwnMaybe (F.meaning flow.now) row.now }
    ensures { IfOk result (λ next. at + 1 < places → mark_of marks.now (at + 1) ≡ None
        → next ≡ handed_on (F.meaning flow.now) at row.now) }
{
    let next = at + 1;
    if next == places {
        return Ok(None);
    }
    if is_at(marks, mark, next) {
        return Ok(None);
    }
    match row {
        None => Ok(None),
        Some(state) => {
            let state = flow.copy(alloc, state)?;
            flow.pass(alloc, at, state)
        }
    }
}

/// The places in order, each with its row. Contracts see it as all rows and the place that is next.
#[derive(Drop)]
pub struct Walk<'a, F: Flow> {
    flow: &'a F,
    table: &'a Table<F::State>,
    places: u32,
    /// The place that is next.
    at: u32,
    /// How many marks lie before it.
    mark: usize,
    /// What it is handed. If it is marked, anything.
    handed: Option<F::State>,
}

impl<'a, F: Flow> Model for Walk<'a, F> {
    ghost use Rattle.cjc_fixpoint.specs.Kept.{full};
    ghost use Rattle.cjc_fixpoint.specs.Walks.{Walking, IsWalk};

    ghost Value = { Walking F.State };

    ghost view = { λ w. record {
      at = w.at;
      rows = full (F.meaning w.flow.now) w.places w.table.now.marks
          w.table.now.rows;
    } };

    ghost invariant = { λ w. IsWalk (F.meaning w.flow.now) w.places w.table.now.marks w.table.now.rows w.at w.mark
        w.handed };
}

impl<'a, F: Repeating> Walk<'a, F> {
    /// A walk that begins at place 0. Takes no memory.
    pub fn new(flow: &'a F, table: &'a Table<F::State>, places: u32) -> Walk<'a, F>
        requires { StandsForLeast (F.meaning flow.now) places table.now.marks table.now.rows }
        ensures { result ≡ record { at = 0; rows = full (F.meaning flow.now) places table.now.marks table.now.rows } }
    {
        Walk {
            flow,
            table,
            places,
            at: 0,
            mark: 0,
            handed: None,
        }
    }

    /// The next place with its row. After `NoMemory` the walk is as before.
    pub fn next(&mut self, alloc: Global) -> Result<Option<(u32, Option<F::State>)>, NoMemory>
        ensures given { IfOk result (IsNext self.old self.new) }
        ensures kept { OnErr result (self.new ≡ self.old) }
    {
        let at = self.at;
        if at == self.places {
            return Ok(None);
        }
        let marks = self.table.marks.items();
        if is_at(marks, self.mark, at) {
            let row = copied(alloc, self.flow, &self.table.rows.items()[self.mark])?;
            let handed = passed_on_copy(
                alloc,
                self.flow,
                marks,
                self.mark + 1,
                at,
                self.places,
                &row,
            )?;
            self.at = at + 1;
            self.mark += 1;
            self.handed = handed;
            Ok(Some((at, row)))
        } else {
            let handed = passed_on_copy(
                alloc,
                self.flow,
                marks,
                self.mark,
                at,
                self.places,
                &self.handed,
            )?;
            let row = mem::replace(&mut self.handed, handed);
            self.at = at + 1;
            Ok(Some((at, row)))
        }
    }

    /// The place that is next; none after the last one.
    pub fn place(&self) -> Option<u32>
        ensures { MatchOption result (self.now.at ≡ length self.now.rows) (λ place. (place ≡ self.now.at)
            × (place < length self.now.rows)) }
    {
        if self.at == self.places {
            return None;
        }
        Some(self.at)
    }

    /// The row of the place that is next.
    pub fn row(&self) -> &Option<F::State>
        requires { self.now.at < length self.now.rows }
        ensures { slice_get self.now.rows self.now.at ≡ Some result.now }
    {
        if is_at(self.table.marks.items(), self.mark, self.at) {
            return &self.table.rows.items()[self.mark];
        }
        &self.handed
    }

    /// Goes on to the place behind. The row that was lent is changed in place, so after `NoMemory`
    /// the walk is over.
    pub fn advance(&mut self, alloc: Global) -> Result<(), NoMemory>
        requires { self.old.at < length self.old.rows }
        ensures ok { OnOk result (self.new ≡ record { at = self.old.at + 1; rows = self.old.rows }) }
        ensures err { OnErr result (self.new ≡ record { at = length self.old.rows; rows = self.old.rows }) }
    {
        let at = self.at;
        let mark = self.mark;
        let table = self.table;
        let marks = table.marks.items();
        let row = mem::replace(&mut self.handed, None);
        self.at = self.places;
        self.mark = marks.len();
        if is_at(marks, mark, at) {
            let rows = table.rows.items();
            let next = passed_on_copy(
                alloc,
                self.flow,
                marks,
                mark + 1,
                at,
                self.places,
                &rows[mark],
            )?;
            self.at = at + 1;
            self.mark = mark + 1;
            self.handed = next;
            Ok(())
        } else {
            let next = passed_on(alloc, self.flow, marks, mark, at, self.places, row)?;
            self.at = at + 1;
            self.mark = mark;
            self.handed = next;
            Ok(())
        }
    }
}
