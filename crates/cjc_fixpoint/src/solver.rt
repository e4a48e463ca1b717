//! The least closed table of a flow, by a list of the places whose row rose since they were visited.
//! The lowest place is visited first: where no edge goes backwards, each place is visited once.

ghost use Rattle.std.specs.Prelude.{◌≡◌, ◌<◌, List, Option, None, length, replicate, All, IfOk, OnOk};
ghost use Rattle.cjc_fixpoint.specs.Dataflow.{StaysWithin};
ghost use Rattle.cjc_fixpoint.specs.Steps.{AllOwn, IsRaised, Advances, IsDone};
ghost use Rattle.cjc_fixpoint.specs.Tables.{Covers, IsBelow, IsClosed, IsLeastClosed};

use crate::flow::{Edge, Flow};
use cjc_bytes::{NoMemory, Row};
use std::alloc::Global;
use std::collections::BTreeSet;

/// A row for each place: its state, or `None` where it is not reached.
#[derive(Drop)]
pub struct Table<T> {
    pub rows: Row<Option<T>>,
}

/// What a row becomes when a state reaches it; `None` where it is above the state already.
fn raised<F: Flow>(
    alloc: Global,
    flow: &F,
    row: &Option<F::State>,
    state: F::State,
) -> Result<Option<F::State>, NoMemory>
    requires own { (F.meaning flow.now).Own state }
    requires row { (x : F.State) → row.now ≡ Some x → (F.meaning flow.now).Own x }
    ensures { IfOk result (IsRaised (F.meaning flow.now) row.now state) }
{
    match row {
        None => Ok(Some(state)),
        Some(before) => {
            let joined = flow.join(alloc, before, &state)?;
            if flow.rank(before) < flow.rank(&joined) {
                Ok(Some(joined))
            } else {
                Ok(None)
            }
        }
    }
}

/// Raises the row of an edge's target to its state, and lets the target wait where that changed it.
fn raise<F: Flow>(
    alloc: Global,
    flow: &F,
    rows: &mut Vec<Option<F::State>>,
    work: &mut BTreeSet<u32>,
    edge: Edge<F::State>,
) -> Result<(), NoMemory>
    requires to { edge.to < length rows.old.items }
    requires own { (F.meaning flow.now).Own edge.state }
    requires rows { AllOwn (F.meaning flow.now) rows.old.items }
    requires work { All (λ at. at < length rows.old.items) work.old.keys }
    ensures advances { OnOk result (Advances (F.meaning flow.now)
        rows.old.items work.old.keys rows.new.items work.new.keys) }
    ensures covered { OnOk result (Covers (F.meaning flow.now) rows.new.items edge.to edge.state) }
    ensures least { OnOk result ((others : List (Option F.State)) → AllOwn (F.meaning flow.now) others
        → IsBelow (F.meaning flow.now) rows.old.items others
        → Covers (F.meaning flow.now) others edge.to edge.state
        → IsBelow (F.meaning flow.now) rows.new.items others) }
{
    let Edge { to, state } = edge;
    let at = to as usize;
    if let Some(next) = raised(alloc, flow, &rows[at], state)? {
        work.insert(to)?;
        rows[at] = Some(next);
    }
    Ok(())
}

/// Hands on what a place hands on.
fn visit<F: Flow>(
    alloc: Global,
    flow: &F,
    rows: &mut Vec<Option<F::State>>,
    work: &mut BTreeSet<u32>,
    at: u32,
) -> Result<(), NoMemory>
    requires at { at < length rows.old.items }
    requires stays { StaysWithin (F.meaning flow.now) (length rows.old.items) }
    requires rows { AllOwn (F.meaning flow.now) rows.old.items }
    requires work { All (λ at. at < length rows.old.items) work.old.keys }
    ensures advances { OnOk result (Advances (F.meaning flow.now)
        rows.old.items work.old.keys rows.new.items work.new.keys) }
    ensures done { OnOk result (IsDone (F.meaning flow.now) rows.old.items rows.new.items at) }
    ensures least { OnOk result ((others : List (Option F.State))
        → IsClosed (F.meaning flow.now) (length rows.old.items) others
        → IsBelow (F.meaning flow.now) rows.old.items others
        → IsBelow (F.meaning flow.now) rows.new.items others) }
{
    let edges = match &rows[at as usize] {
        Some(before) => flow.transfer(alloc, at, before)?,
        None => return Ok(()),
    };
    for edge in edges.into_vec() {
        raise(alloc, flow, rows, work, edge)?;
    }
    Ok(())
}

/// A row for each place, none reached.
fn unreached<T: Drop>(alloc: Global, places: u32) -> Result<Vec<Option<T>>, NoMemory>
    ensures { IfOk result (λ rows. rows.items ≡ replicate places None) }
{
    let mut rows = Vec::new(alloc);
    for _ in 0..places {
        rows.push(None)?;
    }
    Ok(rows)
}

/// The least closed table of a flow over the places below `places`: it is closed, and it lies below
/// every closed table. A place that some closed table leaves unreached is unreached.
pub fn solve<F: Flow>(alloc: Global, flow: &F, places: u32) -> Result<Table<F::State>, NoMemory>
    requires { StaysWithin (F.meaning flow.now) places }
    ensures { IfOk result (λ table. IsLeastClosed (F.meaning flow.now) places table.rows) }
{
    if places == 0 {
        return Ok(Table {
            rows: Row::new(alloc),
        });
    }
    let mut rows = unreached(alloc, places)?;
    let mut work = BTreeSet::new(alloc);
    let state = flow.entry(alloc)?;
    raise(alloc, flow, &mut rows, &mut work, Edge { to: 0, state })?;
    while let Some(at) = work.pop_first() {
        visit(alloc, flow, &mut rows, &mut work, at)?;
    }
    Ok(Table {
        rows: Row::of(rows),
    })
}
