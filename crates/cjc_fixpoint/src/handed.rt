//! One step of a flow: what the edges of a place give to the next one, and what a place has when it is handed
//! more. It keeps no table.

ghost use Rattle.std.specs.Prelude.{◌≡◌, ◌<◌, ◌==◌, if◌then◌else◌, None, Some, Contains, IfOk};
ghost use Rattle.cjc_fixpoint.specs.declared.flow.Edge.{Edge as Leads};
ghost use Rattle.cjc_fixpoint.specs.Working.HandedLaws.{OwnMaybe};
ghost use Rattle.cjc_fixpoint.specs.Kept.{merged, handed, handed_on};

use crate::flow::{Edge, Flow};
use cjc_bytes::{NoMemory, Row};
use std::alloc::Global;

/// What a place has, when it is handed one more state.
pub(crate) fn merged<F: Flow>(
    alloc: Global,
    flow: &F,
    row: Option<F::State>,
    state: F::State,
) -> Result<Option<F::State>, NoMemory>
    requires row { OwnMaybe (F.meaning flow.now) row }
    requires own { (F.meaning flow.now).Own state }
    ensures { IfOk result (λ more. more ≡ merged (F.meaning flow.now) row (Some state)) }
{
    match row {
        None => Ok(Some(state)),
        Some(before) => Ok(Some(flow.join_into(alloc, before, &state)?)),
    }
}

/// What a place has, when an edge hands it more. An edge to another place hands it nothing.
fn with_edge<F: Flow>(
    alloc: Global,
    flow: &F,
    to: u32,
    row: Option<F::State>,
    edge: Edge<F::State>,
) -> Result<Option<F::State>, NoMemory>
    requires row { OwnMaybe (F.meaning flow.now) row }
    requires own { (F.meaning flow.now).Own edge.state }
    ensures { IfOk result (λ more. more ≡ merged (F.meaning flow.now) row (if edge.to == to then Some edge.state
        else None)) }
{
    if edge.to == to {
        merged(alloc, flow, row, edge.state)
    } else {
        Ok(row)
    }
}

/// What edges hand to a place.
fn handed<F: Flow>(
    alloc: Global,
    flow: &F,
    to: u32,
    edges: Row<Edge<F::State>>,
) -> Result<Option<F::State>, NoMemory>
    requires { (e : Leads F.State) → Contains edges e → (F.meaning flow.now).Own e.state }
    ensures { IfOk result (λ row. row ≡ handed (F.meaning flow.now) to edges) }
{
    let mut row = None;
    for edge in edges.into_vec() {
        row = with_edge(alloc, flow, to, row, edge)?;
    }
    Ok(row)
}

/// What a place hands to the next, by all its edges.
pub fn moved_on<F: Flow>(
    alloc: Global,
    flow: &F,
    at: u32,
    row: Option<F::State>,
) -> Result<Option<F::State>, NoMemory>
    requires at { at < 4294967295 }
    requires row { OwnMaybe (F.meaning flow.now) row }
    ensures { IfOk result (λ next. next ≡ handed_on (F.meaning flow.now) at row) }
{
    match row {
        None => Ok(None),
        Some(state) => {
            let edges = flow.step(alloc, at, state)?;
            handed(alloc, flow, at + 1, edges)
        }
    }
}
