//! States that wait to be handed on: at most one for each place, joined as they come.

ghost use Rattle.std.specs.Prelude.{◌≡◌, ◌==◌, if◌then◌else◌, ℕ, Some, None, map, IsTrue, IfOk, OnOk};
ghost use Rattle.std.specs.Ordering.{nat_cmp};
ghost use Rattle.std.specs.BTreeMap.{get as state_at, IsOrdered};
ghost use Rattle.cjc_fixpoint.specs.Working.HandedLaws.{OwnMaybe};
ghost use Rattle.cjc_fixpoint.specs.Gathered.{edge_of};
ghost use Rattle.cjc_fixpoint.specs.Kept.{merged};

use crate::flow::{Edge, Flow};
use cjc_bytes::{NoMemory, Row};
use std::alloc::Global;
use std::collections::BTreeMap;

/// Whether the state that waits for a place is seen to be above another, which then changes nothing.
fn is_known<F: Flow>(flow: &F, pending: &BTreeMap<u32, F::State>, to: u32, state: &F::State) -> bool
    requires own { OwnMaybe (F.meaning flow.now) (state_at nat_cmp pending.now to) }
    requires state { (F.meaning flow.now).Own state.now }
    ensures { IsTrue result → merged (F.meaning flow.now) (state_at nat_cmp pending.now to) (Some state.now)
        ≡ state_at nat_cmp pending.now to }
{
    match pending.get(&to) {
        Some(row) => flow.is_above(row, state),
        None => false,
    }
}

/// The least state above a state and what there was before.
fn joined<F: Flow>(
    alloc: Global,
    flow: &F,
    row: Option<F::State>,
    state: F::State,
) -> Result<F::State, NoMemory>
    requires row { OwnMaybe (F.meaning flow.now) row }
    requires own { (F.meaning flow.now).Own state }
    ensures { IfOk result (λ more. Some more ≡ merged (F.meaning flow.now) row (Some state)) }
{
    match row {
        None => Ok(state),
        Some(before) => flow.join_into(alloc, before, &state),
    }
}

/// Lets a state wait for a place.
pub(crate) fn hand<F: Flow>(
    alloc: Global,
    flow: &F,
    pending: &mut BTreeMap<u32, F::State>,
    to: u32,
    state: F::State,
) -> Result<(), NoMemory>
    requires pending { (k : ℕ) → OwnMaybe (F.meaning flow.now) (state_at nat_cmp pending.old k) }
    requires own { (F.meaning flow.now).Own state }
    ensures { OnOk result ((k : ℕ) → state_at nat_cmp pending.new k ≡ merged (F.meaning flow.now)
        (state_at nat_cmp pending.old k) (if to == k then Some state else None)) }
{
    if is_known(flow, pending, to, &state) {
        return Ok(());
    }
    let row = pending.remove(&to);
    let next = joined(alloc, flow, row, state)?;
    pending.insert(to, next)?;
    Ok(())
}

/// What waits, as edges in the order of the places.
pub(crate) fn listed<T: Drop>(
    alloc: Global,
    pending: BTreeMap<u32, T>,
) -> Result<Row<Edge<T>>, NoMemory>
    ensures entries { IfOk result (λ edges. edges ≡ map edge_of pending.entries) }
    ensures ordered { IsOrdered nat_cmp pending }
{
    let mut edges = Row::new(alloc);
    for (to, state) in pending {
        edges.push(Edge { to, state })?;
    }
    Ok(edges)
}
