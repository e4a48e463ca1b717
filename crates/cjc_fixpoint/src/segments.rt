//! The flow over segments. A segment is a marked place with the places behind it up to the next
//! mark. Along it the state is handed on from place to place, and only its edges to marked places
//! are edges of the segment.

ghost use Rattle.std.specs.Prelude.{◌≡◌, ◌+◌, ◌==◌, if◌then◌else◌, [], ◌∷◌, ◌++◌, ◌-◌, ◌<◌, ◌≤◌, ◌||◌, true, is_some};
ghost use Rattle.std.specs.Prelude.{ℕ, None, Some, length, filter_map, Contains, IfOk, OnOk};
ghost use Rattle.cjc_fixpoint.specs.declared.flow.Edge.{Edge as Leads};
ghost use Rattle.std.specs.Ordering.{nat_cmp};
ghost use Rattle.std.specs.BTreeMap.{get as state_at};
ghost use Rattle.cjc_fixpoint.specs.Gathered.{gathered};
ghost use Rattle.cjc_fixpoint.specs.Working.HandedLaws.{OwnMaybe};
ghost use Rattle.cjc_fixpoint.specs.Kept.{AreMarks, IsAscending, merged, handed, handed_more, mark_of as mark_at};
ghost use Rattle.cjc_fixpoint.specs.Segments.{to_segment, segment_end};
ghost use Rattle.cjc_fixpoint.specs.Shortened.{asked, short_run};

use crate::flow::{Edge, Flow, Repeating};
use crate::handed::merged;
use crate::marks::mark_of;
use crate::pending::{hand, listed};
use cjc_bytes::{NoMemory, Row};
use std::alloc::Global;
use std::collections::BTreeMap;

/// The place behind a segment.
fn end_of(places: u32, marks: &[u32], segment: usize) -> u32
    requires { segment < length marks.now }
    ensures { result ≡ segment_end places marks.now segment }
{
    match marks.get(segment + 1) {
        Some(end) => *end,
        None => places,
    }
}

/// The flow over the segments of a flow.
#[derive(Drop)]
pub(crate) struct Segments<'a, F: Flow> {
    pub(crate) flow: &'a F,
    pub(crate) places: u32,
    pub(crate) marks: &'a [u32],
    ghost marked: { AreMarks places marks.now },
}

/// Deals an edge out: to the place `next`, if that lies before `end`, or to a marked place. What the
/// place has then is the result.
fn deal_one<F: Flow>(
    alloc: Global,
    flow: &F,
    marks: &[u32],
    next: u32,
    end: u32,
    row: Option<F::State>,
    edge: Edge<F::State>,
    out: &mut BTreeMap<u32, F::State>,
) -> Result<Option<F::State>, NoMemory>
    requires ascending { IsAscending marks.now }
    requires unmarked { next < end → mark_at marks.now next ≡ None }
    requires row { OwnMaybe (F.meaning flow.now) row }
    requires own { (F.meaning flow.now).Own edge.state }
    requires out { (k : ℕ) → OwnMaybe (F.meaning flow.now) (state_at nat_cmp out.old k) }
    ensures out { OnOk result ((k : ℕ) → state_at nat_cmp out.new k ≡ handed_more (F.meaning flow.now) k
        (state_at nat_cmp out.old k) (filter_map (to_segment marks.now) (edge ∷ []))) }
    ensures own { IfOk result (OwnMaybe (F.meaning flow.now)) }
    ensures next { IfOk result (λ more. next < end → more ≡ merged (F.meaning flow.now) row (if edge.to == next
        then Some edge.state else None)) }
{
    if edge.to == next && next < end {
        return merged(alloc, flow, row, edge.state);
    }
    if let Some(to) = mark_of(marks, edge.to) {
        hand(alloc, flow, out, to, edge.state)?;
    }
    Ok(row)
}

/// Deals edges out: to the place `next`, if it lies before `end`, and to marked places.
fn deal<F: Flow>(
    alloc: Global,
    flow: &F,
    marks: &[u32],
    next: u32,
    end: u32,
    edges: Row<Edge<F::State>>,
    out: &mut BTreeMap<u32, F::State>,
) -> Result<Option<F::State>, NoMemory>
    requires ascending { IsAscending marks.now }
    requires unmarked { next < end → mark_at marks.now next ≡ None }
    requires own { (e : Leads F.State) → Contains edges e → (F.meaning flow.now).Own e.state }
    requires out { (k : ℕ) → OwnMaybe (F.meaning flow.now) (state_at nat_cmp out.old k) }
    ensures out { OnOk result ((k : ℕ) → state_at nat_cmp out.new k ≡ handed_more (F.meaning flow.now) k
        (state_at nat_cmp out.old k) (filter_map (to_segment marks.now) edges)) }
    ensures own { IfOk result (OwnMaybe (F.meaning flow.now)) }
    ensures next { IfOk result (λ row. next < end → row ≡ handed (F.meaning flow.now) next edges) }
{
    let mut row = None;
    for edge in edges.into_vec() {
        row = deal_one(alloc, flow, marks, next, end, row, edge, out)?;
    }
    Ok(row)
}

/// Whether a place is asked for what it hands to segments.
fn is_asked(marks: &[u32], next: u32, asks: bool) -> bool
    requires { IsAscending marks.now }
    ensures { result ≡ (asks || is_some (mark_at marks.now next)) }
{
    if asks {
        true
    } else {
        mark_of(marks, next).is_some()
    }
}

/// Lets what a place hands to segments wait, if it is asked. What it hands to the next place, if that
/// lies before `end`, is the result.
fn go_on<F: Repeating>(
    alloc: Global,
    flow: &F,
    marks: &[u32],
    at: u32,
    end: u32,
    asks: bool,
    state: F::State,
    out: &mut BTreeMap<u32, F::State>,
) -> Result<Option<F::State>, NoMemory>
    requires inside { at < end }
    requires ascending { IsAscending marks.now }
    requires unmarked { at + 1 < end → mark_at marks.now (at + 1) ≡ None }
    requires own { (F.meaning flow.now).Own state }
    requires out { (k : ℕ) → OwnMaybe (F.meaning flow.now) (state_at nat_cmp out.old k) }
    ensures out { OnOk result ((k : ℕ) → state_at nat_cmp out.new k ≡ handed_more (F.meaning flow.now) k
        (state_at nat_cmp out.old k) (asked (F.meaning flow.now) marks.now (asks
        || is_some (mark_at marks.now (at + 1))) at state)) }
    ensures own { IfOk result (OwnMaybe (F.meaning flow.now)) }
    ensures next { IfOk result (λ row. at + 1 < end
        → row ≡ handed (F.meaning flow.now) (at + 1) ((F.meaning flow.now).edges at state)) }
{
    if is_asked(marks, at + 1, asks) {
        let edges = flow.step(alloc, at, state)?;
        deal(alloc, flow, marks, at + 1, end, edges, out)
    } else {
        flow.pass(alloc, at, state)
    }
}

/// Lets what the places from `start` up to `end` hand to segments wait.
fn run<F: Repeating>(
    alloc: Global,
    flow: &F,
    marks: &[u32],
    start: u32,
    end: u32,
    state: F::State,
    out: &mut BTreeMap<u32, F::State>,
) -> Result<(), NoMemory>
    requires ascending { IsAscending marks.now }
    requires unmarked { (at : ℕ) → start < at → at < end → mark_at marks.now at ≡ None }
    requires own { (F.meaning flow.now).Own state }
    requires out { (k : ℕ) → OwnMaybe (F.meaning flow.now) (state_at nat_cmp out.old k) }
    ensures { OnOk result ((k : ℕ) → state_at nat_cmp out.new k ≡ handed_more (F.meaning flow.now) k
        (state_at nat_cmp out.old k) (short_run (F.meaning flow.now) marks.now (F.again flow.now) (end - start) start
        true (Some state))) }
{
    let mut row = Some(state);
    let mut asks = true;
    for at in start..end {
        let state = match row {
            Some(state) => state,
            None => return Ok(()),
        };
        row = go_on(alloc, flow, marks, at, end, asks, state, out)?;
        asks = !flow.repeats(at + 1);
    }
    Ok(())
}

/// What the places from `start` up to `end` hand to segments, gathered.
fn gathered<F: Repeating>(
    alloc: Global,
    flow: &F,
    marks: &[u32],
    start: u32,
    end: u32,
    state: F::State,
) -> Result<Row<Edge<F::State>>, NoMemory>
    requires ascending { IsAscending marks.now }
    requires unmarked { (at : ℕ) → start < at → at < end → mark_at marks.now at ≡ None }
    requires own { (F.meaning flow.now).Own state }
    ensures { IfOk result (λ edges. edges ≡ gathered (F.meaning flow.now) (length marks.now)
        (short_run (F.meaning flow.now) marks.now (F.again flow.now) (end - start) start true (Some state))) }
{
    let mut out = BTreeMap::new(alloc);
    run(alloc, flow, marks, start, end, state, &mut out)?;
    listed(alloc, out)
}

impl<F: Repeating> Flow for Segments<'_, F> {
    ghost use Rattle.cjc_fixpoint.specs.Shortened.{shortened};
    ghost use Rattle.cjc_fixpoint.specs.Working.ShortenedLaws.{shortened_laws};
    ghost use Rattle.cjc_fixpoint.specs.Gathered.{gathering};
    ghost use Rattle.cjc_fixpoint.specs.Working.GatheredLaws.{gathering_laws};

    type State = F::State;

    ghost meaning = { λ s. gathering (shortened (F.meaning s.flow.now) s.places s.marks.now (F.again s.flow.now))
        (length s.marks.now) };

    ghost laws = { λ s. gathering_laws (shortened (F.meaning s.flow.now) s.places s.marks.now (F.again s.flow.now))
        (shortened_laws (F.meaning s.flow.now) (F.laws s.flow.now) s.places s.marks.now (F.again s.flow.now)
        (F.repeated s.flow.now)) (length s.marks.now) };

    fn copy(&self, alloc: Global, state: &F::State) -> Result<F::State, NoMemory> {
        self.flow.copy(alloc, state)
    }

    fn join(&self, alloc: Global, left: &F::State, right: &F::State) -> Result<F::State, NoMemory> {
        self.flow.join(alloc, left, right)
    }

    fn is_above(&self, row: &F::State, state: &F::State) -> bool {
        self.flow.is_above(row, state)
    }

    fn transfer(
        &self,
        alloc: Global,
        at: u32,
        before: &F::State,
    ) -> Result<Row<Edge<F::State>>, NoMemory> {
        let segment = at as usize;
        let start = match self.marks.get(segment) {
            Some(start) => *start,
            None => return Ok(Row::new(alloc)),
        };
        let end = end_of(self.places, self.marks, segment);
        let state = self.flow.copy(alloc, before)?;
        gathered(alloc, self.flow, self.marks, start, end, state)
    }

    fn entry(&self, alloc: Global) -> Result<F::State, NoMemory> {
        self.flow.entry(alloc)
    }

    fn rank(&self, state: &F::State) -> u64 {
        self.flow.rank(state)
    }

    fn height(&self) -> u64 {
        self.flow.height()
    }
}
