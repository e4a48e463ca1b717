//! Methods with their marked places: which of the others hand nothing to handlers but what the place before
//! hands to them, so that they need not be asked for it again. Called by inference.rt, and by the flows of
//! crates above that hand to handlers by the same locals. Knows no solver but as the flow that is asked.

ghost use Rattle.std.specs.Prelude.{◌≡◌, ◌<◌, true, false, slice_get, slice_set, IfOk};
ghost use Rattle.cjc_types.specs.Flow.{type_flow};
ghost use Rattle.cjc_types.specs.Index.{AreInOrder};
ghost use Rattle.cjc_types.specs.Marks.{marks_of};
ghost use Rattle.cjc_types.specs.Repeats.{IsFrom, CoverAlike, keeps_locals as is_keeping_locals};
ghost use Rattle.cjc_types.specs.Repeats.{repeats_at as repeats_here, repeats_by};

use crate::insns;
use crate::method::Method;
use crate::recent::Recent;
use crate::state::{self, State};
use cjc_bytes::{NoMemory, Row};
use cjc_classfile::Catch;
use cjc_code::{JInsn, JOp};
use cjc_fixpoint::{Edge, Flow, Repeating, is_marked, moved_on};
use std::alloc::Global;
use std::cell::Cell;

/// The place of the first instruction from an offset on.
fn place_from(insns: &[JInsn], offset: u32) -> usize
    requires { AreInOrder insns.now }
    ensures { IsFrom insns.now offset result }
{
    let mut low = 0;
    let mut high = insns.len();
    while low < high {
        let middle = low + (high - low) / 2;
        if insns[middle].at < offset {
            low = middle + 1;
        } else {
            high = middle;
        }
    }
    low
}

/// Sets the bound at a place, if there is one.
fn put_bound(bounds: &mut Vec<bool>, place: usize)
    ensures { bounds.new.items ≡ slice_set bounds.old.items place true }
{
    if place < bounds.len() {
        bounds[place] = true;
    }
}

/// The places at which ranges of handlers begin or end: where an instruction is the first one from there on.
fn bounds(alloc: Global, insns: &[JInsn], catches: &[Catch]) -> Result<Row<bool>, NoMemory>
    requires { AreInOrder insns.now }
    ensures { IfOk result (λ bounds. CoverAlike insns.now bounds catches.now) }
{
    let mut bounds = vec![in alloc; false; insns.len()]?;
    for catch in catches {
        let start = place_from(insns, u32::from(catch.start));
        let end = place_from(insns, u32::from(catch.end));
        put_bound(&mut bounds, start);
        put_bound(&mut bounds, end);
    }
    Ok(Row::of(bounds))
}

/// Whether an instruction leaves all locals as they are.
fn keeps_locals(op: &JOp) -> bool
    ensures { result ≡ is_keeping_locals op.now }
{
    match op {
        JOp::Store { .. } | JOp::Inc { .. } => false,
        _ => true,
    }
}

/// Whether the second of two instructions hands no other locals to handlers, where neither a mark nor a bound
/// is between them.
fn repeats_behind(insns: &[JInsn], before: usize, here: usize) -> bool
    ensures { result ≡ repeats_by false (slice_get insns.now before) (slice_get insns.now here) }
{
    match (insns.get(before), insns.get(here)) {
        (Some(before), Some(here)) => !insns::jumps(&here.op) && keeps_locals(&before.op),
        _ => false,
    }
}

/// The places at which ranges of a method's handlers begin or end.
pub fn bounds_of(alloc: Global, method: &Method<'_>) -> Result<Row<bool>, NoMemory>
    ensures { IfOk result (λ bounds. CoverAlike method.now.insns bounds method.now.catches) }
{
    bounds(alloc, method.insns, method.catches)
}

/// Whether a place is neither marked nor at a bound, does not jump, and stands behind an instruction that keeps
/// the locals: then it hands its handlers nothing that the place before does not hand them.
pub fn repeats_at(method: &Method<'_>, marks: &[u32], bounds: &[bool], at: u32) -> bool
    requires { marks.now ≡ marks_of method.now }
    ensures { result ≡ repeats_here method.now bounds.now at }
{
    let here = at as usize;
    if here == 0 {
        return false;
    }
    if is_marked(marks, at) {
        return false;
    }
    match bounds.get(here) {
        Some(true) => false,
        _ => repeats_behind(method.insns, here - 1, here),
    }
}

/// A method with its marked places, and with the places at which ranges of its handlers begin or end.
#[derive(Drop)]
pub(crate) struct MarkedMethod<'a> {
    pub(crate) method: &'a Method<'a>,
    pub(crate) marks: &'a Row<u32>,
    pub(crate) bounds: &'a [bool],
    /// What joins made last.
    pub(crate) recent: Cell<Recent>,
    ghost marked: { marks.now ≡ marks_of method.now },
    ghost alike: { CoverAlike method.now.insns bounds.now method.now.catches },
}

impl Flow for MarkedMethod<'_> {
    ghost use Rattle.cjc_types.specs.Flow.{type_flow};
    ghost use Rattle.cjc_types.specs.Working.FlowLaws.{type_laws};

    type State = State;

    ghost meaning = { λ m. type_flow m.method.now };

    ghost laws = { λ m. type_laws m.method.now };

    fn copy(&self, alloc: Global, state: &State) -> Result<State, NoMemory> {
        self.method.copy(alloc, state)
    }

    fn join(&self, alloc: Global, left: &State, right: &State) -> Result<State, NoMemory> {
        self.join_into(alloc, state::copied(alloc, left)?, right)
    }

    fn join_into(&self, alloc: Global, left: State, right: &State) -> Result<State, NoMemory> {
        let mut recent = self.recent.replace(Recent::new(alloc));
        let joined = state::joined(alloc, &mut recent, self.method.max_locals(), left, right);
        self.recent.set(recent);
        joined
    }

    fn is_above(&self, row: &State, state: &State) -> bool {
        self.method.is_above(row, state)
    }

    fn transfer(
        &self,
        alloc: Global,
        at: u32,
        before: &State,
    ) -> Result<Row<Edge<State>>, NoMemory> {
        self.method.transfer(alloc, at, before)
    }

    fn step(&self, alloc: Global, at: u32, before: State) -> Result<Row<Edge<State>>, NoMemory> {
        self.method.step(alloc, at, before)
    }

    fn entry(&self, alloc: Global) -> Result<State, NoMemory> {
        Flow::entry(self.method, alloc)
    }

    fn rank(&self, state: &State) -> u64 {
        self.method.rank(state)
    }

    fn height(&self) -> u64 {
        self.method.height()
    }
}

impl Repeating for MarkedMethod<'_> {
    ghost use Rattle.cjc_types.specs.Repeats.{repeats_at as repeats_here};
    ghost use Rattle.cjc_types.specs.Working.RepeatLaws.{repeats_are};

    ghost again = { λ m at. repeats_here m.method.now m.bounds.now at };

    ghost repeated = { λ m. repeats_are m.method.now m.bounds.now m.alike };

    fn repeats(&self, at: u32) -> bool {
        repeats_at(self.method, self.marks.items(), self.bounds, at)
    }

    fn pass(&self, alloc: Global, at: u32, before: State) -> Result<Option<State>, NoMemory> {
        if is_marked(self.marks.items(), at + 1) {
            return moved_on(alloc, self, at, Some(before));
        }
        self.method.go_on(alloc, at, before)
    }
}
