//! States of range inference: an interval for each word of a frame, ordered and joined as the solver asks. A
//! word that holds no number has the full interval.

ghost use Rattle.std.specs.Prelude.{◌≡◌, ◌≤◌, ◌+◌, ◌*◌, ◌^◌, IfOk, IsTrue};
ghost use Rattle.cjc_intervals.specs.Frames.{IsStack, joined_stack, spans, spans_of, stack_of, stack_rank, states};
ghost use Rattle.cjc_intervals.specs.Steps.{operand};
ghost use Rattle.cjc_flow.specs.States.{stack_in};

use crate::intervals::{self, Intervals};
use cjc_fixpoint::bytes::{NoMemory, Row};
use cjc_range::Interval;
use std::alloc::Global;
use std::marker::Model;

/// An interval for each word of a frame before an instruction; of a word that is no number it is full.
#[derive(Drop)]
pub struct Ranges {
    /// The operand stack; none where ways with stacks of different heights meet.
    pub(crate) stack: Option<Intervals>,
    pub(crate) locals: Row<Interval>,
}

impl Model for Ranges {
    ghost use Rattle.cjc_intervals.specs.Frames.{RangeState};
    ghost use Rattle.cjc_flow.specs.States.{stack_in};

    ghost Value = { RangeState };

    ghost view = { λ r. record { stack = stack_in r.stack; locals = r.locals } };
}

impl Ranges {
    /// The interval of the k-th operand from the top; of one that is missing all numbers.
    pub fn operand(&self, k: usize) -> Interval
        ensures { result ≡ operand (spans_of self.now.stack) k }
    {
        match &self.stack {
            Some(cells) => cells.get(k),
            None => intervals::full_interval(),
        }
    }

    /// The interval of a local; of one that is missing all numbers.
    pub fn local(&self, k: usize) -> Interval
        ensures { result ≡ operand self.now.locals k }
    {
        match self.locals.items().get(k) {
            Some(interval) => *interval,
            None => intervals::full_interval(),
        }
    }
}

/// The stack of these intervals.
#[tactic(auto, unfolding(cjc_types::specs::States::most_cells))]
pub(crate) fn stack_of(cells: Intervals) -> Option<Intervals>
    ensures { stack_in result ≡ stack_of cells }
{
    if cells.len() <= 393_216 {
        Some(cells)
    } else {
        None
    }
}

fn copied_stack(alloc: Global, stack: &Option<Intervals>) -> Result<Option<Intervals>, NoMemory>
    ensures { IfOk result (λ copied. copied ≡ stack.now) }
{
    match stack {
        Some(cells) => Ok(Some(cells.copied(alloc)?)),
        None => Ok(None),
    }
}

/// The least stack above both, made of the first.
fn joined_stacks(left: Option<Intervals>, right: &Option<Intervals>) -> Option<Intervals>
    ensures { stack_in result ≡ joined_stack spans (stack_in left) (stack_in right.now) }
{
    match (left, right) {
        (Some(cells), Some(others)) if cells.len() == others.len() => Some(cells.joined(others)),
        _ => None,
    }
}

/// Whether to join the other stack changes nothing.
fn is_stack_above(left: &Option<Intervals>, right: &Option<Intervals>) -> bool
    ensures { IsTrue result → joined_stack spans (stack_in left.now) (stack_in right.now) ≡ stack_in left.now }
{
    match (left, right) {
        (Some(cells), Some(others)) => cells.len() == others.len() && cells.is_above(others),
        (None, _) => true,
        _ => false,
    }
}

#[tactic(auto, unfolding(cjc_types::specs::States::most_cells))]
fn rank_of_stack(stack: &Option<Intervals>) -> u64
    requires { IsStack spans (stack_in stack.now) }
    ensures rank { result ≡ stack_rank spans (stack_in stack.now) }
    ensures small { result ≤ 393216 * 2 ^ 32 + 1 }
{
    match stack {
        Some(cells) => cells.width(),
        None => 393_216 * 4_294_967_295 + 1,
    }
}

/// The same state once more.
pub(crate) fn copied(alloc: Global, state: &Ranges) -> Result<Ranges, NoMemory>
    ensures { IfOk result (λ copied. copied ≡ state.now) }
{
    Ok(Ranges {
        stack: copied_stack(alloc, &state.stack)?,
        locals: Row::of(Vec::from_slice(alloc, state.locals.items())?),
    })
}

/// The least state above both, made of the first.
pub(crate) fn joined(max_locals: u16, left: Ranges, right: &Ranges) -> Ranges
    requires left { (states max_locals).Own left }
    requires right { (states max_locals).Own right.now }
    ensures { result ≡ (states max_locals).join left right.now }
{
    let Ranges { stack, locals } = left;
    Ranges {
        stack: joined_stacks(stack, &right.stack),
        locals: Row::of(intervals::joined(locals.into_vec(), right.locals.items())),
    }
}

/// Whether to join the other state changes nothing.
pub(crate) fn is_above(max_locals: u16, left: &Ranges, right: &Ranges) -> bool
    requires left { (states max_locals).Own left.now }
    requires right { (states max_locals).Own right.now }
    ensures { IsTrue result → (states max_locals).join left.now right.now ≡ left.now }
{
    is_stack_above(&left.stack, &right.stack)
        && intervals::are_above(left.locals.items(), right.locals.items())
}

/// How high a state stands in their order.
pub(crate) fn rank(max_locals: u16, state: &Ranges) -> u64
    requires { (states max_locals).Own state.now }
    ensures { result ≡ (states max_locals).rank state.now }
{
    rank_of_stack(&state.stack) + intervals::width_of_all(state.locals.items())
}
