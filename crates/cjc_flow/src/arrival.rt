//! What comes to a place where ways may meet: intervals rounded, and full where a word is no number. Called by
//! ranging.rt. Knows no instruction.

ghost use Rattle.std.specs.Prelude.{◌≡◌, if◌then◌else◌, option_map, IfOk};
ghost use Rattle.cjc_types.specs.Rules.{is_number};
ghost use Rattle.cjc_types.specs.Tables.{state_of};
ghost use Rattle.cjc_types.specs.declared.table.Frame.{Frame as Typed};
ghost use Rattle.cjc_intervals.specs.Flow.{by_types, number_range, rounded};
ghost use Rattle.cjc_flow.specs.States.{stack_in};
ghost use Rattle.cjc_flow.specs.Working.Arriving.{all_known, known_in, rounded_cells, rounded_span, stack_known};

use crate::intervals::{Intervals, full_interval};
use crate::state::Ranges;
use cjc_fixpoint::bytes::{NoMemory, Row};
use cjc_range::Interval;
use cjc_types::{Cell, Frame};
use std::alloc::Global;

fn is_number(cell: &Cell) -> bool
    ensures { result ≡ is_number cell.now }
{
    match cell {
        Cell::Number => true,
        _ => false,
    }
}

/// The interval where the cell is a number, else all numbers.
fn of_cell(cell: &Cell, interval: Interval) -> Interval
    ensures { result ≡ number_range cell.now interval }
{
    if is_number(cell) {
        interval
    } else {
        full_interval()
    }
}

fn rounded_if(rounds: bool, interval: Interval) -> Interval
    ensures { result ≡ rounded_span rounds interval }
{
    if rounds { interval.round() } else { interval }
}

/// The interval of a local by its type.
fn known_local(frame: &Option<Frame>, k: usize, interval: Interval) -> Interval
    ensures { result ≡ known_in (option_map (λ (f : Typed). f.locals) frame.now) k interval }
{
    match frame {
        Some(frame) => match frame.locals.items().get(k) {
            Some(cell) => of_cell(cell, interval),
            None => full_interval(),
        },
        None => interval,
    }
}

/// The interval of the k-th operand from the top by its type.
fn known_operand(frame: &Option<Frame>, k: usize, interval: Interval) -> Interval
    ensures { result ≡ known_in (option_map (λ (f : Typed). f.stack) frame.now) k interval }
{
    match frame {
        Some(frame) => match frame.stack.get(k) {
            Some(cell) => of_cell(cell, interval),
            None => full_interval(),
        },
        None => interval,
    }
}

/// The intervals of locals, as they arrive.
fn arrived_locals(
    alloc: Global,
    frame: &Option<Frame>,
    rounds: bool,
    locals: &[Interval],
) -> Result<Row<Interval>, NoMemory>
    ensures { IfOk result (λ arrived. arrived ≡ all_known (option_map (λ (f : Typed). f.locals) frame.now)
        (rounded_cells rounds locals.now)) }
{
    let mut arrived = Vec::with_capacity(alloc, locals.len())?;
    for k in 0..locals.len() {
        arrived.push(known_local(frame, k, rounded_if(rounds, locals[k])))?;
    }
    Ok(Row::of(arrived))
}

/// The intervals of a stack, as they arrive.
fn arrived_cells(
    alloc: Global,
    frame: &Option<Frame>,
    rounds: bool,
    stack: &Intervals,
) -> Result<Intervals, NoMemory>
    ensures { IfOk result (λ arrived. arrived ≡ all_known (option_map (λ (f : Typed). f.stack) frame.now)
        (rounded_cells rounds stack.now)) }
{
    let mut arrived = Intervals::new(alloc);
    let count = stack.len();
    for i in 0..count {
        let k = count - 1 - i;
        arrived.push(known_operand(frame, k, rounded_if(rounds, stack.get(k))))?;
    }
    Ok(arrived)
}

fn arrived_stack(
    alloc: Global,
    frame: &Option<Frame>,
    rounds: bool,
    stack: &Option<Intervals>,
) -> Result<Option<Intervals>, NoMemory>
    ensures { IfOk result (λ arrived. stack_in arrived ≡ stack_known (option_map (λ (f : Typed). f.stack) frame.now)
        rounds (stack_in stack.now)) }
{
    match stack {
        Some(cells) => Ok(Some(arrived_cells(alloc, frame, rounds, cells)?)),
        None => Ok(None),
    }
}

/// A state as it arrives at a place with this frame: rounded, where it is to be, and then by the types.
pub(crate) fn arrived(
    alloc: Global,
    frame: &Option<Frame>,
    rounds: bool,
    state: &Ranges,
) -> Result<Ranges, NoMemory>
    ensures { IfOk result (λ arrived. arrived ≡ by_types (option_map state_of frame.now) (if rounds
        then rounded state.now else state.now)) }
{
    Ok(Ranges {
        stack: arrived_stack(alloc, frame, rounds, &state.stack)?,
        locals: arrived_locals(alloc, frame, rounds, state.locals.items())?,
    })
}
