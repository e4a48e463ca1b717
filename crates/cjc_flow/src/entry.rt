//! How a method begins, in intervals. Called by ranging.rt. Knows no instruction.

ghost use Rattle.std.specs.Prelude.{◌≡◌, ◌++◌, replicate, take, IfOk};
ghost use Rattle.cjc_intervals.specs.Flow.{argument_ranges, first_state};

use crate::intervals::{Intervals, full_interval};
use crate::state::Ranges;
use crate::values;
use cjc_fixpoint::bytes::{NoMemory, Row, is_static};
use cjc_range::Interval;
use cjc_types::Method;
use std::alloc::Global;

/// The intervals of the arguments.
fn arguments(alloc: Global, method: &Method<'_>) -> Result<Row<Interval>, NoMemory>
    ensures { IfOk result (λ cells. cells ≡ argument_ranges method.now) }
{
    let mut cells = Row::new(alloc);
    if !is_static(method.flags()) {
        cells.push(full_interval())?;
    }
    values::put_parameters(&mut cells, method.desc())?;
    Ok(cells)
}

/// How the method begins: an empty stack, and the arguments in the first locals.
pub(crate) fn first(alloc: Global, method: &Method<'_>) -> Result<Ranges, NoMemory>
    ensures { IfOk result (λ state. state ≡ first_state method.now) }
{
    let max_locals = method.max_locals();
    let mut locals = arguments(alloc, method)?.into_vec();
    for _ in 0..max_locals {
        locals.push(full_interval())?;
    }
    locals.truncate(max_locals as usize);
    Ok(Ranges {
        stack: Some(Intervals::new(alloc)),
        locals: Row::of(locals),
    })
}
