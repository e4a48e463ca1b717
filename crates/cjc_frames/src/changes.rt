//! The state behind an instruction, by what the instruction takes and gives.

ghost use Rattle.std.specs.Prelude.{◌≡◌, ◌++◌, map, drop, slice_set, IfOk, OnOk};
ghost use Rattle.cjc_types.specs.Steps.{operand};
ghost use Rattle.cjc_frames.specs.Acts.{after as state_after, given, is_none, stack_after, stack_behind, with_writes};
ghost use Rattle.cjc_frames.specs.Acts.{written};
ghost use Rattle.cjc_frames.specs.Known.{stack_in};

use crate::acts::{Act, Given, Need, Write};
use crate::cells::Cell;
use crate::states::{Frame, copied_cells, stack_of};
use cjc_fixpoint::bytes::{NoMemory, Row};
use std::alloc::Global;

/// The cell at a place, once more; one that is missing counts as unusable.
fn operand(alloc: Global, cells: &[Cell], k: usize) -> Result<Cell, NoMemory>
    ensures { IfOk result (λ cell. cell ≡ operand cells.now k) }
{
    match cells.get(k) {
        Some(cell) => cell.copied(alloc),
        None => Ok(Cell::unusable()),
    }
}

/// What is given, by the locals and the stack before the instruction.
fn given(alloc: Global, locals: &[Cell], stack: &[Cell], what: &Given) -> Result<Cell, NoMemory>
    ensures { IfOk result (λ cell. cell ≡ given locals.now stack.now what.now) }
{
    match what {
        Given::ANumber => Ok(Cell::number()),
        Given::ANull => Ok(Cell::null(alloc)),
        Given::AnObject(type_) => Cell::object(alloc, type_.items()),
        Given::Lost => Ok(Cell::unusable()),
        Given::Operand(k) => operand(alloc, stack, usize::from(*k)),
        Given::Reference(k) => operand(alloc, stack, usize::from(*k))?.as_reference(alloc),
        Given::Local(k) => operand(alloc, locals, *k as usize)?.as_reference(alloc),
        Given::Element(k) => operand(alloc, stack, usize::from(*k))?.element(alloc),
        Given::Item(k) => Ok(operand(alloc, stack, usize::from(*k))?.item()),
    }
}

/// All that is given.
pub(crate) fn all_given(
    alloc: Global,
    locals: &[Cell],
    stack: &[Cell],
    what: &[Given],
) -> Result<Row<Cell>, NoMemory>
    ensures { IfOk result (λ cells. cells ≡ map (given locals.now stack.now) what.now) }
{
    let mut cells = Row::new(alloc);
    for one in what {
        cells.push(given(alloc, locals, stack, one)?)?;
    }
    Ok(cells)
}

/// Puts the same cells once more at the end, without some of the first.
fn put_rest(
    alloc: Global,
    cells: &mut Row<Cell>,
    stack: &[Cell],
    taken: usize,
) -> Result<(), NoMemory>
    ensures { OnOk result (cells.new ≡ cells.old ++ drop taken stack.now) }
{
    if taken >= stack.len() {
        return Ok(());
    }
    for cell in &stack[taken..] {
        cells.push(cell.copied(alloc)?)?;
    }
    Ok(())
}

/// The stack behind an instruction.
pub(crate) fn stack_behind(
    alloc: Global,
    act: &Act,
    locals: &[Cell],
    stack: &[Cell],
) -> Result<Row<Cell>, NoMemory>
    ensures { IfOk result (λ cells. cells ≡ stack_behind act.now locals.now stack.now) }
{
    let mut cells = all_given(alloc, locals, stack, act.gives.items())?;
    put_rest(alloc, &mut cells, stack, act.takes.items().len())?;
    Ok(cells)
}

fn after_stack(
    alloc: Global,
    act: &Act,
    locals: &[Cell],
    stack: &Option<Row<Cell>>,
) -> Result<Option<Row<Cell>>, NoMemory>
    ensures { IfOk result (λ after. stack_in after ≡ stack_after act.now locals.now (stack_in stack.now)) }
{
    match stack {
        Some(cells) => Ok(stack_of(stack_behind(alloc, act, locals, cells.items())?)),
        None => Ok(None),
    }
}

/// Whether nothing is needed.
fn is_none(needs: &[Need]) -> bool
    ensures { result ≡ is_none needs.now }
{
    needs.is_empty()
}

/// What a write puts into its local.
fn written(
    alloc: Global,
    act: &Act,
    locals: &[Cell],
    stack: &Option<Row<Cell>>,
    what: &Given,
) -> Result<Cell, NoMemory>
    ensures { IfOk result (λ cell. cell ≡ written act.now locals.now (stack_in stack.now) what.now) }
{
    match stack {
        Some(cells) => given(alloc, locals, cells.items(), what),
        None => {
            if is_none(act.takes.items()) {
                given(alloc, locals, &[], what)
            } else {
                Ok(Cell::unusable())
            }
        }
    }
}

/// Writes one local; one that is not there is left out.
fn write(
    alloc: Global,
    act: &Act,
    before: &[Cell],
    stack: &Option<Row<Cell>>,
    what: &Write,
    locals: &mut Vec<Cell>,
) -> Result<(), NoMemory>
    ensures { OnOk result (locals.new.items ≡ slice_set locals.old.items what.now.local (written act.now before.now
        (stack_in stack.now) what.now.given)) }
{
    let cell = written(alloc, act, before, stack, &what.given)?;
    let at = what.local as usize;
    if at < locals.len() {
        locals[at] = cell;
    }
    Ok(())
}

/// Writes locals, in order.
fn write_all(
    alloc: Global,
    act: &Act,
    before: &[Cell],
    stack: &Option<Row<Cell>>,
    writes: &[Write],
    locals: &mut Vec<Cell>,
) -> Result<(), NoMemory>
    ensures { OnOk result (locals.new.items ≡ with_writes act.now before.now (stack_in stack.now) writes.now
        locals.old.items) }
{
    for one in writes {
        write(alloc, act, before, stack, one, locals)?;
    }
    Ok(())
}

/// The locals behind an instruction.
fn after_locals(
    alloc: Global,
    act: &Act,
    before: &[Cell],
    stack: &Option<Row<Cell>>,
) -> Result<Row<Cell>, NoMemory>
    ensures { IfOk result (λ after. after ≡ with_writes act.now before.now (stack_in stack.now) act.now.writes
        before.now) }
{
    let mut locals = copied_cells(alloc, before)?.into_vec();
    write_all(alloc, act, before, stack, act.writes.items(), &mut locals)?;
    Ok(Row::of(locals))
}

/// The state behind an instruction.
pub(crate) fn after(alloc: Global, act: &Act, before: &Frame) -> Result<Frame, NoMemory>
    ensures { IfOk result (λ after. after ≡ state_after act.now before.now) }
{
    let locals = before.locals.items();
    Ok(Frame {
        stack: after_stack(alloc, act, locals, &before.stack)?,
        locals: after_locals(alloc, act, locals, &before.stack)?,
    })
}
