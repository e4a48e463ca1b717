//! What is known of a frame before an instruction: cells for the locals and for the stack, ordered and joined as the
//! solver asks, with a clash where stacks of two heights meet.

ghost use Rattle.std.specs.Prelude.{◌≡◌, ◌≤◌, ◌+◌, ◌*◌, ◌^◌, length, sum_by, All, IfOk};
ghost use Rattle.cjc_fixpoint.specs.Lattice.{joined as joined_in_turn};
ghost use Rattle.cjc_types.specs.Cells.{IsCell, cell_rank, joined_cell};
ghost use Rattle.cjc_types.specs.States.{IsStack, joined_stack, stack_of, stack_rank, states};
ghost use Rattle.cjc_frames.specs.Known.{stack_in};

use crate::cells::Cell;
use cjc_fixpoint::bytes::{NoMemory, Row};
use std::alloc::Global;
use std::marker::Model;

/// What is known of a frame.
#[derive(Drop)]
pub struct Frame {
    /// The operand stack, the top first; none where ways with stacks of different heights meet.
    pub(crate) stack: Option<Row<Cell>>,
    pub(crate) locals: Row<Cell>,
}

impl Model for Frame {
    ghost use Rattle.cjc_types.specs.declared.state.State.{State};
    ghost use Rattle.cjc_frames.specs.Known.{stack_in};

    ghost Value = { State };

    ghost view = { λ f. record { stack = stack_in f.stack; locals = f.locals } };
}

/// The same cells once more.
pub(crate) fn copied_cells(alloc: Global, cells: &[Cell]) -> Result<Row<Cell>, NoMemory>
    ensures { IfOk result (λ copied. copied ≡ cells.now) }
{
    let mut copied = Row::new(alloc);
    for cell in cells {
        copied.push(cell.copied(alloc)?)?;
    }
    Ok(copied)
}

/// Two lists of one length, joined cell by cell.
fn joined_cells(alloc: Global, left: &[Cell], right: &[Cell]) -> Result<Row<Cell>, NoMemory>
    requires sized { length left.now ≡ length right.now }
    requires left { All IsCell left.now }
    requires right { All IsCell right.now }
    ensures { IfOk result (λ cells. cells ≡ joined_in_turn joined_cell left.now right.now) }
{
    let mut cells = Row::new(alloc);
    for i in 0..left.len() {
        let other = right[i].copied(alloc)?;
        cells.push(left[i].joined(alloc, other)?)?;
    }
    Ok(cells)
}

/// How high cells stand together.
fn cells_rank(cells: &[Cell]) -> u64
    requires few { length cells.now ≤ 393216 }
    requires own { All IsCell cells.now }
    ensures rank { result ≡ sum_by cell_rank cells.now }
    ensures small { result ≤ length cells.now * 2 ^ 32 }
{
    let mut total = 0;
    for cell in cells {
        total += cell.rank();
    }
    total
}

/// The stack of these cells.
#[tactic(auto, unfolding(cjc_types::specs::States::most_cells))]
pub(crate) fn stack_of(cells: Row<Cell>) -> Option<Row<Cell>>
    ensures { stack_in result ≡ stack_of cells }
{
    if cells.items().len() <= 393_216 {
        Some(cells)
    } else {
        None
    }
}

fn copied_stack(alloc: Global, stack: &Option<Row<Cell>>) -> Result<Option<Row<Cell>>, NoMemory>
    ensures { IfOk result (λ copied. copied ≡ stack.now) }
{
    match stack {
        Some(cells) => Ok(Some(copied_cells(alloc, cells.items())?)),
        None => Ok(None),
    }
}

/// The least stack above both.
fn joined_stacks(
    alloc: Global,
    left: &Option<Row<Cell>>,
    right: &Option<Row<Cell>>,
) -> Result<Option<Row<Cell>>, NoMemory>
    requires left { IsStack (stack_in left.now) }
    requires right { IsStack (stack_in right.now) }
    ensures { IfOk result (λ joined. stack_in joined ≡ joined_stack (stack_in left.now) (stack_in right.now)) }
{
    match (left, right) {
        (Some(cells), Some(others)) if cells.items().len() == others.items().len() => {
            Ok(Some(joined_cells(alloc, cells.items(), others.items())?))
        }
        _ => Ok(None),
    }
}

#[tactic(auto, unfolding(cjc_types::specs::States::most_cells, cjc_types::specs::Cells::most_names))]
fn rank_of_stack(stack: &Option<Row<Cell>>) -> u64
    requires { IsStack (stack_in stack.now) }
    ensures rank { result ≡ stack_rank (stack_in stack.now) }
    ensures small { result ≤ 393216 * 2 ^ 32 + 1 }
{
    match stack {
        Some(cells) => cells_rank(cells.items()),
        None => 393_216 * (1 << 32) + 1,
    }
}

/// The same state once more.
pub(crate) fn copied(alloc: Global, state: &Frame) -> Result<Frame, NoMemory>
    ensures { IfOk result (λ copied. copied ≡ state.now) }
{
    Ok(Frame {
        stack: copied_stack(alloc, &state.stack)?,
        locals: copied_cells(alloc, state.locals.items())?,
    })
}

/// The least state above both.
pub(crate) fn joined(
    alloc: Global,
    local_count: u16,
    left: &Frame,
    right: &Frame,
) -> Result<Frame, NoMemory>
    requires left { (states local_count).Own left.now }
    requires right { (states local_count).Own right.now }
    ensures { IfOk result (λ joined. joined ≡ (states local_count).join left.now right.now) }
{
    Ok(Frame {
        stack: joined_stacks(alloc, &left.stack, &right.stack)?,
        locals: joined_cells(alloc, left.locals.items(), right.locals.items())?,
    })
}

/// How high a state stands in their order.
pub(crate) fn rank(local_count: u16, state: &Frame) -> u64
    requires { (states local_count).Own state.now }
    ensures { result ≡ (states local_count).rank state.now }
{
    rank_of_stack(&state.stack) + cells_rank(state.locals.items())
}
