//! States of type inference: cells for the locals and for the stack, ordered and joined as the solver asks,
//! with a clash where stacks of two heights meet.

ghost use Rattle.std.specs.Prelude.{◌≡◌, ◌≤◌, ◌+◌, ◌*◌, ◌^◌, length, sum_by, All, IfOk, IsTrue};
ghost use Rattle.cjc_fixpoint.specs.Lattice.{joined as joined_in_turn};
ghost use Rattle.cjc_types.specs.Cells.{IsCell, cell_rank, joined_cell};
ghost use Rattle.cjc_types.specs.States.{IsStack, joined_stack, stack_of, stack_rank, states};

use crate::cell::{self, Cell};
use crate::operands::Operands;
use crate::recent::{Recent, Sets};
use cjc_bytes::{NoMemory, Row};
use std::alloc::Global;
use std::mem;

/// An operand stack.
#[derive(Drop)]
pub enum Stack {
    /// Its cells.
    Cells(Operands),
    /// Two ways come here with stacks of different heights.
    Clash,
}

/// What is known of a frame before an instruction.
#[derive(Drop)]
pub struct State {
    pub stack: Stack,
    pub locals: Row<Cell>,
}

/// The same cells once more.
pub(crate) fn copied_cells(alloc: Global, cells: &[Cell]) -> Result<Row<Cell>, NoMemory>
    ensures { IfOk result (λ copied. copied ≡ cells.now) }
{
    let mut copied = Vec::with_capacity(alloc, cells.len())?;
    for cell in cells {
        copied.push(cell::copied(cell)?)?;
    }
    Ok(Row::of(copied))
}

/// The cells joined in turn, made of the first ones.
pub(crate) fn joined_cells(
    alloc: Global,
    recent: &mut Sets,
    left: Vec<Cell>,
    right: &[Cell],
) -> Result<Vec<Cell>, NoMemory>
    requires sized { length left.items ≡ length right.now }
    requires left { All IsCell left.items }
    requires right { All IsCell right.now }
    ensures { IfOk result (λ cells. cells.items ≡ joined_in_turn joined_cell left.items right.now) }
{
    let mut cells = left;
    for i in 0..right.len() {
        let cell = mem::replace(&mut cells[i], Cell::Unusable);
        cells[i] = cell::joined(alloc, recent, i, cell, &right[i])?;
    }
    Ok(cells)
}

/// Whether to join the other cells in turn changes none.
pub(crate) fn are_above(left: &[Cell], right: &[Cell]) -> bool
    requires sized { length left.now ≡ length right.now }
    requires left { All IsCell left.now }
    requires right { All IsCell right.now }
    ensures { IsTrue result → joined_in_turn joined_cell left.now right.now ≡ left.now }
{
    for i in 0..left.len() {
        if !cell::is_above(&left[i], &right[i]) {
            return false;
        }
    }
    true
}

/// How high cells stand together.
pub(crate) fn cells_rank(cells: &[Cell]) -> u64
    requires few { length cells.now ≤ 393216 }
    requires own { All IsCell cells.now }
    ensures rank { result ≡ sum_by cell_rank cells.now }
    ensures small { result ≤ length cells.now * 2 ^ 32 }
{
    let mut total = 0;
    for cell in cells {
        total += cell::rank(cell);
    }
    total
}

/// The stack of these cells.
#[tactic(auto, unfolding(crate::specs::States::most_cells))]
pub(crate) fn stack_of(cells: Operands) -> Stack
    ensures { result ≡ stack_of cells }
{
    if cells.len() <= 393_216 {
        Stack::Cells(cells)
    } else {
        Stack::Clash
    }
}

fn copied_stack(alloc: Global, stack: &Stack) -> Result<Stack, NoMemory>
    ensures { IfOk result (λ copied. copied ≡ stack.now) }
{
    match stack {
        Stack::Cells(cells) => Ok(Stack::Cells(cells.copied(alloc)?)),
        Stack::Clash => Ok(Stack::Clash),
    }
}

/// The least stack above both, made of the first.
fn joined_stacks(
    alloc: Global,
    recent: &mut Recent,
    left: Stack,
    right: &Stack,
) -> Result<Stack, NoMemory>
    requires left { IsStack left }
    requires right { IsStack right.now }
    ensures { IfOk result (λ joined. joined ≡ joined_stack left right.now) }
{
    match (left, right) {
        (Stack::Cells(cells), Stack::Cells(others)) if cells.len() == others.len() => {
            Ok(Stack::Cells(cells.joined(alloc, recent, others)?))
        }
        _ => Ok(Stack::Clash),
    }
}

/// Whether to join the other stack changes nothing.
fn is_stack_above(left: &Stack, right: &Stack) -> bool
    requires left { IsStack left.now }
    requires right { IsStack right.now }
    ensures { IsTrue result → joined_stack left.now right.now ≡ left.now }
{
    match (left, right) {
        (Stack::Cells(cells), Stack::Cells(others)) => {
            cells.len() == others.len() && cells.is_above(others)
        }
        (Stack::Clash, _) => true,
        _ => false,
    }
}

#[tactic(auto, unfolding(crate::specs::States::most_cells, crate::specs::Cells::most_names))]
fn rank_of_stack(stack: &Stack) -> u64
    requires { IsStack stack.now }
    ensures rank { result ≡ stack_rank stack.now }
    ensures small { result ≤ 393216 * 2 ^ 32 + 1 }
{
    match stack {
        Stack::Cells(cells) => cells.rank(),
        Stack::Clash => 393_216 * (1 << 32) + 1,
    }
}

/// The same state once more.
pub(crate) fn copied(alloc: Global, state: &State) -> Result<State, NoMemory>
    ensures { IfOk result (λ copied. copied ≡ state.now) }
{
    Ok(State {
        stack: copied_stack(alloc, &state.stack)?,
        locals: copied_cells(alloc, state.locals.items())?,
    })
}

/// The least state above both, made of the first.
pub(crate) fn joined(
    alloc: Global,
    recent: &mut Recent,
    max_locals: u16,
    left: State,
    right: &State,
) -> Result<State, NoMemory>
    requires left { (states max_locals).Own left }
    requires right { (states max_locals).Own right.now }
    ensures { IfOk result (λ joined. joined ≡ (states max_locals).join left right.now) }
{
    let State { stack, locals } = left;
    let stack = joined_stacks(alloc, recent, stack, &right.stack)?;
    let cells = joined_cells(
        alloc,
        &mut recent.locals,
        locals.into_vec(),
        right.locals.items(),
    )?;
    Ok(State {
        stack,
        locals: Row::of(cells),
    })
}

/// Whether to join the other state changes nothing.
pub(crate) fn is_above(max_locals: u16, left: &State, right: &State) -> bool
    requires left { (states max_locals).Own left.now }
    requires right { (states max_locals).Own right.now }
    ensures { IsTrue result → (states max_locals).join left.now right.now ≡ left.now }
{
    is_stack_above(&left.stack, &right.stack)
        && are_above(left.locals.items(), right.locals.items())
}

/// How high a state stands in their order.
pub(crate) fn rank(max_locals: u16, state: &State) -> u64
    requires { (states max_locals).Own state.now }
    ensures { result ≡ (states max_locals).rank state.now }
{
    rank_of_stack(&state.stack) + cells_rank(state.locals.items())
}
