//! `TypeTable`, what inference gives to the crates above: the frame before each instruction that is reached,
//! kept where ways meet.

ghost use Rattle.std.specs.Prelude.{◌≡◌, option_map, IfOk};
ghost use Rattle.cjc_types.specs.Search.{cells_of, frame_of};
ghost use Rattle.cjc_types.specs.Tables.{state_of};

use crate::cell::Cell;
use crate::operands::Operands;
use crate::state::{self, Stack, State};
use cjc_bytes::{NoMemory, Row};
use std::alloc::Global;

/// What is known of a frame before an instruction that is reached.
#[derive(Drop)]
pub struct Frame {
    /// The operand stack.
    pub stack: Operands,
    /// As many cells as the method has locals.
    pub locals: Row<Cell>,
}

/// What is known of the frames of a method, at the instructions where ways can meet. Where an instruction has
/// no mark, the frame before it is what the instruction before hands on.
#[derive(Drop)]
pub struct TypeTable {
    /// The places of the first instruction and of each to which a jump, a switch or a handler leads, in
    /// ascending order.
    pub marks: Row<u32>,
    /// For each mark the frame before its instruction; none where no way leads there.
    pub frames: Row<Option<Frame>>,
}

/// The cells of a stack; of a clash none.
fn cells_of(alloc: Global, stack: Stack) -> Operands
    ensures { result ≡ cells_of stack }
{
    match stack {
        Stack::Cells(cells) => cells,
        Stack::Clash => Operands::new(alloc),
    }
}

/// The frame of a state.
fn frame_of(alloc: Global, state: State) -> Frame
    ensures { result ≡ frame_of state }
{
    let State { stack, locals } = state;
    Frame {
        stack: cells_of(alloc, stack),
        locals,
    }
}

/// The frame of a row.
pub(crate) fn frame_in(alloc: Global, row: Option<State>) -> Option<Frame>
    ensures { result ≡ option_map frame_of row }
{
    match row {
        Some(state) => Some(frame_of(alloc, state)),
        None => None,
    }
}

/// The state of a frame.
pub(crate) fn state_of(frame: Frame) -> State
    ensures { result ≡ state_of frame }
{
    let Frame { stack, locals } = frame;
    State {
        stack: Stack::Cells(stack),
        locals,
    }
}

/// A frame once more.
pub(crate) fn copied_frame(alloc: Global, frame: &Option<Frame>) -> Result<Option<Frame>, NoMemory>
    ensures { IfOk result (λ copied. copied ≡ frame.now) }
{
    match frame {
        Some(frame) => Ok(Some(Frame {
            stack: frame.stack.copied(alloc)?,
            locals: state::copied_cells(alloc, frame.locals.items())?,
        })),
        None => Ok(None),
    }
}
