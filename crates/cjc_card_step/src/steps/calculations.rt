//! The instructions that see words alone, done by cjc_card_frame, and how they end as the machine has it: go
//! on, raise, or stuck.

ghost use Rattle.std.specs.Prelude.{IfOk};
ghost use Rattle.cjc_card_semantics.specs.Bytecode.Effects.{Do};
ghost use Rattle.cjc_card_frame.specs.Meanings.{calculation_of};
ghost use Rattle.cjc_card_semantics.specs.CapRead.Decoder.Decoded.{values};
ghost use Rattle.cjc_card_semantics.specs.Machine.Loaded.{Loaded};
ghost use Rattle.cjc_card_frame.specs.Frame.Frames.{AreOperands};
ghost use Rattle.cjc_card_step.specs.Effects.Deeds.{FollowsAlone};
ghost use Rattle.cjc_card_step.specs.Rows.{row_of};

use crate::effects::Deed;
use cjc_card_frame::frame::{Cells, Ending};
use cjc_card_frame::opcodes::Calculation;
use cjc_card_semantics::bytes::NoMemory;
use cjc_card_semantics::capread::decoder::Operands;

/// A calculation with its operands.
pub(crate) fn calculate<'a>(
    cells: &mut Cells,
    room: usize,
    calculation: Calculation,
    operands: Operands,
) -> Result<Deed<'a>, NoMemory>
    requires { AreOperands calculation (values operands) }
    ensures { IfOk result (λ deed. (l : Loaded)
        → FollowsAlone (row_of l (Do (calculation_of calculation (values operands))) room) deed cells.old cells.new) }
{
    match cells.calculate(room, calculation, operands)? {
        Ending::Fine => Ok(Deed::Go),
        Ending::Fails(exception) => Ok(Deed::Raise(exception)),
        Ending::Wrong => Ok(Deed::Stick),
    }
}
