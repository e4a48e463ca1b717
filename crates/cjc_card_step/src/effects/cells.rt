//! getstatic and putstatic on the image of the field's package, where the field's offset and letter are known
//! already.

ghost use Rattle.std.specs.Prelude.{ℕ, IfOk};
ghost use Rattle.cjc_card_semantics.specs.Bytecode.Effects.{GetStatic, PutStatic, effect};
ghost use Rattle.cjc_card_semantics.specs.Machine.Loaded.{Loaded};
ghost use Rattle.cjc_card_semantics.specs.Machine.ByToken.{classes};
ghost use Rattle.cjc_card_frame.specs.Meanings.{letter_of};
ghost use Rattle.cjc_card_frame.specs.Kinds.{cell_of};
ghost use Rattle.cjc_card_step.specs.Effects.Deeds.{FollowsIn};

use crate::effects::deed::Deed;
use crate::effects::operands::{operand, put_value};
use cjc_card_frame::frame::Cells;
use cjc_card_frame::image::Statics;
use cjc_card_frame::opcodes::Letter;
use cjc_card_frame::parts::StaticCell;
use cjc_card_semantics::bytes::NoMemory;

/// What a static cell holds is pushed.
pub fn get_static<'a>(
    cells: &mut Cells,
    statics: &Statics,
    room: usize,
    letter: Letter,
    cell: StaticCell,
) -> Result<Deed<'a>, NoMemory>
    ensures { IfOk result (λ deed. (l : Loaded)
        → FollowsIn (λ next locals m stack. effect (classes l) (GetStatic (letter_of letter) (cell_of cell)) room next
        locals m stack) deed cells.old cells.new statics.now statics.now) }
{
    match statics.get(letter, cell.part, cell.offset) {
        Some(value) => Ok(put_value(cells, room, 0, letter, value)?),
        None => Ok(Deed::Stick),
    }
}

/// A static cell takes what is on the stack.
pub fn put_static<'a>(
    cells: &mut Cells,
    statics: &mut Statics,
    letter: Letter,
    cell: StaticCell,
) -> Deed<'a>
    ensures { (l : Loaded) (room : ℕ)
        → FollowsIn (λ next locals m stack. effect (classes l) (PutStatic (letter_of letter) (cell_of cell)) room next
        locals m stack) result cells.old cells.new statics.old statics.new }
{
    let Some((value, taken)) = operand(cells, letter) else {
        return Deed::Stick;
    };
    if statics.put(letter, cell.part, cell.offset, value) {
        cells.forget(taken);
        Deed::Go
    } else {
        Deed::Stick
    }
}
