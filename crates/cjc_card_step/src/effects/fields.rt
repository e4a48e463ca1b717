//! Fields of objects: getfield and putfield, of the object on the stack or of local 0.

ghost use Rattle.std.specs.Prelude.{◌≡◌, ℕ, length, IfOk};
ghost use Rattle.cjc_card_semantics.specs.Bytecode.Effects.{Get, Put, effect, same_kind};
ghost use Rattle.cjc_card_semantics.specs.Machine.Loaded.{Loaded};
ghost use Rattle.cjc_card_semantics.specs.Machine.ByToken.{classes};
ghost use Rattle.cjc_card_frame.specs.Meanings.{letter_of};
ghost use Rattle.cjc_card_frame.specs.Objects.{field_of};
ghost use Rattle.cjc_card_step.specs.Effects.Deeds.{FollowsOn};

use crate::effects::deed::{Deed, deed_of};
use crate::effects::items::field_item;
use crate::effects::operands::{operand, put_value, receiver};
use cjc_card_frame::frame::Cells;
use cjc_card_frame::heap::{Field, Heap};
use cjc_card_frame::opcodes::Letter;
use cjc_card_semantics::bytes::NoMemory;
use cjc_card_semantics::script::Value;

/// Whether both are numbers, or both are references.
fn same_kind(a: Value, b: Value) -> bool
    ensures { result ≡ same_kind a b }
{
    match (a, b) {
        (Value::Num(_), Value::Num(_)) => true,
        (Value::Null, Value::Null) => true,
        (Value::Null, Value::Obj(_)) => true,
        (Value::Obj(_), Value::Null) => true,
        (Value::Obj(_), Value::Obj(_)) => true,
        (Value::Num(_), _) => false,
        (_, Value::Num(_)) => false,
    }
}

/// What a field holds is pushed.
pub fn get_field<'a>(
    cells: &mut Cells,
    heap: &Heap,
    room: usize,
    this: bool,
    letter: Letter,
    field: Field,
) -> Result<Deed<'a>, NoMemory>
    ensures { IfOk result (λ deed. (l : Loaded)
        → FollowsOn (λ next locals m stack. effect (classes l) (Get this (letter_of letter) (field_of field)) room next
        locals m stack) deed cells.old cells.new heap.now heap.now) }
{
    let Some((reference, taken)) = receiver(cells, this, 0) else {
        return Ok(Deed::Stick);
    };
    match field_item(heap, reference, field) {
        Ok(item) => Ok(put_value(cells, room, taken, letter, item.value)?),
        Err(halt) => Ok(deed_of(halt)),
    }
}

/// A field takes what is on the stack.
pub fn put_field<'a>(
    cells: &mut Cells,
    heap: &mut Heap,
    this: bool,
    letter: Letter,
    field: Field,
) -> Deed<'a>
    ensures row { (l : Loaded) (room : ℕ)
        → FollowsOn (λ next locals m stack. effect (classes l) (Put this (letter_of letter) (field_of field)) room next
        locals m stack) result cells.old cells.new heap.old heap.new }
    ensures len { length heap.new ≡ length heap.old }
{
    let Some((value, below)) = operand(cells, letter) else {
        return Deed::Stick;
    };
    let Some((reference, taken)) = receiver(cells, this, below) else {
        return Deed::Stick;
    };
    let item = match field_item(heap, reference, field) {
        Ok(item) => item,
        Err(halt) => return deed_of(halt),
    };
    if !same_kind(item.value, value) {
        return Deed::Stick;
    }
    heap.put_slot(item.object, field, value);
    cells.forget(taken);
    Deed::Go
}
