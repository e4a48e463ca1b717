//! The fields of an object by token: what is found under a field and what is put there. Nothing here knows
//! which fields a class has.

ghost use Rattle.std.specs.Prelude.{◌≡◌, map, slice_get};
ghost use Rattle.cjc_card_semantics.specs.Bytecode.Effects.{slot_of, slots_with};
ghost use Rattle.cjc_card_semantics.specs.Machine.Classes.{same_field};
ghost use Rattle.cjc_card_frame.specs.Objects.{field_of, place_in, slot_by};

use crate::heap::class::{Field, same_field};
use cjc_card_semantics::script::Value;

/// A field and what it holds: a whole number, null or an object.
#[derive(Clone, Copy)]
pub struct Slot {
    pub field: Field,
    pub value: Value,
}

/// The place of a field among slots.
fn place_in(slots: &[Slot], field: Field) -> Option<usize>
    ensures { result ≡ place_in (map slot_by slots.now) (field_of field) }
{
    for (i, slot) in slots.iter().enumerate() {
        if same_field(slot.field, field) {
            return Some(i);
        }
    }
    None
}

/// The slot in a place.
fn slot_in_place(slots: &[Slot], place: usize) -> Option<Slot>
    ensures { result ≡ slice_get slots.now place }
{
    slots.get(place).copied()
}

/// What a field holds.
pub fn slot_at(slots: &[Slot], field: Field) -> Option<Value>
    ensures { result ≡ slot_of same_field (map slot_by slots.now) (field_of field) }
{
    let Some(place) = place_in(slots, field) else {
        return None;
    };
    let Some(slot) = slot_in_place(slots, place) else {
        return None;
    };
    Some(slot.value)
}

/// Puts a value into a field, where it is there.
pub(crate) fn put_slot(slots: &mut Vec<Slot>, field: Field, value: Value)
    ensures { map slot_by slots.new.items ≡ slots_with same_field (map slot_by slots.old.items) (field_of field) value }
{
    let Some(place) = place_in(slots, field) else {
        return;
    };
    let Some(slot) = slot_in_place(slots, place) else {
        return;
    };
    slots[place] = Slot {
        field: slot.field,
        value,
    };
}
