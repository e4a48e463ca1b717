//! What new objects hold: a slot for each token of each class of the package (Java Card Virtual Machine Specification 2.2.2,
//! section 6.8.2).

ghost use Rattle.std.specs.Prelude.{◌≡◌, ◌++◌, map, OnOk};
ghost use Rattle.cjc_card.specs.Classes.{is_reference_token, slot_for, slots_from};
ghost use Rattle.cjc_card_heap.specs.Objects.{class_of, slot_by};

use cjc_bytes::NoMemory;
use cjc_capread::ClassEntry;
use cjc_card_heap::{Class, Field, Slot};
use cjc_script::Value;

// Whether a token is in the span of references.
fn is_reference_token(class: &ClassEntry, token: u8) -> bool
    ensures { result ≡ is_reference_token class.now token }
{
    let first = u16::from(class.first_reference_token);
    let behind = first + u16::from(class.reference_count);
    first <= u16::from(token) && u16::from(token) < behind
}

// The slot of a token in a new object.
fn slot_for(class: Class, entry: &ClassEntry, token: u8) -> Slot
    ensures { slot_by result ≡ slot_for (class_of class) entry.now token }
{
    let value = if is_reference_token(entry, token) {
        Value::Null
    } else {
        Value::Num(0)
    };
    Slot {
        field: Field { class, token },
        value,
    }
}

// Puts the slots of a class at the end.
fn put_slots(slots: &mut Vec<Slot>, class: Class, entry: &ClassEntry) -> Result<(), NoMemory>
    ensures { OnOk result (map slot_by slots.new.items ≡ map slot_by slots.old.items ++ slots_from (class_of class) entry.now 0 entry.now.declared_instance_size) }
{
    for token in 0..entry.declared_instance_size {
        slots.push(slot_for(class, entry, token))?;
    }
    Ok(())
}
