//! What instructions find in the heap: elements of arrays, and the fields of objects.

ghost use Rattle.std.specs.Prelude.{◌≡◌, ℕ, ℤ, List, Some, slice_get, IfOk};
ghost use Rattle.cjc_card_semantics.specs.Script.declared.value.Value.{Value};
ghost use Rattle.cjc_card_semantics.specs.Script.Sorts;
ghost use Rattle.cjc_card_semantics.specs.Bytecode.Calculations.{IndexOutside};
ghost use Rattle.cjc_card_semantics.specs.Bytecode.Effects.{Numbers, Object, Raise, References, Slot, is_element};
ghost use Rattle.cjc_card_semantics.specs.Bytecode.Effects.{item_at, with_some};
ghost use Rattle.cjc_card_semantics.specs.Machine.Classes;
ghost use Rattle.cjc_card_frame.specs.Meanings.{letter_of};
ghost use Rattle.cjc_card_frame.specs.Objects.{class_of, element_of, field_of};
ghost use Rattle.cjc_card_step.specs.Effects.Deeds.{EffectByToken, found};
ghost use Rattle.cjc_card_step.specs.Effects.Looks.{field_item, number_item, numbers_of, reference_item, references_of};
ghost use Rattle.cjc_card_step.specs.Effects.Looks.{slots_of};

use crate::effects::deed::Halt;
use cjc_card_frame::heap::{Class, Element, Field, Heap, Parts, slot_at};
use cjc_card_frame::jvm_step::frame::Exception;
use cjc_card_frame::opcodes::Letter;
use cjc_card_semantics::script::Value;

/// An element of an array of references: the array's number and class, the element's place and what it holds.
#[derive(Clone, Copy)]
pub(crate) struct ReferenceItem {
    pub(crate) array: u32,
    pub(crate) class: Class,
    pub(crate) place: usize,
    pub(crate) value: Value,
}

/// An element of an array of numbers.
#[derive(Clone, Copy)]
pub(crate) struct NumberItem {
    pub(crate) array: u32,
    pub(crate) element: Element,
    pub(crate) place: usize,
    pub(crate) number: i32,
}

/// A field of an object: the object's number and class, and what the field holds.
#[derive(Clone, Copy)]
pub(crate) struct FieldItem {
    pub(crate) object: u32,
    pub(crate) class: Class,
    pub(crate) value: Value,
}

/// Whether a letter is that of an array's elements.
fn is_element(letter: Letter, element: Element) -> bool
    ensures { result ≡ is_element (letter_of letter) (element_of element) }
{
    match element {
        Element::Booleans => matches!(letter, Letter::Byte),
        Element::Bytes => matches!(letter, Letter::Byte),
        Element::Shorts => matches!(letter, Letter::Short),
        Element::Ints => matches!(letter, Letter::Int),
    }
}

/// The reference at an index, with its place.
fn reference_at(items: &[Value], index: i32) -> Option<(usize, Value)>
    ensures { (go : ℕ → Value → EffectByToken) → item_at (Raise IndexOutside) items.now index go
        ≡ with_some (Raise IndexOutside) result (λ p. go p.0 p.1) }
{
    if index < 0 {
        return None;
    }
    match items.get(index as usize) {
        Some(value) => Some((index as usize, *value)),
        None => None,
    }
}

/// The number at an index, with its place.
fn number_at(items: &[i32], index: i32) -> Option<(usize, i32)>
    ensures { (go : ℕ → ℤ → EffectByToken) → item_at (Raise IndexOutside) items.now index go
        ≡ with_some (Raise IndexOutside) result (λ p. go p.0 p.1) }
{
    if index < 0 {
        return None;
    }
    match items.get(index as usize) {
        Some(number) => Some((index as usize, *number)),
        None => None,
    }
}

/// The element at an index of the array of references of a reference.
pub(crate) fn reference_item(
    heap: &Heap,
    reference: Value,
    index: i32,
) -> Result<ReferenceItem, Halt>
    ensures is { (go : ℕ → Classes.Class → List Value → ℕ → Value → EffectByToken)
        → reference_item heap.now reference index go ≡ found result (λ e. go e.array (class_of e.class)
        (references_of (slice_get heap.now e.array)) e.place e.value) }
    ensures there { IfOk result (λ e. slice_get heap.now e.array
        ≡ Some (References (class_of e.class) (references_of (slice_get heap.now e.array)))) }
{
    match reference {
        Value::Num(_) => Err(Halt::Stick),
        Value::Null => Err(Halt::Raise(Exception::NullPointer)),
        Value::Obj(array) => match heap.get(array) {
            Some(Parts::References(class, items)) => match reference_at(items, index) {
                Some((place, value)) => Ok(ReferenceItem {
                    array,
                    class,
                    place,
                    value,
                }),
                None => Err(Halt::Raise(Exception::IndexOutside)),
            },
            Some(Parts::Numbers(_, _)) => Err(Halt::Stick),
            Some(Parts::Object(_, _)) => Err(Halt::Stick),
            None => Err(Halt::Stick),
        },
    }
}

/// The element at an index of the array of numbers of a reference, which are of a letter.
pub(crate) fn number_item(
    heap: &Heap,
    letter: Letter,
    reference: Value,
    index: i32,
) -> Result<NumberItem, Halt>
    ensures is { (go : ℕ → Sorts.Element → List ℤ → ℕ → ℤ → EffectByToken)
        → number_item (letter_of letter) heap.now reference index go
        ≡ found result (λ e. go e.array (element_of e.element) (numbers_of (slice_get heap.now e.array)) e.place
        e.number) }
    ensures there { IfOk result (λ e. slice_get heap.now e.array
        ≡ Some (Numbers (element_of e.element) (numbers_of (slice_get heap.now e.array)))) }
{
    match reference {
        Value::Num(_) => Err(Halt::Stick),
        Value::Null => Err(Halt::Raise(Exception::NullPointer)),
        Value::Obj(array) => match heap.get(array) {
            Some(Parts::Numbers(element, items)) => {
                if !is_element(letter, element) {
                    return Err(Halt::Stick);
                }
                match number_at(items, index) {
                    Some((place, number)) => Ok(NumberItem {
                        array,
                        element,
                        place,
                        number,
                    }),
                    None => Err(Halt::Raise(Exception::IndexOutside)),
                }
            }
            Some(Parts::References(_, _)) => Err(Halt::Stick),
            Some(Parts::Object(_, _)) => Err(Halt::Stick),
            None => Err(Halt::Stick),
        },
    }
}

/// What the object of a reference holds under a field.
pub(crate) fn field_item(heap: &Heap, reference: Value, field: Field) -> Result<FieldItem, Halt>
    ensures is { (go : ℕ → Classes.Class → List (Slot Classes.Field) → Value → EffectByToken)
        → field_item heap.now reference (field_of field) go ≡ found result (λ e. go e.object (class_of e.class)
        (slots_of (slice_get heap.now e.object)) e.value) }
    ensures there { IfOk result (λ e. slice_get heap.now e.object
        ≡ Some (Object (class_of e.class) (slots_of (slice_get heap.now e.object)))) }
{
    match reference {
        Value::Num(_) => Err(Halt::Stick),
        Value::Null => Err(Halt::Raise(Exception::NullPointer)),
        Value::Obj(object) => match heap.get(object) {
            Some(Parts::Object(class, slots)) => match slot_at(slots, field) {
                Some(value) => Ok(FieldItem {
                    object,
                    class,
                    value,
                }),
                None => Err(Halt::Stick),
            },
            Some(Parts::Numbers(_, _)) => Err(Halt::Stick),
            Some(Parts::References(_, _)) => Err(Halt::Stick),
            None => Err(Halt::Stick),
        },
    }
}
