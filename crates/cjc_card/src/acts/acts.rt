//! What a script does to the heap by token between its calls: it makes arrays and objects and puts items into
//! arrays, each act only where the types allow it. Called when an entry begins or an answer is given.

ghost use Rattle.std.specs.Prelude.{◌≡◌, ◌≤◌, ◌+◌, ℕ, Some, length, option_and_then, pos, slice_get, IfOk, OnOk};
ghost use Rattle.std.specs.Prelude.{if◌then◌else◌};
ghost use Rattle.cjc_script.specs.declared.report.Outcome.TheVariants.{Unfit};
ghost use Rattle.cjc_script.specs.Sorts.{element_sort, shape_named};
ghost use Rattle.cjc_jvm.specs.Acts.Meant.{sort_meant};
ghost use Rattle.cjc_card_semantics.specs.Bytecode.Machine.{Ended, heap_after, array_of, heap_with, object_of};
ghost use Rattle.cjc_card_semantics.specs.Bytecode.Machine.{turn_after_acts, put_item, shape_of as shape_by_name};
ghost use Rattle.cjc_card_semantics.specs.Bytecode.Machine.{sized_array, with_heap};
ghost use Rattle.cjc_card_semantics.specs.Machine.ByToken.{by_token};
ghost use Rattle.cjc_card_frame.specs.Objects.{element_of, shape_of};
ghost use Rattle.cjc_card.specs.Acts.Acts.{IsPerformed, put_by};
ghost use Rattle.cjc_card.specs.Acts.States.{StateByToken, TurnByToken};

use crate::acts::fitting::{item_fits, number_fits, shape_of};
use cjc_card_frame::heap::{Class, Element, Heap, HeapObject, Parts, Shape};
use cjc_card_frame::jvm_step::step::shape_named;
use cjc_card_frame::parts::LookUps;
use cjc_jvm::acts::Sort;
use cjc_script::bytes::NoMemory;
use cjc_script::{Act, Value};
use std::alloc::Global;

// An array of zeros or nulls.
fn sized_array<L: LookUps>(
    alloc: Global,
    links: &L,
    kind: Shape,
    size: usize,
) -> Result<Option<HeapObject>, NoMemory>
    ensures { IfOk result (λ o. o ≡ sized_array (by_token (L.loaded links.now)) (Some (shape_of kind)) size) }
{
    match kind {
        Shape::OfNumbers(element) => Ok(Some(HeapObject::numbers(alloc, element, size)?)),
        Shape::OfReferences(class) => Ok(Some(HeapObject::references(alloc, class, size)?)),
        Shape::OfClass(_) => Ok(None),
    }
}

// An array of 0 to 32,767 elements of a type that is there.
fn array_of<L: LookUps>(
    alloc: Global,
    links: &L,
    desc: &[u8],
    size: i32,
) -> Result<Option<HeapObject>, NoMemory>
    ensures { IfOk result (λ o. o ≡ array_of (by_token (L.loaded links.now))
        (option_and_then (shape_by_name (by_token (L.loaded links.now))) (shape_named desc.now)) size) }
{
    if size < 0 || size > 32767 {
        return Ok(None);
    }
    let Some(named) = shape_named(desc)? else {
        return Ok(None);
    };
    match shape_of(links, named) {
        Some(kind) => sized_array(alloc, links, kind, size as usize),
        None => Ok(None),
    }
}

// An object of an imported class.
#[tactic(auto, unfolding(cjc_card_semantics::specs::Machine::ByToken::by_token))]
fn object_of<L: LookUps>(alloc: Global, links: &L, class: &[u8]) -> Option<HeapObject>
    ensures { result ≡ object_of (by_token (L.loaded links.now)) ((by_token (L.loaded links.now)).imported class.now) }
{
    match links.imported(class) {
        Some(class) => Some(HeapObject::object(class, Vec::new(alloc))),
        None => None,
    }
}

// One array or object more, where there is one.
fn grow<L: LookUps>(links: &L, heap: &mut Heap, thing: Option<HeapObject>) -> Result<bool, NoMemory>
    ensures act { IfOk result (λ fit. IsPerformed fit (heap_with (by_token (L.loaded links.now)) heap.old thing)
        heap.old heap.new) }
    ensures len { OnOk result (length heap.new ≤ length heap.old + 1) }
{
    match thing {
        Some(thing) => {
            heap.push(thing)?;
            Ok(true)
        }
        None => Ok(false),
    }
}

/// What is put into an array.
#[derive(Clone, Copy)]
pub enum Put {
    Number(i32),
    Reference,
    /// The element is not there, or the value is of another type.
    Neither,
}

// The type of elements.
fn element_sort(element: Element) -> Sort<'static>
    ensures { sort_meant result ≡ element_sort (element_of element) }
{
    match element {
        Element::Booleans => Sort::Boolean,
        Element::Bytes => Sort::Byte,
        Element::Shorts => Sort::Short,
        Element::Ints => Sort::Int,
    }
}

// What is put into the array of a number, in a place of it.
fn to_put<L: LookUps>(links: &L, heap: &Heap, array: u32, place: usize, value: Value) -> Put
    ensures { put_item (by_token (L.loaded links.now)) heap.now array (slice_get heap.now array) (pos place) value
        ≡ put_by heap.now array place value result }
{
    match heap.get(array) {
        Some(Parts::Numbers(element, items)) => match value {
            Value::Num(z) if place < items.len() && number_fits(element_sort(element), z) => {
                Put::Number(z)
            }
            _ => Put::Neither,
        },
        Some(Parts::References(class, items)) => {
            if place < items.len() && item_fits(links, heap, class, value) {
                Put::Reference
            } else {
                Put::Neither
            }
        }
        Some(Parts::Object(_, _)) => Put::Neither,
        None => Put::Neither,
    }
}

// An element that is there is replaced by a value of its type.
fn put_item<L: LookUps>(links: &L, heap: &mut Heap, array: u32, index: i32, value: Value) -> bool
    ensures act { IsPerformed result (put_item (by_token (L.loaded links.now)) heap.old array (slice_get heap.old array)
        index value) heap.old heap.new }
    ensures len { length heap.new ≤ length heap.old + 1 }
{
    if index < 0 {
        return false;
    }
    let place = index as usize;
    match to_put(links, heap, array, place, value) {
        Put::Number(z) => {
            heap.set_number(array, place, z);
            true
        }
        Put::Reference => {
            heap.set_reference(array, place, value);
            true
        }
        Put::Neither => false,
    }
}

// One act; whether it fits.
fn act<L: LookUps>(alloc: Global, links: &L, heap: &mut Heap, act: &Act) -> Result<bool, NoMemory>
    ensures act { IfOk result (λ fit. IsPerformed fit (heap_after (by_token (L.loaded links.now)) act.now heap.old)
        heap.old heap.new) }
    ensures len { OnOk result (length heap.new ≤ length heap.old + 1) }
{
    match act {
        Act::Array { desc, length } => {
            let array = array_of(alloc, links, desc.items(), *length)?;
            grow(links, heap, array)
        }
        Act::Object { class } => {
            let object = object_of(alloc, links, class.items());
            grow(links, heap, object)
        }
        Act::Put {
            array,
            index,
            value,
        } => Ok(put_item(links, heap, *array, *index, *value)),
    }
}

/// Acts in order, up to the first that does not fit; whether all of them did.
pub fn perform<L: LookUps>(
    alloc: Global,
    links: &L,
    heap: &mut Heap,
    acts: &[Act],
) -> Result<bool, NoMemory>
    ensures acts { IfOk result (λ done. (number : ℕ) (s : StateByToken) (go : StateByToken → TurnByToken)
        → turn_after_acts (by_token (L.loaded links.now)) acts.now number (with_heap (by_token (L.loaded links.now))
        heap.old s) go ≡ (if done then go (with_heap (by_token (L.loaded links.now)) heap.new s)
        else Ended (Unfit number) (with_heap (by_token (L.loaded links.now)) heap.new s))) }
    ensures len { OnOk result (length heap.new ≤ length heap.old + length acts.now) }
{
    for one in acts {
        if !act(alloc, links, heap, one)? {
            return Ok(false);
        }
    }
    Ok(true)
}
