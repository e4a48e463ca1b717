//! What a script does to the heap by name between its calls: it makes arrays and objects and puts items into
//! arrays, each act only where the types allow it. Called when an entry begins or an answer is given.

ghost use Rattle.std.specs.Prelude.{◌≡◌, ◌<◌, ◌+◌, ◌≤◌, ◌≤ℤ◌, ℕ, pos, unsigned_abs, Some, None, true, false, length};
ghost use Rattle.std.specs.Prelude.{slice_set, option_map, IfOk, OnOk, if◌then◌else◌};
ghost use Rattle.cjc_jvm_step.specs.Script.declared.script.Act.TheVariants as acts;
ghost use Rattle.cjc_jvm_step.specs.Script.declared.report.Outcome.TheVariants.{Unfit};
ghost use Rattle.cjc_jvm_step.specs.Script.declared.report.Thing.TheVariants as things;
ghost use Rattle.cjc_jvm_step.specs.CardSemantics.Bytecode.Runs.{Move, Over};
ghost use Rattle.cjc_jvm_semantics.specs.Machine.{State, item_sort, heap_after_act, after_acts, with_heap, report};
ghost use Rattle.cjc_jvm_step.specs.Heap.Kinds.{shape_of};
ghost use Rattle.cjc_jvm_step.specs.Heap.Looks.{name_at, items_at};
ghost use Rattle.cjc_jvm.specs.Acts.Acts.{IsPerformed};
ghost use Rattle.cjc_jvm.specs.Acts.Meant.{sort_meant};

use crate::acts::fitting::fits;
use crate::acts::sort::{Sort, element_sort, zero_of};
use cjc_jvm_semantics::bytes::NoMemory;
use cjc_jvm_semantics::script::{Act, Value};
use cjc_jvm_step::heap::{ArrayKind, Heap, HeapObject, TypeName};
use cjc_jvm_step::step::{LookUps, Shape, array_kind, class_within};
use std::alloc::Global;

// What the elements of an array are, where their class is there.
fn item_sort<'b, L: LookUps>(links: &L, kind: ArrayKind, desc: &'b [u8]) -> Option<Sort<'b>>
    ensures { option_map sort_meant result ≡ item_sort (L.linked links.now) (shape_of kind desc.now) }
{
    match kind {
        ArrayKind::Numbers(element) => Some(element_sort(element)),
        ArrayKind::References => {
            let class = class_within(desc);
            if links.is_there(None, class) {
                Some(Sort::Reference(Shape::Class(class)))
            } else {
                None
            }
        }
        ArrayKind::Neither => None,
    }
}

// An array of 0 to 32,767 elements of a type that is there.
fn make_array<'a, L: LookUps>(
    alloc: Global,
    links: &L,
    heap: &mut Heap<'a>,
    desc: &'a [u8],
    size: i32,
) -> Result<bool, NoMemory>
    ensures act { IfOk result (λ fit. IsPerformed fit (heap_after_act (L.linked links.now) (acts.Array desc.now size)
        heap.old) heap.old heap.new) }
    ensures len { OnOk result (length heap.new ≤ length heap.old + 1) }
{
    if size < 0 || size > 32767 {
        return Ok(false);
    }
    let [b'[', ..] = desc else {
        return Ok(false);
    };
    let kind = array_kind(desc)?;
    let Some(sort) = item_sort(links, kind, desc) else {
        return Ok(false);
    };
    let array = HeapObject::array(
        alloc,
        TypeName::told(desc),
        kind,
        size as usize,
        zero_of(sort),
    )?;
    heap.push(array)?;
    Ok(true)
}

// An object of an imported class.
fn make_object<'a, L: LookUps>(
    alloc: Global,
    links: &L,
    heap: &mut Heap<'a>,
    class: &'a [u8],
) -> Result<bool, NoMemory>
    ensures act { IfOk result (λ fit. IsPerformed fit (heap_after_act (L.linked links.now) (acts.Object class.now)
        heap.old) heap.old heap.new) }
    ensures len { OnOk result (length heap.new ≤ length heap.old + 1) }
{
    if !links.is_imported(class) {
        return Ok(false);
    }
    let object = HeapObject::object(alloc, class, &[])?;
    heap.push(object)?;
    Ok(true)
}

// Whether an element can be put: it is there, and the value is of its type.
fn can_put<L: LookUps>(
    alloc: Global,
    links: &L,
    heap: &Heap<'_>,
    array: u32,
    index: i32,
    value: Value,
) -> Result<bool, NoMemory>
    ensures act { IfOk result (λ fit. heap_after_act (L.linked links.now) (acts.Put array index value) heap.now
        ≡ (if fit then Some (slice_set heap.now array (things.Array (name_at heap.now array)
        (slice_set (items_at heap.now array) (unsigned_abs index) value))) else None)) }
    ensures low { IfOk result (λ fit. fit ≡ true → pos 0 ≤ℤ index) }
    ensures inside { IfOk result (λ fit. fit ≡ true → unsigned_abs index < length (items_at heap.now array)) }
{
    let Some(object) = heap.get(array as usize) else {
        return Ok(false);
    };
    let Some((kind, items)) = object.items() else {
        return Ok(false);
    };
    if index < 0 || index as usize >= items.len() {
        return Ok(false);
    }
    let Some(sort) = item_sort(links, kind, object.type_name()) else {
        return Ok(false);
    };
    Ok(fits(alloc, links, heap, sort, value)?)
}

// An element that is there is replaced by a value of its type.
fn put_item<L: LookUps>(
    alloc: Global,
    links: &L,
    heap: &mut Heap<'_>,
    array: u32,
    index: i32,
    value: Value,
) -> Result<bool, NoMemory>
    ensures act { IfOk result (λ fit. IsPerformed fit (heap_after_act (L.linked links.now) (acts.Put array index value)
        heap.old) heap.old heap.new) }
    ensures len { OnOk result (length heap.new ≤ length heap.old + 1) }
{
    if !can_put(alloc, links, heap, array, index, value)? {
        return Ok(false);
    }
    heap.set_element(array, index as usize, value);
    Ok(true)
}

// One act; whether it fits.
fn act<'a, L: LookUps>(
    alloc: Global,
    links: &L,
    heap: &mut Heap<'a>,
    act: &'a Act,
) -> Result<bool, NoMemory>
    ensures act { IfOk result (λ fit. IsPerformed fit (heap_after_act (L.linked links.now) act.now heap.old) heap.old
        heap.new) }
    ensures len { OnOk result (length heap.new ≤ length heap.old + 1) }
{
    match act {
        Act::Array { desc, length } => make_array(alloc, links, heap, desc.items(), *length),
        Act::Object { class } => make_object(alloc, links, heap, class.items()),
        Act::Put {
            array,
            index,
            value,
        } => put_item(alloc, links, heap, *array, *index, *value),
    }
}

/// Acts in order, up to the first that does not fit; whether all of them did.
pub fn perform<'a, L: LookUps>(
    alloc: Global,
    links: &L,
    heap: &mut Heap<'a>,
    acts: &'a [Act],
) -> Result<bool, NoMemory>
    ensures acts { IfOk result (λ done. (number : ℕ) (s : State) (go : State → Move State)
        → after_acts (L.linked links.now) acts.now number (with_heap heap.old s) go ≡ (if done
        then go (with_heap heap.new s) else Over (report (Unfit number) (with_heap heap.new s)))) }
    ensures len { OnOk result (length heap.new ≤ length heap.old + length acts.now) }
{
    for one in acts {
        if !act(alloc, links, heap, one)? {
            return Ok(false);
        }
    }
    Ok(true)
}
