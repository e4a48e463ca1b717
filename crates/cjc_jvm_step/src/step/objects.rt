//! new, newarray and anewarray (Java Virtual Machine Specification, 6.5): what is made on the heap, and a
//! reference to it. Called by `instruction`, and by `types` for anewarray.

ghost use Rattle.std.specs.Prelude.{◌≡◌, ◌<◌, ◌≤◌, ◌+◌, ◌^◌, List, length, drop, replicate, IfOk, OnOk};
ghost use Rattle.cjc_script.specs.declared.value.Value.{Value};
ghost use Rattle.cjc_script.specs.declared.report.Thing.TheVariants as things;
ghost use Rattle.cjc_script.specs.Sorts.{shape_named};
ghost use Rattle.cjc_jvm_semantics.specs.LowerBytecode.declared.insn.JOp.TheVariants as jop;
ghost use Rattle.cjc_jvm_semantics.specs.Effects.{one_number, with_size, with_new, with_new_numbers, element_of};
ghost use Rattle.cjc_jvm_semantics.specs.Effects.{effect};
ghost use Rattle.cjc_jvm_step.specs.Frame.Deeds.{FollowsOn};
ghost use Rattle.cjc_jvm_step.specs.Heap.Kinds.{shape_of, elements_of};
ghost use Rattle.cjc_jvm_step.specs.Step.Rows.{FollowsBy};

use crate::frame::{Activation, Deed, Exception};
use crate::heap::{ArrayKind, Element, Heap, HeapObject, TypeName};
use crate::step::lookups::LookUps;
use cjc_script::bytes::NoMemory;
use cjc_script::{FieldValue, Value};
use std::alloc::Global;

// A new array or object in place of some operands, where the stack has room.
fn put_new<'a>(
    frame: &mut Activation<'a>,
    heap: &mut Heap<'a>,
    taken: usize,
    object: HeapObject<'a>,
) -> Result<Deed<'a>, NoMemory>
    requires taken { taken ≤ length frame.old.stack }
    requires inside { frame.old.at < length frame.old.method.insns }
    requires few { length heap.old < 2 ^ 32 }
    ensures row { IfOk result (λ deed. FollowsOn (λ l m at locals store stack. with_new l m at locals store object.entry
        (drop taken stack)) deed frame.old frame.new heap.old heap.new) }
    ensures len { OnOk result (length heap.new ≤ length heap.old + 1) }
{
    if frame.height() - taken < frame.max_stack() {
        let number = heap.len() as u32;
        heap.push(object)?;
        frame.put(taken, Value::Obj(number))?;
        Ok(Deed::Go)
    } else {
        Ok(Deed::Stick)
    }
}

/// new, of a class whose objects have these fields at first.
pub fn new_object<'a>(
    alloc: Global,
    frame: &mut Activation<'a>,
    heap: &mut Heap<'a>,
    class: &'a [u8],
    fresh: &'a [FieldValue],
) -> Result<Deed<'a>, NoMemory>
    requires inside { frame.old.at < length frame.old.method.insns }
    requires few { length heap.old < 2 ^ 32 }
    ensures row { IfOk result (λ deed. FollowsOn (λ l m at locals store. with_new l m at locals store
        (things.Object class.now fresh.now)) deed frame.old frame.new heap.old heap.new) }
    ensures len { OnOk result (length heap.new ≤ length heap.old + 1) }
{
    let object = HeapObject::object(alloc, class, fresh)?;
    put_new(frame, heap, 0, object)
}

/// A new array with as many elements as the number on top of the stack says.
pub fn new_array<'a>(
    alloc: Global,
    frame: &mut Activation<'a>,
    heap: &mut Heap<'a>,
    desc: TypeName<'a>,
    kind: ArrayKind,
    zero: Value,
) -> Result<Deed<'a>, NoMemory>
    requires kind { shape_named desc ≡ shape_of kind desc }
    requires inside { frame.old.at < length frame.old.method.insns }
    requires few { length heap.old < 2 ^ 32 }
    ensures row { IfOk result (λ deed. FollowsOn (λ l m at locals store stack. one_number stack (λ count rest. with_size
        count (λ n. with_new l m at locals store (things.Array desc.entry (replicate n zero)) rest))) deed frame.old
        frame.new heap.old heap.new) }
    ensures len { OnOk result (length heap.new ≤ length heap.old + 1) }
{
    let Some(count) = frame.number() else {
        return Ok(Deed::Stick);
    };
    if count < 0 {
        return Ok(Deed::Raise(Exception::NegativeSize));
    }
    let object = HeapObject::array(alloc, desc, kind, count as usize, zero)?;
    put_new(frame, heap, 1, object)
}

// newarray of these numbers.
fn new_array_of<'a>(
    alloc: Global,
    frame: &mut Activation<'a>,
    heap: &mut Heap<'a>,
    element: Element,
) -> Result<Deed<'a>, NoMemory>
    requires inside { frame.old.at < length frame.old.method.insns }
    requires few { length heap.old < 2 ^ 32 }
    ensures row { IfOk result (λ deed. FollowsOn (λ l m at locals store. with_new_numbers l m at locals store
        (Some (elements_of element))) deed frame.old frame.new heap.old heap.new) }
    ensures len { OnOk result (length heap.new ≤ length heap.old + 1) }
{
    let desc = TypeName::told(element.array_name());
    new_array(
        alloc,
        frame,
        heap,
        desc,
        ArrayKind::Numbers(element),
        Value::Num(0),
    )
}

/// newarray, by the number of its type.
pub fn new_numbers<'a>(
    alloc: Global,
    frame: &mut Activation<'a>,
    heap: &mut Heap<'a>,
    kind: u8,
) -> Result<Deed<'a>, NoMemory>
    requires inside { frame.old.at < length frame.old.method.insns }
    requires few { length heap.old < 2 ^ 32 }
    ensures row { IfOk result (λ deed. FollowsOn (λ l m at locals store. with_new_numbers l m at locals store
        (element_of kind)) deed frame.old frame.new heap.old heap.new) }
    ensures len { OnOk result (length heap.new ≤ length heap.old + 1) }
{
    match kind {
        4 => new_array_of(alloc, frame, heap, Element::Boolean),
        8 => new_array_of(alloc, frame, heap, Element::Byte),
        9 => new_array_of(alloc, frame, heap, Element::Short),
        10 => new_array_of(alloc, frame, heap, Element::Int),
        _ => Ok(Deed::Stick),
    }
}

/// new, of a class whose fields look-ups tell.
pub fn new_of<'a, L: LookUps>(
    alloc: Global,
    links: &'a L,
    frame: &mut Activation<'a>,
    heap: &mut Heap<'a>,
    class: &'a [u8],
) -> Result<Deed<'a>, NoMemory>
    requires inside { frame.old.at < length frame.old.method.insns }
    requires few { length heap.old < 2 ^ 32 }
    ensures row { IfOk result (λ deed. FollowsBy (L.linked links.now) (λ l m at locals store. effect l m at locals store
        (jop.New class.now)) deed frame.old frame.new heap.old heap.new) }
    ensures len { OnOk result (length heap.new ≤ length heap.old + 1) }
{
    match links.made(frame.holder(), class) {
        Some(fresh) => new_object(alloc, frame, heap, class, fresh),
        None => Ok(Deed::Stick),
    }
}
