//! new, newarray and anewarray: what is made on the heap, and its number on the stack in place of what was
//! taken. A negative length raises.

ghost use Rattle.std.specs.Prelude.{◌≡◌, ◌+◌, ◌<◌, ◌≤◌, ◌^◌, drop, length, IfOk, OnOk};
ghost use Rattle.cjc_card_semantics.specs.Bytecode.Effects.{New, NewNumbers, NewReferences, effect, made};
ghost use Rattle.cjc_card_semantics.specs.Machine.Loaded.{Loaded};
ghost use Rattle.cjc_card_semantics.specs.Machine.ByToken.{classes};
ghost use Rattle.cjc_card_frame.specs.Objects.{class_of, element_of};
ghost use Rattle.cjc_card_step.specs.Effects.Deeds.{FollowsOn};

use crate::effects::deed::Deed;
use cjc_card_frame::frame::Cells;
use cjc_card_frame::heap::{Class, Element, Heap, HeapObject};
use cjc_card_frame::jvm_step::frame::Exception;
use cjc_card_frame::parts::LookUps;
use cjc_card_semantics::bytes::NoMemory;
use cjc_card_semantics::script::Value;
use std::alloc::Global;

/// A new array or object in the place of so many words on top of the stack, where there is room.
fn put_new<'a>(
    cells: &mut Cells,
    heap: &mut Heap,
    room: usize,
    taken: usize,
    object: HeapObject,
) -> Result<Deed<'a>, NoMemory>
    requires there { taken ≤ length cells.old.stack }
    requires few { length heap.old < 2 ^ 32 }
    ensures row { IfOk result (λ deed. FollowsOn (λ next locals m stack. made object room next locals m
        (drop taken stack)) deed cells.old cells.new heap.old heap.new) }
    ensures len { OnOk result (length heap.new ≤ length heap.old + 1) }
{
    if cells.height() - taken < room {
        let number = heap.len() as u32;
        heap.push(object)?;
        cells.put(taken, Value::Obj(number))?;
        Ok(Deed::Go)
    } else {
        Ok(Deed::Stick)
    }
}

/// new.
pub fn new_object<'a, L: LookUps>(
    alloc: Global,
    links: &L,
    cells: &mut Cells,
    heap: &mut Heap,
    room: usize,
    class: Class,
) -> Result<Deed<'a>, NoMemory>
    requires { length heap.old < 2 ^ 32 }
    ensures row { IfOk result (λ deed. FollowsOn (λ next locals m stack. effect (classes (L.loaded links.now))
        (New (class_of class)) room next locals m stack) deed cells.old cells.new heap.old heap.new) }
    ensures len { OnOk result (length heap.new ≤ length heap.old + 1) }
{
    match links.fresh(alloc, class)? {
        Some(slots) => Ok(put_new(cells, heap, room, 0, HeapObject::object(class, slots))?),
        None => Ok(Deed::Stick),
    }
}

/// newarray.
pub fn new_numbers<'a>(
    alloc: Global,
    cells: &mut Cells,
    heap: &mut Heap,
    room: usize,
    element: Element,
) -> Result<Deed<'a>, NoMemory>
    requires { length heap.old < 2 ^ 32 }
    ensures row { IfOk result (λ deed. (l : Loaded)
        → FollowsOn (λ next locals m stack. effect (classes l) (NewNumbers (element_of element)) room next locals m
        stack) deed cells.old cells.new heap.old heap.new) }
    ensures len { OnOk result (length heap.new ≤ length heap.old + 1) }
{
    let Some(count) = cells.number(0) else {
        return Ok(Deed::Stick);
    };
    if count < 0 {
        return Ok(Deed::Raise(Exception::NegativeSize));
    }
    let object = HeapObject::numbers(alloc, element, count as usize)?;
    Ok(put_new(cells, heap, room, 1, object)?)
}

/// anewarray.
pub fn new_references<'a>(
    alloc: Global,
    cells: &mut Cells,
    heap: &mut Heap,
    room: usize,
    class: Class,
) -> Result<Deed<'a>, NoMemory>
    requires { length heap.old < 2 ^ 32 }
    ensures row { IfOk result (λ deed. (l : Loaded)
        → FollowsOn (λ next locals m stack. effect (classes l) (NewReferences (class_of class)) room next locals m
        stack) deed cells.old cells.new heap.old heap.new) }
    ensures len { OnOk result (length heap.new ≤ length heap.old + 1) }
{
    let Some(count) = cells.number(0) else {
        return Ok(Deed::Stick);
    };
    if count < 0 {
        return Ok(Deed::Raise(Exception::NegativeSize));
    }
    let object = HeapObject::references(alloc, class, count as usize)?;
    Ok(put_new(cells, heap, room, 1, object)?)
}
