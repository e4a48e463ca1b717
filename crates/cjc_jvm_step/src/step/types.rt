//! anewarray, checkcast and instanceof, and what types the heap's arrays and objects are of (Java Virtual Machine
//! Specification, 6.5).

ghost use Rattle.std.specs.Prelude.{◌≡◌, ◌<◌, ◌≤◌, ◌+◌, ◌^◌, length, slice_get, option_map, Some, IfOk, OnOk};
ghost use Rattle.cjc_script.specs.Sorts.{shape_named};
ghost use Rattle.cjc_jvm_semantics.specs.Effects.{Store, type_of, is_type, class_in, with_new_references, after_cast};
ghost use Rattle.cjc_jvm_semantics.specs.Effects.{after_instanceof};
ghost use Rattle.cjc_jvm_semantics.specs.Machine.{holder_of};
ghost use Rattle.cjc_jvm_step.specs.Step.Rows.{FollowsBy};

use crate::frame::{Activation, Deed, Exception};
use crate::heap::{Heap, TypeName};
use crate::step::lookups::LookUps;
use crate::step::objects::new_array;
use crate::step::shapes::{Shape, array_kind, array_of, shape_named};
use cjc_script::Value;
use cjc_script::bytes::NoMemory;
use std::alloc::Global;

// Whether a name is that of a type whose class is there.
fn is_type<'a, L: LookUps>(links: &L, frame: &Activation<'a>, name: &[u8]) -> Result<bool, NoMemory>
    ensures { IfOk result (λ is. (store : Store) → is ≡ is_type (L.linked links.now) frame.now.method frame.now.at
        frame.now.locals store (shape_named name.now)) }
{
    match shape_named(name)? {
        Some(Shape::Class(class)) => Ok(links.is_there(Some(frame.holder()), class)),
        Some(Shape::Numbers(_)) => Ok(true),
        Some(Shape::References(class)) => Ok(links.is_there(Some(frame.holder()), class)),
        None => Ok(false),
    }
}

/// Whether the array or object with a number is of a type, as the code of a frame asks.
pub fn is_of<'a, L: LookUps>(
    links: &L,
    frame: &Activation<'a>,
    heap: &Heap<'a>,
    number: u32,
    name: &[u8],
) -> Option<bool>
    ensures { result ≡ option_map (λ thing. (L.linked links.now).subtype (Some (holder_of frame.now)) (type_of thing)
        name.now) (slice_get heap.now number) }
{
    match heap.type_at(number) {
        Some(sub) => Some(links.is_subtype(Some(frame.holder()), sub, name)),
        None => None,
    }
}

/// checkcast.
pub fn check_cast<'a, L: LookUps>(
    links: &L,
    frame: &mut Activation<'a>,
    heap: &Heap<'a>,
    name: &[u8],
) -> Result<Deed<'a>, NoMemory>
    requires { frame.old.at < length frame.old.method.insns }
    ensures { IfOk result (λ deed. FollowsBy (L.linked links.now) (λ l m at locals store. after_cast l m at locals store
        name.now) deed frame.old frame.new heap.now heap.now) }
{
    if !is_type(links, frame, name)? {
        return Ok(Deed::Stick);
    }
    match frame.value() {
        Some(Value::Null) => {
            frame.pass(0);
            Ok(Deed::Go)
        }
        Some(Value::Obj(k)) => match is_of(links, frame, heap, k, name) {
            Some(true) => {
                frame.pass(0);
                Ok(Deed::Go)
            }
            Some(false) => Ok(Deed::Raise(Exception::ClassCast)),
            None => Ok(Deed::Stick),
        },
        Some(Value::Num(_)) => Ok(Deed::Stick),
        None => Ok(Deed::Stick),
    }
}

/// instanceof.
pub fn instance_of<'a, L: LookUps>(
    links: &L,
    frame: &mut Activation<'a>,
    heap: &Heap<'a>,
    name: &[u8],
) -> Result<Deed<'a>, NoMemory>
    requires { frame.old.at < length frame.old.method.insns }
    ensures { IfOk result (λ deed. FollowsBy (L.linked links.now) (λ l m at locals store. after_instanceof l m at locals
        store name.now) deed frame.old frame.new heap.now heap.now) }
{
    if !is_type(links, frame, name)? {
        return Ok(Deed::Stick);
    }
    match frame.value() {
        Some(Value::Null) => {
            frame.put(1, Value::Num(0))?;
            Ok(Deed::Go)
        }
        Some(Value::Obj(k)) => match is_of(links, frame, heap, k, name) {
            Some(is_of) => {
                frame.put(1, Value::Num(i32::from(is_of)))?;
                Ok(Deed::Go)
            }
            None => Ok(Deed::Stick),
        },
        Some(Value::Num(_)) => Ok(Deed::Stick),
        None => Ok(Deed::Stick),
    }
}

// A new array of references to a class that is there, or is not.
fn new_references_to<'a, L: LookUps>(
    alloc: Global,
    links: &L,
    frame: &mut Activation<'a>,
    heap: &mut Heap<'a>,
    class: &[u8],
) -> Result<Deed<'a>, NoMemory>
    requires inside { frame.old.at < length frame.old.method.insns }
    requires few { length heap.old < 2 ^ 32 }
    ensures row { IfOk result (λ deed. FollowsBy (L.linked links.now) (λ l m at locals store. with_new_references l m at
        locals store (Some class.now)) deed frame.old frame.new heap.old heap.new) }
    ensures len { OnOk result (length heap.new ≤ length heap.old + 1) }
{
    if !links.is_there(Some(frame.holder()), class) {
        return Ok(Deed::Stick);
    }
    let desc = array_of(alloc, class)?;
    let kind = array_kind(desc.items())?;
    new_array(alloc, frame, heap, TypeName::made(desc), kind, Value::Null)
}

/// anewarray.
pub fn new_references<'a, L: LookUps>(
    alloc: Global,
    links: &L,
    frame: &mut Activation<'a>,
    heap: &mut Heap<'a>,
    name: &[u8],
) -> Result<Deed<'a>, NoMemory>
    requires inside { frame.old.at < length frame.old.method.insns }
    requires few { length heap.old < 2 ^ 32 }
    ensures row { IfOk result (λ deed. FollowsBy (L.linked links.now) (λ l m at locals store. with_new_references l m at
        locals store (class_in (shape_named name.now))) deed frame.old frame.new heap.old heap.new) }
    ensures len { OnOk result (length heap.new ≤ length heap.old + 1) }
{
    match shape_named(name)? {
        Some(Shape::Class(class)) => new_references_to(alloc, links, frame, heap, class),
        Some(Shape::Numbers(_)) => Ok(Deed::Stick),
        Some(Shape::References(_)) => Ok(Deed::Stick),
        None => Ok(Deed::Stick),
    }
}
