//! Loads of array elements, and arraylength (Java Virtual Machine Specification, 6.5).

ghost use Rattle.std.specs.Prelude.{◌≡◌, ◌<◌, ◌^◌, pos, length, Some, IfOk};
ghost use Rattle.cjc_jvm_semantics.specs.Effects.{after_array_load, with_length, loads, load_of};
ghost use Rattle.cjc_jvm_step.specs.Frame.Deeds.{FollowsOn};
ghost use Rattle.cjc_jvm_step.specs.Heap.Kinds.{effect_moves};

use crate::frame::number::byte_of;
use crate::frame::{Activation, Deed};
use crate::heap::{Heap, Moves};
use crate::step::deeds::deed_of;
use cjc_jvm_semantics::bytecode::jvm;
use cjc_script::Value;
use cjc_script::bytes::NoMemory;

// What a load gives of an element.
fn load_of(moves: Moves, value: Value) -> Value
    ensures { result ≡ load_of (effect_moves moves) value }
{
    match (moves, value) {
        (Moves::Byte, Value::Num(z)) => Value::Num(byte_of(z)),
        _ => value,
    }
}

/// An element is pushed.
pub fn load_element<'a>(
    frame: &mut Activation<'a>,
    heap: &Heap<'a>,
    moves: Moves,
) -> Result<Deed<'a>, NoMemory>
    requires { frame.old.at < length frame.old.method.insns }
    ensures { IfOk result (λ deed. FollowsOn (λ l m at locals store. after_array_load l m at locals store
        (Some (effect_moves moves))) deed frame.old frame.new heap.now heap.now) }
{
    let Some((reference, index)) = frame.value_and_number() else {
        return Ok(Deed::Stick);
    };
    match heap.element_at(moves, reference, index) {
        Ok(element) => {
            frame.put(2, load_of(moves, element.value))?;
            Ok(Deed::Go)
        }
        Err(halt) => Ok(deed_of(halt)),
    }
}

/// iaload, aaload, baload, saload, by opcode.
pub fn array_load<'a>(
    frame: &mut Activation<'a>,
    heap: &Heap<'a>,
    op: u8,
) -> Result<Deed<'a>, NoMemory>
    requires { frame.old.at < length frame.old.method.insns }
    ensures { IfOk result (λ deed. FollowsOn (λ l m at locals store. after_array_load l m at locals store (loads op))
        deed frame.old frame.new heap.now heap.now) }
{
    match op {
        jvm::IALOAD => load_element(frame, heap, Moves::Int),
        jvm::AALOAD => load_element(frame, heap, Moves::Reference),
        jvm::BALOAD => load_element(frame, heap, Moves::Byte),
        jvm::SALOAD => load_element(frame, heap, Moves::Short),
        _ => Ok(Deed::Stick),
    }
}

// How many elements there are.
fn count_of(items: &[Value]) -> i32
    requires { length items.now < 2 ^ 31 }
    ensures { result ≡ pos (length items.now) }
{
    items.len() as i32
}

/// arraylength.
pub fn array_length<'a>(frame: &mut Activation<'a>, heap: &Heap<'a>) -> Result<Deed<'a>, NoMemory>
    requires { frame.old.at < length frame.old.method.insns }
    ensures { IfOk result (λ deed. FollowsOn (λ l m at locals store. with_length l m at locals store) deed frame.old
        frame.new heap.now heap.now) }
{
    let Some(reference) = frame.value() else {
        return Ok(Deed::Stick);
    };
    match heap.array_at(reference) {
        Ok((_, _, items)) => {
            frame.put(1, Value::Num(count_of(items)))?;
            Ok(Deed::Go)
        }
        Err(halt) => Ok(deed_of(halt)),
    }
}
