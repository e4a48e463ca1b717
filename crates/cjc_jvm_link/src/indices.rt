//! Indices of the instructions of methods by their offsets, made once.

ghost use Rattle.std.specs.Prelude.{◌≡◌, ◌<◌, ◌+◌, ◌^◌, ◌==◌, ℕ, length, slice_get, IfOk, OnOk, if◌then◌else◌};
ghost use Rattle.cjc_jvm_semantics.specs.Effects.{or_other};
ghost use Rattle.cjc_jvm_step.specs.Frame.Places.{IsIndex};
ghost use Rattle.cjc_jvm_link.specs.Methods.{AreIndices};

use cjc_jvm_semantics::bytecode::{JInsn, MethodCode};
use cjc_world::bytes::{NoMemory, Row};
use std::alloc::Global;

// More instructions than any method has.
const TOO_MANY: usize = 1 << 32;

// Makes room for an offset in an index, where `none` stands for no instruction.
fn make_room(index: &mut Vec<u32>, offset: usize, none: u32) -> Result<(), NoMemory>
    ensures same { OnOk result ((at : ℕ) → or_other none (slice_get index.new.items at)
        ≡ or_other none (slice_get index.old.items at)) }
    ensures room { OnOk result (offset < length index.new.items) }
{
    while index.len() <= offset {
        index.push(none)?;
    }
    Ok(())
}

// Puts the place of the instruction at an offset into an index.
fn put_place(index: &mut Vec<u32>, offset: usize, place: u32, none: u32) -> Result<(), NoMemory>
    ensures { OnOk result ((at : ℕ) → or_other none (slice_get index.new.items at) ≡ (if offset == at then place
        else or_other none (slice_get index.old.items at))) }
{
    make_room(index, offset, none)?;
    index[offset] = place;
    Ok(())
}

// The index of the instructions of a method. No memory is there for 2^32 of them or more.
fn index_of(alloc: Global, insns: &[JInsn]) -> Result<Row<u32>, NoMemory>
    ensures index { IfOk result (λ index. IsIndex insns.now index) }
    ensures few { OnOk result (length insns.now < 2 ^ 32) }
{
    if insns.len() >= TOO_MANY {
        return Err(NoMemory);
    }
    let none = insns.len() as u32;
    let mut index = Vec::new(alloc);
    let mut place = insns.len();
    while place > 0 {
        place -= 1;
        put_place(&mut index, insns[place].at as usize, place as u32, none)?;
    }
    Ok(Row::of(index))
}

/// The indices of the instructions of each method, in the order of the methods.
pub fn indices_of(alloc: Global, codes: &[MethodCode]) -> Result<Row<Row<u32>>, NoMemory>
    ensures { IfOk result (λ indices. AreIndices codes.now indices) }
{
    let mut indices = Row::new(alloc);
    for code in codes {
        indices.push(index_of(alloc, code.insns.items())?)?;
    }
    Ok(indices)
}
