//! Narrow methods made by hand for the tests: long ones with far jumps, and one with handlers.

#[cfg(test)]
use cjc_examples::bytes::Bytes;
use cjc_examples::bytes::{NoMemory, Row};
use cjc_examples::ncode::{NCatch, NInsn, NMethod};
use std::alloc::Global;

/// A method of these instructions and handlers with one argument.
pub(crate) fn method(alloc: Global, insns: Row<NInsn>, catches: Row<NCatch>) -> NMethod {
    NMethod {
        insns,
        from: Row::new(alloc),
        catches,
        max_stack: 2,
        nargs: 1,
        max_locals: 0,
        widest: 32767,
    }
}

/// How far the jumps of a long method lead.
#[derive(Clone, Copy)]
pub enum Far {
    /// Over the next instruction.
    Near,
    /// To the first instruction.
    First,
    /// Over 21 other jumps, near as long as one of them is narrow, but for the last ones, which lead to the first
    /// instruction: no pass makes two of them wide.
    InTurn,
}

/// Where the jump at a place leads.
fn target(far: Far, at: u32) -> u32 {
    match far {
        Far::Near => at.saturating_add(2),
        Far::First => 0,
        Far::InTurn => { if at < 19916 { at + 85 } else { 0 } }
    }
}

fn instruction(far: Far, at: u32) -> NInsn {
    if at < 20000 && at % 4 == 0 {
        NInsn::Jump {
            op: 0x70,
            target: target(far, at),
        }
    } else {
        NInsn::Op(0x00)
    }
}

/// 22,767 instructions of 32,767 bytes where each jump is wide: 5,000 jumps, and as many bytes as that leaves.
pub fn long_method(alloc: Global, far: Far) -> Result<NMethod, NoMemory> {
    let mut insns = Row::new(alloc);
    for at in 0..22767u32 {
        insns.push(instruction(far, at))?;
    }
    Ok(method(alloc, insns, Row::new(alloc)))
}

/// Adds instructions without operands.
#[cfg(test)]
fn add(insns: &mut Row<NInsn>, opcodes: &[u8]) -> Result<(), NoMemory> {
    for op in opcodes {
        insns.push(NInsn::Op(*op))?;
    }
    Ok(())
}

#[cfg(test)]
fn any(start: u32, end: u32, target: u32, at: u32) -> NCatch {
    NCatch {
        start,
        end,
        target,
        class: None,
        at,
    }
}

/// sload_0 sload_0 sdiv sreturn under three handlers, the second over nothing that is written, the first of a class.
#[cfg(test)]
pub(crate) fn divides(alloc: Global) -> Result<NMethod, NoMemory> {
    let mut insns = Row::new(alloc);
    add(
        &mut insns,
        &[
            0x1C, 0x1C, 0x47, 0x78, 0x3B, 0x04, 0x78, 0x3B, 0x05, 0x78, 0x3B, 0x06, 0x78,
        ],
    )?;
    let mut catches = Row::new(alloc);
    let class = Bytes::copy_of(alloc, b"java/lang/ClassCastException")?;
    catches.push(NCatch {
        start: 2,
        end: 3,
        target: 4,
        class: Some(class),
        at: 5,
    })?;
    catches.push(any(3, 3, 7, 8))?;
    catches.push(any(0, 3, 10, 11))?;
    Ok(method(alloc, insns, catches))
}
