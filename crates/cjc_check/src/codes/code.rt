//! The code of a method as it is kept. Whoever tests code uses it.

ghost use Rattle.std.specs.Prelude.{◌≡◌, IfOk, map};

use cjc_capread::bytes::{NoMemory, Row};
use cjc_capread::decoder::Insn;
use std::alloc::Global;

/// An instruction and the offset of its opcode, in bytes from the start of the info of Method.
#[derive(Clone, Copy)]
pub struct At<'a> {
    pub at: u32,
    pub insn: Insn<'a>,
}

/// The code of a method. Its offsets are bytes from the start of the info of Method.
#[derive(Drop)]
pub struct Body<'a> {
    pub is_abstract: bool,
    pub first: u32,
    pub end: u32,
    pub insns: Row<At<'a>>,
    /// The offset of each instruction.
    pub starts: Row<u64>,
}

/// The offsets of instructions.
pub(crate) fn starts_of(alloc: Global, insns: &[At<'_>]) -> Result<Row<u64>, NoMemory>
    ensures { IfOk result (λ s. s ≡ map (λ a. a.at) insns.now) }
{
    let mut starts = Row::new(alloc);
    for insn in insns {
        starts.push(u64::from(insn.at))?;
    }
    Ok(starts)
}
