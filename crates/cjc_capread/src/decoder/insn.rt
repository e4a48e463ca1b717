//! An instruction at the front of bytes (Java Card Virtual Machine Specification 2.2.2, chapter 7). Whoever
//! reads code calls it.

ghost use Rattle.std.specs.Prelude.{◌≡◌, IfSome, option_map};
ghost use Rattle.cjc_capread.specs.Decode.{decode};
ghost use Rattle.cjc_capread.specs.Decoder.Decoded.{IsAtFront, instruction_of};

use crate::decoder::operands::{Operands, operands_before};
use crate::decoder::shape::{Shape, shape_of, size_before};
use crate::decoder::table::{Table, table_of};

/// An instruction.
#[derive(Clone, Copy)]
pub struct Insn<'a> {
    pub opcode: u8,
    pub shape: Shape,
    /// Of a switch those before its table.
    pub operands: Operands,
    pub table: Table<'a>,
    /// In bytes, with its opcode.
    pub size: usize,
}

/// The instruction at the front of bytes; `None` exactly where there is no such opcode, the bytes end in it, a
/// low match is above the high one, or matches do not ascend.
pub fn decode(bytes: &[u8]) -> Option<Insn<'_>>
    ensures is { option_map instruction_of result ≡ decode bytes.now }
    ensures front { IfSome result (λ i. IsAtFront i bytes.now) }
{
    if bytes.is_empty() {
        return None;
    }
    let shape = shape_of(bytes[0]);
    let behind = size_before(shape);
    if bytes.len() < behind {
        return None;
    }
    let operands = operands_before(shape, bytes);
    match table_of(shape, operands, &bytes[behind..]) {
        Some(table) => Some(Insn {
            opcode: bytes[0],
            shape,
            operands,
            table,
            size: behind + table.entries.len(),
        }),
        None => None,
    }
}
