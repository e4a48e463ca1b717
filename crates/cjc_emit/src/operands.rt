//! Instructions with operands as bytes, by the length that their opcode has. Called by whoever writes
//! instructions. It knows no pool and no label.

ghost use Rattle.std.specs.Prelude.{◌≡◌, ◌++◌, OnOk};
ghost use Rattle.cjc_layout.specs.CapRead.Opcodes.{op_info};
ghost use Rattle.cjc_emit.specs.Working.{jump_opcode, length_by, with_one, with_two};

use crate::numbers::put_low;
use cjc_ncode::bytes::{Bytes, NoMemory};
use cjc_ncode::capread::op;

/// The bytes of an instruction of an opcode.
fn length_of(opcode: u8) -> u8
    ensures { result ≡ length_by (op_info opcode) }
{
    match op(opcode) {
        None => 1,
        Some(info) => info.length,
    }
}

/// An opcode and its operand.
pub(crate) fn put_with_one(out: &mut Bytes, op: u8, n: u32) -> Result<(), NoMemory>
    ensures { OnOk result (out.new ≡ out.old ++ with_one op n) }
{
    out.push(op)?;
    put_low(out, length_of(op).saturating_sub(1), n)
}

/// An opcode, an operand of one byte, and another.
pub(crate) fn put_with_two(out: &mut Bytes, op: u8, first: u8, n: u32) -> Result<(), NoMemory>
    ensures { OnOk result (out.new ≡ out.old ++ with_two op first n) }
{
    out.push(op)?;
    out.push(first)?;
    put_low(out, length_of(op).saturating_sub(2), n)
}

/// The opcode of a jump, narrow or wide.
pub(crate) fn jump_opcode(wide: bool, op: u8) -> u8
    ensures { result ≡ jump_opcode wide op }
{
    if wide && op < 200 { op + 56 } else { op }
}
