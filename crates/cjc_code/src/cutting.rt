//! A code cut into opcodes with their operands as numbers, with the padding and the tails of switches, up to
//! the first place where no instruction stands. No index and no jump is looked at yet.

ghost use Rattle.std.specs.Prelude.{◌≡◌, ◌<◌, ◌≤◌, length, IfOk, pos, ◌+ℤ◌, ◌-ℤ◌};
ghost use Rattle.std.specs.Int.{w8};
ghost use Rattle.cjc_bytes.specs.Format.{repeated};
ghost use Rattle.cjc_bytes.specs.Found.{Finds};
ghost use Rattle.cjc_bytes.specs.Reading.{Reads, read};
ghost use Rattle.cjc_bytes.proofs.Loops.{with_front};
ghost use Rattle.cjc_code.specs.declared.table.Operand.TheVariants as kinds;
ghost use Rattle.cjc_code.specs.Table.{padding, count as count_of, tails};
ghost use Rattle.cjc_code.specs.Instruction.{operand, operands, behind_opcode, is_prefix, behind_first, instruction};
ghost use Rattle.cjc_code.specs.Cut.{cut};

use crate::raw::{Cut, Raw};
use crate::table::{Family, Opcode, Operand, Operands, heads, opcode_at, wide_opcode_at};
use cjc_bytes::{Cursor, NoMemory, Row, Stop};
use std::alloc::Global;

#[tactic(auto, unfolding(crate::specs::Instruction::operand))]
fn read_operand(kind: Operand, cursor: &mut Cursor<'_>) -> Result<i32, Stop>
    ensures { Reads (λ z. z) (operand kind) cursor.old cursor.new result }
{
    Ok(match kind {
        Operand::Unsigned1 => i32::from(cursor.u1()?),
        Operand::Signed1 => i32::from(cursor.u1()?.cast_signed()),
        Operand::Unsigned2 => i32::from(cursor.u2()?),
        Operand::Signed2 => i32::from(cursor.u2()?.cast_signed()),
        Operand::Signed4 => cursor.u4()?.cast_signed(),
    })
}

#[tactic(auto, using(crate::proofs::Loops::operands_more, crate::proofs::Loops::operands_stop, crate::proofs::Loops::operands_all, cjc_bytes::proofs::Loops::with_none))]
fn read_operands(
    alloc: Global,
    kinds: &[Operand],
    cursor: &mut Cursor<'_>,
) -> Result<Row<i32>, Stop>
    ensures { Reads (λ zs. zs) (operands kinds.now) cursor.old cursor.new result }
{
    let mut numbers = Row::new(alloc);
    for kind in kinds {
        numbers.push(read_operand(*kind, cursor)?)?;
    }
    Ok(numbers)
}

/// So many numbers of four bytes behind these.
#[tactic(auto, using(cjc_bytes::proofs::Loops::repeated_more, cjc_bytes::proofs::Loops::repeated_stops, cjc_bytes::proofs::Loops::repeated_all))]
fn read_tail(mut numbers: Row<i32>, count: u64, cursor: &mut Cursor<'_>) -> Result<Row<i32>, Stop>
    ensures { Finds (λ zs. (zs, cursor.new)) (with_front numbers (read (repeated count (operand kinds.Signed4))
        cursor.old)) result }
{
    for _ in 0..count {
        numbers.push(read_operand(Operand::Signed4, cursor)?)?;
    }
    Ok(numbers)
}

fn padding(operands: Operands, place: u32) -> u32
    ensures { result ≡ padding operands place }
{
    match operands {
        Operands::Table | Operands::Lookup => (4 - place % 4) % 4,
        _ => 0,
    }
}

fn count(z: i64) -> u64
    ensures { result ≡ count_of z }
{
    if z < 0 { 0 } else { z as u64 }
}

/// How many values there are from low to high.
fn values(low: i32, high: i32) -> u64
    ensures { result ≡ count_of ((high -ℤ low) +ℤ pos 1) }
{
    count(i64::from(high) - i64::from(low) + 1)
}

/// How many numbers of four bytes follow those of a switch.
fn tails(operands: Operands, numbers: &[i32]) -> u64
    ensures { result ≡ tails operands numbers.now }
{
    match (operands, numbers) {
        (Operands::Table, [_, low, high, ..]) => values(*low, *high),
        (Operands::Lookup, [_, pairs, ..]) => 2 * count(i64::from(*pairs)),
        _ => 0,
    }
}

#[tactic(auto, unfolding(crate::specs::Instruction::behind_opcode, cjc_bytes::specs::Format::raw))]
fn read_behind_opcode(
    alloc: Global,
    at: u16,
    opcode: Opcode,
    cursor: &mut Cursor<'_>,
) -> Result<Raw, Stop>
    ensures { Reads (λ i. i) (behind_opcode at opcode) cursor.old cursor.new result }
{
    let place = cursor.at();
    cursor.take(padding(opcode.operands, place))?;
    let first = read_operands(alloc, heads(opcode.operands), cursor)?;
    let count = tails(opcode.operands, first.items());
    let numbers = read_tail(first, count, cursor)?;
    Ok(Raw {
        at,
        opcode: opcode.number,
        family: opcode.family,
        numbers,
    })
}

fn is_prefix(family: Family) -> bool
    ensures { result ≡ is_prefix family }
{
    matches!(family, Family::Wide)
}

#[tactic(auto, unfolding(crate::specs::Instruction::instruction, crate::specs::Instruction::behind_first))]
fn read_instruction(alloc: Global, cursor: &mut Cursor<'_>) -> Result<Raw, Stop>
    requires { cursor.old.at < 65536 }
    ensures { Reads (λ i. i) instruction cursor.old cursor.new result }
{
    let at = cursor.at();
    let first = opcode_at(cursor.u1()?).ok_or(Stop::Broken(at))?;
    if !is_prefix(first.family) {
        return read_behind_opcode(alloc, at as u16, first, cursor);
    }
    let wide_at = cursor.at();
    let opcode = wide_opcode_at(cursor.u1()?).ok_or(Stop::Broken(wide_at))?;
    read_behind_opcode(alloc, at as u16, opcode, cursor)
}

/// What a code is cut into.
#[tactic(auto, using(crate::proofs::Loops::cut_more, crate::proofs::Loops::cut_ends, crate::proofs::Loops::cut_all, crate::proofs::Loops::read_keeps), unfolding(crate::specs::Cut::cut))]
pub(crate) fn cut(alloc: Global, code: &[u8]) -> Result<Cut, NoMemory>
    requires { length code.now ≤ 65535 }
    ensures { IfOk result (λ c. c ≡ cut code.now) }
{
    let mut cursor = Cursor::new(code);
    let mut insns = Row::new(alloc);
    for _ in 0..code.len() {
        let stop = cursor.at();
        match read_instruction(alloc, &mut cursor) {
            Ok(insn) => insns.push(insn)?,
            Err(Stop::Broken(_)) => return Ok(Cut { insns, stop }),
            Err(Stop::NoMemory) => return Err(NoMemory),
        }
    }
    Ok(Cut {
        insns,
        stop: cursor.at(),
    })
}
