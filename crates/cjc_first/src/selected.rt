//! The card's code for the instructions of a method.

ghost use Rattle.std.specs.Prelude.{◌≡◌, ◌++◌, ◌-◌, ◌<◌, ◌≤◌, ◌≤ℤ◌, ℕ, pos, negsuc, true, OnOk};
ghost use Rattle.std.specs.List.{list_all};
ghost use Rattle.cjc_first.specs.FirstForm.{ops_of};
ghost use Rattle.cjc_first.specs.Tests.{has_byte_local};
ghost use Rattle.cjc_first.specs.Selected.{low_word as low_word_lem, constant, load, selected, selected_code, header};

use cjc_bytes::{NoMemory, Out};
use cjc_code::{JInsn, JOp};

// The signed number of the low 16 bits.
fn low_word(z: i32) -> i32
    ensures value { result ≡ low_word_lem z }
    ensures low { negsuc 32767 ≤ℤ result }
    ensures high { result ≤ℤ pos 32767 }
{
    let low = z.rem_euclid(65536);
    if low < 32768 { low } else { low - 65536 }
}

fn put_constant(z: i32, out: &mut Out) -> Result<(), NoMemory>
    requires low { negsuc 32767 ≤ℤ z }
    requires high { z ≤ℤ pos 32767 }
    ensures { OnOk result (out.new ≡ out.old ++ constant z) }
{
    if -1 <= z && z <= 5 {
        out.put1(if z < 0 { 2 } else { 3 + z as u8 })
    } else if -128 <= z && z <= 127 {
        let byte = z as i8;
        out.put1(0x10)?;
        out.put1(byte.cast_unsigned())
    } else {
        let word = z as i16;
        out.put1(0x11)?;
        out.put2(word.cast_unsigned())
    }
}

fn put_load(local: u16, out: &mut Out) -> Result<(), NoMemory>
    requires { local < 256 }
    ensures { OnOk result (out.new ≡ out.old ++ load local) }
{
    if local < 4 {
        return out.put1(0x1C + local as u8);
    }
    out.put1(0x16)?;
    out.put1(local as u8)
}

// Writes what stands for one instruction.
#[tactic(auto, unfolding(crate::specs::Selected::selected))]
fn put_selected(op: &JOp, out: &mut Out) -> Result<(), NoMemory>
    requires { has_byte_local op.now ≡ true }
    ensures { OnOk result (out.new ≡ out.old ++ selected op.now) }
{
    match op {
        JOp::Number(z) => put_constant(low_word(*z), out),
        JOp::Load {
            refs: false,
            local,
            ..
        } => put_load(*local, out),
        JOp::Arith(0x60) => out.put1(0x41),
        JOp::Return(0xAC) => out.put1(0x78),
        _ => Ok(()),
    }
}

// Writes what stands for the instructions.
#[tactic(auto, unfolding(crate::specs::Selected::selected_code))]
pub(crate) fn put_code(insns: &[JInsn], out: &mut Out) -> Result<(), NoMemory>
    requires { list_all has_byte_local (ops_of insns.now) ≡ true }
    ensures { OnOk result (out.new ≡ out.old ++ selected_code (ops_of insns.now)) }
{
    let mut left = insns;
    while let [first, more @ ..] = left {
        put_selected(&first.op, out)?;
        left = more;
    }
    Ok(())
}

// Writes a method's header, which is short.
#[tactic(auto, unfolding(crate::specs::Selected::header))]
pub(crate) fn put_header(
    max_stack: u8,
    nargs: u8,
    max_locals: u8,
    out: &mut Out,
) -> Result<(), NoMemory>
    requires { (max_stack ≤ 15) × (nargs ≤ 15) × (max_locals ≤ 15) }
    ensures { OnOk result (out.new ≡ out.old ++ header max_stack nargs max_locals) }
{
    out.put1(max_stack)?;
    out.put1(16 * nargs + max_locals)
}
