//! The bytes of narrow instructions. Called by the choice of wide jumps. It knows no offset.

ghost use Rattle.std.specs.Prelude.{◌≡◌, false, ◌≤◌, length, map, IfOk};
ghost use Rattle.cjc_ncode.specs.LowerCapRead.Opcodes.{form, op_info};
ghost use Rattle.cjc_layout.specs.Sizes.{size_by, insn_size, widest_size};
ghost use Rattle.cjc_layout.specs.Working.{switch_size, length_by};

use cjc_ncode::NInsn;
use cjc_ncode::bytes::NoMemory;
use cjc_ncode::capread::{card, op};
use std::alloc::Global;

/// The bytes of a switch with so many cases.
fn switch_size(opcode: u8, cases: usize) -> usize
    requires { switch_size opcode cases ≤ 32767 }
    ensures { result ≡ switch_size opcode cases }
{
    match opcode {
        card::STABLESWITCH => 7 + 2 * cases,
        card::ITABLESWITCH => 11 + 2 * cases,
        card::SLOOKUPSWITCH => 5 + 4 * cases,
        _ => 5 + 6 * cases,
    }
}

/// The bytes of an instruction of an opcode, 0 of a switch.
fn length_of(opcode: u8) -> u8
    ensures { result ≡ length_by (op_info opcode) }
{
    match op(opcode) {
        None => 1,
        Some(info) => info.length,
    }
}

/// The bytes of an instruction of an opcode, of a switch with so many cases.
fn size_of(opcode: u8, cases: usize) -> usize
    requires { size_by (form opcode) cases ≤ 32767 }
    ensures { result ≡ size_by (form opcode) cases }
{
    let length = length_of(opcode);
    if length == 0 {
        switch_size(opcode, cases)
    } else {
        usize::from(length)
    }
}

/// The bytes of an instruction, of a jump in its narrow form.
fn narrow_size(insn: &NInsn) -> usize
    requires { insn_size false insn.now ≤ 32767 }
    ensures { result ≡ insn_size false insn.now }
{
    match insn {
        NInsn::Op(op) => size_of(*op, 0),
        NInsn::Push { op, .. } => size_of(*op, 0),
        NInsn::Local { op, .. } => size_of(*op, 0),
        NInsn::Inc { op, .. } => size_of(*op, 0),
        NInsn::Words { op, .. } => size_of(*op, 0),
        NInsn::Jump { .. } => 2,
        NInsn::Switch { op, cases, .. } => size_of(*op, cases.items().len()),
        NInsn::Named { op, .. } => size_of(*op, 0),
        NInsn::Interface { .. } => size_of(card::INVOKEINTERFACE, 0),
        NInsn::NewArray(_) => size_of(card::NEWARRAY, 0),
        NInsn::TypeTest { op, .. } => size_of(*op, 0),
    }
}

/// The bytes of each instruction, of jumps in their narrow forms.
pub(crate) fn narrow_sizes(alloc: Global, insns: &[NInsn]) -> Result<Vec<u16>, NoMemory>
    requires { widest_size insns.now ≤ 32767 }
    ensures { IfOk result (λ sizes. sizes.items ≡ map (insn_size false) insns.now) }
{
    let mut sizes = Vec::with_capacity(alloc, insns.len())?;
    for k in 0..insns.len() {
        let size = narrow_size(&insns[k]);
        sizes.push(size as u16)?;
    }
    Ok(sizes)
}
