//! Whether a method can be laid out. Called before a method that was built here is laid out.

ghost use Rattle.std.specs.Prelude.{◌≡◌, ◌+◌, ◌≤◌, true, IfSome};
ghost use Rattle.cjc_examples.specs.CapRead.Opcodes.{form, op_info};
ghost use Rattle.cjc_examples.specs.Layout.Sizes.{AllLead, CasesLead, Leads, insn_size, size_by, widest_size};
ghost use Rattle.cjc_examples.specs.Layout.Handlers.{AllLie, Lies};
ghost use Rattle.cjc_examples.specs.Layout.Layouts.{IsWhole};
ghost use Rattle.cjc_examples.specs.Layout.Working.{length_by};

use cjc_examples::capread::op;
use cjc_examples::ncode::{NCase, NCatch, NInsn, NMethod};

fn cases_lead(count: usize, cases: &[NCase]) -> bool
    ensures { result ≡ true → CasesLead count cases.now }
{
    let mut k = cases.len();
    while k > 0 {
        k -= 1;
        if cases[k].target as usize >= count {
            return false;
        }
    }
    true
}

fn leads(count: usize, insn: &NInsn) -> bool
    ensures { result ≡ true → Leads count insn.now }
{
    match insn {
        NInsn::Jump { target, .. } => (*target as usize) < count,
        NInsn::Switch { other, cases, .. } => {
            (*other as usize) < count && cases_lead(count, cases.items())
        }
        _ => true,
    }
}

fn all_lead(count: usize, insns: &[NInsn]) -> bool
    ensures { result ≡ true → AllLead count insns.now }
{
    let mut k = insns.len();
    while k > 0 {
        k -= 1;
        if !leads(count, &insns[k]) {
            return false;
        }
    }
    true
}

fn lies(count: usize, c: &NCatch) -> bool
    ensures { result ≡ true → Lies count c.now }
{
    (c.start as usize) < count && (c.end as usize) <= count && (c.target as usize) < count
}

fn all_lie(count: usize, catches: &[NCatch]) -> bool
    ensures { result ≡ true → AllLie count catches.now }
{
    let mut k = catches.len();
    while k > 0 {
        k -= 1;
        if !lies(count, &catches[k]) {
            return false;
        }
    }
    true
}

fn length_of(opcode: u8) -> u8
    ensures { result ≡ length_by (op_info opcode) }
{
    match op(opcode) {
        None => 1,
        Some(info) => info.length,
    }
}

/// No fewer than the bytes of an instruction of an opcode, of a switch with so many cases.
fn size_bound(opcode: u8, cases: usize) -> u32
    requires { cases ≤ 1000 }
    ensures { size_by (form opcode) cases ≤ result }
{
    let length = length_of(opcode);
    if length == 0 {
        11 + 6 * cases as u32
    } else {
        u32::from(length)
    }
}

/// What is left of so many bytes behind an instruction of an opcode, of a switch with at most a thousand cases.
fn with_table(room: u32, opcode: u8, cases: usize) -> Option<u32>
    ensures { IfSome result (λ left. size_by (form opcode) cases + left ≤ room) }
{
    if cases > 1000 {
        return None;
    }
    let size = size_bound(opcode, cases);
    if size <= room {
        Some(room - size)
    } else {
        None
    }
}

/// What is left of so many bytes behind an instruction, of a jump in its wide form.
fn left_behind(room: u32, insn: &NInsn) -> Option<u32>
    ensures { IfSome result (λ left. insn_size true insn.now + left ≤ room) }
{
    match insn {
        NInsn::Op(op) => with_table(room, *op, 0),
        NInsn::Push { op, .. } => with_table(room, *op, 0),
        NInsn::Local { op, .. } => with_table(room, *op, 0),
        NInsn::Inc { op, .. } => with_table(room, *op, 0),
        NInsn::Words { op, .. } => with_table(room, *op, 0),
        NInsn::Jump { .. } => { if room >= 3 { Some(room - 3) } else { None } }
        NInsn::Switch { op, cases, .. } => with_table(room, *op, cases.items().len()),
        NInsn::Named { op, .. } => with_table(room, *op, 0),
        NInsn::Interface { .. } => with_table(room, 0x8E, 0),
        NInsn::NewArray(_) => with_table(room, 0x90, 0),
        NInsn::TypeTest { op, .. } => with_table(room, *op, 0),
    }
}

/// Whether the instructions have at most so many bytes.
fn has_room(room: u32, insns: &[NInsn]) -> bool
    ensures { result ≡ true → widest_size insns.now ≤ room }
{
    let mut left = room;
    let mut k = insns.len();
    while k > 0 {
        k -= 1;
        match left_behind(left, &insns[k]) {
            None => return false,
            Some(less) => left = less,
        }
    }
    true
}

/// Whether a method can be laid out. It may be missed.
pub(crate) fn is_whole(method: &NMethod) -> bool
    ensures { result ≡ true → IsWhole method.now }
{
    let insns = method.insns.items();
    let count = insns.len();
    all_lead(count, insns)
        && all_lie(count, method.catches.items())
        && has_room(method.widest, insns)
}
