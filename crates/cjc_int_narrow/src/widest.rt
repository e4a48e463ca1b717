//! The widest sizes of what is written, in bytes. Called by whoever selects code.

ghost use Rattle.std.specs.Prelude.{◌≡◌, ◌+◌, ◌*◌, ◌==◌, ◌≤◌, if◌then◌else◌, nat_le, length, IfOk};
ghost use Rattle.cjc_int_mode.specs.Bytecode.Jvm as jvm;
ghost use Rattle.cjc_int_mode.specs.Script.Sorts.{signature_of};
ghost use Rattle.cjc_ncode.specs.IntCode.IntCode.{params_by, widest, widest_get, widest_sum};
ghost use Rattle.cjc_narrow.specs.Select.Working.Names.{resolution_of};
ghost use Rattle.cjc_int_narrow.specs.Reached.{reached_by};
ghost use Rattle.cjc_int_narrow.specs.Working.Walks.{widest_if};

use crate::frame::Frame;
use crate::kinds::params_of;
use crate::known::Before;
use cjc_narrow::rows::constant_named;
use cjc_narrow::select::Names;
use cjc_ncode::bytecode::{JInsn, JOp, jvm};
use cjc_ncode::bytes::{MemberId, NoMemory};

/// A head, and so many parts of the same size.
fn size(head: u32, part: u32, count: usize) -> Result<u32, NoMemory>
    requires head { head ≤ 16 }
    requires part { part ≤ 8 }
    ensures { IfOk result (λ size. size ≡ head + part * count) }
{
    if count > 0x0FFF_FFFF {
        Err(NoMemory)
    } else {
        Ok(head + part * count as u32)
    }
}

fn of_jump(op: u8) -> u32
    ensures { result ≡ (if nat_le op jvm.ifle then 5 else (if nat_le op jvm.if_icmple then 4 else 3)) }
{
    if op <= jvm::IFLE {
        5
    } else if op <= jvm::IF_ICMPLE {
        4
    } else {
        3
    }
}

fn of_read(op: u8) -> u32
    ensures { result ≡ (if op == jvm.iaload then 12 else (if op == jvm.aaload then 12 else 13)) }
{
    match op {
        jvm::IALOAD | jvm::AALOAD => 12,
        _ => 13,
    }
}

fn of_store(op: u8) -> u32
    ensures { result ≡ (if op == jvm.iastore then 16 else (if op == jvm.aastore then 16 else 17)) }
{
    match op {
        jvm::IASTORE | jvm::AASTORE => 16,
        _ => 17,
    }
}

/// Of a static field that is read or written; a constant is a number.
#[tactic(auto, unfolding(cjc_narrow::specs::Rows::Resolved::resolution))]
fn of_static(names: &Names<'_, '_>, put: bool, field: &MemberId) -> u32
    ensures { let r = resolution_of names.now in result ≡ (if put then 4 else widest_get (r.constant field.now)) }
{
    if put {
        return 4;
    }
    match constant_named(names.world, field) {
        Some(_) => 5,
        None => 4,
    }
}

fn of_call(op: u8, desc: &[u8]) -> Result<u32, NoMemory>
    ensures { IfOk result (λ size. size ≡ (if op == jvm.invokeinterface then 6 else 4)
        + 5 * params_by (signature_of desc.now)) }
{
    let head = if op == jvm::INVOKEINTERFACE { 6 } else { 4 };
    size(head, 5, params_of(desc)? as usize)
}

fn widest(names: &Names<'_, '_>, op: &JOp) -> Result<u32, NoMemory>
    ensures { IfOk result (λ size. size ≡ widest (resolution_of names.now) op.now) }
{
    match op {
        JOp::Nop => Ok(0),
        JOp::Null | JOp::Arith(_) | JOp::Throw => Ok(1),
        JOp::Load { .. } | JOp::Store { .. } | JOp::Stack(_) | JOp::Narrow(_) | JOp::ArrayLength =>
            Ok(2),
        JOp::Return(op) => Ok(if *op == jvm::IRETURN { 2 } else { 1 }),
        JOp::Goto(_) | JOp::New(_) => Ok(3),
        JOp::Inc { .. }
        | JOp::Field { .. }
        | JOp::NewArray(_)
        | JOp::ANewArray(_)
        | JOp::CheckCast(_) => Ok(4),
        JOp::Number(_) | JOp::InstanceOf(_) => Ok(5),
        JOp::ArrayLoad(op) => Ok(of_read(*op)),
        JOp::ArrayStore(op) => Ok(of_store(*op)),
        JOp::If { op, .. } => Ok(of_jump(*op)),
        JOp::TableSwitch { targets, .. } => size(11, 2, targets.items().len()),
        JOp::LookupSwitch { cases, .. } => size(5, 6, cases.items().len()),
        JOp::Static { put, field } => Ok(of_static(names, *put, field)),
        JOp::Call { op, method } => of_call(*op, method.desc.items()),
    }
}

/// The sum, where 32 bits count it.
fn sum(m: u32, n: u32) -> Result<u32, NoMemory>
    ensures { IfOk result (λ total. total ≡ m + n) }
{
    match m.checked_add(n) {
        Some(total) => Ok(total),
        None => Err(NoMemory),
    }
}

/// A size, with that of an instruction where it is reached.
fn widest_if(
    names: &Names<'_, '_>,
    before: &Option<Before>,
    size: u32,
    op: &JOp,
) -> Result<u32, NoMemory>
    ensures { IfOk result (λ total. total ≡ widest_if (resolution_of names.now) before.now size op.now) }
{
    match before {
        Some(_) => sum(size, widest(names, op)?),
        None => Ok(size),
    }
}

/// The sum of the widest sizes of the reached instructions and of the prologue, where 32 bits count it.
#[tactic(auto, using(crate::proofs::Walks::widest_next, crate::proofs::Walks::widest_end))]
pub(crate) fn widest_sum(
    names: &Names<'_, '_>,
    frame: &Frame<'_>,
    insns: &[JInsn],
    befores: &[Option<Before>],
) -> Result<u32, NoMemory>
    requires { length befores.now ≡ length insns.now }
    ensures { IfOk result (λ size. size ≡ widest_sum frame.now (resolution_of names.now) (reached_by insns.now
        befores.now)) }
{
    let mut total = size(0, 5, frame.params()? as usize)?;
    for k in 0..insns.len() {
        total = widest_if(names, &befores[k], total, &insns[k].op)?;
    }
    Ok(total)
}
