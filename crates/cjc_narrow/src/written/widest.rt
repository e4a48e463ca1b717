//! The widest sizes of what is written, in bytes. Called by whoever selects code.

ghost use Rattle.std.specs.Prelude.{◌≡◌, ◌+◌, ◌*◌, ◌≤◌, ℕ, length, IfOk};
ghost use Rattle.cjc_ncode.specs.Written.{reached, widest, widest_sum};
ghost use Rattle.cjc_narrow.specs.Written.Rows.{rows_by};
ghost use Rattle.cjc_narrow.specs.Written.Working.Places.{widest_if};

use crate::written::places::sum;
use cjc_types::bytecode::{JInsn, JOp, jvm};
use cjc_types::bytes::NoMemory;

/// The size of a switch with so many cases.
fn switch_size(head: u32, case: u32, cases: usize) -> Result<u32, NoMemory>
    requires head { head ≤ 8 }
    requires case { case ≤ 4 }
    ensures { IfOk result (λ size. size ≡ head + case * cases) }
{
    if cases > 0x0FFF_FFFF {
        Err(NoMemory)
    } else {
        Ok(head + case * cases as u32)
    }
}

fn widest(op: &JOp) -> Result<u32, NoMemory>
    ensures { IfOk result (λ size. size ≡ widest op.now) }
{
    match op {
        JOp::Nop => Ok(0),
        JOp::Null
        | JOp::ArrayLoad(_)
        | JOp::ArrayStore(_)
        | JOp::Arith(_)
        | JOp::Return(_)
        | JOp::ArrayLength
        | JOp::Throw => Ok(1),
        JOp::Load { .. } | JOp::Store { .. } => Ok(2),
        JOp::Stack(op) => Ok(if *op <= jvm::DUP || *op == jvm::DUP2 {
            1
        } else {
            2
        }),
        JOp::Narrow(op) => Ok(if *op == jvm::I2B { 1 } else { 0 }),
        JOp::Call { op, method: _ } => Ok(if *op == jvm::INVOKEINTERFACE { 5 } else { 3 }),
        JOp::Inc { .. } | JOp::CheckCast(_) | JOp::InstanceOf(_) => Ok(4),
        JOp::TableSwitch {
            other: _,
            low: _,
            targets,
        } => switch_size(7, 2, targets.items().len()),
        JOp::LookupSwitch { other: _, cases } => switch_size(5, 4, cases.items().len()),
        _ => Ok(3),
    }
}

/// A size, with that of an instruction where it is reached.
fn widest_if(is_reached: bool, size: u32, op: &JOp) -> Result<u32, NoMemory>
    ensures { IfOk result (λ total. total ≡ widest_if is_reached size op.now) }
{
    if is_reached {
        sum(size, widest(op)?)
    } else {
        Ok(size)
    }
}

/// The sum of the widest sizes of the reached instructions, where 32 bits count it.
#[tactic(auto, using(crate::proofs::WrittenLaws::Order::widest_next, crate::proofs::WrittenLaws::Order::widest_end))]
pub fn widest_sum(insns: &[JInsn], reaches: &[bool]) -> Result<u32, NoMemory>
    requires { length reaches.now ≡ length insns.now }
    ensures { IfOk result (λ size. size ≡ widest_sum (reached insns.now (rows_by reaches.now))) }
{
    let mut size = 0;
    for k in 0..insns.len() {
        size = widest_if(reaches[k], size, &insns[k].op)?;
    }
    Ok(size)
}
