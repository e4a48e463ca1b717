//! What is known of an instruction by itself: how many operands it takes, which of them a stack instruction
//! puts back, and where it may go. Called by steps.rt, method.rt, marks.rt, repeats.rt and rules.rt, and by the
//! flows of crates above whose places are instructions too. Knows no cell and no state.

ghost use Rattle.std.specs.Prelude.{◌≡◌, ◌+◌, ◌≤◌, ◌∷◌, map, length, if◌then◌else◌, IfOk};
ghost use Rattle.cjc_types.specs.Repeats.{jumps as is_jump};
ghost use Rattle.cjc_types.specs.Steps.{stack_takes, compares, receivers, takes, shuffled, goes_on, targets};
ghost use Rattle.cjc_types.specs.Steps.{case_target};
ghost use Rattle.cjc_types.specs.Types.{parts};

use crate::types;
use cjc_bytes::{MemberId, NoMemory, Row};
use cjc_code::{JCase, JOp, jvm};
use std::alloc::Global;

fn stack_takes(opcode: u8) -> usize
    ensures { result ≡ stack_takes opcode }
{
    match opcode {
        jvm::POP | jvm::DUP => 1,
        jvm::POP2 | jvm::DUP_X1 | jvm::DUP2 | jvm::SWAP => 2,
        jvm::DUP_X2 | jvm::DUP2_X1 => 3,
        jvm::DUP2_X2 => 4,
        _ => 0,
    }
}

fn compares(opcode: u8) -> bool
    ensures { result ≡ compares opcode }
{
    jvm::IF_ICMPEQ <= opcode && opcode <= jvm::IF_ACMPNE
}

/// How many receivers a call by this opcode has.
fn receivers(opcode: u8) -> usize
    ensures count { result ≡ receivers opcode }
    ensures small { result ≤ 1 }
{
    if opcode == jvm::INVOKESTATIC { 0 } else { 1 }
}

/// How many operands a call takes.
fn call_takes(opcode: u8, method: &MemberId) -> usize
    ensures { result ≡ length (parts method.now.desc).params + receivers opcode }
{
    types::parameters(method.desc.items()) + receivers(opcode)
}

/// The first number where the test holds, else the second.
pub(crate) fn either(test: bool, yes: usize, no: usize) -> usize
    ensures { result ≡ (if test then yes else no) }
{
    if test { yes } else { no }
}

/// How many operands an instruction takes from the stack.
pub fn takes(op: &JOp) -> usize
    ensures { result ≡ takes op.now }
{
    match op {
        JOp::Store { .. } | JOp::Narrow(_) | JOp::TableSwitch { .. } | JOp::LookupSwitch { .. } => {
            1
        }
        JOp::NewArray(_) | JOp::ANewArray(_) | JOp::ArrayLength | JOp::Throw => 1,
        JOp::CheckCast(_) | JOp::InstanceOf(_) => 1,
        JOp::ArrayLoad(_) => 2,
        JOp::ArrayStore(_) => 3,
        JOp::Stack(opcode) => stack_takes(*opcode),
        JOp::Arith(opcode) => either(*opcode == jvm::INEG, 1, 2),
        JOp::If { op: opcode, .. } => either(compares(*opcode), 2, 1),
        JOp::Return(opcode) => either(*opcode == jvm::RETURN, 0, 1),
        JOp::Static { put, .. } => either(*put, 1, 0),
        JOp::Field { put, .. } => either(*put, 2, 1),
        JOp::Call { op: opcode, method } => call_takes(*opcode, method),
        _ => 0,
    }
}

/// Which operands a stack instruction puts back.
pub fn shuffle(opcode: u8) -> &'static [u8]
    ensures { result.now ≡ shuffled opcode }
{
    match opcode {
        jvm::DUP => &[0, 0],
        jvm::DUP_X1 => &[0, 1, 0],
        jvm::DUP_X2 => &[0, 1, 2, 0],
        jvm::DUP2 => &[0, 1, 0, 1],
        jvm::DUP2_X1 => &[0, 1, 2, 0, 1],
        jvm::DUP2_X2 => &[0, 1, 2, 3, 0, 1],
        jvm::SWAP => &[1, 0],
        _ => &[],
    }
}

/// Whether the next instruction may follow.
pub fn goes_on(op: &JOp) -> bool
    ensures { result ≡ goes_on op.now }
{
    match op {
        JOp::Goto(_) | JOp::TableSwitch { .. } | JOp::LookupSwitch { .. } => false,
        JOp::Return(_) | JOp::Throw => false,
        _ => true,
    }
}

/// Whether an instruction may go elsewhere than to the next.
pub(crate) fn jumps(op: &JOp) -> bool
    ensures { result ≡ is_jump op.now }
{
    match op {
        JOp::If { .. } | JOp::Goto(_) | JOp::TableSwitch { .. } | JOp::LookupSwitch { .. } => true,
        _ => false,
    }
}

fn offsets(alloc: Global, first: u32, more: &[u32]) -> Result<Row<u32>, NoMemory>
    ensures { IfOk result (λ offsets. offsets ≡ first ∷ more.now) }
{
    let mut offsets = Vec::new(alloc);
    offsets.push(first)?;
    offsets.extend_from_slice(more)?;
    Ok(Row::of(offsets))
}

fn case_offsets(alloc: Global, first: u32, cases: &[JCase]) -> Result<Row<u32>, NoMemory>
    ensures { IfOk result (λ offsets. offsets ≡ first ∷ map case_target cases.now) }
{
    let mut offsets = Row::new(alloc);
    offsets.push(first)?;
    for case in cases {
        offsets.push(case.target)?;
    }
    Ok(offsets)
}

/// The offsets that an instruction may jump to.
pub fn targets(alloc: Global, op: &JOp) -> Result<Row<u32>, NoMemory>
    ensures { IfOk result (λ offsets. offsets ≡ targets op.now) }
{
    match op {
        JOp::If { target, .. } => offsets(alloc, *target, &[]),
        JOp::Goto(target) => offsets(alloc, *target, &[]),
        JOp::TableSwitch { other, targets, .. } => offsets(alloc, *other, targets.items()),
        JOp::LookupSwitch { other, cases } => case_offsets(alloc, *other, cases.items()),
        _ => Ok(Row::new(alloc)),
    }
}
