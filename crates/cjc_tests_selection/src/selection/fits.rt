//! Tells whether a method can be selected. Called by tests. Knows no rule of a package.

ghost use Rattle.std.specs.Prelude.{◌≡◌, ℕ, true, Some, slice_get, IfOk};
ghost use Rattle.cjc_examples.specs.Bytecode.declared.insn.JInsn.{JInsn as Insn};
ghost use Rattle.cjc_examples.specs.NCode.Written.{nargs_of};
ghost use Rattle.cjc_examples.specs.LowerNarrow.Written.Operands.{CanBeSaid, IsAscending, IsByte};
ghost use Rattle.cjc_examples.specs.LowerNarrow.Select.Select.{IsSelectable};

use cjc_examples::bytecode::{JInsn, JOp};
use cjc_examples::bytes::{MemberId, NoMemory};
use cjc_examples::classfile::{Code, MethodTree};
use cjc_examples::lower_narrow::written::words_by;

/// One byte can say the words that a method takes.
fn is_called(method: &MemberId) -> Result<bool, NoMemory>
    ensures { IfOk result (λ can. can ≡ true → IsByte (nargs_of method.now)) }
{
    Ok(words_by(method.desc.items())? < 256)
}

/// One byte can say the numbers of an instruction.
fn is_said(op: &JOp) -> Result<bool, NoMemory>
    ensures { IfOk result (λ can. can ≡ true → CanBeSaid op.now) }
{
    match op {
        JOp::Load { refs: _, local } => Ok(*local < 256),
        JOp::Store { refs: _, local } => Ok(*local < 256),
        JOp::Inc { local, by: _ } => Ok(*local < 256),
        JOp::Call { op: _, method } => is_called(method),
        _ => Ok(true),
    }
}

fn are_said(insns: &[JInsn]) -> Result<bool, NoMemory>
    ensures { IfOk result (λ can. can ≡ true → (k : ℕ) (i : Insn) → slice_get insns.now k ≡ Some i → CanBeSaid i.op) }
{
    for k in 0..insns.len() {
        let insn = &insns[k];
        if !is_said(&insn.op)? {
            return Ok(false);
        }
    }
    Ok(true)
}

fn are_ascending(insns: &[JInsn]) -> bool
    ensures { result ≡ true → IsAscending insns.now }
{
    for k in 1..insns.len() {
        let before = insns[k - 1].at;
        let here = insns[k].at;
        if here <= before {
            return false;
        }
    }
    true
}

/// The method can be selected by which of these instructions are reached.
pub fn can_be_selected(
    method: &MethodTree<'_>,
    code: &Code<'_>,
    insns: &[JInsn],
    reaches: &[bool],
) -> Result<bool, NoMemory>
    ensures { IfOk result (λ can. can ≡ true → IsSelectable method.now code.now insns.now reaches.now) }
{
    if words_by(method.desc.items())? > 255 || code.max_stack > 255 || code.max_locals > 255 {
        return Ok(false);
    }
    if reaches.len() != insns.len() {
        return Ok(false);
    }
    if !are_said(insns)? {
        return Ok(false);
    }
    Ok(are_ascending(insns))
}
