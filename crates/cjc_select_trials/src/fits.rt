//! Tells whether a method can be selected. Called by tests. Knows no rule of a package.

ghost use Rattle.std.specs.Prelude.{◌≡◌, ℕ, true, Some, slice_get, IfOk};
ghost use Rattle.cjc_code.specs.declared.insn.JInsn.{JInsn as Insn};
ghost use Rattle.cjc_written.specs.Operands.{CanBeSaid, IsAscending};
ghost use Rattle.cjc_select.specs.Select.{IsSelectable};

use cjc_bytes::NoMemory;
use cjc_classfile::{Code, MethodTree};
use cjc_code::{JInsn, JOp};
use cjc_written::words_by;

/// One byte can say the local of an instruction. Calls of interfaces' methods are not told.
fn is_said(op: &JOp) -> bool
    ensures { result ≡ true → CanBeSaid op.now }
{
    match op {
        JOp::Load { refs: _, local } => *local < 256,
        JOp::Store { refs: _, local } => *local < 256,
        JOp::Inc { local, by: _ } => *local < 256,
        JOp::Call { op, method: _ } => *op != 0xB9,
        _ => true,
    }
}

fn are_said(insns: &[JInsn]) -> bool
    ensures { result ≡ true → (k : ℕ) (i : Insn) → slice_get insns.now k ≡ Some i → CanBeSaid i.op }
{
    for k in 0..insns.len() {
        let insn = &insns[k];
        if !is_said(&insn.op) {
            return false;
        }
    }
    true
}

fn are_ascending(insns: &[JInsn]) -> bool
    ensures { result ≡ true → IsAscending insns.now }
{
    for k in 1..insns.len() {
        let before = insns[k - 1].at;
        let here = insns[k].at;
        if here <= before {
            return false;
        }
    }
    true
}

/// The method can be selected by which of these instructions are reached. One that calls an interface's method is not told
/// to be.
pub fn can_be_selected(
    method: &MethodTree<'_>,
    code: &Code<'_>,
    insns: &[JInsn],
    reaches: &[bool],
) -> Result<bool, NoMemory>
    ensures { IfOk result (λ can. can ≡ true → IsSelectable method.now code.now insns.now reaches.now) }
{
    if words_by(method.desc.items())? > 255 || code.max_stack > 255 || code.max_locals > 255 {
        return Ok(false);
    }
    if reaches.len() != insns.len() {
        return Ok(false);
    }
    Ok(are_said(insns) && are_ascending(insns))
}
