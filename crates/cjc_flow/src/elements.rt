//! What array loads of a method give, by its types. Called by ranging.rt.

ghost use Rattle.std.specs.Prelude.{◌≡◌, List, option_map, IfOk};
ghost use Rattle.cjc_types.specs.World.Classes.{Class};
ghost use Rattle.cjc_types.specs.Tables.{IsTypeTable, rows_of, state_of};
ghost use Rattle.cjc_flow.specs.Working.Given.{element_at as element_by, element_given as given_element, elements_of};

use crate::intervals::full_interval;
use crate::values;
use cjc_fixpoint::bytes::{NoMemory, Row};
use cjc_range::Interval;
use cjc_types::bytecode::{JInsn, JOp};
use cjc_types::{Cell, Frame, Method, Operands, TypeTable, TypeWalk};
use std::alloc::Global;

/// What an instruction gives, where it loads from an array.
fn element_given(op: &JOp, stack: &Operands) -> Interval
    ensures { result ≡ given_element op.now stack.now }
{
    match op {
        JOp::ArrayLoad(opcode) => match stack.get(1) {
            Some(array) => values::element(*opcode, array),
            None => values::element(*opcode, &Cell::Unusable),
        },
        _ => full_interval(),
    }
}

/// The same, where the types reach the instruction.
fn element_at(insn: &JInsn, frame: &Option<Frame>) -> Option<Interval>
    ensures { result ≡ element_by insn.now (option_map state_of frame.now) }
{
    match frame {
        Some(frame) => Some(element_given(&insn.op, &frame.stack)),
        None => None,
    }
}

/// The same of all instructions.
pub(crate) fn elements(
    alloc: Global,
    method: &Method<'_>,
    types: &TypeTable,
    insns: &[JInsn],
) -> Result<Row<Option<Interval>>, NoMemory>
    requires insns { insns.now ≡ method.now.insns }
    requires types { (w : List Class) × IsTypeTable w method.now types.now }
    ensures { IfOk result (λ elements. elements ≡ elements_of method.now.insns (rows_of method.now types.now)) }
{
    let mut walk = TypeWalk::new(method, types);
    let mut elements = Row::new(alloc);
    for place in 0..insns.len() {
        elements.push(element_at(&insns[place], walk.frame()))?;
        walk.advance(alloc)?;
    }
    Ok(elements)
}
