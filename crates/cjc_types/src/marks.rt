//! The marked places of a method: the first instruction, and each to which a jump, a switch or a handler leads.

ghost use Rattle.std.specs.Prelude.{◌≡◌, false, replicate, length, IfOk, OnOk};
ghost use Rattle.cjc_types.specs.Marks.{marks_of as marks_by};
ghost use Rattle.cjc_types.specs.Working.Marking.{with_mark, with_offsets, with_jumps, with_handlers, with_all};

use crate::insns;
use crate::method::Method;
use cjc_bytes::{NoMemory, Row};
use std::alloc::Global;

/// Marks a place.
fn mark(marked: &mut Vec<bool>, place: Option<u32>)
    ensures { marked.new.items ≡ with_mark marked.old.items place }
{
    if let Some(place) = place {
        let place = place as usize;
        if place < marked.len() {
            marked[place] = true;
        }
    }
}

/// Marks the places at some offsets.
fn mark_offsets(method: &Method<'_>, marked: &mut Vec<bool>, offsets: &[u32])
    ensures { marked.new.items ≡ with_offsets method.now.insns marked.old.items offsets.now }
{
    for offset in offsets {
        mark(marked, method.place_at(*offset));
    }
}

/// Marks the places to which the instructions jump.
fn mark_jumps(alloc: Global, method: &Method<'_>, marked: &mut Vec<bool>) -> Result<(), NoMemory>
    ensures { OnOk result (marked.new.items ≡ with_jumps method.now.insns marked.old.items method.now.insns) }
{
    for insn in method.insns {
        let offsets = insns::targets(alloc, &insn.op)?;
        mark_offsets(method, marked, offsets.items());
    }
    Ok(())
}

/// Marks the places at which handlers begin.
fn mark_handlers(method: &Method<'_>, marked: &mut Vec<bool>)
    ensures { marked.new.items ≡ with_handlers method.now.insns marked.old.items method.now.catches }
{
    for catch in method.catches {
        mark(marked, method.place_at(u32::from(catch.target)));
    }
}

/// Marks all places that are.
fn mark_all(alloc: Global, method: &Method<'_>, marked: &mut Vec<bool>) -> Result<(), NoMemory>
    requires { marked.old.items ≡ replicate (length method.now.insns) false }
    ensures { OnOk result (marked.new.items ≡ with_all method.now) }
{
    mark(marked, Some(0));
    mark_jumps(alloc, method, marked)?;
    mark_handlers(method, marked);
    Ok(())
}

/// The marked places, in ascending order.
pub(crate) fn marks_of(alloc: Global, method: &Method<'_>) -> Result<Row<u32>, NoMemory>
    ensures { IfOk result (λ marks. marks ≡ marks_by method.now) }
{
    let mut marked = vec![in alloc; false; method.insns.len()]?;
    mark_all(alloc, method, &mut marked)?;
    cjc_fixpoint::marks_of(alloc, &marked)
}
