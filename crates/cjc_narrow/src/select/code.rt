//! The instructions of a method, one after the other, and the places that they come from. Called by whoever selects
//! code.

ghost use Rattle.std.specs.Prelude.{◌≡◌, ◌+◌, ◌<◌, ◌≤◌, ◌^◌, ◌++◌, ℕ, length, replicate, slice_get, Some, true, OnOk};
ghost use Rattle.cjc_types.specs.Bytecode.declared.insn.JInsn.{JInsn as Insn};
ghost use Rattle.cjc_ncode.specs.Written.{accessed, on_this, written, written_as, written_open};
ghost use Rattle.cjc_narrow.specs.Written.Labels.{place_of};
ghost use Rattle.cjc_narrow.specs.Written.Operands.{CanBeSaid};
ghost use Rattle.cjc_narrow.specs.Select.Working.Code.{code_by, source_if, sources_by, written_if};
ghost use Rattle.cjc_narrow.specs.Select.Working.Names.{resolution_of};

use crate::select::names::{Names, put_call, put_field, put_static, put_this};
use crate::written::{Places, put_plain};
use cjc_ncode::{NInsn, PairRole};
use cjc_types::bytecode::{JInsn, JOp};
use cjc_types::bytes::{NoMemory, Row};
use std::alloc::Global;

/// Puts what is written for an instruction alone at the end.
fn put_alone(
    out: &mut Row<NInsn>,
    alloc: Global,
    names: &Names<'_, '_>,
    places: &Places<'_>,
    op: &JOp,
) -> Result<(), NoMemory>
    requires { CanBeSaid op.now }
    ensures { OnOk result (out.new ≡ out.old ++ written (resolution_of names.now) (place_of places.now) op.now) }
{
    match op {
        JOp::Static { put, field } => put_static(out, alloc, names, *put, field),
        JOp::Field { put, field } => put_field(out, alloc, names, *put, field),
        JOp::Call { op, method } => put_call(out, alloc, names, *op, method),
        _ => put_plain(out, alloc, places, op),
    }
}

/// The same where it opens a pair.
fn put_open(
    out: &mut Row<NInsn>,
    alloc: Global,
    names: &Names<'_, '_>,
    places: &Places<'_>,
    op: &JOp,
) -> Result<(), NoMemory>
    requires { CanBeSaid op.now }
    ensures { OnOk result (out.new ≡ out.old ++ written_open (resolution_of names.now) (place_of places.now) op.now) }
{
    match op {
        JOp::Load { .. } => Ok(()),
        _ => put_alone(out, alloc, names, places, op),
    }
}

/// The same where it closes one.
fn put_closed(
    out: &mut Row<NInsn>,
    alloc: Global,
    names: &Names<'_, '_>,
    places: &Places<'_>,
    op: &JOp,
) -> Result<(), NoMemory>
    requires { CanBeSaid op.now }
    ensures { OnOk result (out.new ≡ out.old ++ on_this (resolution_of names.now) (place_of places.now) op.now
        (accessed op.now)) }
{
    match op {
        JOp::Field { put, field } => put_this(out, alloc, names, *put, field),
        _ => put_alone(out, alloc, names, places, op),
    }
}

/// Puts what is written for an instruction of this role at the end.
fn put(
    out: &mut Row<NInsn>,
    alloc: Global,
    names: &Names<'_, '_>,
    places: &Places<'_>,
    role: PairRole,
    op: &JOp,
) -> Result<(), NoMemory>
    requires { CanBeSaid op.now }
    ensures { OnOk result (out.new ≡ out.old ++ written_as role (resolution_of names.now) (place_of places.now)
        op.now) }
{
    match role {
        PairRole::Alone => put_alone(out, alloc, names, places, op),
        PairRole::Opens => put_open(out, alloc, names, places, op),
        PairRole::Closes => put_closed(out, alloc, names, places, op),
    }
}

/// Puts a place at the end, so many times.
pub fn put_source(from: &mut Row<u32>, place: u32, times: usize) -> Result<(), NoMemory>
    ensures { OnOk result (from.new ≡ from.old ++ replicate times place) }
{
    for _ in 0..times {
        from.push(place)?;
    }
    Ok(())
}

/// Puts what is written for the instruction at a place at the end, and its place for each.
fn put_reached(
    out: &mut Row<NInsn>,
    from: &mut Row<u32>,
    alloc: Global,
    names: &Names<'_, '_>,
    places: &Places<'_>,
    place: u32,
    role: PairRole,
    op: &JOp,
) -> Result<(), NoMemory>
    requires { CanBeSaid op.now }
    ensures insns { OnOk result (out.new ≡ out.old ++ written_as role (resolution_of names.now) (place_of places.now)
        op.now) }
    ensures from { OnOk result (from.new ≡ from.old
        ++ replicate (length (written_as role (resolution_of names.now) (λ o. 0) op.now)) place) }
{
    let before = out.items().len();
    put(out, alloc, names, places, role, op)?;
    let times = out.items().len() - before;
    put_source(from, place, times)
}

/// The same where the instruction is reached.
fn put_at(
    out: &mut Row<NInsn>,
    from: &mut Row<u32>,
    alloc: Global,
    names: &Names<'_, '_>,
    places: &Places<'_>,
    is_reached: bool,
    place: u32,
    role: PairRole,
    op: &JOp,
) -> Result<(), NoMemory>
    requires { is_reached ≡ true → CanBeSaid op.now }
    ensures insns { OnOk result (out.new ≡ out.old ++ written_if is_reached role (resolution_of names.now)
        (place_of places.now) op.now) }
    ensures from { OnOk result (from.new ≡ from.old ++ source_if is_reached role (resolution_of names.now) place
        op.now) }
{
    if is_reached {
        put_reached(out, from, alloc, names, places, place, role, op)
    } else {
        Ok(())
    }
}

/// Puts what is written for the reached instructions of a method at the end, and of each the place that it comes from.
#[tactic(auto, using(crate::proofs::SelectLaws::Walks::code_next, crate::proofs::SelectLaws::Walks::code_end, crate::proofs::SelectLaws::Walks::sources_next, crate::proofs::SelectLaws::Walks::sources_end))]
pub(crate) fn put_all(
    out: &mut Row<NInsn>,
    from: &mut Row<u32>,
    alloc: Global,
    names: &Names<'_, '_>,
    places: &Places<'_>,
    insns: &[JInsn],
    reaches: &[bool],
    roles: &[PairRole],
) -> Result<(), NoMemory>
    requires few { length insns.now < 2 ^ 32 }
    requires each { length reaches.now ≡ length insns.now }
    requires roles { length roles.now ≡ length insns.now }
    requires said { (k : ℕ) (i : Insn) → slice_get insns.now k ≡ Some i → slice_get reaches.now k ≡ Some true
        → CanBeSaid i.op }
    ensures insns { OnOk result (out.new ≡ out.old ++ code_by (resolution_of names.now) (place_of places.now) insns.now
        reaches.now roles.now) }
    ensures from { OnOk result (from.new ≡ from.old ++ sources_by (resolution_of names.now) 0 insns.now reaches.now
        roles.now) }
{
    for k in 0..insns.len() {
        put_at(
            out,
            from,
            alloc,
            names,
            places,
            reaches[k],
            k as u32,
            roles[k],
            &insns[k].op,
        )?;
    }
    Ok(())
}
