//! The instructions of a method in int mode, one after the other, and the places that they come from. Called by whoever
//! selects code.

ghost use Rattle.std.specs.Prelude.{◌≡◌, ◌+◌, ◌*◌, ◌<◌, ◌≤◌, ◌^◌, ◌++◌, length, replicate, Some, IfOk};
ghost use Rattle.std.specs.Prelude.{OnOk};
ghost use Rattle.cjc_ncode.specs.IntCode.IntCode.{nargs, place_in, prologue, sources, written, written_from};
ghost use Rattle.cjc_narrow.specs.Select.Working.Names.{resolution_of};
ghost use Rattle.cjc_narrow.specs.Written.Labels.{place_of};
ghost use Rattle.cjc_narrow.specs.Written.Operands.{IsAscending};
ghost use Rattle.cjc_int_narrow.specs.declared.known.Before.{Before as Told};
ghost use Rattle.cjc_int_narrow.specs.Operands.{AllCanBeSaid, CanBeSaid};
ghost use Rattle.cjc_int_narrow.specs.Reached.{known, places_by, reached_by};
ghost use Rattle.cjc_int_narrow.specs.Working.Walks.{count, source_if, starts, written_if};

use crate::frame::Frame;
use crate::known::Before;
use crate::put::put;
use cjc_narrow::select::{Names, put_source};
use cjc_narrow::written::Places;
use cjc_ncode::NInsn;
use cjc_ncode::bytecode::{JInsn, JOp};
use cjc_ncode::bytes::{NoMemory, Row};
use std::alloc::Global;

/// What is written for a method.
#[derive(Drop)]
pub(crate) struct WrittenCode {
    pub insns: Row<NInsn>,
    /// Of each the place of its instruction in the method's list.
    pub from: Row<u32>,
    /// How many are written before each instruction of that list, and at the end of all.
    pub starts: Row<u32>,
}

/// Puts what is written for the instruction at a place at the end, and its place for each.
fn put_reached(
    out: &mut Row<NInsn>,
    from: &mut Row<u32>,
    alloc: Global,
    names: &Names<'_, '_>,
    places: &Places<'_>,
    frame: &Frame<'_>,
    place: u32,
    before: &Before,
    op: &JOp,
) -> Result<(), NoMemory>
    requires { CanBeSaid frame.now op.now }
    ensures insns { OnOk result (out.new ≡ out.old ++ written frame.now (resolution_of names.now)
        (place_of places.now) (known before.now) (length out.old) op.now) }
    ensures from { OnOk result (from.new ≡ from.old ++ replicate (count frame.now (resolution_of names.now) before.now
        op.now) place) }
{
    let first = out.items().len();
    put(out, alloc, names, places, frame, before, op)?;
    let times = out.items().len() - first;
    put_source(from, place, times)
}

/// The same where the instruction is reached.
fn put_at(
    out: &mut Row<NInsn>,
    from: &mut Row<u32>,
    alloc: Global,
    names: &Names<'_, '_>,
    places: &Places<'_>,
    frame: &Frame<'_>,
    place: u32,
    before: &Option<Before>,
    op: &JOp,
) -> Result<(), NoMemory>
    requires { (b : Told) → before.now ≡ Some b → CanBeSaid frame.now op.now }
    ensures insns { OnOk result (out.new ≡ out.old ++ written_if before.now frame.now (resolution_of names.now)
        (place_of places.now) (length out.old) op.now) }
    ensures from { OnOk result (from.new ≡ from.old ++ source_if before.now frame.now (resolution_of names.now) place
        op.now) }
{
    match before {
        Some(before) => put_reached(out, from, alloc, names, places, frame, place, before, op),
        None => Ok(()),
    }
}

/// How many there are, where 32 bits count them.
fn count_of(insns: &[NInsn]) -> Result<u32, NoMemory>
    ensures { IfOk result (λ n. n ≡ length insns.now) }
{
    if insns.len() > 0xFFFF_FFFF {
        Err(NoMemory)
    } else {
        Ok(insns.len() as u32)
    }
}

/// Puts what is written for the reached instructions of a method at the end, of each the place that it comes from, and
/// how many are written before each.
fn put_all(
    out: &mut Row<NInsn>,
    from: &mut Row<u32>,
    counts: &mut Row<u32>,
    alloc: Global,
    names: &Names<'_, '_>,
    places: &Places<'_>,
    frame: &Frame<'_>,
    insns: &[JInsn],
    befores: &[Option<Before>],
) -> Result<(), NoMemory>
    requires few { length insns.now < 2 ^ 32 }
    requires each { length befores.now ≡ length insns.now }
    requires said { AllCanBeSaid frame.now insns.now befores.now }
    ensures insns { OnOk result (out.new ≡ out.old ++ written_from frame.now (resolution_of names.now)
        (place_of places.now) (length out.old) (reached_by insns.now befores.now)) }
    ensures from { OnOk result (from.new ≡ from.old ++ sources frame.now (resolution_of names.now)
        (reached_by insns.now befores.now) (places_by 0 insns.now befores.now)) }
    ensures starts { OnOk result (counts.new ≡ counts.old ++ starts frame.now (resolution_of names.now)
        (length out.old) insns.now befores.now) }
{
    for k in 0..insns.len() {
        counts.push(count_of(out.items())?)?;
        put_at(
            out,
            from,
            alloc,
            names,
            places,
            frame,
            k as u32,
            &befores[k],
            &insns[k].op,
        )?;
    }
    counts.push(count_of(out.items())?)
}

/// What is written for a method whose labels are these places, the prologue among it.
pub(crate) fn written(
    alloc: Global,
    names: &Names<'_, '_>,
    places: &Places<'_>,
    frame: &Frame<'_>,
    insns: &[JInsn],
    befores: &[Option<Before>],
) -> Result<WrittenCode, NoMemory>
    requires few { length insns.now < 2 ^ 32 }
    requires each { length befores.now ≡ length insns.now }
    requires said { AllCanBeSaid frame.now insns.now befores.now }
    requires arguments { let f = frame.now in nargs f + 2 * length f.params ≤ 255 }
    ensures insns { IfOk result (λ c. c.insns ≡ prologue frame.now ++ written_from frame.now (resolution_of names.now)
        (place_of places.now) (length (prologue frame.now)) (reached_by insns.now befores.now)) }
    ensures from { IfOk result (λ c. c.from ≡ replicate (length (prologue frame.now)) 0 ++ sources frame.now
        (resolution_of names.now) (reached_by insns.now befores.now) (places_by 0 insns.now befores.now)) }
    ensures starts { IfOk result (λ c. c.starts ≡ starts frame.now (resolution_of names.now)
        (length (prologue frame.now)) insns.now befores.now) }
{
    let mut out = Row::new(alloc);
    let mut from = Row::new(alloc);
    let mut starts = Row::new(alloc);
    frame.put_prologue(&mut out)?;
    put_source(&mut from, 0, out.items().len())?;
    put_all(
        &mut out,
        &mut from,
        &mut starts,
        alloc,
        names,
        places,
        frame,
        insns,
        befores,
    )?;
    Ok(WrittenCode {
        insns: out,
        from,
        starts,
    })
}

/// Places that are all the first.
fn nowhere(alloc: Global, insns: &[JInsn]) -> Result<Places<'_>, NoMemory>
    requires few { length insns.now < 2 ^ 32 }
    requires ascending { IsAscending insns.now }
{
    let mut starts = Row::new(alloc);
    put_source(&mut starts, 0, insns.len() + 1)?;
    Ok(Places::of(insns, starts))
}

/// The places of what is written for a method. It is written once for how much that is, since no label changes it.
pub(crate) fn places_of<'a>(
    alloc: Global,
    names: &Names<'_, '_>,
    frame: &Frame<'_>,
    insns: &'a [JInsn],
    befores: &[Option<Before>],
) -> Result<Places<'a>, NoMemory>
    requires few { length insns.now < 2 ^ 32 }
    requires each { length befores.now ≡ length insns.now }
    requires ascending { IsAscending insns.now }
    requires said { AllCanBeSaid frame.now insns.now befores.now }
    requires arguments { let f = frame.now in nargs f + 2 * length f.params ≤ 255 }
    ensures { IfOk result (λ places. place_of places ≡ place_in frame.now (resolution_of names.now)
        (reached_by insns.now befores.now)) }
{
    let anywhere = nowhere(alloc, insns)?;
    let code = written(alloc, names, &anywhere, frame, insns, befores)?;
    let WrittenCode {
        insns: _insns,
        from: _from,
        starts,
    } = code;
    Ok(Places::of(insns, starts))
}
