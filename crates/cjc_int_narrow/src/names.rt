//! What is written for instructions that name a field or a method, by the look-ups of the world: their values of one
//! word are cut before and widened behind. Knows no label.

ghost use Rattle.std.specs.Prelude.{◌≡◌, ◌<◌, ◌++◌, ◌∷◌, [], if◌then◌else◌, true, OnOk};
ghost use Rattle.cjc_int_mode.specs.Bytecode.Jvm as jvm;
ghost use Rattle.cjc_ncode.specs.declared.narrow.NInsn.TheVariants.{Named};
ghost use Rattle.cjc_ncode.specs.declared.narrow.PoolKey.TheVariants as keys;
ghost use Rattle.cjc_int_mode.specs.Script.Sorts.{field_sort, signature_by, signature_of};
ghost use Rattle.cjc_ncode.specs.Written.{nargs_of, static_access};
ghost use Rattle.cjc_ncode.specs.IntCode.IntCode.{called_with, field_get, field_put, scratch, scratch_pairs_by};
ghost use Rattle.cjc_ncode.specs.IntCode.IntCode.{static_get, static_put};
ghost use Rattle.cjc_narrow.specs.Select.Working.Names.{resolution_of};
ghost use Rattle.cjc_narrow.specs.Written.Operands.{IsByte};

use crate::calls::put_handed;
use crate::frame::Frame;
use crate::kinds::{is_short_field, put_narrowed, put_widened};
use crate::numbers::pushed;
use cjc_int_mode::descriptors::{is_short, parsed};
use cjc_narrow::rows::{constant_named, resolved_field};
use cjc_narrow::select::{self, Names};
use cjc_narrow::written::static_access;
use cjc_ncode::bytes::{Desc, MemberId, NoMemory, Row};
use cjc_ncode::{NInsn, PoolKey};
use std::alloc::Global;

/// getstatic or putstatic.
#[tactic(auto, unfolding(cjc_narrow::specs::Rows::Resolved::resolution))]
fn put_access(
    out: &mut Row<NInsn>,
    alloc: Global,
    names: &Names<'_, '_>,
    put: bool,
    field: &MemberId,
) -> Result<(), NoMemory>
    ensures { let r = resolution_of names.now in OnOk result (out.new ≡ out.old
        ++ Named (static_access put (field_sort field.now.desc)) (keys.StaticField (r.field field.now)) ∷ []) }
{
    let op = static_access(put, field.desc.items())?;
    let key = PoolKey::StaticField(resolved_field(alloc, names.world, field)?);
    out.push(NInsn::Named { op, key })
}

/// getstatic; a constant is pushed.
#[tactic(auto, unfolding(cjc_narrow::specs::Rows::Resolved::resolution))]
fn put_get(
    out: &mut Row<NInsn>,
    alloc: Global,
    names: &Names<'_, '_>,
    field: &MemberId,
) -> Result<(), NoMemory>
    ensures { let r = resolution_of names.now in OnOk result (out.new ≡ out.old
        ++ static_get r field.now (r.constant field.now)) }
{
    match constant_named(names.world, field) {
        Some(z) => out.push(pushed(z)),
        None => {
            put_access(out, alloc, names, false, field)?;
            put_widened(out, is_short_field(field.desc.items())?)
        }
    }
}

/// getstatic or putstatic; a constant is pushed.
pub(crate) fn put_static(
    out: &mut Row<NInsn>,
    alloc: Global,
    names: &Names<'_, '_>,
    put: bool,
    field: &MemberId,
) -> Result<(), NoMemory>
    ensures { let r = resolution_of names.now in OnOk result (out.new ≡ out.old
        ++ (if put then static_put r field.now else static_get r field.now (r.constant field.now))) }
{
    if put {
        put_narrowed(out, is_short_field(field.desc.items())?)?;
        put_access(out, alloc, names, true, field)
    } else {
        put_get(out, alloc, names, field)
    }
}

/// getfield or putfield.
pub(crate) fn put_field(
    out: &mut Row<NInsn>,
    alloc: Global,
    names: &Names<'_, '_>,
    put: bool,
    field: &MemberId,
) -> Result<(), NoMemory>
    ensures { let r = resolution_of names.now in OnOk result (out.new ≡ out.old
        ++ (if put then field_put r field.now else field_get r field.now)) }
{
    let is_short = is_short_field(field.desc.items())?;
    if put {
        put_narrowed(out, is_short)?;
        select::put_field(out, alloc, names, true, field)
    } else {
        select::put_field(out, alloc, names, false, field)?;
        put_widened(out, is_short)
    }
}

/// A call of a method with a descriptor of these parts.
fn put_sent(
    out: &mut Row<NInsn>,
    alloc: Global,
    names: &Names<'_, '_>,
    frame: &Frame<'_>,
    op: u8,
    method: &MemberId,
    parts: &Desc<'_>,
) -> Result<(), NoMemory>
    requires is_method { parts.now.is_method ≡ true }
    requires interface { op ≡ jvm.invokeinterface → IsByte (nargs_of method.now) }
    requires pairs { scratch frame.now (scratch_pairs_by (signature_by parts.now)) < 256 }
    ensures { OnOk result (out.new ≡ out.old ++ called_with frame.now (resolution_of names.now) op method.now
        (signature_by parts.now)) }
{
    put_handed(out, parts, frame.scratch())?;
    select::put_call(out, alloc, names, op, method)?;
    put_widened(out, is_short(parts.result_type().0))
}

/// A call.
pub(crate) fn put_call(
    out: &mut Row<NInsn>,
    alloc: Global,
    names: &Names<'_, '_>,
    frame: &Frame<'_>,
    op: u8,
    method: &MemberId,
) -> Result<(), NoMemory>
    requires interface { op ≡ jvm.invokeinterface → IsByte (nargs_of method.now) }
    requires pairs { scratch frame.now (scratch_pairs_by (signature_of method.now.desc)) < 256 }
    ensures { OnOk result (out.new ≡ out.old ++ called_with frame.now (resolution_of names.now) op method.now
        (signature_of method.now.desc)) }
{
    match parsed(method.desc.items())? {
        Some(parts) => {
            if parts.is_method() {
                put_sent(out, alloc, names, frame, op, method, &parts)
            } else {
                select::put_call(out, alloc, names, op, method)
            }
        }
        None => select::put_call(out, alloc, names, op, method),
    }
}
