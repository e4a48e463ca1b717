//! The layout of one method, or which of its rules it breaks. Called by `layouts`. It knows no place in the
//! order of refusals.

ghost use Rattle.std.specs.Prelude.{◌≡◌, IfOk};
ghost use Rattle.cjc_pool.specs.NCode.declared.narrow.NMethod.{NMethod as Narrow};
ghost use Rattle.cjc_pool.specs.Layout.Layouts.{IsWhole};
ghost use Rattle.cjc_components.specs.Written.{is_abstract_at};
ghost use Rattle.cjc_methods.specs.Layouts.Working.Tries.{IsTry, overtaken, refused};

use cjc_bytes::{Bytes, Fault, MemberId, NoMemory, Refusal};
use cjc_components::layout::{Layout, lay};
use cjc_narrow::ncode::NMethod;
use cjc_world::{Found, World};
use std::alloc::Global;

/// What laying out a method gives.
#[derive(Drop)]
pub(crate) enum Try {
    Done(Layout),
    /// A handler stands in another order than its offset. This is the offset of the first.
    Overtaken(u32),
    TooLong,
}

/// Which rule a layout was refused for.
fn refused(refusal: &Refusal) -> Try
    ensures { result ≡ refused refusal.now }
{
    if refusal.rule.0 == 311 {
        Try::Overtaken(refusal.place.offset)
    } else {
        Try::TooLong
    }
}

/// The layout of a method, or which of its rules it breaks.
pub(crate) fn try_layout(alloc: Global, code: &NMethod) -> Result<Try, NoMemory>
    requires { IsWhole code.now }
    ensures { IfOk result (IsTry code.now) }
{
    let id = MemberId {
        class: Bytes::new(alloc),
        name: Bytes::new(alloc),
        desc: Bytes::new(alloc),
    };
    match lay(alloc, &[], &id, code) {
        Ok(layout) => Ok(Try::Done(layout)),
        Err(Fault::NoMemory) => Err(NoMemory),
        Err(Fault::Refused(refusal)) => Ok(refused(&refusal)),
    }
}

/// The offset of the first handler that stands in another order than its offset.
pub(crate) fn overtaken(tried: &Try) -> Option<u32>
    ensures { (m : Narrow) → IsTry m tried.now → result ≡ overtaken m }
{
    match tried {
        Try::Done(_) => None,
        Try::Overtaken(offset) => Some(*offset),
        Try::TooLong => None,
    }
}

/// Whether a member of a class is a header alone: one without code, or one that is added to its class.
pub(crate) fn is_abstract(world: &World<'_>, member: Found) -> bool
    ensures { result ≡ is_abstract_at world.now member }
{
    if member.imported {
        return true;
    }
    let Some(class) = world.classes().items().get(member.class as usize) else {
        return true;
    };
    let place = (member.member as usize).saturating_sub(class.fields.items().len());
    match class.methods.items().get(place) {
        None => true,
        Some(method) => method.code.is_none(),
    }
}
