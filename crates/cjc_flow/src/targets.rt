//! Whether a jump, a switch or a handler leads to a place. Called by ranging.rt.

ghost use Rattle.std.specs.Prelude.{◌≡◌, IfOk};
ghost use Rattle.cjc_types.specs.Marks.{is_handler, is_jumped_to, is_place, leads_to};
ghost use Rattle.cjc_intervals.specs.Flow.{is_target};

use cjc_fixpoint::bytes::NoMemory;
use cjc_types::{Method, insns};
use std::alloc::Global;

fn is_place(place: Option<u32>, at: u32) -> bool
    ensures { result ≡ is_place place at }
{
    match place {
        Some(place) => place == at,
        None => false,
    }
}

/// Whether one of the offsets is that of the place.
fn leads_to(method: &Method<'_>, offsets: &[u32], at: u32) -> bool
    ensures { result ≡ leads_to method.now.insns offsets.now at }
{
    for offset in offsets {
        if is_place(method.place_at(*offset), at) {
            return true;
        }
    }
    false
}

/// Whether some jump or switch leads to the place.
fn is_jumped_to(alloc: Global, method: &Method<'_>, at: u32) -> Result<bool, NoMemory>
    ensures { IfOk result (λ is. is ≡ is_jumped_to method.now at) }
{
    for insn in method.insns() {
        let offsets = insns::targets(alloc, &insn.op)?;
        if leads_to(method, offsets.items(), at) {
            return Ok(true);
        }
    }
    Ok(false)
}

/// Whether some handler begins at the place.
fn is_handler(method: &Method<'_>, at: u32) -> bool
    ensures { result ≡ is_handler method.now at }
{
    for catch in method.catches() {
        if is_place(method.place_at(u32::from(catch.target)), at) {
            return true;
        }
    }
    false
}

/// Whether a jump, a switch or a handler leads to the place.
pub(crate) fn is_target(alloc: Global, method: &Method<'_>, at: u32) -> Result<bool, NoMemory>
    ensures { IfOk result (λ is. is ≡ is_target method.now at) }
{
    Ok(is_jumped_to(alloc, method, at)? || is_handler(method, at))
}
