//! Distances of places, as ReferenceLocation lists them (Java Card Virtual Machine Specification 2.2.2, section
//! 6.11). They know no method.

ghost use Rattle.std.specs.Prelude.{◌≡◌, ◌-◌, ◌++◌, IfOk, OnOk};
ghost use Rattle.cjc_pool.specs.CheckRules.Locations.{distance, distances};

use cjc_bytes::{Bytes, NoMemory, Row};
use std::alloc::Global;

/// Puts a distance at the end.
fn put_distance(bytes: &mut Bytes, by: u64) -> Result<(), NoMemory>
    ensures { OnOk result (bytes.new ≡ bytes.old ++ distance by) }
{
    let mut left = by;
    while left >= 255 {
        bytes.push(255)?;
        left -= 255;
    }
    bytes.push(left as u8)
}

/// How far a place is from one before it.
fn gap(before: u64, at: u64) -> u64
    ensures { result ≡ at - before }
{
    at.saturating_sub(before)
}

/// The distances of places, each from the one before and the first from the start.
pub(crate) fn distances(alloc: Global, places: &[u64]) -> Result<Bytes, NoMemory>
    ensures { IfOk result (λ b. b ≡ distances 0 places.now) }
{
    let mut bytes = Row::new(alloc);
    let mut before = 0;
    for at in places {
        put_distance(&mut bytes, gap(before, *at))?;
        before = *at;
    }
    Ok(bytes)
}
