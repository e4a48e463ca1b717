//! Where indices into the constant pool stand in Method (Java Card Virtual Machine Specification 2.2.2, section
//! 6.11).

ghost use Rattle.std.specs.Prelude.{◌≡◌, ◌+◌, ◌++◌, map, IfOk, OnOk};
ghost use Rattle.cjc_pool.specs.CheckRules.Locations.{catch_places};
ghost use Rattle.cjc_check.specs.Jumps.Listing.{catch_place};

use cjc_bytes::{NoMemory, Row};
use cjc_check::capread::Handler;

/// Puts places of a method that stands at an offset at the end.
pub(crate) fn put_places(out: &mut Row<u64>, at: u32, places: &[u32]) -> Result<(), NoMemory>
    ensures { OnOk result (out.new ≡ out.old ++ map (λ x. at + x) places.now) }
{
    for place in places {
        out.push(u64::from(at) + u64::from(*place))?;
    }
    Ok(())
}

/// Puts the place of a catch index that is not 0 at the end, where the handler begins at an offset.
fn put_catch(out: &mut Row<u64>, at: u32, handler: Handler) -> Result<(), NoMemory>
    ensures { OnOk result (out.new ≡ out.old ++ catch_place at handler) }
{
    if handler.catch_index == 0 {
        Ok(())
    } else {
        out.push(u64::from(at) + 6)
    }
}

/// The offset behind a handler.
fn behind(at: u32) -> Result<u32, NoMemory>
    ensures { IfOk result (λ n. n ≡ at + 8) }
{
    if at > 0xFFFF_FFF0 {
        return Err(NoMemory);
    }
    Ok(at + 8)
}

/// Puts the places of catch indices that are not 0 at the end, where the first handler begins at an offset.
pub(crate) fn put_catches(
    out: &mut Row<u64>,
    from: u32,
    handlers: &[Handler],
) -> Result<(), NoMemory>
    ensures { OnOk result (out.new ≡ out.old ++ catch_places from handlers.now) }
{
    let mut at = from;
    for handler in handlers {
        put_catch(out, at, *handler)?;
        at = behind(at)?;
    }
    Ok(())
}
