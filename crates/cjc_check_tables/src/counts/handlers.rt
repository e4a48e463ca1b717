//! Exception handlers (Java Card Virtual Machine Specification 2.2.2, section 6.9.1). It knows Method alone.

ghost use Rattle.std.specs.Prelude.{◌≡◌, ◌+◌, ◌*◌, ◌<◌, ◌^◌, length, not};
ghost use Rattle.std.specs.List.{list_any};
ghost use Rattle.cjc_check_rules.specs.Complete.{method_size};
ghost use Rattle.cjc_check_rules.specs.Handlers.{meet, stop_spots, stops_from};
ghost use Rattle.cjc_check_rules.specs.Spots.{first, in_info, unless};
ghost use Rattle.cjc_check_rules.specs.ExportFile.Members.{same_bool};

use cjc_capread::{Handler, Method};
use cjc_check_index::lookup::{earlier, same_bool, unless};
use cjc_check_rules::ComponentPlace;

/// The tag of Method.
const METHOD: u8 = 7;

/// The end of a handler's range.
fn end(handler: Handler) -> u128
    ensures { result ≡ handler.start + handler.length }
{
    u128::from(handler.start) + u128::from(handler.length)
}

/// Whether the ranges of two handlers have a byte in common.
fn meet(one: Handler, other: Handler) -> bool
    ensures { result ≡ meet one other }
{
    let start = one.start.max(other.start);
    let end = end(one).min(end(other));
    u128::from(start) < end
}

/// Whether the range of a handler meets that of a later one. A component has at most 255 handlers.
fn meets_any(one: Handler, later: &[Handler]) -> bool
    ensures { result ≡ list_any (meet one) later.now }
{
    for other in later {
        if meet(one, *other) {
            return true;
        }
    }
    false
}

/// The place of a handler's stop bit where that is wrong, the handler beginning at an offset.
fn stop_at(at: u32, one: &Handler, later: &[Handler]) -> Option<ComponentPlace>
    requires { 5 + at < 2 ^ 32 }
    ensures { result ≡ first (unless (same_bool one.now.stop (not (list_any (meet one.now) later.now)))
        (in_info 7 (at + 2))) }
{
    let is_last = !meets_any(*one, later);
    unless(same_bool(one.stop, is_last), METHOD, at + 2)
}

/// The first stop bit that is wrong, where the first handler begins at an offset. A component has at most 255 handlers.
fn stops(at: u32, handlers: &[Handler]) -> Option<ComponentPlace>
    requires { 3 + at + 8 * length handlers.now < 2 ^ 32 }
    ensures { result ≡ first (stops_from at handlers.now) }
{
    match handlers {
        [] => None,
        [one, later @ ..] => earlier(stop_at(at, one, later), stops(at + 8, later)),
    }
}

/// Where 713 is broken first: a stop bit is 1 exactly where the range of no later handler meets this one's. A
/// component with its tag and size has fewer than 2^32 bytes.
pub fn stop_spot(method: &Method) -> Option<ComponentPlace>
    requires { 3 + method_size method.now < 2 ^ 32 }
    ensures { result ≡ first (stop_spots method.now) }
{
    stops(1, method.handlers.items())
}
