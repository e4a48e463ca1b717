//! Exception handlers stand on instructions of one method, in the order of their targets (Java Card Virtual Machine
//! Specification 2.2.2, section 6.9.1). It knows the code of methods and the constant pool.

ghost use Rattle.std.specs.Prelude.{◌≡◌, ◌+◌, ◌*◌, ◌<◌, ◌^◌, ◌++◌, ◌==◌, ◌||◌, IfSome, length, map, nat_le, option_map};
ghost use Rattle.std.specs.Prelude.{slice_get, Some};
ghost use Rattle.std.specs.List.{find, prefix_len};
ghost use Rattle.std.specs.Option.{option_copied};
ghost use Rattle.cjc_check.specs.Codes.Bodies.{AreBodies, IsBody, code_of};
ghost use Rattle.cjc_check.specs.Jumps.Standing.{AreApart, handler_stands, range_ends};
ghost use Rattle.cjc_check_rules.specs.Handlers.{in_code, is_classref, targets_from};
ghost use Rattle.cjc_check_rules.specs.Instructions.{has_start};
ghost use Rattle.cjc_check_rules.specs.Spots.{along, first};

use crate::codes::Body;
use cjc_capread::{Handler, PoolEntry};
use cjc_check_rules::ComponentPlace;
use cjc_check_tables::check_index::lookup::{Test, earlier, first_along, is_among, unless};

/// The tag of Method.
const METHOD: u8 = 7;

/// What handlers stand on.
#[derive(Drop)]
struct Standing<'a, 'b> {
    bodies: &'a [Body<'b>],
    entries: &'a [PoolEntry],
}

/// Whether an instruction of a method begins at an offset.
fn has_start(body: &Body<'_>, offset: u64) -> bool
    requires { IsBody body.now }
    ensures { result ≡ has_start (code_of body.now) offset }
{
    is_among(body.starts.items(), offset)
}

/// How many methods end at an offset or before it. They stand one behind the other.
fn place_behind(bodies: &[Body<'_>], offset: u64) -> usize
    requires { AreApart 0 (map code_of bodies.now) }
    ensures { result ≡ prefix_len (λ b. nat_le b.end offset) bodies.now }
{
    bodies.partition_point(|body| u64::from(body.end) <= offset)
}

/// The method of which an instruction begins at an offset.
fn body_with<'a, 'b>(bodies: &'a [Body<'b>], offset: u64) -> Option<&'a Body<'b>>
    requires ready { AreBodies bodies.now }
    requires apart { AreApart 0 (map code_of bodies.now) }
    ensures is { option_map code_of (option_copied result) ≡ find (λ code. has_start code offset)
        (map code_of bodies.now) }
    ensures kept { IfSome result (λ b. IsBody b.now) }
{
    let place = place_behind(bodies, offset);
    if place >= bodies.len() {
        return None;
    }
    let body = &bodies[place];
    if has_start(body, offset) {
        Some(body)
    } else {
        None
    }
}

/// Whether the range of a handler ends at an instruction of a method or at its end.
fn range_ends(body: &Body<'_>, handler: Handler) -> bool
    requires { IsBody body.now }
    ensures { result ≡ range_ends (code_of body.now) handler }
{
    match handler.start.checked_add(handler.length) {
        Some(end) => has_start(body, end) || end == u64::from(body.end),
        None => false,
    }
}

/// The length or the target of a handler that is wrong, the handler beginning at an offset and its range in a method.
#[tactic(auto, using(cjc_check_rules::proofs::Firsts::first_append))]
fn in_body(at: u32, handler: Handler, body: &Body<'_>) -> Option<ComponentPlace>
    requires ready { IsBody body.now }
    requires small { 11 + at < 2 ^ 32 }
    ensures { result ≡ first (in_code at handler (Some (code_of body.now))) }
{
    let length = unless(range_ends(body, handler), METHOD, at + 2);
    earlier(
        length,
        unless(has_start(body, handler.handler), METHOD, at + 4),
    )
}

/// The start, the length or the target of a handler that is wrong, the handler beginning at an offset.
fn in_code(at: u32, handler: Handler, bodies: &[Body<'_>]) -> Option<ComponentPlace>
    requires ready { AreBodies bodies.now }
    requires apart { AreApart 0 (map code_of bodies.now) }
    requires small { 11 + at < 2 ^ 32 }
    ensures { result ≡ first (in_code at handler (find (λ code. has_start code handler.start)
        (map code_of bodies.now))) }
{
    match body_with(bodies, handler.start) {
        Some(body) => in_body(at, handler, body),
        None => Some(ComponentPlace {
            component: METHOD,
            offset: 3 + at,
        }),
    }
}

/// Whether a catch index is 0 or that of a Classref.
fn is_caught(entries: &[PoolEntry], index: u64) -> bool
    ensures { result ≡ (index == 0 || is_classref (slice_get entries.now index)) }
{
    match entries.get(index as usize) {
        Some(PoolEntry::Classref(_)) => true,
        _ => index == 0,
    }
}

impl Test<Handler> for Standing<'_, '_> {
    ghost broken = { λ s. handler_stands (map code_of s.bodies.now) s.entries.now };

    ghost fits = { λ s. AreBodies s.bodies.now × AreApart 0 (map code_of s.bodies.now) };

    #[tactic(auto, using(cjc_check_rules::proofs::Firsts::first_append))]
    fn first_in(&self, at: u32, item: &Handler) -> Option<ComponentPlace> {
        let found = in_code(at, *item, self.bodies);
        let is_caught = is_caught(self.entries, item.catch_index);
        earlier(found, unless(is_caught, METHOD, at + 6))
    }
}

/// The first target that is lower than that of the handler before, the first of which begins at an offset. A
/// component has at most 255 handlers.
fn targets_from(before: u64, from: u32, handlers: &[Handler]) -> Option<ComponentPlace>
    requires { 3 + from + 8 * length handlers.now < 2 ^ 32 }
    ensures { result ≡ first (targets_from before from handlers.now) }
{
    let mut least = None;
    let mut last = before;
    let mut at = from;
    for handler in handlers {
        least = earlier(least, unless(last <= handler.handler, METHOD, at + 4));
        last = handler.handler;
        at += 8;
    }
    least
}

/// Where 712 is broken first: a start that is no instruction's, a length where the end is none, a target, or a catch
/// index. The method of a handler is sought in the order in which methods stand.
#[tactic(auto, using(cjc_check_rules::proofs::Firsts::first_append, cjc_check_rules::proofs::Arrays::eight_each))]
pub fn handler_spot(
    handlers: &[Handler],
    bodies: &[Body<'_>],
    entries: &[PoolEntry],
) -> Option<ComponentPlace>
    requires ready { AreBodies bodies.now }
    requires apart { AreApart 0 (map code_of bodies.now) }
    requires small { 4 + 8 * length handlers.now < 2 ^ 32 }
    ensures { result ≡ first (targets_from 0 1 handlers.now
        ++ along (λ h. 8) (handler_stands (map code_of bodies.now) entries.now) 1 handlers.now) }
{
    let targets = targets_from(0, 1, handlers);
    let standing = Standing { bodies, entries };
    earlier(targets, first_along(&standing, 1, handlers))
}
