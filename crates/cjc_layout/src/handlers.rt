//! A method's handlers: whether their order can be kept, and how they stand in the handler table. Called by
//! the layout. A package has at most 255 handlers, so each is compared with each.

ghost use Rattle.std.specs.Prelude.{◌≡◌, [], ◌≤◌, length, map, IfOk};
ghost use Rattle.cjc_ncode.specs.Lowering.Handlers.{meets, meets_any};
ghost use Rattle.cjc_layout.specs.Handlers.{has_range, inserted, table_order, handler_of, handlers_of};
ghost use Rattle.cjc_layout.specs.Refusals.{shares, overtakes, overtakes_any, overtaking, lesser, least};
ghost use Rattle.cjc_layout.specs.Working.{place_for, offset_at};

use crate::layout::Handler;
use cjc_ncode::NCatch;
use cjc_ncode::bytes::{Bytes, NoMemory, Row};
use std::alloc::{AllocError, Global};

fn has_range(c: &NCatch) -> bool
    ensures { result ≡ has_range c.now }
{
    c.start < c.end
}

/// Whether two ranges have a place in common.
fn meets(c: &NCatch, d: &NCatch) -> bool
    ensures { result ≡ meets c.now d.now }
{
    c.start < d.end && d.start < c.end
}

/// Whether a later handler stands before an earlier one in the table, with an instruction under both.
fn overtakes(later: &NCatch, earlier: &NCatch) -> bool
    ensures { result ≡ overtakes later.now earlier.now }
{
    meets(earlier, later) && has_range(earlier) && has_range(later) && later.target < earlier.target
}

fn overtakes_any(c: &NCatch, earlier: &[NCatch]) -> bool
    ensures { result ≡ overtakes_any c.now earlier.now }
{
    for k in 0..earlier.len() {
        if overtakes(c, &earlier[k]) {
            return true;
        }
    }
    false
}

fn lesser(offset: u32, other: Option<u32>) -> u32
    ensures { result ≡ lesser offset other }
{
    match other {
        None => offset,
        Some(other) => { if offset <= other { offset } else { other } }
    }
}

/// The least offset in the class file of a handler that stands there in another order than in the table.
pub(crate) fn first_overtaking(catches: &[NCatch]) -> Option<u32>
    ensures { result ≡ least (overtaking [] catches.now) }
{
    let mut first = None;
    let mut k = catches.len();
    while k > 0 {
        k -= 1;
        if overtakes_any(&catches[k], &catches[..k]) {
            first = Some(lesser(catches[k].at, first));
        }
    }
    first
}

/// The place of the first of these whose target is not lower.
fn place_for(target: u32, order: &[&NCatch]) -> usize
    ensures { result ≡ place_for target (map (λ c. c.now) order.now) }
{
    for k in 0..order.len() {
        if target <= order[k].target {
            return k;
        }
    }
    order.len()
}

/// The handlers that are written, in the order of the table.
fn table_order<'m>(alloc: Global, catches: &'m [NCatch]) -> Result<Vec<&'m NCatch>, AllocError>
    ensures { IfOk result (λ order. map (λ c. c.now) order.items ≡ table_order catches.now) }
{
    let mut order = Vec::new(alloc);
    let mut k = catches.len();
    while k > 0 {
        k -= 1;
        let c = &catches[k];
        if has_range(c) {
            let place = place_for(c.target, &order);
            order.insert(place, c)?;
        }
    }
    Ok(order)
}

fn meets_any(c: &NCatch, later: &[&NCatch]) -> bool
    ensures { result ≡ meets_any c.now (map (λ d. d.now) later.now) }
{
    for k in 0..later.len() {
        if meets(c, later[k]) {
            return true;
        }
    }
    false
}

/// The offset of a label, or the end.
fn offset_at(places: &[u16], end: u16, label: u32) -> u16
    ensures { result ≡ offset_at places.now end label }
{
    match places.get(label as usize) {
        Some(at) => *at,
        None => end,
    }
}

/// The class in memory of its own.
fn class_of(alloc: Global, class: &Option<Bytes>) -> Result<Option<Bytes>, NoMemory>
    ensures { IfOk result (λ copy. copy ≡ class.now) }
{
    match class {
        None => Ok(None),
        Some(name) => {
            let copy = Bytes::copy_of(alloc, name.items())?;
            Ok(Some(copy))
        }
    }
}

/// A handler at its offsets, before these.
fn handler_of(
    alloc: Global,
    places: &[u16],
    end: u16,
    c: &NCatch,
    later: &[&NCatch],
) -> Result<Handler, NoMemory>
    ensures { IfOk result (λ h. h ≡ handler_of (offset_at places.now end) c.now (map (λ d. d.now) later.now)) }
{
    let class = class_of(alloc, &c.class)?;
    let start = offset_at(places, end, c.start);
    let behind = offset_at(places, end, c.end);
    Ok(Handler {
        start,
        stop: !meets_any(c, later),
        length: behind.saturating_sub(start),
        target: offset_at(places, end, c.target),
        class,
    })
}

/// These handlers at their offsets.
fn handlers_of(
    alloc: Global,
    places: &[u16],
    end: u16,
    order: &[&NCatch],
) -> Result<Row<Handler>, NoMemory>
    ensures { IfOk result (λ hs. hs ≡ handlers_of (offset_at places.now end) (map (λ c. c.now) order.now)) }
{
    let mut handlers = Row::new(alloc);
    for k in 0..order.len() {
        let handler = handler_of(alloc, places, end, order[k], &order[k + 1..])?;
        handlers.push(handler)?;
    }
    Ok(handlers)
}

/// The handlers of a method as they stand in the handler table, at these offsets.
pub(crate) fn written_handlers(
    alloc: Global,
    places: &[u16],
    end: u16,
    catches: &[NCatch],
) -> Result<Row<Handler>, NoMemory>
    ensures { IfOk result (λ hs. hs ≡ handlers_of (offset_at places.now end) (table_order catches.now)) }
{
    let order = table_order(alloc, catches)?;
    handlers_of(alloc, places, end, &order)
}
