//! The bytes, the wide jumps and the handlers of methods, worked out by hand.

use crate::layouts::{LaidOut, written};
use crate::methods::{Far, divides, goto_over, leaps, long_method, looks_up, loop_over};
use cjc_bytes::NoMemory;
use cjc_layout::Handler;
use cjc_ncode::NMethod;
use std::alloc::Global;
use std::process::Abort;

fn of(rt: &impl Abort, alloc: Global, method: Result<NMethod, NoMemory>) -> LaidOut {
    let Ok(method) = method else {
        panic!(rt; "no memory");
    };
    let Ok(found) = written(alloc, &method) else {
        panic!(rt; "refused");
    };
    found
}

fn has(found: &LaidOut, bytes: &[u8]) -> bool {
    found.emitted.bytes.items() == bytes
}

/// Whether these bytes stand from an offset on, the header counted.
fn has_at(found: &LaidOut, at: usize, bytes: &[u8]) -> bool {
    found
        .emitted
        .bytes
        .items()
        .iter()
        .skip(at)
        .take(bytes.len())
        .eq(bytes.iter())
}

#[test]
fn switches(rt: HostRuntime) {
    let alloc = rt.alloc();
    let wanted = [
        0x02, 0x10, 0x1C, 0x75, 0x00, 0x0D, 0x00, 0x01, 0x00, 0x05, 0x00, 0x09, 0x04, 0x78, 0x05,
        0x78, 0x03, 0x78,
    ];
    assert!(rt; has(&of(&rt, alloc, looks_up(alloc)), &wanted));
    let wanted = [0x02, 0x10, 0x1C, 0x3B, 0x70, 0x04, 0x04, 0x78, 0x03, 0x78];
    assert!(rt; has(&of(&rt, alloc, leaps(alloc)), &wanted));
}

#[test]
fn jumps_over(rt: HostRuntime) {
    let alloc = rt.alloc();
    assert!(rt; has_at(&of(&rt, alloc, goto_over(alloc, 125)), 2, &[0x70, 0x7F]));
    assert!(rt;
        has_at(
            &of(&rt, alloc, goto_over(alloc, 126)),
            2,
            &[0xA8, 0x00, 0x81]
        )
    );
}

/// The first and the last jump of a loop over so many bytes.
fn is_loop(rt: &impl Abort, alloc: Global, count: u32, first: &[u8], last: &[u8]) -> bool {
    let found = of(rt, alloc, loop_over(alloc, count));
    let behind = first.len().saturating_add(count as usize).saturating_add(3);
    has_at(&found, 3, first) && has_at(&found, behind, last)
}

#[test]
fn loops(rt: HostRuntime) {
    let alloc = rt.alloc();
    assert!(rt; is_loop(&rt, alloc, 123, &[0x60, 0x7F], &[0x70, 0x82]));
    assert!(rt; is_loop(&rt, alloc, 124, &[0x98, 0x00, 0x81], &[0x70, 0x80]));
    assert!(rt; is_loop(&rt, alloc, 125, &[0x98, 0x00, 0x83], &[0xA8, 0xFF, 0x7F]));
}

fn is_handler(handler: &Handler, start: u16, stop: bool, length: u16, target: u16) -> bool {
    handler.start == start
        && handler.stop == stop
        && handler.length == length
        && handler.target == target
}

#[test]
fn handlers(rt: HostRuntime) {
    let alloc = rt.alloc();
    let found = of(&rt, alloc, divides(alloc));
    let wanted = [
        0x02, 0x10, 0x1C, 0x1C, 0x47, 0x78, 0x3B, 0x04, 0x78, 0x3B, 0x05, 0x78, 0x3B, 0x06, 0x78,
    ];
    assert!(rt; has(&found, &wanted));
    let handlers = found.layout.handlers.items();
    assert_eq!(rt; handlers.len(), 2);
    assert!(rt; is_handler(&handlers[0], 2, false, 1, 4));
    assert!(rt; is_handler(&handlers[1], 0, true, 3, 10));
}

fn wide_jumps(found: &LaidOut) -> usize {
    found
        .layout
        .wide
        .items()
        .iter()
        .filter(|wide| **wide)
        .count()
}

#[test]
fn long_methods(rt: HostRuntime) {
    let alloc = rt.alloc();
    let near = of(&rt, alloc, long_method(alloc, Far::Near));
    assert_eq!(rt; wide_jumps(&near), 0);
    let first = of(&rt, alloc, long_method(alloc, Far::First));
    assert_eq!(rt; wide_jumps(&first), 4974);
    assert_eq!(rt; first.emitted.bytes.items().len(), 32743);
}
