//! The bytes and the handlers of a method, worked out by hand, and the wide jumps of long ones.

use crate::code::layouts::{LaidOut, written};
use crate::code::methods::{Far, divides, long_method};
use cjc_examples::bytes::NoMemory;
use cjc_examples::layout::Handler;
use cjc_examples::ncode::NMethod;
use std::alloc::Global;
use std::process::Abort;

fn of(rt: &impl Abort, alloc: Global, method: Result<NMethod, NoMemory>) -> LaidOut {
    let Ok(method) = method else {
        panic!(rt; "no memory");
    };
    let Ok(found) = written(alloc, &method) else {
        panic!(rt; "refused");
    };
    found
}

fn has(found: &LaidOut, bytes: &[u8]) -> bool {
    found.emitted.bytes.items() == bytes
}

fn is_handler(handler: &Handler, start: u16, stop: bool, length: u16, target: u16) -> bool {
    handler.start == start
        && handler.stop == stop
        && handler.length == length
        && handler.target == target
}

#[test]
fn handlers(rt: HostRuntime) {
    let alloc = rt.alloc();
    let found = of(&rt, alloc, divides(alloc));
    let wanted = [
        0x02, 0x10, 0x1C, 0x1C, 0x47, 0x78, 0x3B, 0x04, 0x78, 0x3B, 0x05, 0x78, 0x3B, 0x06, 0x78,
    ];
    assert!(rt; has(&found, &wanted));
    let handlers = found.layout.handlers.items();
    assert_eq!(rt; handlers.len(), 2);
    assert!(rt; is_handler(&handlers[0], 2, false, 1, 4));
    assert!(rt; is_handler(&handlers[1], 0, true, 3, 10));
}

fn wide_jumps(found: &LaidOut) -> usize {
    found
        .layout
        .wide
        .items()
        .iter()
        .filter(|wide| **wide)
        .count()
}

#[test]
fn long_methods(rt: HostRuntime) {
    let alloc = rt.alloc();
    let near = of(&rt, alloc, long_method(alloc, Far::Near));
    assert_eq!(rt; wide_jumps(&near), 0);
    let first = of(&rt, alloc, long_method(alloc, Far::First));
    assert_eq!(rt; wide_jumps(&first), 4974);
    assert_eq!(rt; first.emitted.bytes.items().len(), 32743);
}
