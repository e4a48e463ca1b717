//! Calls of the shelf that fail, and each put of the sink but the first, when a package is converted.

use crate::commands::{folder, line_of, sink};
use cjc_run::bytes::{NoMemory, Row};
use cjc_run::shelf::{MemShelf, MemSink};
use std::alloc::Global;
use std::test::*;

/// What is written, in order.
const WRITTEN: [&[u8]; 11] = [
    b"out/Header.cap",
    b"out/Directory.cap",
    b"out/Import.cap",
    b"out/ConstantPool.cap",
    b"out/Class.cap",
    b"out/Method.cap",
    b"out/StaticField.cap",
    b"out/RefLocation.cap",
    b"out/Export.cap",
    b"out/Descriptor.cap",
    b"out/p.exp",
];

/// The number of the call of the shelf that fails, how many of the written files stand then, and the line at the end.
const SHELF_FAULTS: [(u32, u32, &str); 4] = [
    (1, 0, "shelf fault lang.exp\n"),
    (3, 0, "shelf fault out/Header.cap\n"),
    (8, 5, "shelf fault out/Method.cap\n"),
    (13, 10, "shelf fault out/p.exp\n"),
];

/// The number of the put of the sink that fails, and how many bytes are printed then.
const SINK_FAULTS: [(u32, u32); 10] = [
    (1, 14),
    (2, 31),
    (3, 45),
    (4, 64),
    (5, 77),
    (6, 91),
    (7, 110),
    (8, 128),
    (9, 142),
    (10, 160),
];

/// Whether a file stands as it does where nothing fails, exactly where it is to stand.
fn stands(shelf: &MemShelf, whole: &MemShelf, name: &[u8], is_to: bool) -> bool {
    match (shelf.get(name), whole.get(name)) {
        (Some(bytes), Some(wanted)) => is_to && bytes == wanted,
        (None, Some(_)) => !is_to,
        _ => false,
    }
}

/// Whether the first so many files stand so, and none of the others.
fn stand_before(shelf: &MemShelf, whole: &MemShelf, count: u32) -> bool {
    let mut left = count;
    for name in WRITTEN {
        if !stands(shelf, whole, name, left > 0) {
            return false;
        }
        left = left.saturating_sub(1);
    }
    true
}

/// Whether these are the first so many bytes.
fn are_first(bytes: &[u8], whole: &[u8], length: u32) -> bool {
    match whole.get(..length as usize) {
        Some(front) => bytes == front,
        None => false,
    }
}

/// A number alone.
fn just(alloc: Global, number: u32) -> Result<Row<u32>, NoMemory> {
    let mut row = Row::new(alloc);
    row.push(number)?;
    Ok(row)
}

/// Whether a conversion with these calls that fail ends so, beside one where nothing fails.
fn ends_so(
    alloc: Global,
    whole: (&MemShelf, &MemSink),
    failing: (Row<u32>, Row<u32>),
    wanted: (u32, u32, &str),
) -> Result<bool, NoMemory> {
    let (shelf_fails, sink_fails) = failing;
    let mut shelf = folder(alloc, shelf_fails)?;
    let mut out = sink(alloc, sink_fails)?;
    let line = line_of(alloc, &mut shelf, "convert list out", &mut out)?;
    let (files, printed) = whole;
    let (standing, length, end) = wanted;
    Ok(
        stand_before(&shelf, files, standing)
            && are_first(out.bytes(), printed.bytes(), length)
            && line.bytes() == end.as_bytes(),
    )
}

/// Whether all calls that fail end as the tables say.
fn end_so(alloc: Global) -> Result<bool, NoMemory> {
    let mut files = folder(alloc, Row::new(alloc))?;
    let mut printed = sink(alloc, Row::new(alloc))?;
    let _line = line_of(alloc, &mut files, "convert list out", &mut printed)?;
    let whole = (&files, &printed);
    for (call, standing, end) in SHELF_FAULTS {
        let failing = (just(alloc, call)?, Row::new(alloc));
        if !ends_so(alloc, whole, failing, (standing, 0, end))? {
            return Ok(false);
        }
    }
    for (put, length) in SINK_FAULTS {
        let failing = (Row::new(alloc), just(alloc, put)?);
        if !ends_so(alloc, whole, failing, (11, length, "sink fault\n"))? {
            return Ok(false);
        }
    }
    Ok(true)
}

#[test]
fn calls_fail(rt: HostRuntime) {
    assert!(rt; matches!(end_so(rt.alloc()), Ok(true)));
}
