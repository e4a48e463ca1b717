//! Packages that are as long as they may be, and are converted. One past each limit is refused in a case.

use crate::commands::sink;
use crate::long_files::{Method, make_method, with_constants, with_methods};
use cjc_run::bytes::{Bytes, NoMemory, Row};
use cjc_run::run;
use cjc_run::shelf::MemShelf;
use cjc_run::shelf::command::Status;
use cjc_tests_files::case_files::LANG;
use cjc_tests_files::cases::texts;
use std::alloc::Global;
use std::test::*;

const LIST: &[u8] = b"package p A000000001 1.0\nexport lang\nclass T\n";

/// The method of a switch over so many keys from 0 on, all of which lead behind it: two loads and a pop take 5 bytes
/// at the widest, the switch 7 and two for each key, and return one.
fn switch(alloc: Global, desc: &'static [u8], keys: u16) -> Result<Method, NoMemory> {
    let [a, b, c, d] = (13 + 4 * u32::from(keys)).to_be_bytes();
    let [e, f] = keys.wrapping_sub(1).to_be_bytes();
    let behind = [a, b, c, d];
    make_method(
        alloc,
        &[(desc, 1)],
        &[
            (b"\x1A\x57\x1A\xAA", 1),
            (&behind, 1),
            (&[0, 0, 0, 0, 0, 0, e, f], 1),
            (&behind, usize::from(keys)),
            (b"\xB1", 1),
        ],
    )
}

/// A method whose code has 32,767 bytes at the widest.
fn long_method(alloc: Global) -> Result<Bytes, NoMemory> {
    let mut methods = Row::new(alloc);
    methods.push(switch(alloc, b"(S)V", 16377)?)?;
    with_methods(alloc, methods.items())
}

/// Two methods, with which Method has 65,535 bytes at the widest.
fn long_component(alloc: Global) -> Result<Bytes, NoMemory> {
    let mut methods = Row::new(alloc);
    methods.push(switch(alloc, b"(S)V", 16377)?)?;
    methods.push(switch(alloc, b"(B)V", 16373)?)?;
    with_methods(alloc, methods.items())
}

/// 253 methods with types of 255 nibbles and one with 254: the types have 32,767 bytes, with the two of their count.
fn types(alloc: Global) -> Result<Bytes, NoMemory> {
    let mut methods = Row::new(alloc);
    for place in 0..253 {
        methods.push(make_method(
            alloc,
            &[
                (b"(", 1),
                (b"S", place),
                (b"B", 1),
                (b"S", 253 - place),
                (b")V", 1),
            ],
            &[(b"\xB1", 1)],
        )?)?;
    }
    methods.push(make_method(
        alloc,
        &[(b"(", 1), (b"S", 253), (b")V", 1)],
        &[(b"\xB1", 1)],
    )?)?;
    with_methods(alloc, methods.items())
}

/// Whether a package of this class file is converted.
fn is_converted(alloc: Global, class: Result<Bytes, NoMemory>) -> Result<bool, NoMemory> {
    let class = class?;
    let mut shelf = MemShelf::new(alloc, Row::new(alloc));
    shelf.add(b"list", LIST)?;
    shelf.add(b"lang", LANG)?;
    shelf.add(b"T", class.items())?;
    let words = texts(alloc, "convert,list,out")?;
    let mut out = sink(alloc, Row::new(alloc))?;
    let status = run(alloc, words.items(), &mut shelf, &mut out);
    Ok(matches!(status, Status::Done))
}

#[test]
fn types_of_a_package(rt: HostRuntime) {
    assert!(rt; matches!(is_converted(rt.alloc(), types(rt.alloc())), Ok(true)));
}

#[test]
fn bytes_of_a_method(rt: HostRuntime) {
    assert!(rt; matches!(is_converted(rt.alloc(), long_method(rt.alloc())), Ok(true)));
}

#[test]
fn bytes_of_a_component(rt: HostRuntime) {
    assert!(rt;
        matches!(
            is_converted(rt.alloc(), long_component(rt.alloc())),
            Ok(true)
        )
    );
}

/// The pool of the export file has ten entries, two for each constant and one for a second type: 16,383 in all.
#[test]
fn entries_of_an_export_file(rt: HostRuntime) {
    assert!(rt;
        matches!(
            is_converted(rt.alloc(), with_constants(rt.alloc(), 8186)),
            Ok(true)
        )
    );
}
