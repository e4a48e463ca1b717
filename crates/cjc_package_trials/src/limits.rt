//! Limits of what is written: a package that keeps each exactly, and one past it. A case is the kind of its class
//! file, a number, and ` = ` with the rule that it breaks, or `0` where it is converted.

use crate::long_files::{Method, make_method, with_constants, with_methods};
use cjc_bytes::{Bytes, NoMemory, Row};
use cjc_case_files::LANG;
use cjc_cases::{cut, is_number, question_and_answer, small_number};
use cjc_command::Status;
use cjc_run::run;
use cjc_shelf::{MemShelf, MemSink};
use std::alloc::Global;
use std::test::*;

const LIST: &[u8] = b"package p A000000001 1.0\nexport lang\nclass T\n";

/// Words of a method's parameters, the receiver's with them: 255.
const WORDS: &str = "\
words 254 = 0
words 255 = 417";

/// Nibbles of a type: 255. Bytes of the types of a package, with the two of their count: 32,767.
const TYPES: &str = "\
nibbles 4 = 0
nibbles 5 = 411
types 253 = 0
types 254 = 411";

/// Bytes of a method's code, at the widest: 32,767, and 32,769.
const METHODS: &str = "\
method 16377 = 0
method 16378 = 415";

/// Bytes of Method, at the widest: 65,535, and 65,537.
const COMPONENTS: &str = "\
component 16373 = 0
component 16374 = 416";

/// Entries of the export file's pool, ten and two for each constant, and one for a second type: 16,383.
const CONSTANTS: &str = "\
constants 8186 = 0
constants 8187 = 414";

/// A folder with this class file.
fn folder(alloc: Global, class: &Bytes) -> Result<MemShelf, NoMemory> {
    let mut shelf = MemShelf::new(alloc, Row::new(alloc));
    shelf.add(b"list", LIST)?;
    shelf.add(b"lang", LANG)?;
    shelf.add(b"T", class.items())?;
    Ok(shelf)
}

/// The rule that the package of a folder breaks; 0 where it is converted.
fn rule(alloc: Global, shelf: &mut MemShelf) -> Result<u16, NoMemory> {
    let mut words = Row::new(alloc);
    words.push(Bytes::copy_of(alloc, b"convert")?)?;
    words.push(Bytes::copy_of(alloc, b"list")?)?;
    words.push(Bytes::copy_of(alloc, b"out")?)?;
    let mut out = MemSink::new(alloc, Row::new(alloc));
    out.reserve()?;
    match run(alloc, words.items(), shelf, &mut out) {
        Status::Done => Ok(0),
        Status::Refused(refusal) => Ok(refusal.rule.0),
        _ => Err(NoMemory),
    }
}

fn one_method(alloc: Global, method: Method) -> Result<Bytes, NoMemory> {
    let mut methods = Row::new(alloc);
    methods.push(method)?;
    with_methods(alloc, methods.items())
}

/// An abstract method with so many parameters of one word.
fn words(alloc: Global, shorts: usize) -> Result<Bytes, NoMemory> {
    one_method(
        alloc,
        make_method(alloc, &[(b"(", 1), (b"S", shorts), (b")V", 1)], &[])?,
    )
}

/// A method whose type has 251 nibbles and one for each of these.
fn nibbles(alloc: Global, shorts: usize) -> Result<Bytes, NoMemory> {
    one_method(
        alloc,
        make_method(
            alloc,
            &[(b"(", 1), (b"Lp/T;", 50), (b"S", shorts), (b")V", 1)],
            &[(b"\xB1", 1)],
        )?,
    )
}

/// The method of a switch over so many keys from 0 on, all of which lead behind it: two loads and a pop take 5 bytes
/// at the widest, the switch 7 and two for each key, and return one.
fn switch(alloc: Global, desc: &'static [u8], keys: u16) -> Result<Method, NoMemory> {
    let [a, b, c, d] = (13 + 4 * u32::from(keys)).to_be_bytes();
    let [e, f] = keys.wrapping_sub(1).to_be_bytes();
    let behind = [a, b, c, d];
    make_method(
        alloc,
        &[(desc, 1)],
        &[
            (b"\x1A\x57\x1A\xAA", 1),
            (&behind, 1),
            (&[0, 0, 0, 0, 0, 0, e, f], 1),
            (&behind, usize::from(keys)),
            (b"\xB1", 1),
        ],
    )
}

fn long_method(alloc: Global, keys: u16) -> Result<Bytes, NoMemory> {
    one_method(alloc, switch(alloc, b"(S)V", keys)?)
}

/// Two methods, of which one is as long as it may be.
fn long_component(alloc: Global, keys: u16) -> Result<Bytes, NoMemory> {
    let mut methods = Row::new(alloc);
    methods.push(switch(alloc, b"(S)V", 16377)?)?;
    methods.push(switch(alloc, b"(B)V", keys)?)?;
    with_methods(alloc, methods.items())
}

/// 254 methods of as many types: 253 of 255 nibbles, and the last of so many.
fn types(alloc: Global, shorts: usize) -> Result<Bytes, NoMemory> {
    let mut methods = Row::new(alloc);
    for place in 0..253 {
        methods.push(make_method(
            alloc,
            &[
                (b"(", 1),
                (b"S", place),
                (b"B", 1),
                (b"S", 253 - place),
                (b")V", 1),
            ],
            &[(b"\xB1", 1)],
        )?)?;
    }
    methods.push(make_method(
        alloc,
        &[(b"(", 1), (b"S", shorts), (b")V", 1)],
        &[(b"\xB1", 1)],
    )?)?;
    with_methods(alloc, methods.items())
}

/// The class file of a case.
fn class_file(alloc: Global, kind: &str, number: u16) -> Result<Bytes, NoMemory> {
    match kind {
        "words" => words(alloc, usize::from(number)),
        "nibbles" => nibbles(alloc, usize::from(number)),
        "types" => types(alloc, usize::from(number)),
        "method" => long_method(alloc, number),
        "component" => long_component(alloc, number),
        "constants" => with_constants(alloc, number, number == 8186),
        _ => Err(NoMemory),
    }
}

fn is_so(alloc: Global, case: &str) -> Result<bool, NoMemory> {
    let (question, wanted) = question_and_answer(case);
    let (kind, number) = cut(question, " ");
    let class = class_file(alloc, kind, small_number(number)?)?;
    let mut shelf = folder(alloc, &class)?;
    Ok(is_number(wanted, u32::from(rule(alloc, &mut shelf)?)))
}

/// The first case that goes otherwise; nothing where there is none.
fn first_wrong(alloc: Global, cases: &'static str) -> &'static str {
    for case in cases.lines() {
        match is_so(alloc, case) {
            Ok(true) => {}
            _ => return case,
        }
    }
    ""
}

#[test]
fn words_of_a_method(rt: HostRuntime) {
    assert_eq!(rt; first_wrong(rt.alloc(), WORDS), "");
}

#[test]
fn types_of_a_package(rt: HostRuntime) {
    assert_eq!(rt; first_wrong(rt.alloc(), TYPES), "");
}

#[test]
fn bytes_of_a_method(rt: HostRuntime) {
    assert_eq!(rt; first_wrong(rt.alloc(), METHODS), "");
}

#[test]
fn bytes_of_a_component(rt: HostRuntime) {
    assert_eq!(rt; first_wrong(rt.alloc(), COMPONENTS), "");
}

#[test]
fn entries_of_an_export_file(rt: HostRuntime) {
    assert_eq!(rt; first_wrong(rt.alloc(), CONSTANTS), "");
}
