//! Limits of what is written: a package that keeps each exactly, and one past it.

use crate::built::{Method, make_method, with_constants, with_methods};
use crate::conversions::converted;
use crate::files::lang;
use cjc_bytes::{Bytes, Fault, NoMemory, Row};
use std::alloc::Global;
use std::test::*;

const LIST: &[u8] = b"package p A000000001 1.0\nexport lang\nclass T\n";

/// The rule that the package breaks whose one class file this is; 0 where it is converted.
fn rule(alloc: Global, class: Bytes) -> Result<u16, NoMemory> {
    let mut files = Row::new(alloc);
    files.push(lang(alloc)?)?;
    files.push(class)?;
    match converted(alloc, LIST, &files) {
        Ok(_) => Ok(0),
        Err(Fault::Refused(refusal)) => Ok(refusal.rule.0),
        Err(Fault::NoMemory) => Err(NoMemory),
    }
}

fn one_method(alloc: Global, method: Method) -> Result<Bytes, NoMemory> {
    let mut methods = Row::new(alloc);
    methods.push(method)?;
    with_methods(alloc, methods.items())
}

/// An abstract method with so many parameters of one word.
fn words(alloc: Global, shorts: usize) -> Result<Bytes, NoMemory> {
    one_method(
        alloc,
        make_method(alloc, &[(b"(", 1), (b"S", shorts), (b")V", 1)], &[])?,
    )
}

/// A method whose type has 251 nibbles and one for each of these.
fn nibbles(alloc: Global, shorts: usize) -> Result<Bytes, NoMemory> {
    one_method(
        alloc,
        make_method(
            alloc,
            &[(b"(", 1), (b"Lp/T;", 50), (b"S", shorts), (b")V", 1)],
            &[(b"\xB1", 1)],
        )?,
    )
}

/// The method of a switch over so many keys from 0 on, all of which lead behind it: two loads and a pop take 5 bytes at the widest,
/// the switch 7 and two for each key, and return one.
fn switch(alloc: Global, desc: &'static [u8], keys: u16) -> Result<Method, NoMemory> {
    let [a, b, c, d] = (13 + 4 * u32::from(keys)).to_be_bytes();
    let [e, f] = keys.wrapping_sub(1).to_be_bytes();
    let behind = [a, b, c, d];
    make_method(
        alloc,
        &[(desc, 1)],
        &[
            (b"\x1A\x57\x1A\xAA", 1),
            (&behind, 1),
            (&[0, 0, 0, 0, 0, 0, e, f], 1),
            (&behind, usize::from(keys)),
            (b"\xB1", 1),
        ],
    )
}

fn long_method(alloc: Global, keys: u16) -> Result<Bytes, NoMemory> {
    one_method(alloc, switch(alloc, b"(S)V", keys)?)
}

/// Two methods, of which one is as long as it may be.
fn long_component(alloc: Global, keys: u16) -> Result<Bytes, NoMemory> {
    let mut methods = Row::new(alloc);
    methods.push(switch(alloc, b"(S)V", 16377)?)?;
    methods.push(switch(alloc, b"(B)V", keys)?)?;
    with_methods(alloc, methods.items())
}

/// 254 methods of as many types: 253 of 255 nibbles, and the last of so many.
fn types(alloc: Global, shorts: usize) -> Result<Bytes, NoMemory> {
    let mut methods = Row::new(alloc);
    for place in 0..253 {
        methods.push(make_method(
            alloc,
            &[
                (b"(", 1),
                (b"S", place),
                (b"B", 1),
                (b"S", 253 - place),
                (b")V", 1),
            ],
            &[(b"\xB1", 1)],
        )?)?;
    }
    methods.push(make_method(
        alloc,
        &[(b"(", 1), (b"S", shorts), (b")V", 1)],
        &[(b"\xB1", 1)],
    )?)?;
    with_methods(alloc, methods.items())
}

/// What is answered of a package at a limit and one past it.
fn answers(alloc: Global, kept: Bytes, past: Bytes) -> Result<(u16, u16), NoMemory> {
    Ok((rule(alloc, kept)?, rule(alloc, past)?))
}

/// Words of parameters, the receiver's with them: 255 and 256.
#[test]
fn words_of_a_method(rt: HostRuntime) -> Result<(), Fail> {
    let alloc = rt.alloc();
    let answers = answers(alloc, words(alloc, 254)?, words(alloc, 255)?)?;
    assert_eq!(rt; answers, (0, 417));
    Ok(())
}

/// Nibbles of a type: 255 and 256.
#[test]
fn nibbles_of_a_type(rt: HostRuntime) -> Result<(), Fail> {
    let alloc = rt.alloc();
    let answers = answers(alloc, nibbles(alloc, 4)?, nibbles(alloc, 5)?)?;
    assert_eq!(rt; answers, (0, 411));
    Ok(())
}

/// Bytes of the types of a package, with the two of their count: 32,767 and 32,768.
#[test]
fn bytes_of_types(rt: HostRuntime) -> Result<(), Fail> {
    let alloc = rt.alloc();
    let answers = answers(alloc, types(alloc, 253)?, types(alloc, 254)?)?;
    assert_eq!(rt; answers, (0, 411));
    Ok(())
}

/// Bytes of a method's code: 32,767 and 32,769.
#[test]
fn bytes_of_a_method(rt: HostRuntime) -> Result<(), Fail> {
    let alloc = rt.alloc();
    let answers = answers(
        alloc,
        long_method(alloc, 16377)?,
        long_method(alloc, 16378)?,
    )?;
    assert_eq!(rt; answers, (0, 415));
    Ok(())
}

/// Bytes of Method, counted at the widest: 65,535 and 65,537.
#[test]
fn bytes_of_a_component(rt: HostRuntime) -> Result<(), Fail> {
    let alloc = rt.alloc();
    let answers = answers(
        alloc,
        long_component(alloc, 16373)?,
        long_component(alloc, 16374)?,
    )?;
    assert_eq!(rt; answers, (0, 416));
    Ok(())
}

/// Entries of the export file's pool, ten beside the constants and two for each, and one more for a second type: 16,383 and 16,384.
#[test]
fn entries_of_an_export_file(rt: HostRuntime) -> Result<(), Fail> {
    let alloc = rt.alloc();
    let answers = answers(
        alloc,
        with_constants(alloc, 8186, true)?,
        with_constants(alloc, 8187, false)?,
    )?;
    assert_eq!(rt; answers, (0, 414));
    Ok(())
}
