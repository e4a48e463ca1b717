//! Texts of lists, well formed and malformed, and for each what reading it answers: the rule with its offset,
//! or that all is well.

use crate::words::{cut, is_number, number, question_and_answer};
use cjc_bytes::{AppletLine, Fault, FileLine, NoMemory};
use cjc_list::{List, read_list};
use std::alloc::Global;
use std::test::*;

/// Whether the answer is this one: the rule and the offset of the refusal, or `well`.
fn is_answer(answer: Result<List, Fault>, wanted: &str) -> bool {
    let (rule, offset) = cut(wanted, " ");
    match answer {
        Ok(_) => wanted == "well",
        Err(Fault::Refused(refusal)) => {
            is_number(rule, refusal.rule.0 as u32) && is_number(offset, refusal.place.offset)
        }
        Err(Fault::NoMemory) => false,
    }
}

fn is_answered(alloc: Global, text: &[u8], wanted: &str) -> bool {
    text.len() <= 100_000 && is_answer(read_list(alloc, b"list", text), wanted)
}

/// First lines, and whether a list may begin so.
const HEADS: &str = "\
good|package p A000000001 1.0
good|package p A000000001 1.0\r
good|package p A000000001 255.255
good|package p A000000001 007.000010
good|package  a_1$/B   a000000001  1.0
good|package p A00000000102030405060708090a0B0c 1.0
good|package p A0000000010203040506070809 1.0
bad|package p A00000000102030405060708090a0B0c0D 1.0
bad|package p A0000000 1.0
bad|package p A00000000 1.0
bad|package p A00000000G 1.0
bad|package p A000000001 256.0
bad|package p A000000001 1.256
bad|package p A000000001 1
bad|package p A000000001 1.
bad|package p A000000001 .1
bad|package p A000000001 1.0.0
bad|package p A000000001 1.-0
bad|package p A000000001 1.0 int
bad|package p A000000001
bad|package p// A000000001 1.0
bad|package /p A000000001 1.0
bad|package p.q A000000001 1.0
bad|Package p A000000001 1.0
bad| package p A000000001 1.0
bad|package p A000000001 1.0\x20
bad|package\tp A000000001 1.0
bad|class T.class
bad|   ";

/// The rule and the offset of the refusal of a list, or `well`, and the list, with `^` at the end of each line.
const LISTS: &str = "\
107 0|
107 5|# a^^
107 0|package p A0 1.0
108 24|package p A000000001 1.0
108 26|package p A000000001 1.0\r^
107 0|package p A000000001 1.0\r
well|package p A000000001 1.0^export lang.exp^class T.class^
well|#^^package p A000000001 1.0^#^^class T^#
well|package p A000000001 1.0^class T\t
well|package p A000000001 1.0^applet p/Wallet A00000000101^export lang.exp^export framework.exp^class Wallet.class^
107 34|package p A000000001 1.0^export a^package p A000000001 1.0^class T
107 25|package p A000000001 1.0^int^class T
107 25|package p A000000001 1.0^class^class T
107 25|package p A000000001 1.0^class ^class T
107 25|package p A000000001 1.0^class\tT
107 25|package p A000000001 1.0^class T U
107 25|package p A000000001 1.0^  ^class T
107 33|package p A000000001 1.0^class T^applet p/T A0
107 33|package p A000000001 1.0^class T^applet p/ A000000001
107 27|package p A000000001 1.0^\r^applet p/T^# end^int";

/// So many lines behind two of a list, 1,024 class files and 128 export files being the most.
const LIMITS: &str = "\
1023 class T = well
1024 class T = 107 8223
128 export E = well
129 export E = 107 1191";

/// Puts a text behind another, with `^` at the end of each line.
fn put_lines(text: &mut Vec<u8>, lines: &str) -> Result<(), NoMemory> {
    for byte in lines.bytes() {
        text.push(if byte == b'^' { b'\n' } else { byte })?;
    }
    Ok(())
}

/// The list of a first line.
fn headed(alloc: Global, head: &str) -> Result<Vec<u8>, NoMemory> {
    let mut text = Vec::new(alloc);
    put_lines(&mut text, head)?;
    put_lines(&mut text, "^class T")?;
    Ok(text)
}

fn whole(alloc: Global, lines: &str) -> Result<Vec<u8>, NoMemory> {
    let mut text = Vec::new(alloc);
    put_lines(&mut text, lines)?;
    Ok(text)
}

/// The list with so many lines more.
fn long(alloc: Global, words: &str) -> Result<Vec<u8>, NoMemory> {
    let (count, line) = cut(words, " ");
    let mut text = Vec::new(alloc);
    put_lines(&mut text, "package p A000000001 1.0^class T.class^")?;
    for _ in 0..number(count)? {
        put_lines(&mut text, line)?;
        put_lines(&mut text, "^")?;
    }
    Ok(text)
}

/// Whether a list that could be made is answered so.
fn is_made_and_answered(alloc: Global, list: Result<Vec<u8>, NoMemory>, wanted: &str) -> bool {
    match list {
        Ok(list) => is_answered(alloc, list.as_slice(), wanted),
        Err(_) => false,
    }
}

/// The first case that is answered otherwise; nothing where there is none.
fn first_wrong_head(alloc: Global) -> &'static str {
    for case in HEADS.split("\n") {
        let (is_good, head) = cut(case, "|");
        let wanted = if is_good == "good" { "well" } else { "107 0" };
        if !is_made_and_answered(alloc, headed(alloc, head), wanted) {
            return case;
        }
    }
    ""
}

#[test]
fn package_lines(rt: HostRuntime) {
    assert_eq!(rt; first_wrong_head(rt.alloc()), "");
}

/// The same of whole lists.
fn first_wrong_list(alloc: Global) -> &'static str {
    for case in LISTS.split("\n") {
        let (wanted, list) = cut(case, "|");
        if !is_made_and_answered(alloc, whole(alloc, list), wanted) {
            return case;
        }
    }
    ""
}

#[test]
fn whole_lists(rt: HostRuntime) {
    assert_eq!(rt; first_wrong_list(rt.alloc()), "");
}

/// The same of long lists.
fn first_wrong_limit(alloc: Global) -> &'static str {
    for case in LIMITS.lines() {
        let (words, wanted) = question_and_answer(case);
        if !is_made_and_answered(alloc, long(alloc, words), wanted) {
            return case;
        }
    }
    ""
}

#[test]
fn limits(rt: HostRuntime) {
    assert_eq!(rt; first_wrong_limit(rt.alloc()), "");
}

const WALLET: &str = "\
# the wallet\r^\r^package com/p A000000001 1.02^applet com/p/Wallet a0000000010F^export lang.exp^class T.class\r";

fn is_applet(line: &AppletLine) -> bool {
    line.class.items() == b"com/p/Wallet".as_slice()
        && line.aid.items() == [0xA0, 0, 0, 0, 1, 0x0F].as_slice()
}

fn is_file(line: &FileLine, class_file: bool, name: &[u8]) -> bool {
    line.class_file == class_file && line.name.items() == name
}

fn are_applets(lines: &[AppletLine]) -> bool {
    match lines {
        [line] => is_applet(line),
        _ => false,
    }
}

fn are_files(lines: &[FileLine]) -> bool {
    match lines {
        [first, second] => {
            is_file(first, false, b"lang.exp") && is_file(second, true, b"T.class\r")
        }
        _ => false,
    }
}

/// Whether a list says what the wallet's does.
fn is_wallet(list: &List) -> bool {
    list.name.items() == b"list".as_slice()
        && list.package.items() == b"com/p".as_slice()
        && list.aid.items() == [0xA0, 0, 0, 0, 1].as_slice()
        && list.major == 1
        && list.minor == 2
        && !list.ints
        && are_applets(list.applets.items())
        && are_files(list.lines.items())
}

fn reads_wallet(alloc: Global, text: &[u8]) -> bool {
    if text.len() > 100_000 {
        return false;
    }
    match read_list(alloc, b"list", text) {
        Ok(list) => is_wallet(&list),
        Err(_) => false,
    }
}

fn is_read(alloc: Global, text: Result<Vec<u8>, NoMemory>) -> bool {
    match text {
        Ok(text) => reads_wallet(alloc, text.as_slice()),
        Err(_) => false,
    }
}

#[test]
fn one_list(rt: HostRuntime) {
    assert!(rt; is_read(rt.alloc(), whole(rt.alloc(), WALLET)));
}
