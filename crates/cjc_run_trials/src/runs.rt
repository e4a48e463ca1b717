//! Whole runs over files in memory: what is printed, what stands after, and how each ends. A case says what is not as
//! in the example, with ` ; ` between, and then ` = ` and what is wanted:
//!
//! - `FILE BYTES` is a file that is read or written, its bytes as packages.rt says, and `FILE none` one that is absent;
//! - `shelf NUMBER` is the call of the shelf that fails, `put NUMBER` the one of the sink;
//! - `words WORD WORD ..` are the words of the command, and `-` is none.
//!
//! Wanted are how many calls of the shelf are over when the run ends, how many bytes are printed, and the line
//! at the end, without its line feed, or `-` where there is none; or `done` alone, where all that is wanted is
//! that it converts.

use crate::packages::bytes_of;
use crate::words::{cut, number, question_and_answer};
use cjc_bytes::{Bytes, NoMemory, Row};
use cjc_command::Status;
use cjc_run::{run, status_line};
use cjc_shelf::{MemShelf, MemSink};
use std::alloc::Global;
use std::test::*;

/// What is read.
const READ: &str = "\
list list
lang.exp lang
T.class sum
U.class none
p.exp none";

/// What is written, in order, each with the number of its call of the shelf.
const WRITTEN: &str = "\
3 out/Header.cap header
4 out/Directory.cap directory
5 out/Import.cap import
6 out/ConstantPool.cap pool
7 out/Class.cap classes
8 out/Method.cap methods
9 out/StaticField.cap statics
10 out/RefLocation.cap locations
11 out/Export.cap exports
12 out/Descriptor.cap descriptors
13 out/p.exp export-file
14 out/Applet.cap none";

/// What is printed.
const PRINTED: &str = "\
Header.cap 20
Directory.cap 36
Import.cap 14
ConstantPool.cap 5
Class.cap 15
Method.cap 10
StaticField.cap 13
RefLocation.cap 7
Export.cap 10
Descriptor.cap 29
p.exp 130
";

const USAGE: &str = "usage: jcconv convert LIST DIR, check LIST DIR, jvm LIST SCRIPT N, \
    card LIST DIR SCRIPT N, make NUMBER SIZE";

/// The files that convert the example, and those that do not.
const CONVERSIONS: &str = "\
list list = 14 170 -
lang.exp lang 24:03 25:02 33:7f 458:c8 477:07 479:04 \
    ; out/Import.cap import 4:03 5:02 13:7f ; out/Class.cap classes 7:c8 11:08 \
    ; out/p.exp export-file 123:07 125:04 \
    = 14 170 - # version 2.3, another AID, Object with token 200, its `equals` protected and with token 7
list list 262144*23 = 14 170 - # the longest
list list 262145*23 = 0 0 too long list
T.class no-i2s = 0 0 refused 607 T.class p/T f(S)S 3 # the sum is not made a short
T.class sum 93:00 94:00 95:1a 96:74 = 0 0 refused 607 T.class p/T f(S)S 4 # -a
T.class sum 51:42 = 0 0 refused 608 T.class p/T f(S)B 4
T.class sum 51:42 93:00 94:00 95:00 96:1a = 0 0 refused 608 T.class p/T f(S)B 4 # a short as a byte
T.class sum 51:42 93:00 94:00 95:1a 96:91 = done # (byte) a
T.class sum 51:5a = 0 0 refused 609 T.class p/T f(S)Z 4
T.class sum 51:5a 93:00 94:00 95:00 96:05 = 0 0 refused 609 T.class p/T f(S)Z 4 # 2
T.class sum 51:5a 93:00 94:00 95:00 96:04 = done # 1
T.class sum 94:74 95:04 96:6c = 0 0 refused 602 T.class p/T f(S)S 3 # -a / 1, and 607 behind it
T.class sum 94:74 95:04 96:70 = 0 0 refused 602 T.class p/T f(S)S 3
T.class sum 93:00 94:1a 95:04 96:6c = done # a / 1
T.class sum 94:74 95:04 96:7a = 0 0 refused 603 T.class p/T f(S)S 3 # -a >> 1
T.class sum 94:74 95:04 96:7c = 0 0 refused 603 T.class p/T f(S)S 3
T.class sum 93:00 94:1a 95:04 96:7a = done # a >> 1
T.class sum 94:bc 95:08 96:be = done # new byte[a].length
T.class sum 94:74 95:00 96:01 = 0 0 refused 502 T.class p/T f(S)S 4 # a reference is returned, before any number
T.class sum 0:00 = 0 0 refused 101 T.class - - 0
T.class sum ..103 = 0 0 refused 101 T.class - - 102
T.class sum 97:00 = 0 0 refused 103 T.class p/T f(S)S 4 # nop at the end
T.class sum 95:61 = 0 0 refused 303 T.class p/T f(S)S 2 # ladd for iadd
T.class sum 95:61 97:00 = 0 0 refused 103 T.class p/T f(S)S 4
lang.exp lang ..3 = 0 0 refused 104 lang.exp - - 0
lang.exp lang ..3 ; T.class sum 97:00 = 0 0 refused 104 lang.exp - - 0
lang.exp lang ..3 ; T.class sum 95:61 = 0 0 refused 104 lang.exp - - 0
T.class zeros 262145*00 = 0 0 too long T.class
list twice ; U.class sum = 0 0 refused 202 U.class p/T - 0
list no-lang ; p.exp export-file = 0 0 refused 207 list - - 0
list two-lang = 0 0 refused 202 lang.exp - - 0
list alone ; T.class sum 95:61 = 0 0 refused 207 list - - 0
T.class sum 72:29 = 0 0 refused 304 T.class p/T f(S)S 0 # synchronized
T.class sum 95:61 72:29 = 0 0 refused 304 T.class p/T f(S)S 0
T.class sum 85:01 = 0 0 refused 405 T.class p/T f(S)S 0 # a max_stack of 258
T.class sum 95:61 85:01 = 0 0 refused 303 T.class p/T f(S)S 2
T.class sum 93:01 94:00 95:00 96:00 = 0 0 refused 502 T.class p/T f(S)S 4 # aconst_null, three nops, ireturn
T.class sum 93:04 95:04 = 0 0 refused 503 T.class p/T f(S)S 2 # three constants
T.class initialiser = 0 0 refused 308 T.class p/T <clinit>()V 0 # a nop
T.class initialiser 78:28 = 0 0 refused 304 T.class p/T <clinit>()V 0 # and synchronized
T.class of-methods 127 S = done # equals of java/lang/Object has token 0
T.class of-methods 128 S = 0 0 refused 413 T.class p/T - 0
T.class of-methods 127 C = 0 0 refused 301 T.class p/T ah(C)V 0
T.class of-methods 128 C = 0 0 refused 301 T.class p/T ah(C)V 0 # a char comes before a limit
words - = 0 0 usage
words convert list = 0 0 usage
words convert list out out = 0 0 usage
words Convert list out = 0 0 usage
words make 7 = 0 0 usage
words make 7 0 = 0 0 usage
words make 7 251 = 0 0 usage
words make 7 0003 = 0 0 usage
words make x 3 = 0 0 usage
words make 4294967296 3 = 0 0 usage
list none ; lang.exp none ; T.class none = 0 0 absent list
T.class none = 0 0 absent T.class";

/// Rules 601 to 609, each where it is broken, and where an operand lies just inside: then the package is converted.
const RANGES: &str = "\
T.class of-code (S)S 1A 04 60 10 0A A2 00 05 04 AC 03 AC = 0 0 refused 601 T.class p/T f(S)S 5 # a + 1 < 10
T.class of-code (S)S 1A 10 0A A2 00 05 04 AC 03 AC = done # a < 10
T.class of-code (S)S 1A 12 08 7E 08 A4 00 05 04 AC 03 AC = 0 0 refused 601 T.class p/T f(S)S 5 # (a & 0xFFFF) > 5
T.class of-code (S)S 1A 12 08 7E 93 AC = done # (short) (a & 0xFFFF)
T.class of-code (B)S 1A 11 7F 80 60 99 00 05 04 AC 03 AC = done # to 32,767
T.class of-code (B)S 1A 11 7F 81 60 99 00 05 04 AC 03 AC = 0 0 refused 601 T.class p/T f(B)S 5
T.class of-code (B)S 1A 11 80 80 60 99 00 05 04 AC 03 AC = done # from -32,768
T.class of-code (B)S 1A 11 80 7F 60 99 00 05 04 AC 03 AC = 0 0 refused 601 T.class p/T f(B)S 5
T.class of-code (S)S 1A 08 7E B2 00 1C 60 99 00 05 04 AC 03 AC = done # (a & 5) + k, a constant
T.class of-code (S)S 1A 08 7E B2 00 0C 60 99 00 05 04 AC 03 AC = 0 0 refused 601 T.class p/T f(S)S 7 # (a & 5) + s
T.class of-code (SS)S 1A 1B 60 05 6C 93 AC = 0 0 refused 602 T.class p/T f(SS)S 4 # (a + b) / 2
T.class of-code (SS)S 1A 1B 68 05 70 93 AC = 0 0 refused 602 T.class p/T f(SS)S 4 # (a * b) % 2
T.class of-code (SS)S 1A 1B 6C 93 AC = done # a / b
T.class of-code (S)S 1A 12 08 7E 04 7A 93 AC = 0 0 refused 603 T.class p/T f(S)S 5 # (a & 0xFFFF) >> 1
T.class of-code (S)S 1A 12 08 7E 04 7C 93 AC = 0 0 refused 603 T.class p/T f(S)S 5 # (a & 0xFFFF) >>> 1
T.class of-code (S)S 1A 10 14 7C 93 AC = done # a >>> 20
T.class of-code (S)S 1A 04 60 AB 00 00 00 09 00 00 00 00 03 AC = 0 0 refused 604 T.class p/T f(S)S 3
T.class of-code (S)S 1A AB 00 00 00 00 00 0B 00 00 00 00 03 AC = done
T.class of-code (S)[B 1A 1A 60 BC 08 B0 = 0 0 refused 605 T.class p/T f(S)[B 3 # new byte[a + a]
T.class of-code (S)[B 1A BC 08 B0 = done
T.class of-code ([BS)B 2A 1B 05 64 33 AC = 0 0 refused 606 T.class p/T f([BS)B 4 # b[o - 2]
T.class of-code ([BS)B 2A 1B 04 64 33 AC = done # b[o - 1]
T.class of-code ([BS)B 2A 1B 12 08 7E 04 60 33 AC = 0 0 refused 606 T.class p/T f([BS)B 7 # to 65,536
T.class of-code ([BS)B 2A 1B 12 08 7E 33 AC = done # to 65,535
T.class of-code (S)V 1A 04 60 B3 00 0C B1 = 0 0 refused 607 T.class p/T f(S)V 3 # s = a + 1
T.class of-code (S)V 1A 04 60 11 00 80 05 B8 00 18 B1 = 0 0 refused 607 T.class p/T f(S)V 7 # g(a + 1, 128, 2)
T.class of-code ()V 04 11 00 80 05 B8 00 18 B1 = 0 0 refused 608 T.class p/T f()V 5
T.class of-code ()V 04 10 7F 05 B8 00 18 B1 = 0 0 refused 609 T.class p/T f()V 4
T.class of-code ()V 04 10 7F 04 B8 00 18 B1 = done
T.class of-code (S)B 1A AC = 0 0 refused 608 T.class p/T f(S)B 1
T.class of-code ()V 05 B3 00 14 B1 = 0 0 refused 609 T.class p/T f()V 1 # z = 2
T.class of-code ([ZS)V 2A 1B 05 54 B1 = 0 0 refused 609 T.class p/T f([ZS)V 3 # z[o] = 2
T.class of-code ([ZS)V 2A 1B 04 54 B1 = done
T.class of-code (S)S 1A 04 60 B3 00 0C 01 AC = 0 0 refused 502 T.class p/T f(S)S 7 # a wrong type comes before 607 at 3";

/// Each call of the shelf fails, and each of the sink.
const FAULTS: &str = "\
shelf 0 = 0 0 shelf fault list
shelf 1 = 1 0 shelf fault lang.exp
shelf 2 = 2 0 shelf fault T.class
shelf 3 = 3 0 shelf fault out/Header.cap
shelf 4 = 4 0 shelf fault out/Directory.cap
shelf 5 = 5 0 shelf fault out/Import.cap
shelf 6 = 6 0 shelf fault out/ConstantPool.cap
shelf 7 = 7 0 shelf fault out/Class.cap
shelf 8 = 8 0 shelf fault out/Method.cap
shelf 9 = 9 0 shelf fault out/StaticField.cap
shelf 10 = 10 0 shelf fault out/RefLocation.cap
shelf 11 = 11 0 shelf fault out/Export.cap
shelf 12 = 12 0 shelf fault out/Descriptor.cap
shelf 13 = 13 0 shelf fault out/p.exp
put 0 = 14 0 sink fault
put 1 = 14 14 sink fault
put 2 = 14 31 sink fault
put 3 = 14 45 sink fault
put 4 = 14 64 sink fault
put 5 = 14 77 sink fault
put 6 = 14 91 sink fault
put 7 = 14 110 sink fault
put 8 = 14 128 sink fault
put 9 = 14 142 sink fault
put 10 = 14 160 sink fault";

/// What a case says of a file, a call or the words; the second where it says nothing.
fn said<'t>(case: &'t str, of: &str, otherwise: &'t str) -> &'t str {
    for part in case.split(" ; ") {
        let (name, rest) = cut(part, " ");
        if name == of {
            return rest;
        }
    }
    otherwise
}

/// The number of a call that fails, or none.
fn failing(alloc: Global, word: &str) -> Result<Row<u32>, NoMemory> {
    let mut row = Row::new(alloc);
    if !word.is_empty() {
        row.push(number(word)?)?;
    }
    Ok(row)
}

fn words_of(alloc: Global, words: &str) -> Result<Row<Bytes>, NoMemory> {
    let mut row = Row::new(alloc);
    if words != "-" {
        for word in words.split(" ") {
            row.push(Bytes::copy_of(alloc, word.as_bytes())?)?;
        }
    }
    Ok(row)
}

/// Puts a file that is read on the shelf.
fn put_file(alloc: Global, shelf: &mut MemShelf, name: &str, bytes: &str) -> Result<(), NoMemory> {
    if bytes == "none" {
        return Ok(());
    }
    let bytes = bytes_of(alloc, bytes)?;
    shelf.add(name.as_bytes(), bytes.as_slice())
}

fn put_files(alloc: Global, shelf: &mut MemShelf, case: &str) -> Result<(), NoMemory> {
    for line in READ.lines() {
        let (name, bytes) = cut(line, " ");
        put_file(alloc, shelf, name, said(case, name, bytes))?;
    }
    Ok(())
}

fn shelf_of(alloc: Global, case: &str) -> Result<MemShelf, NoMemory> {
    let mut shelf = MemShelf::new(alloc, failing(alloc, said(case, "shelf", ""))?);
    put_files(alloc, &mut shelf, case)?;
    Ok(shelf)
}

fn sink_of(alloc: Global, failing_put: &str) -> Result<MemSink, NoMemory> {
    let mut sink = MemSink::new(alloc, failing(alloc, failing_put)?);
    sink.reserve()?;
    Ok(sink)
}

/// Whether a file is whole, or none where these bytes are.
fn is_file(alloc: Global, shelf: &MemShelf, name: &str, bytes: &str) -> Result<bool, NoMemory> {
    let found = shelf.get(name.as_bytes());
    if bytes == "none" {
        return Ok(found.is_none());
    }
    let bytes = bytes_of(alloc, bytes)?;
    Ok(found == Some(bytes.as_slice()))
}

/// Whether a shelf has the files of the calls before this one whole, and none of the others.
fn stand_before(alloc: Global, shelf: &MemShelf, case: &str, call: u32) -> Result<bool, NoMemory> {
    for line in WRITTEN.lines() {
        let (at, file) = cut(line, " ");
        let (name, bytes) = cut(file, " ");
        let bytes = if number(at)? < call {
            said(case, name, bytes)
        } else {
            "none"
        };
        if !is_file(alloc, shelf, name, bytes)? {
            return Ok(false);
        }
    }
    Ok(true)
}

/// Whether these bytes are the line that a run ends with.
fn is_end(bytes: &[u8], end: &str) -> bool {
    let line = if end == "usage" { USAGE } else { end };
    match bytes {
        [] => end == "-",
        [front @ .., b'\n'] => front == line.as_bytes(),
        _ => false,
    }
}

/// Whether these bytes are the first so many that are printed.
fn is_printed(bytes: &[u8], length: u32) -> bool {
    match PRINTED.get(..length as usize) {
        Some(text) => bytes == text.as_bytes(),
        None => false,
    }
}

/// Runs the command of a case, and tells whether it prints and ends as wanted.
fn ends_so(
    alloc: Global,
    shelf: &mut MemShelf,
    case: &str,
    length: u32,
    end: &str,
) -> Result<bool, NoMemory> {
    let words = words_of(alloc, said(case, "words", "convert list out"))?;
    let mut out = sink_of(alloc, said(case, "put", ""))?;
    let mut errors = sink_of(alloc, "")?;
    let status = run(alloc, words.items(), shelf, &mut out);
    if status_line(&status, &mut errors).is_err() {
        return Ok(false);
    }
    Ok(is_printed(out.bytes(), length) && is_end(errors.bytes(), end))
}

/// Whether a run ends as one that converts.
fn is_done(alloc: Global, case: &str) -> Result<bool, NoMemory> {
    let mut shelf = shelf_of(alloc, case)?;
    let words = words_of(alloc, "convert list out")?;
    let mut out = sink_of(alloc, "")?;
    Ok(matches!(
        run(alloc, words.items(), &mut shelf, &mut out),
        Status::Done
    ))
}

/// Whether a run is as wanted.
fn is_so(alloc: Global, case: &str, wanted: &str) -> Result<bool, NoMemory> {
    if wanted == "done" {
        return is_done(alloc, case);
    }
    let (call, wanted) = cut(wanted, " ");
    let (length, end) = cut(wanted, " ");
    let call = number(call)?;
    let length = number(length)?;
    let mut shelf = shelf_of(alloc, case)?;
    if !ends_so(alloc, &mut shelf, case, length, end)? {
        return Ok(false);
    }
    stand_before(alloc, &shelf, case, call)
}

/// The first case that goes otherwise; nothing where there is none.
fn first_wrong(alloc: Global, cases: &str) -> &str {
    for line in cases.lines() {
        let (case, wanted) = question_and_answer(line);
        match is_so(alloc, case, wanted) {
            Ok(true) => {}
            _ => return line,
        }
    }
    ""
}

#[test]
fn converts_or_refuses_and_writes_nothing(rt: HostRuntime) {
    assert_eq!(rt; first_wrong(rt.alloc(), CONVERSIONS), "");
}

#[test]
fn each_call_fails(rt: HostRuntime) {
    assert_eq!(rt; first_wrong(rt.alloc(), FAULTS), "");
}

#[test]
fn refuses_numbers_outside_their_ranges(rt: HostRuntime) {
    assert_eq!(rt; first_wrong(rt.alloc(), RANGES), "");
}
