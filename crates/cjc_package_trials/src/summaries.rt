//! Packages that are made from a number, a line each: the words of the command, and ` = ` with the lines that it
//! prints.

use crate::runs::says;
use cjc_bytes::{NoMemory, Row};
use cjc_cases::question_and_answer;
use cjc_shelf::MemShelf;
use std::alloc::Global;
use std::test::*;

const SUMMARIES: &str = "\
make 7 3 = classes 3, methods 9, method bytes 100, calls 3, instructions 60 54, last 4491, agree
make 7 250 = classes 250, methods 750, method bytes 8251, calls 250, instructions 5369 4869, last 8984, agree";

/// A shelf of which each call fails, so that no command ends well that reads or writes a file.
fn failing_shelf(alloc: Global) -> Result<MemShelf, NoMemory> {
    let mut failing = Row::new(alloc);
    for call in 0..100 {
        failing.push(call)?;
    }
    Ok(MemShelf::new(alloc, failing))
}

/// Whether a command prints what its line says.
fn is_so(alloc: Global, line: &str) -> Result<bool, NoMemory> {
    let (command, wanted) = question_and_answer(line);
    let mut shelf = failing_shelf(alloc)?;
    says(alloc, &mut shelf, command, wanted)
}

/// The first line of which what it says is not so; nothing where there is none.
fn first_wrong(alloc: Global, cases: &'static str) -> &'static str {
    for line in cases.lines() {
        match is_so(alloc, line) {
            Ok(true) => {}
            _ => return line,
        }
    }
    ""
}

#[test]
fn makes_converts_and_runs(rt: HostRuntime) {
    assert_eq!(rt; first_wrong(rt.alloc(), SUMMARIES), "");
}
