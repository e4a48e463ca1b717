//! A row's run: its components, its script and its report. Called by rows.rt.
//!
//! A row has what is called, ` : ` and the bytes of the method, ` = ` and the lines of the report with `, `
//! between. What is called is the method f with arguments, `; ` between those of several calls, and further
//! lines of the script behind `, `. The bytes are a header and code, whose offset is 256 behind a short header,
//! and behind `/` the handlers. Lines that say what was so before the call are left out of the report.

use crate::components::{Shared, descriptor, made_once, method};
use crate::is_short;
use crate::names::{cell_names, class_names};
use cjc_card::bytes::{Bytes, NoMemory, Out, Row};
use cjc_card::capread::{Descriptor, Method};
use cjc_card::card_frame::parts::CellName;
use cjc_card::card_link::{ClassNames, Part};
use cjc_card::export_file::ExportTree;
use cjc_card::group::Group;
use cjc_card::runs::run;
use cjc_card::script::{Report, Script};
use cjc_tests_files::cases::{cut, octets, question_and_answer};
use cjc_tests_files::script_text::{print, read};
use std::alloc::Global;

/// Lines of a report that a row leaves out: the static cells and their array as they are at first, and the
/// first object where its fields are so.
const FIRST: [&str; 10] = [
    "",
    "static p/T.a:[S @0",
    "static p/T.o:Ljava/lang/Object; null",
    "static p/T.c:B 0",
    "static p/T.d:S 0",
    "static p/T.j:I 0",
    "static p/T.n:S 7",
    "array @0 [S 1 -2",
    "object @1 p/T p/T.b:B=0 p/T.s:S=0 p/T.i:I=0 p/T.r:Lp/T;=null",
    "object @1 p/U p/T.b:B=0 p/T.s:S=0 p/T.i:I=0 p/T.r:Lp/T;=null p/U.t:S=0",
];

/// What all rows have in common.
pub(crate) struct Fixed {
    shared: Shared,
    cells: Row<CellName>,
}

impl Drop for Fixed {
    fn drop(self) {
        let Fixed {
            shared: _shared,
            cells: _cells,
        } = self;
    }
}

impl Fixed {
    fn exports(&self) -> &[ExportTree] {
        self.shared.exports.items()
    }
}

/// What all rows have in common.
pub(crate) fn fixed_parts(alloc: Global) -> Result<Fixed, NoMemory> {
    let shared = made_once(alloc)?;
    let cells = cell_names(alloc)?;
    Ok(Fixed { shared, cells })
}

/// The method that is called, its name and its descriptor.
fn called(calls: &str) -> &str {
    let (first, _) = cut(calls, ", ");
    let (method, _) = cut(first, " ");
    method
}

fn put_call(text: &mut Out, method: &str, arguments: &str) -> Result<(), NoMemory> {
    text.put_slice(b"call p/T ")?;
    text.put_slice(method.as_bytes())?;
    if !arguments.is_empty() {
        text.put_slice(b" ")?;
        text.put_slice(arguments.as_bytes())?;
    }
    text.put_slice(b"\n")
}

fn put_calls(text: &mut Out, call: &str) -> Result<(), NoMemory> {
    let (method, arguments) = cut(call, " ");
    for arguments in arguments.split("; ") {
        put_call(text, method, arguments)?;
    }
    Ok(())
}

fn put_lines(text: &mut Out, lines: &str) -> Result<(), NoMemory> {
    if !lines.is_empty() {
        for line in lines.split(", ") {
            text.put_slice(line.as_bytes())?;
            text.put_slice(b"\n")?;
        }
    }
    Ok(())
}

fn script_text(alloc: Global, calls: &str) -> Result<Bytes, NoMemory> {
    let (call, lines) = cut(calls, ", ");
    let mut text = Out::new(alloc);
    put_calls(&mut text, call)?;
    put_lines(&mut text, lines)?;
    Ok(text.finish())
}

fn script(alloc: Global, calls: &str) -> Result<Script, NoMemory> {
    let text = script_text(alloc, calls)?;
    let bytes = text.items();
    if bytes.len() > 70000 {
        return Err(NoMemory);
    }
    match read(alloc, b"", bytes) {
        Ok(script) => Ok(script),
        Err(_) => Err(NoMemory),
    }
}

/// The bytes of a word; none where it is empty.
fn bytes_of(alloc: Global, word: &str) -> Result<Vec<u8>, NoMemory> {
    if word.is_empty() {
        Ok(Vec::new(alloc))
    } else {
        octets(alloc, word)
    }
}

/// The report of at most a thousand instructions.
fn report(
    alloc: Global,
    part: Part<'_>,
    exports: &[ExportTree],
    script: &Script,
) -> Result<Report, NoMemory> {
    if !is_short(part.class) {
        return Err(NoMemory);
    }
    let group = Group::new(alloc, part, exports)?;
    run(alloc, &group, script, 1000)
}

fn part_of<'a>(
    fixed: &'a Fixed,
    method: &'a Method,
    descriptor: &'a Descriptor,
    classes: &'a [ClassNames],
) -> Part<'a> {
    Part {
        method,
        pool: fixed.shared.pool.entries.items(),
        class: &fixed.shared.class,
        descriptor: descriptor.classes.items(),
        exports: &[],
        statics: &fixed.shared.statics,
        classes,
        cells: fixed.cells.items(),
    }
}

/// The report of a script on the components with a method and its handlers.
fn report_of(
    alloc: Global,
    fixed: &Fixed,
    calls: &str,
    code: &[u8],
    handlers: &[u8],
) -> Result<Report, NoMemory> {
    let method = method(alloc, code, handlers)?;
    let descriptor = descriptor(alloc, code)?;
    let classes = class_names(alloc, called(calls))?;
    let script = script(alloc, calls)?;
    let part = part_of(fixed, &method, &descriptor, classes.items());
    report(alloc, part, fixed.exports(), &script)
}

/// The printed report of the first part of a row.
pub(crate) fn printed(alloc: Global, fixed: &Fixed, question: &str) -> Result<Bytes, NoMemory> {
    let (calls, words) = cut(question, " : ");
    let (code, handlers) = cut(words, "/");
    let code = bytes_of(alloc, code)?;
    let handlers = bytes_of(alloc, handlers)?;
    let report = report_of(alloc, fixed, calls, code.as_slice(), handlers.as_slice())?;
    print(alloc, &report)
}

fn is_as_first(line: &[u8]) -> bool {
    FIRST.iter().any(|known| known.as_bytes() == line)
}

/// The lines of a report that are not as at first.
fn changed_lines(alloc: Global, text: &[u8]) -> Result<Bytes, NoMemory> {
    let mut left = Out::new(alloc);
    for line in text.split(|byte| *byte == b'\n') {
        if !is_as_first(line) {
            left.put_slice(line)?;
            left.put_slice(b"\n")?;
        }
    }
    Ok(left.finish())
}

/// The lines that a row wants.
fn wanted_lines(alloc: Global, wanted: &str) -> Result<Bytes, NoMemory> {
    let mut text = Out::new(alloc);
    for line in wanted.split(", ") {
        text.put_slice(line.as_bytes())?;
        text.put_slice(b"\n")?;
    }
    Ok(text.finish())
}

/// Whether these lines are left of a report where those are left out that are as at first.
fn are_left(alloc: Global, text: &[u8], wanted: &str) -> Result<bool, NoMemory> {
    let left = changed_lines(alloc, text)?;
    let wanted = wanted_lines(alloc, wanted)?;
    Ok(left.items() == wanted.items())
}

fn is_so(alloc: Global, fixed: &Fixed, row: &str) -> Result<bool, NoMemory> {
    let (question, wanted) = question_and_answer(row);
    let text = printed(alloc, fixed, question)?;
    are_left(alloc, text.items(), wanted)
}

/// The first row of which what it says is not so; nothing where there is none.
pub(crate) fn first_wrong(alloc: Global, rows: &'static str) -> &'static str {
    let Ok(fixed) = fixed_parts(alloc) else {
        return rows;
    };
    for row in rows.lines() {
        match is_so(alloc, &fixed, row) {
            Ok(true) => {}
            _ => return row,
        }
    }
    ""
}
