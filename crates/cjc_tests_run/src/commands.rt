//! Commands over a folder in memory: each once where all is well. Other tests make commands fail there.

use cjc_run::bytes::{Bytes, NoMemory, Row};
use cjc_run::shelf::{MemShelf, MemSink};
use cjc_run::{run, status_line};
use cjc_tests_rules::files::{LANG, SUM};
use std::alloc::Global;
use std::test::*;

const LIST: &[u8] = b"package p A000000001 1.0\nexport lang.exp\nclass T.class\n";

/// A folder of the list, what it names, a script, and a text that names the one package. The calls with these numbers
/// fail.
pub(crate) fn folder(alloc: Global, failing: Row<u32>) -> Result<MemShelf, NoMemory> {
    let mut shelf = MemShelf::new(alloc, failing);
    shelf.add(b"list", LIST)?;
    shelf.add(b"lang.exp", LANG)?;
    shelf.add(b"T.class", SUM)?;
    shelf.add(b"script", b"call p/T f(S)S 32767\n")?;
    shelf.add(b"group", b"list out\n")?;
    Ok(shelf)
}

/// A sink of which the puts with these numbers fail.
pub(crate) fn sink(alloc: Global, failing: Row<u32>) -> Result<MemSink, NoMemory> {
    let mut sink = MemSink::new(alloc, failing);
    sink.reserve()?;
    Ok(sink)
}

fn words_of(alloc: Global, words: &str) -> Result<Row<Bytes>, NoMemory> {
    let mut row = Row::new(alloc);
    for word in words.split(" ") {
        row.push(Bytes::copy_of(alloc, word.as_bytes())?)?;
    }
    Ok(row)
}

/// Makes a command, and gives the line with which it ends.
pub(crate) fn line_of(
    alloc: Global,
    shelf: &mut MemShelf,
    command: &str,
    out: &mut MemSink,
) -> Result<MemSink, NoMemory> {
    let words = words_of(alloc, command)?;
    let mut errors = sink(alloc, Row::new(alloc))?;
    let status = run(alloc, words.items(), shelf, out);
    match status_line(&status, &mut errors) {
        Ok(()) => Ok(errors),
        Err(_) => Err(NoMemory),
    }
}

/// Whether a command prints this and ends without a line.
fn says(
    alloc: Global,
    shelf: &mut MemShelf,
    command: &str,
    wanted: &str,
) -> Result<bool, NoMemory> {
    let mut out = sink(alloc, Row::new(alloc))?;
    let errors = line_of(alloc, shelf, command, &mut out)?;
    Ok(errors.bytes().is_empty() && out.bytes() == wanted.as_bytes())
}

/// Commands one after the other in one folder, and what they print.
const COMMANDS: [(&str, &str); 9] = [
    (
        "convert list out",
        "Header.cap 20\nDirectory.cap 36\nImport.cap 14\nConstantPool.cap 5\nClass.cap 15\nMethod.cap 10\n\
        StaticField.cap 13\nRefLocation.cap 7\nExport.cap 10\nDescriptor.cap 29\np.exp 130\n",
    ),
    ("check list out", "ok\n"),
    ("jvm list script 100", "result -32768\ndone\n"),
    ("card list out script 100", "result -32768\ndone\n"),
    ("verify list out", "ok\n"),
    ("link group script 100", "result -32768\ndone\n"),
    ("linkjvm group script 100", "result -32768\ndone\n"),
    ("compat lang.exp lang.exp", "ok\n"),
    (
        "make 7 3",
        "classes 3\nmethods 9\nmethod bytes 100\ncalls 3\ninstructions 60 54\nlast 4491\nagree\n",
    ),
];

/// The first command that says otherwise; nothing where there is none.
fn first_wrong(alloc: Global) -> Result<&'static str, NoMemory> {
    let mut shelf = folder(alloc, Row::new(alloc))?;
    for (command, wanted) in COMMANDS {
        if !says(alloc, &mut shelf, command, wanted)? {
            return Ok(command);
        }
    }
    Ok("")
}

#[test]
fn each_command_is_run(rt: HostRuntime) -> Result<(), Fail> {
    let wrong = first_wrong(rt.alloc())?;
    assert_eq!(rt; wrong, "");
    Ok(())
}
