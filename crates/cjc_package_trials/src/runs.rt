//! A command over a folder in memory, as all cases run it, and what it says.

use crate::files::joined;
use cjc_bytes::{Bytes, NoMemory, Out, Row};
use cjc_cases::{cut, number, octets};
use cjc_run::{run, status_line};
use cjc_shelf::{MemShelf, MemSink};
use std::alloc::Global;

/// The lines of a part of a case, each with its line feed.
pub(crate) fn lines_of(alloc: Global, part: &str) -> Result<Bytes, NoMemory> {
    let mut text = Out::new(alloc);
    for line in part.split(", ") {
        text.put_slice(line.as_bytes())?;
        text.put_slice(b"\n")?;
    }
    Ok(text.finish())
}

fn words_of(alloc: Global, words: &str) -> Result<Row<Bytes>, NoMemory> {
    let mut row = Row::new(alloc);
    for word in words.split(" ") {
        row.push(Bytes::copy_of(alloc, word.as_bytes())?)?;
    }
    Ok(row)
}

fn sink_of(alloc: Global) -> Result<MemSink, NoMemory> {
    let mut sink = MemSink::new(alloc, Row::new(alloc));
    sink.reserve()?;
    Ok(sink)
}

/// Whether a command prints these lines and no end, or ends with this line and prints nothing.
pub(crate) fn says(
    alloc: Global,
    shelf: &mut MemShelf,
    command: &str,
    wanted: &str,
) -> Result<bool, NoMemory> {
    let words = words_of(alloc, command)?;
    let text = lines_of(alloc, wanted)?;
    let mut out = sink_of(alloc)?;
    let mut errors = sink_of(alloc)?;
    let status = run(alloc, words.items(), shelf, &mut out);
    if status_line(&status, &mut errors).is_err() {
        return Ok(false);
    }
    let printed = if errors.bytes().is_empty() {
        out.bytes() == text.items()
    } else {
        out.bytes().is_empty() && errors.bytes() == text.items()
    };
    Ok(printed)
}

/// What stands in the folder `out` under a name.
fn written<'s>(
    alloc: Global,
    shelf: &'s MemShelf,
    name: &str,
) -> Result<Option<&'s [u8]>, NoMemory> {
    let name = joined(alloc, "out/", name)?;
    Ok(shelf.get(name.items()))
}

/// Whether a file was written with these bytes, or is absent.
pub(crate) fn is_written(
    alloc: Global,
    shelf: &MemShelf,
    name: &str,
    wanted: &str,
) -> Result<bool, NoMemory> {
    let bytes = written(alloc, shelf, name)?;
    if wanted == "absent" {
        return Ok(bytes.is_none());
    }
    let wanted = octets(alloc, wanted)?;
    Ok(bytes == Some(wanted.as_slice()))
}

/// Whether each printed line names a file that stands with so many bytes; where there is a refusal, whether no file
/// stands.
pub(crate) fn stand(alloc: Global, shelf: &MemShelf, printed: &str) -> Result<bool, NoMemory> {
    if printed.starts_with("refused") {
        return Ok(written(alloc, shelf, "Header.cap")?.is_none());
    }
    for line in printed.split(", ") {
        let (name, length) = cut(line, " ");
        let bytes = written(alloc, shelf, name)?.unwrap_or(b"");
        if bytes.len() != number(length)? as usize {
            return Ok(false);
        }
    }
    Ok(true)
}
