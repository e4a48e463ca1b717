//! A conversion of files in memory, as all cases call it.

ghost use Rattle.std.specs.Prelude.{◌≤◌, ◌^◌, length, All, IsTrue};

use cjc_bytes::{Bytes, Fault, Row};
use cjc_conversion::{Converted, convert, read_list};
use std::alloc::Global;

fn are_short(files: &Row<Bytes>) -> bool
    ensures { IsTrue result → All (λ bytes. length bytes ≤ 2 ^ 29) files.now }
{
    files
        .items()
        .iter()
        .all(|file| file.items().len() <= 536870912)
}

/// What is written for the files of a list of this text. Other files than it names, or longer ones, end a case as want of memory
/// does.
pub(crate) fn converted(
    alloc: Global,
    text: &[u8],
    files: &Row<Bytes>,
) -> Result<Converted, Fault> {
    if text.len() > 0xFFFF_FFFF {
        return Err(Fault::NoMemory);
    }
    let list = read_list(alloc, b"list", text)?;
    let is_whole = files.items().len() == list.lines.items().len();
    if is_whole && are_short(files) {
        convert(alloc, &list, files)
    } else {
        Err(Fault::NoMemory)
    }
}
