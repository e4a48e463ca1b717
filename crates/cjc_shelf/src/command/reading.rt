//! Reads, each with the status that ends a run where it fails.

ghost use Rattle.std.specs.Prelude.{◌≡◌, ◌≤◌, length, IfOk};
ghost use Rattle.cjc_shelf.specs.Shelf.{longest_file};
ghost use Rattle.cjc_shelf.specs.Command.Plan.{read, read_each};
ghost use Rattle.cjc_shelf.specs.Command.Gather.{Gathers, IsSame, AreShort};

use crate::command::status::Status;
use crate::{ReadEnd, Shelf};
use cjc_bytes::{Bytes, Row};
use std::alloc::Global;

/// Reads one file.
pub fn fetch<S: Shelf>(alloc: Global, shelf: &mut S, name: &[u8]) -> Result<Bytes, Status>
    ensures gathers { Gathers (read name.now) IsSame (S.shelved shelf.old) (S.shelved shelf.new) result }
    ensures short { IfOk result (λ bytes. length bytes ≤ longest_file) }
{
    let copy = Bytes::copy_of(alloc, name)?;
    match shelf.read(alloc, name) {
        Ok(bytes) => Ok(bytes),
        Err(ReadEnd::Absent) => Err(Status::Absent(copy)),
        Err(ReadEnd::TooLong) => Err(Status::TooLong(copy)),
        Err(ReadEnd::Failed) => Err(Status::ShelfFault(copy)),
        Err(ReadEnd::NoMemory) => Err(Status::NoMemory),
    }
}

/// Reads the files of these names, in order.
pub fn fetch_each<S: Shelf>(
    alloc: Global,
    shelf: &mut S,
    names: &[Bytes],
) -> Result<Row<Bytes>, Status>
    ensures gathers { Gathers (read_each names.now) IsSame (S.shelved shelf.old) (S.shelved shelf.new) result }
    ensures count { IfOk result (λ files. length files ≡ length names.now) }
    ensures short { IfOk result AreShort }
{
    let mut files = Row::new(alloc);
    for name in names {
        let bytes = fetch(alloc, shelf, name.items())?;
        files.push(bytes)?;
    }
    Ok(files)
}
