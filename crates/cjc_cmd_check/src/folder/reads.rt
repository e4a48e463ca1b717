//! Reads the files, each after those that stand before it. Nothing here writes.

ghost use Rattle.std.specs.Prelude.{◌≡◌, ◌<◌, ◌≤◌, length, IfOk};
ghost use Rattle.cjc_shelf.specs.Command.Gather.{Gathers, IsSame, AreShort as AreShortFiles};
ghost use Rattle.cjc_shelf.specs.Shelf.{longest_file};
ghost use Rattle.cjc_cmd_check.specs.Folder.Breaks.{AreShort, ArePartsShort, AreRead, ArePartsRead};
ghost use Rattle.cjc_shelf.specs.Command.Plan.{read};
ghost use Rattle.cjc_cmd_check.specs.Folder.Reads.{plan_behind_exports, plan_behind_header, plan_behind_list};
ghost use Rattle.cjc_cmd_check.specs.Folder.Reads.{plan_behind_text, plan_of_folder, plan_of_others, plan_of_parts};
ghost use Rattle.cjc_cmd_check.specs.Folder.Reads.{component_name, tags_of};

use crate::folder::folder::{Folder, Parts};
use crate::folder::names::{component_name, component_names, export_names, tags_of};
use cjc_bytes::{Bytes, Fault, NoMemory, Row};
use cjc_list::{List, read_list};
use cjc_shelf::Shelf;
use cjc_shelf::command::{Status, fetch, fetch_each};
use std::alloc::Global;

/// Reads the components that Directory says are there.
fn gather_others<S: Shelf>(
    alloc: Global,
    dir: &[u8],
    header: Bytes,
    directory: Bytes,
    shelf: &mut S,
) -> Result<Parts, Status>
    requires { length directory < 4294967296 }
    ensures gathers { Gathers (plan_of_others dir.now header directory) IsSame (S.shelved shelf.old)
        (S.shelved shelf.new) result }
    ensures is { IfOk result (λ p. (p.header ≡ header) × (p.directory ≡ directory)) }
    ensures others { IfOk result (λ p. AreShortFiles p.others) }
    ensures read { IfOk result ArePartsRead }
{
    let tags = match tags_of(alloc, directory.items()) {
        Ok(tags) => tags,
        Err(NoMemory) => return Err(Status::NoMemory),
    };
    let names = match component_names(alloc, dir, tags.items()) {
        Ok(names) => names,
        Err(NoMemory) => return Err(Status::NoMemory),
    };
    let others = fetch_each(alloc, shelf, names.items())?;
    Ok(Parts {
        header,
        directory,
        tags,
        others,
    })
}

/// Reads a component's file in the folder.
fn fetch_component<S: Shelf>(
    alloc: Global,
    dir: &[u8],
    tag: u8,
    shelf: &mut S,
) -> Result<Bytes, Status>
    ensures gathers { Gathers (read (component_name dir.now tag)) IsSame (S.shelved shelf.old) (S.shelved shelf.new)
        result }
    ensures short { IfOk result (λ bytes. length bytes ≤ longest_file) }
{
    match component_name(alloc, dir, tag) {
        Ok(name) => fetch(alloc, shelf, name.items()),
        Err(NoMemory) => Err(Status::NoMemory),
    }
}

/// Reads the components of a folder: Header, Directory, and those whose size in Directory is not 0, by their
/// tags. Where the bytes of Directory spell none the reads end there.
///
/// # Errors
///
/// The first file that is absent, too long or can't be read; want of memory.
pub fn gather_parts<S: Shelf>(alloc: Global, dir: &[u8], shelf: &mut S) -> Result<Parts, Status>
    ensures gathers { Gathers (plan_of_parts dir.now) IsSame (S.shelved shelf.old) (S.shelved shelf.new) result }
    ensures short { IfOk result ArePartsShort }
    ensures read { IfOk result ArePartsRead }
{
    let header = fetch_component(alloc, dir, 1, shelf)?;
    let directory = fetch_component(alloc, dir, 2, shelf)?;
    gather_others(alloc, dir, header, directory, shelf)
}

/// Reads the export files of a list, and the components of a folder.
fn gather_listed<S: Shelf>(
    alloc: Global,
    dir: &[u8],
    list: List,
    shelf: &mut S,
) -> Result<Folder, Status>
    ensures gathers { Gathers (plan_behind_list dir.now list) IsSame (S.shelved shelf.old) (S.shelved shelf.new)
        result }
    ensures short { IfOk result AreShort }
    ensures read { IfOk result AreRead }
{
    let names = match export_names(alloc, list.lines.items()) {
        Ok(names) => names,
        Err(NoMemory) => return Err(Status::NoMemory),
    };
    let exports = fetch_each(alloc, shelf, names.items())?;
    let parts = gather_parts(alloc, dir, shelf)?;
    Ok(Folder {
        list,
        exports,
        parts,
    })
}

/// Reads behind the text of a list what it names.
fn gather_text<S: Shelf>(
    alloc: Global,
    name: &[u8],
    dir: &[u8],
    text: &[u8],
    shelf: &mut S,
) -> Result<Folder, Status>
    requires { length text.now < 4294967296 }
    ensures gathers { Gathers (plan_behind_text name.now dir.now text.now) IsSame (S.shelved shelf.old)
        (S.shelved shelf.new) result }
    ensures short { IfOk result AreShort }
    ensures read { IfOk result AreRead }
{
    match read_list(alloc, name, text) {
        Ok(list) => gather_listed(alloc, dir, list, shelf),
        Err(Fault::Refused(refusal)) => Err(Status::Refused(refusal)),
        Err(Fault::NoMemory) => Err(Status::NoMemory),
    }
}

/// Reads a list, its export files, and the components of a folder: Header, Directory, and those whose size in
/// Directory is not 0, by their tags. Where the bytes of Directory spell none the reads end there.
///
/// # Errors
///
/// A list that is refused, before the next file is read; the first file that is absent, too long or can't be
/// read; want of memory.
pub fn gather_folder<S: Shelf>(
    alloc: Global,
    name: &[u8],
    dir: &[u8],
    shelf: &mut S,
) -> Result<Folder, Status>
    ensures gathers { Gathers (plan_of_folder name.now dir.now) IsSame (S.shelved shelf.old) (S.shelved shelf.new)
        result }
    ensures short { IfOk result AreShort }
    ensures read { IfOk result AreRead }
{
    let text = fetch(alloc, shelf, name)?;
    gather_text(alloc, name, dir, text.items(), shelf)
}
