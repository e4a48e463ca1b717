//! A shelf in memory for a made package. Called by making.rt. It knows neither list nor class file.

ghost use Rattle.std.specs.Prelude.{◌≡◌, ◌≤◌, IfOk, OnOk};
ghost use Rattle.cjc_cmd_card.specs.Shelf.Command.Publish.{written_files};
ghost use Rattle.cjc_cmd_card.specs.Shelf.Memory.{clean_shelved, files_of};
ghost use Rattle.cjc_cmd_make.specs.Report.Package.{class_file_name, made_files, named_classes, named_files};

use crate::package::package;
use cjc_cmd_convert::bytes::{Bytes, NoMemory, Out};
use cjc_cmd_convert::shelf::CleanShelf;
use cjc_cmd_convert::shelf::command::File;
use itoa::Buffer;
use std::alloc::Global;

/// The name that the list has for the file of a class.
fn class_file_name(alloc: Global, i: usize) -> Result<Bytes, NoMemory>
    ensures { IfOk result (λ name. name ≡ class_file_name i) }
{
    let mut name = Out::new(alloc);
    let mut buffer = Buffer::new();
    name.put_slice(b"C")?;
    name.put_slice(buffer.format(i).as_bytes())?;
    name.put_slice(b".class")?;
    Ok(name.finish())
}

/// Adds class files, numbered from 0 on.
fn add_classes(alloc: Global, shelf: &mut CleanShelf, classes: &[Bytes]) -> Result<(), NoMemory>
    ensures { OnOk result (files_of (clean_shelved shelf.new) ≡ written_files (named_classes 0 classes.now)
        (files_of (clean_shelved shelf.old))) }
{
    for (i, bytes) in classes.iter().enumerate() {
        let name = class_file_name(alloc, i)?;
        shelf.add(name.items(), bytes.items())?;
    }
    Ok(())
}

/// Adds the files that the list names, in the order of its lines.
fn add_named(alloc: Global, shelf: &mut CleanShelf, files: &[Bytes]) -> Result<(), NoMemory>
    ensures { OnOk result (files_of (clean_shelved shelf.new) ≡ written_files (named_files files.now)
        (files_of (clean_shelved shelf.old))) }
{
    match files {
        [lang, classes @ ..] => {
            shelf.add(b"lang.exp", lang.items())?;
            add_classes(alloc, shelf, classes)?;
            Ok(())
        }
        [] => Ok(()),
    }
}

/// A shelf that has the package of this number and size alone.
pub(crate) fn package_shelf(alloc: Global, number: u32, size: u32) -> Result<CleanShelf, NoMemory>
    requires least { 1 ≤ size }
    requires greatest { size ≤ 250 }
    ensures { IfOk result (λ shelf. files_of (clean_shelved shelf) ≡ made_files number size) }
{
    let made = package(alloc, number, size)?;
    let mut shelf = CleanShelf::new(alloc);
    shelf.add(b"list", made.list.items())?;
    add_named(alloc, &mut shelf, made.files.items())?;
    shelf.add(b"script", made.script.items())?;
    Ok(shelf)
}

/// Adds these files, the first of them first.
pub(crate) fn add_files(shelf: &mut CleanShelf, files: &[File]) -> Result<(), NoMemory>
    ensures { OnOk result (files_of (clean_shelved shelf.new) ≡ written_files files.now
        (files_of (clean_shelved shelf.old))) }
{
    for file in files {
        shelf.add(file.name.items(), file.bytes.items())?;
    }
    Ok(())
}
