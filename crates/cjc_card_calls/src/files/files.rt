//! `Files`: of each imported class it and what stands above it, by the number of its export file and its token.
//! Dispatch on objects of imported classes asks it.

ghost use Rattle.std.specs.Prelude.{◌≡◌, ◌+◌, ◌==◌, ℕ, Some, None, if◌then◌else◌, IfOk, OnOk};
ghost use Rattle.cjc_card_semantics.specs.Machine.Classes.{or_else, with_token};
ghost use Rattle.cjc_card_calls.specs.Files.Files.{AreFiles, classes_at, line_at, line_by, line_in, line_listed};
ghost use Rattle.cjc_card_calls.specs.Files.Files.{line_of, line_or_none, line_under};
ghost use Rattle.cjc_card_link.specs.Tables.{AreKept, loaded_of};

use crate::files::file::File;
use crate::files::named::Named;
use crate::files::upwards::line;
use cjc_card_link::Tables;
use cjc_card_semantics::bytes::{NoMemory, Row};
use cjc_card_semantics::export_file::{ExportClass, ExportTree};
use std::alloc::Global;

// No memory is there for more classes in all lines together.
const MOST: usize = 1 << 24;

/// Of each imported class, it and what stands above it.
#[derive(Drop)]
pub struct Files<'a> {
    kept: Row<File<'a>>,
    nothing: File<'a>,
}

// Takes room for so many more classes.
fn take_room(room: &mut usize, count: usize) -> Result<(), NoMemory>
    ensures { OnOk result (room.new + count ≡ room.old) }
{
    if count > *room {
        return Err(NoMemory);
    }
    *room -= count;
    Ok(())
}

// Keeps a class of a file, and what stands above it.
fn note_class<'a>(
    alloc: Global,
    names: &Named<'a>,
    room: &mut usize,
    file: &mut File<'a>,
    class: &'a ExportClass,
) -> Result<(), NoMemory>
    ensures lines { OnOk result ((x : ℕ) → line_by file.new x ≡ or_else (line_by file.old x) (if class.now.token == x
        then Some (line_of names.now class.now) else None)) }
    ensures nothing { OnOk result (file.new.nothing ≡ file.old.nothing) }
{
    let line = line(alloc, names, class)?;
    take_room(room, line.items().len())?;
    file.note(class.token, line)?;
    Ok(())
}

// The classes of a file, each with what stands above it.
fn file_of<'a>(
    alloc: Global,
    names: &Named<'a>,
    room: &mut usize,
    classes: &'a [ExportClass],
) -> Result<File<'a>, NoMemory>
    ensures { IfOk result (λ file. (x : ℕ) → line_in file x ≡ line_or_none names.now (with_token classes.now x)) }
{
    let mut file = File::new(alloc);
    for class in classes {
        note_class(alloc, names, room, &mut file, class)?;
    }
    Ok(file)
}

// Those of all files.
fn files_of<'a>(
    alloc: Global,
    names: &Named<'a>,
    trees: &'a [ExportTree],
) -> Result<Row<File<'a>>, NoMemory>
    ensures { IfOk result (λ files. (n token : ℕ) → line_at files n token ≡ line_listed names.now trees.now n token) }
{
    let mut room = MOST;
    let mut files = Row::new(alloc);
    for tree in trees {
        files.push(file_of(alloc, names, &mut room, tree.classes.items())?)?;
    }
    Ok(files)
}

impl<'a> Files<'a> {
    /// What stands above each imported class.
    pub fn new(alloc: Global, tables: &Tables<'a>) -> Result<Files<'a>, NoMemory>
        requires { AreKept tables.now }
        ensures { IfOk result (λ files. AreFiles (loaded_of tables.now) files) }
    {
        let trees = tables.trees();
        let names = Named::new(alloc, trees)?;
        let kept = files_of(alloc, &names, trees)?;
        Ok(Files {
            kept,
            nothing: File::new(alloc),
        })
    }

    /// An imported class and what stands above it; none where it is not there.
    pub fn line(&self, tree: u32, token: u8) -> &[&'a ExportClass]
        ensures { classes_at result.now ≡ line_under self.now tree token }
    {
        let file = self.kept.items().get(tree as usize);
        file.unwrap_or(&self.nothing).line(token)
    }
}
