//! The files of a conversion below a folder, and the lines to print of them. Called by whoever publishes a conversion.

ghost use Rattle.std.specs.Prelude.{◌≡◌, ◌++◌, ◌∷◌, [], codes, IfOk};
ghost use Rattle.cjc_cmd_convert.specs.Publication.{last_part, files_made, named, where_there, file_line, publication};
ghost use Rattle.cjc_cmd_convert.specs.Publication.{with_files};

use cjc_convert::capwrite::CapFiles;
use cjc_shelf::bytes::{Bytes, NoMemory, Out, Row};
use cjc_shelf::command::{File, Todo};
use itoa::Buffer;
use std::alloc::Global;
use std::mem;

/// The files that are made of a package of this name, below the folder, and a line for each.
pub fn publication(
    alloc: Global,
    dir: &[u8],
    package_name: &[u8],
    mut caps: CapFiles,
    mut export: Bytes,
) -> Result<Todo, NoMemory>
    ensures { IfOk result (λ todo. todo ≡ publication dir.now (files_made package_name.now caps export)) }
{
    let name = export_name(alloc, package_name)?;
    let mut todo = Todo {
        files: Row::new(alloc),
        lines: Row::new(alloc),
    };
    put_file(alloc, dir, &mut todo, b"Header.cap", &mut caps.header)?;
    put_file(alloc, dir, &mut todo, b"Directory.cap", &mut caps.directory)?;
    put_where_there(alloc, dir, &mut todo, b"Applet.cap", &mut caps.applet)?;
    put_file(alloc, dir, &mut todo, b"Import.cap", &mut caps.import)?;
    put_file(alloc, dir, &mut todo, b"ConstantPool.cap", &mut caps.pool)?;
    put_file(alloc, dir, &mut todo, b"Class.cap", &mut caps.class)?;
    put_file(alloc, dir, &mut todo, b"Method.cap", &mut caps.method)?;
    put_file(alloc, dir, &mut todo, b"StaticField.cap", &mut caps.statics)?;
    put_file(
        alloc,
        dir,
        &mut todo,
        b"RefLocation.cap",
        &mut caps.locations,
    )?;
    put_where_there(alloc, dir, &mut todo, b"Export.cap", &mut caps.export)?;
    put_file(
        alloc,
        dir,
        &mut todo,
        b"Descriptor.cap",
        &mut caps.descriptor,
    )?;
    put_file(alloc, dir, &mut todo, name.items(), &mut export)?;
    Ok(todo)
}

fn last_part(name: &[u8]) -> &[u8]
    ensures { result.now ≡ last_part name.now }
{
    let mut part = name;
    let mut left = name;
    while let [first, rest @ ..] = left {
        if *first == b'/' {
            part = rest;
        }
        left = rest;
    }
    part
}

// Takes the bytes out of their place.
fn put_file(
    alloc: Global,
    dir: &[u8],
    todo: &mut Todo,
    name: &[u8],
    bytes: &mut Bytes,
) -> Result<(), NoMemory>
    ensures { IfOk result (λ _. todo.new ≡ with_files dir.now todo.old (named name.now bytes.old ∷ [])) }
{
    let line = line_of(alloc, name, bytes)?;
    let name = name_below(alloc, dir, name)?;
    let bytes = mem::replace(bytes, Row::new(alloc));
    todo.files.push(File { name, bytes })?;
    todo.lines.push(line)?;
    Ok(())
}

fn put_where_there(
    alloc: Global,
    dir: &[u8],
    todo: &mut Todo,
    name: &[u8],
    bytes: &mut Option<Bytes>,
) -> Result<(), NoMemory>
    ensures { IfOk result (λ _. todo.new ≡ with_files dir.now todo.old (where_there name.now bytes.old)) }
{
    match bytes {
        Some(bytes) => put_file(alloc, dir, todo, name, bytes),
        None => Ok(()),
    }
}

fn export_name(alloc: Global, package_name: &[u8]) -> Result<Bytes, NoMemory>
    ensures { IfOk result (λ name. name ≡ last_part package_name.now ++ codes ".exp") }
{
    let mut name = Out::new(alloc);
    name.put_slice(last_part(package_name))?;
    name.put_slice(b".exp")?;
    Ok(name.finish())
}

fn name_below(alloc: Global, dir: &[u8], name: &[u8]) -> Result<Bytes, NoMemory>
    ensures { IfOk result (λ below. below ≡ dir.now ++ codes "/" ++ name.now) }
{
    let mut below = Out::new(alloc);
    below.put_slice(dir)?;
    below.put_slice(b"/")?;
    below.put_slice(name)?;
    Ok(below.finish())
}

fn line_of(alloc: Global, name: &[u8], bytes: &Bytes) -> Result<Bytes, NoMemory>
    ensures { IfOk result (λ line. line ≡ file_line (named name.now bytes.now)) }
{
    let mut line = Out::new(alloc);
    let mut count = Buffer::new();
    line.put_slice(name)?;
    line.put_slice(b" ")?;
    line.put_slice(count.format(bytes.items().len()).as_bytes())?;
    line.put_slice(b"\n")?;
    Ok(line.finish())
}
