//! Writes and prints what was computed. Nothing here takes memory.

ghost use Rattle.std.specs.Prelude.{◌≡◌, ◌<◌, List, length, map};
ghost use Rattle.std.specs.List.{concat};
ghost use Rattle.cjc_shelf.specs.Sink.{Puts};
ghost use Rattle.cjc_shelf.specs.Shelf.{Files};
ghost use Rattle.cjc_shelf.specs.declared.command.status.File.{File as Named};
ghost use Rattle.cjc_shelf.specs.Command.Publish.{WritesAll, Publishes, status_of, written_files, AreDistinct, Stand};

use crate::command::status::{File, Status, Todo};
use crate::{Shelf, Sink, SinkFailed, WriteEnd};
use cjc_bytes::Bytes;

// The file, by its index, at which the writes stopped.
#[derive(Clone, Copy, Drop)]
struct Stop {
    at: usize,
    end: WriteEnd,
}

fn write_all<S: Shelf>(shelf: &mut S, files: &[File]) -> Result<(), Stop>
    ensures { WritesAll files.now (S.shelved shelf.old) (S.shelved shelf.new) result }
{
    for (at, file) in files.iter().enumerate() {
        match shelf.write(file.name.items(), file.bytes.items()) {
            Ok(()) => {}
            Err(end) => return Err(Stop { at, end }),
        }
    }
    Ok(())
}

fn put_all<O: Sink>(out: &mut O, lines: &[Bytes]) -> Result<(), SinkFailed>
    ensures { Puts (concat lines.now) (O.sunk out.old) (O.sunk out.new) result }
{
    for line in lines {
        match out.put(line.items()) {
            Ok(()) => {}
            Err(SinkFailed) => return Err(SinkFailed),
        }
    }
    Ok(())
}

// The name is moved out, so that no memory is taken.
fn stopped(todo: Todo, stop: Stop) -> Status
    requires { stop.at < length todo.files }
    ensures { result ≡ status_of todo.files stop.at stop.end }
{
    match stop.end {
        WriteEnd::NoMemory => Status::NoMemory,
        WriteEnd::Failed => {
            let mut files = todo.files.into_vec();
            let file = files.swap_remove(stop.at);
            Status::ShelfFault(file.name)
        }
    }
}

/// Writes the files in order, then prints the lines in order.
pub fn publish<S: Shelf, O: Sink>(shelf: &mut S, out: &mut O, todo: Todo) -> Status
    ensures { Publishes todo (S.shelved shelf.old) (S.shelved shelf.new) (O.sunk out.old) (O.sunk out.new) result }
{
    match write_all(shelf, todo.files.items()) {
        Ok(()) => {}
        Err(stop) => return stopped(todo, stop),
    }
    match put_all(out, todo.lines.items()) {
        Ok(()) => Status::Done,
        Err(SinkFailed) => Status::SinkFault,
    }
}

/// Puts the pieces in order.
pub fn put_pieces<O: Sink>(pieces: &[&[u8]], out: &mut O) -> Result<(), SinkFailed>
    ensures { Puts (concat (map (λ piece. piece.now) pieces.now)) (O.sunk out.old) (O.sunk out.new) result }
{
    for piece in pieces {
        match out.put(piece) {
            Ok(()) => {}
            Err(SinkFailed) => return Err(SinkFailed),
        }
    }
    Ok(())
}

/// Files that are written under names of their own all stand.
pub fn writes()
    ensures { (list : List Named) (files : Files) → AreDistinct list → Stand (written_files list files) list }
{}
