//! What no contract tells: what the system's files hold, and what a stream of the system gets.

use cjc_run::bytes::NoMemory;
use cjc_run::shelf::{
    CleanShelf, DiskShelf, LONGEST, ReadEnd, Shelf, Sink, SinkFailed, StdSink, WriteEnd,
};
use cjc_tests_files::cases::{cut, number, question_and_answer};
use std::alloc::Global;
use std::io::{self, ErrorKind, Write};
use std::test::*;
use std::{env, fs, process};

/// Takes at most `step` bytes at a call, and fails once it has `room` bytes.
#[derive(Drop)]
struct Slow {
    taken: Vec<u8>,
    step: usize,
    room: usize,
}

impl Write for Slow {
    fn write(&mut self, buf: &[u8]) -> io::Result<usize> {
        let free = self.room.saturating_sub(self.taken.len());
        if free == 0 {
            return Err(io::Error::from(ErrorKind::BrokenPipe));
        }
        let count = buf.len().min(self.step).min(free);
        self.taken.extend_from_slice(&buf[..count])?;
        Ok(count)
    }

    fn flush(&mut self) -> io::Result<()> {
        Ok(())
    }
}

/// Puts the pieces in order, up to the first that fails.
fn put_pieces(stream: &mut Slow, pieces: &[&[u8]]) -> Result<(), SinkFailed> {
    let mut sink = StdSink::new(stream);
    for piece in pieces {
        sink.put(piece)?;
    }
    Ok(())
}

const TEXT: &str = "one line\nanother\n";

const PIECES: [&[u8]; 3] = [b"one line\n", b"", b"another\n"];

/// How many bytes a stream takes at a call, how many it has room for, and how many of the text it gets.
const STREAMS: &str = "\
1 17 = 17
3 17 = 17
100 100 = 17
3 16 = 16 # all but the line feed
4 7 = 7 # one lin
4 0 = 0
0 17 = 0";

/// Whether a stream gets so many bytes, and the last put succeeds exactly where these are all.
fn gets(alloc: Global, step: u32, room: u32, length: u32) -> bool {
    let mut stream = Slow {
        taken: Vec::new(alloc),
        step: step as usize,
        room: room as usize,
    };
    let is_done = put_pieces(&mut stream, &PIECES).is_ok();
    match TEXT.get(..length as usize) {
        Some(text) => stream.taken.as_slice() == text.as_bytes() && is_done == (length == 17),
        None => false,
    }
}

fn is_got(alloc: Global, case: &str) -> Result<bool, NoMemory> {
    let (question, length) = question_and_answer(case);
    let (step, room) = cut(question, " ");
    Ok(gets(alloc, number(step)?, number(room)?, number(length)?))
}

/// The first case that goes otherwise; nothing where there is none.
fn first_wrong(alloc: Global, cases: &str) -> &str {
    for case in cases.lines() {
        match is_got(alloc, case) {
            Ok(true) => {}
            _ => return case,
        }
    }
    ""
}

#[test]
fn a_stream_gets_all_in_order_or_a_prefix(rt: HostRuntime) {
    assert_eq!(rt; first_wrong(rt.alloc(), STREAMS), "");
}

/// Whether a file is read so.
fn holds<S: Shelf>(alloc: Global, shelf: &mut S, name: &[u8], bytes: &[u8]) -> bool {
    match shelf.read(alloc, name) {
        Ok(read) => read.items() == bytes,
        Err(_) => false,
    }
}

/// Whether a file is not there.
fn is_absent<S: Shelf>(alloc: Global, shelf: &mut S, name: &[u8]) -> bool {
    matches!(shelf.read(alloc, name), Err(ReadEnd::Absent))
}

/// Whether a file is written.
fn writes<S: Shelf>(shelf: &mut S, name: &[u8], bytes: &[u8]) -> bool {
    shelf.write(name, bytes).is_ok()
}

/// Whether a file can't be written, since the outside fails.
fn fails<S: Shelf>(shelf: &mut S, name: &[u8]) -> bool {
    matches!(shelf.write(name, b"bytes"), Err(WriteEnd::Failed))
}

fn are_kept(alloc: Global, shelf: &mut CleanShelf) -> bool {
    shelf.add(b"first", b"\0\xff").is_ok()
        && writes(shelf, b"second", b"short")
        && writes(shelf, b"second", b"other")
        && holds(alloc, shelf, b"first", b"\0\xff")
        && holds(alloc, shelf, b"second", b"other")
        && is_absent(alloc, shelf, b"third")
}

#[test]
fn files_in_memory_are_written_and_read(rt: HostRuntime) {
    let mut shelf = CleanShelf::new(rt.alloc());
    assert!(rt; are_kept(rt.alloc(), &mut shelf));
}

/// So many bytes, all but one of the values among them.
fn long_file(alloc: Global, length: usize) -> Result<Vec<u8>, Fail> {
    let mut bytes = Vec::new(alloc);
    for at in 0..length {
        bytes.push((at % 251) as u8)?;
    }
    Ok(bytes)
}

/// Whether files are written, also where one is, and read, up to the longest.
fn are_written<S: Shelf>(
    alloc: Global,
    shelf: &mut S,
    first: &str,
    second: &str,
    long: &[u8],
) -> bool {
    writes(shelf, first.as_bytes(), long)
        && writes(shelf, second.as_bytes(), long)
        && writes(shelf, second.as_bytes(), b"\0\xff short\n")
        && holds(alloc, shelf, first.as_bytes(), long)
        && holds(alloc, shelf, second.as_bytes(), b"\0\xff short\n")
}

/// Whether a file that is too long, one that is not there, a name of the system's and a folder are told apart.
fn are_told<S: Shelf>(alloc: Global, shelf: &mut S, long: &str, other: &str, folder: &str) -> bool {
    matches!(shelf.read(alloc, long.as_bytes()), Err(ReadEnd::TooLong))
        && is_absent(alloc, shelf, other.as_bytes())
        && is_absent(alloc, shelf, b"\xff")
        && matches!(shelf.read(alloc, folder.as_bytes()), Err(ReadEnd::Failed))
}

/// Whether nothing is written below what is not there, to a folder, or by a name that is no text.
fn are_refused<S: Shelf>(shelf: &mut S, below: &str, folder: &str) -> bool {
    fails(shelf, below.as_bytes()) && fails(shelf, folder.as_bytes()) && fails(shelf, b"\xff")
}

/// An empty folder of this process.
fn new_folder(rt: &HostRuntime) -> Result<String, Fail> {
    let name = format!(in rt.alloc(); "cjc_shelf_{}", process::id(rt.process()))?;
    let path = env::temp_dir(rt)?.join(rt.alloc(), name.as_str())?;
    let folder = path.as_str();
    if fs::exists(rt, folder)? {
        fs::remove_dir_all(rt, folder)?;
    }
    fs::create_dir(rt, folder)?;
    Ok(folder.to_string(rt.alloc())?)
}

#[test]
fn files_of_the_system_are_written_and_read(rt: HostRuntime) -> Result<(), Fail> {
    let alloc = rt.alloc();
    let folder = new_folder(&rt)?;
    let first = format!(in alloc; "{folder}/first")?;
    let second = format!(in alloc; "{folder}/second")?;
    let other = format!(in alloc; "{folder}/other")?;
    let below = format!(in alloc; "{folder}/none/file")?;
    let mut shelf = DiskShelf::new(&rt);
    let long = long_file(alloc, LONGEST)?;
    assert!(rt; are_written(alloc, &mut shelf, first.as_str(), second.as_str(), &long));
    let longer = long_file(alloc, LONGEST + 1)?;
    fs::write(&rt, first.as_str(), longer.as_slice())?;
    assert!(rt;
        are_told(
            alloc,
            &mut shelf,
            first.as_str(),
            other.as_str(),
            folder.as_str()
        )
    );
    assert!(rt; are_refused(&mut shelf, below.as_str(), folder.as_str()));
    fs::remove_dir_all(&rt, folder.as_str())?;
    Ok(())
}
