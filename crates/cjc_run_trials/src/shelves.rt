//! What no contract tells: what the system's files hold, and what a stream of the system gets.

use cjc_shelf::{
    CleanShelf, DiskShelf, LONGEST, ReadEnd, Shelf, Sink, SinkFailed, StdSink, WriteEnd,
};
use std::io::{self, ErrorKind, Write};
use std::test::Fail;
use std::{env, fs, process};

/// Takes at most `step` bytes at a call, and fails once it has `room` bytes.
#[derive(Drop)]
struct Slow {
    taken: Vec<u8>,
    step: usize,
    room: usize,
}

impl Write for Slow {
    fn write(&mut self, buf: &[u8]) -> io::Result<usize> {
        let free = self.room.saturating_sub(self.taken.len());
        if free == 0 {
            return Err(io::Error::from(ErrorKind::BrokenPipe));
        }
        let count = buf.len().min(self.step).min(free);
        self.taken.extend_from_slice(&buf[..count])?;
        Ok(count)
    }

    fn flush(&mut self) -> io::Result<()> {
        Ok(())
    }
}

/// Puts the pieces in order, up to the first that fails.
fn put_pieces(stream: &mut Slow, pieces: &[&[u8]]) -> Result<(), SinkFailed> {
    let mut sink = StdSink::new(stream);
    for piece in pieces {
        sink.put(piece)?;
    }
    Ok(())
}

#[test]
fn a_stream_gets_all_in_order_or_a_prefix(rt: HostRuntime) -> Result<(), Fail> {
    let pieces: [&[u8]; 3] = [b"one line\n", b"", b"another\n"];
    let cases: [(usize, usize, &[u8]); 7] = [
        (1, 17, b"one line\nanother\n"),
        (3, 17, b"one line\nanother\n"),
        (100, 100, b"one line\nanother\n"),
        (3, 16, b"one line\nanother"),
        (4, 7, b"one lin"),
        (4, 0, b""),
        (0, 17, b""),
    ];
    for (step, room, want) in cases {
        let mut stream = Slow {
            taken: Vec::new(rt.alloc()),
            step,
            room,
        };
        let ended = put_pieces(&mut stream, &pieces);
        assert_eq!(rt; stream.taken.as_slice(), want, "{step} {room}");
        assert_eq!(rt; ended.is_ok(), want.len() == 17, "{step} {room}");
    }
    Ok(())
}

#[test]
fn files_in_memory_are_written_and_read(rt: HostRuntime) -> Result<(), Fail> {
    let alloc = rt.alloc();
    let mut shelf = CleanShelf::new(alloc);
    shelf.add(b"first", b"\0\xff")?;
    shelf.write(b"second", b"short")?;
    shelf.write(b"second", b"other")?;
    assert!(rt; shelf.read(alloc, b"first")?.items() == b"\0\xff".as_slice());
    assert!(rt; shelf.read(alloc, b"second")?.items() == b"other".as_slice());
    assert!(rt; matches!(shelf.read(alloc, b"third"), Err(ReadEnd::Absent)));
    Ok(())
}

#[test]
fn files_of_the_system_are_written_and_read(rt: HostRuntime) -> Result<(), Fail> {
    let alloc = rt.alloc();
    let name = format!(in alloc; "cjc_shelf_{}", process::id(rt.process()))?;
    let path = env::temp_dir(&rt)?.join(alloc, name.as_str())?;
    let folder = path.as_str();
    if fs::exists(&rt, folder)? {
        fs::remove_dir_all(&rt, folder)?;
    }
    fs::create_dir(&rt, folder)?;
    let mut shelf = DiskShelf::new(&rt);
    let mut long = Vec::new(alloc);
    for at in 0..LONGEST {
        long.push((at % 251) as u8)?;
    }

    let first = format!(in alloc; "{folder}/first")?;
    let second = format!(in alloc; "{folder}/second")?;
    shelf.write(first.as_bytes(), &long)?;
    shelf.write(second.as_bytes(), &long)?;
    shelf.write(second.as_bytes(), b"\0\xff short\n")?;
    assert!(rt; shelf.read(alloc, first.as_bytes())?.items() == long.as_slice());
    assert!(rt; shelf.read(alloc, second.as_bytes())?.items() == b"\0\xff short\n".as_slice());

    long.push(0)?;
    fs::write(&rt, first.as_str(), long.as_slice())?;
    let other = format!(in alloc; "{folder}/other")?;
    assert!(rt; matches!(shelf.read(alloc, first.as_bytes()), Err(ReadEnd::TooLong)));
    assert!(rt; matches!(shelf.read(alloc, other.as_bytes()), Err(ReadEnd::Absent)));
    assert!(rt; matches!(shelf.read(alloc, b"\xff"), Err(ReadEnd::Absent)));
    assert!(rt; matches!(shelf.read(alloc, folder.as_bytes()), Err(ReadEnd::Failed)));

    let below = format!(in alloc; "{folder}/none/file")?;
    for name in [below.as_bytes(), folder.as_bytes(), b"\xff"] {
        assert!(rt; matches!(shelf.write(name, b"bytes"), Err(WriteEnd::Failed)));
    }
    fs::remove_dir_all(&rt, folder)?;
    Ok(())
}
