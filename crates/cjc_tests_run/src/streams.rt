//! What no contract tells of a stream: that it gets all bytes in order, or a prefix of them.

use cjc_run::shelf::{Sink, SinkFailed, StdSink};
use std::alloc::Global;
use std::io::{self, ErrorKind, Write};
use std::test::*;

/// Takes at most `step` bytes at a call, and fails once it has `room` bytes.
#[derive(Drop)]
struct Slow {
    taken: Vec<u8>,
    step: usize,
    room: usize,
}

impl Write for Slow {
    fn write(&mut self, buf: &[u8]) -> io::Result<usize> {
        let free = self.room.saturating_sub(self.taken.len());
        if free == 0 {
            return Err(io::Error::from(ErrorKind::BrokenPipe));
        }
        let count = buf.len().min(self.step).min(free);
        self.taken.extend_from_slice(&buf[..count])?;
        Ok(count)
    }

    fn flush(&mut self) -> io::Result<()> {
        Ok(())
    }
}

/// Puts the pieces in order, up to the first that fails.
fn put_pieces(stream: &mut Slow, pieces: &[&[u8]]) -> Result<(), SinkFailed> {
    let mut sink = StdSink::new(stream);
    for piece in pieces {
        sink.put(piece)?;
    }
    Ok(())
}

const TEXT: &[u8] = b"one line\nanother\n";

const PIECES: [&[u8]; 3] = [b"one line\n", b"", b"another\n"];

/// How many bytes a stream takes at a call, how many it has room for, and how many of the text it gets.
const STREAMS: [(usize, usize, usize); 7] = [
    (1, 17, 17),
    (3, 17, 17),
    (100, 100, 17),
    (3, 16, 16),
    (4, 7, 7),
    (4, 0, 0),
    (0, 17, 0),
];

/// Whether a stream gets so many bytes, and the last put succeeds exactly where these are all.
fn gets(alloc: Global, step: usize, room: usize, length: usize) -> bool {
    let mut stream = Slow {
        taken: Vec::new(alloc),
        step,
        room,
    };
    let is_done = put_pieces(&mut stream, &PIECES).is_ok();
    match TEXT.get(..length) {
        Some(text) => stream.taken.as_slice() == text && is_done == (length == 17),
        None => false,
    }
}

#[test]
fn a_stream_gets_all_in_order_or_a_prefix(rt: HostRuntime) {
    for (step, room, length) in STREAMS {
        assert!(rt; gets(rt.alloc(), step, room, length));
    }
}
