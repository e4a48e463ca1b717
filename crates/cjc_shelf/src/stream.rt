//! Standard output or any stream of the system as a sink. What it got is not known afterwards, so its contracts
//! tell faults only.

ghost use Rattle.std.specs.Prelude.{◌≡◌, None};

use crate::disk::put_all;
use crate::{Sink, SinkFailed};
use std::io::Write;

/// A stream of the system. What it got is not told.
#[derive(Drop)]
pub struct StdSink<W: Write + Drop> {
    stream: W,
    faults: u64,
}

impl<W: Write + Drop> StdSink<W> {
    ghost use Rattle.cjc_shelf.specs.Disk.{stream_sunk};

    /// The stream, with no fault so far.
    pub fn new(stream: W) -> StdSink<W>
        ensures { stream_sunk result ≡ record { written = None; faults = 0 } }
    {
        StdSink { stream, faults: 0 }
    }
}

impl<W: Write + Drop> Sink for StdSink<W> {
    ghost use Rattle.cjc_shelf.specs.Disk.{stream_sunk};

    ghost sunk = { stream_sunk };

    fn put(&mut self, bytes: &[u8]) -> Result<(), SinkFailed> {
        if !put_all(&mut self.stream, bytes) {
            self.faults = self.faults.saturating_add(1);
            return Err(SinkFailed);
        }
        Ok(())
    }
}
