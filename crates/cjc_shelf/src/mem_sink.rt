//! A sink in memory, for tests and for runs whose text is wanted as bytes.

ghost use Rattle.std.specs.Prelude.{◌==◌, if◌then◌else◌, ◌≡◌, ◌≤◌, length, Some, vec_capacity, vec_len, OnOk, OnErr};
ghost use Rattle.cjc_shelf.specs.Sink.{Puts};

use crate::memory::is_listed;
use crate::{Sink, SinkFailed};
use cjc_bytes::{NoMemory, Row};
use std::alloc::Global;

/// The bytes that a reserved sink has room for.
pub const ROOM: usize = 1_048_576;

/// What was put, in memory. The puts are numbered from 0, and those of the list fail.
#[derive(Drop)]
pub struct MemSink {
    held: Vec<u8>,
    room: usize,
    failing: Row<u32>,
    calls: u64,
    faults: u64,
    ghost within: { vec_len held ≤ room },
    ghost reserved: { room ≤ vec_capacity held },
    ghost whole: { room ≤ 1048576 },
}

impl MemSink {
    ghost use Rattle.cjc_shelf.specs.MemSink.{sink_sunk, room_of, failing_puts, next_put, IsNewSink};

    /// A sink with nothing in it and no room. Takes no memory.
    pub fn new(alloc: Global, failing: Row<u32>) -> MemSink
        ensures { IsNewSink failing result }
    {
        MemSink {
            held: Vec::new(alloc),
            room: 0,
            failing,
            calls: 0,
            faults: 0,
        }
    }

    /// What was put.
    pub fn bytes(&self) -> &[u8]
        ensures { (sink_sunk self.now).written ≡ Some result.now }
    {
        &self.held
    }

    /// Makes room for `ROOM` bytes in all. A second call changes nothing.
    pub fn reserve(&mut self) -> Result<(), NoMemory>
        ensures same { sink_sunk self.new ≡ sink_sunk self.old }
        ensures room { OnOk result (room_of self.new ≡ (if room_of self.old == 0 then ROOM else room_of self.old)) }
        ensures no_room { OnErr result (room_of self.new ≡ room_of self.old) }
        ensures next { next_put self.new ≡ next_put self.old }
        ensures failing { failing_puts self.new ≡ failing_puts self.old }
    {
        if self.room == 0 {
            let Ok(()) = self.held.reserve(ROOM) else {
                return Err(NoMemory);
            };
            self.room = ROOM;
        }
        Ok(())
    }
}

impl Sink for MemSink {
    ghost use Rattle.cjc_shelf.specs.MemSink.{sink_sunk, PutInMemory};

    ghost sunk = { sink_sunk };

    /// A put that is listed, or that does not fit into the room, fails, and no other does.
    fn put(&mut self, bytes: &[u8]) -> Result<(), SinkFailed>
        ensures puts { Puts bytes.now (sink_sunk self.old) (sink_sunk self.new) result }
        ensures exact { PutInMemory bytes.now self.old self.new result }
    {
        let call = self.calls;
        self.calls = call.saturating_add(1);
        if is_listed(self.failing.items(), call) {
            self.faults = self.faults.saturating_add(1);
            return Err(SinkFailed);
        }
        let free = self.room - self.held.len();
        if bytes.len() > free {
            self.held.extend_from_slice(&bytes[..free]).unwrap();
            self.faults = self.faults.saturating_add(1);
            return Err(SinkFailed);
        }
        self.held.extend_from_slice(bytes).unwrap();
        Ok(())
    }
}
