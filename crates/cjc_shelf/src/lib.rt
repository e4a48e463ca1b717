//! Files by their names, and a place to print to: in memory, and as the system has them. Nothing here
//! knows what a file is for.
#![tactic(auto)]

// Lower crates, for those above.
/// What crates above take of cjc_bytes.
pub mod bytes {
    pub use cjc_bytes::{
        ACC_PUBLIC, ACC_STATIC, ACC_SUPER, Bytes, Fault, FileLine, NoMemory, Out, Refusal, Row,
        short_decimal,
    };
}

pub mod command;
mod disk;
mod mem_sink;
mod memory;
mod shelf;
mod sink;
mod stream;

pub use disk::DiskShelf;
pub use mem_sink::{MemSink, ROOM};
pub use memory::{CleanShelf, MemShelf};
pub use shelf::{LONGEST, ReadEnd, Shelf, WriteEnd, limits};
pub use sink::{Sink, SinkFailed};
pub use stream::StdSink;
