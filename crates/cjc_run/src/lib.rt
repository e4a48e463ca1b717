//! All that the program does, over any shelf and any sink: the words into a command, its reads, what it writes
//! and prints, and the line that says how it ended. The program and the tests of whole runs call it. It knows
//! no system: where files are kept and text goes, its caller says.
#![tactic(auto)]

// Lower crates, for those above.
/// What crates above take of bytes.
pub mod bytes {
    pub use cjc_shelf::bytes::{Bytes, NoMemory, Row};
}

/// What crates above take of cjc_shelf.
pub mod shelf {
    pub use cjc_shelf::{DiskShelf, MemShelf, MemSink, Sink, SinkFailed, StdSink, command};
}

mod command;
mod converting;
mod laws;
mod text;
mod top;

pub use laws::{done_conversions_are_written, one_status};
pub use text::{line, status_line};
pub use top::run;
