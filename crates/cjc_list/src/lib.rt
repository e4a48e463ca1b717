//! The program's list: the text that names a package, its class files and the export files that it
//! imports, read into a `List`. It knows no file but the list.
#![tactic(auto)]

// Lower crates, for those above.
/// What crates above take of cjc_bytes.
pub mod bytes {
    pub use cjc_bytes::{
        Bytes, Desc, Fault, Line, MemberId, NoMemory, Out, Row, Stop, Word, kept_lines, refused,
        short_decimal, words,
    };
}

mod line;
mod listing;
mod read;

pub use listing::List;
pub use read::{listings, read_list};
