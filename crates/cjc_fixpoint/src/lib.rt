//! The solver of dataflow problems: the least closed table of every flow.
//!
//! A flow says which states its places may have, how they are ordered and joined, and what a place
//! hands on to others. Nothing here knows what a state means.
#![tactic(auto)]

// Lower crates, for those above.
/// What crates above take of cjc_bytes.
pub mod bytes {
    pub use cjc_bytes::{BrokenAt, Bytes, Kind, MemberId, NoMemory, Row, is_static};
}

mod flow;
mod handed;
mod marks;
mod pending;
mod segments;
mod solver;
mod table;
mod walk;

pub use flow::{Edge, Flow, Repeating};
pub use handed::moved_on;
pub use marks::{all_marks, is_at, is_marked, marks_of};
pub use table::{Table, solve};
pub use walk::{Walk, passed_on};
