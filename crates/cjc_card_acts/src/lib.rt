//! The types of values as components write them, and what the opcodes of the card take and give.
#![tactic(auto)]

// Lower crates, for those above.
/// What crates above take of cjc_frames.
pub mod frames {
    pub use cjc_frames::{Act, Catch, Given, Method, Need, Read, Step, Subtypes, first_broken};
}

pub mod described;
pub mod rows;
pub mod table;
pub mod types;
pub mod words;
