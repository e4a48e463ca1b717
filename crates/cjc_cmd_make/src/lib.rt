//! The command make: a package made from a number, converted, run and told.
#![tactic(auto)]

// Lower crates, for those above.
/// What crates above take of cjc_cmd_convert.
pub mod cmd_convert {
    pub use cjc_cmd_convert::{conversion, publication};
}

pub mod laws;
pub mod package;
pub mod report;
