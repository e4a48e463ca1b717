//! The tests of components on classes, links, exports and members.
#![tactic(auto)]

// Lower crates, for those above.
/// What crates above take of cjc_check_index.
pub mod check_index {
    pub use cjc_check_index::lookup;
}

pub mod counts;
pub mod exported;
pub mod links;
pub mod members;
