//! The test of components: what looks classes, methods and types up is made once and handed to the tests of
//! sentences, and the first broken one is answered. It needs no class files.
#![tactic(auto)]

// Lower crates, for those above.
/// What crates above take of export_file.
pub mod export_file {
    pub use cjc_check_rules::export_file::{ExportTree, read};
}

/// What crates above take of cjc_capread.
pub mod capread {
    pub use cjc_capread::{Handler, Method, ReferenceLocation};
}

mod checked;
mod coded;
pub mod codes;
mod components;
mod firsts;
pub mod jumps;
mod linked;
mod order;

pub use checked::Checked;
pub use components::check;
