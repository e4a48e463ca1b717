//! The command jvm, and how it and others read a list and a script.
#![tactic(auto)]

// Lower crates, for those above.
/// What crates above take of cjc_shelf.
pub mod shelf {
    pub use cjc_shelf::{Shelf, command};
}

/// What crates above take of cjc_script_text.
pub mod script_text {
    pub use cjc_script_text::{print, read};
}

/// What crates above take of cjc_jvm_link.
pub mod jvm_link {
    pub use cjc_jvm_link::{GroupLinks, Package, indices_of, joint_image, joint_world};
}

pub mod report;
pub mod running;
