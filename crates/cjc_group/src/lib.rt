//! A group of packages that run together: the text that names them, read into lines, and what they must agree on to be
//! linked. It knows no instruction, and no component but the export file.
#![tactic(auto)]

// Lower crates, for those above.
/// What crates above take of cjc_bytes.
pub mod bytes {
    pub use cjc_bytes::{Bytes, Fault, FileLine, NoMemory, Refusal, Row, refused};
}

/// What crates above take of export_file.
pub mod export_file {
    pub use cjc_world::export_file::ExportTree;
}

/// What crates above take of cjc_world.
pub mod world {
    pub use cjc_world::{StaticImage, World};
}

mod implementing;
mod laws;
mod line;
mod linking;
mod member;
mod missing;
mod read;
mod rules;
mod trees;

pub use laws::{groups_are_tested, one_refusal, packages_agree};
pub use line::PackageLine;
pub use linking::test_group;
pub use member::Member;
pub use missing::test_missing;
pub use read::{groups, read_group};
pub use trees::same_trees_are_one;
