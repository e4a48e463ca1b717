//! The command check, and how it and others read components from a folder.
#![tactic(auto)]

// Lower crates, for those above.
/// What crates above take of cjc_bytes.
pub mod bytes {
    pub use cjc_bytes::{Bytes, Fault, NoMemory, Row};
}

/// What crates above take of cjc_shelf.
pub mod shelf {
    pub use cjc_shelf::{Shelf, command};
}

/// What crates above take of cjc_list.
pub mod list {
    pub use cjc_list::{List, read_list};
}

/// What crates above take of cjc_capread.
pub mod capread {
    pub use cjc_capread::{CapTree, Export, ExportedClass};
}

/// What crates above take of cjc_check.
pub mod check {
    pub use cjc_check::{Checked, check};
}

pub mod checking;
pub mod folder;
