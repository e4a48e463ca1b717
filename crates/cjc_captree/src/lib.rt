//! All components of a package as one tree, and what exceeds their limits.
#![tactic(auto)]

// Lower crates, for those above.
/// What crates above take of list.
pub mod list {
    pub use cjc_classes::list::List;
}

/// What crates above take of bytecode.
pub mod bytecode {
    pub use cjc_classes::bytecode::jvm;
}

/// What crates above take of export_file.
pub mod export_file {
    pub use cjc_classes::export_file::write;
}

/// What crates above take of script.
pub mod script {
    pub use cjc_classes::script::{Note, Report, Value};
}

/// What crates above take of capread.
pub mod capread {
    pub use cjc_classes::capread::{CapTree, readings};
}

/// What crates above take of capwrite.
pub mod capwrite {
    pub use cjc_classes::capwrite::{CapFiles, write};
}

/// What crates above take of class_order.
pub mod class_order {
    pub use cjc_classes::class_order::classes;
}

/// What crates above take of check_rules.
pub mod check_rules {
    pub use cjc_classes::check_rules::consistent_where_unbroken;
}

/// What crates above take of ncode.
pub mod ncode {
    pub use cjc_classes::ncode::{NMethod, PoolKey};
}

/// What crates above take of cjc_classes.
pub mod classes {
    pub use cjc_classes::key_tokens;
}

/// What crates above take of pool.
pub mod pool {
    pub use cjc_methods::pool::{Pool, build};
}

/// What crates above take of cjc_methods.
pub mod methods {
    pub use cjc_methods::{component, layouts};
}

pub mod extents;
pub mod limits;
pub mod trees;
