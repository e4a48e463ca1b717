//! The pipeline: of the list of a package and the files that it names the bytes of its component files and of its
//! export file, or the first broken rule, whatever package that is. The command `convert` calls it; it knows no rule
//! and no format: both are of the crates below.
#![tactic(auto)]

// Lower crates, for those above.
/// What crates above take of list.
pub mod list {
    pub use cjc_captree::list::List;
}

/// What crates above take of bytes.
pub mod bytes {
    pub use cjc_shape_proof::bytes::{RulePlace, answer, broken};
}

/// What crates above take of bytecode.
pub mod bytecode {
    pub use cjc_captree::bytecode::jvm;
}

/// What crates above take of script.
pub mod script {
    pub use cjc_captree::script::{Note, Report, Value};
}

/// What crates above take of capread.
pub mod capread {
    pub use cjc_captree::capread::readings;
}

/// What crates above take of capwrite.
pub mod capwrite {
    pub use cjc_captree::capwrite::CapFiles;
}

/// What crates above take of check_rules.
pub mod check_rules {
    pub use cjc_captree::check_rules::consistent_where_unbroken;
}

mod building;
mod conversion;
mod files;
mod laws;
mod sizes;

pub use conversion::{Converted, convert};
pub use laws::{conversions_in_short_mode_are_as_before, one_answer};
