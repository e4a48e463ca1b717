//! Look-ups in components that the tests share, so that no test searches a list for each of its items.
#![tactic(auto)]

// Lower crates, for those above.
/// What crates above take of bytes.
pub mod bytes {
    pub use cjc_check_rules::bytes::{Bytes, NoMemory, Row, is_interface, is_static};
}

/// What crates above take of cjc_check_rules.
pub mod check_rules {
    pub use cjc_check_rules::consistent_where_unbroken;
}

pub mod imported;
pub mod lookup;
