//! A shaped package keeps what the writers of its components ask.
#![tactic(auto)]

// Lower crates, for those above.
/// What crates above take of cjc_bytes.
pub mod bytes {
    pub use cjc_bytes::{Bytes, Fault, NoMemory, Row, RulePlace, answer, broken};
}

/// What crates above take of cjc_check_proof.
pub mod check_proof {
    pub use cjc_check_proof::{consistent, flags};
}

/// What crates above take of judge.
pub mod judge {
    pub use cjc_shape::judge::{Group, Judged, judge};
}

/// What crates above take of cjc_shape.
pub mod shape {
    pub use cjc_shape::whole;
}

pub mod finds;
pub mod writing;
pub mod written;
