//! The command convert: a conversion with all that it promises, and how its files are written.
#![tactic(auto)]

// Lower crates, for those above.
/// What crates above take of bytes.
pub mod bytes {
    pub use cjc_shelf::bytes::{
        ACC_PUBLIC, ACC_STATIC, ACC_SUPER, Bytes, Fault, NoMemory, Out, Row,
    };
}

/// What crates above take of cjc_shelf.
pub mod shelf {
    pub use cjc_shelf::{CleanShelf, LONGEST, Shelf, command};
}

/// What crates above take of bytecode.
pub mod bytecode {
    pub use cjc_convert::bytecode::jvm;
}

/// What crates above take of script.
pub mod script {
    pub use cjc_convert::script::{Note, Report, Value};
}

/// What crates above take of check_rules.
pub mod check_rules {
    pub use cjc_convert::check_rules::consistent_where_unbroken;
}

pub mod conversion;
pub mod publication;
