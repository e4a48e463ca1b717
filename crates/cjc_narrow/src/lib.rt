//! Selection: the narrow code of a method, from its instructions, types and intervals.
#![tactic(auto)]

// Lower crates, for those above.
/// What crates above take of bytes.
pub mod bytes {
    pub use cjc_types::bytes::{Fault, MemberId, NoMemory, Row, RulePlace, answer, broken};
}

/// What crates above take of bytecode.
pub mod bytecode {
    pub use cjc_types::bytecode::MethodCode;
}

/// What crates above take of script.
pub mod script {
    pub use cjc_jvm_semantics::script::{Note, Report, Script, Value};
}

/// What crates above take of world.
pub mod world {
    pub use cjc_types::world::World;
}

/// What crates above take of cjc_types.
pub mod types {
    pub use cjc_types::{Cell, Frame, Method, Operands, TypeTable, TypeWalk};
}

/// What crates above take of cjc_ncode.
pub mod ncode {
    pub use cjc_ncode::{NInsn, NMethod, PoolKey};
}

pub mod keys;
pub mod rows;
pub mod select;
pub mod written;
