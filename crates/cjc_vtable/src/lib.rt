//! Class tables and interface maps of a package, and that dispatch by them is selection by name (Java Card Virtual
//! Machine Specification 2.2.2, sections 4.3.7 and 6.8).
#![tactic(auto)]

// Lower crates, for those above.
/// What crates above take of bytecode.
pub mod bytecode {
    pub use cjc_subset::bytecode::{
        Codes, DecodeError, JInsn, JOp, MethodCode, decode_method, jvm, refusal_of,
    };
}

/// What crates above take of cjc_order.
pub mod class_order {
    pub use cjc_order::{classes, supers};
}

/// What crates above take of cjc_subset.
pub mod subset {
    pub use cjc_subset::{class_spot, first_broken, is_int_desc, method_spot, names};
}

/// What crates above take of cjc_tokens.
pub mod tokens {
    pub use cjc_tokens::{Slot, Tokens, assign, first_high, interface_methods};
}

mod building;
mod entries;
mod kept;
mod laws;
mod maps;
mod naming;
pub mod slot_laws;
mod table;

pub use building::tables;
pub use kept::package_laws;
pub use laws::{dispatch_laws, token_laws};
pub use table::{ClassTable, ClassTables, InterfaceMap};
