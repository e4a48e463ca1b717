//! What components do when they run by token: the opcodes of the card and its machine. Definitions and laws alone.
#![tactic(auto)]

// Lower crates, for those above.
/// What crates above take of bytes.
pub mod bytes {
    pub use cjc_export::bytes::{
        Bytes, Desc, Kind, MemberId, NoMemory, Row, has, is_private, is_static,
    };
}

/// What crates above take of cjc_export.
pub mod export_file {
    pub use cjc_export::{ExportClass, ExportMethod, ExportTree, may_be_constant};
}

/// What crates above take of cjc_script.
pub mod script {
    pub use cjc_script::{FieldValue, Value};
}

/// What crates above take of cjc_capread.
pub mod capread {
    pub use cjc_capread::{
        ArrayInit, ClassDescriptor, ClassEntry, ClassInfo, ClassRef, Descriptor, ExportedClass,
        Handler, ImplementedInterface, InterfaceEntry, Method, MethodDescriptor, OpInfo, PoolEntry,
        StaticField, StaticRef, card, decoder, op,
    };
}

pub mod bytecode;
pub mod machine;
