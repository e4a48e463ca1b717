//! The rules of the Java Card subset that a package of class files has to keep, once its classes are a world:
//! what its instructions may name, and which types, flags, overriding methods, applets and sizes are allowed.
#![tactic(auto)]

// Lower crates, for those above.
/// What crates above take of cjc_bytes.
pub mod bytes {
    pub use cjc_bytes::{
        BrokenAt, Bytes, Desc, Fault, FileLine, Kind, NoMemory, Row, Settings, is_static,
    };
}

/// What crates above take of classfile.
pub mod classfile {
    pub use cjc_code::classfile::{ClassTree, FieldTree, MethodTree};
}

/// What crates above take of cjc_code.
pub mod bytecode {
    pub use cjc_code::{
        Codes, DecodeError, JInsn, JOp, MethodCode, decode, decode_method, jvm, refusal_of,
    };
}

/// What crates above take of export_file.
pub mod export_file {
    pub use cjc_world::export_file::{may_be_constant, read};
}

/// What crates above take of cjc_world.
pub mod world {
    pub use cjc_world::{ArrayCell, Found, StaticImage, ValueCell, World};
}

mod applets;
mod checking;
mod exports;
mod flags;
mod interfaces;
mod ints;
mod kinds;
mod limits;
mod members;
mod naming;
mod overriding;
mod places;
mod types;

pub use checking::{check, first_broken};
pub use ints::any_works_on_int;
pub use naming::names;
pub use places::{class_spot, method_spot};
pub use types::is_int_desc;
