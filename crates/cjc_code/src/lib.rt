//! The instructions of the Java Virtual Machine as a class file's code has them, cut from its bytes and with
//! the names that their operands stand for.
#![tactic(auto)]

// Lower crates, for those above.
/// What crates above take of cjc_bytes.
pub mod bytes {
    pub use cjc_bytes::{
        Bytes, Desc, Fault, Kind, MemberId, NoMemory, Part, PlaceRef, Row, is_static, refused_at,
    };
}

/// What crates above take of cjc_classfile.
pub mod classfile {
    pub use cjc_classfile::{Catch, ClassTree, Code, FieldTree, ItemKind, MethodTree, PoolItem};
}

mod cutting;
mod decoding;
mod insn;
mod items;
pub mod jvm;
mod laws;
mod method_code;
mod named;
mod numbers;
mod raw;
pub mod read_laws;
mod starts;
mod table;
mod unfit;

pub use decoding::{DecodeError, decode, decode_method, refusal_of};
pub use insn::{JCase, JInsn, JOp};
pub use laws::{cuts, opcodes, rules, samples};
pub use method_code::{Codes, MethodCode};
