//! Type inference: what each word of a frame holds before each instruction of a method, as the least table that is
//! closed under the instructions, and the rules 501, 502 and 503 over that table.
//!
//! Nothing here knows what number a word holds, nor what is written for an instruction.
#![tactic(auto)]

// Lower crates, for those above.
/// What crates above take of cjc_bytes.
pub mod bytes {
    pub use cjc_bytes::{
        Bytes, Desc, Fault, Kind, MemberId, NoMemory, Row, RulePlace, answer, broken, is_private,
        is_static,
    };
}

/// What crates above take of cjc_fixpoint.
pub mod fixpoint {
    pub use cjc_fixpoint::{Edge, Flow, Repeating, Walk, all_marks, is_marked, moved_on, solve};
}

/// What crates above take of cjc_classfile.
pub mod classfile {
    pub use cjc_classfile::{Catch, ClassTree, Code, MethodTree, read};
}

/// What crates above take of cjc_code.
pub mod bytecode {
    pub use cjc_code::{JCase, JInsn, JOp, MethodCode, jvm};
}

/// What crates above take of export_file.
pub mod export_file {
    pub use cjc_world::export_file::{ExportClass, ExportTree, may_be_constant};
}

/// What crates above take of cjc_world.
pub mod world {
    pub use cjc_world::{Found, Known, World};
}

mod cell;
mod index;
mod inference;
pub mod insns;
mod laws;
mod marks;
mod method;
mod names;
mod operands;
mod recent;
mod repeats;
pub mod rows;
mod rules;
mod shared;
mod state;
mod steps;
mod table;
pub mod type_laws;
mod types;
mod walk;

pub use cell::Cell;
pub use inference::{InferError, infer, infer_method};
pub use laws::{cell_laws, code_laws, flow_laws, mark_laws, name_laws, table_laws};
pub use method::{Method, covers};
pub use names::{Name, Names};
pub use operands::Operands;
pub use repeats::{bounds_of, repeats_at};
pub use shared::Shared;
pub use state::{Stack, State};
pub use table::{Frame, TypeTable};
pub use types::parsed;
pub use walk::TypeWalk;
