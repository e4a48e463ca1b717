//! Export files: what a package lets others use, as a tree (Java Card Virtual Machine Specification 2.2.2,
//! chapter 5). They are read and written by one grammar.
#![tactic(auto)]

// Lower crates, for those above.
/// What crates above take of cjc_bytes.
pub mod bytes {
    pub use cjc_bytes::{
        ACC_SHAREABLE, Break, Bytes, Desc, Fault, FileKey, FileRef, Kind, MemberId, NoMemory, Part,
        PlaceRef, Row, RulePlace, answer, broken, first, has, is_abstract, is_final, is_interface,
        is_private, is_static,
    };
}

mod constants;
mod file;
mod lookup;
mod members;
mod needs;
mod pool;
mod root;
mod tree;
mod writing;

pub use file::{read, readings};
pub use lookup::supers;
pub use members::may_be_constant;
pub use needs::pool_size;
pub use root::copies_of;
pub use tree::{ExportClass, ExportField, ExportMethod, ExportTree};
pub use writing::write;
