//! The classes of a package and of the export files that it stands on: subtypes, look-up and selection by
//! name (Java Virtual Machine Specification, section 5.4). It knows no instruction, and no token but those that
//! export files list.
#![tactic(auto)]

// Lower crates, for those above.
/// What crates above take of cjc_bytes.
pub mod bytes {
    pub use cjc_bytes::{
        ACC_SHAREABLE, ACC_SUPER, Bytes, Desc, Fault, FileLine, Kind, MemberId, NoMemory, Row,
        is_abstract, is_interface, is_private, is_protected, is_public, is_static,
    };
}

/// What crates above take of cjc_classfile.
pub mod classfile {
    pub use cjc_classfile::{ClassTree, Code, FieldTree, MethodTree, read};
}

/// What crates above take of cjc_export.
pub mod export_file {
    pub use cjc_export::{
        ExportClass, ExportField, ExportMethod, ExportTree, copies_of, may_be_constant, pool_size,
        read, write,
    };
}

mod added;
mod circular;
mod class;
mod class_index;
mod found;
mod image;
mod laws;
mod lookup;
mod members;
mod names;
mod numbers;
mod rules;
mod spot;
mod tables;
mod unchecked;
pub mod upward_laws;
mod world;

pub use class::Known;
pub use found::Found;
pub use image::{ArrayCell, StaticImage, ValueCell};
pub use laws::{lookup_laws, subtype_laws};
pub use world::World;
