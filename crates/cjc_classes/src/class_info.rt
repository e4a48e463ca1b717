//! Class of a package, and class_refs: what names a class in its components (Java Card Virtual Machine
//! Specification 2.2.2, sections 6.1 and 6.8). The converter calls it, and whoever writes a class_ref by the
//! name of a class. It knows no instruction and no rule.
mod entries;
mod fields;
mod flags;
mod infos;
mod outside;
mod refs;
mod sizes;
mod starts;
mod tree;

pub use entries::{implemented_interfaces, interface_entry, offset_in};
pub use fields::{FieldCells, field_cells};
pub use flags::info_flags;
pub use infos::{class_refs, refs_of_classes};
pub use outside::note_files;
pub use refs::ClassRefs;
pub use starts::note_class;
pub use tree::class_info;
