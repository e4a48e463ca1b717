//! StaticField, the offsets of static cells, and Descriptor: the tree of each, by the definitions of
//! cjc_components (Java Card Virtual Machine Specification 2.2.2, sections 6.10 and 6.13). Whoever puts the
//! components of a package together calls it. It knows no rule that a package breaks, and not how code is
//! chosen.
mod cells;
mod classes;
mod fields;
mod flags;
mod methods;
mod parts;
mod statics;

pub use cells::{cell_offsets, key_cells};
pub use classes::descriptor;
pub use fields::is_constant;
pub use flags::{class_flags, field_flags, method_flags};
pub use parts::{Extent, Parts};
pub use statics::static_field;
