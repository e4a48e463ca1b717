//! The tests of sentences on class_refs and offsets: that each class_ref names a class, superclasses stand
//! earlier, table entries and install methods are methods, and Descriptor describes what is there. Whoever
//! tests components calls them. It knows no code.
mod described;
mod install;
mod refs;
mod supers;
mod tables;

pub use described::descriptor_spot;
pub use install::install_spot;
pub use refs::class_ref_spot;
pub use supers::super_spot;
pub use tables::{Tables, leaving_of, table_spot};
