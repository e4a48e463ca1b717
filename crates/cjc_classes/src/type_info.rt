//! The types of values as descriptors say them, and the type descriptors of a package (Java Card Virtual
//! Machine Specification 2.2.2, sections 6.1 and 6.13.4). Whoever writes StaticField and Descriptor calls it.
//! It knows no token and no code.
mod nibbles;
mod sort;
mod types;

pub use nibbles::nibbles_in;
pub use sort::{Sort, field_sort, parsed, result_sort, sort_by};
pub use types::Types;
