//! What is told of all components of a package: whether the type int is named, and the limits on their sizes (Java Card
//! Virtual Machine Specification 2.2.2, chapter 6). The converter calls it. It chooses no code and assigns no token.
mod ints;
mod limits;

pub use ints::uses_int;
pub use limits::{size_break, widest_method};
