//! The methods of Method as code: cut into headers and instructions by the counts of Descriptor, once, for the
//! tests of sentences on code. It knows of other components only what Descriptor says of methods.
mod code;
mod cutting;
mod methods;
mod walk;

pub use code::{At, Body};
pub use cutting::{Cutting, cut, whole_spot};
