//! The methods and classes that a script names, found in a group by their names (Java Card Virtual Machine
//! Specification 2.2.2, section 7.5). Called by who runs components for a script; it knows no frame that runs.
mod classes;
mod described;
mod interfaces;
mod names;
mod sending;
mod statics;
mod tokens;

pub use classes::{imported, throwable};
pub use sending::sent;
pub use statics::called;
