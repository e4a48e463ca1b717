//! The order of the classes of a package, superclasses first, and the names of all that stands above each (Java Card
//! Virtual Machine Specification 2.2.2, sections 6.8 and 5.7).
#![tactic(auto)]

pub mod classes;
pub mod supers;
