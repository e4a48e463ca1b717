//! The export file of a package (Java Card Virtual Machine Specification 2.2.2, chapter 5), as a tree, from its list, its world
//! and its tokens. The converter writes it beside the components. It knows no offset, no code and no rule that a package breaks.
#![tactic(auto)]

mod class;
mod fields;
mod inherited;
mod method;
mod numbered;
mod own;
mod source;
mod tree;

pub use tree::export_of;
