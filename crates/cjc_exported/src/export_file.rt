//! What a package lets others use: its export file (Java Card Virtual Machine Specification 2.2.2, chapter 5)
//! as a tree, from its list, its world and its tokens, and the component Export (section 6.12), from where its
//! classes and members stand. The converter writes both. It knows no code and no rule that a package breaks.
mod class;
mod component;
mod fields;
mod inherited;
mod laws;
mod method;
mod numbered;
mod own;
mod source;
mod tree;

pub use component::{Offsets, export};
pub use laws::{few_classes, tokens_are_places};
pub use tree::export_of;
