//! The class file (Java Virtual Machine Specification, chapter 4): the tree that its bytes spell, or the
//! first field that breaks. It knows no other file and no rule beyond the format.
#![tactic(auto)]

mod class;
mod code;
mod fields;
mod items;
mod methods;
mod pool;
mod tree;

pub use class::{read, readings, spelt_classes_fit};
pub use tree::{Catch, ClassTree, Code, FieldTree, ItemKind, MemberText, MethodTree, PoolItem};
