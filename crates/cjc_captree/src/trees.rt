//! All components of a package as one tree, from what is made of its classes and its methods before (Java Card
//! Virtual Machine Specification 2.2.2, chapter 6). The converter calls it. It chooses no code, assigns no
//! token, and tests no limit.
mod given;
mod names;
mod numbered;
mod order;
mod sizes;
mod tree;

pub use given::Given;
pub use tree::components;
