//! The entries of ConstantPool: what each key of the pool is in the components (Java Card Virtual Machine
//! Specification 2.2.2, section 6.7). The converter calls it. It knows no code, and takes the tokens of virtual
//! methods and the offsets of static cells from whoever has them.
mod entries;

pub use entries::pool_entries;
