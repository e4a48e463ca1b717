//! The constant pool of a package (Java Card Virtual Machine Specification 2.2.2, section 6.7): the keys that
//! its narrow code needs in their order, rule 414, indices, and the tokens of the methods of interfaces that it
//! calls. Whoever emits code looks names up in it. It knows no offset and no byte of code.
#![tactic(auto)]

mod calls;
mod lookup;
mod pool;
pub mod pool_laws;

pub use pool::{MOST_ENTRIES, Pool, build};
