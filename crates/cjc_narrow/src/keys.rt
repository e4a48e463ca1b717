//! The keys that narrow code needs in the constant pool, numbered in its order (Java Card Virtual Machine
//! Specification 2.2.2, section 6.7). Called by whoever makes the pool. It knows no token and no world.
mod fields;
mod key;
mod laws;
mod numbers;
mod walk;

pub use fields::near;
pub use key::{Key, copy_member};
pub use laws::{forms_leave_the_pool, indices_name_their_keys};
pub use numbers::Numbers;
pub use walk::number;
