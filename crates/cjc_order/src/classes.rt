//! The order of the classes and interfaces of a package in its components: of each kind the earliest of the
//! list stands next that waits for none of its supers (Java Card Virtual Machine Specification 2.2.2, sections
//! 6.8 and 6.13). Whoever writes Class or Descriptor calls it. It knows no token.
mod laws;
mod listed;
mod order;
mod queue;
mod ready;
mod subs;

pub use laws::order_laws;
pub use listed::class_count;
pub use order::class_order;
