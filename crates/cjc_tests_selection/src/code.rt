//! Methods that are laid out and emitted, and their bytes, worked out by hand. What stands here beside tests builds
//! methods and tells that they can be laid out: a crate with tests of its own is proved twice.
mod layouts;
mod methods;
mod pool;
#[cfg(test)]
mod rows;
mod whole;

pub use layouts::{LaidOut, written};
pub use methods::{Far, long_method};
