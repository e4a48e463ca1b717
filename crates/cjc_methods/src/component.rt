//! Method and ReferenceLocation of a package (Java Card Virtual Machine Specification 2.2.2, sections 6.9 and
//! 6.11): the handlers and the bytes of its methods at their offsets, and where indices into the constant pool
//! stand. Whoever converts a package calls it, once its methods are laid out and its pool is made. It knows no
//! rule.
mod bytes;
mod component;
mod distances;
mod handlers;
mod places;

pub use component::{Written, method_component};
