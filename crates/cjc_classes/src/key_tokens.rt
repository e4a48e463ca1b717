//! The tokens of the virtual methods that the keys of a constant pool name, in the classes that the keys name
//! (Java Card Virtual Machine Specification 2.2.2, sections 4.3.7.6 and 6.7). Whoever writes ConstantPool calls
//! it. It knows no code.
mod above;
mod hidden;
mod imported;
mod keys;
mod members;
mod places;
mod shown;

pub use keys::key_tokens;
