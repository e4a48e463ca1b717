//! What is emitted of a method. Whoever writes Method and ReferenceLocation reads it.

use cjc_ncode::bytes::{Bytes, Row};

/// A method's bytes, its header included, and the places of its indices into the constant pool, in bytes from the
/// start of the header.
#[derive(Drop)]
pub struct MethodBytes {
    pub bytes: Bytes,
    /// Of the indices of one byte.
    pub ones: Row<u32>,
    /// Of the indices of two bytes.
    pub twos: Row<u32>,
}
