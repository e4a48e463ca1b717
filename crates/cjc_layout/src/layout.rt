//! Layouts of methods: which jumps are wide, where instructions stand, and the handlers. Whoever emits bytes
//! reads them. They know no token and no index.

use cjc_ncode::bytes::{Bytes, Row};

/// An exception handler (Java Card Virtual Machine Specification 2.2.2, section 6.9.2), at offsets in bytes
/// from the method's first instruction.
#[derive(Drop)]
pub struct Handler {
    pub start: u16,
    /// Whether no later handler's range meets this one's.
    pub stop: bool,
    /// Of the range, in bytes.
    pub length: u16,
    pub target: u16,
    /// None for any exception.
    pub class: Option<Bytes>,
}

/// Where a method's instructions stand, in bytes from the first.
#[derive(Drop)]
pub struct Layout {
    /// The offset of each instruction.
    pub places: Row<u16>,
    /// For each instruction, whether it is a jump in its wide form.
    pub wide: Row<bool>,
    /// Of the code, in bytes.
    pub length: u16,
    /// By target and then in class file order, those without an instruction in their range left out.
    pub handlers: Row<Handler>,
}
