//! Instructions as an opcode and numbers, as cutting leaves them. Rule 103 is tested on these; names are looked
//! up behind it.

use crate::table::Family;
use cjc_bytes::Row;

/// An instruction and its numbers.
#[derive(Drop)]
pub(crate) struct Raw {
    /// The offset in the code, in bytes, of the opcode, or of the prefix before it.
    pub(crate) at: u16,
    pub(crate) opcode: u8,
    pub(crate) family: Family,
    /// The operands in their order, those of a switch behind its padding.
    pub(crate) numbers: Row<i32>,
}

/// What a code is cut into.
#[derive(Drop)]
pub(crate) struct Cut {
    pub(crate) insns: Row<Raw>,
    /// The first place, in bytes, where no further instruction stands: the code's length where it is cut to
    /// its end.
    pub(crate) stop: u32,
}
