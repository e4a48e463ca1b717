//! How an instruction that sees words alone ends: well, by an exception of the machine's own, or wrongly, since
//! an operand is missing or of another kind or there is no room.

use cjc_jvm_step::frame::Exception;

/// How a calculation ends, beside what it has changed in its frame itself.
#[derive(Clone, Copy)]
pub enum Ending {
    /// The words are as the instruction leaves them.
    Fine,
    /// An exception of the machine's own.
    Fails(Exception),
    /// Nothing applies: an operand is missing or of another kind, or there is no room.
    Wrong,
}

/// What a condition tells of the operands that it takes.
#[derive(Clone, Copy)]
pub enum Choice {
    Takes(bool),
    /// An operand is missing or of another kind.
    Neither,
}
