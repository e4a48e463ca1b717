//! What an instruction by name leaves to others, beside what it has changed in its frame: go on, raise, throw,
//! call or return. Whoever runs instructions does it.

use cjc_script::Value;
use cjc_script::bytes::MemberId;

/// An exception of the machine's own.
#[derive(Clone, Copy)]
pub enum Exception {
    Arithmetic,
    NullPointer,
    IndexOutside,
    NegativeSize,
    ClassCast,
    ArrayStore,
}

/// What an instruction asks of the machine, beside what it has changed in its frame itself.
#[derive(Clone, Copy)]
pub enum Deed<'a> {
    /// The frame and the store are as the instruction leaves them.
    Go,
    Raise(Exception),
    /// An array or object, by its number.
    Toss(u32),
    /// A call, by its opcode.
    Invoke { op: u8, method: &'a MemberId },
    /// A return, with the value if there is one.
    Leave(Option<Value>),
    /// Nothing that applies.
    Stick,
}
