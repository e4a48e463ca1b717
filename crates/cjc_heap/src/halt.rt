//! What stops an instruction that looks into the heap.

use cjc_frame::Exception;

/// An exception of the machine's own, or nothing that applies.
#[derive(Clone, Copy)]
pub enum Halt {
    Raise(Exception),
    Stick,
}
