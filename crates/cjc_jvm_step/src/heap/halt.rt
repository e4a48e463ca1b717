//! Why a look into the heap gives nothing: an exception of the machine's own, or that nothing applies.
//! Instructions make a deed of it.

use crate::frame::Exception;

/// An exception of the machine's own, or nothing that applies.
#[derive(Clone, Copy)]
pub enum Halt {
    Raise(Exception),
    Stick,
}
