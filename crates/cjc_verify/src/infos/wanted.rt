//! The info that the package wants beside one of Class.

use cjc_capread::{ClassEntry, InterfaceEntry};

/// The info of an interface or of a class.
#[derive(Drop)]
pub(crate) enum Wanted {
    Interface(InterfaceEntry),
    Class(ClassEntry),
}
