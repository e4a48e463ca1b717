//! What the program's list says of a package beside its name, for every crate that works by it. It knows
//! no text of a list.

use crate::row::{Bytes, Row};

/// A file that the list names, in the order of its lines.
#[derive(Drop)]
pub struct FileLine {
    /// Whether it is a class file; else it is an export file.
    pub class_file: bool,
    /// The name as the list has it.
    pub name: Bytes,
}

/// An applet of the package.
#[derive(Drop)]
pub struct AppletLine {
    /// The full name of its class, the parts joined by `/`.
    pub class: Bytes,
    /// Its AID, 5 to 16 bytes.
    pub aid: Bytes,
}

/// What the list settles for all classes of the package.
#[derive(Drop)]
pub struct Settings {
    /// Whether the type int is allowed.
    pub ints: bool,
    /// The applets, in the order of their lines.
    pub applets: Row<AppletLine>,
}
