//! `List`: a package with its AID, its version, its applets and the names of its class files and export files,
//! as a list gives them. Every command starts from it.

use cjc_bytes::{AppletLine, Bytes, FileLine, Row};

/// A package with the files that make it up.
#[derive(Drop)]
pub struct List {
    /// The name of the list itself, as the command has it.
    pub name: Bytes,
    /// The name of the package, its parts joined by `/`.
    pub package: Bytes,
    /// The AID of the package, 5 to 16 bytes.
    pub aid: Bytes,
    /// The version of the package.
    pub major: u8,
    pub minor: u8,
    /// Whether the type int is allowed, as a line `int` says.
    pub ints: bool,
    /// The applets, in the order of their lines.
    pub applets: Row<AppletLine>,
    /// The class files and export files, in the order of their lines.
    pub lines: Row<FileLine>,
}
