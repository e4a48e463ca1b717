//! What an export file says (Java Card Virtual Machine Specification 2.2.2, chapter 5). Names and descriptors
//! are bytes as they stand in its pool.

use cjc_bytes::{Bytes, Row};

/// A package and what it exports.
pub struct ExportTree {
    /// The package's name, its parts joined by `/`.
    pub name: Bytes,
    pub aid: Bytes,
    pub major: u8,
    pub minor: u8,
    /// Whether the package is a library, which has no applet.
    pub library: bool,
    pub classes: Row<ExportClass>,
}

impl Drop for ExportTree {
    fn drop(self) {
        let ExportTree {
            name: _name,
            aid: _aid,
            major: _major,
            minor: _minor,
            library: _library,
            classes: _classes,
        } = self;
    }
}

/// An exported class or interface.
pub struct ExportClass {
    pub token: u8,
    pub flags: u16,
    /// The full name.
    pub name: Bytes,
    /// The superclasses that the file lists, direct or not.
    pub listed: Row<Bytes>,
    /// The superclasses: those, and last java/lang/Object where the file does not list it above another class.
    pub supers: Row<Bytes>,
    /// Interfaces, direct or not.
    pub interfaces: Row<Bytes>,
    pub fields: Row<ExportField>,
    pub methods: Row<ExportMethod>,
}

impl Drop for ExportClass {
    fn drop(self) {
        let ExportClass {
            token: _token,
            flags: _flags,
            name: _name,
            listed: _listed,
            supers: _supers,
            interfaces: _interfaces,
            fields: _fields,
            methods: _methods,
        } = self;
    }
}

/// A field that can be used.
#[derive(Drop)]
pub struct ExportField {
    /// 0xFF of a constant.
    pub token: u8,
    pub flags: u16,
    pub name: Bytes,
    pub desc: Bytes,
    /// The value of a static final field of boolean, byte, short or int that has a ConstantValue.
    pub constant: Option<i32>,
}

/// A method that can be used.
#[derive(Drop)]
pub struct ExportMethod {
    pub token: u8,
    pub flags: u16,
    pub name: Bytes,
    pub desc: Bytes,
}
