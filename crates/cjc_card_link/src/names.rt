//! Names beside components: of each class info its class, methods and fields, in the order of the components. A
//! CAP file has no names, so whoever runs one gives them.

use cjc_check_index::bytes::{Bytes, Row};

/// The name and descriptor of a method.
#[derive(Drop)]
pub struct MethodName {
    pub name: Bytes,
    pub desc: Bytes,
}

/// An instance field by its token.
#[derive(Drop)]
pub struct FieldName {
    pub token: u8,
    pub name: Bytes,
    pub desc: Bytes,
}

/// Of the class info with the same number: its name, the methods of its class as Descriptor lists them, its
/// instance fields in the order of the class file, and of an interface its methods by token.
#[derive(Drop)]
pub struct ClassNames {
    pub name: Bytes,
    pub methods: Row<MethodName>,
    pub fields: Row<FieldName>,
    pub interface_methods: Row<MethodName>,
}
