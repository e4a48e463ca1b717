//! What the package wants of Descriptor, but for offsets in it.

use cjc_bytes::{Bytes, Row};
use cjc_capread::FieldPlace;

/// The type of a field.
#[derive(Drop)]
pub(crate) enum WantedType {
    Boolean,
    Byte,
    Short,
    Int,
    /// A reference, by the nibbles of its type; none where the card has no values of it.
    Described(Option<Bytes>),
    /// The card has no values of it.
    NoValue,
}

/// A field.
#[derive(Drop)]
pub(crate) struct WantedField {
    /// 0xFF where it has none.
    pub(crate) token: u8,
    pub(crate) flags: u8,
    pub(crate) place: FieldPlace,
    pub(crate) type_: WantedType,
}

/// A method.
#[derive(Drop)]
pub(crate) struct WantedMethod {
    /// 0xFF where it has none.
    pub(crate) token: u8,
    pub(crate) flags: u8,
    /// The nibbles of its type; none where the card has no values of one of its types.
    pub(crate) nibbles: Option<Bytes>,
}

/// A class or interface.
#[derive(Drop)]
pub(crate) struct WantedClass {
    /// 0xFF where it is not exported.
    pub(crate) token: u8,
    pub(crate) flags: u8,
    pub(crate) fields: Row<WantedField>,
    pub(crate) methods: Row<WantedMethod>,
}

/// The type of an entry of the constant pool.
#[derive(Drop)]
pub(crate) enum WantedEntry {
    /// A class has none.
    Class,
    /// The nibbles of the member's type; none where there is no such member, or the card has no values of one of its
    /// types.
    Member(Option<Bytes>),
}
