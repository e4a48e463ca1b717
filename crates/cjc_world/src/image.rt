//! `StaticImage`, what the static fields of a package hold at first, in the order of the card's cells (Java
//! Card Virtual Machine Specification 2.2.2, section 6.10). It is made and read in crates above.

use cjc_bytes::{Kind, MemberId, Row};

/// An array that is made before anything runs, and the field that holds it (Java Card Virtual Machine Specification,
/// section 6.10).
#[derive(Drop)]
pub struct ArrayCell {
    pub field: MemberId,
    /// The kind of its items: boolean, byte, short or int.
    pub kind: Kind,
    /// The items, in order.
    pub items: Row<i32>,
}

/// A static field of a number, and its initial value.
#[derive(Drop)]
pub struct ValueCell {
    pub field: MemberId,
    pub value: i32,
}

/// The static fields of a package in the order of the card's cells, by what they hold at first: arrays in the order
/// of making, null references, numbers that are 0, and other numbers. In each group but the first the classes are in
/// list order, and the fields of a class in the order of its file.
#[derive(Drop)]
pub struct StaticImage {
    pub arrays: Row<ArrayCell>,
    pub nulls: Row<MemberId>,
    pub zeros: Row<MemberId>,
    pub others: Row<ValueCell>,
}
