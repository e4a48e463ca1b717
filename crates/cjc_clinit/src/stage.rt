//! The state of going through an initialiser: what it has put into each field, and how far it is in a
//! statement, an array under way with its items so far.

use cjc_bytes::{Kind, Row};

/// What was put into a field of a class.
#[derive(Clone, Copy)]
pub enum Held {
    Nothing,
    Number(i32),
    Null,
    Array,
}

/// What a static field that holds no array holds at first.
#[derive(Clone, Copy)]
pub enum Start {
    Null,
    Number(i32),
}

/// How far an initialiser is in a statement: what its instructions have left on the stack. An array is told by the kind
/// and the values of its items.
#[derive(Drop)]
pub enum Stage {
    /// No statement has begun.
    Free,
    Number(i32),
    Null,
    Array(Kind, Row<i32>),
    /// The array twice.
    Copied(Kind, Row<i32>),
    /// The array twice, and an index in it.
    Indexed(Kind, Row<i32>, u32),
    /// The array twice, an index in it, and a value for its item.
    Valued(Kind, Row<i32>, u32, i32),
    /// The return is past.
    Ended,
}
