//! `Value`: a number, null, or an object by its number. Scripts give it, both machines hold it, and reports
//! tell it.

/// A number, null, or an object by its number.
#[derive(Clone, Copy)]
pub enum Value {
    Num(i32),
    Null,
    /// The number of an object or array, from 0 in order of creation.
    Obj(u32),
}
