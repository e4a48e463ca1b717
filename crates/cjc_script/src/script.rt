//! `Script`: the entries that a run is to make, each with acts before it, and what imported calls are to
//! answer. Both machines are given it; nothing here reads text.

use crate::value::Value;
use cjc_bytes::{Bytes, MemberId, Row};

/// The entry calls and the answers to imported calls, each in order.
#[derive(Drop)]
pub struct Script {
    pub entries: Row<Entry>,
    pub answers: Row<Answer>,
}

/// A call that a run begins with when no other call is active.
#[derive(Drop)]
pub struct Entry {
    /// Its place among the script's entries and answers together, from 0.
    pub number: u32,
    /// What happens just before the call.
    pub acts: Row<Act>,
    /// Whether the method is selected on the object that stands first in `args`.
    pub virtual_call: bool,
    pub method: MemberId,
    pub args: Row<Value>,
}

/// What an imported call does.
#[derive(Drop)]
pub struct Answer {
    /// Its place among the script's entries and answers together, from 0.
    pub number: u32,
    /// What happens just before the answer.
    pub acts: Row<Act>,
    pub reply: Reply,
}

/// How an imported call ends.
#[derive(Drop)]
pub enum Reply {
    /// It returns, with the value if its type has one.
    Give(Option<Value>),
    /// It makes an object of the imported class and throws it.
    Throw(Bytes),
}

/// A change of the heap that the script makes.
#[derive(Drop)]
pub enum Act {
    /// Makes an array. The descriptor is the array's, the length counts elements.
    Array {
        desc: Bytes,
        length: i32,
    },
    /// Makes an object of an imported class.
    Object {
        class: Bytes,
    },
    /// Writes an element of the array with this number.
    Put {
        array: u32,
        index: i32,
        value: Value,
    },
}
