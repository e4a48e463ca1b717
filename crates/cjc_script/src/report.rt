//! `Report`: the notes of a run in order, its static fields and heap at the end, and how it ended. Both
//! machines make one, and it is by reports that they are said to behave alike.

use crate::value::Value;
use cjc_bytes::{Bytes, MemberId, Row};

/// What a run made known when it ended or was cut off.
#[derive(Drop)]
pub struct Report {
    /// Imported calls and ended entries, in order.
    pub notes: Row<Note>,
    /// The package's static cells, classes in list order and fields in class file order.
    pub statics: Row<FieldValue>,
    /// Arrays and objects in order of creation.
    pub heap: Row<Thing>,
    pub outcome: Outcome,
    /// How many instructions were run.
    pub spent: u32,
}

/// Something that happened in a run.
#[derive(Drop)]
pub enum Note {
    /// An imported call, its arguments with the receiver first.
    Event { callee: MemberId, args: Row<Value> },
    /// An entry returned, with the value if its type has one.
    Result(Option<Value>),
    /// An entry ended by an exception of this class, which is the object with this number.
    Thrown { class: Bytes, object: u32 },
}

/// A field and what it holds.
#[derive(Drop)]
pub struct FieldValue {
    pub field: MemberId,
    pub value: Value,
}

/// An array or an object of the heap.
#[derive(Drop)]
pub enum Thing {
    /// The descriptor is the array's.
    Array {
        desc: Bytes,
        items: Row<Value>,
    },
    /// The fields that the package's classes declare, those of the superclass first.
    Object {
        class: Bytes,
        fields: Row<FieldValue>,
    },
}

/// How a run ends.
#[derive(Clone, Copy)]
pub enum Outcome {
    /// All entries ended.
    Done,
    /// The instructions are spent, and the next entry or instruction is still to come.
    Running,
    /// An imported call has no answer left.
    Waiting,
    /// The entry or answer with this number does not fit.
    Unfit(u32),
    /// No row of the machine applies at this offset, in bytes: of the code by name, of the methods' component
    /// by token.
    Stuck(u32),
}
