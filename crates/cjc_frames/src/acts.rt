//! What an instruction is to stack and locals: what it needs of the words that it takes and of the locals that it
//! reads, what it gives, and where it goes. Made by whoever knows opcodes; knows none itself.

use cjc_fixpoint::bytes::{Bytes, Row};

/// What a word is to be. Reference types are named by their nibbles in a type descriptor.
#[derive(Drop)]
pub enum Need {
    AnyWord,
    NumberWord,
    ReferenceWord,
    /// A reference all of whose types are of this one.
    OfType(Bytes),
    /// A reference all of whose types begin with one of these nibbles.
    OfArrays(Bytes),
}

/// A word that is put on the stack or into a local.
#[derive(Drop)]
pub enum Given {
    ANumber,
    ANull,
    /// A reference of this type.
    AnObject(Bytes),
    /// Nothing that is of use.
    Lost,
    /// The operand of this number from the top.
    Operand(u8),
    /// The same, where it is a reference.
    Reference(u8),
    /// The reference in a local.
    Local(u32),
    /// An element of the array of references that is the operand of this number.
    Element(u8),
    /// A word of an element of the array of numbers that is the operand of this number.
    Item(u8),
}

/// A local that is read, and what it is to hold.
#[derive(Drop)]
pub struct Read {
    pub local: u32,
    pub need: Need,
}

/// A local that is written, and what it then holds.
#[derive(Drop)]
pub struct Write {
    pub local: u32,
    pub given: Given,
}

/// What an instruction is to stack and locals, and where it goes.
pub struct Act {
    /// The words that it takes, the top first.
    pub takes: Row<Need>,
    pub reads: Row<Read>,
    /// The words that it puts, the top first.
    pub gives: Row<Given>,
    pub writes: Row<Write>,
    /// Whether the next instruction may follow.
    pub falls: bool,
    /// The offsets of others that may follow.
    pub targets: Row<u64>,
    /// Whether it hands nothing on, not even to handlers.
    pub ends: bool,
    /// Whether its letter is not that of what its entry names, or it returns what its method does not.
    pub misfits: bool,
    /// Whether it is jsr, ret or a reserved opcode, or an operand is none that it may have.
    pub is_unknown: bool,
    /// Whether what its entry names may not be named so.
    pub misnames: bool,
}

impl Drop for Act {
    fn drop(self) {
        let Act {
            takes: _takes,
            reads: _reads,
            gives: _gives,
            writes: _writes,
            falls: _falls,
            targets: _targets,
            ends: _ends,
            misfits: _misfits,
            is_unknown: _is_unknown,
            misnames: _misnames,
        } = self;
    }
}

/// An instruction and its offset, in bytes from the start of the info of Method.
#[derive(Drop)]
pub struct Step {
    pub at: u32,
    pub act: Act,
}

/// A handler: where its range starts, how many bytes that has, where it begins, and the type that it takes.
#[derive(Drop)]
pub struct Catch {
    pub start: u64,
    pub length: u64,
    pub target: u64,
    pub caught: Option<Bytes>,
}
