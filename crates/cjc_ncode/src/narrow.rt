//! Narrow instructions and methods. Called by whoever selects, lays out and emits code; they know no token
//! and no offset.

use cjc_code::bytes::{Bytes, MemberId, Row};

/// What an entry of the constant pool names (Java Card Virtual Machine Specification 2.2.2, section 6.7).
#[derive(Drop)]
pub enum PoolKey {
    Class(Bytes),
    Field(MemberId),
    Virtual(MemberId),
    /// The class is the one that holds the code.
    Super(MemberId),
    StaticField(MemberId),
    StaticMethod(MemberId),
}

/// What an instruction of the class file is to an aload_0 and a field instruction that are written as one.
#[derive(Clone, Copy)]
pub enum PairRole {
    /// It is neither of the two.
    Alone,
    /// The aload_0, which is left out.
    Opens,
    /// The field instruction, which reads local 0 itself.
    Closes,
}

/// A case of a switch.
#[derive(Clone, Copy)]
pub struct NCase {
    pub value: i32,
    /// A place in the list of instructions.
    pub target: u32,
}

/// An instruction of the card (Java Card Virtual Machine Specification 2.2.2, chapter 7). `op` is its opcode,
/// of a jump the narrow one, since the layout chooses. Targets are places in the list of instructions.
#[derive(Drop)]
pub enum NInsn {
    /// Without operand.
    Op(u8),
    /// A number that is pushed.
    Push {
        op: u8,
        value: i32,
    },
    /// A local by its number.
    Local {
        op: u8,
        index: u8,
    },
    Inc {
        op: u8,
        index: u8,
        by: i16,
    },
    /// dup_x and swap_x.
    Words {
        op: u8,
        m: u8,
        n: u8,
    },
    Jump {
        op: u8,
        target: u32,
    },
    /// `other` is the default; `low` is the first value of a table, and 0 of a lookup switch.
    Switch {
        op: u8,
        other: u32,
        low: i32,
        cases: Row<NCase>,
    },
    /// With an index into the constant pool as its one operand.
    Named {
        op: u8,
        key: PoolKey,
    },
    /// invokeinterface; `nargs` counts words with the receiver.
    Interface {
        nargs: u8,
        method: MemberId,
    },
    /// newarray: boolean 10, byte 11, short 12, int 13.
    NewArray(u8),
    /// checkcast and instanceof: the types of newarray, 14 for an array of references to the class, 0 for the
    /// class; of types 10 to 13 the class is None.
    TypeTest {
        op: u8,
        kind: u8,
        class: Option<Bytes>,
    },
}

/// An exception handler; its bounds are places in the list of instructions.
#[derive(Drop)]
pub struct NCatch {
    pub start: u32,
    /// The place behind the last one covered.
    pub end: u32,
    pub target: u32,
    /// None for any exception.
    pub class: Option<Bytes>,
    /// The handler's target in the class file, in bytes.
    pub at: u32,
}

/// A method with its code.
#[derive(Drop)]
pub struct NMethod {
    pub insns: Row<NInsn>,
    /// For each instruction the place of its JVM instruction in the method's list.
    pub from: Row<u32>,
    pub catches: Row<NCatch>,
    pub max_stack: u8,
    /// The words of the arguments, the receiver counted.
    pub nargs: u8,
    /// The further cells of locals.
    pub max_locals: u8,
    /// The sum of the widest sizes of the method's reached JVM instructions, in bytes.
    pub widest: u32,
}
