//! Instructions as the crates above see them: no constant pool index is left, a field, a method or a class
//! stands by its name, and a jump by the offset of its target.

use cjc_bytes::{Bytes, MemberId, Row};

/// An instruction and where it stands.
#[derive(Drop)]
pub struct JInsn {
    /// The offset of its opcode in the code, in bytes; with the prefix `wide`, of the prefix.
    pub at: u32,
    pub op: JOp,
}

/// A case of a lookupswitch.
#[derive(Clone, Copy)]
pub struct JCase {
    pub value: i32,
    /// The offset in the code, in bytes.
    pub target: u32,
}

/// What an instruction does (Java Virtual Machine Specification, chapter 6). A `u8` is the opcode. Targets
/// are offsets in the code, in bytes.
#[derive(Drop)]
pub enum JOp {
    Nop,
    /// aconst_null.
    Null,
    /// iconst, bipush, sipush, and ldc or ldc_w of an Integer.
    Number(i32),
    /// iload or aload.
    Load {
        refs: bool,
        local: u16,
    },
    /// istore or astore.
    Store {
        refs: bool,
        local: u16,
    },
    ArrayLoad(u8),
    ArrayStore(u8),
    /// pop to swap, 0x57 to 0x5F.
    Stack(u8),
    /// Arithmetic, shifts and logic on int.
    Arith(u8),
    Inc {
        local: u16,
        by: i16,
    },
    /// i2b or i2s.
    Narrow(u8),
    /// Every conditional jump.
    If {
        op: u8,
        target: u32,
    },
    Goto(u32),
    /// `other` is the default, and `targets` are for the values from `low` on.
    TableSwitch {
        other: u32,
        low: i32,
        targets: Row<u32>,
    },
    /// `other` is the default.
    LookupSwitch {
        other: u32,
        cases: Row<JCase>,
    },
    /// ireturn, areturn or return.
    Return(u8),
    /// getstatic or putstatic.
    Static {
        put: bool,
        field: MemberId,
    },
    /// getfield or putfield.
    Field {
        put: bool,
        field: MemberId,
    },
    /// invokevirtual, invokespecial, invokestatic or invokeinterface.
    Call {
        op: u8,
        method: MemberId,
    },
    New(Bytes),
    /// newarray, by its type number.
    NewArray(u8),
    ANewArray(Bytes),
    ArrayLength,
    Throw,
    CheckCast(Bytes),
    InstanceOf(Bytes),
}
