//! Instructions of the Java Virtual Machine (its specification, chapter 6), as far as the classes that are made have
//! them. Called by `classes`; `class_file` writes them.

/// An instruction: its opcode, and the two bytes behind it where it has some.
#[derive(Clone, Copy)]
pub(crate) enum Instruction {
    Alone(u8),
    Followed(u8, u16),
}

pub(crate) const SIPUSH: u8 = 0x11;

pub(crate) const ILOAD_0: u8 = 0x1A;

pub(crate) const ILOAD_1: u8 = 0x1B;

pub(crate) const ALOAD_0: u8 = 0x2A;

pub(crate) const DUP: u8 = 0x59;

pub(crate) const IADD: u8 = 0x60;

pub(crate) const IXOR: u8 = 0x82;

pub(crate) const I2S: u8 = 0x93;

pub(crate) const IRETURN: u8 = 0xAC;

pub(crate) const RETURN: u8 = 0xB1;

pub(crate) const INVOKEVIRTUAL: u8 = 0xB6;

pub(crate) const INVOKESPECIAL: u8 = 0xB7;

pub(crate) const NEW: u8 = 0xBB;
