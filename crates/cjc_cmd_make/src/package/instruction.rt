//! Instructions of the Java Virtual Machine (its specification, chapter 6), as far as the classes that are made have
//! them. Called by `classes`; `class_file` writes them.

/// An instruction: its opcode, and the two bytes behind it where it has some.
#[derive(Clone, Copy)]
pub(crate) enum Instruction {
    Alone(u8),
    Followed(u8, u16),
}
