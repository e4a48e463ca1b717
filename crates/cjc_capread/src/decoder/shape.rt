//! What follows each opcode (Java Card Virtual Machine Specification 2.2.2, chapter 7). Called by `insn`.

ghost use Rattle.std.specs.Prelude.{◌≡◌, ◌+◌};
ghost use Rattle.cjc_capread.specs.Opcodes.{form, widths};
ghost use Rattle.cjc_capread.specs.Decoder.Shapes.{before, form_of};

/// What follows an opcode.
#[derive(Clone, Copy)]
pub enum Shape {
    /// There is no such opcode.
    NoOp,
    /// Nothing.
    Bare,
    /// A number of one byte without sign.
    Byte,
    /// A number of one, two or four bytes with sign.
    Signed1,
    Signed2,
    Signed4,
    /// An increment: the number of a local, and what is added to it, in one byte or two.
    Increment1,
    Increment2,
    /// An index into the constant pool of one byte or two.
    Index1,
    Index2,
    /// The number of a type and an index of two bytes.
    Typed,
    /// The words of the arguments, an index of two bytes and a token.
    Call,
    /// A table of offsets, whose low and high match have two bytes or four.
    ShortTable,
    IntTable,
    /// A table of matches, of two bytes or four, and offsets.
    ShortPairs,
    IntPairs,
}

use Shape::{
    Bare, Byte, Call, Increment1, Increment2, Index1, Index2, IntPairs, IntTable, NoOp, ShortPairs,
    ShortTable, Signed1, Signed2, Signed4, Typed,
};

/// By opcode.
static SHAPES: [Shape; 256] = [
    Bare, Bare, Bare, Bare, Bare, Bare, Bare, Bare, Bare, Bare, Bare, Bare, Bare, Bare, Bare, Bare,
    Signed1, Signed2, Signed1, Signed2, Signed4, Byte, Byte, Byte, Bare, Bare, Bare, Bare, Bare,
    Bare, Bare, Bare, Bare, Bare, Bare, Bare, Bare, Bare, Bare, Bare, Byte, Byte, Byte, Bare, Bare,
    Bare, Bare, Bare, Bare, Bare, Bare, Bare, Bare, Bare, Bare, Bare, Bare, Bare, Bare, Bare, Bare,
    Bare, Bare, Byte, Byte, Bare, Bare, Bare, Bare, Bare, Bare, Bare, Bare, Bare, Bare, Bare, Bare,
    Bare, Bare, Bare, Bare, Bare, Bare, Bare, Bare, Bare, Bare, Bare, Bare, Increment1, Increment1,
    Bare, Bare, Bare, Bare, Bare, Signed1, Signed1, Signed1, Signed1, Signed1, Signed1, Signed1,
    Signed1, Signed1, Signed1, Signed1, Signed1, Signed1, Signed1, Signed1, Signed1, Signed1,
    Signed2, Byte, ShortTable, IntTable, ShortPairs, IntPairs, Bare, Bare, Bare, Bare, Index2,
    Index2, Index2, Index2, Index2, Index2, Index2, Index2, Index1, Index1, Index1, Index1, Index1,
    Index1, Index1, Index1, Index2, Index2, Index2, Call, Index2, Byte, Index2, Bare, Bare, Typed,
    Typed, Increment2, Increment2, Signed2, Signed2, Signed2, Signed2, Signed2, Signed2, Signed2,
    Signed2, Signed2, Signed2, Signed2, Signed2, Signed2, Signed2, Signed2, Signed2, Signed2,
    Index2, Index2, Index2, Index2, Index1, Index1, Index1, Index1, Index2, Index2, Index2, Index2,
    Index1, Index1, Index1, Index1, NoOp, NoOp, NoOp, NoOp, NoOp, NoOp, NoOp, NoOp, NoOp, NoOp,
    NoOp, NoOp, NoOp, NoOp, NoOp, NoOp, NoOp, NoOp, NoOp, NoOp, NoOp, NoOp, NoOp, NoOp, NoOp, NoOp,
    NoOp, NoOp, NoOp, NoOp, NoOp, NoOp, NoOp, NoOp, NoOp, NoOp, NoOp, NoOp, NoOp, NoOp, NoOp, NoOp,
    NoOp, NoOp, NoOp, NoOp, NoOp, NoOp, NoOp, NoOp, NoOp, NoOp, NoOp, NoOp, NoOp, NoOp, NoOp, NoOp,
    NoOp, NoOp, NoOp, NoOp, NoOp, NoOp, NoOp, NoOp, NoOp, NoOp, NoOp, Bare, Bare,
];

/// What follows an opcode.
pub(crate) fn shape_of(opcode: u8) -> Shape
    ensures { form_of result ≡ form opcode }
{
    SHAPES[usize::from(opcode)]
}

/// The bytes of an opcode with its operands, a table left out.
pub(crate) fn size_before(shape: Shape) -> usize
    ensures { result ≡ 1 + widths (before (form_of shape)) }
{
    match shape {
        NoOp | Bare => 1,
        Byte | Signed1 | Index1 => 2,
        Signed2 | Increment1 | Index2 => 3,
        Increment2 | Typed => 4,
        Signed4 | Call | ShortPairs | IntPairs => 5,
        ShortTable => 7,
        IntTable => 11,
    }
}
