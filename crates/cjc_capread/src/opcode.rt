//! The opcodes of the card (Java Card Virtual Machine Specification 2.2.2, chapter 7).

ghost use Rattle.std.specs.Prelude.{◌≡◌, Some};
ghost use Rattle.cjc_capread.specs.Opcodes.{op_info};
ghost use Rattle.cjc_capread.specs.Working.Shapes.{shape_info};

/// What an opcode alone says of its instruction.
#[derive(Clone, Copy)]
pub struct OpInfo {
    /// In bytes, with the opcode; 0 for the four switches.
    pub length: u8,
    /// Where the index into the constant pool stands, in bytes from the opcode; 0 where there is none.
    pub index_at: u8,
    /// The bytes of the index into the constant pool; 0 where there is none.
    pub index_bytes: u8,
}

/// What follows an opcode.
#[derive(Clone, Copy)]
enum Shape {
    /// There is no such opcode.
    NoOp,
    /// A table, whose length its own numbers say.
    Switch,
    /// Nothing.
    Bare,
    /// So many bytes, none of them an index.
    Bytes1,
    Bytes2,
    Bytes3,
    Bytes4,
    /// An index of one byte or two.
    Index1,
    Index2,
    /// The number of a type and an index of two bytes.
    Typed,
    /// The words of the arguments, an index of two bytes and a token.
    Call,
}

use Shape::{Bare, Bytes1, Bytes2, Bytes3, Bytes4, Call, Index1, Index2, NoOp, Switch, Typed};

/// By opcode, sixteen in a line.
static SHAPES: [Shape; 256] = [
    Bare, Bare, Bare, Bare, Bare, Bare, Bare, Bare, Bare, Bare, Bare, Bare, Bare, Bare, Bare, Bare,
    Bytes1, Bytes2, Bytes1, Bytes2, Bytes4, Bytes1, Bytes1, Bytes1, Bare, Bare, Bare, Bare, Bare,
    Bare, Bare, Bare, Bare, Bare, Bare, Bare, Bare, Bare, Bare, Bare, Bytes1, Bytes1, Bytes1, Bare,
    Bare, Bare, Bare, Bare, Bare, Bare, Bare, Bare, Bare, Bare, Bare, Bare, Bare, Bare, Bare, Bare,
    Bare, Bare, Bare, Bytes1, Bytes1, Bare, Bare, Bare, Bare, Bare, Bare, Bare, Bare, Bare, Bare,
    Bare, Bare, Bare, Bare, Bare, Bare, Bare, Bare, Bare, Bare, Bare, Bare, Bare, Bare, Bytes2,
    Bytes2, Bare, Bare, Bare, Bare, Bare, Bytes1, Bytes1, Bytes1, Bytes1, Bytes1, Bytes1, Bytes1,
    Bytes1, Bytes1, Bytes1, Bytes1, Bytes1, Bytes1, Bytes1, Bytes1, Bytes1, Bytes1, Bytes2, Bytes1,
    Switch, Switch, Switch, Switch, Bare, Bare, Bare, Bare, Index2, Index2, Index2, Index2, Index2,
    Index2, Index2, Index2, Index1, Index1, Index1, Index1, Index1, Index1, Index1, Index1, Index2,
    Index2, Index2, Call, Index2, Bytes1, Index2, Bare, Bare, Typed, Typed, Bytes3, Bytes3, Bytes2,
    Bytes2, Bytes2, Bytes2, Bytes2, Bytes2, Bytes2, Bytes2, Bytes2, Bytes2, Bytes2, Bytes2, Bytes2,
    Bytes2, Bytes2, Bytes2, Bytes2, Index2, Index2, Index2, Index2, Index1, Index1, Index1, Index1,
    Index2, Index2, Index2, Index2, Index1, Index1, Index1, Index1, NoOp, NoOp, NoOp, NoOp, NoOp,
    NoOp, NoOp, NoOp, NoOp, NoOp, NoOp, NoOp, NoOp, NoOp, NoOp, NoOp, NoOp, NoOp, NoOp, NoOp, NoOp,
    NoOp, NoOp, NoOp, NoOp, NoOp, NoOp, NoOp, NoOp, NoOp, NoOp, NoOp, NoOp, NoOp, NoOp, NoOp, NoOp,
    NoOp, NoOp, NoOp, NoOp, NoOp, NoOp, NoOp, NoOp, NoOp, NoOp, NoOp, NoOp, NoOp, NoOp, NoOp, NoOp,
    NoOp, NoOp, NoOp, NoOp, NoOp, NoOp, NoOp, NoOp, NoOp, NoOp, NoOp, NoOp, NoOp, NoOp, NoOp, NoOp,
    Bare, Bare,
];

fn info(length: u8, index_at: u8, index_bytes: u8) -> Option<OpInfo>
    ensures { result ≡ Some (record { length = length; index_at = index_at; index_bytes = index_bytes }) }
{
    Some(OpInfo {
        length,
        index_at,
        index_bytes,
    })
}

fn info_of(shape: Shape) -> Option<OpInfo>
    ensures { result ≡ shape_info shape }
{
    match shape {
        NoOp => None,
        Switch => info(0, 0, 0),
        Bare => info(1, 0, 0),
        Bytes1 => info(2, 0, 0),
        Bytes2 => info(3, 0, 0),
        Bytes3 => info(4, 0, 0),
        Bytes4 => info(5, 0, 0),
        Index1 => info(2, 1, 1),
        Index2 => info(3, 1, 2),
        Typed => info(4, 2, 2),
        Call => info(5, 2, 2),
    }
}

/// What the opcode says of its instruction; `None` exactly where there is no such opcode.
pub fn op(byte: u8) -> Option<OpInfo>
    ensures { result ≡ op_info byte }
{
    info_of(SHAPES[usize::from(byte)])
}
