//! The operands of an instruction, of a switch those before its table. Called by `insn`.

ghost use Rattle.std.specs.Prelude.{◌≡◌, ◌+◌, ◌≤◌, [], ◌∷◌, drop, length, Some};
ghost use Rattle.cjc_capread.specs.Decode.{operands_of};
ghost use Rattle.cjc_capread.specs.Opcodes.{width, widths};
ghost use Rattle.cjc_capread.specs.Decoder.Decoded.{values};
ghost use Rattle.cjc_capread.specs.Decoder.Shapes.{before, form_of, operand_of};

use crate::decoder::number::{Kind, operand, width};
use crate::decoder::shape::Shape;

/// The operands of an instruction in order.
#[derive(Clone, Copy)]
pub enum Operands {
    None,
    One(i32),
    Two(i32, i32),
    Three(i32, i32, i32),
}

/// Two operands at the front of the bytes behind the opcode.
fn two(first: Kind, second: Kind, bytes: &[u8]) -> Operands
    requires { 1 + width (operand_of first) + width (operand_of second) ≤ length bytes.now }
    ensures { operands_of (operand_of first ∷ operand_of second ∷ []) (drop 1 bytes.now)
        ≡ Some (record {
          values = values result;
          rest = drop (1 + width (operand_of first) + width (operand_of second))
              bytes.now;
        }) }
{
    let one = operand(first, bytes, 1);
    Operands::Two(one, operand(second, bytes, 1 + width(first)))
}

/// Three operands at the front of the bytes behind the opcode.
fn three(first: Kind, second: Kind, third: Kind, bytes: &[u8]) -> Operands
    requires { 1 + width (operand_of first) + width (operand_of second) + width (operand_of third) ≤ length bytes.now }
    ensures { operands_of (operand_of first ∷ operand_of second ∷ operand_of third ∷ []) (drop 1 bytes.now)
        ≡ Some (record {
          values = values result;
          rest = drop (1 + width (operand_of first) + width (operand_of second) +
              width (operand_of third)) bytes.now;
        }) }
{
    let one = operand(first, bytes, 1);
    let two = operand(second, bytes, 1 + width(first));
    let three = operand(third, bytes, 1 + width(first) + width(second));
    Operands::Three(one, two, three)
}

/// The operands at the front of the bytes behind the opcode.
pub(crate) fn operands_before(shape: Shape, bytes: &[u8]) -> Operands
    requires { 1 + widths (before (form_of shape)) ≤ length bytes.now }
    ensures { operands_of (before (form_of shape)) (drop 1 bytes.now) ≡ Some (record {
      values = values result;
      rest = drop (1 + widths (before (form_of shape))) bytes.now;
    }) }
{
    match shape {
        Shape::NoOp | Shape::Bare => Operands::None,
        Shape::Byte => Operands::One(operand(Kind::Byte, bytes, 1)),
        Shape::Signed1 => Operands::One(operand(Kind::Signed1, bytes, 1)),
        Shape::Signed2 => Operands::One(operand(Kind::Signed2, bytes, 1)),
        Shape::Signed4 => Operands::One(operand(Kind::Signed4, bytes, 1)),
        Shape::Index1 => Operands::One(operand(Kind::Index1, bytes, 1)),
        Shape::Index2 => Operands::One(operand(Kind::Index2, bytes, 1)),
        Shape::Increment1 => two(Kind::Byte, Kind::Signed1, bytes),
        Shape::Increment2 => two(Kind::Byte, Kind::Signed2, bytes),
        Shape::Typed => two(Kind::Byte, Kind::Index2, bytes),
        Shape::ShortPairs | Shape::IntPairs => two(Kind::Signed2, Kind::Index2, bytes),
        Shape::Call => three(Kind::Byte, Kind::Index2, Kind::Byte, bytes),
        Shape::ShortTable => three(Kind::Signed2, Kind::Signed2, Kind::Signed2, bytes),
        Shape::IntTable => three(Kind::Signed2, Kind::Signed4, Kind::Signed4, bytes),
    }
}
