//! What iadd to ixor give of two numbers (Java Virtual Machine Specification, 6.5).

ghost use Rattle.std.specs.Prelude.{◌≡◌};
ghost use Rattle.cjc_by_name.specs.Arithmetic.{operation};
ghost use Rattle.cjc_frame.specs.Calculations.{calculation};

use crate::number::{
    and_of, difference_of, left_shift_of, or_of, product_of, quotient_of, remainder_of,
    right_shift_of, sum_of, unsigned_shift_of, xor_of,
};

/// What an instruction of two numbers gives of them.
#[derive(Clone, Copy)]
pub enum Calculation {
    Number(i32),
    /// A division, or a remainder, by 0.
    ByZero,
    /// The opcode is that of no such instruction.
    Nothing,
}

/// The result of an opcode at two numbers, the upper one last.
pub fn calculate(op: u8, x: i32, y: i32) -> Calculation
    ensures { result ≡ calculation (operation op) x y }
{
    match op {
        0x60 => Calculation::Number(sum_of(x, y)),
        0x64 => Calculation::Number(difference_of(x, y)),
        0x68 => Calculation::Number(product_of(x, y)),
        0x6C if y == 0 => Calculation::ByZero,
        0x6C => Calculation::Number(quotient_of(x, y)),
        0x70 if y == 0 => Calculation::ByZero,
        0x70 => Calculation::Number(remainder_of(x, y)),
        0x78 => Calculation::Number(left_shift_of(x, y)),
        0x7A => Calculation::Number(right_shift_of(x, y)),
        0x7C => Calculation::Number(unsigned_shift_of(x, y)),
        0x7E => Calculation::Number(and_of(x, y)),
        0x80 => Calculation::Number(or_of(x, y)),
        0x82 => Calculation::Number(xor_of(x, y)),
        _ => Calculation::Nothing,
    }
}
