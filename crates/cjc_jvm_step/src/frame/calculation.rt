//! What iadd to ixor give of two numbers (Java Virtual Machine Specification, 6.5).

ghost use Rattle.std.specs.Prelude.{◌≡◌};
ghost use Rattle.cjc_jvm_semantics.specs.Arithmetic.{operation};
ghost use Rattle.cjc_jvm_step.specs.Frame.Calculations.{calculation};

use crate::frame::number::{
    and_of, difference_of, left_shift_of, or_of, product_of, quotient_of, remainder_of,
    right_shift_of, sum_of, unsigned_shift_of, xor_of,
};
use cjc_jvm_semantics::bytecode::jvm;

/// What an instruction of two numbers gives of them.
#[derive(Clone, Copy)]
pub enum Calculation {
    Number(i32),
    /// A division, or a remainder, by 0.
    ByZero,
    /// The opcode is that of no such instruction.
    Nothing,
}

/// The result of an opcode at two numbers, the upper one last.
pub fn calculate(op: u8, x: i32, y: i32) -> Calculation
    ensures { result ≡ calculation (operation op) x y }
{
    match op {
        jvm::IADD => Calculation::Number(sum_of(x, y)),
        jvm::ISUB => Calculation::Number(difference_of(x, y)),
        jvm::IMUL => Calculation::Number(product_of(x, y)),
        jvm::IDIV if y == 0 => Calculation::ByZero,
        jvm::IDIV => Calculation::Number(quotient_of(x, y)),
        jvm::IREM if y == 0 => Calculation::ByZero,
        jvm::IREM => Calculation::Number(remainder_of(x, y)),
        jvm::ISHL => Calculation::Number(left_shift_of(x, y)),
        jvm::ISHR => Calculation::Number(right_shift_of(x, y)),
        jvm::IUSHR => Calculation::Number(unsigned_shift_of(x, y)),
        jvm::IAND => Calculation::Number(and_of(x, y)),
        jvm::IOR => Calculation::Number(or_of(x, y)),
        jvm::IXOR => Calculation::Number(xor_of(x, y)),
        _ => Calculation::Nothing,
    }
}
