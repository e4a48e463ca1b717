//! Words of 16 bits, pairs of them that spell a number of 32 bits, and what the card calculates with them (Java Card
//! Virtual Machine Specification 2.2.2, chapters 3 and 7). Called by the instructions that calculate.

ghost use Rattle.std.specs.Prelude.{◌≡◌, ◌≢◌, ◌+ℤ◌, pos, FitsSigned};
ghost use Rattle.std.specs.Int.{w16, w32};
ghost use Rattle.cjc_card_semantics.specs.Range.Words.{low_byte, low_word, wide};
ghost use Rattle.cjc_card_semantics.specs.Bytecode.Numbers.{high_word, spelt_by, compared};
ghost use Rattle.cjc_card_frame.specs.Meanings.{exact, exact_division};

use crate::opcodes::{Division, Operation};
use cjc_jvm_step::frame::number::{
    and_of, byte_of, difference_of, left_shift_of, or_of, product_of, quotient_of, remainder_of,
    right_shift_of, short_of, sum_of, unsigned_shift_of, xor_of,
};

/// The number of 32 bits that two words spell.
pub fn spelt_by(high: i32, low: i32) -> i32
    requires { FitsSigned w16 low }
    ensures { result ≡ spelt_by high low }
{
    sum_of(product_of(high, 65536), low.rem_euclid(65536))
}

/// The high word of a number of 32 bits.
pub fn high_word(z: i32) -> i32
    ensures is { result ≡ high_word z }
    ensures fits { FitsSigned w16 result }
{
    short_of(z.wrapping_shr(16))
}

/// The low word of a number of 32 bits.
pub fn low_word(z: i32) -> i32
    ensures is { result ≡ low_word z }
    ensures fits { FitsSigned w16 result }
{
    short_of(z)
}

/// The low word of a number of 64 bits.
fn low_word_of_long(z: i64) -> i32
    ensures is { result ≡ low_word z }
    ensures fits { FitsSigned w16 result }
{
    let low = z.rem_euclid(65536);
    if low < 32768 {
        low as i32
    } else {
        (low - 65536) as i32
    }
}

/// The two words of an int that is increased, the high one first.
pub fn increased(x: i32, by: i32) -> (i32, i32)
    ensures high { result.0 ≡ high_word (x +ℤ by) }
    ensures low { result.1 ≡ low_word (x +ℤ by) }
    ensures high_fits { FitsSigned w16 result.0 }
    ensures low_fits { FitsSigned w16 result.1 }
{
    let sum = i64::from(x) + i64::from(by);
    (
        low_word_of_long(sum.wrapping_shr(16)),
        low_word_of_long(sum),
    )
}

/// The low byte of a number of 32 bits.
pub fn low_byte(z: i32) -> i32
    ensures is { result ≡ low_byte z }
    ensures fits { FitsSigned w16 result }
{
    byte_of(z)
}

/// -1, 0 or 1, as the first number is below the second, the same or above it.
pub fn compared(x: i32, y: i32) -> i32
    ensures is { result ≡ compared x y }
    ensures fits { FitsSigned w16 result }
{
    if x < y {
        -1
    } else if y < x {
        1
    } else {
        0
    }
}

/// An operation of two numbers, cut to 32 bits.
pub fn int_of(op: Operation, x: i32, y: i32) -> i32
    ensures { result ≡ wide (exact w32 op x y) }
{
    match op {
        Operation::Sum => sum_of(x, y),
        Operation::Difference => difference_of(x, y),
        Operation::Product => product_of(x, y),
        Operation::ShiftLeft => left_shift_of(x, y),
        Operation::ShiftRight => right_shift_of(x, y),
        Operation::ShiftUnsigned => unsigned_shift_of(x, y),
        Operation::And => and_of(x, y),
        Operation::Or => or_of(x, y),
        Operation::Xor => xor_of(x, y),
    }
}

/// An operation of two words, cut to a word.
pub fn word_of(op: Operation, x: i32, y: i32) -> i32
    requires first { FitsSigned w16 x }
    requires second { FitsSigned w16 y }
    ensures is { result ≡ low_word (exact w16 op x y) }
    ensures fits { FitsSigned w16 result }
{
    low_word(int_of(op, x, y))
}

/// A division by a number that is not 0, cut to 32 bits.
pub fn divided(op: Division, x: i32, y: i32) -> i32
    requires { y ≢ pos 0 }
    ensures { result ≡ wide (exact_division op x y) }
{
    match op {
        Division::Quotient => quotient_of(x, y),
        Division::Remainder => remainder_of(x, y),
    }
}
