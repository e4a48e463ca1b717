//! Numbers of 32 bits with a sign: what arithmetic gives and what conditions hold (Java Virtual Machine
//! Specification, 6.5).

ghost use Rattle.std.specs.Prelude.{◌≡◌, ◌≢◌, ◌^◌, pos, ◌+ℤ◌, ◌-ℤ◌, ◌*ℤ◌};
ghost use Rattle.std.specs.Int.{w32, int_shr, int_bit_and, int_bit_or, int_bit_xor};
ghost use Rattle.std.specs.Int.RustNames.{int_div, int_rem};
ghost use Rattle.cjc_jvm_semantics.specs.LowerRange.Words.{wide, low_word, low_byte, shift_distance, unsigned_shift};
ghost use Rattle.cjc_jvm_semantics.specs.Arithmetic.{relation, negation};

/// The sum.
pub fn sum_of(x: i32, y: i32) -> i32
    ensures { result ≡ wide (x +ℤ y) }
{
    x.wrapping_add(y)
}

/// The difference.
pub fn difference_of(x: i32, y: i32) -> i32
    ensures { result ≡ wide (x -ℤ y) }
{
    x.wrapping_sub(y)
}

/// The product.
pub fn product_of(x: i32, y: i32) -> i32
    ensures { result ≡ wide (x *ℤ y) }
{
    x.wrapping_mul(y)
}

/// The quotient, towards zero.
pub fn quotient_of(x: i32, y: i32) -> i32
    requires { y ≢ pos 0 }
    ensures { result ≡ wide (int_div x y) }
{
    if y == -1 { x.wrapping_neg() } else { x / y }
}

/// The remainder, with the sign of the dividend.
pub fn remainder_of(x: i32, y: i32) -> i32
    requires { y ≢ pos 0 }
    ensures { result ≡ wide (int_rem x y) }
{
    if y == -1 { 0 } else { x % y }
}

/// The low 16 bits, as a number with a sign.
pub fn short_of(x: i32) -> i32
    ensures { result ≡ low_word x }
{
    let low = x.rem_euclid(65536);
    if low < 32768 { low } else { low - 65536 }
}

/// The low 8 bits, as a number with a sign.
pub fn byte_of(x: i32) -> i32
    ensures { result ≡ low_byte x }
{
    let low = x.rem_euclid(256);
    if low < 128 { low } else { low - 256 }
}

/// Whether the relation of this number holds: eq, ne, lt, ge, gt, le.
pub fn relation(k: u8, x: i32, y: i32) -> bool
    ensures { result ≡ relation k x y }
{
    match k {
        0 => x == y,
        1 => x != y,
        2 => x < y,
        3 => x >= y,
        4 => x > y,
        _ => x <= y,
    }
}

/// The number with the other sign.
pub fn negation_of(x: i32) -> i32
    ensures { result ≡ negation x }
{
    x.wrapping_neg()
}

/// The number shifted up by the low five bits of a distance.
pub fn left_shift_of(x: i32, d: i32) -> i32
    ensures { result ≡ wide (x *ℤ pos (2 ^ shift_distance d)) }
{
    x.wrapping_shl(d.cast_unsigned())
}

/// The number shifted down by the low five bits of a distance, with copies of its sign.
pub fn right_shift_of(x: i32, d: i32) -> i32
    ensures { result ≡ wide (int_shr x (shift_distance d)) }
{
    x.wrapping_shr(d.cast_unsigned())
}

/// The number shifted down by the low five bits of a distance, with zeros.
pub fn unsigned_shift_of(x: i32, d: i32) -> i32
    ensures { result ≡ wide (unsigned_shift x (shift_distance d)) }
{
    x.cast_unsigned()
        .wrapping_shr(d.cast_unsigned())
        .cast_signed()
}

/// The bits that both have.
pub fn and_of(x: i32, y: i32) -> i32
    ensures { result ≡ wide (int_bit_and w32 x y) }
{
    x & y
}

/// The bits that one of them has.
pub fn or_of(x: i32, y: i32) -> i32
    ensures { result ≡ wide (int_bit_or w32 x y) }
{
    x | y
}

/// The bits that just one of them has.
pub fn xor_of(x: i32, y: i32) -> i32
    ensures { result ≡ wide (int_bit_xor w32 x y) }
{
    x ^ y
}
