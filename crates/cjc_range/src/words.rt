//! Words of 32, 16 and 8 bits with a sign, and how the low word of a result of 32 bits comes from the low
//! words of its operands. It has laws alone, for whoever narrows: no code of it runs.
ghost use Rattle.std.specs.Prelude.{◌≡◌, ◌≤◌, ◌≤ℤ◌, ◌↔◌, ℕ, ℤ, pos, negsuc, ◌^◌, neg_ℤ, FitsSigned, ◌+ℤ◌, ◌-ℤ◌, ◌*ℤ◌};
ghost use Rattle.std.specs.Int.{w16, w32, int_bit_and, int_bit_or, int_bit_xor};
ghost use Rattle.cjc_range.specs.Words.{wide, low_word, low_byte, shift_distance, IsInside};

/// The low word of a sum is that of the sum of the low words, and so for each operation that goes from the
/// low end up. A quotient, a remainder and a shift to the right are none of them.
pub fn low_words_are_enough()
    ensures cut { (z : ℤ) → low_word (wide z) ≡ low_word z }
    ensures byte { (z : ℤ) → low_byte (low_word z) ≡ low_byte z }
    ensures add { (x y : ℤ) → low_word (low_word x +ℤ low_word y) ≡ low_word (wide (x +ℤ y)) }
    ensures sub { (x y : ℤ) → low_word (low_word x -ℤ low_word y) ≡ low_word (wide (x -ℤ y)) }
    ensures mul { (x y : ℤ) → low_word (low_word x *ℤ low_word y) ≡ low_word (wide (x *ℤ y)) }
    ensures neg { (x : ℤ) → low_word (neg_ℤ (low_word x)) ≡ low_word (wide (neg_ℤ x)) }
    ensures shl { (x : ℤ) (k : ℕ) → low_word (low_word x *ℤ pos (2 ^ k)) ≡ low_word (wide (x *ℤ pos (2 ^ k))) }
    ensures and { (x y : ℤ) → FitsSigned w32 x → FitsSigned w32 y → int_bit_and w16 (low_word x) (low_word y)
        ≡ low_word (int_bit_and w32 x y) }
    ensures or { (x y : ℤ) → FitsSigned w32 x → FitsSigned w32 y → int_bit_or w16 (low_word x) (low_word y)
        ≡ low_word (int_bit_or w32 x y) }
    ensures xor { (x y : ℤ) → FitsSigned w32 x → FitsSigned w32 y → int_bit_xor w16 (low_word x) (low_word y)
        ≡ low_word (int_bit_xor w32 x y) }
{}

/// What cuts leaves fits, and what fits is left as it is.
pub fn cuts_fit()
    ensures word { (z : ℤ) → FitsSigned w16 (low_word z) }
    ensures wide_word { (z : ℤ) → FitsSigned w32 (wide z) }
    ensures same { (z : ℤ) → FitsSigned w16 z → low_word z ≡ z }
    ensures wide_same { (z : ℤ) → FitsSigned w32 z → wide z ≡ z }
{}

/// A narrow machine that keeps low words shifts by the same distance, and finds the same indices inside an array.
pub fn low_words_choose()
    ensures distance { (x : ℤ) → FitsSigned w32 x → shift_distance (low_word x) ≡ shift_distance x }
    ensures index { (n : ℕ) (i : ℤ) → n ≤ 32767 → negsuc 32768 ≤ℤ i → i ≤ℤ pos 65535 → IsInside n (low_word i)
        ↔ IsInside n i }
{}
