//! Intervals of numbers of 32 bits, and what the operations of the Java virtual machine on numbers of
//! type int give on them (Java Virtual Machine Specification SE 8, sections 2.11.3 and 6.5). Each
//! operation is one row of a table over the ends, and its interval holds every value that the machine's
//! operation gives on values of its operands. It takes no memory, and knows nothing of code or frames.
#![tactic(auto)]

pub mod words;

ghost use Rattle.std.specs.Prelude.{◌≡◌, ◌≢◌, ◌+◌, ◌-◌, ◌/◌, ◌<◌, ◌≤◌, ◌^◌, ◌↔◌, max, ℤ, pos, negsuc, neg_ℤ, ◌+ℤ◌};
ghost use Rattle.std.specs.Prelude.{◌-ℤ◌, ◌*ℤ◌, ◌≤ℤ◌, ◌<ℤ◌, int_div, int_rem, IsTrue};
ghost use Rattle.std.specs.Int.{w32, int_shr, int_min, int_max, int_bit_and, int_bit_or, int_bit_xor, cast_unsigned};
ghost use Rattle.std.specs.Int.Signed.{mag};
ghost use Rattle.cjc_range.specs.Span.{Holds, Within, IsWord, span, width};
ghost use Rattle.cjc_range.specs.Words.{wide, low_word, low_byte, shift_distance, unsigned_shift};
ghost use Rattle.cjc_range.specs.Rows.{clip, greatest_size, add_row, sub_row, mul_row, neg_row, div_row, rem_row};
ghost use Rattle.cjc_range.specs.Rows.{rem_within, join_row, to_byte_row, to_short_row, shl_row, shr_row, ushr_by};
ghost use Rattle.cjc_range.specs.Rows.{ushr_row, IsOrRow, IsAndRow, IsClipped, below_power};
ghost use Rattle.cjc_range.specs.Landmarks.{round_row};

mod ends;
mod landmarks;
mod laws;

use ends::{hull, products, quotients};
use landmarks::{landmark_above, landmark_below};
pub use laws::{
    bit_rows_are_functions, intervals_are_a_lattice, intervals_are_monotone, rounding_is_outwards,
    rows_hold_values, rows_stay_words, wider_holds_more,
};
use std::marker::Model;

/// The numbers from `low` to `high`, at least one.
#[derive(Clone, Copy, Debug, PartialEq, Eq)]
pub struct Interval {
    /// The least of them.
    pub low: i32,
    /// The greatest of them.
    pub high: i32,
}

impl Model for Interval {
    ghost use Rattle.std.specs.Prelude.{◌≤ℤ◌};
    ghost use Rattle.cjc_range.specs.Span.{Span, span};

    ghost Value = { Span };

    ghost view = { λ i. span i.low i.high };

    ghost invariant = { λ i. i.low ≤ℤ i.high };

    ghost inverse = { λ s. record { low = s.low; high = s.high } };
}

/// All numbers of 32 bits.
const FULL: Interval = Interval {
    low: i32::MIN,
    high: i32::MAX,
};

/// The numbers of the type short.
const SHORT: Interval = Interval {
    low: -32768,
    high: 32767,
};

/// The numbers of the type byte.
const BYTE: Interval = Interval {
    low: -128,
    high: 127,
};

impl Interval {
    /// The sums, as iadd gives them.
    pub fn add(self, other: Interval) -> Interval
        ensures row { result ≡ add_row self other }
        ensures holds { (x y : ℤ) → Holds self x → Holds other y →
            Holds result (wide (x +ℤ y)) }
    {
        clipped(
            i64::from(self.low) + i64::from(other.low),
            i64::from(self.high) + i64::from(other.high),
        )
    }

    /// The differences, as isub gives them.
    pub fn sub(self, other: Interval) -> Interval
        ensures row { result ≡ sub_row self other }
        ensures holds { (x y : ℤ) → Holds self x → Holds other y →
            Holds result (wide (x -ℤ y)) }
    {
        clipped(
            i64::from(self.low) - i64::from(other.high),
            i64::from(self.high) - i64::from(other.low),
        )
    }

    /// The products, as imul gives them.
    pub fn mul(self, other: Interval) -> Interval
        ensures row { result ≡ mul_row self other }
        ensures holds { (x y : ℤ) → Holds self x → Holds other y →
            Holds result (wide (x *ℤ y)) }
    {
        hull(products(self, other))
    }

    /// The quotients, rounded toward zero as idiv gives them; a divisor 0 gives none.
    pub fn div(self, other: Interval) -> Interval
        ensures row { result ≡ div_row self other }
        ensures holds { (x y : ℤ) → Holds self x → Holds other y →
            y ≢ pos 0 → Holds result (wide (int_div x y)) }
    {
        if 1 <= other.low {
            hull(quotients(self, other))
        } else {
            let size = i64::from(self.greatest_size());
            clipped(-size, size)
        }
    }

    /// The remainders, with the sign of the number that is divided as irem gives them; a divisor 0 gives none.
    pub fn rem(self, other: Interval) -> Interval
        ensures row { result ≡ rem_row self other }
        ensures holds { (x y : ℤ) → Holds self x → Holds other y →
            y ≢ pos 0 → Holds result (int_rem x y) }
    {
        let bound = other.greatest_size().saturating_sub(1);
        self.rem_within(bound.min(self.greatest_size()))
    }

    /// The numbers with their signs turned, as ineg gives them.
    pub fn neg(self) -> Interval
        ensures row { result ≡ neg_row self }
        ensures holds { (x : ℤ) → Holds self x → Holds result (wide (neg_ℤ x)) }
    {
        clipped(-i64::from(self.high), -i64::from(self.low))
    }

    /// The numbers shifted up, as ishl gives them: by the low five bits of the distance.
    pub fn shl(self, other: Interval) -> Interval
        ensures row { result ≡ shl_row self other }
        ensures holds { (x y : ℤ) → Holds self x → Holds other y →
            Holds result (wide (x *ℤ pos (2 ^ shift_distance y))) }
    {
        if other.high <= other.low {
            self.shifted_up(low_five(other.low))
        } else {
            FULL
        }
    }

    /// The numbers shifted down with their sign, as ishr gives them: by the low five bits of the distance.
    pub fn shr(self, other: Interval) -> Interval
        ensures row { result ≡ shr_row self other }
        ensures holds { (x y : ℤ) → Holds self x → Holds other y →
            Holds result (int_shr x (shift_distance y)) }
    {
        if other.high <= other.low {
            self.shifted_down(low_five(other.low))
        } else {
            self.spread()
        }
    }

    /// The numbers shifted down with zeros, as iushr gives them: by the low five bits of the distance.
    pub fn ushr(self, other: Interval) -> Interval
        ensures row { result ≡ ushr_row self other }
        ensures holds { (x y : ℤ) → Holds self x → Holds other y →
            Holds result (unsigned_shift x (shift_distance y)) }
    {
        let negative = self.low < 0;
        if other.high <= other.low {
            self.ushr_by(low_five(other.low))
        } else if negative {
            FULL
        } else {
            up_to(self.high)
        }
    }

    /// The bits that both numbers have, as iand gives them.
    pub fn and(self, other: Interval) -> Interval
        ensures row { IsAndRow self other result }
        ensures holds { (x y : ℤ) → Holds self x → Holds other y →
            Holds result (int_bit_and w32 x y) }
    {
        if 0 <= self.low {
            if 0 <= other.low {
                up_to(self.high.min(other.high))
            } else {
                up_to(self.high)
            }
        } else if 0 <= other.low {
            up_to(other.high)
        } else {
            self.of_bits(other)
        }
    }

    /// The bits that either number has, as ior gives them.
    pub fn or(self, other: Interval) -> Interval
        ensures row { IsOrRow self other result }
        ensures holds { (x y : ℤ) → Holds self x → Holds other y →
            Holds result (int_bit_or w32 x y) }
    {
        self.of_bits(other)
    }

    /// The bits that one of the numbers has and the other has not, as ixor gives them.
    pub fn xor(self, other: Interval) -> Interval
        ensures row { IsOrRow self other result }
        ensures holds { (x y : ℤ) → Holds self x → Holds other y →
            Holds result (int_bit_xor w32 x y) }
    {
        self.of_bits(other)
    }

    /// The low bytes as numbers with a sign, as i2b gives them.
    pub fn to_byte(self) -> Interval
        ensures row { result ≡ to_byte_row self }
        ensures holds { (x : ℤ) → Holds self x → Holds result (low_byte x) }
    {
        self.clipped_to(BYTE)
    }

    /// The low words as numbers with a sign, as i2s gives them.
    pub fn to_short(self) -> Interval
        ensures row { result ≡ to_short_row self }
        ensures holds { (x : ℤ) → Holds self x → Holds result (low_word x) }
    {
        self.clipped_to(SHORT)
    }

    /// The least interval that holds all numbers of both.
    pub fn join(self, other: Interval) -> Interval
        ensures row { result ≡ join_row self other }
        ensures left { (x : ℤ) → Holds self x → Holds result x }
        ensures right { (x : ℤ) → Holds other x → Holds result x }
    {
        Interval {
            low: self.low.min(other.low),
            high: self.high.max(other.high),
        }
    }

    /// The interval with both ends moved outwards to the nearest landmarks.
    pub fn round(self) -> Interval
        ensures row { result ≡ round_row self }
        ensures holds { (x : ℤ) → Holds self x → Holds result x }
    {
        Interval {
            low: landmark_below(self.low),
            high: landmark_above(self.high),
        }
    }

    /// How far its ends lie apart: its rank among intervals, below 2^32.
    pub fn width(self) -> u32
        ensures { result ≡ width self }
    {
        (i64::from(self.high) - i64::from(self.low)) as u32
    }

    /// Whether all its numbers are at least `low` and at most `high`.
    pub fn fits(self, low: i32, high: i32) -> bool
        ensures row { IsTrue result ↔ Within self (span low high) }
        ensures holds { IsTrue result ↔ ((x : ℤ) → Holds self x → Holds (span low high) x) }
    {
        low <= self.low && self.high <= high
    }

    /// The same where it is a part of the range, else the range.
    fn clipped_to(self, range: Interval) -> Interval
        ensures { result ≡ clip range self }
    {
        if range.low <= self.low && self.high <= range.high {
            self
        } else {
            range
        }
    }

    /// The greater of the sizes of the ends.
    fn greatest_size(self) -> u32
        ensures value { result ≡ greatest_size self }
        ensures bound { result ≤ 2 ^ 31 }
    {
        self.low.unsigned_abs().max(self.high.unsigned_abs())
    }

    /// From `-bound` where there are negative numbers to `bound` where there are positive ones.
    fn rem_within(self, bound: u32) -> Interval
        requires { bound < 2 ^ 31 }
        ensures { result ≡ rem_within self bound }
    {
        let size = i64::from(bound);
        let low = if 0 <= self.low { 0 } else { -size };
        let high = if self.high <= 0 { 0 } else { size };
        between(low, high)
    }

    /// Both ends shifted up, where they keep 32 bits.
    fn shifted_up(self, shift: u32) -> Interval
        requires { shift < 32 }
        ensures { IsClipped (self.low *ℤ pos (2 ^ shift)) (self.high *ℤ pos (2 ^ shift)) result }
    {
        clipped(i64::from(self.low) << shift, i64::from(self.high) << shift)
    }

    /// Both ends shifted down with their sign.
    fn shifted_down(self, shift: u32) -> Interval
        requires { shift < 32 }
        ensures { result ≡ span (int_shr self.low shift) (int_shr self.high shift) }
    {
        Interval {
            low: self.low >> shift,
            high: self.high >> shift,
        }
    }

    /// Enough for any shift down.
    fn spread(self) -> Interval
        ensures { result ≡ span (int_min self.low (pos 0)) (int_max self.high (negsuc 0)) }
    {
        Interval {
            low: self.low.min(0),
            high: self.high.max(-1),
        }
    }

    /// The numbers shifted down with zeros by one distance.
    fn ushr_by(self, shift: u32) -> Interval
        requires { shift < 32 }
        ensures { result ≡ ushr_by self shift }
    {
        if shift == 0 {
            self
        } else if 0 <= self.low {
            self.shifted_down(shift)
        } else if self.high < 0 {
            self.negative_shifted(shift)
        } else {
            up_to_shifted(shift)
        }
    }

    /// Both ends, which are negative, shifted down as numbers without sign.
    fn negative_shifted(self, shift: u32) -> Interval
        requires negative { self.high <ℤ pos 0 }
        requires some { 0 < shift }
        requires shift { shift < 32 }
        ensures { result ≡ span (int_shr (self.low +ℤ pos (2 ^ 32)) shift) (int_shr (self.high +ℤ pos (2 ^ 32)) shift) }
    {
        let low = self.low_bits() >> shift;
        let high = self.high_bits() >> shift;
        between(i64::from(low), i64::from(high))
    }

    fn low_bits(self) -> u32
        ensures word { IsWord self }
        ensures value { result ≡ cast_unsigned w32 self.low }
    {
        self.low.cast_unsigned()
    }

    fn high_bits(self) -> u32
        ensures { result ≡ cast_unsigned w32 self.high }
    {
        self.high.cast_unsigned()
    }

    /// The numbers of as many bits as both need.
    fn of_bits(self, other: Interval) -> Interval
        ensures row { IsOrRow self other result }
        ensures left { IsWord self }
        ensures right { IsWord other }
    {
        let size = self.greatest_mag().max(other.greatest_mag());
        self.below_power(other, (u64::from(size) + 1).next_power_of_two())
    }

    /// The greatest end as bits see it: -1 counts as 0, -2 as 1.
    fn greatest_mag(self) -> u32
        ensures word { IsWord self }
        ensures value { result ≡ max (mag self.low) (mag self.high) }
        ensures bound { result < 2 ^ 31 }
    {
        let low = if self.low < 0 { !self.low } else { self.low };
        let high = if self.high < 0 { !self.high } else { self.high };
        low.max(high) as u32
    }

    /// From 0, or from `-power` where an operand may be negative, to `power - 1`.
    fn below_power(self, other: Interval, power: u64) -> Interval
        requires some { 0 < power }
        requires bound { power ≤ 2 ^ 31 }
        ensures { result ≡ below_power self other power }
    {
        let size = power as i64;
        if 0 <= self.low && 0 <= other.low {
            between(0, size - 1)
        } else {
            between(-size, size - 1)
        }
    }
}

/// The numbers from `low` to `high` where they have 32 bits, else all of 32 bits.
fn clipped(low: i64, high: i64) -> Interval
    requires { low ≤ℤ high }
    ensures { IsClipped low high result }
{
    if i64::from(i32::MIN) <= low && high <= i64::from(i32::MAX) {
        Interval {
            low: low as i32,
            high: high as i32,
        }
    } else {
        FULL
    }
}

/// From one number to another.
fn between(low: i64, high: i64) -> Interval
    requires order { low ≤ℤ high }
    requires low { negsuc 2147483647 ≤ℤ low }
    requires high { high ≤ℤ pos 2147483647 }
    ensures { result ≡ span low high }
{
    Interval {
        low: low as i32,
        high: high as i32,
    }
}

/// From 0 to a number.
fn up_to(high: i32) -> Interval
    requires { pos 0 ≤ℤ high }
    ensures { result ≡ span (pos 0) high }
{
    Interval { low: 0, high }
}

/// From 0 to what a shift with zeros leaves of 32 ones.
fn up_to_shifted(shift: u32) -> Interval
    requires some { 0 < shift }
    requires shift { shift < 32 }
    ensures { result ≡ span (pos 0) (pos ((2 ^ 32 - 1) / 2 ^ shift)) }
{
    between(0, i64::from(u32::MAX >> shift))
}

/// The low five bits.
fn low_five(distance: i32) -> u32
    ensures value { result ≡ shift_distance distance }
    ensures bound { result < 32 }
{
    distance.cast_unsigned() % 32
}
