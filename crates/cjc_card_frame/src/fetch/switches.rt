//! The offset to which a switch leads for a number, read from the bytes of its table: over a range of numbers,
//! or over matches of two bytes or four.

ghost use Rattle.std.specs.Prelude.{◌≡◌, ◌<◌, ◌≤◌, ◌^◌, ◌∷◌, ◌&&◌, ◌+ℤ◌, ◌<ℤ◌, drop, length, pos, slice_get, IfSome};
ghost use Rattle.std.specs.Prelude.{MatchOption};
ghost use Rattle.std.specs.Int.RustNames.{int_le};
ghost use Rattle.cjc_card_semantics.specs.Bytecode.Effects.{arm_of};
ghost use Rattle.cjc_card_semantics.specs.Machine.Operations.{paired, ranged};
ghost use Rattle.cjc_card_semantics.specs.CapRead.Decoder.Decoded.{numbers};
ghost use Rattle.cjc_card_semantics.specs.CapRead.declared.decoder.table.Matches.TheVariants.{Counted};
ghost use Rattle.cjc_card_semantics.specs.CapRead.Decoder.Shapes.{entry_size, match_of, matches_of, operand_of};

use crate::fetch::jumps::moved;
use cjc_card_semantics::capread::decoder::{Kind, operand};

/// A match as an operand.
fn match_kind(wide: bool) -> Kind
    ensures { operand_of result ≡ match_of wide }
{
    if wide { Kind::Signed4 } else { Kind::Signed2 }
}

/// The bytes of a match with its offset.
fn pair_size(wide: bool) -> usize
    ensures { result ≡ entry_size (matches_of wide) }
{
    if wide { 6 } else { 4 }
}

/// A match and its offset at the front of a table's bytes.
fn pair_at(wide: bool, bytes: &[u8]) -> (i32, i32)
    requires { entry_size (matches_of wide) ≤ length bytes.now }
    ensures { numbers (matches_of wide) bytes.now ≡ result.0 ∷ result.1
        ∷ numbers (matches_of wide) (drop (entry_size (matches_of wide)) bytes.now) }
{
    let value = operand(match_kind(wide), bytes, 0);
    let far = operand(Kind::Signed2, bytes, pair_size(wide) - 2);
    (value, far)
}

/// Whether a match is the number.
fn is_match(value: i32, x: i32) -> bool
    ensures { result ≡ (int_le value x && int_le x value) }
{
    value <= x && x <= value
}

/// Where a switch over matches leads, of two bytes each or of four, by their table and the offset of its default.
pub fn arm_of_pairs(at: usize, other: usize, wide: bool, table: &[u8], x: i32) -> usize
    requires { at < 2 ^ 32 }
    ensures { result ≡ arm_of other (paired at (numbers (matches_of wide) table.now)) x }
{
    let size = pair_size(wide);
    let mut rest = table;
    while rest.len() >= size {
        let (value, far) = pair_at(wide, rest);
        if is_match(value, x) {
            return moved(at, far);
        }
        rest = &rest[size..];
    }
    other
}

/// How far a number is above the low one.
fn distance(low: i32, x: i32) -> Option<usize>
    ensures is { MatchOption result (x <ℤ low) (λ n. x ≡ low +ℤ pos n) }
    ensures small { IfSome result (λ n. n < 2 ^ 33) }
{
    if x < low {
        None
    } else {
        Some((i64::from(x) - i64::from(low)) as usize)
    }
}

/// The number in a place of a table that is counted.
fn far_in(table: &[u8], place: usize) -> Option<i32>
    requires { place < 2 ^ 33 }
    ensures { result ≡ slice_get (numbers Counted table.now) place }
{
    if 2 * place + 2 <= table.len() {
        Some(operand(Kind::Signed2, table, 2 * place))
    } else {
        None
    }
}

/// Where a switch over the numbers from a low one on leads, by its table and the offset of its default.
pub fn arm_of_range(at: usize, other: usize, low: i32, table: &[u8], x: i32) -> usize
    requires { at < 2 ^ 32 }
    ensures { result ≡ arm_of other (ranged at low (numbers Counted table.now)) x }
{
    let Some(place) = distance(low, x) else {
        return other;
    };
    let Some(far) = far_in(table, place) else {
        return other;
    };
    moved(at, far)
}
