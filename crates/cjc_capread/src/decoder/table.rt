//! The table of a switch (Java Card Virtual Machine Specification 2.2.2, chapter 7). Called by `insn`.

ghost use Rattle.std.specs.Prelude.{◌≡◌, ◌*◌, ◌≤◌, ◌^◌, [], IfSome, length, option_map, Some};
ghost use Rattle.cjc_capread.specs.Decode.{matches_ascend, operands_of, pairs};
ghost use Rattle.cjc_capread.specs.Opcodes.{Operand, Table as TableForm, Lookup, widths};
ghost use Rattle.cjc_capread.specs.Decoder.Decoded.{kinds_in, numbers, numbers_of, table_of, values, whole_table};
ghost use Rattle.cjc_capread.specs.Decoder.Shapes.{entries_of, entry_size, form_of, match_of, matches_in, matches_of};
ghost use Rattle.cjc_capread.specs.Decoder.Shapes.{operand_of};
ghost use Rattle.cjc_capread.specs.declared.decoder.table.Matches.TheVariants.{Counted};

use crate::decoder::number::{Kind, operand};
use crate::decoder::operands::Operands;
use crate::decoder::shape::Shape;

/// Whether the entries of a table have matches, and of how many bytes.
#[derive(Clone, Copy)]
pub enum Matches {
    /// They have none: entries are counted from the low match to the high one.
    Counted,
    Short,
    Int,
}

/// A table: of each entry its match, if it has one, and an offset of two bytes.
#[derive(Clone, Copy)]
pub struct Table<'a> {
    pub matches: Matches,
    pub entries: &'a [u8],
}

/// The bytes of an entry.
pub fn entry_size(matches: Matches) -> usize
    ensures { result ≡ entry_size matches }
{
    match matches {
        Matches::Counted => 2,
        Matches::Short => 4,
        Matches::Int => 6,
    }
}

/// What the matches of a lookup switch are.
fn matches_of(wide: bool) -> Matches
    ensures { result ≡ matches_of wide }
{
    if wide { Matches::Int } else { Matches::Short }
}

/// A match as an operand.
fn match_kind(wide: bool) -> Kind
    ensures { operand_of result ≡ match_of wide }
{
    if wide { Kind::Signed4 } else { Kind::Signed2 }
}

/// A table without entries.
fn no_entries(matches: Matches, bytes: &[u8]) -> Table<'_>
    ensures none { numbers_of result ≡ [] }
    ensures empty { length result.entries.now ≡ 0 }
    ensures same { result.matches ≡ matches }
{
    Table {
        matches,
        entries: &bytes[..0],
    }
}

/// So many entries at the front of bytes.
fn entries<'a>(matches: Matches, count: usize, bytes: &'a [u8]) -> Option<Table<'a>>
    requires { count ≤ 2 ^ 32 }
    ensures is { option_map numbers_of result ≡ option_map (λ f. f.values) (operands_of (entries_of matches count)
        bytes.now) }
    ensures same { IfSome result (λ t. t.matches ≡ matches) }
    ensures all { IfSome result (λ t. length t.entries.now ≡ widths (entries_of matches count)) }
{
    let size = count * entry_size(matches);
    if bytes.len() < size {
        None
    } else {
        Some(Table {
            matches,
            entries: &bytes[..size],
        })
    }
}

/// Whether the matches of a lookup switch ascend.
fn matches_rise(wide: bool, entries: &[u8]) -> bool
    ensures { result ≡ matches_ascend (numbers (matches_of wide) entries.now) }
{
    let kind = match_kind(wide);
    let size = entry_size(matches_of(wide));
    let mut rest = entries;
    while rest.len() >= 2 * size {
        if operand(kind, rest, 0) >= operand(kind, rest, size) {
            return false;
        }
        rest = &rest[size..];
    }
    true
}

/// A table from a low match to a high one.
fn counted<'a>(operands: Operands, bytes: &'a [u8]) -> Option<Table<'a>>
    ensures is { (m : Operand) → option_map numbers_of result ≡ table_of (Some (TableForm m)) (values operands)
        bytes.now }
    ensures size { (m : Operand) → IfSome result (λ t. length t.entries.now ≡ kinds_in (Some (TableForm m))
        (values operands)) }
    ensures same { IfSome result (λ t. t.matches ≡ Counted) }
{
    match operands {
        Operands::Three(_, low, high) => {
            if low <= high {
                let count = (i64::from(high) - i64::from(low)) as usize + 1;
                entries(Matches::Counted, count, bytes)
            } else {
                None
            }
        }
        _ => Some(no_entries(Matches::Counted, bytes)),
    }
}

/// A table of so many matches, which ascend.
#[tactic(auto, using(crate::proofs::DecoderLaws::Tables::pairs_are))]
fn paired<'a>(wide: bool, count: usize, bytes: &'a [u8]) -> Option<Table<'a>>
    requires { count ≤ 2 ^ 32 }
    ensures is { option_map numbers_of result ≡ whole_table (Lookup (match_of wide)) []
        (operands_of (pairs (match_of wide) count) bytes.now) }
    ensures size { IfSome result (λ t. length t.entries.now ≡ widths (pairs (match_of wide) count)) }
    ensures same { IfSome result (λ t. t.matches ≡ matches_of wide) }
{
    match entries(matches_of(wide), count, bytes) {
        Some(table) => {
            if matches_rise(wide, table.entries) {
                Some(table)
            } else {
                None
            }
        }
        None => None,
    }
}

/// The table of a lookup switch.
fn looked_up<'a>(wide: bool, operands: Operands, bytes: &'a [u8]) -> Option<Table<'a>>
    ensures is { option_map numbers_of result ≡ table_of (Some (Lookup (match_of wide))) (values operands) bytes.now }
    ensures size { IfSome result (λ t. length t.entries.now ≡ kinds_in (Some (Lookup (match_of wide)))
        (values operands)) }
    ensures same { IfSome result (λ t. t.matches ≡ matches_of wide) }
{
    match operands {
        Operands::Two(_, count) => {
            if count >= 0 {
                paired(wide, count as usize, bytes)
            } else {
                Some(no_entries(matches_of(wide), bytes))
            }
        }
        _ => Some(no_entries(matches_of(wide), bytes)),
    }
}

/// The table behind the operands of an instruction; one without entries where it is no switch.
pub(crate) fn table_of<'a>(shape: Shape, operands: Operands, bytes: &'a [u8]) -> Option<Table<'a>>
    ensures is { option_map numbers_of result ≡ table_of (form_of shape) (values operands) bytes.now }
    ensures size { IfSome result (λ t. length t.entries.now ≡ kinds_in (form_of shape) (values operands)) }
    ensures same { IfSome result (λ t. t.matches ≡ matches_in shape) }
{
    match shape {
        Shape::NoOp => None,
        Shape::ShortTable | Shape::IntTable => counted(operands, bytes),
        Shape::ShortPairs => looked_up(false, operands, bytes),
        Shape::IntPairs => looked_up(true, operands, bytes),
        _ => Some(no_entries(Matches::Counted, bytes)),
    }
}
