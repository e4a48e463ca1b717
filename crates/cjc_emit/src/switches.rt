//! Switches as bytes (Java Card Virtual Machine Specification 2.2.2, chapter 7), and where labels stand. Called by
//! whoever writes instructions. It knows no other instruction.

ghost use Rattle.std.specs.Prelude.{◌≡◌, ◌∷◌, [], ◌++◌, OnOk};
ghost use Rattle.cjc_ncode.specs.Lowering.Laid.{distance};
ghost use Rattle.cjc_emit.specs.Working.{bits, low_bytes, label_at, lookup_bytes, match_bytes, offset_bytes};
ghost use Rattle.cjc_emit.specs.Working.{range_bytes, switch_bytes, table_bytes};

use crate::numbers::{distance_bits, last_bits, put_low};
use cjc_ncode::NCase;
use cjc_ncode::bytes::{Bytes, NoMemory};
use cjc_ncode::capread::card;

/// The offset of a label in bytes from the first instruction, or the end.
pub(crate) fn label_at(places: &[u16], end: u16, label: u32) -> u16
    ensures { result ≡ label_at places.now end label }
{
    match places.get(label as usize) {
        Some(at) => *at,
        None => end,
    }
}

/// The offset of two bytes from an instruction to a label.
fn put_offset(
    out: &mut Bytes,
    places: &[u16],
    end: u16,
    at: u16,
    label: u32,
) -> Result<(), NoMemory>
    ensures { OnOk result (out.new ≡ out.old ++ low_bytes 2 (bits (distance at (label_at places.now end label)))) }
{
    put_low(out, 2, distance_bits(at, label_at(places, end, label)))
}

fn put_offsets(
    out: &mut Bytes,
    places: &[u16],
    end: u16,
    at: u16,
    cases: &[NCase],
) -> Result<(), NoMemory>
    ensures { OnOk result (out.new ≡ out.old ++ offset_bytes (label_at places.now end) at cases.now) }
{
    for case in cases {
        put_offset(out, places, end, at, case.target)?;
    }
    Ok(())
}

/// A match in so many bytes, and its offset.
fn put_match(
    out: &mut Bytes,
    places: &[u16],
    end: u16,
    at: u16,
    width: u8,
    case: NCase,
) -> Result<(), NoMemory>
    ensures { OnOk result (out.new ≡ out.old ++ match_bytes (label_at places.now end) at width (case ∷ [])) }
{
    put_low(out, width, case.value.cast_unsigned())?;
    put_offset(out, places, end, at, case.target)
}

fn put_matches(
    out: &mut Bytes,
    places: &[u16],
    end: u16,
    at: u16,
    width: u8,
    cases: &[NCase],
) -> Result<(), NoMemory>
    ensures { OnOk result (out.new ≡ out.old ++ match_bytes (label_at places.now end) at width cases.now) }
{
    for case in cases {
        put_match(out, places, end, at, width, *case)?;
    }
    Ok(())
}

/// What stands behind the default of a switch over a range, with matches of so many bytes.
fn put_range(
    out: &mut Bytes,
    places: &[u16],
    end: u16,
    at: u16,
    width: u8,
    low: i32,
    cases: &[NCase],
) -> Result<(), NoMemory>
    ensures { OnOk result (out.new ≡ out.old ++ range_bytes (label_at places.now end) at width low cases.now) }
{
    let low = low.cast_unsigned();
    put_low(out, width, low)?;
    put_low(out, width, last_bits(low, cases.len()))?;
    put_offsets(out, places, end, at, cases)
}

/// What stands behind the default of a switch over matches of so many bytes.
fn put_lookup(
    out: &mut Bytes,
    places: &[u16],
    end: u16,
    at: u16,
    width: u8,
    cases: &[NCase],
) -> Result<(), NoMemory>
    ensures { OnOk result (out.new ≡ out.old ++ lookup_bytes (label_at places.now end) at width cases.now) }
{
    put_low(out, 2, (cases.len() % 4294967296) as u32)?;
    put_matches(out, places, end, at, width, cases)
}

/// What stands behind the default of a switch.
#[tactic(auto, unfolding(crate::specs::Working::table_bytes))]
fn put_table(
    out: &mut Bytes,
    places: &[u16],
    end: u16,
    at: u16,
    op: u8,
    low: i32,
    cases: &[NCase],
) -> Result<(), NoMemory>
    ensures { OnOk result (out.new ≡ out.old ++ table_bytes (label_at places.now end) at op low cases.now) }
{
    match op {
        card::STABLESWITCH => put_range(out, places, end, at, 2, low, cases),
        card::ITABLESWITCH => put_range(out, places, end, at, 4, low, cases),
        card::SLOOKUPSWITCH => put_lookup(out, places, end, at, 2, cases),
        _ => put_lookup(out, places, end, at, 4, cases),
    }
}

/// A switch.
pub(crate) fn put_switch(
    out: &mut Bytes,
    places: &[u16],
    end: u16,
    at: u16,
    op: u8,
    other: u32,
    low: i32,
    cases: &[NCase],
) -> Result<(), NoMemory>
    ensures { OnOk result (out.new ≡ out.old ++ switch_bytes (label_at places.now end) at op other low cases.now) }
{
    out.push(op)?;
    put_offset(out, places, end, at, other)?;
    put_table(out, places, end, at, op, low, cases)
}
