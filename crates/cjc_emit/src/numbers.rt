//! Numbers as bytes, high ones first. Called by whoever writes instructions. It knows no instruction.

ghost use Rattle.std.specs.Prelude.{◌≡◌, ◌∷◌, [], ◌++◌, OnOk};
ghost use Rattle.cjc_ncode.specs.Lowering.Laid.{distance};
ghost use Rattle.cjc_emit.specs.Working.{bits, last_bits, low_bytes};

use cjc_ncode::bytes::{Bytes, NoMemory};

fn put_pair(out: &mut Bytes, high: u8, low: u8) -> Result<(), NoMemory>
    ensures { OnOk result (out.new ≡ out.old ++ high ∷ low ∷ []) }
{
    out.push(high)?;
    out.push(low)?;
    Ok(())
}

/// The lowest of four bytes, so many; in no other width than one, two and four.
pub(crate) fn put_low(out: &mut Bytes, width: u8, n: u32) -> Result<(), NoMemory>
    ensures { OnOk result (out.new ≡ out.old ++ low_bytes width n) }
{
    match width {
        1 => {
            out.push((n % 256) as u8)?;
        }
        2 => {
            put_pair(out, (n / 256 % 256) as u8, (n % 256) as u8)?;
        }
        4 => {
            put_pair(out, (n / 16777216) as u8, (n / 65536 % 256) as u8)?;
            put_pair(out, (n / 256 % 256) as u8, (n % 256) as u8)?;
        }
        _ => {}
    }
    Ok(())
}

/// The 32 bits of the distance from one offset to another.
pub(crate) fn distance_bits(from: u16, to: u16) -> u32
    ensures { result ≡ bits (distance from to) }
{
    if from <= to {
        u32::from(to - from)
    } else {
        4294967295 - (u32::from(from - to) - 1)
    }
}

/// The 32 bits of the last of so many numbers from this one on.
pub(crate) fn last_bits(low: u32, count: usize) -> u32
    ensures { result ≡ last_bits low count }
{
    let sum = u64::from(low) + (count % 4294967296) as u64 + 4294967295;
    (sum % 4294967296) as u32
}
