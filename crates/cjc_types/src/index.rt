//! From the offset of an instruction to its number in the method, by halving. Jumps name offsets; the solver's
//! places are numbers.

ghost use Rattle.std.specs.Prelude.{◌≡◌, ◌<◌, ◌^◌, length};
ghost use Rattle.cjc_types.specs.Flow.{place_at as place_by};
ghost use Rattle.cjc_types.specs.Index.{AreInOrder};

use cjc_code::JInsn;

/// The place of the instruction at an offset.
pub(crate) fn place_at(insns: &[JInsn], offset: u32) -> Option<u32>
    requires few { length insns.now < 2 ^ 32 }
    requires order { AreInOrder insns.now }
    ensures { result ≡ place_by insns.now offset }
{
    match insns.binary_search_by_key(&offset, |insn| insn.at) {
        Ok(place) => Some(place as u32),
        Err(_) => None,
    }
}
