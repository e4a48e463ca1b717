//! Whether the jumps and switches of a cut code lead to the starts of instructions, as rule 103 asks.

ghost use Rattle.std.specs.Prelude.{◌≡◌, length, IfOk, nat_lt, if◌then◌else◌, slice_set, true};
ghost use Rattle.std.specs.List.{list_all};
ghost use Rattle.cjc_code.specs.Numbers.{target, seconds, offsets};
ghost use Rattle.cjc_code.specs.Unfit.{starts as starts_of, is_start};

use crate::numbers::first;
use crate::raw::Cut;
use crate::table::Family;
use cjc_bytes::NoMemory;
use std::alloc::Global;

fn marked(mut starts: Vec<bool>, place: usize) -> Vec<bool>
    ensures { result.items ≡ (if nat_lt place (length starts.items) then slice_set starts.items place true
        else starts.items) }
{
    if place < starts.len() {
        starts[place] = true;
    }
    starts
}

/// For each byte of a code of this length, whether an instruction starts there.
#[tactic(auto, using(crate::proofs::Marks::marks_none))]
pub(crate) fn starts(alloc: Global, cut: &Cut, size: usize) -> Result<Vec<bool>, NoMemory>
    ensures { IfOk result (λ v. v.items ≡ starts_of cut.now size) }
{
    let mut starts = vec![in alloc; false; size]?;
    for insn in cut.insns.items() {
        starts = marked(starts, usize::from(insn.at));
    }
    Ok(marked(starts, cut.stop as usize))
}

/// Whether a place is the start of an instruction.
pub(crate) fn is_start(starts: &[bool], place: i64) -> bool
    ensures { result ≡ is_start starts.now place }
{
    if place < 0 {
        return false;
    }
    let place = place as usize;
    place < starts.len() && starts[place]
}

fn lands(starts: &[bool], at: u16, offset: i32) -> bool
    ensures { result ≡ is_start starts.now (target at offset) }
{
    is_start(starts, i64::from(at) + i64::from(offset))
}

fn all_land(starts: &[bool], at: u16, offsets: &[i32]) -> bool
    ensures { result ≡ list_all (λ offset. is_start starts.now (target at offset)) offsets.now }
{
    offsets.iter().all(|offset| lands(starts, at, *offset))
}

/// Whether the second of each two numbers leads to a start.
fn seconds_land(starts: &[bool], at: u16, pairs: &[i32]) -> bool
    ensures { result ≡ list_all (λ offset. is_start starts.now (target at offset)) (seconds pairs.now) }
{
    let mut left = pairs;
    while let [_, offset, more @ ..] = left {
        if !lands(starts, at, *offset) {
            return false;
        }
        left = more;
    }
    true
}

/// Whether an instruction at this place jumps to starts alone.
pub(crate) fn jumps_land(starts: &[bool], at: u16, family: Family, numbers: &[i32]) -> bool
    ensures { result ≡ list_all (λ offset. is_start starts.now (target at offset)) (offsets family numbers.now) }
{
    match (family, numbers) {
        (Family::If | Family::Goto | Family::UnsupportedJump, _) => lands(
            starts,
            at,
            first(numbers),
        ),
        (Family::TableSwitch, [other, _, _, more @ ..]) => {
            lands(starts, at, *other) && all_land(starts, at, more)
        }
        (Family::LookupSwitch, [other, _, pairs @ ..]) => {
            lands(starts, at, *other) && seconds_land(starts, at, pairs)
        }
        _ => true,
    }
}
