//! What descriptors say of words: those of a method's arguments, and the scratch pairs of a call. Called by space.rt,
//! and by whoever selects code. Nothing here takes memory; a descriptor whose length 32 bits don't count, which no
//! class file has, is taken for want of it.

ghost use Rattle.std.specs.Prelude.{◌≡◌, ◌+◌, ◌<◌, ◌≤◌, ◌^◌, ◌&&◌, ℕ, List, map, false, if◌then◌else◌, IfOk};
ghost use Rattle.cjc_subset.specs.Bytes.Spots.{desc_of};
ghost use Rattle.cjc_flow.specs.LowerTypes.Flow.{Body};
ghost use Rattle.cjc_ncode.specs.LowerScript.Sorts.{signature_by, signature_of, sort_by, sort_of};
ghost use Rattle.cjc_ncode.specs.LowerCardSemantics.Bytecode.Arguments.{width, widths};
ghost use Rattle.cjc_ncode.specs.IntCode.IntCode.{is_short, scratch_pairs_by, scratch_pairs_of};
ghost use Rattle.cjc_int_mode.specs.Written.{argument_words, params_by};
ghost use Rattle.cjc_int_mode.specs.Working.Scratch.{has_short_before};

use cjc_subset::bytecode::JOp;
use cjc_subset::bytes::{Desc, Kind, NoMemory, is_static};

/// The parts of a descriptor, or nothing where the bytes are none.
pub fn parsed(desc: &[u8]) -> Result<Option<Desc<'_>>, NoMemory>
    ensures { IfOk result (λ parts. parts ≡ desc_of desc.now) }
{
    if desc.len() >= 1 << 32 {
        return Err(NoMemory);
    }
    match Desc::parse(desc) {
        Ok(parsed) => Ok(Some(parsed)),
        Err(_) => Ok(None),
    }
}

/// The words of a value of a kind.
pub fn width(kind: Kind) -> u64
    ensures width { (class : List ℕ) → result ≡ width (sort_by kind class) }
    ensures few { result ≤ 2 }
{
    match kind {
        Kind::Int => 2,
        _ => 1,
    }
}

#[tactic(auto, using(crate::proofs::Words::widths_next, crate::proofs::Words::widths_end))]
fn widths(desc: &Desc<'_>) -> u64
    ensures widths { result ≡ widths (map sort_of desc.now.params) }
    ensures few { result < 2 ^ 34 }
{
    let mut words = 0;
    for (kind, _) in desc.parameters() {
        words += width(kind);
    }
    words
}

/// The words of the parameters of a descriptor.
fn parameter_words(desc: &[u8]) -> Result<u64, NoMemory>
    ensures words { IfOk result (λ words. words ≡ widths (params_by (signature_of desc.now))) }
    ensures few { IfOk result (λ words. words < 2 ^ 34) }
{
    match parsed(desc)? {
        Some(parsed) => {
            if parsed.is_method() {
                Ok(widths(&parsed))
            } else {
                Ok(0)
            }
        }
        None => Ok(0),
    }
}

/// These words, and one for the receiver of a method that is not static.
fn with_receiver(is_static: bool, words: u64) -> u64
    requires { words < 2 ^ 34 }
    ensures words { result ≡ (if is_static then words else 1 + words) }
    ensures few { result < 2 ^ 35 }
{
    if is_static { words } else { 1 + words }
}

/// How many words a method with these flags and this descriptor takes, its receiver counted.
pub fn argument_words(flags: u16, desc: &[u8]) -> Result<u64, NoMemory>
    ensures words { (b : Body) → b.flags ≡ flags → b.desc ≡ desc.now
        → IfOk result (λ words. words ≡ argument_words b) }
    ensures few { IfOk result (λ words. words < 2 ^ 35) }
{
    let words = parameter_words(desc)?;
    Ok(with_receiver(is_static(flags), words))
}

/// Whether values of a kind are one word.
pub fn is_short(kind: Kind) -> bool
    ensures { (class : List ℕ) → result ≡ is_short (sort_by kind class) }
{
    match kind {
        Kind::Bool | Kind::Byte | Kind::Short => true,
        _ => false,
    }
}

/// Whether a parameter of one word stands before the last.
#[tactic(auto, using(crate::proofs::Words::scratch_found, crate::proofs::Words::scratch_end))]
pub fn has_short_before(desc: &Desc<'_>) -> bool
    ensures { result ≡ has_short_before false (map sort_of desc.now.params) }
{
    let mut short_before = false;
    for (kind, _) in desc.parameters() {
        if short_before {
            return true;
        }
        short_before = is_short(kind);
    }
    false
}

/// Whether a call hands its arguments over by scratch pairs.
fn goes_by_scratch(desc: &Desc<'_>) -> bool
    ensures { result ≡ (desc.now.is_method && has_short_before false (map sort_of desc.now.params)) }
{
    desc.is_method() && has_short_before(desc)
}

fn pairs_if(by_scratch: bool, count: u32) -> u32
    ensures { result ≡ (if by_scratch then count else 0) }
{
    if by_scratch { count } else { 0 }
}

/// The scratch pairs of a call of a method with a descriptor of these parts.
fn scratch_pairs(desc: &Desc<'_>) -> u32
    ensures { result ≡ scratch_pairs_by (signature_by desc.now) }
{
    pairs_if(goes_by_scratch(desc), desc.params())
}

/// The same of a call of a method with this descriptor.
fn scratch_pairs_by(desc: &[u8]) -> Result<u32, NoMemory>
    ensures { IfOk result (λ pairs. pairs ≡ scratch_pairs_by (signature_of desc.now)) }
{
    match parsed(desc)? {
        Some(parsed) => Ok(scratch_pairs(&parsed)),
        None => Ok(0),
    }
}

/// The scratch pairs of an instruction.
pub fn scratch_pairs_of(op: &JOp) -> Result<u32, NoMemory>
    ensures { IfOk result (λ pairs. pairs ≡ scratch_pairs_of op.now) }
{
    match op {
        JOp::Call { method, .. } => scratch_pairs_by(method.desc.items()),
        _ => Ok(0),
    }
}
