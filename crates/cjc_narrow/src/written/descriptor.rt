//! What descriptors say: the words of arguments, and the opcodes that access a field. Called by whoever selects code.
//! Nothing here takes memory; a descriptor whose length 32 bits don't count, which no class file has, is taken for want
//! of it.

ghost use Rattle.std.specs.Prelude.{◌≡◌, if◌then◌else◌, ◌<◌, ◌≤◌, ◌^◌, ℕ, List, map, IfOk};
ghost use Rattle.cjc_jvm_semantics.specs.CapRead.Card as card;
ghost use Rattle.cjc_types.specs.Bytes.Spots.{desc_of};
ghost use Rattle.cjc_jvm_semantics.specs.LowerScript.Sorts.{field_sort, signature_of, sort_by, sort_of};
ghost use Rattle.cjc_ncode.specs.LowerCardSemantics.Bytecode.Arguments.{width, widths};
ghost use Rattle.cjc_ncode.specs.Written.{behind_reference, field_access, static_access, this_access, words_by};

use cjc_ncode::capread::card;
use cjc_types::bytes::{Desc, Kind, NoMemory};

/// The parts of a descriptor, or nothing where the bytes are none.
pub(crate) fn parsed(desc: &[u8]) -> Result<Option<Desc<'_>>, NoMemory>
    ensures { IfOk result (λ parts. parts ≡ desc_of desc.now) }
{
    if desc.len() >= 1 << 32 {
        return Err(NoMemory);
    }
    match Desc::parse(desc) {
        Ok(parsed) => Ok(Some(parsed)),
        Err(_) => Ok(None),
    }
}

/// The words of a value of a kind.
fn width(kind: Kind) -> u64
    ensures width { (class : List ℕ) → result ≡ width (sort_by kind class) }
    ensures few { result ≤ 2 }
{
    match kind {
        Kind::Int => 2,
        _ => 1,
    }
}

#[tactic(auto, using(crate::proofs::WrittenLaws::Order::widths_next, crate::proofs::WrittenLaws::Order::widths_end))]
fn widths(desc: &Desc<'_>) -> u64
    ensures widths { result ≡ widths (map sort_of desc.now.params) }
    ensures few { result < 2 ^ 34 }
{
    let mut words = 0;
    for (kind, _) in desc.parameters() {
        words += width(kind);
    }
    words
}

/// The words of a method's parameters and of its receiver.
pub fn words_by(desc: &[u8]) -> Result<u64, NoMemory>
    ensures { IfOk result (λ words. words ≡ words_by (signature_of desc.now)) }
{
    match parsed(desc)? {
        Some(parsed) => {
            if parsed.is_method() {
                Ok(1 + widths(&parsed))
            } else {
                Ok(1)
            }
        }
        None => Ok(1),
    }
}

/// How far the opcode of a type stands behind that of references.
fn behind_by(kind: Kind) -> u8
    ensures behind { (class : List ℕ) → result ≡ behind_reference (sort_by kind class) }
    ensures near { result ≤ 3 }
{
    match kind {
        Kind::Bool | Kind::Byte => 1,
        Kind::Short => 2,
        Kind::Int => 3,
        _ => 0,
    }
}

/// The same of a field's type.
fn behind_reference(desc: &[u8]) -> Result<u8, NoMemory>
    ensures { IfOk result (λ n. (n ≡ behind_reference (field_sort desc.now)) × (n ≤ 3)) }
{
    match parsed(desc)? {
        Some(parsed) => Ok(behind_by(parsed.kind(parsed.params()))),
        None => Ok(0),
    }
}

/// getstatic or putstatic of a field of this type.
pub fn static_access(put: bool, desc: &[u8]) -> Result<u8, NoMemory>
    ensures { IfOk result (λ op. op ≡ static_access put (field_sort desc.now)) }
{
    let first = if put {
        card::PUTSTATIC_A
    } else {
        card::GETSTATIC_A
    };
    let behind = behind_reference(desc)?;
    Ok(first + behind)
}

fn first_access(put: bool, near: bool) -> u8
    ensures first { result ≡ (if near then (if put then card.putfield_a else card.getfield_a)
        else (if put then card.putfield_a_w else card.getfield_a_w)) }
    ensures low { result ≤ 200 }
{
    match (near, put) {
        (true, true) => card::PUTFIELD_A,
        (true, false) => card::GETFIELD_A,
        (false, true) => card::PUTFIELD_A_W,
        (false, false) => card::GETFIELD_A_W,
    }
}

/// getfield or putfield of a field of this type, with an index of one byte or of two.
pub fn field_access(put: bool, near: bool, desc: &[u8]) -> Result<u8, NoMemory>
    ensures { IfOk result (λ op. op ≡ field_access put near (field_sort desc.now)) }
{
    let behind = behind_reference(desc)?;
    Ok(first_access(put, near) + behind)
}

/// getfield_this or putfield_this of a field of this type.
pub fn this_access(put: bool, desc: &[u8]) -> Result<u8, NoMemory>
    ensures { IfOk result (λ op. op ≡ this_access put (field_sort desc.now)) }
{
    let behind = behind_reference(desc)?;
    Ok(first_access(put, false) + behind + 4)
}
