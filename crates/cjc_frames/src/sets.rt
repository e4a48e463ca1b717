//! Sets of reference types for cells, as rows in ascending order with no type twice, so that equal sets are equal rows.

ghost use Rattle.std.specs.Prelude.{◌≡◌, ◌≤◌, ◌∷◌, ◌++◌, [], length, take, drop, IfOk, OnOk, MatchOption};
ghost use Rattle.cjc_types.specs.Names.{compare, insert, union, IsSet};
ghost use Rattle.cjc_frames.specs.Types.{elements, held, with_held};

use cjc_fixpoint::bytes::{Bytes, NoMemory, Row};
use std::alloc::Global;
use std::cmp::Ordering;

/// How the first type compares with the second, nibble by nibble.
fn compared(left: &[u8], right: &[u8]) -> Ordering
    ensures { result ≡ compare left.now right.now }
{
    left.cmp(right)
}

/// Where the type has to stand in the set, or nothing where it stands there already.
fn place_of(set: &[Bytes], name: &[u8]) -> Option<usize>
    requires { IsSet set.now }
    ensures { MatchOption result (insert name.now set.now ≡ set.now)
        (λ at. at ≤ length set.now × insert name.now set.now ≡ take at set.now ++ name.now ∷ drop at set.now) }
{
    let mut low = 0;
    let mut high = set.len();
    while low < high {
        let middle = low + (high - low) / 2;
        match compared(name, set[middle].items()) {
            Ordering::Less => high = middle,
            Ordering::Equal => return None,
            Ordering::Greater => low = middle + 1,
        }
    }
    Some(low)
}

/// Puts a type into the set.
fn put(alloc: Global, set: &mut Vec<Bytes>, name: &[u8]) -> Result<(), NoMemory>
    requires { IsSet set.old.items }
    ensures { OnOk result (set.new.items ≡ insert name.now set.old.items) }
{
    if let Some(at) = place_of(set, name) {
        set.insert(at, Bytes::copy_of(alloc, name)?)?;
    }
    Ok(())
}

/// The set of one type.
pub(crate) fn one_type(alloc: Global, name: &[u8]) -> Result<Row<Bytes>, NoMemory>
    ensures { IfOk result (λ set. set ≡ name.now ∷ []) }
{
    let mut set = Row::new(alloc);
    set.push(Bytes::copy_of(alloc, name)?)?;
    Ok(set)
}

/// The same types once more.
pub(crate) fn copied(alloc: Global, set: &[Bytes]) -> Result<Row<Bytes>, NoMemory>
    ensures { IfOk result (λ copied. copied ≡ set.now) }
{
    let mut copied = Row::new(alloc);
    for name in set {
        copied.push(Bytes::copy_of(alloc, name.items())?)?;
    }
    Ok(copied)
}

/// The set with some types more.
pub(crate) fn with_types(
    alloc: Global,
    set: Row<Bytes>,
    names: &[Bytes],
) -> Result<Row<Bytes>, NoMemory>
    requires { IsSet set }
    ensures { IfOk result (λ all. all ≡ union names.now set) }
{
    let mut all = set.into_vec();
    for name in names {
        put(alloc, &mut all, name.items())?;
    }
    Ok(Row::of(all))
}

/// The type that an array of references holds.
fn held(alloc: Global, array: &[u8]) -> Result<Option<Bytes>, NoMemory>
    ensures { IfOk result (λ type. type ≡ held array.now) }
{
    match array {
        [0xE, class @ ..] => {
            let mut type_ = Row::new(alloc);
            type_.push(0x6)?;
            for nibble in class {
                type_.push(*nibble)?;
            }
            Ok(Some(type_))
        }
        _ => Ok(None),
    }
}

/// Puts the type that an array of references holds into the set; another type holds none.
fn put_held(alloc: Global, set: &mut Vec<Bytes>, array: &[u8]) -> Result<(), NoMemory>
    requires { IsSet set.old.items }
    ensures { OnOk result (set.new.items ≡ with_held (held array.now) set.old.items) }
{
    match held(alloc, array)? {
        Some(name) => put(alloc, set, name.items()),
        None => Ok(()),
    }
}

/// The types that the arrays of references among these hold.
pub(crate) fn elements(alloc: Global, types: &[Bytes]) -> Result<Row<Bytes>, NoMemory>
    ensures { IfOk result (λ held. held ≡ elements types.now []) }
{
    let mut set = Vec::new(alloc);
    for array in types {
        put_held(alloc, &mut set, array.items())?;
    }
    Ok(Row::of(set))
}
