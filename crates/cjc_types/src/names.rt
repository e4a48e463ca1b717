//! Sets of class names for cells, as rows in ascending order with no name twice, so that equal sets are equal
//! rows: one name more, two sets joined, and whether a set has all of another. Cells share sets, and sets share
//! names.

ghost use Rattle.std.specs.Prelude.{◌≡◌, ◌≤◌, ◌∷◌, ◌++◌, [], length, take, drop, IfOk, OnOk, IsTrue, MatchOption};
ghost use Rattle.cjc_types.specs.Names.{compare, insert, union, IsSet, IsWithin};
ghost use Rattle.cjc_types.specs.Working.Merging.{lesser, steps_left, steps_right};

use crate::recent::Sets;
use crate::shared::Shared;
use cjc_bytes::{Bytes, NoMemory, Row};
use std::alloc::Global;
use std::cmp::Ordering;

/// A name that sets share.
pub type Name = Shared<Bytes>;

/// A set of names that cells share.
pub type Names = Shared<Row<Name>>;

/// A name in memory of its own.
fn name_of(alloc: Global, name: &[u8]) -> Result<Name, NoMemory>
    ensures { IfOk result (λ made. made ≡ name.now) }
{
    Shared::new(alloc, Bytes::copy_of(alloc, name)?)
}

/// The set with no names.
pub(crate) fn no_names(alloc: Global) -> Result<Names, NoMemory>
    ensures { IfOk result (λ set. set ≡ []) }
{
    Shared::new(alloc, Row::new(alloc))
}

/// The set of one name.
pub(crate) fn one_name(alloc: Global, name: &[u8]) -> Result<Names, NoMemory>
    ensures { IfOk result (λ set. set ≡ name.now ∷ []) }
{
    let mut set = Vec::with_capacity(alloc, 1)?;
    set.push(name_of(alloc, name)?)?;
    Shared::new(alloc, Row::of(set))
}

/// How the first name compares with the second.
fn compared(left: &[u8], right: &[u8]) -> Ordering
    ensures { result ≡ compare left.now right.now }
{
    left.cmp(right)
}

/// Where the name has to stand in the set, or nothing where it stands there already.
fn place_of(set: &[Name], name: &[u8]) -> Option<usize>
    requires { IsSet set.now }
    ensures { MatchOption result (insert name.now set.now ≡ set.now)
        (λ at. at ≤ length set.now × insert name.now set.now ≡ take at set.now ++ name.now ∷ drop at set.now) }
{
    let mut low = 0;
    let mut high = set.len();
    while low < high {
        let middle = low + (high - low) / 2;
        match compared(name, set[middle].items()) {
            Ordering::Less => high = middle,
            Ordering::Equal => return None,
            Ordering::Greater => low = middle + 1,
        }
    }
    Some(low)
}

/// Puts a name into the set, in memory of its own.
pub(crate) fn put(alloc: Global, set: &mut Vec<Name>, name: &[u8]) -> Result<(), NoMemory>
    requires { IsSet set.old.items }
    ensures { OnOk result (set.new.items ≡ insert name.now set.old.items) }
{
    if let Some(at) = place_of(set, name) {
        set.insert(at, name_of(alloc, name)?)?;
    }
    Ok(())
}

/// Puts the name of another set into the set.
fn put_shared(set: &mut Vec<Name>, name: &Name) -> Result<(), NoMemory>
    requires { IsSet set.old.items }
    ensures { OnOk result (set.new.items ≡ insert name.now set.old.items) }
{
    if let Some(at) = place_of(set, name.items()) {
        set.insert(at, name.shared()?)?;
    }
    Ok(())
}

/// Whether each of the names is in the set.
pub(crate) fn has_all(set: &[Name], names: &[Name]) -> bool
    requires { IsSet set.now }
    ensures { IsTrue result → IsWithin names.now set.now }
{
    for name in names {
        if place_of(set, name.items()).is_some() {
            return false;
        }
    }
    true
}

/// Puts the lesser of two names at the end, and says how the first compares with the second.
fn put_lesser(set: &mut Vec<Name>, left: &Name, right: &Name) -> Result<Ordering, NoMemory>
    ensures order { IfOk result (λ order. order ≡ compare left.now right.now) }
    ensures put { OnOk result (set.new.items ≡ set.old.items ++ lesser (compare left.now right.now) left.now right.now
        ∷ []) }
{
    let order = compared(left.items(), right.items());
    let name = match order {
        Ordering::Greater => right,
        _ => left,
    };
    set.push(name.shared()?)?;
    Ok(order)
}

/// How many names of the first set the lesser of two is.
fn steps_left(order: Ordering) -> usize
    ensures { result ≡ steps_left order }
{
    match order {
        Ordering::Greater => 0,
        _ => 1,
    }
}

/// How many of the second.
fn steps_right(order: Ordering) -> usize
    ensures { result ≡ steps_right order }
{
    match order {
        Ordering::Less => 0,
        _ => 1,
    }
}

/// Puts the names from a place on at the end.
fn put_rest(set: &mut Vec<Name>, names: &[Name], from: usize) -> Result<(), NoMemory>
    requires { from ≤ length names.now }
    ensures { OnOk result (set.new.items ≡ set.old.items ++ drop from names.now) }
{
    for k in from..names.len() {
        set.push(names[k].shared()?)?;
    }
    Ok(())
}

/// The names of either set, by one walk along both.
fn merged(alloc: Global, left: &[Name], right: &[Name]) -> Result<Names, NoMemory>
    requires { IsSet left.now }
    ensures { IfOk result (λ set. set ≡ union left.now right.now) }
{
    let mut set = Vec::new(alloc);
    let mut i = 0;
    let mut k = 0;
    while i < left.len() && k < right.len() {
        let order = put_lesser(&mut set, &left[i], &right[k])?;
        i += steps_left(order);
        k += steps_right(order);
    }
    put_rest(&mut set, left, i)?;
    put_rest(&mut set, right, k)?;
    set.shrink_to_fit();
    Shared::new(alloc, Row::of(set))
}

/// The names of a set once more, with room for some more.
fn copied(alloc: Global, names: &[Name], room: usize) -> Result<Vec<Name>, NoMemory>
    ensures { IfOk result (λ own. own.items ≡ names.now) }
{
    let mut own = Vec::with_capacity(alloc, names.len().saturating_add(room))?;
    put_rest(&mut own, names, 0)?;
    Ok(own)
}

/// Puts some names into the set.
fn put_all(set: &mut Vec<Name>, names: &[Name]) -> Result<(), NoMemory>
    requires { IsSet set.old.items }
    ensures { OnOk result (set.new.items ≡ union names.now set.old.items) }
{
    for name in names {
        put_shared(set, name)?;
    }
    Ok(())
}

/// The set with some names more. Where other cells share the set, what is made of it is shared with what was made last.
fn with_names(
    alloc: Global,
    recent: &mut Sets,
    at: usize,
    set: Names,
    names: &[Name],
) -> Result<Names, NoMemory>
    requires { IsSet set }
    ensures { IfOk result (λ all. all ≡ union names.now set) }
{
    recent.forget(at, &set);
    match set.alone() {
        Ok(own) => {
            let mut all = own.into_vec();
            put_all(&mut all, names)?;
            Shared::new(alloc, Row::of(all))
        }
        Err(set) => {
            let mut all = copied(alloc, set.items(), names.len())?;
            put_all(&mut all, names)?;
            let all = Shared::new(alloc, Row::of(all))?;
            recent.shared(at, all)
        }
    }
}

/// The names of either set, made of the first, a cell at this place. Where they are those of one of the two, that is
/// shared. A few names are put in one by one, so that a great set that no other cell shares is not copied for them.
pub(crate) fn either(
    alloc: Global,
    recent: &mut Sets,
    at: usize,
    set: Names,
    others: &Names,
) -> Result<Names, NoMemory>
    requires left { IsSet set }
    requires right { IsSet others.now }
    ensures { IfOk result (λ all. all ≡ union set others.now) }
{
    if has_all(set.items(), others.items()) {
        Ok(set)
    } else if has_all(others.items(), set.items()) {
        others.shared()
    } else if others.items().len() <= 8 {
        with_names(alloc, recent, at, set, others.items())
    } else {
        let all = merged(alloc, set.items(), others.items())?;
        recent.shared(at, all)
    }
}
