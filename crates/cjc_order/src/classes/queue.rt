//! The classes that wait for their place. Called by `order`. It knows no world.

ghost use Rattle.std.specs.Prelude.{◌≡◌, ◌<◌, ◌^◌, ◌&&◌, ◌==◌, ℕ, List, [], ◌∷◌, length, map, get_or, IfOk, OnOk};
ghost use Rattle.cjc_order.specs.Classes.Queue.{has, is_kind_at, IsQueue};

use crate::classes::listed::is_of_kind;
use crate::classes::ready::Ready;
use cjc_world::Known;
use cjc_world::bytes::{NoMemory, Row};
use cjc_world::classfile::ClassTree;
use std::alloc::Global;

/// How many classes each lists.
pub(crate) fn counts_of(alloc: Global, listed: &[Row<u32>]) -> Result<Vec<usize>, NoMemory>
    ensures { IfOk result (λ counts. counts.items ≡ map (λ row. length row) listed.now) }
{
    let mut counts = Vec::new(alloc);
    for row in listed {
        counts.push(row.items().len())?;
    }
    Ok(counts)
}

/// Whether a class of this kind has the number.
fn is_kind_at(interfaces: bool, classes: &[ClassTree<'_>], number: u32) -> bool
    ensures { result ≡ is_kind_at interfaces classes.now number }
{
    match classes.get(number as usize) {
        Some(class) => is_of_kind(interfaces, Known::Declared(number, class)),
        None => false,
    }
}

/// Whether a class is of this kind and no class is left that it waits for.
fn waits_for_none(interfaces: bool, classes: &[ClassTree<'_>], left: usize, number: u32) -> bool
    ensures { result ≡ ((left == 0) && is_kind_at interfaces classes.now number) }
{
    left == 0 && is_kind_at(interfaces, classes, number)
}

/// The numbers of the classes of a kind that wait for none.
pub(crate) fn ready_of(
    alloc: Global,
    interfaces: bool,
    classes: &[ClassTree<'_>],
    counts: &[usize],
) -> Result<Ready, NoMemory>
    requires few { length classes.now < 2 ^ 32 }
    requires same { length counts.now ≡ length classes.now }
    ensures { IfOk result (λ ready. (k : ℕ) → has ready k ≡ (is_kind_at interfaces classes.now k
        && (get_or counts.now k 0 == 0))) }
{
    let mut ready = Ready::new(alloc);
    for (number, left) in counts.iter().enumerate() {
        let number = number as u32;
        ready.put_where(waits_for_none(interfaces, classes, *left, number), number)?;
    }
    Ok(ready)
}

/// Counts a class that has its place out of what one that lists it waits for.
fn count_out_of_one(
    interfaces: bool,
    classes: &[ClassTree<'_>],
    counts: &mut Vec<usize>,
    ready: &mut Ready,
    sub: u32,
) -> Result<(), NoMemory>
    requires { (listed : List (List ℕ)) × (placed rest : List ℕ) × IsQueue interfaces classes.now listed placed (sub
        ∷ rest) counts.old.items ready.old }
    ensures { (listed : List (List ℕ)) (placed rest : List ℕ) → IsQueue interfaces classes.now listed placed (sub
        ∷ rest) counts.old.items ready.old
        → OnOk result (IsQueue interfaces classes.now listed placed rest counts.new.items ready.new) }
{
    let place = sub as usize;
    let left = counts[place] - 1;
    counts[place] = left;
    ready.put_where(waits_for_none(interfaces, classes, left, sub), sub)
}

/// Counts a class that has its place out of what those that list it wait for.
pub(crate) fn count_out(
    interfaces: bool,
    classes: &[ClassTree<'_>],
    counts: &mut Vec<usize>,
    ready: &mut Ready,
    subs: &[u32],
) -> Result<(), NoMemory>
    requires { (listed : List (List ℕ)) × (placed : List ℕ) × IsQueue interfaces classes.now listed placed subs.now
        counts.old.items ready.old }
    ensures { (listed : List (List ℕ)) (placed : List ℕ) → IsQueue interfaces classes.now listed placed subs.now
        counts.old.items ready.old → OnOk result (IsQueue interfaces classes.now listed placed [] counts.new.items
        ready.new) }
{
    for sub in subs {
        count_out_of_one(interfaces, classes, counts, ready, *sub)?;
    }
    Ok(())
}
