//! Items that stand one behind the other in a component: their bytes in all, and the first place where a test
//! of them fails. The test of each sentence uses it. It knows no sentence.

ghost use Rattle.std.specs.Prelude.{◌≡◌, ℕ, ◌+◌, ◌<◌, ◌^◌, ◌==◌, List, IfOk, sum_by};
ghost use Rattle.std.specs.List.{list_any};
ghost use Rattle.std.specs.List.Sorted.{IsNonDecreasing};
ghost use Rattle.cjc_check_rules.specs.Spots.{along, beside, first, numbered, starts};
ghost use Rattle.cjc_check_rules.specs.declared.spot.ComponentPlace.{ComponentPlace as Place};

use crate::lookup::spot::earlier;
use cjc_check_rules::ComponentPlace;
use cjc_check_rules::bytes::{NoMemory, Row};
use std::alloc::Global;

/// An item of a component.
pub trait Item {
    ghost bytes: { Self → ℕ };

    /// Its size in bytes.
    fn size(&self) -> u32
        requires { bytes self.now < 2 ^ 32 }
        ensures { result ≡ bytes self.now };
}

/// A test of items of one kind.
pub trait Test<T: Item> {
    ghost broken: { Self → ℕ → T → List Place };

    ghost fits: { Self → Type 0 };

    /// The first place where an item fails that begins at an offset.
    fn first_in(&self, at: u32, item: &T) -> Option<ComponentPlace>
        requires ready { fits self.now }
        requires small { 3 + at + T.bytes item.now < 2 ^ 32 }
        ensures { result ≡ first (broken self.now at item.now) };
}

/// The bytes of items in all.
pub fn total<T: Item>(items: &[T]) -> u32
    requires { sum_by T.bytes items.now < 2 ^ 32 }
    ensures { result ≡ sum_by T.bytes items.now }
{
    let mut size = 0;
    for item in items {
        size += item.size();
    }
    size
}

/// The first place where one of several items fails, the first of which begins at an offset.
pub fn first_along<T: Item, C: Test<T>>(test: &C, from: u32, items: &[T]) -> Option<ComponentPlace>
    requires ready { C.fits test.now }
    requires small { 3 + from + sum_by T.bytes items.now < 2 ^ 32 }
    ensures { result ≡ first (along T.bytes (C.broken test.now) from items.now) }
{
    let mut least = None;
    let mut at = from;
    for item in items {
        least = earlier(least, test.first_in(at, item));
        at += item.size();
    }
    least
}

/// A test of items of one kind beside others.
pub trait Comparison<T: Item, U> {
    ghost broken: { Self → ℕ → T → U → List Place };

    ghost fits: { Self → Type 0 };

    /// The first place where an item that begins at an offset fails beside another.
    fn first_between(&self, at: u32, item: &T, other: &U) -> Option<ComponentPlace>
        requires ready { fits self.now }
        requires small { 3 + at + T.bytes item.now < 2 ^ 32 }
        ensures { result ≡ first (broken self.now at item.now other.now) };
}

/// The first place where one of several items fails beside the other of its place, as far as there are both.
pub fn first_beside<T: Item, U, C: Comparison<T, U>>(
    test: &C,
    from: u32,
    items: &[T],
    others: &[U],
) -> Option<ComponentPlace>
    requires ready { C.fits test.now }
    requires small { 3 + from + sum_by T.bytes items.now < 2 ^ 32 }
    ensures { result ≡ first (beside T.bytes (C.broken test.now) from items.now others.now) }
{
    let mut least = None;
    let mut at = from;
    for (i, item) in items.iter().enumerate() {
        if i >= others.len() {
            return least;
        }
        least = earlier(least, test.first_between(at, item, &others[i]));
        at += item.size();
    }
    least
}

/// A test of items of one kind by their numbers.
pub trait Numbered<T: Item> {
    ghost broken: { Self → ℕ → ℕ → T → List Place };

    ghost fits: { Self → Type 0 };

    /// The first place where the item of a number fails that begins at an offset.
    fn first_at_number(&self, number: usize, at: u32, item: &T) -> Option<ComponentPlace>
        requires ready { fits self.now }
        requires small { 3 + at + T.bytes item.now < 2 ^ 32 }
        ensures { result ≡ first (broken self.now number at item.now) };
}

/// The first place where one of several items fails, which have the numbers from 0 on and the first of which
/// begins at an offset.
pub fn first_numbered<T: Item, C: Numbered<T>>(
    test: &C,
    from: u32,
    items: &[T],
) -> Option<ComponentPlace>
    requires ready { C.fits test.now }
    requires small { 3 + from + sum_by T.bytes items.now < 2 ^ 32 }
    ensures { result ≡ first (numbered T.bytes (C.broken test.now) 0 from items.now) }
{
    let mut least = None;
    let mut at = from;
    for (i, item) in items.iter().enumerate() {
        least = earlier(least, test.first_at_number(i, at, item));
        at += item.size();
    }
    least
}

/// Where items begin, the first at an offset.
pub fn starts<T: Item>(alloc: Global, from: u32, items: &[T]) -> Result<Row<u64>, NoMemory>
    requires { from + sum_by T.bytes items.now < 2 ^ 32 }
    ensures { IfOk result (λ s. s ≡ starts T.bytes from items.now) }
{
    let mut starts = Row::new(alloc);
    let mut at = from;
    for item in items {
        starts.push(u64::from(at))?;
        at += item.size();
    }
    Ok(starts)
}

/// Whether a number is one of several that do not fall.
pub fn is_among(numbers: &[u64], number: u64) -> bool
    requires { IsNonDecreasing numbers.now }
    ensures { result ≡ list_any (λ n. n == number) numbers.now }
{
    numbers.binary_search(&number).is_ok()
}
