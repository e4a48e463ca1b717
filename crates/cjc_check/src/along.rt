//! Items that stand one behind the other in a component: their bytes in all, and the first place where a test of them fails. The
//! test of each sentence uses it. It knows no sentence.

ghost use Rattle.std.specs.Prelude.{◌≡◌, ℕ, ◌+◌, ◌<◌, ◌^◌, List, sum_by};
ghost use Rattle.cjc_check.specs.Spots.{along, first};
ghost use Rattle.cjc_check.specs.declared.spot.Spot.{Spot as Place};

use crate::spot::{Spot, earlier};

/// An item of a component.
pub(crate) trait Item {
    ghost bytes: { Self → ℕ };

    /// Its size in bytes.
    fn size(&self) -> u32
        requires { bytes self.now < 2 ^ 32 }
        ensures { result ≡ bytes self.now };
}

/// A test of items of one kind.
pub(crate) trait Test<T: Item> {
    ghost broken: { Self → ℕ → T → List Place };

    ghost fits: { Self → Type 0 };

    /// The first place where an item fails that begins at an offset.
    fn first_in(&self, at: u32, item: &T) -> Option<Spot>
        requires ready { fits self.now }
        requires small { 3 + at + T.bytes item.now < 2 ^ 32 }
        ensures { result ≡ first (broken self.now at item.now) };
}

/// The bytes of items in all.
pub(crate) fn total<T: Item>(items: &[T]) -> u32
    requires { sum_by T.bytes items.now < 2 ^ 32 }
    ensures { result ≡ sum_by T.bytes items.now }
{
    let mut size = 0;
    for item in items {
        size += item.size();
    }
    size
}

/// The first place where one of several items fails, the first of which begins at an offset.
pub(crate) fn first_along<T: Item, C: Test<T>>(test: &C, from: u32, items: &[T]) -> Option<Spot>
    requires ready { C.fits test.now }
    requires small { 3 + from + sum_by T.bytes items.now < 2 ^ 32 }
    ensures { result ≡ first (along T.bytes (C.broken test.now) from items.now) }
{
    let mut least = None;
    let mut at = from;
    for item in items {
        least = earlier(least, test.first_in(at, item));
        at += item.size();
    }
    least
}
