//! Numbers of classes, of which the least comes first. Called by `queue`. It knows no class.

ghost use Rattle.std.specs.Prelude.{◌≡◌, ◌≤◌, ◌==◌, ◌&&◌, ℕ, true, false, cond, IfNone, IfSome, OnOk};
ghost use Rattle.cjc_order.specs.Classes.Queue.{has};

use cjc_world::bytes::NoMemory;
use std::alloc::Global;
use std::collections::BTreeSet;

/// Numbers of classes, each once.
#[derive(Drop)]
pub(crate) struct Ready {
    numbers: BTreeSet<u32>,
}

impl Ready {
    /// No numbers. Takes no memory.
    pub(crate) fn new(alloc: Global) -> Ready
        ensures { (k : ℕ) → has result k ≡ false }
    {
        Ready {
            numbers: BTreeSet::new(alloc),
        }
    }

    /// Adds a number.
    fn put(&mut self, number: u32) -> Result<(), NoMemory>
        ensures { OnOk result ((k : ℕ) → has self.new k ≡ cond (number == k) true (has self.old k)) }
    {
        self.numbers.insert(number)?;
        Ok(())
    }

    /// Adds a number where the test holds.
    pub(crate) fn put_where(&mut self, test: bool, number: u32) -> Result<(), NoMemory>
        ensures { OnOk result ((k : ℕ) → has self.new k ≡ cond (test && (number == k)) true (has self.old k)) }
    {
        if test {
            self.put(number)?;
        }
        Ok(())
    }

    /// Takes the least number out.
    pub(crate) fn take_least(&mut self) -> Option<u32>
        ensures none { IfNone result ((k : ℕ) → has self.old k ≡ false) }
        ensures there { IfSome result (λ n. has self.old n ≡ true) }
        ensures least { IfSome result (λ n. (k : ℕ) → has self.old k ≡ true → n ≤ k) }
        ensures rest { IfSome result (λ n. (k : ℕ) → has self.new k ≡ cond (n == k) false (has self.old k)) }
    {
        self.numbers.pop_first()
    }
}
