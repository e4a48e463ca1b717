//! Shelves of files in memory, for tests and for runs whose files are wanted as bytes.

ghost use Rattle.std.specs.Prelude.{◌≡◌, ◌+◌, ◌-◌, ◌^◌, ◌≤◌, ◌↔◌, ℕ, [], ◌∷◌, min, None, false, option_copied, IsTrue};
ghost use Rattle.std.specs.Prelude.{Contains, OnOk, OnErr};
ghost use Rattle.std.specs.FinMap as map;
ghost use Rattle.cjc_shelf.specs.Count.{Rose};
ghost use Rattle.cjc_shelf.specs.Shelf.{Reads, Writes};

use crate::{LONGEST, ReadEnd, Shelf, WriteEnd};
use cjc_bytes::{Bytes, NoMemory, Row};
use std::alloc::Global;
use std::collections::VecDeque;

/// Files as a log of writes, the newest first, and the counts of a shelf but for its faults.
#[derive(Drop)]
struct Store {
    alloc: Global,
    log: VecDeque<(Bytes, Bytes)>,
    last: Bytes,
    misses: u64,
    wants: u64,
    taken: u64,
}

impl Store {
    ghost use Rattle.cjc_shelf.specs.Memory.{store_files, store_shelved};

    fn new(alloc: Global) -> Store
        ensures { (faults : ℕ) → store_shelved result faults ≡ record {
          files = Some map.empty;
          last = [];
          misses = 0;
          faults = faults;
          wants = 0;
          taken = 0;
        } }
    {
        Store {
            alloc,
            log: VecDeque::new(alloc),
            last: Row::new(alloc),
            misses: 0,
            wants: 0,
            taken: 0,
        }
    }

    fn find(&self, name: &[u8]) -> Option<&Bytes>
        ensures { option_copied result ≡ map.get (store_files self.now) name.now }
    {
        for (key, bytes) in &self.log {
            if name == key.items() {
                return Some(bytes);
            }
        }
        None
    }

    // Puts the bytes under the name. Nothing is counted.
    fn add(&mut self, name: &[u8], bytes: &[u8]) -> Result<(), NoMemory>
        ensures rest { self.new ≡ record self.old { log = self.new.log } }
        ensures ok { OnOk result (self.new.log.items ≡ (name.now, bytes.now) ∷ self.old.log.items) }
        ensures err { OnErr result (self.new.log.items ≡ self.old.log.items) }
    {
        let name = Bytes::copy_of(self.alloc, name)?;
        let bytes = Bytes::copy_of(self.alloc, bytes)?;
        self.log.push_front((name, bytes))?;
        Ok(())
    }

    fn read(&mut self, alloc: Global, name: &[u8]) -> Result<Bytes, ReadEnd>
        ensures { (faults : ℕ) → Reads name.now (store_shelved self.old faults) (store_shelved self.new faults) result }
    {
        self.taken = 0;
        let Ok(last) = Bytes::copy_of(self.alloc, name) else {
            return Err(ReadEnd::NoMemory);
        };
        let Some(found) = self.find(name) else {
            self.last = last;
            self.misses = self.misses.saturating_add(1);
            return Err(ReadEnd::Absent);
        };
        if found.items().len() > LONGEST {
            self.last = last;
            self.taken = LONGEST as u64 + 1;
            return Err(ReadEnd::TooLong);
        }
        let Ok(bytes) = Bytes::copy_of(alloc, found.items()) else {
            return Err(ReadEnd::NoMemory);
        };
        self.last = last;
        self.taken = bytes.items().len() as u64;
        Ok(bytes)
    }

    fn write(&mut self, name: &[u8], bytes: &[u8]) -> Result<(), WriteEnd>
        ensures { (faults : ℕ) → Writes name.now bytes.now (store_shelved self.old faults) (store_shelved self.new
            faults) result }
    {
        let Ok(last) = Bytes::copy_of(self.alloc, name) else {
            self.wants = self.wants.saturating_add(1);
            return Err(WriteEnd::NoMemory);
        };
        let Ok(()) = self.add(name, bytes) else {
            self.wants = self.wants.saturating_add(1);
            return Err(WriteEnd::NoMemory);
        };
        self.last = last;
        Ok(())
    }
}

/// Files in memory. Reads and writes together are numbered from 0, and those of the list fail.
#[derive(Drop)]
pub struct MemShelf {
    store: Store,
    failing: Row<u32>,
    calls: u64,
    faults: u64,
}

// Whether the call of this number is to fail.
pub(crate) fn is_listed(failing: &[u32], call: u64) -> bool
    ensures { IsTrue result ↔ Contains failing.now call }
{
    failing.iter().any(|number| u64::from(*number) == call)
}

impl MemShelf {
    ghost use Rattle.cjc_shelf.specs.Memory.{mem_shelved, with_file, files_of, failing_calls, next_call, IsNewShelf};
    ghost use Rattle.cjc_shelf.specs.Memory.{IsListed, CallInMemory};

    /// No files; the calls of the list are to fail. Takes no memory.
    pub fn new(alloc: Global, failing: Row<u32>) -> MemShelf
        ensures { IsNewShelf failing result }
    {
        MemShelf {
            store: Store::new(alloc),
            failing,
            calls: 0,
            faults: 0,
        }
    }

    /// Puts the bytes under the name, as no call of the shelf.
    pub fn add(&mut self, name: &[u8], bytes: &[u8]) -> Result<(), NoMemory>
        ensures ok { OnOk result (mem_shelved self.new ≡ with_file name.now bytes.now (mem_shelved self.old)) }
        ensures err { OnErr result (mem_shelved self.new ≡ mem_shelved self.old) }
        ensures next { next_call self.new ≡ next_call self.old }
        ensures failing { failing_calls self.new ≡ failing_calls self.old }
    {
        self.store.add(name, bytes)
    }

    /// The bytes under the name, as no call of the shelf.
    pub fn get(&self, name: &[u8]) -> Option<&[u8]>
        ensures { option_copied result ≡ map.get (files_of (mem_shelved self.now)) name.now }
    {
        match self.store.find(name) {
            None => None,
            Some(bytes) => Some(bytes.items()),
        }
    }

    // Counts the call, and the fault where it is to fail.
    fn fails(&mut self) -> bool
        ensures rest { mem_shelved self.new ≡ record (mem_shelved self.old) { faults = self.new.faults } }
        ensures goes_on { self.old.faults ≤ self.new.faults }
        ensures fault { IsTrue result → Rose self.old.faults self.new.faults }
        ensures none { result ≡ false → mem_shelved self.new ≡ mem_shelved self.old }
        ensures listed { IsTrue result ↔ IsListed self.old }
        ensures counted { CallInMemory self.old self.new }
    {
        let call = self.calls;
        self.calls = call.saturating_add(1);
        let fails = is_listed(self.failing.items(), call);
        if fails {
            self.faults = self.faults.saturating_add(1);
        }
        fails
    }
}

impl Shelf for MemShelf {
    ghost use Rattle.cjc_shelf.specs.Memory.{mem_shelved, IsListed, CallInMemory, ReadFails, WriteFails};

    ghost shelved = { mem_shelved };

    /// A read that is listed fails.
    fn read(&mut self, alloc: Global, name: &[u8]) -> Result<Bytes, ReadEnd>
        ensures reads { Reads name.now (mem_shelved self.old) (mem_shelved self.new) result }
        ensures counted { CallInMemory self.old self.new }
        ensures listed { IsListed self.old → ReadFails result }
    {
        if self.fails() {
            let Ok(last) = Bytes::copy_of(self.store.alloc, name) else {
                return Err(ReadEnd::NoMemory);
            };
            self.store.last = last;
            return Err(ReadEnd::Failed);
        }
        self.store.read(alloc, name)
    }

    /// A write that is listed fails.
    fn write(&mut self, name: &[u8], bytes: &[u8]) -> Result<(), WriteEnd>
        ensures writes { Writes name.now bytes.now (mem_shelved self.old) (mem_shelved self.new) result }
        ensures counted { CallInMemory self.old self.new }
        ensures listed { IsListed self.old → WriteFails result }
    {
        if self.fails() {
            let Ok(last) = Bytes::copy_of(self.store.alloc, name) else {
                self.store.wants = self.store.wants.saturating_add(1);
                return Err(WriteEnd::NoMemory);
            };
            self.store.last = last;
            return Err(WriteEnd::Failed);
        }
        self.store.write(name, bytes)
    }
}

/// Files in memory that never fail.
#[derive(Drop)]
pub struct CleanShelf {
    store: Store,
}

impl CleanShelf {
    ghost use Rattle.cjc_shelf.specs.Memory.{clean_shelved, shelf_at_first, with_file, files_of};

    /// No files. Takes no memory.
    pub fn new(alloc: Global) -> CleanShelf
        ensures { clean_shelved result ≡ shelf_at_first }
    {
        CleanShelf {
            store: Store::new(alloc),
        }
    }

    /// Puts the bytes under the name.
    pub fn add(&mut self, name: &[u8], bytes: &[u8]) -> Result<(), NoMemory>
        ensures ok { OnOk result (clean_shelved self.new ≡ with_file name.now bytes.now (clean_shelved self.old)) }
        ensures err { OnErr result (clean_shelved self.new ≡ clean_shelved self.old) }
    {
        self.store.add(name, bytes)
    }

    /// The bytes under the name.
    pub fn get(&self, name: &[u8]) -> Option<&[u8]>
        ensures { option_copied result ≡ map.get (files_of (clean_shelved self.now)) name.now }
    {
        match self.store.find(name) {
            None => None,
            Some(bytes) => Some(bytes.items()),
        }
    }
}

impl Shelf for CleanShelf {
    ghost use Rattle.cjc_shelf.specs.Memory.{clean_shelved};

    ghost shelved = { clean_shelved };

    fn read(&mut self, alloc: Global, name: &[u8]) -> Result<Bytes, ReadEnd> {
        self.store.read(alloc, name)
    }

    fn write(&mut self, name: &[u8], bytes: &[u8]) -> Result<(), WriteEnd> {
        self.store.write(name, bytes)
    }
}
