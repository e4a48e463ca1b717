//! The parts of a group, and its classes by their numbers. Called by whoever makes further tables over them.

ghost use Rattle.std.specs.Prelude.{◌≡◌, List, Some, None, length, option_map, option_and_then, slice_get, MatchOption};
ghost use Rattle.cjc_card_semantics.specs.Machine.Loaded.{Import};
ghost use Rattle.cjc_card_semantics.specs.Machine.Classes.{Own, offset_of};
ghost use Rattle.cjc_card_semantics.specs.Machine.Operations.{class_at};
ghost use Rattle.cjc_card_frame.specs.Objects.{class_of};
ghost use Rattle.cjc_card_frame.specs.Kinds.{pool_of};
ghost use Rattle.cjc_card_link.specs.Group.{part_with};
ghost use Rattle.cjc_card_link.specs.Tables.{AreKept, class_count, loaded_of};

use crate::part::Part;
use crate::tables::Tables;
use cjc_card_frame::heap::Class;
use cjc_card_semantics::capread::PoolEntry;
use cjc_card_semantics::export_file::ExportTree;

// The entry of a number.
fn entry_at(pool: &[PoolEntry], index: u64) -> Option<PoolEntry>
    ensures { result ≡ slice_get pool.now index }
{
    pool.get(index as usize).copied()
}

impl<'a> Tables<'a> {
    /// A package by its number.
    pub fn part(&self, part: u32) -> Option<Part<'a>>
        ensures { MatchOption result (None ≡ slice_get (loaded_of self.now).parts part)
            (λ p. (imports : List Import) × (Some (part_with imports p) ≡ slice_get (loaded_of self.now).parts part)) }
    {
        match self.package(part) {
            Some(package) => Some(package.part()),
            None => None,
        }
    }

    /// The export files.
    pub fn trees(&self) -> &'a [ExportTree]
        ensures { result.now ≡ (loaded_of self.now).trees }
    {
        self.exported.trees()
    }

    /// How many packages there are.
    pub fn part_count(&self) -> u32
        requires { AreKept self.now }
        ensures { result ≡ length (loaded_of self.now).parts }
    {
        self.packages.items().len() as u32
    }

    /// How many classes and interfaces a package has.
    pub fn class_count(&self, part: u32) -> usize
        ensures { result ≡ class_count (slice_get (loaded_of self.now).parts part) }
    {
        match self.package(part) {
            Some(package) => package.count(),
            None => 0,
        }
    }

    /// The class of a package with a number, in the order of Class.
    pub fn class_numbered(&self, part: u32, number: u64) -> Option<Class>
        requires { AreKept self.now }
        ensures { option_map class_of result ≡ option_map (Own part) (option_and_then (λ p. offset_of p number)
            (slice_get (loaded_of self.now).parts part)) }
    {
        match self.package(part) {
            Some(package) => match package.offset_of(number) {
                Some(offset) => Some(Class::Own(part, offset as u32)),
                None => None,
            },
            None => None,
        }
    }

    // The entry of a number in a package.
    fn entry_numbered(&self, part: u32, index: u64) -> Option<PoolEntry>
        ensures { result ≡ slice_get (pool_of (loaded_of self.now) part) index }
    {
        match self.package(part) {
            Some(package) => entry_at(package.pool(), index),
            None => None,
        }
    }

    /// The class that the entry of a number names.
    pub fn class_of_entry(&self, part: u32, index: u64) -> Option<Class>
        requires { AreKept self.now }
        ensures { option_map class_of result ≡ class_at (loaded_of self.now) part
            (slice_get (pool_of (loaded_of self.now) part) index) }
    {
        match self.entry_numbered(part, index) {
            Some(PoolEntry::Classref(class)) => self.class_in(part, class),
            Some(PoolEntry::InstanceFieldref { .. }) => None,
            Some(PoolEntry::VirtualMethodref { .. }) => None,
            Some(PoolEntry::SuperMethodref { .. }) => None,
            Some(PoolEntry::StaticFieldref(_)) => None,
            Some(PoolEntry::StaticMethodref(_)) => None,
            None => None,
        }
    }
}
