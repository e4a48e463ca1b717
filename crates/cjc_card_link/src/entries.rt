//! Entries of the constant pool by their indices (Java Card Virtual Machine Specification 2.2.2, section 6.7).

ghost use Rattle.std.specs.Prelude.{◌≡◌, option_map, option_and_then, slice_get};
ghost use Rattle.cjc_card_semantics.specs.Machine.Classes.{class_of as class_by_ref};
ghost use Rattle.cjc_card_semantics.specs.Machine.Loaded.{OfGroup};
ghost use Rattle.cjc_card_semantics.specs.Machine.Operations.{cell_through, class_at, entry, static_cell};
ghost use Rattle.cjc_card_link.specs.Group.{import_of};
ghost use Rattle.cjc_card_frame.specs.Objects.{class_of, field_of};
ghost use Rattle.cjc_card_frame.specs.Kinds.{cell_by, cell_of, field_by, pool_of};
ghost use Rattle.cjc_card_link.specs.Tables.{AreKept, loaded_of};

use crate::part::Import;
use crate::tables::Tables;
use cjc_card_frame::heap::{Class, Field};
use cjc_card_frame::parts::StaticCell;
use cjc_card_semantics::capread::{ClassRef, PoolEntry, StaticRef};

// The entry of an index.
fn entry(pool: &[PoolEntry], index: i32) -> Option<PoolEntry>
    ensures { result ≡ entry pool.now index }
{
    if index < 0 {
        None
    } else {
        pool.get(index as usize).copied()
    }
}

// The cell of a token among the offsets of a class's static fields.
fn cell_at(part: u32, offsets: &[u64], token: u8) -> Option<StaticCell>
    ensures { option_map cell_of result ≡ option_map (λ offset. record { part = part; offset = offset })
        (slice_get offsets.now token) }
{
    match offsets.get(usize::from(token)) {
        Some(offset) => Some(StaticCell {
            part,
            offset: *offset,
        }),
        None => None,
    }
}

impl<'a> Tables<'a> {
    // The constant pool of a package; one that is not there has no entries.
    fn pool(&self, part: u32) -> &'a [PoolEntry]
        ensures { result.now ≡ pool_of (loaded_of self.now) part }
    {
        match self.package(part) {
            Some(package) => package.pool(),
            None => &[],
        }
    }

    /// The entry of an index in a package.
    pub(crate) fn pool_entry(&self, part: u32, index: i32) -> Option<PoolEntry>
        ensures { result ≡ entry (pool_of (loaded_of self.now) part) index }
    {
        entry(self.pool(part), index)
    }

    /// The class that an entry names.
    pub fn class_entry(&self, part: u32, index: i32) -> Option<Class>
        requires { AreKept self.now }
        ensures { option_map class_of result ≡ class_at (loaded_of self.now) part
            (entry (pool_of (loaded_of self.now) part) index) }
    {
        match self.pool_entry(part, index) {
            Some(PoolEntry::Classref(class)) => self.class_in(part, class),
            Some(PoolEntry::InstanceFieldref { .. }) => None,
            Some(PoolEntry::VirtualMethodref { .. }) => None,
            Some(PoolEntry::SuperMethodref { .. }) => None,
            Some(PoolEntry::StaticFieldref(_)) => None,
            Some(PoolEntry::StaticMethodref(_)) => None,
            None => None,
        }
    }

    // The instance field of a class_ref and a token.
    fn field(&self, part: u32, class: ClassRef, token: u8) -> Option<Field>
        requires { AreKept self.now }
        ensures { option_map field_of result ≡ option_map (λ c. record { class = c; token = token })
            (class_by_ref (loaded_of self.now) part class) }
    {
        match self.class_in(part, class) {
            Some(class) => Some(Field { class, token }),
            None => None,
        }
    }

    /// The instance field that an entry names.
    pub fn field_entry(&self, part: u32, index: i32) -> Option<Field>
        requires { AreKept self.now }
        ensures { option_map field_of result ≡ option_and_then (field_by (loaded_of self.now) part)
            (entry (pool_of (loaded_of self.now) part) index) }
    {
        match self.pool_entry(part, index) {
            Some(PoolEntry::InstanceFieldref { class, token }) => self.field(part, class, token),
            Some(PoolEntry::Classref(_)) => None,
            Some(PoolEntry::VirtualMethodref { .. }) => None,
            Some(PoolEntry::SuperMethodref { .. }) => None,
            Some(PoolEntry::StaticFieldref(_)) => None,
            Some(PoolEntry::StaticMethodref(_)) => None,
            None => None,
        }
    }

    // The cell that a package of the group exports by the tokens of a class and of a field.
    fn exported_cell(&self, part: u32, class: u8, token: u8) -> Option<StaticCell>
        ensures { option_map cell_of result ≡ cell_through (loaded_of self.now) class token (OfGroup part) }
    {
        match self.package(part) {
            Some(package) => match package.exported(class) {
                Some(class) => cell_at(part, class.fields.items(), token),
                None => None,
            },
            None => None,
        }
    }

    // The cell of a static field through an import; one outside the group has none.
    fn cell_through(&self, class: u8, token: u8, import: Import) -> Option<StaticCell>
        ensures { option_map cell_of result ≡ cell_through (loaded_of self.now) class token (import_of import) }
    {
        match import {
            Import::OfFile(_) => None,
            Import::OfGroup(part) => self.exported_cell(part, class, token),
        }
    }

    // The cell of a static reference.
    fn static_cell(&self, part: u32, field: StaticRef) -> Option<StaticCell>
        ensures { option_map cell_of result ≡ static_cell (loaded_of self.now) part field }
    {
        match field {
            StaticRef::Inside(offset) => Some(StaticCell { part, offset }),
            StaticRef::Outside {
                package,
                class,
                token,
            } => match self.import(part, u32::from(package)) {
                Some(import) => self.cell_through(class, token, import),
                None => None,
            },
        }
    }

    /// The static cell that an entry names.
    pub fn cell_entry(&self, part: u32, index: i32) -> Option<StaticCell>
        ensures { option_map cell_of result ≡ option_and_then (cell_by (loaded_of self.now) part)
            (entry (pool_of (loaded_of self.now) part) index) }
    {
        match self.pool_entry(part, index) {
            Some(PoolEntry::StaticFieldref(field)) => self.static_cell(part, field),
            Some(PoolEntry::Classref(_)) => None,
            Some(PoolEntry::InstanceFieldref { .. }) => None,
            Some(PoolEntry::VirtualMethodref { .. }) => None,
            Some(PoolEntry::SuperMethodref { .. }) => None,
            Some(PoolEntry::StaticMethodref(_)) => None,
            None => None,
        }
    }
}
