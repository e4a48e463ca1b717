//! The places of methods and of slots by name and descriptor, so that none is sought along a list. Called by `slot`
//! and by whoever holds a row of slots. It knows no class.

ghost use Rattle.std.specs.Prelude.{◌≡◌, None, Some, IfOk, OnErr, OnOk, if◌then◌else◌, option_map};
ghost use Rattle.cjc_tokens.specs.Members.{Signature, same};
ghost use Rattle.cjc_tokens.specs.Slots.{holds, or_next, token};
ghost use Rattle.cjc_tokens.specs.SlotRows.{ArePlaces, place_under, signature_in, signs};

use crate::method_name::MethodName;
use crate::slot::Slot;
use cjc_bytes::NoMemory;
use std::alloc::Global;
use std::collections::HashMap;
use std::marker::Model;

/// Places by the names and descriptors of methods.
#[derive(Drop)]
pub(crate) struct Places<'w> {
    places: HashMap<MethodName<'w>, usize>,
}

impl<'w> Places<'w> {
    /// No place is noted for any method.
    pub(crate) fn new(alloc: Global) -> Places<'w>
        ensures { (s : Signature) → place_under result s ≡ None }
    {
        Places {
            places: HashMap::new(alloc),
        }
    }

    /// The place that is noted for a name and descriptor.
    pub(crate) fn get(&self, name: &[u8], desc: &[u8]) -> Option<usize>
        ensures { result ≡ place_under self.now (record { name = name.now; desc = desc.now }) }
    {
        self.places.get(&MethodName { name, desc }).copied()
    }

    /// Notes a place, where none is noted for the name and descriptor.
    pub(crate) fn note(
        &mut self,
        name: &'w [u8],
        desc: &'w [u8],
        place: usize,
    ) -> Result<(), NoMemory>
        ensures noted { OnOk result ((s : Signature) → place_under self.new s ≡ or_next (place_under self.old s)
            (if same (record { name = name.now; desc = desc.now }) s then Some place else None)) }
        ensures kept { OnErr result ((s : Signature) → place_under self.new s ≡ place_under self.old s) }
    {
        if self.get(name, desc).is_none() {
            self.places.insert(MethodName { name, desc }, place)?;
        }
        Ok(())
    }

    /// Notes the place of a slot, where it is of a method.
    fn note_slot(&mut self, slot: &Option<Slot<'w>>, place: usize) -> Result<(), NoMemory>
        ensures { OnOk result ((s : Signature) → place_under self.new s ≡ or_next (place_under self.old s)
            (if holds (option_map signature_in slot.now) s then Some place else None)) }
    {
        match slot {
            None => Ok(()),
            Some(slot) => self.note(slot.name, slot.desc, place),
        }
    }
}

/// The places of the slots of a row.
pub(crate) fn slot_places<'w>(
    alloc: Global,
    row: &[Option<Slot<'w>>],
) -> Result<Places<'w>, NoMemory>
    ensures { IfOk result (λ places. ArePlaces places row.now) }
{
    let mut places = Places::new(alloc);
    for (place, slot) in row.iter().enumerate() {
        places.note_slot(slot, place)?;
    }
    Ok(places)
}

/// A row of slots in which slots are found by name and descriptor. Contracts see the row.
#[derive(Drop)]
pub struct IndexedRow<'r, 'w> {
    row: &'r [Option<Slot<'w>>],
    places: Places<'w>,
}

impl<'r, 'w> Model for IndexedRow<'r, 'w> {
    ghost use Rattle.std.specs.Prelude.{List, Option};
    ghost use Rattle.cjc_tokens.specs.declared.slot.Slot.{Slot as RowSlot};
    ghost use Rattle.cjc_tokens.specs.SlotRows.{ArePlaces};

    ghost Value = { List (Option RowSlot) };

    ghost view = { λ r. r.row.now };

    ghost invariant = { λ r. ArePlaces r.places r.row.now };
}

impl<'r, 'w> IndexedRow<'r, 'w> {
    /// The row, in which each slot is found.
    pub fn new(alloc: Global, row: &'r [Option<Slot<'w>>]) -> Result<IndexedRow<'r, 'w>, NoMemory>
        ensures { IfOk result (λ indexed. indexed ≡ row.now) }
    {
        let places = slot_places(alloc, row)?;
        Ok(IndexedRow { row, places })
    }

    /// The slots by token.
    pub(crate) fn slots(&self) -> &'r [Option<Slot<'w>>]
        ensures { result.now ≡ self.now }
    {
        self.row
    }

    /// The place of the slot of a name and descriptor.
    pub(crate) fn token(&self, name: &[u8], desc: &[u8]) -> Option<usize>
        ensures { result ≡ token (signs self.now) (record { name = name.now; desc = desc.now }) }
    {
        self.places.get(name, desc)
    }
}
