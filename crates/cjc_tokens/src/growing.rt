//! A row of slots that grows, in which slots are found by name and descriptor. Called by `slot`, `line` and
//! `interfaces`. It knows no class.

ghost use Rattle.std.specs.Prelude.{◌≡◌, ◌++◌, ◌∷◌, [], List, Option, IfOk, OnOk};
ghost use Rattle.cjc_world.specs.declared.found.Found.{Found as Method};
ghost use Rattle.cjc_tokens.specs.Members.{Signature};
ghost use Rattle.cjc_tokens.specs.Slots.{with_new};
ghost use Rattle.cjc_tokens.specs.Working.{Offered, signs};
ghost use Rattle.cjc_tokens.specs.declared.slot.Slot.{Slot as RowSlot};

use crate::indexed::{Places, slot_places};
use crate::slot::Slot;
use cjc_bytes::NoMemory;
use cjc_world::Found;
use std::alloc::Global;
use std::marker::Model;

/// A row of slots that grows, in which slots are found by name and descriptor. Contracts see the row.
#[derive(Drop)]
pub(crate) struct GrowingRow<'w> {
    row: Vec<Option<Slot<'w>>>,
    places: Places<'w>,
}

impl<'w> Model for GrowingRow<'w> {
    ghost use Rattle.std.specs.Prelude.{Option};
    ghost use Rattle.std.specs.Global.{Vec as Row};
    ghost use Rattle.cjc_tokens.specs.declared.slot.Slot.{Slot as RowSlot};
    ghost use Rattle.cjc_tokens.specs.SlotRows.{ArePlaces};

    ghost Value = { Row (Option RowSlot) };

    ghost view = { λ r. r.row };

    ghost invariant = { λ r. ArePlaces r.places r.row.items };
}

impl<'w> GrowingRow<'w> {
    /// A row, in which each slot is found.
    pub(crate) fn new(alloc: Global, row: Vec<Option<Slot<'w>>>) -> Result<GrowingRow<'w>, NoMemory>
        ensures { IfOk result (λ growing. growing.items ≡ row.entry.items) }
    {
        let places = slot_places(alloc, &row)?;
        Ok(GrowingRow { row, places })
    }

    /// The row as it is now.
    pub(crate) fn into_row(self) -> Vec<Option<Slot<'w>>>
        ensures { result.items ≡ self.entry.items }
    {
        let GrowingRow {
            row,
            places: _places,
        } = self;
        row
    }

    /// Puts a slot at the end for a name and descriptor that has none yet.
    pub(crate) fn put_new(
        &mut self,
        name: &'w [u8],
        desc: &'w [u8],
        method: Option<Found>,
    ) -> Result<(), NoMemory>
        ensures { (ss : List Signature) (method_of : Signature → Option Method) (old : List (Option RowSlot))
            → Offered ss method_of old self.old.items → method ≡ method_of (record { name = name.now; desc = desc.now })
            → OnOk result (Offered (ss ++ record { name = name.now; desc = desc.now } ∷ []) method_of old
            self.new.items) }
    {
        match self.places.get(name, desc) {
            Some(_) => Ok(()),
            None => {
                self.row.reserve(1)?;
                self.places.note(name, desc, self.row.len())?;
                self.row.push_reserved(Some(Slot { name, desc, method }));
                Ok(())
            }
        }
    }

    /// Puts a name and descriptor at the end that has no slot yet, with no method.
    pub(crate) fn put_name(&mut self, name: &'w [u8], desc: &'w [u8]) -> Result<(), NoMemory>
        ensures { OnOk result (signs self.new.items ≡ with_new (signs self.old.items) (record {
          name = name.now;
          desc = desc.now;
        } ∷ [])) }
    {
        self.put_new(name, desc, None)
    }
}
