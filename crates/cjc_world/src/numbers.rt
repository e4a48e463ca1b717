//! From a class number of a look-up, of the package or imported, to its place in the list. Only the roster asks
//! it.

ghost use Rattle.std.specs.Prelude.{◌≡◌, ◌<◌, ◌^◌, false, true, length, slice_get, IfOk};
ghost use Rattle.cjc_world.specs.Working.Numbers.{is_of_kind, places_in, places_of};

use crate::spot::ClassPlace;
use cjc_bytes::{NoMemory, Row};
use std::alloc::Global;

/// Of each kind of class the places in the order of the list, by number.
#[derive(Drop)]
pub(crate) struct Numbers {
    pub declared: Row<u32>,
    pub imported: Row<u32>,
}

impl Numbers {
    /// The place of the class of this kind and number.
    pub(crate) fn get(&self, imported: bool, number: u32) -> Option<u32>
        ensures { result ≡ slice_get (places_in imported self.now) number }
    {
        let places = if imported {
            self.imported.items()
        } else {
            self.declared.items()
        };
        places.get(number as usize).copied()
    }
}

/// Whether a class is of a kind.
fn is_of_kind(imported: bool, spot: &ClassPlace) -> bool
    ensures { result ≡ is_of_kind imported spot.now.imported }
{
    if spot.imported { imported } else { !imported }
}

/// The places of the spots of one kind, in order.
fn places_of(alloc: Global, spots: &[ClassPlace], imported: bool) -> Result<Row<u32>, NoMemory>
    requires { length spots.now < 2 ^ 32 }
    ensures { IfOk result (λ places. places ≡ places_of imported 0 spots.now) }
{
    let mut places = Vec::new(alloc);
    for (place, spot) in spots.iter().enumerate() {
        if is_of_kind(imported, spot) {
            places.push(place as u32)?;
        }
    }
    Ok(Row::of(places))
}

/// The places of the spots of both kinds.
pub(crate) fn numbers_of(alloc: Global, spots: &[ClassPlace]) -> Result<Numbers, NoMemory>
    requires { length spots.now < 2 ^ 32 }
    ensures declared { IfOk result (λ n. n.declared ≡ places_of false 0 spots.now) }
    ensures imported { IfOk result (λ n. n.imported ≡ places_of true 0 spots.now) }
{
    let declared = places_of(alloc, spots, false)?;
    let imported = places_of(alloc, spots, true)?;
    Ok(Numbers { declared, imported })
}
