//! How many bytes the infos of Class have. Called by `starts`. It knows no class_ref.

ghost use Rattle.std.specs.Prelude.{◌≡◌, ◌+◌, ℕ, length, is_some, slice_get, sum_by, IfOk};
ghost use Rattle.cjc_world.specs.Classes.{all_classes};
ghost use Rattle.cjc_world.specs.Working.Known.{class_of};
ghost use Rattle.cjc_world.specs.Working.Places.{at_places};
ghost use Rattle.cjc_classes.specs.ClassInfo.Infos.{interface_bytes, map_bytes, table_bytes};

use cjc_bytes::NoMemory;
use cjc_components::vtable::{ClassTable, InterfaceMap};
use cjc_world::{Known, World};
use std::alloc::Global;

/// The sum, where 64 bits hold it.
pub(crate) fn plus(a: u64, b: u64) -> Result<u64, NoMemory>
    ensures { IfOk result (λ n. n ≡ a + b) }
{
    match a.checked_add(b) {
        Some(sum) => Ok(sum),
        None => Err(NoMemory),
    }
}

fn is_known(world: &World<'_>, place: u32) -> bool
    ensures { result ≡ is_some (slice_get (all_classes world.now) place) }
{
    world.class_in(place).is_some()
}

/// How many of these places are of a class.
#[tactic(auto, using(crate::proofs::ClassInfo::Places::length_at_places))]
fn known_count(world: &World<'_>, places: &[u32]) -> usize
    ensures { result ≡ length (at_places (all_classes world.now) places.now) }
{
    places
        .iter()
        .filter(|place| is_known(world, **place))
        .count()
}

/// The bytes of the info of an interface: flags with a count, and its superinterfaces.
pub(crate) fn interface_bytes(
    alloc: Global,
    world: &World<'_>,
    class: Known<'_, '_>,
) -> Result<u64, NoMemory>
    ensures { IfOk result (λ n. n ≡ interface_bytes (all_classes world.now) (class_of class.entry)) }
{
    let places = world.interfaces(alloc, class)?;
    let count = known_count(world, places.items()) as u64;
    plus(1, plus(count, count)?)
}

/// The bytes of interface maps: each has an interface, and the indices behind their number.
fn map_bytes(maps: &[InterfaceMap]) -> Result<u64, NoMemory>
    ensures { IfOk result (λ n. n ≡ sum_by map_bytes maps.now) }
{
    let mut bytes = 0;
    for map in maps {
        bytes = plus(bytes, plus(3, map.index.items().len() as u64)?)?;
    }
    Ok(bytes)
}

/// The bytes of the info of a class: ten stand before its tables.
pub(crate) fn table_bytes(table: &ClassTable) -> Result<u64, NoMemory>
    ensures { IfOk result (λ n. n ≡ table_bytes table.now) }
{
    let public = table.public.items().len() as u64;
    let package = table.package.items().len() as u64;
    let tables = plus(plus(public, public)?, plus(package, package)?)?;
    plus(plus(10, tables)?, map_bytes(table.maps.items())?)
}
