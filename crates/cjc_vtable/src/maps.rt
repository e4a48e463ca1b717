//! The interface maps of a class: for each token of an interface the token of the class's method (Java Card
//! Virtual Machine Specification 2.2.2, section 6.8). Called by `building`.

ghost use Rattle.std.specs.Prelude.{◌≡◌, ◌++◌, Bool, false, map, option_map, option_to_list, slice_get, IfOk, OnOk};
ghost use Rattle.std.specs.Prelude.{Some};
ghost use Rattle.cjc_world.specs.Classes.{all_classes};
ghost use Rattle.cjc_world.specs.Bytes.AccessFlags.{is_interface};
ghost use Rattle.cjc_world.specs.Interfaces.{known};
ghost use Rattle.cjc_world.specs.Working.Known.{class_of};
ghost use Rattle.cjc_world.specs.Working.Places.{at_places};
ghost use Rattle.cjc_tokens.specs.Lines.{line_at};
ghost use Rattle.cjc_tokens.specs.Methods.{interfaces_at};
ghost use Rattle.cjc_tokens.specs.Slots.{shown_token, slots, token_among};
ghost use Rattle.cjc_tokens.specs.Tokens.{assigned};
ghost use Rattle.cjc_tokens.specs.Working.{signature_in, signs, slot_token, token_under};
ghost use Rattle.cjc_vtable.specs.Working.Naming.{index_of};
ghost use Rattle.cjc_vtable.specs.Working.Standing.{IsOwn};
ghost use Rattle.cjc_vtable.specs.Tables.{interface_map};

use crate::naming::named_row;
use crate::table::InterfaceMap;
use cjc_order::classes::class_count;
use cjc_tokens::{IndexedRow, Shown, Slot, Tokens, Told, interface_methods, told_at};
use cjc_world::bytes::{Bytes, NoMemory, Row};
use cjc_world::{Found, Known, World, lookup_laws};
use std::alloc::Global;

/// A token as it stands in a component.
fn as_byte(token: usize) -> Result<u8, NoMemory>
    ensures { IfOk result (λ t. t ≡ token) }
{
    if token < 256 {
        Ok(token as u8)
    } else {
        Err(NoMemory)
    }
}

/// The token of an interface's method in a class; 0 where it has none.
fn index_of(shown: &Shown<'_, '_>, method: &Option<Slot<'_>>) -> Result<u8, NoMemory>
    ensures { IfOk result (λ t. t ≡ index_of (slot_token shown.now) (option_map signature_in method.now)) }
{
    match method {
        None => Ok(0),
        Some(method) => match shown.token(method.name, method.desc) {
            None => Ok(0),
            Some(token) => as_byte(token),
        },
    }
}

/// The tokens of an interface's methods in a class.
fn index(
    alloc: Global,
    shown: &Shown<'_, '_>,
    methods: &[Option<Slot<'_>>],
) -> Result<Row<u8>, NoMemory>
    ensures { IfOk result (λ index. index ≡ map (index_of (slot_token shown.now)) (signs methods.now)) }
{
    let mut index = Vec::new(alloc);
    for method in methods {
        index.push(index_of(shown, method)?)?;
    }
    Ok(Row::of(index))
}

/// The map of an interface.
fn interface_map<'w>(
    alloc: Global,
    world: &'w World<'_>,
    shown: &Shown<'_, '_>,
    interface: Known<'w, '_>,
) -> Result<InterfaceMap, NoMemory>
    ensures { IfOk result (λ m. m ≡ interface_map (all_classes world.now) (slot_token shown.now)
        (class_of interface.entry)) }
{
    let methods = interface_methods(alloc, world, interface)?;
    let index = index(alloc, shown, &methods)?;
    let interface = Bytes::copy_of(alloc, interface.name())?;
    Ok(InterfaceMap { interface, index })
}

/// Puts the map of the interface at a place at the end.
fn put_map(
    alloc: Global,
    world: &World<'_>,
    shown: &Shown<'_, '_>,
    place: u32,
    maps: &mut Row<InterfaceMap>,
) -> Result<(), NoMemory>
    ensures { OnOk result (maps.new ≡ maps.old ++ map (interface_map (all_classes world.now) (slot_token shown.now))
        (option_to_list (slice_get (all_classes world.now) place))) }
{
    match world.class_in(place) {
        None => Ok(()),
        Some(interface) => {
            let map = interface_map(alloc, world, shown, interface)?;
            maps.push(map)
        }
    }
}

/// The maps of the interfaces at these places.
fn maps_at(
    alloc: Global,
    world: &World<'_>,
    shown: &Shown<'_, '_>,
    places: &[u32],
) -> Result<Row<InterfaceMap>, NoMemory>
    ensures { IfOk result (λ maps. maps ≡ map (interface_map (all_classes world.now) (slot_token shown.now))
        (at_places (all_classes world.now) places.now)) }
{
    let mut maps = Row::new(alloc);
    for place in places {
        put_map(alloc, world, shown, *place, &mut maps)?;
    }
    Ok(maps)
}

/// The maps of the interfaces at these places, by a class's slots, the methods there and the tokens that are listed.
fn maps_by<'r, 'w>(
    alloc: Global,
    world: &World<'_>,
    row: &'r [Option<Slot<'w>>],
    methods: &'r [Option<Found>],
    told: &'r Told<'w>,
    places: &[u32],
) -> Result<Row<InterfaceMap>, NoMemory>
    ensures { IfOk result (λ maps. maps ≡ map (interface_map (all_classes world.now)
        (λ s. token_among (token_under told.now s) (signs row.now) methods.now s))
        (at_places (all_classes world.now) places.now)) }
{
    let indexed = IndexedRow::new(alloc, row)?;
    let shown = Shown {
        row: indexed,
        methods,
        told,
    };
    maps_at(alloc, world, &shown, places)
}

/// The slots of a class of the package that is no interface, by token.
fn slots_of<'w>(
    alloc: Global,
    world: &'w World<'_>,
    tokens: &Tokens,
    class: Known<'_, '_>,
    number: u32,
) -> Result<Vec<Option<Slot<'w>>>, NoMemory>
    requires class { IsOwn world.now number (class_of class) }
    requires plain { is_interface (class_of class).flags ≡ false }
    requires tokens { (applets : Bool) × (tokens.now ≡ assigned applets world.now) }
    ensures { IfOk result (λ row. signs row.items ≡ slots (line_at (all_classes world.now) (class_of class.entry))) }
{
    lookup_laws();
    world.acyclic();
    named_row(
        alloc,
        world,
        class_count(world),
        tokens.public_methods(number),
    )
}

/// The interface maps of a class of the package that is no interface, in the order of its interfaces.
pub(crate) fn interface_maps<'w, 'a>(
    alloc: Global,
    world: &'w World<'a>,
    tokens: &Tokens,
    class: Known<'w, 'a>,
    number: u32,
) -> Result<Row<InterfaceMap>, NoMemory>
    requires class { IsOwn world.now number (class_of class) }
    requires plain { is_interface (class_of class).flags ≡ false }
    requires tokens { (applets : Bool) × (tokens.now ≡ assigned applets world.now) }
    ensures { IfOk result (λ maps. maps
        ≡ map (interface_map (all_classes world.now) (shown_token (line_at (all_classes world.now)
        (class_of class.entry)))) (known (interfaces_at (all_classes world.now) (class_of class.entry)))) }
{
    let row = slots_of(alloc, world, tokens, class, number)?;
    let told = told_at(alloc, world, class)?;
    let places = world.interfaces(alloc, class)?;
    let methods = tokens.public_methods(number);
    maps_by(alloc, world, &row, methods, &told, places.items())
}
