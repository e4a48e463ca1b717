//! The names and descriptors of the methods that a row of tokens means, of the package or imported. Called by
//! `maps`, which finds an interface's methods in a class by them.

ghost use Rattle.std.specs.Prelude.{◌≡◌, false, map, option_map, slice_get, IfOk, Some};
ghost use Rattle.cjc_world.specs.Classes.{all_classes, class_at};
ghost use Rattle.cjc_world.specs.Working.Known.{class_of};
ghost use Rattle.cjc_tokens.specs.Members.{signature_of};
ghost use Rattle.cjc_tokens.specs.Working.{signature_in, signs};
ghost use Rattle.cjc_vtable.specs.Naming.{method_named, named, named_where};
ghost use Rattle.cjc_vtable.specs.Working.Naming.{ids_at, signature_by};
ghost use Rattle.cjc_order.specs.Classes.Numbers.{class_count};

use cjc_tokens::Slot;
use cjc_world::bytes::{MemberId, NoMemory};
use cjc_world::{Found, Known, World};
use std::alloc::Global;

/// The class of the package of a number, where the list names so many class files.
#[tactic(auto, using(crate::proofs::Numbers::own_unlisted))]
fn own_class<'w, 'a>(world: &'w World<'a>, count: usize, number: u32) -> Option<Known<'w, 'a>>
    requires { count ≡ class_count world.now.lines }
    ensures { option_map class_of result ≡ class_at (all_classes world.now) false number }
{
    if (number as usize) < count {
        let class = world.classes().items().get(number as usize)?;
        Some(Known::Declared(number, class))
    } else {
        None
    }
}

/// The class that has a method.
fn class_with<'w, 'a>(world: &'w World<'a>, count: usize, found: Found) -> Option<Known<'w, 'a>>
    requires { count ≡ class_count world.now.lines }
    ensures { option_map class_of result ≡ class_at (all_classes world.now) found.imported found.class }
{
    if found.imported {
        world.class_at(true, found.class)
    } else {
        own_class(world, count, found.class)
    }
}

/// A class's own method.
fn own_at<'w>(class: Known<'w, '_>, place: usize) -> Option<Slot<'w>>
    ensures { option_map signature_in result ≡ option_map signature_of (slice_get (class_of class.entry).methods
        place) }
{
    if place < class.member_count(false) {
        let (name, desc) = class.member_at(false, place);
        Some(Slot {
            name,
            desc,
            method: None,
        })
    } else {
        None
    }
}

/// The methods that are added to the class of a method.
#[tactic(auto, using(crate::proofs::SlotNames::ids_past))]
fn ids_at<'w>(world: &'w World<'_>, found: Found) -> &'w [MemberId]
    ensures { result.now ≡ ids_at world.now found }
{
    if found.imported {
        return &[];
    }
    if (found.class as usize) < world.classes().items().len() {
        world.added(found.class).items()
    } else {
        &[]
    }
}

fn id_at<'w>(ids: &'w [MemberId], place: usize) -> Option<Slot<'w>>
    ensures { option_map signature_in result ≡ option_map signature_by (slice_get ids.now place) }
{
    let id = ids.get(place)?;
    Some(Slot {
        name: id.name.items(),
        desc: id.desc.items(),
        method: None,
    })
}

/// The method at a place of a class.
fn method_at<'w>(
    world: &'w World<'_>,
    found: Found,
    class: Known<'w, '_>,
    place: usize,
) -> Option<Slot<'w>>
    requires { class_at (all_classes world.now) found.imported found.class ≡ Some (class_of class) }
    ensures { option_map signature_in result ≡ method_named (all_classes world.now) (class_of class.entry) place }
{
    let count = class.member_count(false);
    if place < count {
        own_at(class, place)
    } else {
        id_at(ids_at(world, found), place - count)
    }
}

/// The name and the descriptor of a method.
fn named<'w>(world: &'w World<'_>, count: usize, found: Found) -> Option<Slot<'w>>
    requires { count ≡ class_count world.now.lines }
    ensures { option_map signature_in result ≡ named (all_classes world.now) found }
{
    let class = class_with(world, count, found)?;
    let fields = class.field_count();
    let member = found.member as usize;
    if member < fields {
        None
    } else {
        method_at(world, found, class, member - fields)
    }
}

fn named_where<'w>(world: &'w World<'_>, count: usize, method: &Option<Found>) -> Option<Slot<'w>>
    requires { count ≡ class_count world.now.lines }
    ensures { option_map signature_in result ≡ named_where (all_classes world.now) method.now }
{
    match method {
        None => None,
        Some(found) => named(world, count, *found),
    }
}

/// The names and the descriptors of methods by their tokens, where the list names so many class files.
pub(crate) fn named_row<'w>(
    alloc: Global,
    world: &'w World<'_>,
    count: usize,
    methods: &[Option<Found>],
) -> Result<Vec<Option<Slot<'w>>>, NoMemory>
    requires { count ≡ class_count world.now.lines }
    ensures { IfOk result (λ row. signs row.items ≡ map (named_where (all_classes world.now)) methods.now) }
{
    let mut row = Vec::new(alloc);
    for method in methods {
        row.push(named_where(world, count, method))?;
    }
    Ok(row)
}
