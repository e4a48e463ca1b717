//! The slots of an imported class, by what its export file and those of its supers list. Called by `shown` and `keys`.

ghost use Rattle.std.specs.Prelude.{◌≡◌, ◌<◌, ◌++◌, [], ◌∷◌, true, Option, map, length, get_or, option_map, IfOk, OnOk};
ghost use Rattle.cjc_world.specs.Classes.{Member, all_classes};
ghost use Rattle.cjc_world.specs.Kin.{kin, once, upwards};
ghost use Rattle.cjc_world.specs.Working.Known.{class_of};
ghost use Rattle.cjc_world.specs.Working.Places.{at_places};
ghost use Rattle.cjc_tokens.specs.Lines.{line_at};
ghost use Rattle.cjc_tokens.specs.Members.{all_methods};
ghost use Rattle.cjc_tokens.specs.Slots.{listed_slots, slots, token};
ghost use Rattle.cjc_tokens.specs.Working.{alone, one, overlay, signature_in, signs};
ghost use Rattle.cjc_key_tokens.specs.Walks.{called};

use crate::places::{is_exposed, is_virtual};
use cjc_bytes::NoMemory;
use cjc_tokens::{Slot, token};
use cjc_world::{Known, World, lookup_laws};
use std::alloc::Global;

/// Puts the classes at some places at the end.
fn put_places<'w, 'a>(
    world: &'w World<'a>,
    places: &[u32],
    classes: &mut Vec<Known<'w, 'a>>,
) -> Result<(), NoMemory>
    ensures { OnOk result (map class_of classes.new.items ≡ map class_of classes.old.items ++ at_places (all_classes world.now) places.now) }
{
    for place in places {
        if let Some(class) = world.class_in(*place) {
            classes.push(class)?;
        }
    }
    Ok(())
}

/// A class and its supers going upwards, each once.
fn with_supers<'w, 'a>(
    alloc: Global,
    world: &'w World<'a>,
    class: Known<'w, 'a>,
) -> Result<Vec<Known<'w, 'a>>, NoMemory>
    ensures { IfOk result (λ classes. map class_of classes.items ≡ class_of class.entry ∷ once [] (upwards (kin (all_classes world.now) (class_of class.entry).supers))) }
{
    let places = world.superclasses(alloc, class)?;
    let mut classes = Vec::new(alloc);
    classes.push(class)?;
    put_places(world, places.items(), &mut classes)?;
    Ok(classes)
}

/// Fills the slot of a token where nothing nearer has it.
fn put_at<'w>(
    row: &mut Vec<Option<Slot<'w>>>,
    token: u8,
    slot: Option<Slot<'w>>,
) -> Result<(), NoMemory>
    ensures { OnOk result (signs row.new.items ≡ overlay (signs row.old.items) (alone token (option_map signature_in slot.entry))) }
{
    while row.len() <= token as usize {
        row.push(None)?;
    }
    if row[token as usize].is_none() {
        row[token as usize] = slot;
    }
    Ok(())
}

/// The token that an export file gives a method.
fn token_at(class: Known<'_, '_>, place: usize) -> u8
    requires { place < length (class_of class).methods }
    ensures { (d : Member) → result ≡ (get_or (class_of class.entry).methods place d).token }
{
    match class {
        Known::Declared(..) => 0,
        Known::Imported(_, class) => class.methods.items()[place].token,
    }
}

/// Fills the slot of the method at a place of a class, where nothing nearer has it.
fn put_one<'w>(
    row: &mut Vec<Option<Slot<'w>>>,
    class: Known<'w, '_>,
    place: usize,
) -> Result<(), NoMemory>
    requires { place < length (class_of class).methods }
    ensures { (m : Member) → m ≡ get_or (class_of class.entry).methods place m → OnOk result (signs row.new.items ≡ overlay (signs row.old.items) (one m)) }
{
    let flags = class.member_flags(false, place);
    let (name, desc) = class.member_at(false, place);
    if !is_virtual(flags, name) {
        return Ok(());
    }
    let token = token_at(class, place);
    if is_exposed(flags) {
        put_at(
            row,
            token,
            Some(Slot {
                name,
                desc,
                method: None,
            }),
        )
    } else {
        put_at(row, token, None)
    }
}

/// Fills the slots of the methods that a class lists, where nothing nearer has them.
fn put_listed<'w>(row: &mut Vec<Option<Slot<'w>>>, class: Known<'w, '_>) -> Result<(), NoMemory>
    ensures { OnOk result (signs row.new.items ≡ overlay (signs row.old.items) (listed_slots (class_of class.entry).methods)) }
{
    for place in 0..class.member_count(false) {
        put_one(row, class, place)?;
    }
    Ok(())
}

/// The slots of some classes, the nearest first.
fn listed<'w>(alloc: Global, classes: &[Known<'w, '_>]) -> Result<Vec<Option<Slot<'w>>>, NoMemory>
    ensures { IfOk result (λ row. signs row.items ≡ listed_slots (all_methods (map class_of classes.now))) }
{
    let mut row = Vec::new(alloc);
    for class in classes {
        put_listed(&mut row, *class)?;
    }
    Ok(row)
}

/// A token as it stands in a component.
fn as_byte(token: Option<usize>) -> Result<Option<u8>, NoMemory>
    ensures { IfOk result (λ t. t ≡ token) }
{
    match token {
        None => Ok(None),
        Some(token) => {
            if token > 255 {
                return Err(NoMemory);
            }
            Ok(Some(token as u8))
        }
    }
}

/// The token of the slot that an imported class has for a public or protected method.
pub(crate) fn imported_token(
    alloc: Global,
    world: &World<'_>,
    class: Known<'_, '_>,
    name: &[u8],
    desc: &[u8],
) -> Result<Option<u8>, NoMemory>
    requires { (class_of class).is_imported ≡ true }
    ensures { IfOk result (λ t. t ≡ token (slots (line_at (all_classes world.now) (class_of class.entry))) (called name.now desc.now)) }
{
    lookup_laws();
    world.acyclic();
    let classes = with_supers(alloc, world, class)?;
    let row = listed(alloc, &classes)?;
    as_byte(token(&row, name, desc))
}
