//! The slots and rows of an imported class, from what its export file and those of its supers list.

ghost use Rattle.std.specs.Prelude.{◌≡◌, ◌+◌, ◌<◌, ◌&&◌, ◌++◌, [], ◌∷◌, List, Option, map, length, position};
ghost use Rattle.std.specs.Prelude.{get_or, option_map, IfOk, OnOk};
ghost use Rattle.std.specs.Str.{bytes_eq};
ghost use Rattle.cjc_world.specs.declared.class.Known.{Known as AnyClass};
ghost use Rattle.cjc_world.specs.Classes.{Member, all_classes, method_of_class, method_of_export};
ghost use Rattle.cjc_world.specs.Supertypes.{supertypes, once, upwards};
ghost use Rattle.cjc_world.specs.Working.Known.{class_of};
ghost use Rattle.cjc_world.specs.Lookup.{first, is_called};
ghost use Rattle.cjc_world.specs.Working.Places.{at_places};
ghost use Rattle.cjc_tokens.specs.Lines.{Imported};
ghost use Rattle.cjc_tokens.specs.Members.{all_methods, is_virtual, is_virtual_by};
ghost use Rattle.cjc_tokens.specs.Slots.{listed_slots, meant_by, own};
ghost use Rattle.cjc_tokens.specs.Working.{alone, AreRowsOf, methods_in, one, overlay, signature_in, signs};

use crate::slot::{Rows, Slot, is_exposed, is_virtual};
use cjc_bytes::NoMemory;
use cjc_world::classfile::MethodTree;
use cjc_world::export_file::ExportMethod;
use cjc_world::{Found, Known, World};
use std::alloc::Global;

/// Puts the classes at some places at the end.
fn put_places<'w, 'a>(
    world: &'w World<'a>,
    places: &[u32],
    classes: &mut Vec<Known<'w, 'a>>,
) -> Result<(), NoMemory>
    ensures { OnOk result (map class_of classes.new.items ≡ map class_of classes.old.items
        ++ at_places (all_classes world.now) places.now) }
{
    for place in places {
        if let Some(class) = world.class_in(*place) {
            classes.push(class)?;
        }
    }
    Ok(())
}

/// A class and its supers going upwards, each once.
pub(crate) fn with_supers<'w, 'a>(
    alloc: Global,
    world: &'w World<'a>,
    class: Known<'w, 'a>,
) -> Result<Vec<Known<'w, 'a>>, NoMemory>
    ensures { IfOk result (λ classes. map class_of classes.items ≡ class_of class.entry
        ∷ once [] (upwards (supertypes (all_classes world.now) (class_of class.entry).supers))) }
{
    let places = world.superclasses(alloc, class)?;
    let mut classes = Vec::new(alloc);
    classes.push(class)?;
    put_places(world, places.items(), &mut classes)?;
    Ok(classes)
}

/// Fills the slot of a token where nothing nearer has it.
fn put_at<'w>(
    row: &mut Vec<Option<Slot<'w>>>,
    token: u8,
    slot: Option<Slot<'w>>,
) -> Result<(), NoMemory>
    ensures { OnOk result (signs row.new.items ≡ overlay (signs row.old.items)
        (alone token (option_map signature_in slot.entry))) }
{
    while row.len() <= token as usize {
        row.push(None)?;
    }
    if row[token as usize].is_none() {
        row[token as usize] = slot;
    }
    Ok(())
}

fn class_place(methods: &[MethodTree<'_>], name: &[u8], desc: &[u8]) -> Option<usize>
    ensures { result ≡ position (λ m. is_virtual_by m.flags m.name && (bytes_eq m.name name.now
        && bytes_eq m.desc desc.now)) methods.now }
{
    methods.iter().position(|m| {
        is_virtual(m.flags, m.name.items()) && (m.name.items() == name && m.desc.items() == desc)
    })
}

fn export_place(methods: &[ExportMethod], name: &[u8], desc: &[u8]) -> Option<usize>
    ensures { result ≡ position (λ m. is_virtual_by m.flags m.name && (bytes_eq m.name name.now
        && bytes_eq m.desc desc.now)) methods.now }
{
    methods.iter().position(|m| {
        is_virtual(m.flags, m.name.items()) && (m.name.items() == name && m.desc.items() == desc)
    })
}

/// The place of a virtual method of a class.
#[tactic(auto, using(cjc_world::proofs::Places::position_of_map))]
fn virtual_place(class: Known<'_, '_>, name: &[u8], desc: &[u8]) -> Option<usize>
    ensures { result ≡ position (λ m. is_virtual m && is_called name.now desc.now m) (class_of class.entry).methods }
{
    match class {
        Known::Declared(_, class) => class_place(class.methods.items(), name, desc),
        Known::Imported(_, class) => export_place(class.methods.items(), name, desc),
    }
}

/// The number, where 32 bits hold it. No class that a look-up answers has more members.
fn counted(count: usize, more: usize) -> Result<u32, NoMemory>
    ensures { IfOk result (λ n. n ≡ count + more) }
{
    if count < 0x8000_0000 && more < 0x8000_0000 {
        Ok((count + more) as u32)
    } else {
        Err(NoMemory)
    }
}

/// A class's own virtual method.
#[tactic(auto, unfolding(crate::specs::Slots::own))]
fn own_virtual(class: Known<'_, '_>, name: &[u8], desc: &[u8]) -> Result<Option<Found>, NoMemory>
    ensures { IfOk result (λ o. o ≡ own is_virtual (record { name = name.now; desc = desc.now })
        (class_of class.entry)) }
{
    match virtual_place(class, name, desc) {
        None => Ok(None),
        Some(place) => {
            let member = counted(class.field_count(), place)?;
            Ok(Some(Found {
                imported: class.is_imported(),
                class: class.number(),
                member,
            }))
        }
    }
}

/// The nearest virtual method.
pub(crate) fn nearest_virtual(
    classes: &[Known<'_, '_>],
    name: &[u8],
    desc: &[u8],
) -> Result<Option<Found>, NoMemory>
    ensures { IfOk result (λ o. o ≡ first (own is_virtual (record { name = name.now; desc = desc.now }))
        (map class_of classes.now)) }
{
    for class in classes {
        if let Some(found) = own_virtual(*class, name, desc)? {
            return Ok(Some(found));
        }
    }
    Ok(None)
}

/// The token that an export file gives a method.
fn token_at(class: Known<'_, '_>, place: usize) -> u8
    requires { place < length (class_of class).methods }
    ensures { (d : Member) → result ≡ (get_or (class_of class.entry).methods place d).token }
{
    match class {
        Known::Declared(..) => 0,
        Known::Imported(_, class) => class.methods.items()[place].token,
    }
}

/// Fills the slot of the method at a place of a class, where nothing nearer has it.
fn put_one<'w>(
    row: &mut Vec<Option<Slot<'w>>>,
    class: Known<'w, '_>,
    place: usize,
) -> Result<(), NoMemory>
    requires { place < length (class_of class).methods }
    ensures { (m : Member) → m ≡ get_or (class_of class.entry).methods place m
        → OnOk result (signs row.new.items ≡ overlay (signs row.old.items) (one m)) }
{
    let flags = class.member_flags(false, place);
    let (name, desc) = class.member_at(false, place);
    if !is_virtual(flags, name) {
        return Ok(());
    }
    let token = token_at(class, place);
    if is_exposed(flags) {
        put_at(
            row,
            token,
            Some(Slot {
                name,
                desc,
                method: None,
            }),
        )
    } else {
        put_at(row, token, None)
    }
}

/// Fills the slots of the methods that a class lists, where nothing nearer has them.
fn put_listed<'w>(row: &mut Vec<Option<Slot<'w>>>, class: Known<'w, '_>) -> Result<(), NoMemory>
    ensures { OnOk result (signs row.new.items ≡ overlay (signs row.old.items)
        (listed_slots (class_of class.entry).methods)) }
{
    for place in 0..class.member_count(false) {
        put_one(row, class, place)?;
    }
    Ok(())
}

/// The slots of some classes, the nearest first.
pub(crate) fn listed<'w>(
    alloc: Global,
    classes: &[Known<'w, '_>],
) -> Result<Vec<Option<Slot<'w>>>, NoMemory>
    ensures { IfOk result (λ row. signs row.items ≡ listed_slots (all_methods (map class_of classes.now))) }
{
    let mut row = Vec::new(alloc);
    for class in classes {
        put_listed(&mut row, *class)?;
    }
    Ok(row)
}

/// Slots, each with the nearest virtual method.
fn with_methods<'w>(
    alloc: Global,
    slots: &[Option<Slot<'w>>],
    classes: &[Known<'_, '_>],
) -> Result<Vec<Option<Slot<'w>>>, NoMemory>
    ensures slots { IfOk result (λ row. signs row.items ≡ signs slots.now) }
    ensures methods { IfOk result (λ row. methods_in row.items
        ≡ map (meant_by (λ s. first (own is_virtual s) (map class_of classes.now))) (signs slots.now)) }
{
    let mut row = Vec::new(alloc);
    for slot in slots {
        match slot {
            None => row.push(None)?,
            Some(slot) => {
                let method = nearest_virtual(classes, slot.name, slot.desc)?;
                row.push(Some(Slot {
                    name: slot.name,
                    desc: slot.desc,
                    method,
                }))?;
            }
        }
    }
    Ok(row)
}

/// The rows of the first of some imported classes.
pub(crate) fn rows_of<'w>(alloc: Global, classes: &[Known<'w, '_>]) -> Result<Rows<'w>, NoMemory>
    ensures { IfOk result (AreRowsOf (Imported (map class_of classes.now))) }
{
    let slots = listed(alloc, classes)?;
    let shown = with_methods(alloc, &slots, classes)?;
    Ok(Rows {
        shown,
        hidden: Vec::new(alloc),
    })
}
