//! Slots handed down: the rows of a class are those of its superclass with its own methods in them or behind
//! them. Superclasses have theirs first.

ghost use Rattle.std.specs.Prelude.{◌≡◌, ◌+◌, ◌<◌, ◌^◌, [], ◌∷◌, List, Option, map, length, slice_get, get_or, All};
ghost use Rattle.std.specs.Prelude.{IfOk, IfSome, OnOk, Some, true};
ghost use Rattle.cjc_world.specs.Classes.{Class, Member, all_classes, declared};
ghost use Rattle.cjc_world.specs.Supertypes.{supertypes, upwards};
ghost use Rattle.cjc_world.specs.Working.Known.{class_of};
ghost use Rattle.cjc_world.specs.Added.{added, named_by};
ghost use Rattle.cjc_tokens.specs.Lines.{Declared, Imported, Line, line_at, line_in};
ghost use Rattle.cjc_world.specs.ClassFile.declared.tree.ClassTree.{ClassTree as Tree};
ghost use Rattle.cjc_tokens.specs.declared.slot.Rows.{Rows as KeptRows};
ghost use Rattle.cjc_tokens.specs.Working.{AreRowsOf, IsKept, IsToldOf, SameRows};

use crate::growing::GrowingRow;
use crate::listed::{rows_of, with_supers};
use crate::slot::{Rows, offer_added, offer_methods, own_places, renewed};
use crate::taking::take_slots;
use crate::told::{Told, told_at};
use cjc_bytes::{MemberId, NoMemory, is_interface};
use cjc_world::classfile::ClassTree;
use cjc_world::{Known, World, lookup_laws};
use std::alloc::Global;

/// The rows of a class of the package, from those of its superclass and the tokens that export files list above it.
pub(crate) fn below<'w>(
    alloc: Global,
    above: &Rows<'w>,
    told: &Told<'_>,
    class: &'w ClassTree<'_>,
    number: u32,
    added: &'w [MemberId],
) -> Result<Rows<'w>, NoMemory>
    requires { length class.now.fields + length class.now.methods + length added.now < 2 ^ 32 }
    ensures { (line : Line) (given : List Member) → AreRowsOf line above.now → IsToldOf line told.now
        → added.now ≡ map (named_by class.now.name) given
        → IfOk result (AreRowsOf (Declared (declared number class.now) given line)) }
{
    let own = own_places(alloc, class.methods.items(), false)?;
    let mut shown = renewed(alloc, class, &own, number, added, false, &above.shown)?;
    take_slots(&mut shown, &above.shown, told, class, &own, number);
    let mut shown_row = GrowingRow::new(alloc, shown)?;
    offer_methods(&mut shown_row, class, &own, number, false)?;
    offer_added(&mut shown_row, class, number, added)?;
    let own_hidden = own_places(alloc, class.methods.items(), true)?;
    let hidden = renewed(
        alloc,
        class,
        &own_hidden,
        number,
        added,
        true,
        &above.hidden,
    )?;
    let mut hidden_row = GrowingRow::new(alloc, hidden)?;
    offer_methods(&mut hidden_row, class, &own_hidden, number, true)?;
    Ok(Rows {
        shown: shown_row.into_row(),
        hidden: hidden_row.into_row(),
    })
}

/// The methods that are added to a class of the package.
pub(crate) fn added_to<'w>(world: &'w World<'_>, class: u32) -> &'w [MemberId]
    requires { class < length world.now.classes }
    ensures { (d : Tree) → result.now ≡ map (named_by (get_or world.now.classes class d).name)
        (added (all_classes world.now) (declared class (get_or world.now.classes class d))) }
{
    world.added(class).items()
}

/// The rows of the superclass of a class of the package, where those of package classes are among these.
fn rows_above<'w>(
    alloc: Global,
    world: &'w World<'_>,
    kept: &[Option<Rows<'w>>],
    class: &ClassTree<'_>,
) -> Result<Rows<'w>, NoMemory>
    requires kept { IsKept (all_classes world.now) world.now.classes kept.now }
    ensures { IfOk result (AreRowsOf (line_in (all_classes world.now) (supertypes (all_classes world.now)
        (class.now.superclass ∷ [])))) }
{
    lookup_laws();
    world.acyclic();
    match world.class_named(class.superclass.items()) {
        None => Ok(Rows {
            shown: Vec::new(alloc),
            hidden: Vec::new(alloc),
        }),
        Some(Known::Declared(number, _)) => kept_rows(alloc, kept, number),
        Some(Known::Imported(number, imported)) => {
            let classes = with_supers(alloc, world, Known::Imported(number, imported))?;
            rows_of(alloc, &classes)
        }
    }
}

/// The rows of a class, where they are among these. A class that has none yet stands above itself.
fn kept_rows<'w>(
    alloc: Global,
    kept: &[Option<Rows<'w>>],
    number: u32,
) -> Result<Rows<'w>, NoMemory>
    ensures { IfOk result (λ rows. (r : KeptRows) × (slice_get kept.now number ≡ Some (Some r)) × SameRows r rows) }
{
    match kept.get(number as usize) {
        Some(Some(rows)) => Ok(Rows {
            shown: Vec::from_slice(alloc, &rows.shown)?,
            hidden: Vec::from_slice(alloc, &rows.hidden)?,
        }),
        _ => Err(NoMemory),
    }
}

fn are_few(class: &ClassTree<'_>, added: &[MemberId]) -> bool
    ensures { result ≡ true → length class.now.fields + length class.now.methods + length added.now < 2 ^ 32 }
{
    class.fields.items().len() < 0x4000_0000
        && class.methods.items().len() < 0x4000_0000
        && added.len() < 0x4000_0000
}

/// The rows of a class of the package, where its superclass has its own.
fn class_rows<'w>(
    alloc: Global,
    world: &'w World<'_>,
    kept: &[Option<Rows<'w>>],
    number: u32,
) -> Result<Rows<'w>, NoMemory>
    requires kept { IsKept (all_classes world.now) world.now.classes kept.now }
    requires number { number < length world.now.classes }
    ensures { (c : Tree) → slice_get world.now.classes number ≡ Some c
        → IfOk result (AreRowsOf (line_at (all_classes world.now) (declared number c))) }
{
    let class = &world.classes().items()[number as usize];
    let added = added_to(world, number);
    if !are_few(class, added) {
        return Err(NoMemory);
    }
    let above = rows_above(alloc, world, kept, class)?;
    let told = told_at(alloc, world, Known::Declared(number, class))?;
    below(alloc, &above, &told, class, number, added)
}

/// The superclass of a class of the package, where it is of the package and has no rows yet.
fn waiting_above(world: &World<'_>, kept: &[Option<Rows<'_>>], number: u32) -> Option<u32>
    requires { number < length world.now.classes }
    ensures { IfSome result (λ n. n < length kept.now) }
{
    let class = &world.classes().items()[number as usize];
    match world.class_named(class.superclass.items()) {
        Some(Known::Declared(above, _)) => match kept.get(above as usize) {
            Some(None) => Some(above),
            _ => None,
        },
        _ => None,
    }
}

/// A class of the package and its superclasses, up to the first that needs no rows.
fn waiting(
    alloc: Global,
    world: &World<'_>,
    kept: &[Option<Rows<'_>>],
    number: u32,
) -> Result<Vec<u32>, NoMemory>
    requires number { number < length world.now.classes }
    requires kept { length kept.now ≡ length world.now.classes }
    ensures { IfOk result (λ numbers. All (λ n. n < length world.now.classes) numbers.items) }
{
    let mut numbers = vec![in alloc; number]?;
    let mut last = number;
    for _ in 0..kept.len() {
        match waiting_above(world, kept, last) {
            Some(above) => {
                numbers.push(above)?;
                last = above;
            }
            None => return Ok(numbers),
        }
    }
    Ok(numbers)
}

/// Gives a class that is no interface and its superclasses their rows.
pub(crate) fn keep<'w>(
    alloc: Global,
    world: &'w World<'_>,
    kept: &mut Vec<Option<Rows<'w>>>,
    number: u32,
) -> Result<(), NoMemory>
    requires number { number < length world.now.classes }
    requires length { length kept.old.items ≡ length world.now.classes }
    requires kept { IsKept (all_classes world.now) world.now.classes kept.old.items }
    ensures length { length kept.new.items ≡ length kept.old.items }
    ensures kept { OnOk result (IsKept (all_classes world.now) world.now.classes kept.new.items) }
{
    if is_interface(world.classes().items()[number as usize].flags) {
        return Ok(());
    }
    let mut numbers = waiting(alloc, world, kept, number)?;
    while let Some(number) = numbers.pop() {
        let rows = class_rows(alloc, world, kept, number)?;
        kept[number as usize] = Some(rows);
    }
    Ok(())
}
