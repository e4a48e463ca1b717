//! Where the infos of Class stand: interfaces before classes, one behind the other. Called by `infos`.

ghost use Rattle.std.specs.Prelude.{◌≡◌, ◌+◌, ℕ, List, cond, None, Some, option_map, IfOk, OnOk};
ghost use Rattle.cjc_components.specs.LowerCapRead.declared.tree.ClassRef.TheVariants.{Inside};
ghost use Rattle.cjc_components.specs.LowerCardSemantics.Machine.Classes.{or_else};
ghost use Rattle.cjc_world.specs.Classes.{all_classes};
ghost use Rattle.cjc_classes.specs.ClassInfo.Refs.{ref_in};
ghost use Rattle.cjc_classes.specs.ClassInfo.Infos.{bytes_at, end_of, number_named, spot_in, table_bytes, table_named};

use crate::class_info::refs::ClassRefs;
use crate::class_info::sizes::{interface_bytes, plus, table_bytes};
use cjc_bytes::NoMemory;
use cjc_components::capread::ClassRef;
use cjc_components::vtable::ClassTable;
use cjc_world::classfile::ClassTree;
use cjc_world::{Known, World};
use std::alloc::Global;

/// Notes the class of a number, which begins at an offset.
pub fn note_class(
    alloc: Global,
    classes: &[ClassTree<'_>],
    refs: &mut ClassRefs,
    number: u32,
    at: u64,
) -> Result<(), NoMemory>
    ensures { OnOk result ((x : List ℕ) → ref_in refs.new x ≡ or_else (ref_in refs.old x)
        (cond (number_named classes.now number x) (Some (Inside at)) None)) }
{
    match classes.get(number as usize) {
        None => Ok(()),
        Some(class) => refs.note(alloc, class.name.items(), ClassRef::Inside(at)),
    }
}

/// The bytes of the info of the interface of a number.
fn bytes_at(alloc: Global, world: &World<'_>, number: u32) -> Result<u64, NoMemory>
    ensures { IfOk result (λ n. n ≡ bytes_at (all_classes world.now) world.now.classes number) }
{
    match world.classes().items().get(number as usize) {
        None => Ok(0),
        Some(class) => interface_bytes(alloc, world, Known::Declared(number, class)),
    }
}

/// Notes the interfaces of these numbers, the first of which begins at an offset, and gives where the last ends.
pub(crate) fn note_interfaces(
    alloc: Global,
    world: &World<'_>,
    refs: &mut ClassRefs,
    order: &[u32],
    first: u64,
) -> Result<u64, NoMemory>
    ensures end { IfOk result (λ end. end ≡ end_of (bytes_at (all_classes world.now) world.now.classes) first
        order.now) }
    ensures noted { OnOk result ((x : List ℕ) → ref_in refs.new x ≡ or_else (ref_in refs.old x)
        (option_map Inside (spot_in (number_named world.now.classes) (bytes_at (all_classes world.now)
        world.now.classes) first order.now x))) }
{
    let mut at = first;
    for number in order {
        note_class(alloc, world.classes().items(), refs, *number, at)?;
        at = plus(at, bytes_at(alloc, world, *number)?)?;
    }
    Ok(at)
}

/// Notes the classes of these tables, the first of which begins at an offset.
pub(crate) fn note_classes(
    alloc: Global,
    classes: &[ClassTree<'_>],
    refs: &mut ClassRefs,
    tables: &[ClassTable],
    first: u64,
) -> Result<(), NoMemory>
    ensures { OnOk result ((x : List ℕ) → ref_in refs.new x ≡ or_else (ref_in refs.old x)
        (option_map Inside (spot_in (table_named classes.now) table_bytes first tables.now x))) }
{
    let mut at = first;
    for table in tables {
        note_class(alloc, classes, refs, table.class, at)?;
        at = plus(at, table_bytes(table)?)?;
    }
    Ok(())
}
