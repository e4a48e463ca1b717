//! The class_ref of each class of the package and of its export files: the offset of its info, which is counted
//! here, or tokens. Called by whoever writes a class_ref by the name of a class.

ghost use Rattle.std.specs.Prelude.{◌≡◌, map, IfOk};
ghost use Rattle.cjc_world.specs.Classes.{all_classes};
ghost use Rattle.cjc_components.specs.LowerVTable.Tables.{class_tables};
ghost use Rattle.cjc_components.specs.Package.{Package};
ghost use Rattle.cjc_classes.specs.ClassInfo.Refs.{AreRefs, ref_of};

use crate::class_info::outside::note_files;
use crate::class_info::refs::ClassRefs;
use crate::class_info::starts::{note_classes, note_interfaces};
use cjc_bytes::{NoMemory, Row};
use cjc_components::capread::ClassRef;
use cjc_components::class_order::classes::{class_order, order_laws};
use cjc_components::vtable::ClassTables;
use cjc_world::World;
use std::alloc::Global;

/// The class_ref of each name of a class: one of the package by the offset of its info, else that of the first export
/// file that has it, by the number of the file and its token there.
pub fn class_refs(
    alloc: Global,
    world: &World<'_>,
    tables: &ClassTables,
) -> Result<ClassRefs, NoMemory>
    requires { tables.now.rows ≡ class_tables (all_classes world.now) }
    ensures { (p : Package) → p.files ≡ world.now → IfOk result (AreRefs p) }
{
    order_laws();
    let order = class_order(alloc, world, true)?;
    let mut refs = ClassRefs::new(alloc);
    let first = note_interfaces(alloc, world, &mut refs, order.items(), 2)?;
    note_classes(
        alloc,
        world.classes().items(),
        &mut refs,
        tables.rows.items(),
        first,
    )?;
    note_files(alloc, &mut refs, world.exports().items())?;
    Ok(refs)
}

/// The class_refs of all classes, in the order of the list's lines.
pub fn refs_of_classes(
    alloc: Global,
    world: &World<'_>,
    refs: &ClassRefs,
) -> Result<Row<ClassRef>, NoMemory>
    ensures { IfOk result (λ row. row ≡ map (λ c. ref_of refs.now c.name) (all_classes world.now)) }
{
    let mut row = Row::new(alloc);
    for place in 0..0xFFFF_FFFF {
        match world.class_in(place) {
            None => return Ok(row),
            Some(class) => row.push(refs.named(class.name()))?,
        }
    }
    Err(NoMemory)
}
