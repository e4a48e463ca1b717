//! The component Class of a package, put together from the infos that `entries` makes: interfaces first, then
//! classes, each behind its superclass.

ghost use Rattle.std.specs.Prelude.{◌≡◌, ◌++◌, map, option_to_list, IfOk, OnOk};
ghost use Rattle.cjc_world.specs.Classes.{all_classes};
ghost use Rattle.cjc_components.specs.LowerClassOrder.Classes.Numbers.{declared_at};
ghost use Rattle.cjc_components.specs.LowerVTable.Tables.{class_tables};
ghost use Rattle.cjc_components.specs.Package.{Package};
ghost use Rattle.cjc_components.specs.Class.{class_info, interface_entry};
ghost use Rattle.cjc_components.specs.Names.{class_ref};
ghost use Rattle.cjc_classes.specs.ClassInfo.Refs.{AreRefs, ref_of};
ghost use Rattle.cjc_classes.specs.ClassInfo.Entries.{AreOffsets, entries_by, entries_of_table, interface_entries};
ghost use Rattle.cjc_classes.specs.ClassInfo.Entries.{offset_in};

use crate::class_info::entries::{class_entry, interface_entry};
use crate::class_info::refs::ClassRefs;
use cjc_bytes::{NoMemory, Row};
use cjc_components::capread::{ClassEntry, ClassInfo, InterfaceEntry};
use cjc_components::class_order::classes::{class_order, order_laws};
use cjc_components::vtable::{ClassTable, ClassTables};
use cjc_world::{Known, World};
use std::alloc::Global;

/// Puts the info of the interface of a number at the end.
fn put_interface(
    alloc: Global,
    world: &World<'_>,
    refs: &ClassRefs,
    number: u32,
    entries: &mut Row<InterfaceEntry>,
) -> Result<(), NoMemory>
    ensures { OnOk result (entries.new ≡ entries.old ++ map (interface_entry (ref_of refs.now) (all_classes world.now))
        (option_to_list (declared_at world.now.classes number))) }
{
    match world.classes().items().get(number as usize) {
        None => Ok(()),
        Some(class) => {
            let entry = interface_entry(alloc, world, refs, Known::Declared(number, class))?;
            entries.push(entry)
        }
    }
}

/// The infos of the interfaces of these numbers.
fn interface_entries(
    alloc: Global,
    world: &World<'_>,
    refs: &ClassRefs,
    order: &[u32],
) -> Result<Row<InterfaceEntry>, NoMemory>
    ensures { IfOk result (λ row. row ≡ interface_entries (ref_of refs.now) world.now order.now) }
{
    let mut entries = Row::new(alloc);
    for number in order {
        put_interface(alloc, world, refs, *number, &mut entries)?;
    }
    Ok(entries)
}

/// Puts the info of the class of a table at the end.
fn put_class(
    alloc: Global,
    world: &World<'_>,
    refs: &ClassRefs,
    offsets: &[Row<u64>],
    table: &ClassTable,
    entries: &mut Row<ClassEntry>,
) -> Result<(), NoMemory>
    ensures { OnOk result (entries.new ≡ entries.old ++ entries_of_table (ref_of refs.now) (offset_in offsets.now)
        world.now table.now) }
{
    match world.classes().items().get(table.class as usize) {
        None => Ok(()),
        Some(class) => {
            let entry = class_entry(alloc, world, refs, offsets, table, class)?;
            entries.push(entry)
        }
    }
}

/// The infos of the classes of these tables.
fn class_entries(
    alloc: Global,
    world: &World<'_>,
    refs: &ClassRefs,
    offsets: &[Row<u64>],
    tables: &[ClassTable],
) -> Result<Row<ClassEntry>, NoMemory>
    ensures { IfOk result (λ row. row ≡ entries_by (ref_of refs.now) (offset_in offsets.now) world.now tables.now) }
{
    let mut entries = Row::new(alloc);
    for table in tables {
        put_class(alloc, world, refs, offsets, table, &mut entries)?;
    }
    Ok(entries)
}

/// Class of a package: interfaces before classes, and a super before its subs. Offsets of methods stand by the
/// number of the class and by the place of the method there.
pub fn class_info(
    alloc: Global,
    world: &World<'_>,
    tables: &ClassTables,
    refs: &ClassRefs,
    offsets: &[Row<u64>],
) -> Result<ClassInfo, NoMemory>
    requires { tables.now.rows ≡ class_tables (all_classes world.now) }
    ensures { (p : Package) → p.files ≡ world.now → AreRefs p refs.now → AreOffsets p offsets.now
        → IfOk result (λ t. t ≡ class_info (class_ref p) p) }
{
    order_laws();
    let order = class_order(alloc, world, true)?;
    let interfaces = interface_entries(alloc, world, refs, order.items())?;
    let classes = class_entries(alloc, world, refs, offsets, tables.rows.items())?;
    Ok(ClassInfo {
        interfaces,
        classes,
    })
}
