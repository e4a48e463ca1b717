//! The infos that a package wants of Class, put together by its class files, its tables, class_refs and the offsets of
//! methods (Java Card Virtual Machine Specification 2.2.2, section 6.8). It knows no component but by these.

ghost use Rattle.std.specs.Prelude.{◌≡◌, ◌++◌, ℕ, List, Bool, map, option_to_list, IfOk, OnOk};
ghost use Rattle.cjc_world.specs.declared.found.Found.{Found as Member};
ghost use Rattle.cjc_world.specs.Classes.{all_classes};
ghost use Rattle.cjc_methods.specs.Tokens.Tokens.{assigned};
ghost use Rattle.cjc_classes.specs.ClassOrder.Classes.Numbers.{declared_at};
ghost use Rattle.cjc_classes.specs.ClassInfo.Refs.{ref_of};
ghost use Rattle.cjc_classes.specs.ClassInfo.Entries.{entry_by, entry_by_offset};
ghost use Rattle.cjc_verify.specs.Pairs.{Pair, class_ref, method_offset};
ghost use Rattle.cjc_verify.specs.Offsets.{offset_among};
ghost use Rattle.cjc_verify.specs.WantedBy.{class_by, classes_by, interface_by, interfaces_by};
ghost use Rattle.cjc_verify.specs.WantedInfos.{wanted_infos};

use crate::infos::offsets::{MethodAt, offset_among};
use crate::infos::wanted::Wanted;
use cjc_bytes::{NoMemory, Row};
use cjc_capread::ClassEntry;
use cjc_classes::class_info::{
    ClassRefs, field_cells, implemented_interfaces, info_flags, interface_entry,
};
use cjc_classes::class_order::classes::{class_order, order_laws};
use cjc_classes::tokens::Tokens;
use cjc_classes::vtable::{ClassTable, tables};
use cjc_world::classfile::ClassTree;
use cjc_world::{Found, Known, World};
use std::alloc::Global;

/// An entry of a public table that is of no method of the package.
const IMPORTED: u64 = 0xFFFF;

/// Puts the info of the interface of a number at the end.
fn put_interface(
    alloc: Global,
    world: &World<'_>,
    refs: &ClassRefs,
    number: u32,
    row: &mut Row<Wanted>,
) -> Result<(), NoMemory>
    ensures { OnOk result (row.new ≡ row.old ++ map (interface_by (ref_of refs.now) (all_classes world.now))
        (option_to_list (declared_at world.now.classes number))) }
{
    match world.classes().items().get(number as usize) {
        None => Ok(()),
        Some(class) => {
            let entry = interface_entry(alloc, world, refs, Known::Declared(number, class))?;
            row.push(Wanted::Interface(entry))
        }
    }
}

/// Puts the infos of the interfaces of these numbers at the end.
fn put_interfaces(
    alloc: Global,
    world: &World<'_>,
    refs: &ClassRefs,
    order: &[u32],
    row: &mut Row<Wanted>,
) -> Result<(), NoMemory>
    ensures { OnOk result (row.new ≡ row.old ++ interfaces_by (ref_of refs.now) world.now order.now) }
{
    for number in order {
        put_interface(alloc, world, refs, *number, row)?;
    }
    Ok(())
}

fn public_entry(methods: &[MethodAt], method: Option<Found>) -> u64
    ensures { result ≡ entry_by_offset (offset_among methods.now) method }
{
    match method {
        None => IMPORTED,
        Some(found) => offset_among(methods, found),
    }
}

/// The entries of a public table.
fn public_methods(
    alloc: Global,
    methods: &[MethodAt],
    table: &[Option<Found>],
) -> Result<Row<u64>, NoMemory>
    ensures { IfOk result (λ row. row ≡ map (entry_by_offset (offset_among methods.now)) table.now) }
{
    let mut row = Row::new(alloc);
    for method in table {
        row.push(public_entry(methods, *method))?;
    }
    Ok(row)
}

/// The entries of a package table.
fn package_methods(
    alloc: Global,
    methods: &[MethodAt],
    table: &[Found],
) -> Result<Row<u64>, NoMemory>
    ensures { IfOk result (λ row. row ≡ map (offset_among methods.now) table.now) }
{
    let mut row = Row::new(alloc);
    for method in table {
        row.push(offset_among(methods, *method))?;
    }
    Ok(row)
}

/// The info of a class by its tables.
fn class_entry(
    alloc: Global,
    world: &World<'_>,
    refs: &ClassRefs,
    methods: &[MethodAt],
    table: &ClassTable,
    class: &ClassTree<'_>,
) -> Result<ClassEntry, NoMemory>
    ensures { IfOk result (λ e. e ≡ entry_by (ref_of refs.now) (offset_among methods.now) (all_classes world.now)
        table.now class.now) }
{
    let flags = info_flags(alloc, world, Known::Declared(table.class, class))?;
    let cells = field_cells(class.fields.items())?;
    let public_methods = public_methods(alloc, methods, table.public.items())?;
    let package_methods = package_methods(alloc, methods, table.package.items())?;
    let interfaces = implemented_interfaces(alloc, refs, table.maps.items())?;
    Ok(ClassEntry {
        flags,
        superclass: refs.named(class.superclass.items()),
        declared_instance_size: cells.size,
        first_reference_token: cells.first_reference,
        reference_count: cells.reference_count,
        public_base: table.public_base,
        package_base: table.package_base,
        public_methods,
        package_methods,
        interfaces,
    })
}

/// Puts the info of the class of a table at the end.
fn put_class(
    alloc: Global,
    world: &World<'_>,
    refs: &ClassRefs,
    methods: &[MethodAt],
    table: &ClassTable,
    row: &mut Row<Wanted>,
) -> Result<(), NoMemory>
    ensures { OnOk result (row.new ≡ row.old ++ class_by (ref_of refs.now) (offset_among methods.now) world.now
        table.now) }
{
    match world.classes().items().get(table.class as usize) {
        None => Ok(()),
        Some(class) => {
            let entry = class_entry(alloc, world, refs, methods, table, class)?;
            row.push(Wanted::Class(entry))
        }
    }
}

/// Puts the infos of the classes of these tables at the end.
fn put_classes(
    alloc: Global,
    world: &World<'_>,
    refs: &ClassRefs,
    methods: &[MethodAt],
    tables: &[ClassTable],
    row: &mut Row<Wanted>,
) -> Result<(), NoMemory>
    ensures { OnOk result (row.new ≡ row.old ++ classes_by (ref_of refs.now) (offset_among methods.now) world.now
        tables.now) }
{
    for table in tables {
        put_class(alloc, world, refs, methods, table, row)?;
    }
    Ok(())
}

/// The infos that a package wants, in the order of Class.
pub(crate) fn wanted_infos(
    alloc: Global,
    world: &World<'_>,
    tokens: &Tokens,
    refs: &ClassRefs,
    methods: &[MethodAt],
) -> Result<Row<Wanted>, NoMemory>
    requires tokens { (applets : Bool) × (tokens.now ≡ assigned applets world.now) }
    ensures { (p : Pair) → p.files ≡ world.now → ((name : List ℕ) → ref_of refs.now name ≡ class_ref p name)
        → ((f : Member) → offset_among methods.now f ≡ method_offset p f) → IfOk result (λ row. row ≡ wanted_infos p) }
{
    order_laws();
    let order = class_order(alloc, world, true)?;
    let tables = tables(alloc, world, tokens)?;
    let mut row = Row::new(alloc);
    put_interfaces(alloc, world, refs, order.items(), &mut row)?;
    put_classes(alloc, world, refs, methods, tables.rows.items(), &mut row)?;
    Ok(row)
}
