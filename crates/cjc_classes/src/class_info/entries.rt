//! The info of one class or interface: its flags, superclass, tables of methods and implemented interfaces
//! (Java Card Virtual Machine Specification 2.2.2, section 6.8). Called by `tree`.

ghost use Rattle.std.specs.Prelude.{◌≡◌, ◌++◌, map, option_to_list, slice_get, IfOk, OnOk};
ghost use Rattle.cjc_world.specs.Classes.{all_classes};
ghost use Rattle.cjc_world.specs.Working.Known.{class_of};
ghost use Rattle.cjc_world.specs.Working.Places.{at_places};
ghost use Rattle.cjc_components.specs.Class.{implemented, interface_entry, interfaces_of};
ghost use Rattle.cjc_classes.specs.ClassInfo.Refs.{ref_of};
ghost use Rattle.cjc_classes.specs.ClassInfo.Entries.{entry_by, entry_offset, offset_in};

use crate::class_info::fields::field_cells;
use crate::class_info::flags::info_flags;
use crate::class_info::refs::ClassRefs;
use cjc_bytes::{Bytes, NoMemory, Row};
use cjc_components::capread::{ClassEntry, ClassRef, ImplementedInterface, InterfaceEntry};
use cjc_components::vtable::{ClassTable, InterfaceMap};
use cjc_world::classfile::ClassTree;
use cjc_world::{Found, Known, World};
use std::alloc::Global;

/// An entry of a public table that is of no method of the package.
const IMPORTED: u64 = 0xFFFF;

/// Puts the class_ref of the class at a place at the end.
fn put_ref(
    world: &World<'_>,
    refs: &ClassRefs,
    place: u32,
    row: &mut Row<ClassRef>,
) -> Result<(), NoMemory>
    ensures { OnOk result (row.new ≡ row.old
        ++ map (λ c. ref_of refs.now c.name) (option_to_list (slice_get (all_classes world.now) place))) }
{
    match world.class_in(place) {
        None => Ok(()),
        Some(class) => row.push(refs.named(class.name())),
    }
}

/// The class_refs of the classes at these places.
fn refs_at(
    alloc: Global,
    world: &World<'_>,
    refs: &ClassRefs,
    places: &[u32],
) -> Result<Row<ClassRef>, NoMemory>
    ensures { IfOk result (λ row. row ≡ map (λ c. ref_of refs.now c.name) (at_places (all_classes world.now)
        places.now)) }
{
    let mut row = Row::new(alloc);
    for place in places {
        put_ref(world, refs, *place, &mut row)?;
    }
    Ok(row)
}

/// The superinterfaces of an interface.
fn superinterfaces(
    alloc: Global,
    world: &World<'_>,
    refs: &ClassRefs,
    class: Known<'_, '_>,
) -> Result<Row<ClassRef>, NoMemory>
    ensures { IfOk result (λ row. row ≡ map (λ s. ref_of refs.now s.name) (interfaces_of (all_classes world.now)
        (class_of class.entry))) }
{
    let places = world.interfaces(alloc, class)?;
    refs_at(alloc, world, refs, places.items())
}

/// The info of an interface.
pub fn interface_entry(
    alloc: Global,
    world: &World<'_>,
    refs: &ClassRefs,
    class: Known<'_, '_>,
) -> Result<InterfaceEntry, NoMemory>
    ensures { IfOk result (λ e. e ≡ interface_entry (ref_of refs.now) (all_classes world.now) (class_of class.entry)) }
{
    let flags = info_flags(alloc, world, class)?;
    let superinterfaces = superinterfaces(alloc, world, refs, class)?;
    Ok(InterfaceEntry {
        flags,
        superinterfaces,
    })
}

/// The offset of a method of the package, by the number of its class and by its place there; 0 where it has none.
pub fn offset_in(offsets: &[Row<u64>], method: Found) -> u64
    ensures { result ≡ offset_in offsets.now method }
{
    if method.imported {
        return 0;
    }
    match offsets.get(method.class as usize) {
        None => 0,
        Some(row) => match row.items().get(method.member as usize) {
            None => 0,
            Some(offset) => *offset,
        },
    }
}

fn entry_offset(offsets: &[Row<u64>], method: Option<Found>) -> u64
    ensures { result ≡ entry_offset offsets.now method }
{
    match method {
        None => IMPORTED,
        Some(found) => offset_in(offsets, found),
    }
}

/// The entries of a public table.
fn public_methods(
    alloc: Global,
    offsets: &[Row<u64>],
    methods: &[Option<Found>],
) -> Result<Row<u64>, NoMemory>
    ensures { IfOk result (λ row. row ≡ map (entry_offset offsets.now) methods.now) }
{
    let mut row = Row::new(alloc);
    for method in methods {
        row.push(entry_offset(offsets, *method))?;
    }
    Ok(row)
}

/// The entries of a package table.
fn package_methods(
    alloc: Global,
    offsets: &[Row<u64>],
    methods: &[Found],
) -> Result<Row<u64>, NoMemory>
    ensures { IfOk result (λ row. row ≡ map (offset_in offsets.now) methods.now) }
{
    let mut row = Row::new(alloc);
    for method in methods {
        row.push(offset_in(offsets, *method))?;
    }
    Ok(row)
}

fn implemented(
    alloc: Global,
    refs: &ClassRefs,
    map: &InterfaceMap,
) -> Result<ImplementedInterface, NoMemory>
    ensures { IfOk result (λ m. m ≡ implemented (ref_of refs.now) map.now) }
{
    let interface = refs.named(map.interface.items());
    let index = Bytes::copy_of(alloc, map.index.items())?;
    Ok(ImplementedInterface { interface, index })
}

/// The interfaces that a class implements, with the tokens of their methods in it.
pub fn implemented_interfaces(
    alloc: Global,
    refs: &ClassRefs,
    maps: &[InterfaceMap],
) -> Result<Row<ImplementedInterface>, NoMemory>
    ensures { IfOk result (λ row. row ≡ map (implemented (ref_of refs.now)) maps.now) }
{
    let mut row = Row::new(alloc);
    for map in maps {
        row.push(implemented(alloc, refs, map)?)?;
    }
    Ok(row)
}

/// The info of a class by its tables.
pub(crate) fn class_entry(
    alloc: Global,
    world: &World<'_>,
    refs: &ClassRefs,
    offsets: &[Row<u64>],
    table: &ClassTable,
    class: &ClassTree<'_>,
) -> Result<ClassEntry, NoMemory>
    ensures { IfOk result (λ e. e ≡ entry_by (ref_of refs.now) (offset_in offsets.now) (all_classes world.now) table.now
        class.now) }
{
    let flags = info_flags(alloc, world, Known::Declared(table.class, class))?;
    let cells = field_cells(class.fields.items())?;
    let public_methods = public_methods(alloc, offsets, table.public.items())?;
    let package_methods = package_methods(alloc, offsets, table.package.items())?;
    let interfaces = implemented_interfaces(alloc, refs, table.maps.items())?;
    Ok(ClassEntry {
        flags,
        superclass: refs.named(class.superclass.items()),
        declared_instance_size: cells.size,
        first_reference_token: cells.first_reference,
        reference_count: cells.reference_count,
        public_base: table.public_base,
        package_base: table.package_base,
        public_methods,
        package_methods,
        interfaces,
    })
}
