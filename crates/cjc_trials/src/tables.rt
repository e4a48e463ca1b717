//! The class tables and interface maps of small packages.

use crate::drafts::{Part, world_of};
use crate::tokens::{ASKING, COMMON, HIDING, OVERRIDING, declared, settings, tokens_of};
use cjc_bytes::Fault;
use cjc_vtable::{ClassTable, ClassTables, InterfaceMap, tables};
use cjc_world::Found;
use std::alloc::Global;
use std::test::*;

/// An interface and what its methods' tokens are in the class.
type Map<'t> = (&'t [u8], &'t [u8]);

/// A class, its public base and entries, its package base and entries, and its maps.
type Wanted<'t> = (
    u32,
    u8,
    &'t [Option<Found>],
    u8,
    &'t [Option<Found>],
    &'t [Map<'t>],
);

fn tables_of(alloc: Global, parts: &[Part<'_>]) -> Result<ClassTables, Fault> {
    let world = world_of(alloc, parts)?;
    let settings = settings(alloc, &[])?;
    let tokens = tokens_of(alloc, &world, &settings)?;
    Ok(tables(alloc, &world, &tokens)?)
}

fn are_maps(maps: &[InterfaceMap], wanted: &[Map<'_>]) -> bool {
    maps.len() == wanted.len()
        && maps.iter().zip(wanted).all(|(map, (interface, index))| {
            map.interface.items() == *interface && map.index.items() == *index
        })
}

fn are_methods(methods: &[Found], wanted: &[Option<Found>]) -> bool {
    methods.len() == wanted.len()
        && methods
            .iter()
            .zip(wanted)
            .all(|(method, wanted)| Some(*method) == *wanted)
}

fn is_table(table: &ClassTable, wanted: Wanted<'_>) -> bool {
    let (class, public_base, public, package_base, package, maps) = wanted;
    table.class == class
        && table.public_base == public_base
        && table.public.items() == public
        && table.package_base == package_base
        && are_methods(table.package.items(), package)
        && are_maps(table.maps.items(), maps)
}

/// Whether a package has tables, and they are these.
fn are_tables(tables: Result<ClassTables, Fault>, wanted: &[Wanted<'_>]) -> bool {
    match tables {
        Err(_) => false,
        Ok(tables) => {
            let rows = tables.rows.items();
            rows.len() == wanted.len()
                && rows
                    .iter()
                    .zip(wanted)
                    .all(|(table, wanted)| is_table(table, *wanted))
        }
    }
}

#[test]
fn methods_of_export_files_have_no_entry(rt: HostRuntime) {
    let none: &[Map<'_>] = &[];
    let wanted: [Wanted<'_>; 3] = [
        (0, 1, &[declared(0, 1), None], 0, &[], none),
        (1, 2, &[declared(1, 1), declared(1, 0)], 0, &[], none),
        (2, 3, &[], 0, &[], none), // the next free token
    ];
    assert!(rt; are_tables(tables_of(rt.alloc(), OVERRIDING), &wanted));
}

#[test]
fn package_visible_methods_have_a_table(rt: HostRuntime) {
    let none: &[Map<'_>] = &[];
    let wanted: [Wanted<'_>; 3] = [
        (
            0,
            1,
            &[declared(0, 0), declared(0, 2)],
            0,
            &[declared(0, 1), declared(0, 3)],
            none,
        ),
        (
            1,
            3,
            &[declared(1, 2)],
            0,
            &[declared(1, 1), declared(0, 3), declared(1, 0)],
            none,
        ),
        (2, 3, &[declared(2, 0)], 0, &[declared(2, 1)], none),
    ];
    assert!(rt; are_tables(tables_of(rt.alloc(), HIDING), &wanted));
}

#[test]
fn added_methods_stand_in_tables_and_maps(rt: HostRuntime) {
    let maps: &[Map<'_>] = &[(b"p/I", b"\x01")];
    let wanted: [Wanted<'_>; 2] = [
        (1, 1, &[declared(1, 1)], 0, &[], maps),
        (2, 1, &[declared(2, 1)], 0, &[], maps),
    ];
    assert!(rt; are_tables(tables_of(rt.alloc(), ASKING), &wanted));
}

#[test]
fn supers_stand_first_and_maps_in_order(rt: HostRuntime) {
    let maps: &[Map<'_>] = &[
        (b"p/I", &[4]),
        (b"p/K", &[4, 3]),
        (b"p/L", &[4, 2]),
        (b"p/J", &[4, 3, 2, 1]),
    ];
    let public: &[Option<Found>] = &[
        declared(1, 0),
        declared(1, 1),
        declared(1, 2),
        declared(1, 3),
    ];
    let below: &[Option<Found>] = &[
        declared(0, 0),
        declared(1, 2),
        declared(1, 3),
        declared(0, 1),
    ];
    let wanted: [Wanted<'_>; 2] = [(1, 1, public, 0, &[], maps), (0, 2, below, 0, &[], maps)];
    assert!(rt; are_tables(tables_of(rt.alloc(), COMMON), &wanted));
}
