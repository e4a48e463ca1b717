//! The class tables and interface maps of small packages, one line a class:
//!
//! `CLASS | PUBLIC BASE | ENTRIES | PACKAGE BASE | ENTRIES | MAPS`
//!
//! A map is an interface and what its methods' tokens are in the class.

use crate::rules::drafts::{list_of, world_of};
use crate::rules::found::is_found;
use crate::rules::tokens::{ASKING, COMMON, HIDING, OVERRIDING, tokens_of};
use cjc_tests_files::cases::{cut, is_number};
use cjc_vtable::bytes::{Fault, Row, Settings};
use cjc_vtable::world::Found;
use cjc_vtable::{ClassTable, ClassTables, InterfaceMap, tables};
use std::alloc::Global;
use std::test::*;

fn tables_of(alloc: Global, lines: &str) -> Result<ClassTables, Fault> {
    let world = world_of(alloc, lines, "...")?;
    let settings = Settings {
        ints: true,
        applets: Row::new(alloc),
    };
    let tokens = tokens_of(alloc, &world, &settings)?;
    Ok(tables(alloc, &world, &tokens)?)
}

fn are_tokens(tokens: &[u8], words: &str) -> bool {
    let mut rest = words;
    for token in tokens {
        let (word, more) = cut(rest, " ");
        if !is_number(word, *token as u32) {
            return false;
        }
        rest = more;
    }
    rest.is_empty()
}

fn are_maps(maps: &[InterfaceMap], words: &str) -> bool {
    let mut rest = list_of(words);
    for map in maps {
        let (one, more) = cut(rest, ", ");
        let (interface, index) = cut(one, " ");
        if map.interface.items() != interface.as_bytes() || !are_tokens(map.index.items(), index) {
            return false;
        }
        rest = more;
    }
    rest.is_empty()
}

fn are_entries(entries: &[Option<Found>], words: &str) -> bool {
    let mut rest = list_of(words);
    for entry in entries {
        let (place, more) = cut(rest, ", ");
        if !is_found(*entry, place) {
            return false;
        }
        rest = more;
    }
    rest.is_empty()
}

fn are_methods(methods: &[Found], words: &str) -> bool {
    let mut rest = list_of(words);
    for method in methods {
        let (place, more) = cut(rest, ", ");
        if !is_found(Some(*method), place) {
            return false;
        }
        rest = more;
    }
    rest.is_empty()
}

fn is_table(table: &ClassTable, line: &str) -> bool {
    let (class, rest) = cut(line, " | ");
    let (public_base, rest) = cut(rest, " | ");
    let (public, rest) = cut(rest, " | ");
    let (package_base, rest) = cut(rest, " | ");
    let (package, maps) = cut(rest, " | ");
    is_number(class, table.class)
        && is_number(public_base, table.public_base as u32)
        && are_entries(table.public.items(), public)
        && is_number(package_base, table.package_base as u32)
        && are_methods(table.package.items(), package)
        && are_maps(table.maps.items(), maps)
}

fn are_rows(rows: &[ClassTable], lines: &str) -> bool {
    let mut rest = lines;
    for table in rows {
        let (line, more) = cut(rest, "\n");
        if !is_table(table, line) {
            return false;
        }
        rest = more;
    }
    rest.is_empty()
}

/// Whether a package has tables, and they are these.
fn are_tables(alloc: Global, package: &str, lines: &str) -> bool {
    match tables_of(alloc, package) {
        Ok(tables) => are_rows(tables.rows.items(), lines),
        Err(_) => false,
    }
}

/// The base of the last is the next free token.
const OVERRIDDEN: &str = "\
0 | 1 | own 0 1, none | 0 | - | -
1 | 2 | own 1 1, own 1 0 | 0 | - | -
2 | 3 | - | 0 | - | -";

#[test]
fn methods_of_export_files_have_no_entry(rt: HostRuntime) {
    assert!(rt; are_tables(rt.alloc(), OVERRIDING, OVERRIDDEN));
}

const HIDDEN: &str = "\
0 | 1 | own 0 0, own 0 2 | 0 | own 0 1, own 0 3 | -
1 | 3 | own 1 2 | 0 | own 1 1, own 0 3, own 1 0 | -
2 | 3 | own 2 0 | 0 | own 2 1 | -";

#[test]
fn package_visible_methods_have_a_table(rt: HostRuntime) {
    assert!(rt; are_tables(rt.alloc(), HIDING, HIDDEN));
}

const ADDED: &str = "\
1 | 1 | own 1 1 | 0 | - | p/I 1
2 | 1 | own 2 1 | 0 | - | p/I 1";

#[test]
fn added_methods_stand_in_tables_and_maps(rt: HostRuntime) {
    assert!(rt; are_tables(rt.alloc(), ASKING, ADDED));
}

const ORDERED: &str = "\
1 | 1 | own 1 0, own 1 1, own 1 2, own 1 3 | 0 | - | p/I 4, p/K 4 3, p/L 4 2, p/J 4 3 2 1
0 | 2 | own 0 0, own 1 2, own 1 3, own 0 1 | 0 | - | p/I 4, p/K 4 3, p/L 4 2, p/J 4 3 2 1";

#[test]
fn supers_stand_first_and_maps_in_order(rt: HostRuntime) {
    assert!(rt; are_tables(rt.alloc(), COMMON, ORDERED));
}
