//! The classes above each class and below it, by their places (Java Card Virtual Machine Specification 2.2.2, section
//! 5.7). Called by `rows` and `tokens`.

ghost use Rattle.std.specs.Prelude.{◌≡◌, List, [], ◌++◌, length, map, IfOk, OnOk};
ghost use Rattle.std.specs.List.{fold};
ghost use Rattle.std.specs.Str.{bytes_eq};
ghost use Rattle.indexmap.specs.IndexMap.{get};
ghost use Rattle.cjc_check_index.specs.Imported.Working.Graph.{AreBelow, above_of, one_place, places, with_edge};
ghost use Rattle.cjc_check_index.specs.Imported.Working.Names.{IsIndex};
ghost use Rattle.cjc_check_rules.specs.ExportFile.declared.tree.ExportClass.{ExportClass as Class};

use crate::imported::classes::{ImportedClass, Name, Places, places_of};
use cjc_check_rules::bytes::{Bytes, NoMemory, Row};
use std::alloc::Global;

/// Puts the place of a name's first class at the end, if it has one.
fn put_above<'a>(row: &mut Row<usize>, index: &Places<'a>, name: &'a [u8]) -> Result<(), NoMemory>
    ensures { OnOk result (row.new ≡ row.old ++ one_place (get bytes_eq index.now name.now)) }
{
    match index.get(&Name { bytes: name }) {
        Some(at) => row.push(*at),
        None => Ok(()),
    }
}

/// The places of the first classes of names.
fn places<'a>(alloc: Global, index: &Places<'a>, names: &'a [Bytes]) -> Result<Row<usize>, NoMemory>
    ensures { (classes : List Class) → IsIndex index.now classes → IfOk result (λ row. row ≡ places classes names.now) }
{
    let mut row = Row::new(alloc);
    for name in names {
        put_above(&mut row, index, name.items())?;
    }
    Ok(row)
}

/// What each class lists as supers, by their places.
pub(crate) fn above_of<'a>(
    alloc: Global,
    classes: &[ImportedClass<'a>],
) -> Result<Row<Row<usize>>, NoMemory>
    ensures { IfOk result (λ above. above ≡ above_of classes.now) }
{
    let index = places_of(alloc, classes)?;
    let mut above = Row::new(alloc);
    for listed in classes {
        above.push(places(alloc, &index, listed.class.supers.items())?)?;
    }
    Ok(above)
}

/// As many empty rows as there are rows.
fn empty_rows(alloc: Global, rows: &[Row<usize>]) -> Result<Vec<Row<usize>>, NoMemory>
    ensures { IfOk result (λ empty. empty.items ≡ map (λ row. []) rows.now) }
{
    let mut empty = Vec::new(alloc);
    for _row in rows {
        empty.push(Row::new(alloc))?;
    }
    Ok(empty)
}

/// Puts a class below another one.
fn put_edge(below: &mut Vec<Row<usize>>, at: usize, above: usize) -> Result<(), NoMemory>
    ensures { OnOk result (below.new.items ≡ with_edge at below.old.items above) }
{
    if above < below.len() {
        below[above].push(at)?;
    }
    Ok(())
}

/// Puts a class below others.
fn put_edges(below: &mut Vec<Row<usize>>, at: usize, above: &[usize]) -> Result<(), NoMemory>
    ensures { OnOk result (below.new.items ≡ fold (with_edge at) below.old.items above.now) }
{
    for place in above {
        put_edge(below, at, *place)?;
    }
    Ok(())
}

/// What lists each class as a super, from what each class lists.
pub(crate) fn below_of(alloc: Global, above: &[Row<usize>]) -> Result<Row<Row<usize>>, NoMemory>
    ensures { IfOk result (λ below. AreBelow above.now below) }
{
    let mut below = empty_rows(alloc, above)?;
    for (i, row) in above.iter().enumerate() {
        put_edges(&mut below, i, row.items())?;
    }
    Ok(Row::of(below))
}
