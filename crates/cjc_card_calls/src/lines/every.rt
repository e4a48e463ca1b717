//! All classes that are there, by token: those of the Class of each package and those that export files list. Called
//! by `lines`.

ghost use Rattle.std.specs.Prelude.{◌≡◌, ◌<◌, ◌^◌, ◌++◌, length, map, option_map, option_to_list, slice_get};
ghost use Rattle.std.specs.Prelude.{IfOk, OnOk};
ghost use Rattle.cjc_card_semantics.specs.Machine.Classes.{Class as ByToken, External, is_in, is_there};
ghost use Rattle.cjc_card_frame.specs.Objects.{class_of};
ghost use Rattle.cjc_card_calls.specs.Lines.Every.{classes_at, files_classes, own_classes};
ghost use Rattle.cjc_card_link.specs.Tables.{AreKept, loaded_of};

use cjc_card_frame::heap::Class;
use cjc_card_link::Tables;
use cjc_card_semantics::bytes::{NoMemory, Row};
use cjc_card_semantics::export_file::{ExportClass, ExportTree};
use std::alloc::Global;

// More export files than there are.
const TOO_MANY: usize = 1 << 32;

// Puts a class at the end, where there is one.
fn put_some(classes: &mut Row<Class>, class: Option<Class>) -> Result<(), NoMemory>
    ensures { OnOk result (map class_of classes.new ≡ map class_of classes.old
        ++ option_to_list (option_map class_of class)) }
{
    match class {
        Some(class) => classes.push(class),
        None => Ok(()),
    }
}

// Puts the classes of a package at the end.
fn put_part(classes: &mut Row<Class>, tables: &Tables<'_>, part: u32) -> Result<(), NoMemory>
    requires { AreKept tables.now }
    ensures { OnOk result (map class_of classes.new ≡ map class_of classes.old
        ++ classes_at part (slice_get (loaded_of tables.now).parts part)) }
{
    for number in 0..tables.class_count(part) {
        put_some(classes, tables.class_numbered(part, number as u64))?;
    }
    Ok(())
}

// Puts the classes of all packages at the end.
fn put_own(classes: &mut Row<Class>, tables: &Tables<'_>) -> Result<(), NoMemory>
    requires { AreKept tables.now }
    ensures { OnOk result (map class_of classes.new ≡ map class_of classes.old ++ own_classes (loaded_of tables.now)) }
{
    for part in 0..tables.part_count() {
        put_part(classes, tables, part)?;
    }
    Ok(())
}

// Puts the classes of an export file at the end.
fn put_file(classes: &mut Row<Class>, tree: u32, listed: &[ExportClass]) -> Result<(), NoMemory>
    ensures { OnOk result (map class_of classes.new ≡ map class_of classes.old
        ++ map (λ c. External tree c.token) listed.now) }
{
    for class in listed {
        classes.push(Class::External(tree, class.token))?;
    }
    Ok(())
}

// Puts the classes of export files at the end.
fn put_files(classes: &mut Row<Class>, trees: &[ExportTree]) -> Result<(), NoMemory>
    requires { length trees.now < 2 ^ 32 }
    ensures { OnOk result (map class_of classes.new ≡ map class_of classes.old ++ files_classes 0 trees.now) }
{
    let mut number = 0;
    for tree in trees {
        put_file(classes, number, tree.classes.items())?;
        number += 1;
    }
    Ok(())
}

/// All classes that are there. No memory is there for 2^32 export files.
pub(crate) fn every_class(alloc: Global, tables: &Tables<'_>) -> Result<Row<Class>, NoMemory>
    requires { AreKept tables.now }
    ensures { IfOk result (λ classes. (x : ByToken) → is_in x (map class_of classes) ≡ is_there (loaded_of tables.now)
        x) }
{
    let trees = tables.trees();
    if trees.len() >= TOO_MANY {
        return Err(NoMemory);
    }
    let mut classes = Row::new(alloc);
    put_own(&mut classes, tables)?;
    put_files(&mut classes, trees)?;
    Ok(classes)
}
