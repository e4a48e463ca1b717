//! Where a world keeps each of its classes: in which file of which kind, and at which place there. Only the
//! indices and rules of the world see it; whoever asks the world gets `Found` or `Known`.

ghost use Rattle.std.specs.Prelude.{◌≡◌, ◌<◌, ◌^◌, ◌+◌, ◌++◌, ℕ, List, IfOk, OnOk, true, All, length, slice_get};
ghost use Rattle.std.specs.Prelude.{option_map};
ghost use Rattle.cjc_classfile.specs.declared.tree.ClassTree.{ClassTree as ClassFile};
ghost use Rattle.cjc_export.specs.declared.tree.ExportTree.{ExportTree as ExportFile};
ghost use Rattle.cjc_world.specs.Classes.{size, numbered, of_class_file, of_export_file};
ghost use Rattle.cjc_world.specs.Working.Known.{class_of};
ghost use Rattle.cjc_world.specs.Working.Spots.{at, Grows, IsCounted, IsIndexed, spots_from};

use crate::class::Known;
use cjc_bytes::{FileLine, NoMemory, Row};
use cjc_classfile::ClassTree;
use cjc_export::{ExportClass, ExportTree};
use std::alloc::Global;

/// The place of a class in the trees of a world.
#[derive(Clone, Copy)]
pub(crate) struct ClassPlace {
    /// Whether it is a class of an export file.
    pub imported: bool,
    /// Which class file or which export file.
    pub tree: u32,
    /// Which class of the export file.
    pub class: u32,
    /// The class's number in what a look-up finds.
    pub number: u32,
}

/// The class that a spot means.
pub(crate) fn known<'w, 'a>(
    classes: &'w [ClassTree<'a>],
    exports: &'w [ExportTree],
    spot: &ClassPlace,
) -> Option<Known<'w, 'a>>
    ensures { option_map class_of result ≡ at classes.now exports.now spot.now }
{
    if spot.imported {
        let tree = exports.get(spot.tree as usize)?;
        let class = tree.classes.items().get(spot.class as usize)?;
        Some(Known::Imported(spot.number, class))
    } else {
        let class = classes.get(spot.tree as usize)?;
        Some(Known::Declared(spot.number, class))
    }
}

/// The sum, where 32 bits hold it. More classes than that have no memory.
pub(crate) fn sum(count: u32, more: usize) -> Result<u32, NoMemory>
    ensures { IfOk result (λ n. n ≡ count + more) }
{
    if more < 0x1_0000_0000 - count as usize {
        Ok(count + more as u32)
    } else {
        Err(NoMemory)
    }
}

/// How many classes the export file at this place has.
pub(crate) fn size(exports: &[ExportTree], place: u32) -> usize
    ensures { result ≡ size (slice_get exports.now place) }
{
    match exports.get(place as usize) {
        Some(tree) => tree.classes.items().len(),
        None => 0,
    }
}

fn is_counted(class: &ClassTree<'_>) -> bool
    ensures { result ≡ true → length class.now.fields + length class.now.methods < 2 ^ 32 }
{
    class.fields.items().len() < 0x8000_0000 && class.methods.items().len() < 0x8000_0000
}

fn is_export_counted(class: &ExportClass) -> bool
    ensures { result ≡ true → length class.now.fields + length class.now.methods < 2 ^ 32 }
{
    class.fields.items().len() < 0x8000_0000 && class.methods.items().len() < 0x8000_0000
}

/// Puts the spot of a class file at the end.
fn put_class(
    spots: &mut Vec<ClassPlace>,
    classes: &[ClassTree<'_>],
    place: u32,
) -> Result<(), NoMemory>
    ensures { (exports : List ExportFile) → OnOk result (Grows classes.now exports spots.old.items spots.new.items
        (of_class_file place (slice_get classes.now place))) }
{
    if let Some(class) = classes.get(place as usize) {
        if !is_counted(class) {
            return Err(NoMemory);
        }
        spots.push(ClassPlace {
            imported: false,
            tree: place,
            class: 0,
            number: place,
        })?;
    }
    Ok(())
}

/// Whether 32 bits count the members of each class.
fn are_counted(classes: &[ExportClass]) -> bool
    ensures { result ≡ true → (number : ℕ) → All IsCounted (numbered number classes.now) }
{
    for class in classes {
        if !is_export_counted(class) {
            return false;
        }
    }
    true
}

/// Puts the spots of so many classes of an export file at the end.
fn put_each(
    spots: &mut Vec<ClassPlace>,
    place: u32,
    number: u32,
    count: u32,
) -> Result<(), NoMemory>
    requires { number + count < 2 ^ 32 }
    ensures { OnOk result (spots.new.items ≡ spots.old.items ++ spots_from place number 0 count) }
{
    for class in 0..count {
        spots.push(ClassPlace {
            imported: true,
            tree: place,
            class,
            number: number + class,
        })?;
    }
    Ok(())
}

/// Puts the spots of an export file at the end.
fn put_export(
    spots: &mut Vec<ClassPlace>,
    exports: &[ExportTree],
    place: u32,
    number: u32,
) -> Result<(), NoMemory>
    ensures { (classes : List ClassFile) → OnOk result (Grows classes exports.now spots.old.items spots.new.items
        (of_export_file number (slice_get exports.now place))) }
{
    if let Some(tree) = exports.get(place as usize) {
        sum(number, tree.classes.items().len())?;
        if !are_counted(tree.classes.items()) {
            return Err(NoMemory);
        }
        put_each(spots, place, number, tree.classes.items().len() as u32)?;
    }
    Ok(())
}

/// Where all classes stand, in the order of the list.
pub(crate) fn index(
    alloc: Global,
    lines: &[FileLine],
    classes: &[ClassTree<'_>],
    exports: &[ExportTree],
) -> Result<Row<ClassPlace>, NoMemory>
    ensures { IfOk result (λ spots. IsIndexed lines.now classes.now exports.now spots) }
{
    let mut spots = Vec::new(alloc);
    let mut class_files = 0;
    let mut export_files = 0;
    let mut imports = 0;
    for line in lines {
        if line.class_file {
            put_class(&mut spots, classes, class_files)?;
            class_files = sum(class_files, 1)?;
        } else {
            put_export(&mut spots, exports, export_files, imports)?;
            imports = sum(imports, size(exports, export_files))?;
            export_files = sum(export_files, 1)?;
        }
    }
    let spots = Row::of(spots);
    if spots.items().len() < 0x1_0000_0000 {
        Ok(spots)
    } else {
        Err(NoMemory)
    }
}
