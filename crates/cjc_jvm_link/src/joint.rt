//! The world of several packages that run together, and what their static cells hold at first. Called by who runs
//! packages together; it knows no list and no files.

ghost use Rattle.std.specs.Prelude.{◌≡◌, ◌++◌, [], ◌∷◌, true, false, map, IfOk, OnOk, MatchOption};
ghost use Rattle.std.specs.List.{flat_map};
ghost use Rattle.cjc_world.specs.Classes.{all_classes};
ghost use Rattle.cjc_world.specs.Files.{Files};
ghost use Rattle.cjc_world.specs.Rules.{has_cycle};
ghost use Rattle.cjc_jvm_semantics.specs.Group.{is_among, is_of_group, joint, joint_classes, joint_image, line_of};
ghost use Rattle.cjc_jvm_link.specs.Joint.{kept_by, with_image, with_outside};

use crate::group::Package;
use cjc_world::bytes::{Bytes, FileLine, MemberId, NoMemory, Row};
use cjc_world::classfile::ClassTree;
use cjc_world::export_file::ExportTree;
use cjc_world::{ArrayCell, StaticImage, ValueCell, World};
use std::alloc::Global;

/// Whether a package of the group has this name.
fn is_of_group(packages: &[Package<'_, '_>], name: &[u8]) -> bool
    ensures { result ≡ is_of_group packages.now name.now }
{
    packages.iter().any(|p| p.world.package() == name)
}

/// Whether one of these export files is of a package of this name.
fn is_among(trees: &[ExportTree], name: &[u8]) -> bool
    ensures { result ≡ is_among trees.now name.now }
{
    trees.iter().any(|t| t.name.items() == name)
}

/// Puts an export file behind others, where it is of no package of the group and none of them is of its package.
fn put_outside(
    packages: &[Package<'_, '_>],
    tree: ExportTree,
    kept: &mut Row<ExportTree>,
) -> Result<(), NoMemory>
    ensures { OnOk result (kept.new ≡ with_outside packages.now kept.old tree) }
{
    if is_of_group(packages, tree.name.items()) || is_among(kept.items(), tree.name.items()) {
        return Ok(());
    }
    kept.push(tree)
}

/// The export files of packages that are not of the group, each once.
fn outside_once(
    alloc: Global,
    packages: &[Package<'_, '_>],
    trees: Row<ExportTree>,
) -> Result<Row<ExportTree>, NoMemory>
    ensures { IfOk result (λ kept. kept ≡ kept_by packages.now [] trees) }
{
    let mut kept = Row::new(alloc);
    for tree in trees.into_vec() {
        put_outside(packages, tree, &mut kept)?;
    }
    Ok(kept)
}

/// Puts a line of a list, with no name.
fn put_line(alloc: Global, class_file: bool, lines: &mut Row<FileLine>) -> Result<(), NoMemory>
    ensures { OnOk result (lines.new ≡ lines.old ++ line_of class_file ∷ []) }
{
    lines.push(FileLine {
        class_file,
        name: Row::new(alloc),
    })
}

/// Puts a line for each class file.
fn put_class_lines(
    alloc: Global,
    classes: &[ClassTree<'_>],
    lines: &mut Row<FileLine>,
) -> Result<(), NoMemory>
    ensures { OnOk result (lines.new ≡ lines.old ++ map (λ c. line_of true) classes.now) }
{
    for class in classes {
        let _class = class;
        put_line(alloc, true, lines)?;
    }
    Ok(())
}

/// Puts a line for each export file.
fn put_export_lines(
    alloc: Global,
    exports: &[ExportTree],
    lines: &mut Row<FileLine>,
) -> Result<(), NoMemory>
    ensures { OnOk result (lines.new ≡ lines.old ++ map (λ t. line_of false) exports.now) }
{
    for export in exports {
        let _export = export;
        put_line(alloc, false, lines)?;
    }
    Ok(())
}

/// The lines of these classes and then of these export files.
fn lines_of(
    alloc: Global,
    classes: &[ClassTree<'_>],
    exports: &[ExportTree],
) -> Result<Row<FileLine>, NoMemory>
    ensures { IfOk result (λ lines. lines ≡ map (λ c. line_of true) classes.now ++ map (λ t. line_of false)
        exports.now) }
{
    let mut lines = Row::new(alloc);
    put_class_lines(alloc, classes, &mut lines)?;
    put_export_lines(alloc, exports, &mut lines)?;
    Ok(lines)
}

/// The world of packages, of which these are the classes and the export files, one package after the other. None
/// where a class is its own superclass or superinterface over steps.
pub fn joint_world<'a>(
    alloc: Global,
    packages: &[Package<'_, '_>],
    classes: Row<ClassTree<'a>>,
    exports: Row<ExportTree>,
) -> Result<Option<World<'a>>, NoMemory>
    requires classes { classes ≡ joint_classes packages.now }
    requires exports { exports ≡ flat_map (λ (p : Files). p.exports) packages.now }
    ensures { IfOk result (λ o. MatchOption o (has_cycle (all_classes (joint packages.now)) ≡ true)
        (λ w. w ≡ joint packages.now)) }
{
    let outside = outside_once(alloc, packages, exports)?;
    let lines = lines_of(alloc, classes.items(), outside.items())?;
    World::untested(alloc, b"", lines, classes, outside)
}

fn copy_id(alloc: Global, id: &MemberId) -> Result<MemberId, NoMemory>
    ensures { IfOk result (λ copy. copy ≡ id.now) }
{
    Ok(MemberId {
        class: Bytes::copy_of(alloc, id.class.items())?,
        name: Bytes::copy_of(alloc, id.name.items())?,
        desc: Bytes::copy_of(alloc, id.desc.items())?,
    })
}

fn copy_items(alloc: Global, items: &[i32]) -> Result<Row<i32>, NoMemory>
    ensures { IfOk result (λ copy. copy ≡ items.now) }
{
    let mut copy = Row::new(alloc);
    for item in items {
        copy.push(*item)?;
    }
    Ok(copy)
}

fn put_arrays(
    alloc: Global,
    more: &[ArrayCell],
    arrays: &mut Row<ArrayCell>,
) -> Result<(), NoMemory>
    ensures { OnOk result (arrays.new ≡ arrays.old ++ more.now) }
{
    for array in more {
        arrays.push(ArrayCell {
            field: copy_id(alloc, &array.field)?,
            kind: array.kind,
            items: copy_items(alloc, array.items.items())?,
        })?;
    }
    Ok(())
}

fn put_ids(alloc: Global, more: &[MemberId], ids: &mut Row<MemberId>) -> Result<(), NoMemory>
    ensures { OnOk result (ids.new ≡ ids.old ++ more.now) }
{
    for id in more {
        ids.push(copy_id(alloc, id)?)?;
    }
    Ok(())
}

fn put_values(
    alloc: Global,
    more: &[ValueCell],
    values: &mut Row<ValueCell>,
) -> Result<(), NoMemory>
    ensures { OnOk result (values.new ≡ values.old ++ more.now) }
{
    for value in more {
        values.push(ValueCell {
            field: copy_id(alloc, &value.field)?,
            value: value.value,
        })?;
    }
    Ok(())
}

/// Puts what the static cells of a package hold behind what those of others do.
fn put_image(alloc: Global, image: &StaticImage, joint: &mut StaticImage) -> Result<(), NoMemory>
    ensures { OnOk result (joint.new ≡ with_image joint.old image.now) }
{
    put_arrays(alloc, image.arrays.items(), &mut joint.arrays)?;
    put_ids(alloc, image.nulls.items(), &mut joint.nulls)?;
    put_ids(alloc, image.zeros.items(), &mut joint.zeros)?;
    put_values(alloc, image.others.items(), &mut joint.others)
}

/// What the static cells of several packages hold at first, from what those of each do.
pub fn joint_image(alloc: Global, images: &[StaticImage]) -> Result<StaticImage, NoMemory>
    ensures { IfOk result (λ image. image ≡ joint_image images.now) }
{
    let mut joint = StaticImage {
        arrays: Row::new(alloc),
        nulls: Row::new(alloc),
        zeros: Row::new(alloc),
        others: Row::new(alloc),
    };
    for image in images {
        put_image(alloc, image, &mut joint)?;
    }
    Ok(joint)
}
