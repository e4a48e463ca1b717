//! The class_refs of the package's classes as a row, so that a class is found by its number and not by its
//! name. Called by `names`.

ghost use Rattle.std.specs.Prelude.{◌≡◌, map, IfOk};
ghost use Rattle.cjc_classes.specs.ClassInfo.Refs.{ref_of};

use cjc_classes::bytes::{NoMemory, Row};
use cjc_classes::capread::ClassRef;
use cjc_classes::class_info::ClassRefs;
use cjc_classes::classfile::ClassTree;
use std::alloc::Global;

/// The class_ref of each class of the package by its number.
pub(crate) fn refs_by_number(
    alloc: Global,
    classes: &[ClassTree<'_>],
    refs: &ClassRefs,
) -> Result<Row<ClassRef>, NoMemory>
    ensures { IfOk result (λ row. row ≡ map (λ c. ref_of refs.now c.name) classes.now) }
{
    let mut row = Row::new(alloc);
    for class in classes {
        row.push(refs.named(class.name.items()))?;
    }
    Ok(row)
}
