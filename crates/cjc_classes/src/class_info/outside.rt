//! The class_refs of the classes of export files: the number of the file, and the class's token there. Called
//! by `infos`.

ghost use Rattle.std.specs.Prelude.{◌≡◌, ℕ, List, option_map, IfOk, OnOk};
ghost use Rattle.cjc_components.specs.LowerCapRead.declared.tree.ClassRef.TheVariants.{Outside};
ghost use Rattle.cjc_components.specs.LowerCardSemantics.Machine.Classes.{external_from, or_else, token_named};
ghost use Rattle.cjc_components.specs.Names.{ref_to};
ghost use Rattle.cjc_classes.specs.ClassInfo.Refs.{ref_in};

use crate::class_info::refs::ClassRefs;
use cjc_bytes::NoMemory;
use cjc_components::capread::ClassRef;
use cjc_world::export_file::{ExportClass, ExportTree};
use std::alloc::Global;

/// Notes the classes of an export file.
fn note_file(
    alloc: Global,
    refs: &mut ClassRefs,
    file: u8,
    classes: &[ExportClass],
) -> Result<(), NoMemory>
    ensures { OnOk result ((x : List ℕ) → ref_in refs.new x ≡ or_else (ref_in refs.old x) (option_map (Outside file)
        (token_named classes.now x))) }
{
    for class in classes {
        let token = class.token;
        let outside = ClassRef::Outside {
            package: file,
            class: token,
        };
        refs.note(alloc, class.name.items(), outside)?;
    }
    Ok(())
}

/// The number of an export file, where a byte holds it.
fn number_of(file: usize) -> Result<u8, NoMemory>
    ensures { IfOk result (λ n. n ≡ file) }
{
    if file < 256 {
        Ok(file as u8)
    } else {
        Err(NoMemory)
    }
}

/// Notes the classes of the export files, each by the first that has it.
pub fn note_files(
    alloc: Global,
    refs: &mut ClassRefs,
    exports: &[ExportTree],
) -> Result<(), NoMemory>
    ensures { OnOk result ((x : List ℕ) → ref_in refs.new x ≡ or_else (ref_in refs.old x)
        (option_map ref_to (external_from 0 exports.now x))) }
{
    for (file, tree) in exports.iter().enumerate() {
        note_file(alloc, refs, number_of(file)?, tree.classes.items())?;
    }
    Ok(())
}
