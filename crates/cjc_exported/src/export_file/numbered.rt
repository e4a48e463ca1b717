//! The classes of a package, or the imported ones, as a row where each stands at the number that look-ups
//! answer.

ghost use Rattle.std.specs.Prelude.{◌≡◌, ◌++◌, ◌∷◌, [], filter, map, if◌then◌else◌, IfOk, OnOk};
ghost use Rattle.cjc_world.specs.Classes.{all_classes};
ghost use Rattle.cjc_world.specs.Working.Known.{class_of};
ghost use Rattle.cjc_exported.specs.ExportFile.Working.Sources.{is_of_kind};

use cjc_world::bytes::NoMemory;
use cjc_world::{Known, World};
use std::alloc::Global;

fn is_of_kind(imported: bool, class: Known<'_, '_>) -> bool
    ensures { result ≡ is_of_kind imported (class_of class.entry) }
{
    if imported {
        class.is_imported()
    } else {
        !class.is_imported()
    }
}

/// Puts a class at the end where it is of the kind.
fn put_class<'w, 'a>(
    imported: bool,
    class: Known<'w, 'a>,
    classes: &mut Vec<Known<'w, 'a>>,
) -> Result<(), NoMemory>
    ensures { OnOk result (map class_of classes.new.items ≡ map class_of classes.old.items
        ++ (if is_of_kind imported (class_of class.entry) then class_of class.entry ∷ [] else [])) }
{
    if is_of_kind(imported, class) {
        classes.push(class)?;
    }
    Ok(())
}

/// The imported classes, or those of the package, in the order of the list.
pub(crate) fn classes_of_kind<'w, 'a>(
    alloc: Global,
    world: &'w World<'a>,
    imported: bool,
) -> Result<Vec<Known<'w, 'a>>, NoMemory>
    ensures { IfOk result (λ classes. map class_of classes.items ≡ filter (is_of_kind imported)
        (all_classes world.now)) }
{
    let mut classes = Vec::new(alloc);
    for place in 0..0xFFFF_FFFF {
        match world.class_in(place) {
            None => return Ok(classes),
            Some(class) => put_class(imported, class, &mut classes)?,
        }
    }
    Err(NoMemory)
}
