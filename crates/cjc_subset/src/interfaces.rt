//! Rule 403: how many interfaces a class or an interface may have.

ghost use Rattle.std.specs.Prelude.{◌≡◌, [], ◌∷◌, ◌++◌, if◌then◌else◌, IfOk, OnOk};
ghost use Rattle.std.specs.List.{flat_map, list_any};
ghost use Rattle.std.specs.Str.{bytes_eq};
ghost use Rattle.cjc_world.specs.Classes.{all_classes};
ghost use Rattle.cjc_world.specs.Working.Known.{class_of};
ghost use Rattle.cjc_subset.specs.Limits.{has_many_interfaces, is_above, listed_above, listed_by_declared};
ghost use Rattle.cjc_subset.specs.Limits.{listed_by_imported, listed_names, most_interfaces, noted};

use cjc_bytes::{Bytes, NoMemory, Row, is_interface};
use cjc_code::classfile::ClassTree;
use cjc_world::export_file::{ExportClass, ExportTree};
use cjc_world::{Known, World};
use std::alloc::Global;

/// Whether another class or interface stands above a class.
fn is_above(world: &World<'_>, class: &ClassTree<'_>, known: Known<'_, '_>) -> bool
    ensures { result ≡ is_above (all_classes world.now) class.now (class_of known.entry) }
{
    let name = class.name.items();
    world.is_subclass(name, known.name()) && name != known.name()
}

fn is_noted(known: &[Bytes], name: &[u8]) -> bool
    ensures { result ≡ list_any (λ y. bytes_eq y name.now) known.now }
{
    known.iter().any(|other| other.items() == name)
}

/// Puts a name that is not known at the end.
fn note_one(alloc: Global, known: &mut Row<Bytes>, name: &[u8]) -> Result<(), NoMemory>
    ensures { OnOk result (known.new ≡ (if list_any (λ y. bytes_eq y name.now) known.old then known.old else known.old
        ++ name.now ∷ [])) }
{
    if is_noted(known.items(), name) {
        return Ok(());
    }
    known.push(Bytes::copy_of(alloc, name)?)
}

/// Puts each name that is not known at the end.
fn note(alloc: Global, known: &mut Row<Bytes>, names: &[Bytes]) -> Result<(), NoMemory>
    ensures { OnOk result (known.new ≡ noted known.old names.now) }
{
    for name in names {
        note_one(alloc, known, name.items())?;
    }
    Ok(())
}

/// The names of the interfaces that another class lists, where it stands above.
fn note_above(
    alloc: Global,
    world: &World<'_>,
    class: &ClassTree<'_>,
    other: Known<'_, '_>,
    known: &mut Row<Bytes>,
) -> Result<(), NoMemory>
    ensures { OnOk result (known.new ≡ noted known.old (listed_above (all_classes world.now) class.now
        (class_of other.entry))) }
{
    // Most classes list none: no way up is walked for them.
    if other.interfaces().is_empty() {
        return Ok(());
    }
    if is_above(world, class, other) {
        note(alloc, known, other.interfaces())
    } else {
        Ok(())
    }
}

/// The names that these classes of the package list, where they stand above.
fn note_declared(
    alloc: Global,
    world: &World<'_>,
    class: &ClassTree<'_>,
    others: &[ClassTree<'_>],
    known: &mut Row<Bytes>,
) -> Result<(), NoMemory>
    ensures { OnOk result (known.new ≡ noted known.old (listed_by_declared (all_classes world.now) class.now
        others.now)) }
{
    for other in others {
        note_above(alloc, world, class, Known::Declared(0, other), known)?;
    }
    Ok(())
}

/// The names that these classes of an export file list, where they stand above.
fn note_imported(
    alloc: Global,
    world: &World<'_>,
    class: &ClassTree<'_>,
    others: &[ExportClass],
    known: &mut Row<Bytes>,
) -> Result<(), NoMemory>
    ensures { OnOk result (known.new ≡ noted known.old (listed_by_imported (all_classes world.now) class.now
        others.now)) }
{
    for other in others {
        note_above(alloc, world, class, Known::Imported(0, other), known)?;
    }
    Ok(())
}

/// The names that the classes of these export files list, where they stand above.
fn note_exports(
    alloc: Global,
    world: &World<'_>,
    class: &ClassTree<'_>,
    exports: &[ExportTree],
    known: &mut Row<Bytes>,
) -> Result<(), NoMemory>
    ensures { OnOk result (known.new ≡ noted known.old (flat_map (λ t. listed_by_imported (all_classes world.now)
        class.now t.classes) exports.now)) }
{
    for tree in exports {
        note_imported(alloc, world, class, tree.classes.items(), known)?;
    }
    Ok(())
}

/// The names of all interfaces of a class, each once.
#[tactic(auto, unfolding(crate::specs::Limits::listed_names))]
fn interface_names(
    alloc: Global,
    world: &World<'_>,
    class: &ClassTree<'_>,
) -> Result<Row<Bytes>, NoMemory>
    ensures { IfOk result (λ names. names ≡ noted [] (listed_names world.now class.now)) }
{
    let mut known = Row::new(alloc);
    note(alloc, &mut known, class.interfaces.items())?;
    note_declared(alloc, world, class, world.classes().items(), &mut known)?;
    note_exports(alloc, world, class, world.exports().items(), &mut known)?;
    Ok(known)
}

fn most_interfaces(class: &ClassTree<'_>) -> usize
    ensures { result ≡ most_interfaces class.now }
{
    if is_interface(class.flags) { 14 } else { 15 }
}

/// Whether a class has more than 15 interfaces, or an interface more than 14, inherited ones counted.
#[tactic(auto, unfolding(crate::specs::Limits::has_many_interfaces))]
pub(crate) fn has_many_interfaces(
    alloc: Global,
    world: &World<'_>,
    class: &ClassTree<'_>,
) -> Result<bool, NoMemory>
    ensures { IfOk result (λ b. b ≡ has_many_interfaces world.now class.now) }
{
    let names = interface_names(alloc, world, class)?;
    Ok(names.items().len() > most_interfaces(class))
}
