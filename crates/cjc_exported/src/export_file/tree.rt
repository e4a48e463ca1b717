//! The export file of the package as a tree: of all its classes those that others may name, by token. `class`
//! and `fields` say what stands there of each; nothing here writes bytes.

ghost use Rattle.std.specs.Prelude.{◌≡◌, ◌++◌, ◌∷◌, [], false, if◌then◌else◌, length, map, nat_lt, IfOk, OnOk};
ghost use Rattle.cjc_world.specs.Exported.{is_exported};
ghost use Rattle.cjc_world.specs.Working.Known.{class_of};
ghost use Rattle.cjc_components.specs.LowerTokens.Tokens.{assigned};
ghost use Rattle.cjc_components.specs.ExportFile.{export_class, export_of};
ghost use Rattle.cjc_components.specs.Exports.{exported_classes};
ghost use Rattle.cjc_components.specs.Package.{Package};
ghost use Rattle.cjc_exported.specs.ExportFile.Working.Sources.{AreSources, IsNumbered, package_in, world_in};

use crate::export_file::class::export_class;
use crate::export_file::source::Source;
use cjc_components::list::List;
use cjc_components::tokens::Tokens;
use cjc_world::bytes::{Bytes, NoMemory, Row};
use cjc_world::export_file::{ExportClass, ExportTree};
use cjc_world::{Known, World};
use std::alloc::Global;

/// Puts a class of the package at the end where others may name it.
fn put_class(
    alloc: Global,
    source: &Source<'_, '_>,
    applets: bool,
    class: Known<'_, '_>,
    classes: &mut Row<ExportClass>,
) -> Result<(), NoMemory>
    requires sources { AreSources source.now }
    requires numbered { IsNumbered source.now (class_of class) }
    requires own { (class_of class).is_imported ≡ false }
    ensures { OnOk result (classes.new ≡ classes.old
        ++ (if is_exported (world_in source.now) applets (class_of class.entry)
        then export_class (package_in source.now) (class_of class.entry) ∷ [] else [])) }
{
    if source.world.is_exported(applets, class) {
        classes.push(export_class(alloc, source, class)?)?;
    }
    Ok(())
}

/// The classes of the package that others may name, by token.
fn classes(alloc: Global, source: &Source<'_, '_>) -> Result<Row<ExportClass>, NoMemory>
    requires { AreSources source.now }
    ensures { IfOk result (λ classes. classes ≡ map (export_class (package_in source.now))
        (exported_classes (package_in source.now))) }
{
    let applets = source.has_applets();
    let mut classes = Row::new(alloc);
    let declared = source.declared.as_slice();
    for number in 0..declared.len() {
        put_class(alloc, source, applets, declared[number], &mut classes)?;
    }
    Ok(classes)
}

fn tree(alloc: Global, source: &Source<'_, '_>) -> Result<ExportTree, NoMemory>
    requires { AreSources source.now }
    ensures { IfOk result (λ t. t ≡ export_of (package_in source.now)) }
{
    let classes = classes(alloc, source)?;
    let name = Bytes::copy_of(alloc, source.list.package.items())?;
    let aid = Bytes::copy_of(alloc, source.list.aid.items())?;
    Ok(ExportTree {
        name,
        aid,
        major: source.list.major,
        minor: source.list.minor,
        library: !source.has_applets(),
        classes,
    })
}

/// The export file of a package, whose tokens these are: the classes that others may name, by token, with their
/// members. Only want of memory is an error.
pub fn export_of(
    alloc: Global,
    list: &List,
    world: &World<'_>,
    tokens: &Tokens,
) -> Result<ExportTree, NoMemory>
    requires { tokens.now ≡ assigned (nat_lt 0 (length list.now.applets)) world.now }
    ensures { (p : Package) → p.list ≡ list.now → p.files ≡ world.now → IfOk result (λ t. t ≡ export_of p) }
{
    let source = Source::new(alloc, list, world, tokens)?;
    tree(alloc, &source)
}
