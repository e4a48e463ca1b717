//! One class of the export file: its token, its flags with ACC_SHAREABLE where it is shareable, its supers,
//! fields and methods (Java Card Virtual Machine Specification 2.2.2, chapter 5). Called by `tree`.

ghost use Rattle.std.specs.Prelude.{◌≡◌, ◌+◌, ◌-◌, ◌++◌, [], bit_and, false, if◌then◌else◌, length, map, IfOk};
ghost use Rattle.std.specs.List.{list_any};
ghost use Rattle.std.specs.Str.{bytes_eq};
ghost use Rattle.cjc_world.specs.Bytes.AccessFlags.{acc_shareable};
ghost use Rattle.cjc_world.specs.Exported.{shareable};
ghost use Rattle.cjc_world.specs.Working.Known.{class_of};
ghost use Rattle.cjc_components.specs.LowerClassOrder.Supers.Supers.{interfaces};
ghost use Rattle.cjc_components.specs.Class.{is_shareable};
ghost use Rattle.cjc_components.specs.ExportFile.{class_flags, export_class, without};
ghost use Rattle.cjc_exported.specs.ExportFile.Working.Sources.{AreSources, IsNumbered, methods_of, package_in};
ghost use Rattle.cjc_exported.specs.ExportFile.Working.Sources.{world_in};

use crate::export_file::fields::fields;
use crate::export_file::inherited::put_inherited_methods;
use crate::export_file::own::{put_given, put_own};
use crate::export_file::source::Source;
use cjc_components::class_order::supers::{interfaces, superclasses};
use cjc_world::Known;
use cjc_world::bytes::{ACC_SHAREABLE, ACC_SUPER, Bytes, NoMemory, Row};
use cjc_world::export_file::{ExportClass, ExportMethod, copies_of};
use std::alloc::Global;

const SHAREABLE: &[u8] = b"javacard/framework/Shareable";

fn names_shareable(names: &[Bytes]) -> bool
    ensures { result ≡ list_any (λ n. bytes_eq n shareable) names.now }
{
    names.iter().any(|name| name.items() == SHAREABLE)
}

/// Whether javacard/framework/Shareable is one of the interfaces of a class, or it is that interface.
fn is_shareable(source: &Source<'_, '_>, class: Known<'_, '_>, names: &[Bytes]) -> bool
    requires { names.now ≡ interfaces (world_in source.now) (class_of class) }
    ensures { result ≡ is_shareable (world_in source.now) (class_of class.entry) }
{
    names_shareable(names) || (class.is_interface() && class.name() == SHAREABLE)
}

fn without(flags: u16, flag: u16) -> u16
    ensures { result ≡ without flags flag }
{
    flags - (flags & flag)
}

/// The flags with ACC_SHAREABLE where the class is shareable, and without it where it is not.
fn with_shareable(flags: u16, shareable: bool) -> u16
    ensures { result ≡ without flags acc_shareable + (if shareable then acc_shareable else 0) }
{
    if shareable {
        flags | ACC_SHAREABLE
    } else {
        without(flags, ACC_SHAREABLE)
    }
}

fn class_flags(source: &Source<'_, '_>, class: Known<'_, '_>, names: &[Bytes]) -> u16
    requires { names.now ≡ interfaces (world_in source.now) (class_of class) }
    ensures { result ≡ class_flags (world_in source.now) (class_of class.entry) }
{
    let flags = without(class.flags(), ACC_SUPER);
    with_shareable(flags, is_shareable(source, class, names))
}

/// The methods of a class: its own that others may name, those that are added to it, and those that it inherits.
fn methods(
    alloc: Global,
    source: &Source<'_, '_>,
    class: Known<'_, '_>,
) -> Result<Row<ExportMethod>, NoMemory>
    requires sources { AreSources source.now }
    requires numbered { IsNumbered source.now (class_of class) }
    requires own { (class_of class).is_imported ≡ false }
    ensures { IfOk result (λ methods. methods ≡ methods_of (package_in source.now) (class_of class.entry)) }
{
    let mut methods = Row::new(alloc);
    put_own(alloc, source, class, &mut methods)?;
    put_given(alloc, source, class, source.given(class), &mut methods)?;
    put_inherited_methods(alloc, source, class, &mut methods)?;
    Ok(methods)
}

/// A class of the package that others may name.
pub(crate) fn export_class(
    alloc: Global,
    source: &Source<'_, '_>,
    class: Known<'_, '_>,
) -> Result<ExportClass, NoMemory>
    requires sources { AreSources source.now }
    requires numbered { IsNumbered source.now (class_of class) }
    requires own { (class_of class).is_imported ≡ false }
    ensures { IfOk result (λ c. c ≡ export_class (package_in source.now) (class_of class.entry)) }
{
    let supers = superclasses(alloc, source.world, class)?;
    let listed = copies_of(alloc, supers.items())?;
    let interfaces = interfaces(alloc, source.world, class)?;
    let fields = fields(alloc, source, class)?;
    let methods = methods(alloc, source, class)?;
    let name = Bytes::copy_of(alloc, class.name())?;
    let flags = class_flags(source, class, interfaces.items());
    Ok(ExportClass {
        token: source.class_token(class),
        flags,
        name,
        listed,
        supers,
        interfaces,
        fields,
        methods,
    })
}
