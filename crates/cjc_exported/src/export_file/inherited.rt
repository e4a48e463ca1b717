//! The methods that a class inherits, by token: of a class the public and protected ones of its superclasses,
//! of an interface those of its superinterfaces.

ghost use Rattle.std.specs.Prelude.{◌≡◌, ◌++◌, List, false, is_some, map, option_map, IfOk, OnOk, Some};
ghost use Rattle.cjc_components.specs.LowerTokens.Members.{Signature};
ghost use Rattle.cjc_components.specs.LowerTokens.Methods.{interface_methods};
ghost use Rattle.cjc_components.specs.LowerTokens.Tokens.{public_methods_of};
ghost use Rattle.cjc_components.specs.LowerTokens.Working.{signature_in, signs};
ghost use Rattle.cjc_components.specs.LowerVTable.Tables.{is_own};
ghost use Rattle.cjc_world.specs.Working.Known.{class_of};
ghost use Rattle.cjc_components.specs.ExportFile.{declares, exposed_entry, inherited, inherited_at, inherited_from};
ghost use Rattle.cjc_components.specs.ExportFile.{super_at, super_entry, supers_from};
ghost use Rattle.cjc_exported.specs.ExportFile.Working.Sources.{AreSources, IsNumbered, bare, method_of, world_in};
ghost use Rattle.cjc_world.specs.Classes.{Member};

use crate::export_file::method::{Method, is_exposed, put_method};
use crate::export_file::source::Source;
use cjc_components::tokens::{Slot, interface_methods};
use cjc_world::bytes::{NoMemory, Row};
use cjc_world::export_file::ExportMethod;
use cjc_world::{Found, Known};
use std::alloc::Global;

/// A token as a byte. No token of an unbroken package is above 254.
fn as_byte(token: usize) -> Result<u8, NoMemory>
    ensures { IfOk result (λ t. t ≡ token) }
{
    if token < 256 {
        Ok(token as u8)
    } else {
        Err(NoMemory)
    }
}

/// Puts a method at the end, if there is one.
fn put_super(
    alloc: Global,
    token: usize,
    method: Option<Method<'_>>,
    methods: &mut Row<ExportMethod>,
) -> Result<(), NoMemory>
    ensures { OnOk result (methods.new ≡ methods.old ++ super_entry token (option_map method_of method.entry)) }
{
    match method {
        None => Ok(()),
        Some(method) => put_method(alloc, as_byte(token)?, method, methods),
    }
}

/// The same of a public or protected one.
fn put_exposed(
    alloc: Global,
    token: usize,
    method: Option<Method<'_>>,
    methods: &mut Row<ExportMethod>,
) -> Result<(), NoMemory>
    ensures { OnOk result (methods.new ≡ methods.old ++ exposed_entry token (option_map method_of method.entry)) }
{
    match method {
        Some(method) if is_exposed(method.flags) => {
            put_method(alloc, as_byte(token)?, method, methods)
        }
        _ => Ok(()),
    }
}

fn is_own(number: u32, found: Found) -> bool
    ensures { result ≡ is_own number (Some found) }
{
    !found.imported && found.class == number
}

/// Puts what a class inherits by a token.
fn put_inherited(
    alloc: Global,
    source: &Source<'_, '_>,
    class: Known<'_, '_>,
    token: usize,
    found: Option<Found>,
    methods: &mut Row<ExportMethod>,
) -> Result<(), NoMemory>
    requires { AreSources source.now }
    ensures { OnOk result (methods.new ≡ methods.old ++ inherited_at (world_in source.now) (class_of class.entry) token
        found) }
{
    match found {
        None => Ok(()),
        Some(found) if is_own(class.number(), found) => Ok(()),
        Some(found) => put_exposed(alloc, token, source.method_meant(found), methods),
    }
}

fn put_all_inherited(
    alloc: Global,
    source: &Source<'_, '_>,
    class: Known<'_, '_>,
    row: &[Option<Found>],
    methods: &mut Row<ExportMethod>,
) -> Result<(), NoMemory>
    requires { AreSources source.now }
    ensures { OnOk result (methods.new ≡ methods.old ++ inherited_from (world_in source.now) (class_of class.entry) 0
        row.now) }
{
    for token in 0..row.len() {
        put_inherited(alloc, source, class, token, row[token], methods)?;
    }
    Ok(())
}

/// Whether an interface declares such a method itself.
fn declares(class: Known<'_, '_>, slot: &Slot<'_>) -> bool
    ensures { result ≡ declares (class_of class.entry) (signature_in slot.now) }
{
    class.place(false, slot.name, slot.desc).is_some()
}

/// Puts what an interface inherits by a token, with the method that the token means.
fn put_from_above(
    alloc: Global,
    source: &Source<'_, '_>,
    class: Known<'_, '_>,
    token: usize,
    slot: &Slot<'_>,
    found: Option<Found>,
    methods: &mut Row<ExportMethod>,
) -> Result<(), NoMemory>
    requires { AreSources source.now }
    ensures { OnOk result (methods.new ≡ methods.old ++ super_at (world_in source.now) (class_of class.entry) token
        (signature_in slot.now) found) }
{
    match found {
        None => Ok(()),
        Some(_) if declares(class, slot) => Ok(()),
        Some(found) => put_super(alloc, token, source.method_meant(found), methods),
    }
}

/// The same at a slot of the interface.
fn put_at_slot(
    alloc: Global,
    source: &Source<'_, '_>,
    class: Known<'_, '_>,
    token: usize,
    slot: &Option<Slot<'_>>,
    found: Option<Found>,
    methods: &mut Row<ExportMethod>,
) -> Result<(), NoMemory>
    requires { AreSources source.now }
    ensures { (s : Signature) → option_map signature_in slot.now ≡ Some s → OnOk result (methods.new ≡ methods.old
        ++ super_at (world_in source.now) (class_of class.entry) token s found) }
{
    match slot {
        None => Ok(()),
        Some(slot) => put_from_above(alloc, source, class, token, slot, found, methods),
    }
}

fn put_all_from_above(
    alloc: Global,
    source: &Source<'_, '_>,
    class: Known<'_, '_>,
    slots: &[Option<Slot<'_>>],
    row: &[Option<Found>],
    methods: &mut Row<ExportMethod>,
) -> Result<(), NoMemory>
    requires { AreSources source.now }
    ensures { (ms : List Signature) → signs slots.now ≡ map Some ms → OnOk result (methods.new ≡ methods.old
        ++ supers_from (world_in source.now) (class_of class.entry) 0 ms row.now) }
{
    for token in 0..slots.len().min(row.len()) {
        put_at_slot(
            alloc,
            source,
            class,
            token,
            &slots[token],
            row[token],
            methods,
        )?;
    }
    Ok(())
}

/// Puts the methods that a class of the package inherits at the end.
pub(crate) fn put_inherited_methods(
    alloc: Global,
    source: &Source<'_, '_>,
    class: Known<'_, '_>,
    methods: &mut Row<ExportMethod>,
) -> Result<(), NoMemory>
    requires sources { AreSources source.now }
    requires numbered { IsNumbered source.now (class_of class) }
    requires own { (class_of class).is_imported ≡ false }
    ensures { OnOk result (methods.new ≡ methods.old ++ inherited (world_in source.now) (class_of class.entry)) }
{
    let row = source.methods_by_token(class);
    if class.is_interface() {
        let slots = interface_methods(alloc, source.world, class)?;
        put_all_from_above(alloc, source, class, &slots, row, methods)
    } else {
        put_all_inherited(alloc, source, class, row, methods)
    }
}
