//! The tokens of one class or interface and of its members, from the rows of slots that it has, or that it
//! breaks rule 413. Called by `assigning`.

ghost use Rattle.std.specs.Prelude.{◌≡◌, ◌≤◌, ◌<◌, ◌^◌, ◌+◌, ◌++◌, ◌||◌, ◌&&◌, List, map, length, nat_lt, count_by};
ghost use Rattle.std.specs.Prelude.{if◌then◌else◌, true, false, option_map, IfOk, OnOk, Some, None};
ghost use Rattle.cjc_world.specs.Classes.{all_classes, declared, method_of_class};
ghost use Rattle.cjc_bytes.specs.AccessFlags.{is_interface};
ghost use Rattle.cjc_world.specs.Added.{added, named_by};
ghost use Rattle.cjc_tokens.specs.Fields.{instance_cells, is_open_static};
ghost use Rattle.cjc_tokens.specs.Lines.{line_at};
ghost use Rattle.cjc_tokens.specs.Members.{Signature};
ghost use Rattle.cjc_tokens.specs.Methods.{interface_token, is_open_bound};
ghost use Rattle.cjc_world.specs.Exported.{is_exported};
ghost use Rattle.cjc_tokens.specs.Working.{AreRowsOf, AreTokensOf, is_high_class, is_high_interface, methods_in};
ghost use Rattle.cjc_tokens.specs.Working.{signature_in, signs, slot_token};
ghost use Rattle.cjc_world.specs.Lookup.{method_of_interface};

use crate::fields::{field_tokens, instance_tokens, open_statics};
use crate::indexed::IndexedRow;
use crate::interfaces::interface_methods;
use crate::methods::{
    any_high, any_high_added, as_byte, open_bounds, put_added_tokens, put_method_tokens,
};
use crate::slot::{Rows, Slot, is_initialiser, token};
use crate::tokens::ClassTokens;
use crate::told::{Shown, told_at};
use cjc_bytes::{MemberId, NoMemory, Row};
use cjc_world::classfile::{ClassTree, MethodTree};
use cjc_world::{Found, Known, World};
use std::alloc::Global;

/// The methods of a row by their tokens.
fn methods_of(alloc: Global, row: &[Option<Slot<'_>>]) -> Result<Row<Option<Found>>, NoMemory>
    ensures { IfOk result (λ methods. methods ≡ methods_in row.now) }
{
    let mut methods = Row::new(alloc);
    for slot in row {
        match slot {
            None => methods.push(None)?,
            Some(slot) => methods.push(slot.method)?,
        }
    }
    Ok(methods)
}

/// The token of a class that is exported behind so many.
fn own_token(exported: bool, before: u32) -> Option<u8>
    requires { exported ≡ true → before < 255 }
    ensures { result ≡ (if exported then Some before else None) }
{
    if exported { Some(before as u8) } else { None }
}

/// Whether a class that is no interface breaks 413.
fn is_high_class(
    exported: bool,
    shown: &Shown<'_, '_>,
    hidden: &IndexedRow<'_, '_>,
    class: &ClassTree<'_>,
    added: &[MemberId],
) -> bool
    ensures { result ≡ is_high_class exported (slot_token shown.now) (signs hidden.now) class.now added.now }
{
    let methods = class.methods.items();
    any_high(shown, hidden, methods)
        || any_high_added(shown, added)
        || (exported && open_bounds(methods) > 255)
        || (exported && open_statics(class.fields.items()) > 255)
}

/// The tokens of a class that is no interface; None where it breaks 413.
pub(crate) fn class_tokens<'w, 'a>(
    alloc: Global,
    world: &'w World<'a>,
    applets: bool,
    before: u32,
    number: u32,
    class: &'w ClassTree<'a>,
    rows: &Rows<'w>,
    ids: &[MemberId],
) -> Result<Option<ClassTokens>, NoMemory>
    requires plain { is_interface class.now.flags ≡ false }
    requires few { length class.now.fields < 2 ^ 32 }
    requires cells { instance_cells class.now.fields ≤ 255 }
    requires before { is_exported (all_classes world.now) applets (declared number class.now) ≡ true → before < 255 }
    requires rows { AreRowsOf (line_at (all_classes world.now) (declared number class.now)) rows.now }
    requires added { ids.now ≡ map (named_by class.now.name) (added (all_classes world.now)
        (declared number class.now)) }
    ensures { IfOk result (AreTokensOf (all_classes world.now) applets before number class.now) }
{
    let exported = world.is_exported(applets, Known::Declared(number, class));
    let told = told_at(alloc, world, Known::Declared(number, class))?;
    let public_methods = methods_of(alloc, &rows.shown)?;
    let hidden = IndexedRow::new(alloc, &rows.hidden)?;
    let slots = IndexedRow::new(alloc, &rows.shown)?;
    let shown = Shown {
        row: slots,
        methods: public_methods.items(),
        told: &told,
    };
    if is_high_class(exported, &shown, &hidden, class, ids) {
        return Ok(None);
    }
    let mut members = field_tokens(alloc, exported, class.fields.items())?;
    put_method_tokens(
        &mut members,
        &shown,
        &hidden,
        exported,
        class.methods.items(),
    )?;
    put_added_tokens(&mut members, &shown, ids)?;
    drop(shown);
    let instances = instance_tokens(alloc, class.fields.items())?;
    let package_methods = methods_of(alloc, &rows.hidden)?;
    Ok(Some(ClassTokens {
        class: own_token(exported, before),
        members,
        instances,
        public_methods,
        package_methods,
    }))
}

/// The token of a method of an interface.
fn interface_byte(methods: &[Option<Slot<'_>>], method: &MethodTree<'_>) -> Option<u8>
    requires { length methods.now ≤ 128 }
    ensures { (ss : List Signature) → signs methods.now ≡ map Some ss
        → result ≡ interface_token ss (method_of_class method.now) }
{
    let name = method.name.items();
    let desc = method.desc.items();
    if is_initialiser(name) {
        None
    } else {
        as_byte(token(methods, name, desc), 0)
    }
}

/// Puts the tokens of an interface's own methods at the end.
fn put_interface_tokens(
    tokens: &mut Row<Option<u8>>,
    methods: &[Option<Slot<'_>>],
    own: &[MethodTree<'_>],
) -> Result<(), NoMemory>
    requires { length methods.now ≤ 128 }
    ensures { (ss : List Signature) → signs methods.now ≡ map Some ss → OnOk result (tokens.new ≡ tokens.old
        ++ map (interface_token ss) (map method_of_class own.now)) }
{
    for method in own {
        tokens.push(interface_byte(methods, method))?;
    }
    Ok(())
}

/// The method that a token of an interface means, from its slot.
fn meant_in(world: &World<'_>, interface: &[u8], slot: &Option<Slot<'_>>) -> Option<Found>
    ensures { (s : Signature) → option_map signature_in slot.now ≡ Some s
        → result ≡ method_of_interface (all_classes world.now) interface.now s.name s.desc }
{
    match slot {
        Some(slot) => world.method_of_interface(interface, slot.name, slot.desc),
        None => None,
    }
}

/// The methods that the tokens of an interface mean.
fn interface_row(
    alloc: Global,
    world: &World<'_>,
    interface: &[u8],
    methods: &[Option<Slot<'_>>],
) -> Result<Row<Option<Found>>, NoMemory>
    ensures { (ss : List Signature) → signs methods.now ≡ map Some ss
        → IfOk result (λ row. row ≡ map (λ s. method_of_interface (all_classes world.now) interface.now s.name s.desc)
        ss) }
{
    let mut row = Row::new(alloc);
    for slot in methods {
        row.push(meant_in(world, interface, slot))?;
    }
    Ok(row)
}

/// Whether an interface breaks 413.
fn is_high_interface(exported: bool, methods: usize, class: &ClassTree<'_>) -> bool
    ensures { result ≡ is_high_interface exported methods class.now }
{
    methods > 128 || (exported && open_statics(class.fields.items()) > 255)
}

/// The tokens of an interface; None where it breaks 413.
pub(crate) fn interface_tokens(
    alloc: Global,
    world: &World<'_>,
    applets: bool,
    before: u32,
    number: u32,
    class: &ClassTree<'_>,
) -> Result<Option<ClassTokens>, NoMemory>
    requires plain { is_interface class.now.flags ≡ true }
    requires few { length class.now.fields < 2 ^ 32 }
    requires cells { instance_cells class.now.fields ≤ 255 }
    requires before { is_exported (all_classes world.now) applets (declared number class.now) ≡ true → before < 255 }
    ensures { IfOk result (AreTokensOf (all_classes world.now) applets before number class.now) }
{
    let exported = world.is_exported(applets, Known::Declared(number, class));
    let methods = interface_methods(alloc, world, Known::Declared(number, class))?;
    let methods = methods.as_slice();
    if is_high_interface(exported, methods.len(), class) {
        return Ok(None);
    }
    let mut members = field_tokens(alloc, exported, class.fields.items())?;
    put_interface_tokens(&mut members, methods, class.methods.items())?;
    let instances = instance_tokens(alloc, class.fields.items())?;
    let public_methods = interface_row(alloc, world, class.name.items(), methods)?;
    Ok(Some(ClassTokens {
        class: own_token(exported, before),
        members,
        instances,
        public_methods,
        package_methods: Row::new(alloc),
    }))
}
