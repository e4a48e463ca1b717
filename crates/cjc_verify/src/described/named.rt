//! The descriptors of the members that entries of the constant pool name, as the files of the members give them (Java
//! Card Virtual Machine Specification 2.2.2, section 6.7). Called by `entries`.

ghost use Rattle.std.specs.Prelude.{◌≡◌, ◌==◌, ◌&&◌, not, is_none, is_some, false, true, option_and_then, option_map};
ghost use Rattle.std.specs.Prelude.{position, slice_get};
ghost use Rattle.std.specs.Option.{option_copied};
ghost use Rattle.cjc_bytes.specs.AccessFlags.{is_static};
ghost use Rattle.cjc_card_calls.specs.Files.Files.{classes_at};
ghost use Rattle.cjc_world.specs.ExportFile.Supers.{is_virtual, virtual_method};
ghost use Rattle.cjc_classes.specs.ClassOrder.Classes.Numbers.{declared_at};
ghost use Rattle.cjc_classes.specs.LowerComponents.Class.{superclass};
ghost use Rattle.cjc_methods.specs.Tokens.Tokens.{field_of_token, method_of_token};
ghost use Rattle.cjc_world.specs.Classes.{all_classes, class_at as file_class, class_named, declared};
ghost use Rattle.cjc_world.specs.Working.Known.{class_of};
ghost use Rattle.cjc_verify.specs.Entries.{desc_in_export, desc_of_own, own_method_desc, own_tree};
ghost use Rattle.cjc_verify.specs.Entries.{virtual_of_number};
ghost use Rattle.cjc_verify.specs.Named.{exported, field_desc, first_of, found_desc, instance_field, line_of};
ghost use Rattle.cjc_verify.specs.Named.{line_named, method_desc, method_desc_at, own_field_desc, own_virtual_desc};
ghost use Rattle.cjc_verify.specs.Named.{static_field};
ghost use Rattle.cjc_verify.specs.Named.{virtual_desc_in};
ghost use Rattle.cjc_verify.specs.Pairs.{class_at, world};

use crate::methods::member_desc;
use crate::named::{imported_method, is_virtual, line_named};
use crate::package::Package;
use cjc_bytes::is_static;
use cjc_world::classfile::ClassTree;
use cjc_world::export_file::{ExportClass, ExportField, ExportMethod};
use cjc_world::{Found, Known, World};

// ---- members of imported classes

/// Whether a field is an instance field of a token.
fn is_instance_field(field: &ExportField, token: u8) -> bool
    ensures { result ≡ ((field.now.token == token) && not (is_static field.now.flags) && is_none field.now.constant) }
{
    field.token == token && !is_static(field.flags) && field.constant.is_none()
}

/// Whether a field is a static field of a token.
fn is_static_field(field: &ExportField, token: u8) -> bool
    ensures { result ≡ ((field.now.token == token) && is_static field.now.flags && is_none field.now.constant) }
{
    field.token == token && is_static(field.flags) && field.constant.is_none()
}

/// Whether a method is a virtual one of a token.
fn is_virtual_with(method: &ExportMethod, token: u8) -> bool
    ensures { result ≡ (is_virtual method.now && (method.now.token == token)) }
{
    is_virtual(method) && method.token == token
}

/// The instance field of a token that a class itself lists.
fn instance_field(class: &ExportClass, token: u8) -> Option<&ExportField>
    ensures { option_copied result ≡ instance_field token class.now }
{
    class
        .fields
        .items()
        .iter()
        .find(|field| is_instance_field(field, token))
}

/// The static field of a token.
fn static_field(class: &ExportClass, token: u8) -> Option<&ExportField>
    ensures { option_copied result ≡ static_field token class.now }
{
    class
        .fields
        .items()
        .iter()
        .find(|field| is_static_field(field, token))
}

/// The virtual method of a token that a class itself lists.
fn virtual_method(class: &ExportClass, token: u8) -> Option<&ExportMethod>
    ensures { option_copied result ≡ virtual_method token class.now }
{
    class
        .methods
        .items()
        .iter()
        .find(|method| is_virtual_with(method, token))
}

/// The first instance field of a token that one of these classes lists.
pub(crate) fn first_field<'a>(line: &[&'a ExportClass], token: u8) -> Option<&'a ExportField>
    ensures { option_copied result ≡ first_of (instance_field token) (classes_at line.now) }
{
    for class in line {
        if let Some(field) = instance_field(*class, token) {
            return Some(field);
        }
    }
    None
}

/// The first virtual method of a token that one of these classes lists.
pub(crate) fn first_virtual<'a>(line: &[&'a ExportClass], token: u8) -> Option<&'a ExportMethod>
    ensures { option_copied result ≡ first_of (virtual_method token) (classes_at line.now) }
{
    for class in line {
        if let Some(method) = virtual_method(*class, token) {
            return Some(method);
        }
    }
    None
}

/// The descriptor of a field of an export file.
pub(crate) fn field_desc<'a>(field: Option<&'a ExportField>) -> Option<&'a [u8]>
    ensures { option_map (λ desc. desc.now) result ≡ field_desc (option_copied field.entry) }
{
    match field {
        Some(field) => Some(field.desc.items()),
        None => None,
    }
}

/// The descriptor of a method of an export file.
pub(crate) fn method_desc<'a>(method: Option<&'a ExportMethod>) -> Option<&'a [u8]>
    ensures { option_map (λ desc. desc.now) result ≡ method_desc (option_copied method.entry) }
{
    match method {
        Some(method) => Some(method.desc.items()),
        None => None,
    }
}

/// An imported class by the tokens of its package and its own, and what stands above it.
pub(crate) fn line_of<'a>(pair: &Package<'a>, import: u8, class: u8) -> &'a [&'a ExportClass]
    ensures { let files = pair.now.files in classes_at result.now ≡ line_of files.exports (exported pair.now import
        class) }
{
    pair.files.line(u32::from(import), class)
}

/// The static field of an imported class.
pub(crate) fn imported_field<'a>(
    pair: &Package<'a>,
    import: u8,
    class: u8,
    token: u8,
) -> Option<&'a ExportField>
    ensures { option_copied result ≡ option_and_then (static_field token) (exported pair.now import class) }
{
    match pair.exported(import, class) {
        Some(class) => static_field(class, token),
        None => None,
    }
}

// ---- members of the package

/// The place of an offset among those of infos.
fn place_of(starts: &[u64], offset: u64) -> Option<usize>
    ensures { result ≡ position (λ at. at == offset) starts.now }
{
    starts.iter().position(|start| *start == offset)
}

/// The number at a place.
fn number_at(order: &[u32], place: usize) -> Option<u32>
    ensures { result ≡ slice_get order.now place }
{
    order.get(place).copied()
}

/// The number of the class whose info begins at an offset.
fn number_of(pair: &Package<'_>, offset: u64) -> Option<u32>
    ensures { class_at pair.now offset ≡ option_and_then (declared_at pair.now.files.classes) result }
{
    match place_of(pair.starts, offset) {
        Some(place) => number_at(pair.order, place),
        None => None,
    }
}

fn tree_at<'a>(classes: &'a [ClassTree<'a>], number: u32) -> Option<&'a ClassTree<'a>>
    ensures { option_copied result ≡ slice_get classes.now number }
{
    classes.get(number as usize)
}

/// The class of a number.
fn tree_of<'a>(pair: &Package<'a>, number: u32) -> Option<&'a ClassTree<'a>>
    ensures { option_copied result ≡ slice_get pair.now.files.classes number }
{
    tree_at(pair.world.classes().items(), number)
}

/// The descriptor of a field of a class file by its place.
fn desc_at<'a>(class: &'a ClassTree<'_>, place: u32) -> Option<&'a [u8]>
    ensures { option_map (λ desc. desc.now) result ≡ desc_of_own class.now place }
{
    match class.fields.items().get(place as usize) {
        Some(field) => Some(field.desc.items()),
        None => None,
    }
}

/// The place of the field of a token of the class of a number.
fn place_under(pair: &Package<'_>, number: u32, token: u8) -> Option<u32>
    ensures { result ≡ field_of_token pair.now.tokens number token }
{
    pair.tokens.field_by_token(number, token)
}

/// The descriptor of the instance field that the class of a number declares under a token.
fn field_under<'a>(
    pair: &Package<'a>,
    number: u32,
    class: &'a ClassTree<'a>,
    token: u8,
) -> Option<&'a [u8]>
    ensures { option_map (λ desc. desc.now) result ≡ own_field_desc pair.now token (declared number class.now) }
{
    match place_under(pair, number, token) {
        Some(place) => desc_at(class, place),
        None => None,
    }
}

/// The same, where there is such a class.
fn own_field_desc<'a>(pair: &Package<'a>, number: u32, token: u8) -> Option<&'a [u8]>
    ensures { option_map (λ desc. desc.now) result ≡ option_and_then (own_field_desc pair.now token)
        (declared_at pair.now.files.classes number) }
{
    match tree_of(pair, number) {
        Some(class) => field_under(pair, number, class, token),
        None => None,
    }
}

/// The descriptor of a method of an export file's class by its place among the members.
fn desc_in_export<'a>(class: &'a ExportClass, member: u32) -> &'a [u8]
    ensures { result.now ≡ desc_in_export class.now member }
{
    let place = (member as usize).saturating_sub(class.fields.items().len());
    match class.methods.items().get(place) {
        Some(method) => method.desc.items(),
        None => &[],
    }
}

/// The descriptor of a method of an imported class.
fn listed_method_desc<'a>(world: &'a World<'a>, number: u32, member: u32) -> Option<&'a [u8]>
    ensures { option_map (λ desc. desc.now) result ≡ own_method_desc world.now true number member }
{
    match world.class_at(true, number) {
        Some(Known::Imported(_, class)) => Some(desc_in_export(class, member)),
        Some(Known::Declared(_, _)) => None,
        None => None,
    }
}

/// Whether the class of a number is one of the package.
fn is_own(world: &World<'_>, number: u32) -> bool
    ensures { result ≡ is_some (file_class (all_classes world.now) false number) }
{
    world.class_at(false, number).is_some()
}

/// The class file of a class of the package.
fn own_tree<'a>(world: &'a World<'a>, number: u32) -> Option<&'a ClassTree<'a>>
    ensures { option_copied result ≡ own_tree world.now number }
{
    if is_own(world, number) {
        tree_at(world.classes().items(), number)
    } else {
        None
    }
}

/// The descriptor of a method of a class of the package.
fn declared_method_desc<'a>(world: &'a World<'a>, number: u32, member: u32) -> Option<&'a [u8]>
    ensures { option_map (λ desc. desc.now) result ≡ own_method_desc world.now false number member }
{
    match own_tree(world, number) {
        Some(class) => {
            let added = world.added(number).items();
            Some(member_desc(class, added, member))
        }
        None => None,
    }
}

/// The descriptor of a method that a token means.
fn found_desc<'a>(pair: &Package<'a>, found: Found) -> Option<&'a [u8]>
    ensures { option_map (λ desc. desc.now) result ≡ found_desc pair.now found }
{
    if found.imported {
        listed_method_desc(pair.world, found.class, found.member)
    } else {
        declared_method_desc(pair.world, found.class, found.member)
    }
}

/// The method that a token means in the class of a number.
fn method_under(pair: &Package<'_>, number: u32, token: u8) -> Option<Found>
    ensures { result ≡ method_of_token pair.now.tokens number token }
{
    pair.tokens.virtual_by_token(number, token)
}

/// The descriptor of the virtual method that a token means in the class of a number.
fn virtual_of_number<'a>(pair: &Package<'a>, number: u32, token: u8) -> Option<&'a [u8]>
    ensures { option_map (λ desc. desc.now) result ≡ virtual_of_number pair.now token number }
{
    match method_under(pair, number, token) {
        Some(found) => found_desc(pair, found),
        None => None,
    }
}

/// The same, where there is such a class.
fn own_virtual_desc<'a>(pair: &Package<'a>, number: u32, token: u8) -> Option<&'a [u8]>
    ensures { option_map (λ desc. desc.now) result ≡ option_and_then (own_virtual_desc pair.now token)
        (declared_at pair.now.files.classes number) }
{
    match tree_of(pair, number) {
        Some(_) => virtual_of_number(pair, number, token),
        None => None,
    }
}

/// The class of a name.
fn class_named<'a>(pair: &Package<'a>, name: &[u8]) -> Option<Known<'a, 'a>>
    ensures { option_map class_of result ≡ class_named (world pair.now) name.now }
{
    pair.world.class_named(name)
}

/// The descriptor of the virtual method of a token in an imported class of a name.
fn listed_virtual_desc<'a>(pair: &Package<'a>, name: &[u8], token: u8) -> Option<&'a [u8]>
    ensures { option_map (λ desc. desc.now) result ≡ method_desc (first_of (virtual_method token)
        (line_named pair.now.loaded name.now)) }
{
    method_desc(first_virtual(line_named(pair, name), token))
}

/// The descriptor of the virtual method of a token in the class of a name, of the package or imported.
fn virtual_desc_in<'a>(pair: &Package<'a>, name: &[u8], token: u8) -> Option<&'a [u8]>
    ensures { option_map (λ desc. desc.now) result ≡ virtual_desc_in pair.now token (class_named (world pair.now)
        name.now) }
{
    match class_named(pair, name) {
        Some(Known::Declared(number, _)) => virtual_of_number(pair, number, token),
        Some(Known::Imported(_, class)) => listed_virtual_desc(pair, class.name.items(), token),
        None => None,
    }
}

/// The descriptor of the virtual method of a token above the class of a number.
fn desc_above<'a>(pair: &Package<'a>, number: u32, token: u8) -> Option<&'a [u8]>
    ensures { option_map (λ desc. desc.now) result ≡ option_and_then (λ c. virtual_desc_in pair.now token
        (class_named (world pair.now) (superclass c))) (declared_at pair.now.files.classes number) }
{
    match tree_of(pair, number) {
        Some(class) => virtual_desc_in(pair, class.superclass.items(), token),
        None => None,
    }
}

// ---- of a class by where its info begins

/// The descriptor of the instance field that a class declares under a token.
pub(crate) fn field_inside<'a>(pair: &Package<'a>, offset: u64, token: u8) -> Option<&'a [u8]>
    ensures { option_map (λ desc. desc.now) result ≡ option_and_then (own_field_desc pair.now token)
        (class_at pair.now offset) }
{
    match number_of(pair, offset) {
        Some(number) => own_field_desc(pair, number, token),
        None => None,
    }
}

/// The descriptor of the virtual method that a token means in a class.
pub(crate) fn virtual_inside<'a>(pair: &Package<'a>, offset: u64, token: u8) -> Option<&'a [u8]>
    ensures { option_map (λ desc. desc.now) result ≡ option_and_then (own_virtual_desc pair.now token)
        (class_at pair.now offset) }
{
    match number_of(pair, offset) {
        Some(number) => own_virtual_desc(pair, number, token),
        None => None,
    }
}

/// The descriptor of the virtual method that a token means in the superclass of a class.
pub(crate) fn super_inside<'a>(pair: &Package<'a>, offset: u64, token: u8) -> Option<&'a [u8]>
    ensures { option_map (λ desc. desc.now) result ≡ option_and_then (λ c. virtual_desc_in pair.now token
        (class_named (world pair.now) (superclass c))) (class_at pair.now offset) }
{
    match number_of(pair, offset) {
        Some(number) => desc_above(pair, number, token),
        None => None,
    }
}

/// The descriptor of the method whose header stands at an offset.
pub(crate) fn method_inside<'a>(pair: &Package<'a>, offset: u64) -> Option<&'a [u8]>
    ensures { option_map (λ desc. desc.now) result ≡ method_desc_at pair.now offset }
{
    match pair.method_at(offset) {
        Some(known) => Some(known.desc.items()),
        None => None,
    }
}
