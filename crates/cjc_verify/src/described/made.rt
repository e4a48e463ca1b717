//! What a package wants of Descriptor, put together from its class files, its tokens, class_refs and static cells (Java
//! Card Virtual Machine Specification 2.2.2, section 6.13). It knows no component but by class_refs.

ghost use Rattle.std.specs.Prelude.{◌≡◌, ◌+◌, ◌++◌, ◌<◌, ◌^◌, length, IfOk, OnOk};
ghost use Rattle.std.specs.List.{flat_map};
ghost use Rattle.cjc_card_acts.specs.Script.Sorts.{field_sort};
ghost use Rattle.cjc_classes.specs.ClassInfo.Refs.{ref_of};
ghost use Rattle.cjc_classes.specs.Descriptor.Working.Described.{number_in, token_in};
ghost use Rattle.cjc_verify.specs.Made.{inputs_of};
ghost use Rattle.cjc_verify.specs.WantedMembers.{added_by, card_nibbles, class_by, classes_by, field_by, field_if};
ghost use Rattle.cjc_verify.specs.WantedMembers.{fields_by, method_by, method_if, methods_by, own_methods_by, place_by};
ghost use Rattle.cjc_verify.specs.WantedMembers.{type_by};

use crate::described::desc::card_nibbles;
use crate::described::wanted::{WantedClass, WantedField, WantedMethod, WantedType};
use cjc_bytes::{ACC_ABSTRACT, ACC_PUBLIC, MemberId, NoMemory, Row, is_static};
use cjc_capread::FieldPlace;
use cjc_classes::class_info::ClassRefs;
use cjc_classes::descriptor::{class_flags, field_flags, is_constant, method_flags};
use cjc_classes::tokens::Tokens;
use cjc_classes::type_info::{Sort, field_sort};
use cjc_world::classfile::{ClassTree, FieldTree, MethodTree};
use cjc_world::{Found, World};
use std::alloc::Global;

const INITIALISER: &[u8] = b"<clinit>";

/// What is made of a package before.
#[derive(Drop)]
pub(crate) struct Made<'a> {
    pub(crate) world: &'a World<'a>,
    pub(crate) tokens: &'a Tokens,
    /// The class_ref of each name.
    pub(crate) refs: &'a ClassRefs,
    /// By the number of a class and of its field the offset of the field's cell.
    pub(crate) cells: &'a [Row<u64>],
}

/// The offset of the cell of a field; 0 where none is told.
fn cell_of(cells: &[Row<u64>], class: u32, field: usize) -> u64
    ensures { result ≡ number_in cells.now class field }
{
    match cells.get(class as usize) {
        Some(row) => match row.items().get(field) {
            Some(offset) => *offset,
            None => 0,
        },
        None => 0,
    }
}

/// The token of a member of the package; 0xFF is none.
fn token_of(tokens: &Tokens, class: u32, member: u32) -> u8
    ensures { result ≡ token_in tokens.now class member }
{
    tokens
        .member_token(Found {
            imported: false,
            class,
            member,
        })
        .unwrap_or(0xFF)
}

// ---- fields

/// The type of a field.
fn field_type(alloc: Global, refs: &ClassRefs, desc: &[u8]) -> Result<WantedType, NoMemory>
    ensures { IfOk result (λ t. t ≡ type_by (card_nibbles (ref_of refs.now) desc.now) (field_sort desc.now)) }
{
    match field_sort(desc)? {
        Sort::Boolean => Ok(WantedType::Boolean),
        Sort::Byte => Ok(WantedType::Byte),
        Sort::Short => Ok(WantedType::Short),
        Sort::Int => Ok(WantedType::Int),
        Sort::NoValue => Ok(WantedType::NoValue),
        _ => {
            let nibbles = card_nibbles(alloc, refs, desc)?;
            Ok(WantedType::Described(nibbles))
        }
    }
}

/// A static field by its cell, an instance field by its class and its token.
fn place_by<'a>(
    made: &Made<'a>,
    number: u32,
    class: &'a [u8],
    place: u32,
    token: u8,
    field: &FieldTree,
) -> FieldPlace
    ensures { result ≡ place_by (inputs_of made.now) number class.now place token field.now }
{
    if is_static(field.flags) {
        FieldPlace::Static(cell_of(made.cells, number, place as usize))
    } else {
        FieldPlace::Instance {
            class: made.refs.named(class),
            token,
        }
    }
}

/// The field at a place of the class of a number.
fn field_by<'a>(
    alloc: Global,
    made: &Made<'a>,
    number: u32,
    class: &'a [u8],
    place: u32,
    field: &'a FieldTree,
) -> Result<WantedField, NoMemory>
    ensures { IfOk result (λ f. f ≡ field_by (inputs_of made.now) number class.now place field.now) }
{
    let type_ = field_type(alloc, made.refs, field.desc.items())?;
    let token = token_of(made.tokens, number, place);
    Ok(WantedField {
        token,
        flags: field_flags(field.flags),
        place: place_by(made, number, class, place, token, field),
        type_,
    })
}

/// Puts a field at the end, where it is no constant.
fn put_field<'a>(
    alloc: Global,
    row: &mut Row<WantedField>,
    made: &Made<'a>,
    number: u32,
    class: &'a [u8],
    place: u32,
    field: &'a FieldTree,
) -> Result<(), NoMemory>
    ensures { OnOk result (row.new ≡ row.old ++ field_if (inputs_of made.now) number class.now place field.now) }
{
    if is_constant(field) {
        return Ok(());
    }
    row.push(field_by(alloc, made, number, class, place, field)?)
}

/// The fields of a class that are no constants.
#[tactic(auto, using(cjc_classes::proofs::DescriptorLaws::Rows::each_next, cjc_classes::proofs::DescriptorLaws::Rows::each_end))]
fn fields_of<'a>(
    alloc: Global,
    made: &Made<'a>,
    number: u32,
    class: &'a ClassTree<'a>,
) -> Result<Row<WantedField>, NoMemory>
    ensures { let c = class.now in IfOk result (λ row. row ≡ fields_by (inputs_of made.now) number c.name 0 c.fields) }
{
    let fields = class.fields.items();
    if fields.len() > 0xFFFF_FFFF {
        return Err(NoMemory);
    }
    let mut row = Row::new(alloc);
    for (place, field) in fields.iter().enumerate() {
        put_field(
            alloc,
            &mut row,
            made,
            number,
            class.name.items(),
            place as u32,
            field,
        )?;
    }
    Ok(row)
}

// ---- methods

/// A method by its flags, its name and its descriptor, at a place of the class of a number.
fn method_by<'a>(
    alloc: Global,
    made: &Made<'a>,
    number: u32,
    place: usize,
    flags: u16,
    name: &'a [u8],
    desc: &'a [u8],
) -> Result<WantedMethod, NoMemory>
    ensures { IfOk result (λ m. m ≡ method_by (inputs_of made.now) number place flags name.now desc.now) }
{
    if place > 0xFFFF_FFFF {
        return Err(NoMemory);
    }
    let nibbles = card_nibbles(alloc, made.refs, desc)?;
    Ok(WantedMethod {
        token: token_of(made.tokens, number, place as u32),
        flags: method_flags(flags, name),
        nibbles,
    })
}

/// Puts a method at the end, where it is no <clinit>.
fn put_method<'a>(
    alloc: Global,
    row: &mut Row<WantedMethod>,
    made: &Made<'a>,
    number: u32,
    place: usize,
    method: &'a MethodTree<'a>,
) -> Result<(), NoMemory>
    ensures { OnOk result (row.new ≡ row.old ++ method_if (inputs_of made.now) number place method.now) }
{
    if method.name.items() == INITIALISER {
        return Ok(());
    }
    row.push(method_by(
        alloc,
        made,
        number,
        place,
        method.flags,
        method.name.items(),
        method.desc.items(),
    )?)
}

/// Puts the methods of a class file at the end, of which the first has this place.
#[tactic(auto, using(cjc_classes::proofs::DescriptorLaws::Rows::each_next_from, cjc_classes::proofs::DescriptorLaws::Rows::each_end_from))]
fn put_own<'a>(
    alloc: Global,
    row: &mut Row<WantedMethod>,
    made: &Made<'a>,
    number: u32,
    first: usize,
    methods: &'a [MethodTree<'a>],
) -> Result<(), NoMemory>
    requires { first + length methods.now < 2 ^ 64 }
    ensures { OnOk result (row.new ≡ row.old ++ own_methods_by (inputs_of made.now) number first methods.now) }
{
    for (place, method) in methods.iter().enumerate() {
        put_method(alloc, row, made, number, first + place, method)?;
    }
    Ok(())
}

/// Puts the methods that a class got at the end, of which the first has this place.
#[tactic(auto, using(cjc_classes::proofs::DescriptorLaws::Rows::each_next_from, cjc_classes::proofs::DescriptorLaws::Rows::each_end_from))]
fn put_added<'a>(
    alloc: Global,
    row: &mut Row<WantedMethod>,
    made: &Made<'a>,
    number: u32,
    first: usize,
    added: &'a [MemberId],
) -> Result<(), NoMemory>
    requires { first + length added.now < 2 ^ 64 }
    ensures { OnOk result (row.new ≡ row.old ++ added_by (inputs_of made.now) number first added.now) }
{
    for (place, id) in added.iter().enumerate() {
        let flags = ACC_PUBLIC + ACC_ABSTRACT;
        let method = method_by(
            alloc,
            made,
            number,
            first + place,
            flags,
            id.name.items(),
            id.desc.items(),
        )?;
        row.push(method)?;
    }
    Ok(())
}

/// The methods of a class, those that it got behind its own.
fn methods_of<'a>(
    alloc: Global,
    made: &Made<'a>,
    number: u32,
    class: &'a ClassTree<'a>,
    added: &'a [MemberId],
) -> Result<Row<WantedMethod>, NoMemory>
    ensures { IfOk result (λ row. row ≡ methods_by (inputs_of made.now) number added.now class.now) }
{
    let fields = class.fields.items().len();
    let methods = class.methods.items();
    if fields > 0xFFFF_FFFF || methods.len() > 0xFFFF_FFFF || added.len() > 0xFFFF_FFFF {
        return Err(NoMemory);
    }
    let mut row = Row::new(alloc);
    put_own(alloc, &mut row, made, number, fields, methods)?;
    put_added(alloc, &mut row, made, number, fields + methods.len(), added)?;
    Ok(row)
}

// ---- classes

/// A class or interface.
fn class_by<'a>(
    alloc: Global,
    made: &Made<'a>,
    number: u32,
    class: &'a ClassTree<'a>,
    added: &'a [MemberId],
) -> Result<WantedClass, NoMemory>
    ensures { IfOk result (λ c. c ≡ class_by (inputs_of made.now) number added.now class.now) }
{
    let fields = fields_of(alloc, made, number, class)?;
    let methods = methods_of(alloc, made, number, class, added)?;
    Ok(WantedClass {
        token: made.tokens.class_token(number).unwrap_or(0xFF),
        flags: class_flags(class.flags),
        fields,
        methods,
    })
}

/// Puts the class of a number at the end, where there is one.
fn put_class(
    alloc: Global,
    row: &mut Row<WantedClass>,
    made: &Made<'_>,
    number: u32,
) -> Result<(), NoMemory>
    ensures { OnOk result (row.new ≡ row.old ++ classes_by (inputs_of made.now) number) }
{
    let world = made.world;
    match world.classes().items().get(number as usize) {
        Some(class) => {
            let added = world.added(number).items();
            row.push(class_by(alloc, made, number, class, added)?)
        }
        None => Ok(()),
    }
}

/// The classes of these numbers.
pub(crate) fn wanted_classes(
    alloc: Global,
    made: &Made<'_>,
    order: &[u32],
) -> Result<Row<WantedClass>, NoMemory>
    ensures { let q = made.now in IfOk result (λ row. row ≡ flat_map (classes_by (inputs_of q)) order.now) }
{
    let mut row = Row::new(alloc);
    for number in order {
        put_class(alloc, &mut row, made, *number)?;
    }
    Ok(row)
}
