//! The fields of a class in Descriptor (Java Card Virtual Machine Specification 2.2.2, section 6.13.2). Called
//! by `classes`.

ghost use Rattle.std.specs.Prelude.{◌≡◌, ◌++◌, ◌<◌, ◌^◌, length, IfOk, OnOk};
ghost use Rattle.cjc_components.specs.LowerScript.Sorts.{field_sort};
ghost use Rattle.cjc_tokens.specs.Fields.{is_constant};
ghost use Rattle.cjc_classes.specs.ClassInfo.Refs.{ref_of};
ghost use Rattle.cjc_classes.specs.TypeInfo.TypeTable.{offset_in};
ghost use Rattle.cjc_classes.specs.Descriptor.Working.Described.{field_at, field_if, field_type_by, fields_at};
ghost use Rattle.cjc_classes.specs.Descriptor.Working.Described.{inputs_of, place_at};

use crate::class_info::ClassRefs;
use crate::descriptor::flags::field_flags;
use crate::descriptor::parts::{Parts, cell_of, token_of};
use crate::type_info::{Sort, Types, field_sort};
use cjc_bytes::{NoMemory, Row, is_static};
use cjc_components::capread::{FieldDescriptor, FieldPlace, FieldType};
use cjc_world::classfile::{ClassTree, FieldTree};
use cjc_world::export_file::may_be_constant;
use std::alloc::Global;

/// A static final field of a number with a number as ConstantValue.
pub fn is_constant(field: &FieldTree) -> bool
    ensures { result ≡ is_constant field.now }
{
    may_be_constant(field.flags, field.desc.items()) && field.constant.is_some()
}

/// A primitive type itself, a reference type by the offset of its descriptor.
fn field_type<'a>(
    alloc: Global,
    types: &Types,
    refs: &ClassRefs,
    desc: &'a [u8],
) -> Result<FieldType, NoMemory>
    ensures { IfOk result (λ t. t ≡ field_type_by (offset_in types.now (ref_of refs.now) desc.now)
        (field_sort desc.now)) }
{
    match field_sort(desc)? {
        Sort::Boolean => Ok(FieldType::Boolean),
        Sort::Byte => Ok(FieldType::Byte),
        Sort::Short => Ok(FieldType::Short),
        Sort::Int => Ok(FieldType::Int),
        Sort::NoValue => Ok(FieldType::Described(0)),
        _ => {
            let offset = types.offset(alloc, refs, desc)?;
            Ok(FieldType::Described(offset))
        }
    }
}

/// A static field by its cell, an instance field by its class and its token.
fn place_at<'a>(
    parts: &Parts<'a>,
    number: u32,
    class: &'a [u8],
    place: u32,
    token: u8,
    field: &FieldTree,
) -> FieldPlace
    ensures { result ≡ place_at (inputs_of parts.now) number class.now place token field.now }
{
    if is_static(field.flags) {
        FieldPlace::Static(cell_of(parts.cells, number, place as usize))
    } else {
        FieldPlace::Instance {
            class: parts.refs.named(class),
            token,
        }
    }
}

/// The field at a place of the class of a number.
fn field_at<'a>(
    alloc: Global,
    parts: &Parts<'a>,
    number: u32,
    class: &'a [u8],
    place: u32,
    field: &'a FieldTree,
) -> Result<FieldDescriptor, NoMemory>
    ensures { IfOk result (λ d. d ≡ field_at (inputs_of parts.now) number class.now place field.now) }
{
    let type_ = field_type(alloc, parts.types, parts.refs, field.desc.items())?;
    let token = token_of(parts.tokens, number, place);
    Ok(FieldDescriptor {
        token,
        flags: field_flags(field.flags),
        place: place_at(parts, number, class, place, token, field),
        type_,
    })
}

/// Puts a field at the end, where it is no constant.
fn put_field<'a>(
    alloc: Global,
    row: &mut Row<FieldDescriptor>,
    parts: &Parts<'a>,
    number: u32,
    class: &'a [u8],
    place: u32,
    field: &'a FieldTree,
) -> Result<(), NoMemory>
    ensures { OnOk result (row.new ≡ row.old ++ field_if (inputs_of parts.now) number class.now place field.now) }
{
    if is_constant(field) {
        return Ok(());
    }
    row.push(field_at(alloc, parts, number, class, place, field)?)
}

/// The fields of a class that are no constants.
#[tactic(auto, using(crate::proofs::DescriptorLaws::Rows::each_next, crate::proofs::DescriptorLaws::Rows::each_end))]
pub(crate) fn fields_of<'a>(
    alloc: Global,
    parts: &Parts<'a>,
    number: u32,
    class: &'a ClassTree<'a>,
) -> Result<Row<FieldDescriptor>, NoMemory>
    ensures { let c = class.now in IfOk result (λ row. row ≡ fields_at (inputs_of parts.now) number c.name 0 c.fields) }
{
    let fields = class.fields.items();
    if fields.len() > 0xFFFF_FFFF {
        return Err(NoMemory);
    }
    let mut row = Row::new(alloc);
    for (place, field) in fields.iter().enumerate() {
        put_field(
            alloc,
            &mut row,
            parts,
            number,
            class.name.items(),
            place as u32,
            field,
        )?;
    }
    Ok(row)
}
