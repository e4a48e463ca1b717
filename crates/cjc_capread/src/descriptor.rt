//! The component Descriptor: classes with their members, and all types (6.13). Called by `component`. It takes any
//! nibbles, and does not ask what offsets lead to.

ghost use Rattle.std.specs.Prelude.{◌≡◌, ◌++◌, IfOk, OnOk};
ghost use Rattle.std.specs.List.{flat_map};
ghost use Rattle.cjc_bytes.specs.Format.{repeated, before};
ghost use Rattle.cjc_bytes.specs.AccessFlags.{is_static};
ghost use Rattle.cjc_bytes.specs.Reading.{Reads};
ghost use Rattle.cjc_capread.specs.Descriptor.{field_place, type_of, field_descriptor, method_descriptor};
ghost use Rattle.cjc_capread.specs.Descriptor.{class_descriptor, two_nibbles, ended, type_descriptor, descriptor};

use crate::parts::{read_class_ref, read_class_refs, read_items, read_numbers};
use crate::tree::{
    ClassDescriptor, Descriptor, FieldDescriptor, FieldPlace, FieldType, MethodDescriptor,
    TypeDescriptor,
};
use cjc_bytes::{Bytes, Cursor, NoMemory, Row, Stop, is_static};
use std::alloc::Global;

/// The three bytes of a field.
#[tactic(auto, unfolding(crate::specs::Descriptor::field_place, cjc_bytes::specs::Format::u1, cjc_bytes::specs::Format::u2))]
fn read_field_place(is_static: bool, cursor: &mut Cursor<'_>) -> Result<FieldPlace, Stop>
    ensures { Reads (λ x. x) (field_place is_static) cursor.old cursor.new result }
{
    if is_static {
        let at = cursor.at();
        if cursor.u1()? != 0 {
            return Err(Stop::Broken(at));
        }
        let offset = cursor.u2()?;
        Ok(FieldPlace::Static(u64::from(offset)))
    } else {
        let class = read_class_ref(cursor)?;
        let token = cursor.u1()?;
        Ok(FieldPlace::Instance { class, token })
    }
}

fn type_of(n: u16) -> Option<FieldType>
    ensures { result ≡ type_of n }
{
    match n {
        0..0x8000 => Some(FieldType::Described(u64::from(n))),
        0x8002 => Some(FieldType::Boolean),
        0x8003 => Some(FieldType::Byte),
        0x8004 => Some(FieldType::Short),
        0x8005 => Some(FieldType::Int),
        _ => None,
    }
}

#[tactic(auto, unfolding(crate::specs::Descriptor::field_descriptor, cjc_bytes::specs::Format::u1))]
fn read_field(cursor: &mut Cursor<'_>) -> Result<FieldDescriptor, Stop>
    ensures { Reads (λ x. x) field_descriptor cursor.old cursor.new result }
{
    let token = cursor.u1()?;
    let flags = cursor.u1()?;
    let place = read_field_place(is_static(u16::from(flags)), cursor)?;
    let at = cursor.at();
    let number = cursor.u2()?;
    match type_of(number) {
        Some(type_) => Ok(FieldDescriptor {
            token,
            flags,
            place,
            type_,
        }),
        None => Err(Stop::Broken(at)),
    }
}

#[tactic(auto, using(cjc_bytes::proofs::Loops::repeated_more, cjc_bytes::proofs::Loops::repeated_stops, cjc_bytes::proofs::Loops::repeated_all, cjc_bytes::proofs::Loops::with_none))]
fn read_fields(
    alloc: Global,
    count: u16,
    cursor: &mut Cursor<'_>,
) -> Result<Row<FieldDescriptor>, Stop>
    ensures { Reads (λ xs. xs) (repeated count field_descriptor) cursor.old cursor.new result }
{
    let mut fields = Row::new(alloc);
    for _ in 0..count {
        fields.push(read_field(cursor)?)?;
    }
    Ok(fields)
}

#[tactic(auto, unfolding(crate::specs::Descriptor::method_descriptor, cjc_bytes::specs::Format::u1, cjc_bytes::specs::Format::u2))]
fn read_method(cursor: &mut Cursor<'_>) -> Result<MethodDescriptor, Stop>
    ensures { Reads (λ x. x) method_descriptor cursor.old cursor.new result }
{
    let token = cursor.u1()?;
    let flags = cursor.u1()?;
    let offset = cursor.u2()?;
    let type_offset = cursor.u2()?;
    let bytecode_count = cursor.u2()?;
    let handler_count = cursor.u2()?;
    let first_handler = cursor.u2()?;
    Ok(MethodDescriptor {
        token,
        flags,
        offset: u64::from(offset),
        type_offset: u64::from(type_offset),
        bytecode_count: u64::from(bytecode_count),
        handler_count: u64::from(handler_count),
        first_handler: u64::from(first_handler),
    })
}

#[tactic(auto, using(cjc_bytes::proofs::Loops::repeated_more, cjc_bytes::proofs::Loops::repeated_stops, cjc_bytes::proofs::Loops::repeated_all, cjc_bytes::proofs::Loops::with_none))]
fn read_methods(
    alloc: Global,
    count: u16,
    cursor: &mut Cursor<'_>,
) -> Result<Row<MethodDescriptor>, Stop>
    ensures { Reads (λ xs. xs) (repeated count method_descriptor) cursor.old cursor.new result }
{
    let mut methods = Row::new(alloc);
    for _ in 0..count {
        methods.push(read_method(cursor)?)?;
    }
    Ok(methods)
}

#[tactic(auto, unfolding(crate::specs::Descriptor::class_descriptor, cjc_bytes::specs::Format::u1, cjc_bytes::specs::Format::u2))]
fn read_class(alloc: Global, cursor: &mut Cursor<'_>) -> Result<ClassDescriptor, Stop>
    ensures { Reads (λ x. x) class_descriptor cursor.old cursor.new result }
{
    let token = cursor.u1()?;
    let flags = cursor.u1()?;
    let this_class = read_class_ref(cursor)?;
    let interface_count = cursor.u1()?;
    let field_count = cursor.u2()?;
    let method_count = cursor.u2()?;
    let interfaces = read_class_refs(alloc, interface_count, cursor)?;
    let fields = read_fields(alloc, field_count, cursor)?;
    let methods = read_methods(alloc, method_count, cursor)?;
    Ok(ClassDescriptor {
        token,
        flags,
        this_class,
        interfaces,
        fields,
        methods,
    })
}

#[tactic(auto, using(cjc_bytes::proofs::Loops::repeated_more, cjc_bytes::proofs::Loops::repeated_stops, cjc_bytes::proofs::Loops::repeated_all, cjc_bytes::proofs::Loops::with_none))]
fn read_classes(
    alloc: Global,
    count: u8,
    cursor: &mut Cursor<'_>,
) -> Result<Row<ClassDescriptor>, Stop>
    ensures { Reads (λ xs. xs) (repeated count class_descriptor) cursor.old cursor.new result }
{
    let mut classes = Row::new(alloc);
    for _ in 0..count {
        classes.push(read_class(alloc, cursor)?)?;
    }
    Ok(classes)
}

/// Appends both nibbles of a byte.
fn push_pair(byte: u8, nibbles: &mut Bytes) -> Result<(), NoMemory>
    ensures { OnOk result (nibbles.new ≡ nibbles.old ++ two_nibbles byte) }
{
    nibbles.push(byte / 16)?;
    nibbles.push(byte % 16)
}

/// The nibbles of all bytes, in their order.
fn nibbles_of(alloc: Global, pairs: &[u8]) -> Result<Bytes, NoMemory>
    ensures { IfOk result (λ x. x ≡ flat_map two_nibbles pairs.now) }
{
    let mut nibbles = Row::new(alloc);
    for pair in pairs {
        push_pair(*pair, &mut nibbles)?;
    }
    Ok(nibbles)
}

/// A type of these nibbles, with one more where their number is odd.
#[tactic(auto, unfolding(crate::specs::Descriptor::ended))]
fn read_end(
    is_odd: bool,
    mut nibbles: Bytes,
    cursor: &mut Cursor<'_>,
) -> Result<TypeDescriptor, Stop>
    ensures { Reads (λ x. x) (ended is_odd nibbles) cursor.old cursor.new result }
{
    if is_odd {
        let at = cursor.at();
        let byte = cursor.u1()?;
        if byte % 16 != 0 {
            return Err(Stop::Broken(at));
        }
        nibbles.push(byte / 16)?;
    }
    Ok(TypeDescriptor { nibbles })
}

#[tactic(auto, unfolding(crate::specs::Descriptor::type_descriptor, cjc_bytes::specs::Format::u1))]
fn read_type(alloc: Global, cursor: &mut Cursor<'_>) -> Result<TypeDescriptor, Stop>
    ensures { Reads (λ x. x) type_descriptor cursor.old cursor.new result }
{
    let count = cursor.u1()?;
    let pairs = read_items(alloc, count / 2, cursor)?;
    let nibbles = nibbles_of(alloc, pairs.items())?;
    read_end(count % 2 == 1, nibbles, cursor)
}

#[tactic(auto, using(cjc_bytes::proofs::Loops::before_more, cjc_bytes::proofs::Loops::before_stops, cjc_bytes::proofs::Loops::before_ended, cjc_bytes::proofs::Loops::before_all, cjc_bytes::proofs::Loops::with_none))]
fn read_types(alloc: Global, end: u32, cursor: &mut Cursor<'_>) -> Result<Row<TypeDescriptor>, Stop>
    ensures { Reads (λ xs. xs) (before end end type_descriptor) cursor.old cursor.new result }
{
    let mut types = Row::new(alloc);
    for _ in 0..end {
        if cursor.at() >= end {
            return Ok(types);
        }
        types.push(read_type(alloc, cursor)?)?;
    }
    Ok(types)
}

/// The content of a Descriptor component, its type descriptors up to where it ends.
#[tactic(auto, unfolding(crate::specs::Descriptor::descriptor, cjc_bytes::specs::Format::u1, cjc_bytes::specs::Format::u2))]
pub(crate) fn read_descriptor(
    alloc: Global,
    end: u32,
    cursor: &mut Cursor<'_>,
) -> Result<Descriptor, Stop>
    ensures { Reads (λ x. x) (descriptor end) cursor.old cursor.new result }
{
    let count = cursor.u1()?;
    let classes = read_classes(alloc, count, cursor)?;
    let pool_count = cursor.u2()?;
    let pool_types = read_numbers(alloc, pool_count, cursor)?;
    let types = read_types(alloc, end, cursor)?;
    Ok(Descriptor {
        classes,
        pool_types,
        types,
    })
}
