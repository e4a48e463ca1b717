//! The bytes of Descriptor: classes with their members, and all types (6.13). Called by `files`. A count that
//! has no room is cut to its low bytes; `limits` tests it before.

ghost use Rattle.std.specs.Prelude.{◌≡◌, ◌++◌, IfOk, OnOk, None};
ghost use Rattle.std.specs.List.{flat_map};
ghost use Rattle.cjc_capwrite.specs.Descriptor.{place_bytes, type_number, field_bytes, code_bytes};
ghost use Rattle.cjc_capwrite.specs.Descriptor.{method_descriptor_bytes, class_descriptor_bytes, put_before};
ghost use Rattle.cjc_capwrite.specs.Descriptor.{waits_after, packed, type_bytes, types_bytes, descriptor_bytes};

use crate::parts::{
    put_class_ref, put_class_refs, put_count1, put_count2, put_nibbles, put_numbers, put_two,
};
use cjc_capread::bytes::{NoMemory, Out};
use cjc_capread::{
    ClassDescriptor, Descriptor, FieldDescriptor, FieldPlace, FieldType, MethodDescriptor,
    TypeDescriptor,
};

fn put_place(out: &mut Out, place: FieldPlace) -> Result<(), NoMemory>
    ensures { OnOk result (out.new ≡ out.old ++ place_bytes place) }
{
    match place {
        FieldPlace::Static(offset) => {
            out.put1(0)?;
            put_two(out, offset)
        }
        FieldPlace::Instance { class, token } => {
            put_class_ref(out, class)?;
            out.put1(token)
        }
    }
}

fn type_number(type_: FieldType) -> u64
    ensures { result ≡ type_number type_ }
{
    match type_ {
        FieldType::Boolean => 0x8002,
        FieldType::Byte => 0x8003,
        FieldType::Short => 0x8004,
        FieldType::Int => 0x8005,
        FieldType::Described(offset) => offset,
    }
}

#[tactic(auto, unfolding(crate::specs::Descriptor::field_bytes))]
fn put_field(out: &mut Out, field: FieldDescriptor) -> Result<(), NoMemory>
    ensures { OnOk result (out.new ≡ out.old ++ field_bytes field) }
{
    out.put1(field.token)?;
    out.put1(field.flags)?;
    put_place(out, field.place)?;
    put_two(out, type_number(field.type_))
}

fn put_fields(out: &mut Out, fields: &[FieldDescriptor]) -> Result<(), NoMemory>
    ensures { OnOk result (out.new ≡ out.old ++ flat_map field_bytes fields.now) }
{
    for field in fields {
        put_field(out, *field)?;
    }
    Ok(())
}

/// The bytecodes and handlers of a method.
#[tactic(auto, unfolding(crate::specs::Descriptor::code_bytes))]
fn put_code(out: &mut Out, method: MethodDescriptor) -> Result<(), NoMemory>
    ensures { OnOk result (out.new ≡ out.old ++ code_bytes method) }
{
    put_two(out, method.bytecode_count)?;
    put_two(out, method.handler_count)?;
    put_two(out, method.first_handler)
}

#[tactic(auto, unfolding(crate::specs::Descriptor::method_descriptor_bytes))]
fn put_method(out: &mut Out, method: MethodDescriptor) -> Result<(), NoMemory>
    ensures { OnOk result (out.new ≡ out.old ++ method_descriptor_bytes method) }
{
    out.put1(method.token)?;
    out.put1(method.flags)?;
    put_two(out, method.offset)?;
    put_two(out, method.type_offset)?;
    put_code(out, method)
}

fn put_methods(out: &mut Out, methods: &[MethodDescriptor]) -> Result<(), NoMemory>
    ensures { OnOk result (out.new ≡ out.old ++ flat_map method_descriptor_bytes methods.now) }
{
    for method in methods {
        put_method(out, *method)?;
    }
    Ok(())
}

#[tactic(auto, unfolding(crate::specs::Descriptor::class_descriptor_bytes))]
fn put_class(out: &mut Out, class: &ClassDescriptor) -> Result<(), NoMemory>
    ensures { OnOk result (out.new ≡ out.old ++ class_descriptor_bytes class.now) }
{
    out.put1(class.token)?;
    out.put1(class.flags)?;
    put_class_ref(out, class.this_class)?;
    put_count1(out, class.interfaces.items())?;
    put_count2(out, class.fields.items())?;
    put_count2(out, class.methods.items())?;
    put_class_refs(out, class.interfaces.items())?;
    put_fields(out, class.fields.items())?;
    put_methods(out, class.methods.items())
}

fn put_classes(out: &mut Out, classes: &[ClassDescriptor]) -> Result<(), NoMemory>
    ensures { OnOk result (out.new ≡ out.old ++ flat_map class_descriptor_bytes classes.now) }
{
    for class in classes {
        put_class(out, class)?;
    }
    Ok(())
}

/// Takes a nibble to the one that waits for it, or lets it wait.
fn put_nibble(out: &mut Out, waiting: Option<u8>, nibble: u8) -> Result<Option<u8>, NoMemory>
    ensures { IfOk result (λ behind. (out.new ≡ out.old ++ put_before waiting nibble)
        × (behind ≡ waits_after waiting nibble)) }
{
    match waiting {
        None => Ok(Some(nibble)),
        Some(high) => {
            put_nibbles(out, high, nibble)?;
            Ok(None)
        }
    }
}

/// Nibbles in pairs, with 0 behind a last one.
fn put_packed(out: &mut Out, nibbles: &[u8]) -> Result<(), NoMemory>
    ensures { OnOk result (out.new ≡ out.old ++ packed None nibbles.now) }
{
    let mut waiting = None;
    for nibble in nibbles {
        waiting = put_nibble(out, waiting, *nibble)?;
    }
    match waiting {
        None => Ok(()),
        Some(high) => put_nibbles(out, high, 0),
    }
}

#[tactic(auto, unfolding(crate::specs::Descriptor::type_bytes))]
fn put_type(out: &mut Out, descriptor: &TypeDescriptor) -> Result<(), NoMemory>
    ensures { OnOk result (out.new ≡ out.old ++ type_bytes descriptor.now) }
{
    put_count1(out, descriptor.nibbles.items())?;
    put_packed(out, descriptor.nibbles.items())
}

fn put_types(out: &mut Out, types: &[TypeDescriptor]) -> Result<(), NoMemory>
    ensures { OnOk result (out.new ≡ out.old ++ flat_map type_bytes types.now) }
{
    for descriptor in types {
        put_type(out, descriptor)?;
    }
    Ok(())
}

/// The part in which types have offsets.
#[tactic(auto, unfolding(crate::specs::Descriptor::types_bytes))]
pub(crate) fn put_types_part(out: &mut Out, descriptor: &Descriptor) -> Result<(), NoMemory>
    ensures { OnOk result (out.new ≡ out.old ++ types_bytes descriptor.now) }
{
    put_count2(out, descriptor.pool_types.items())?;
    put_numbers(out, descriptor.pool_types.items())?;
    put_types(out, descriptor.types.items())
}

/// The content of a Descriptor component: its classes, then the types of the constant pool and the type descriptors.
#[tactic(auto, unfolding(crate::specs::Descriptor::descriptor_bytes))]
pub(crate) fn put_descriptor(out: &mut Out, descriptor: &Descriptor) -> Result<(), NoMemory>
    ensures { OnOk result (out.new ≡ out.old ++ descriptor_bytes descriptor.now) }
{
    put_count1(out, descriptor.classes.items())?;
    put_classes(out, descriptor.classes.items())?;
    put_types_part(out, descriptor)
}
