//! The zero, false or null that a field of a descriptor holds before anything is put there.

ghost use Rattle.std.specs.Prelude.{◌≡◌, IfOk};
ghost use Rattle.cjc_world.specs.Bytes.Descriptor.{part_at};
ghost use Rattle.cjc_jvm_step.specs.Script.Sorts.{field_sort, sort_by, sort_of, zero_of};
ghost use Rattle.cjc_jvm_semantics.specs.Effects.{fresh_field};
ghost use Rattle.cjc_jvm_semantics.specs.OnePackage.{of_class};

use cjc_jvm_semantics::script::{FieldValue, Value};
use cjc_jvm_step::step::shape_named;
use cjc_world::bytes::{Bytes, Desc, Kind, MemberId, NoMemory};
use std::alloc::Global;

// More bytes than the descriptors of any file have.
const TOO_LONG: usize = 1 << 32;

// What a field of a class or of an array holds at first.
fn zero_of_reference(name: &[u8]) -> Result<Value, NoMemory>
    ensures { IfOk result (λ v. v ≡ zero_of (sort_by Kind.Ref name.now)) }
{
    match shape_named(name)? {
        Some(_) => Ok(Value::Null),
        None => Ok(Value::Num(0)),
    }
}

// What a field of a kind holds at first.
fn zero_by(kind: Kind, name: &[u8]) -> Result<Value, NoMemory>
    ensures { IfOk result (λ v. v ≡ zero_of (sort_by kind name.now)) }
{
    match kind {
        Kind::Ref => Ok(zero_of_reference(name)?),
        Kind::Bool => Ok(Value::Num(0)),
        Kind::Byte => Ok(Value::Num(0)),
        Kind::Short => Ok(Value::Num(0)),
        Kind::Int => Ok(Value::Num(0)),
        Kind::Other => Ok(Value::Num(0)),
        Kind::Void => Ok(Value::Num(0)),
    }
}

/// What a field of a descriptor holds at first. No memory is there for a descriptor of 2^32 bytes or more.
pub(crate) fn zero_of(desc: &[u8]) -> Result<Value, NoMemory>
    ensures { IfOk result (λ v. v ≡ zero_of (field_sort desc.now)) }
{
    if desc.len() >= TOO_LONG {
        return Err(NoMemory);
    }
    match Desc::parse(desc) {
        Ok(parts) => {
            let last = parts.params();
            zero_by(parts.kind(last), parts.class(last))
        }
        Err(_) => Ok(Value::Num(0)),
    }
}

/// A field of a class by its name and its descriptor.
pub(crate) fn field_id(
    alloc: Global,
    class: &[u8],
    name: &[u8],
    desc: &[u8],
) -> Result<MemberId, NoMemory>
    ensures { IfOk result (λ id. id ≡ record { class = class.now; name = name.now; desc = desc.now }) }
{
    Ok(MemberId {
        class: Bytes::copy_of(alloc, class)?,
        name: Bytes::copy_of(alloc, name)?,
        desc: Bytes::copy_of(alloc, desc)?,
    })
}

/// The same with what it holds at first.
pub(crate) fn fresh_field(
    alloc: Global,
    class: &[u8],
    name: &[u8],
    desc: &[u8],
) -> Result<FieldValue, NoMemory>
    ensures { IfOk result (λ f. f ≡ fresh_field (record { class = class.now; name = name.now; desc = desc.now })) }
{
    let field = field_id(alloc, class, name, desc)?;
    let value = zero_of(desc)?;
    Ok(FieldValue { field, value })
}
