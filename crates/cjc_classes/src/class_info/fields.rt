//! The cells of the instance fields of a class (Java Card Virtual Machine Specification 2.2.2, sections 4.3.7.5 and
//! 6.8.2). Called by `entries`. It knows no other class.

ghost use Rattle.std.specs.Prelude.{◌≡◌, ◌≤◌, ◌==◌, ◌&&◌, cond, IfOk};
ghost use Rattle.cjc_tokens.specs.Fields.{cells, cells_of, group, instance_cells, is_instance, is_reference};
ghost use Rattle.cjc_components.specs.Class.{first_reference_token, is_reference_field, reference_count};

use crate::class_info::sizes::plus;
use cjc_bytes::{NoMemory, is_protected, is_public, is_static};
use cjc_world::classfile::FieldTree;

const INT: &[u8] = b"I";

/// The token of the first reference field where a class has none.
const NONE: u8 = 0xFF;

/// What an info says of the instance fields that a class declares.
#[derive(Clone, Copy)]
pub struct FieldCells {
    /// Of all of them.
    pub size: u8,
    /// The token of the first reference field, 0xFF where there is none.
    pub first_reference: u8,
    pub reference_count: u8,
}

fn is_instance(field: &FieldTree) -> bool
    ensures { result ≡ is_instance field.now }
{
    !is_static(field.flags)
}

fn is_reference(desc: &[u8]) -> bool
    ensures { result ≡ is_reference desc.now }
{
    match desc {
        [] => false,
        [byte, ..] => *byte == b'L' || *byte == b'[',
    }
}

fn is_reference_field(field: &FieldTree) -> bool
    ensures { result ≡ is_reference_field field.now }
{
    is_instance(field) && is_reference(field.desc.items())
}

/// Whether an instance field is a public or protected one of a primitive type.
fn is_open_primitive(field: &FieldTree) -> bool
    ensures { result ≡ (is_instance field.now && (group field.now == 0)) }
{
    is_instance(field)
        && (is_public(field.flags) || is_protected(field.flags))
        && !is_reference(field.desc.items())
}

fn cells(field: &FieldTree) -> u64
    ensures { result ≡ cells field.now }
{
    if field.desc.items() == INT { 2 } else { 1 }
}

/// The cells of a field where it counts.
fn cells_where(counts: bool, field: &FieldTree) -> u64
    ensures { result ≡ cond counts (cells field.now) 0 }
{
    if counts { cells(field) } else { 0 }
}

/// The cells of all instance fields.
fn instance_cells(fields: &[FieldTree]) -> Result<u64, NoMemory>
    ensures { IfOk result (λ n. n ≡ instance_cells fields.now) }
{
    let mut sum = 0;
    for field in fields {
        sum = plus(sum, cells_where(is_instance(field), field))?;
    }
    Ok(sum)
}

/// The cells of the public and protected primitives.
fn open_primitive_cells(fields: &[FieldTree]) -> Result<u64, NoMemory>
    ensures { IfOk result (λ n. n ≡ cells_of (λ f. is_instance f && (group f == 0)) fields.now) }
{
    let mut sum = 0;
    for field in fields {
        sum = plus(sum, cells_where(is_open_primitive(field), field))?;
    }
    Ok(sum)
}

fn reference_count(fields: &[FieldTree]) -> usize
    ensures { result ≡ reference_count fields.now }
{
    fields
        .iter()
        .filter(|field| is_reference_field(field))
        .count()
}

/// A number as it stands in an info.
fn as_byte(n: u64) -> Result<u8, NoMemory>
    ensures { IfOk result (λ b. b ≡ n) }
{
    if n < 256 { Ok(n as u8) } else { Err(NoMemory) }
}

/// The token of the first reference field: references stand behind the public and protected primitives.
fn first_reference_token(fields: &[FieldTree]) -> Result<u8, NoMemory>
    ensures { IfOk result (λ t. t ≡ first_reference_token fields.now) }
{
    if reference_count(fields) == 0 {
        return Ok(NONE);
    }
    as_byte(open_primitive_cells(fields)?)
}

/// What an info says of the instance fields that a class declares.
pub fn field_cells(fields: &[FieldTree]) -> Result<FieldCells, NoMemory>
    ensures size { IfOk result (λ f. f.size ≡ instance_cells fields.now) }
    ensures first { IfOk result (λ f. f.first_reference ≡ first_reference_token fields.now) }
    ensures count { IfOk result (λ f. f.reference_count ≡ reference_count fields.now) }
{
    let size = as_byte(instance_cells(fields)?)?;
    let first_reference = first_reference_token(fields)?;
    let reference_count = as_byte(reference_count(fields) as u64)?;
    Ok(FieldCells {
        size,
        first_reference,
        reference_count,
    })
}
