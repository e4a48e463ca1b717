//! Tokens of fields: static ones are counted as they stand; instance ones by cells, exposed numbers first, then
//! exposed references, the other references, the other numbers. Called by `class` and `assigning`.

ghost use Rattle.std.specs.Prelude.{◌≡◌, ◌≤◌, ◌+◌, ◌==◌, ◌&&◌, ◌<◌, nat_le, nat_lt, length, take, true, count_by, IfOk};
ghost use Rattle.cjc_tokens.specs.Fields.{cells, cells_of, field_token, field_tokens, group, instance_cells};
ghost use Rattle.cjc_tokens.specs.Fields.{instance_field_token, instance_token, instance_tokens, is_constant};
ghost use Rattle.cjc_tokens.specs.Fields.{is_instance, is_open_static, is_reference};

use crate::slot::is_exposed;
use cjc_bytes::{NoMemory, Row, is_static};
use cjc_world::classfile::FieldTree;
use cjc_world::export_file::may_be_constant;
use std::alloc::Global;

const INT: &[u8] = b"I";

/// Whether a field is a constant, which has no cell and no token.
fn is_constant(field: &FieldTree) -> bool
    ensures { result ≡ is_constant field.now }
{
    may_be_constant(field.flags, field.desc.items()) && field.constant.is_some()
}

/// Whether a static field has a token, where its class is exported.
fn is_open_static(field: &FieldTree) -> bool
    ensures { result ≡ is_open_static field.now }
{
    is_static(field.flags) && is_exposed(field.flags) && !is_constant(field)
}

fn is_instance(field: &FieldTree) -> bool
    ensures { result ≡ is_instance field.now }
{
    !is_static(field.flags)
}

fn is_reference(desc: &[u8]) -> bool
    ensures { result ≡ is_reference desc.now }
{
    match desc {
        [] => false,
        [byte, ..] => *byte == b'L' || *byte == b'[',
    }
}

/// The place of a field's group.
fn group(field: &FieldTree) -> u8
    ensures { result ≡ group field.now }
{
    if is_exposed(field.flags) {
        if is_reference(field.desc.items()) {
            1
        } else {
            0
        }
    } else {
        if is_reference(field.desc.items()) {
            2
        } else {
            3
        }
    }
}

fn cells(field: &FieldTree) -> u32
    ensures value { result ≡ cells field.now }
    ensures few { result ≤ 2 }
{
    if field.desc.items() == INT { 2 } else { 1 }
}

/// How many static fields have a token, where their class is exported. It counts no further than 256.
pub(crate) fn open_statics(fields: &[FieldTree]) -> usize
    ensures { result ≡ count_by is_open_static fields.now }
{
    fields.iter().filter(|field| is_open_static(field)).count()
}

/// Whether the instance fields take at most 255 cells.
pub(crate) fn has_few_cells(fields: &[FieldTree]) -> bool
    ensures { result ≡ nat_le (instance_cells fields.now) 255 }
{
    let mut sum = 0u32;
    for field in fields {
        if is_instance(field) {
            sum += cells(field);
            if sum > 255 {
                return false;
            }
        }
    }
    true
}

/// The cells of the groups before one.
fn cells_before(fields: &[FieldTree], place: u8) -> u32
    requires { instance_cells fields.now ≤ 255 }
    ensures { result ≡ cells_of (λ g. is_instance g && nat_lt (group g) place) fields.now }
{
    let mut sum = 0;
    for field in fields {
        if is_instance(field) && group(field) < place {
            sum += cells(field);
        }
    }
    sum
}

/// The cells of one group.
fn cells_within(fields: &[FieldTree], place: u8) -> u32
    requires { instance_cells fields.now ≤ 255 }
    ensures { result ≡ cells_of (λ g. is_instance g && (group g == place)) fields.now }
{
    let mut sum = 0;
    for field in fields {
        if is_instance(field) && group(field) == place {
            sum += cells(field);
        }
    }
    sum
}

/// The token of an instance field at a place of its class.
#[tactic(auto, using(crate::proofs::Sums::group_cells), unfolding(crate::specs::Fields::instance_token))]
fn instance_token(fields: &[FieldTree], place: usize, field: &FieldTree) -> u8
    requires few { instance_cells fields.now ≤ 255 }
    requires place { place ≤ length fields.now }
    ensures { result ≡ instance_token fields.now place field.now }
{
    let group = group(field);
    (cells_before(fields, group) + cells_within(&fields[..place], group)) as u8
}

fn instance_field_token(fields: &[FieldTree], place: usize, field: &FieldTree) -> Option<u8>
    requires few { instance_cells fields.now ≤ 255 }
    requires place { place ≤ length fields.now }
    ensures { result ≡ instance_field_token fields.now place field.now }
{
    if is_instance(field) {
        Some(instance_token(fields, place, field))
    } else {
        None
    }
}

/// The tokens of the instance fields of a class, by the places of its fields.
pub(crate) fn instance_tokens(
    alloc: Global,
    fields: &[FieldTree],
) -> Result<Row<Option<u8>>, NoMemory>
    requires { instance_cells fields.now ≤ 255 }
    ensures { IfOk result (λ tokens. tokens ≡ instance_tokens fields.now 0 fields.now) }
{
    let mut tokens = Row::new(alloc);
    for (place, field) in fields.iter().enumerate() {
        tokens.push(instance_field_token(fields, place, field))?;
    }
    Ok(tokens)
}

/// The token of a field at a place of its class, where so many static fields with a token stand before it.
#[tactic(auto, unfolding(crate::specs::Fields::field_token))]
fn field_token(
    exported: bool,
    fields: &[FieldTree],
    place: usize,
    field: &FieldTree,
    statics: usize,
) -> Option<u8>
    requires few { instance_cells fields.now ≤ 255 }
    requires place { place ≤ length fields.now }
    requires statics { statics ≡ count_by is_open_static (take place fields.now) }
    requires high { exported ≡ true → is_open_static field.now ≡ true → statics < 255 }
    ensures { result ≡ field_token exported fields.now place field.now }
{
    if is_instance(field) {
        Some(instance_token(fields, place, field))
    } else if exported && is_open_static(field) {
        Some(statics as u8)
    } else {
        None
    }
}

/// The tokens of the fields of a class.
pub(crate) fn field_tokens(
    alloc: Global,
    exported: bool,
    fields: &[FieldTree],
) -> Result<Row<Option<u8>>, NoMemory>
    requires few { instance_cells fields.now ≤ 255 }
    requires high { exported ≡ true → count_by is_open_static fields.now ≤ 255 }
    ensures { IfOk result (λ tokens. tokens ≡ field_tokens exported fields.now 0 fields.now) }
{
    let mut tokens = Row::new(alloc);
    let mut statics = 0;
    for (place, field) in fields.iter().enumerate() {
        tokens.push(field_token(exported, fields, place, field, statics))?;
        if is_open_static(field) {
            statics += 1;
        }
    }
    Ok(tokens)
}
