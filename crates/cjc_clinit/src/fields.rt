//! The static fields that have a cell, and what may be put into one. Nothing here takes memory.

ghost use Rattle.std.specs.Prelude.{◌≡◌};
ghost use Rattle.cjc_clinit.specs.Fields.{array_desc, fits, fits_kind, has_unfit_value, is_cell, is_reference, lies_in};
ghost use Rattle.cjc_clinit.specs.Fields.{number_kind, value_fits};

use cjc_bytes::{Kind, is_static};
use cjc_subset::classfile::FieldTree;
use cjc_subset::export_file::may_be_constant;

/// Whether a field is static and no constant.
pub(crate) fn is_cell(field: &FieldTree) -> bool
    ensures { result ≡ is_cell field.now }
{
    is_static(field.flags)
        && !(may_be_constant(field.flags, field.desc.items()) && field.constant.is_some())
}

/// The kind of a type of numbers.
pub(crate) fn number_kind(desc: &[u8]) -> Option<Kind>
    ensures { result ≡ number_kind desc.now }
{
    if desc == b"Z".as_slice() {
        Some(Kind::Bool)
    } else if desc == b"B".as_slice() {
        Some(Kind::Byte)
    } else if desc == b"S".as_slice() {
        Some(Kind::Short)
    } else if desc == b"I".as_slice() {
        Some(Kind::Int)
    } else {
        None
    }
}

/// The type of an array of numbers of a kind.
pub(crate) fn array_desc(kind: Kind) -> &'static [u8]
    ensures { result.now ≡ array_desc kind }
{
    match kind {
        Kind::Bool => b"[Z",
        Kind::Byte => b"[B",
        Kind::Short => b"[S",
        Kind::Int => b"[I",
        _ => b"",
    }
}

/// Whether a field of this type holds a reference to an object or array.
pub(crate) fn is_reference(desc: &[u8]) -> bool
    ensures { result ≡ is_reference desc.now }
{
    match desc {
        [] => false,
        [byte, ..] => *byte == b'L' || *byte == b'[',
    }
}

fn lies_in(low: i32, high: i32, number: i32) -> bool
    ensures { result ≡ lies_in low high number }
{
    low <= number && number <= high
}

/// Whether a number is one of a kind.
pub(crate) fn fits(kind: Kind, number: i32) -> bool
    ensures { result ≡ fits kind number }
{
    match kind {
        Kind::Bool => lies_in(0, 1, number),
        Kind::Byte => lies_in(-128, 127, number),
        Kind::Short => lies_in(-32_768, 32_767, number),
        Kind::Int => lies_in(i32::MIN, i32::MAX, number),
        _ => false,
    }
}

/// Whether a number is one of the type of a field, where that is one of numbers.
pub(crate) fn fits_kind(kind: Option<Kind>, number: i32) -> bool
    ensures { result ≡ fits_kind kind number }
{
    match kind {
        None => false,
        Some(kind) => fits(kind, number),
    }
}

fn value_fits(kind: Option<Kind>, value: Option<i32>) -> bool
    ensures { result ≡ value_fits kind value }
{
    match (kind, value) {
        (Some(kind), Some(number)) => fits(kind, number),
        _ => true,
    }
}

/// Whether the ConstantValue of a static field, final or not, does not fit its type.
pub(crate) fn has_unfit_value(field: &FieldTree) -> bool
    ensures { result ≡ has_unfit_value field.now }
{
    is_static(field.flags) && !value_fits(number_kind(field.desc.items()), field.constant)
}
