//! StaticField: the static image as it is written (Java Card Virtual Machine Specification 2.2.2, section
//! 6.10). Called by whoever puts components together. It knows no class and no token.

ghost use Rattle.std.specs.Prelude.{◌≡◌, ◌+◌, ◌*◌, ◌++◌, [], true, map, length, sum_by, IfOk, OnOk, All};
ghost use Rattle.std.specs.List.{flat_map};
ghost use Rattle.cjc_components.specs.LowerCapRead.Decode.{two_bytes, four_bytes};
ghost use Rattle.cjc_components.specs.LowerScript.Sorts.{sort_by};
ghost use Rattle.cjc_components.specs.Statics.{array_init, cell_size, default_size, element_bytes, other_values};
ghost use Rattle.cjc_components.specs.Statics.{reference_count, size_of_field, static_field, type_number, value_by};
ghost use Rattle.cjc_components.specs.Statics.{value_bytes};
ghost use Rattle.cjc_classes.specs.TypeInfo.Meant.{sort_meant};
ghost use Rattle.cjc_classes.specs.Descriptor.Fits.{AreFit, FitsArray, FitsValue, is_number_of};

use crate::type_info::{Sort, field_sort};
use cjc_bytes::{Bytes, Kind, MemberId, NoMemory, Out, Row};
use cjc_components::capread::{ArrayInit, StaticField};
use cjc_world::{ArrayCell, StaticImage, ValueCell};
use std::alloc::Global;

// ---- sizes

/// A sum; no memory has as many bytes as 64 bits don't count.
pub(crate) fn sum(a: u64, b: u64) -> Result<u64, NoMemory>
    ensures { IfOk result (λ n. n ≡ a + b) }
{
    match a.checked_add(b) {
        Some(n) => Ok(n),
        None => Err(NoMemory),
    }
}

/// The bytes of a cell of a type.
fn cell_size(sort: Sort<'_>) -> u64
    ensures { result ≡ cell_size (sort_meant sort.entry) }
{
    match sort {
        Sort::Boolean | Sort::Byte => 1,
        Sort::Short => 2,
        Sort::Int => 4,
        Sort::NoValue => 0,
        _ => 2,
    }
}

/// The bytes of a field's cell.
pub(crate) fn size_of_field(field: &MemberId) -> Result<u64, NoMemory>
    ensures { IfOk result (λ n. n ≡ size_of_field field.now) }
{
    let sort = field_sort(field.desc.items())?;
    Ok(cell_size(sort))
}

/// The bytes of the numbers that are 0.
fn default_size(zeros: &[MemberId]) -> Result<u64, NoMemory>
    ensures { IfOk result (λ n. n ≡ sum_by size_of_field zeros.now) }
{
    let mut size = 0;
    for field in zeros {
        size = sum(size, size_of_field(field)?)?;
    }
    Ok(size)
}

// ---- values

fn put_two(out: &mut Out, n: u16) -> Result<(), NoMemory>
    ensures { OnOk result (out.new ≡ out.old ++ two_bytes n) }
{
    out.put1((n / 256) as u8)?;
    out.put1((n % 256) as u8)
}

fn put_four(out: &mut Out, n: u32) -> Result<(), NoMemory>
    ensures { OnOk result (out.new ≡ out.old ++ four_bytes n) }
{
    out.put1((n / 16_777_216) as u8)?;
    out.put1((n / 65_536 % 256) as u8)?;
    out.put1((n / 256 % 256) as u8)?;
    out.put1((n % 256) as u8)
}

/// The bytes of a number of a type.
fn put_number(out: &mut Out, sort: Sort<'_>, number: i32) -> Result<(), NoMemory>
    requires { is_number_of (sort_meant sort) number ≡ true }
    ensures { OnOk result (out.new ≡ out.old ++ value_by (sort_meant sort.entry) number) }
{
    match sort {
        Sort::Boolean | Sort::Byte => out.put1((number as i8).cast_unsigned()),
        Sort::Short => put_two(out, (number as i16).cast_unsigned()),
        Sort::Int => put_four(out, number.cast_unsigned()),
        _ => Ok(()),
    }
}

/// The bytes of an element of a kind.
fn put_element(out: &mut Out, kind: Kind, number: i32) -> Result<(), NoMemory>
    requires { is_number_of (sort_by kind []) number ≡ true }
    ensures { OnOk result (out.new ≡ out.old ++ element_bytes kind number) }
{
    match kind {
        Kind::Bool => put_number(out, Sort::Boolean, number),
        Kind::Byte => put_number(out, Sort::Byte, number),
        Kind::Short => put_number(out, Sort::Short, number),
        Kind::Int => put_number(out, Sort::Int, number),
        _ => Ok(()),
    }
}

fn put_elements(out: &mut Out, kind: Kind, items: &[i32]) -> Result<(), NoMemory>
    requires { All (λ z. is_number_of (sort_by kind []) z ≡ true) items.now }
    ensures { OnOk result (out.new ≡ out.old ++ flat_map (element_bytes kind) items.now) }
{
    for item in items {
        put_element(out, kind, *item)?;
    }
    Ok(())
}

/// The number of an element type.
fn type_number(kind: Kind) -> u8
    ensures { result ≡ type_number kind }
{
    match kind {
        Kind::Bool => 2,
        Kind::Short => 4,
        Kind::Int => 5,
        _ => 3,
    }
}

fn array_init(alloc: Global, array: &ArrayCell) -> Result<ArrayInit, NoMemory>
    requires { FitsArray array.now }
    ensures { IfOk result (λ init. init ≡ array_init array.now) }
{
    let mut out = Out::new(alloc);
    put_elements(&mut out, array.kind, array.items.items())?;
    Ok(ArrayInit {
        type_: type_number(array.kind),
        values: out.finish(),
    })
}

fn array_inits(alloc: Global, arrays: &[ArrayCell]) -> Result<Row<ArrayInit>, NoMemory>
    requires { All FitsArray arrays.now }
    ensures { IfOk result (λ inits. inits ≡ map array_init arrays.now) }
{
    let mut inits = Row::new(alloc);
    for array in arrays {
        inits.push(array_init(alloc, array)?)?;
    }
    Ok(inits)
}

/// The bytes of a field's number.
fn put_value(out: &mut Out, cell: &ValueCell) -> Result<(), NoMemory>
    requires { FitsValue cell.now }
    ensures { OnOk result (out.new ≡ out.old ++ value_bytes cell.now) }
{
    let sort = field_sort(cell.field.desc.items())?;
    put_number(out, sort, cell.value)
}

fn values_of(alloc: Global, cells: &[ValueCell]) -> Result<Bytes, NoMemory>
    requires { All FitsValue cells.now }
    ensures { IfOk result (λ values. values ≡ flat_map value_bytes cells.now) }
{
    let mut out = Out::new(alloc);
    for cell in cells {
        put_value(&mut out, cell)?;
    }
    Ok(out.finish())
}

// ---- the component

/// The cells of references.
fn reference_count(image: &StaticImage) -> Result<u64, NoMemory>
    ensures { IfOk result (λ n. n ≡ reference_count image.now) }
{
    sum(
        image.arrays.items().len() as u64,
        image.nulls.items().len() as u64,
    )
}

/// The bytes of all cells, from the number of references, the bytes of the numbers that are 0, and those of the others.
fn image_size(references: u64, zeros: u64, values: &[u8]) -> Result<u64, NoMemory>
    ensures { IfOk result (λ n. n ≡ 2 * references + zeros + length values.now) }
{
    let cells = sum(references, references)?;
    let defaults = sum(cells, zeros)?;
    sum(defaults, values.len() as u64)
}

/// StaticField, where each number of the image fits its type.
pub fn static_field(alloc: Global, image: &StaticImage) -> Result<StaticField, NoMemory>
    requires { AreFit image.now }
    ensures { IfOk result (λ t. t ≡ static_field image.now) }
{
    let reference_count = reference_count(image)?;
    let default_value_count = default_size(image.zeros.items())?;
    let values = values_of(alloc, image.others.items())?;
    let image_size = image_size(reference_count, default_value_count, values.items())?;
    let array_inits = array_inits(alloc, image.arrays.items())?;
    Ok(StaticField {
        image_size,
        reference_count,
        array_inits,
        default_value_count,
        values,
    })
}
