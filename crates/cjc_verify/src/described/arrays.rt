//! The arrays of StaticField beside the fields whose cells they fill: the first of another type.

ghost use Rattle.std.specs.Prelude.{◌≡◌, ◌+◌, ◌++◌, ◌<◌, ◌^◌, map, IfOk, OnOk};
ghost use Rattle.cjc_check_rules.specs.Complete.{statics_size};
ghost use Rattle.cjc_check_rules.specs.Spots.{first};
ghost use Rattle.cjc_bytes.specs.declared.fault.MemberId.{MemberId as Member};
ghost use Rattle.cjc_world.specs.declared.image.ArrayCell.{ArrayCell as Array};
ghost use Rattle.cjc_world.specs.declared.image.ValueCell.{ValueCell as Value};
ghost use Rattle.cjc_classes.specs.LowerComponents.Statics.{cell_order};
ghost use Rattle.cjc_verify.specs.Described.{array_number, is_number};
ghost use Rattle.cjc_verify.specs.WantedDescriptor.{array_differs, arrays_differ};

use cjc_bytes::{MemberId, NoMemory, Row};
use cjc_capread::{ArrayInit, StaticField};
use cjc_card_calls::check_index::lookup::{Comparison, first_beside, unless};
use cjc_check_rules::ComponentPlace;
use cjc_world::{ArrayCell, StaticImage, ValueCell};
use std::alloc::Global;

/// The tag of StaticField.
const STATICS: u8 = 8;

const BOOLEANS: &[u8] = b"[Z";

const BYTES: &[u8] = b"[B";

const SHORTS: &[u8] = b"[S";

const INTS: &[u8] = b"[I";

// ---- the numbers of arrays

/// The type number of an array of numbers: boolean 2, byte 3, short 4, int 5.
fn array_number(desc: &[u8]) -> Option<u8>
    ensures { result ≡ array_number desc.now }
{
    if desc == BOOLEANS {
        Some(2)
    } else if desc == BYTES {
        Some(3)
    } else if desc == SHORTS {
        Some(4)
    } else if desc == INTS {
        Some(5)
    } else {
        None
    }
}

fn number_of(field: &MemberId) -> Option<u8>
    ensures { result ≡ array_number field.now.desc }
{
    array_number(field.desc.items())
}

fn put_arrays(row: &mut Row<Option<u8>>, arrays: &[ArrayCell]) -> Result<(), NoMemory>
    ensures { OnOk result (row.new ≡ row.old ++ map (λ (a : Array). array_number a.field.desc) arrays.now) }
{
    for array in arrays {
        row.push(number_of(&array.field))?;
    }
    Ok(())
}

fn put_fields(row: &mut Row<Option<u8>>, fields: &[MemberId]) -> Result<(), NoMemory>
    ensures { OnOk result (row.new ≡ row.old ++ map (λ (f : Member). array_number f.desc) fields.now) }
{
    for field in fields {
        row.push(number_of(field))?;
    }
    Ok(())
}

fn put_values(row: &mut Row<Option<u8>>, values: &[ValueCell]) -> Result<(), NoMemory>
    ensures { OnOk result (row.new ≡ row.old ++ map (λ (v : Value). array_number v.field.desc) values.now) }
{
    for value in values {
        row.push(number_of(&value.field))?;
    }
    Ok(())
}

/// The type numbers of the arrays that static fields have, in the order of cells.
pub(crate) fn wanted_numbers(
    alloc: Global,
    image: &StaticImage,
) -> Result<Row<Option<u8>>, NoMemory>
    ensures { IfOk result (λ row. row ≡ map (λ (f : Member). array_number f.desc) (cell_order image.now)) }
{
    let mut row = Row::new(alloc);
    put_arrays(&mut row, image.arrays.items())?;
    put_fields(&mut row, image.nulls.items())?;
    put_fields(&mut row, image.zeros.items())?;
    put_values(&mut row, image.others.items())?;
    Ok(row)
}

// ---- arrays

/// Whether a type number is the one that is wanted.
fn is_number(number: u8, wanted: Option<u8>) -> bool
    ensures { result ≡ is_number number wanted }
{
    match wanted {
        None => false,
        Some(wanted) => number == wanted,
    }
}

/// Whether arrays are of the types that are wanted.
struct Arrays;

impl Comparison<ArrayInit, Option<u8>> for Arrays {
    ghost broken = { λ s. array_differs };

    ghost fits = { λ s. Unit {0} };

    fn first_between(
        &self,
        at: u32,
        item: &ArrayInit,
        other: &Option<u8>,
    ) -> Option<ComponentPlace> {
        unless(is_number(item.type_, *other), STATICS, at)
    }
}

/// The first array of another type than is wanted.
pub(crate) fn arrays_differ(statics: &StaticField, numbers: &[Option<u8>]) -> Option<ComponentPlace>
    requires { 3 + statics_size statics.now < 2 ^ 32 }
    ensures { result ≡ first (arrays_differ statics.now.array_inits numbers.now) }
{
    first_beside(&Arrays, 6, statics.array_inits.items(), numbers)
}
