//! The static fields of a package in the order of their cells, each with the offset of its cell (Java Card Virtual
//! Machine Specification 2.2.2, section 6.10). Made once; entries of the constant pool are looked up in it.

ghost use Rattle.std.specs.Prelude.{◌≡◌, ◌++◌, ◌==◌, map, option_and_then, option_map, position, slice_get, IfOk, OnOk};
ghost use Rattle.cjc_bytes.specs.declared.fault.MemberId.{MemberId as Member};
ghost use Rattle.cjc_classes.specs.NCode.declared.narrow.PoolKey.TheVariants.{StaticField};
ghost use Rattle.cjc_classes.specs.LowerComponents.Statics.{cell_order};
ghost use Rattle.cjc_world.specs.declared.image.ArrayCell.{ArrayCell as Array};
ghost use Rattle.cjc_world.specs.declared.image.ValueCell.{ValueCell as Value};
ghost use Rattle.cjc_verify.specs.Cells.{AreCells, desc_of_key, kept_desc};

use cjc_bytes::{Bytes, MemberId, NoMemory, Row};
use cjc_classes::descriptor::key_cells;
use cjc_classes::ncode::PoolKey;
use cjc_world::{ArrayCell, StaticImage, ValueCell};
use std::alloc::Global;

/// Static fields, and the offset of each one's cell in bytes.
#[derive(Drop)]
pub(crate) struct Cells {
    keys: Row<PoolKey>,
    offsets: Row<u64>,
}

fn key_of(alloc: Global, field: &MemberId) -> Result<PoolKey, NoMemory>
    ensures { IfOk result (λ key. key ≡ StaticField field.now) }
{
    let class = Bytes::copy_of(alloc, field.class.items())?;
    let name = Bytes::copy_of(alloc, field.name.items())?;
    let desc = Bytes::copy_of(alloc, field.desc.items())?;
    Ok(PoolKey::StaticField(MemberId { class, name, desc }))
}

fn put_arrays(alloc: Global, row: &mut Row<PoolKey>, arrays: &[ArrayCell]) -> Result<(), NoMemory>
    ensures { OnOk result (row.new ≡ row.old ++ map (λ (a : Array). StaticField a.field) arrays.now) }
{
    for array in arrays {
        let key = key_of(alloc, &array.field)?;
        row.push(key)?;
    }
    Ok(())
}

fn put_fields(alloc: Global, row: &mut Row<PoolKey>, fields: &[MemberId]) -> Result<(), NoMemory>
    ensures { OnOk result (row.new ≡ row.old ++ map (λ (f : Member). StaticField f) fields.now) }
{
    for field in fields {
        let key = key_of(alloc, field)?;
        row.push(key)?;
    }
    Ok(())
}

fn put_values(alloc: Global, row: &mut Row<PoolKey>, values: &[ValueCell]) -> Result<(), NoMemory>
    ensures { OnOk result (row.new ≡ row.old ++ map (λ (v : Value). StaticField v.field) values.now) }
{
    for value in values {
        let key = key_of(alloc, &value.field)?;
        row.push(key)?;
    }
    Ok(())
}

/// The static fields of an image, in the order of their cells.
fn keys_of(alloc: Global, image: &StaticImage) -> Result<Row<PoolKey>, NoMemory>
    ensures { IfOk result (λ row. row ≡ map (λ (f : Member). StaticField f) (cell_order image.now)) }
{
    let mut row = Row::new(alloc);
    put_arrays(alloc, &mut row, image.arrays.items())?;
    put_fields(alloc, &mut row, image.nulls.items())?;
    put_fields(alloc, &mut row, image.zeros.items())?;
    put_values(alloc, &mut row, image.others.items())?;
    Ok(row)
}

/// The cells of an image.
pub(crate) fn cells_of(alloc: Global, image: &StaticImage) -> Result<Cells, NoMemory>
    ensures { IfOk result (AreCells image.now) }
{
    let keys = keys_of(alloc, image)?;
    let offsets = key_cells(alloc, image, keys.items())?;
    Ok(Cells { keys, offsets })
}

/// The place of the first cell of an offset.
fn place_of(offsets: &[u64], offset: u64) -> Option<usize>
    ensures { result ≡ position (λ n. n == offset) offsets.now }
{
    offsets.iter().position(|other| *other == offset)
}

fn desc_of_key(key: &PoolKey) -> Option<&[u8]>
    ensures { option_map (λ desc. desc.now) result ≡ desc_of_key key.now }
{
    match key {
        PoolKey::StaticField(field) => Some(field.desc.items()),
        PoolKey::Class(_) => None,
        PoolKey::Field(_) => None,
        PoolKey::Virtual(_) => None,
        PoolKey::Super(_) => None,
        PoolKey::StaticMethod(_) => None,
    }
}

fn desc_at(keys: &[PoolKey], place: usize) -> Option<&[u8]>
    ensures { option_map (λ desc. desc.now) result ≡ option_and_then desc_of_key (slice_get keys.now place) }
{
    match keys.get(place) {
        Some(key) => desc_of_key(key),
        None => None,
    }
}

impl Cells {
    /// The descriptor of the static field whose cell stands at an offset.
    pub(crate) fn desc(&self, offset: u64) -> Option<&[u8]>
        ensures { option_map (λ desc. desc.now) result ≡ kept_desc self.now offset }
    {
        match place_of(self.offsets.items(), offset) {
            Some(place) => desc_at(self.keys.items(), place),
            None => None,
        }
    }
}
