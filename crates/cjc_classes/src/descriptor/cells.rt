//! Where the cells of static fields are in the static image (Java Card Virtual Machine Specification 2.2.2,
//! section 6.10). Called by whoever names static fields. It knows no class and no token.

ghost use Rattle.std.specs.Prelude.{◌≡◌, ◌+◌, [], map, IfOk, OnOk};
ghost use Rattle.std.specs.Cmp.{partial_equiv_from_equiv};
ghost use Rattle.cjc_components.specs.LowerNCode.PoolOrder.{same_member};
ghost use Rattle.cjc_components.specs.LowerClinit.Image.{field_id};
ghost use Rattle.cjc_components.specs.Statics.{cell_offset};
ghost use Rattle.cjc_classes.specs.Descriptor.Keys.{key_cell};
ghost use Rattle.cjc_classes.specs.Descriptor.Working.Cells.{HasCell, HasOffset, StandBehind, fed, member-equivalence};
ghost use Rattle.cjc_classes.specs.Descriptor.Working.Cells.{offset_of, same-fed};

use crate::descriptor::statics::{size_of_field, sum};
use cjc_bytes::{MemberId, NoMemory, Row};
use cjc_components::ncode::PoolKey;
use cjc_world::classfile::{ClassTree, FieldTree};
use cjc_world::{ArrayCell, StaticImage, ValueCell};
use indexmap::IndexMap;
use std::alloc::Global;
use std::hash::{Hash, Hasher};
use std::marker::Model;

/// A static field by its names.
#[derive(Drop)]
struct Name<'a> {
    class: &'a [u8],
    name: &'a [u8],
    desc: &'a [u8],
}

impl<'a> Model for Name<'a> {
    ghost use Rattle.cjc_bytes.specs.declared.fault.MemberId.{MemberId as Member};

    ghost Value = { Member };

    ghost view = { λ n. record { class = n.class.now; name = n.name.now; desc = n.desc.now } };
}

impl<'a> PartialEq for Name<'a> {
    ghost eq = { same_member };

    ghost laws = { partial_equiv_from_equiv member-equivalence };

    fn eq(&self, other: &Name<'a>) -> bool {
        self.class == other.class && (self.name == other.name && self.desc == other.desc)
    }
}

impl<'a> Eq for Name<'a> {
    ghost laws = { member-equivalence };
}

impl<'a> Hash for Name<'a> {
    ghost hash_input = { fed };

    ghost respects_eq = { same-fed };

    fn hash<H: Hasher>(&self, state: &mut H) {
        self.class.hash(state);
        self.name.hash(state);
        self.desc.hash(state);
    }
}

fn name_of(field: &MemberId) -> Name<'_>
    ensures { result ≡ field.now }
{
    Name {
        class: field.class.items(),
        name: field.name.items(),
        desc: field.desc.items(),
    }
}

type Offsets<'a> = IndexMap<Name<'a>, u64>;

/// Puts an offset down at a field, unless the field has one.
fn put_offset<'a>(offsets: &mut Offsets<'a>, field: &'a MemberId, at: u64) -> Result<(), NoMemory>
    ensures { OnOk result (HasOffset offsets.old offsets.new field.now at) }
{
    if offsets.get(&name_of(field)).is_none() {
        offsets.insert(name_of(field), at)?;
    }
    Ok(())
}

/// The cells so far.
#[derive(Drop)]
struct Cells<'a> {
    /// The offset of each, in bytes.
    offsets: Offsets<'a>,
    /// Where the next one stands.
    end: u64,
}

impl<'a> Model for Cells<'a> {
    ghost use Rattle.cjc_classes.specs.Descriptor.Keys.{key_cell};
    ghost use Rattle.cjc_classes.specs.Descriptor.Working.Cells.{Placed};

    ghost Value = { Placed };

    ghost view = { λ c. record { offsets = c.offsets.entries; end = c.end } };
}

impl<'a> Cells<'a> {
    /// Puts the cell of a field behind the others.
    fn put(&mut self, field: &'a MemberId) -> Result<(), NoMemory>
        ensures { OnOk result (HasCell self.old field.now self.new) }
    {
        let at = self.end;
        let end = sum(at, size_of_field(field)?)?;
        put_offset(&mut self.offsets, field, at)?;
        self.end = end;
        Ok(())
    }

    /// The offset of a field's cell; of one that has none, where the image ends.
    fn offset(&self, class: &'a [u8], field: &'a FieldTree) -> u64
        ensures { result ≡ offset_of self.now (field_id class.now field.now) }
    {
        let name = Name {
            class,
            name: field.name.items(),
            desc: field.desc.items(),
        };
        match self.offsets.get(&name) {
            Some(offset) => *offset,
            None => self.end,
        }
    }

    /// The offset of the cell of the static field of a key; 0 of a key of another kind.
    fn key_offset(&self, key: &'a PoolKey) -> u64
        ensures { result ≡ key_cell (offset_of self.now) key.now }
    {
        match key {
            PoolKey::StaticField(field) => match self.offsets.get(&name_of(field)) {
                Some(offset) => *offset,
                None => self.end,
            },
            _ => 0,
        }
    }

    fn put_arrays(&mut self, arrays: &'a [ArrayCell]) -> Result<(), NoMemory>
        ensures { OnOk result (StandBehind self.old (map (λ a. a.field) arrays.now) self.new) }
    {
        for array in arrays {
            self.put(&array.field)?;
        }
        Ok(())
    }

    fn put_fields(&mut self, fields: &'a [MemberId]) -> Result<(), NoMemory>
        ensures { OnOk result (StandBehind self.old fields.now self.new) }
    {
        for field in fields {
            self.put(field)?;
        }
        Ok(())
    }

    fn put_values(&mut self, values: &'a [ValueCell]) -> Result<(), NoMemory>
        ensures { OnOk result (StandBehind self.old (map (λ v. v.field) values.now) self.new) }
    {
        for value in values {
            self.put(&value.field)?;
        }
        Ok(())
    }
}

/// The cells of an image.
fn cells_of<'a>(alloc: Global, image: &'a StaticImage) -> Result<Cells<'a>, NoMemory>
    ensures { IfOk result (λ cells. offset_of cells ≡ cell_offset image.now) }
{
    let mut cells = Cells {
        offsets: IndexMap::new(alloc),
        end: 0,
    };
    cells.put_arrays(image.arrays.items())?;
    cells.put_fields(image.nulls.items())?;
    cells.put_fields(image.zeros.items())?;
    cells.put_values(image.others.items())?;
    Ok(cells)
}

fn offsets_in<'a>(
    alloc: Global,
    cells: &Cells<'a>,
    class: &'a ClassTree<'_>,
) -> Result<Row<u64>, NoMemory>
    ensures { let c = class.now in IfOk result (λ row. row ≡ map (λ f. offset_of cells.now (field_id c.name f))
        c.fields) }
{
    let mut row = Row::new(alloc);
    for field in class.fields.items() {
        row.push(cells.offset(class.name.items(), field))?;
    }
    Ok(row)
}

/// The offset of the cell of each static field by the number of its class and its own, in bytes; of a field
/// without a cell, where the image ends.
pub fn cell_offsets(
    alloc: Global,
    image: &StaticImage,
    classes: &[ClassTree<'_>],
) -> Result<Row<Row<u64>>, NoMemory>
    ensures { IfOk result (λ rows. rows ≡ map (λ c. map (λ f. cell_offset image.now (field_id c.name f)) c.fields)
        classes.now) }
{
    let cells = cells_of(alloc, image)?;
    let mut rows = Row::new(alloc);
    for class in classes {
        rows.push(offsets_in(alloc, &cells, class)?)?;
    }
    Ok(rows)
}

/// The offsets of the cells of the static fields of some keys.
fn offsets_at<'a>(
    alloc: Global,
    cells: &Cells<'a>,
    keys: &'a [PoolKey],
) -> Result<Row<u64>, NoMemory>
    ensures { IfOk result (λ row. row ≡ map (key_cell (offset_of cells.now)) keys.now) }
{
    let mut row = Row::new(alloc);
    for key in keys {
        row.push(cells.key_offset(key))?;
    }
    Ok(row)
}

/// The offset of the cell of the static field of each key, in bytes; of a field without a cell, where the image
/// ends. 0 of a key of another kind.
pub fn key_cells(alloc: Global, image: &StaticImage, keys: &[PoolKey]) -> Result<Row<u64>, NoMemory>
    ensures { IfOk result (λ row. row ≡ map (key_cell (cell_offset image.now)) keys.now) }
{
    let cells = cells_of(alloc, image)?;
    offsets_at(alloc, &cells, keys)
}
