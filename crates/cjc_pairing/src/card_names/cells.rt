//! The names of static cells (Java Card Virtual Machine Specification 2.2.2, section 6.10), class by class. It
//! knows no token.

ghost use Rattle.std.specs.Prelude.{◌≡◌, ◌++◌, map, IfOk, OnOk};
ghost use Rattle.std.specs.List.{flat_map};
ghost use Rattle.cjc_classes.specs.Clinit.Fields.{is_cell};
ghost use Rattle.cjc_classes.specs.Clinit.Image.{field_id};
ghost use Rattle.cjc_card_link.specs.LowerCardFrame.Kinds.{cell_name_of};
ghost use Rattle.cjc_classes.specs.LowerComponents.Paired.Naming.{cells_in};
ghost use Rattle.cjc_pairing.specs.CardNames.Working.Cells.{beside, cell_where, cells_by};

use cjc_card_link::card_frame::parts::CellName;
use cjc_card_link::classfile::{ClassTree, FieldTree};
use cjc_card_link::export_file::may_be_constant;
use cjc_classes::bytes::{Bytes, MemberId, NoMemory, Row, is_static};
use cjc_classes::descriptor::cell_offsets;
use cjc_classes::world::{StaticImage, World};
use std::alloc::Global;

/// Whether a field is static and no constant.
fn is_cell(field: &FieldTree) -> bool
    ensures { result ≡ is_cell field.now }
{
    is_static(field.flags)
        && !(may_be_constant(field.flags, field.desc.items()) && field.constant.is_some())
}

/// A field of the class of a name.
fn field_id(alloc: Global, class: &[u8], field: &FieldTree) -> Result<MemberId, NoMemory>
    ensures { IfOk result (λ id. id ≡ field_id class.now field.now) }
{
    let class = Bytes::copy_of(alloc, class)?;
    let name = Bytes::copy_of(alloc, field.name.items())?;
    let desc = Bytes::copy_of(alloc, field.desc.items())?;
    Ok(MemberId { class, name, desc })
}

/// Puts the cell of a field at the end, where it has one.
fn put_cell(
    alloc: Global,
    cells: &mut Row<CellName>,
    class: &[u8],
    field: &FieldTree,
    offset: u64,
) -> Result<(), NoMemory>
    ensures { OnOk result (map cell_name_of cells.new ≡ map cell_name_of cells.old
        ++ cell_where class.now field.now offset) }
{
    if is_cell(field) {
        let id = field_id(alloc, class, field)?;
        cells.push(CellName { offset, id })?;
    }
    Ok(())
}

/// Puts the cells of a class at the end, by the offsets of its fields.
fn put_cells(
    alloc: Global,
    cells: &mut Row<CellName>,
    class: &ClassTree<'_>,
    offsets: &[u64],
) -> Result<(), NoMemory>
    ensures { OnOk result (map cell_name_of cells.new ≡ map cell_name_of cells.old ++ cells_by class.now offsets.now) }
{
    let fields = class.fields.items();
    for (place, field) in fields.iter().enumerate() {
        if place >= offsets.len() {
            return Ok(());
        }
        put_cell(alloc, cells, class.name.items(), field, offsets[place])?;
    }
    Ok(())
}

/// The cells of classes, by the offsets of the fields of each.
fn cells_of(
    alloc: Global,
    classes: &[ClassTree<'_>],
    offsets: &[Row<u64>],
) -> Result<Row<CellName>, NoMemory>
    ensures { IfOk result (λ cells. map cell_name_of cells ≡ beside cells_by classes.now offsets.now) }
{
    let mut cells = Row::new(alloc);
    for (number, class) in classes.iter().enumerate() {
        if number >= offsets.len() {
            return Ok(cells);
        }
        put_cells(alloc, &mut cells, class, offsets[number].items())?;
    }
    Ok(cells)
}

/// The static cells of a package by their offsets in its image, with their names: class by class in the order
/// of the list, and in each in the order of its file.
pub fn cell_names(
    alloc: Global,
    world: &World<'_>,
    image: &StaticImage,
) -> Result<Row<CellName>, NoMemory>
    ensures { let files = world.now in IfOk result (λ cells. map cell_name_of cells ≡ flat_map (cells_in image.now)
        files.classes) }
{
    let classes = world.classes().items();
    let offsets = cell_offsets(alloc, image, classes)?;
    let cells = cells_of(alloc, classes, offsets.items())?;
    Ok(cells)
}
