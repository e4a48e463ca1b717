//! The static image of a package from what the initialisers of all its classes put, each field in its group, or
//! the first of them that breaks rule 308. What the crate is called for.

ghost use Rattle.std.specs.Prelude.{◌≡◌, [], map, slice_get, Some, Ok, IfErr, IfOk, OnOk, option_map};
ghost use Rattle.cjc_bytes.specs.Breaks.{Break as Broken};
ghost use Rattle.cjc_bytes.specs.Told.{break_of};
ghost use Rattle.cjc_clinit.specs.Image.{IsImage, field_id, fields_in, held_in, image_of, joined, of_classes};
ghost use Rattle.cjc_clinit.specs.Image.{of_fields, of_start, start_of, unput_start, value_or_zero};
ghost use Rattle.cjc_clinit.specs.Initialiser.{nothing_in};
ghost use Rattle.cjc_clinit.specs.Working.Reading.{after_codes, puts};
ghost use Rattle.cjc_clinit.specs.Rules.{BreaksImage, IsFirstBroken, IsFirstRefused};

use crate::breaks::image_break;
use crate::fields::{is_cell, is_reference, number_kind};
use crate::puts::no_puts;
use crate::stage::{Held, Start};
use cjc_bytes::{Break, Bytes, Fault, MemberId, NoMemory, Row, answer};
use cjc_subset::bytecode::{Codes, MethodCode};
use cjc_subset::classfile::{ClassTree, FieldTree};
use cjc_subset::world::{ArrayCell, StaticImage, ValueCell, World};
use std::alloc::Global;

// ---- one field

fn value_or_zero(is_number: bool, value: Option<i32>) -> i32
    ensures { result ≡ value_or_zero is_number value }
{
    match value {
        Some(number) if is_number => number,
        _ => 0,
    }
}

/// What a field holds into which nothing was put.
fn unput_start(field: &FieldTree) -> Start
    ensures { result ≡ unput_start field.now }
{
    let desc = field.desc.items();
    if is_reference(desc) {
        Start::Null
    } else {
        let is_number = number_kind(desc).is_some();
        Start::Number(value_or_zero(is_number, field.constant))
    }
}

/// What a field with a cell holds at first, by what was put; None where that is an array.
fn start_of(field: &FieldTree, held: Held) -> Option<Start>
    ensures { result ≡ start_of field.now held }
{
    if !is_cell(field) {
        return None;
    }
    match held {
        Held::Nothing => Some(unput_start(field)),
        Held::Number(number) => Some(Start::Number(number)),
        Held::Null => Some(Start::Null),
        Held::Array => None,
    }
}

fn field_id(alloc: Global, class: &[u8], field: &FieldTree) -> Result<MemberId, NoMemory>
    ensures { IfOk result (λ id. id ≡ field_id class.now field.now) }
{
    Ok(MemberId {
        class: Bytes::copy_of(alloc, class)?,
        name: Bytes::copy_of(alloc, field.name.items())?,
        desc: Bytes::copy_of(alloc, field.desc.items())?,
    })
}

/// Puts a field into its group.
fn put_start(image: &mut StaticImage, field: MemberId, start: Start) -> Result<(), NoMemory>
    ensures { OnOk result (image.new ≡ joined image.old (of_start field (Some start))) }
{
    match start {
        Start::Null => image.nulls.push(field)?,
        Start::Number(value) => {
            if value == 0 {
                image.zeros.push(field)?
            } else {
                image.others.push(ValueCell { field, value })?
            }
        }
    }
    Ok(())
}

/// Puts a field of a class into its group, where it has a cell and holds no array.
fn put_field(
    alloc: Global,
    image: &mut StaticImage,
    class: &[u8],
    field: &FieldTree,
    held: Held,
) -> Result<(), NoMemory>
    ensures { OnOk result (image.new ≡ joined image.old (of_start (field_id class.now field.now)
        (start_of field.now held))) }
{
    match start_of(field, held) {
        None => Ok(()),
        Some(start) => {
            let id = field_id(alloc, class, field)?;
            put_start(image, id, start)
        }
    }
}

// ---- all fields

fn held_in(fields: &[Held], place: usize) -> Held
    ensures { result ≡ held_in (slice_get fields.now place) }
{
    match fields.get(place) {
        None => Held::Nothing,
        Some(held) => *held,
    }
}

/// Puts the fields of a class into their groups.
#[tactic(auto, using(crate::proofs::Effects::fields_next, crate::proofs::Effects::fields_end))]
fn put_fields(
    alloc: Global,
    image: &mut StaticImage,
    class: &ClassTree<'_>,
    held: &[Held],
) -> Result<(), NoMemory>
    ensures { OnOk result (image.new ≡ joined image.old (of_fields class.now.name held.now 0 class.now.fields)) }
{
    let name = class.name.items();
    let fields = class.fields.items();
    for (place, field) in fields.iter().enumerate() {
        put_field(alloc, image, name, field, held_in(held, place))?;
    }
    Ok(())
}

/// What the fields of the class of a number hold.
fn fields_in(rows: &[Row<Held>], number: usize) -> &[Held]
    ensures { result.now ≡ fields_in (slice_get rows.now number) }
{
    match rows.get(number) {
        None => &[],
        Some(row) => row.items(),
    }
}

/// Puts the fields of all classes into their groups.
#[tactic(auto, using(crate::proofs::Effects::classes_next, crate::proofs::Effects::classes_end))]
fn put_classes(
    alloc: Global,
    image: &mut StaticImage,
    classes: &[ClassTree<'_>],
    rows: &[Row<Held>],
) -> Result<(), NoMemory>
    ensures { OnOk result (image.new ≡ joined image.old (of_classes rows.now 0 classes.now)) }
{
    for (number, class) in classes.iter().enumerate() {
        put_fields(alloc, image, class, fields_in(rows, number))?;
    }
    Ok(())
}

fn image_of(
    alloc: Global,
    classes: &[ClassTree<'_>],
    arrays: Row<ArrayCell>,
    rows: &[Row<Held>],
) -> Result<StaticImage, NoMemory>
    ensures { IfOk result (λ image. image ≡ image_of classes.now arrays rows.now) }
{
    let mut image = StaticImage {
        arrays,
        nulls: Row::new(alloc),
        zeros: Row::new(alloc),
        others: Row::new(alloc),
    };
    put_classes(alloc, &mut image, classes, rows)?;
    Ok(image)
}

/// The image by what was put after all initialisers.
fn image_after(
    alloc: Global,
    world: &World<'_>,
    codes: &[MethodCode],
    arrays: Row<ArrayCell>,
    rows: &[Row<Held>],
) -> Result<StaticImage, NoMemory>
    requires { after_codes world.now (puts (map nothing_in world.now.classes) []) codes.now
        ≡ Ok (puts rows.now arrays) }
    ensures { IfOk result (IsImage world.now codes.now) }
{
    image_of(alloc, world.classes().items(), arrays, rows)
}

// ---- a package

/// What of rule 308 a package breaks first, with its place in the order of refusals, for whoever tests further
/// rules of the same hundred. `codes` has the instructions of the methods that have some.
pub fn first_broken<'w>(
    alloc: Global,
    world: &'w World<'_>,
    codes: &Codes,
) -> Result<Option<Break<'w>>, NoMemory>
    ensures { IfOk result (λ b. IsFirstBroken world.now codes.now (option_map break_of b)) }
{
    let mut rows = no_puts(alloc, world.classes().items())?;
    let mut arrays = Row::new(alloc);
    image_break(alloc, world, codes.items(), &mut rows, &mut arrays)
}

/// What the static fields of a package hold after its initialisers. A refusal is the first of what is broken of
/// rule 308. `codes` has the instructions of the methods that have some.
pub fn image(alloc: Global, world: &World<'_>, codes: &Codes) -> Result<StaticImage, Fault>
    ensures made { IfOk result (IsImage world.now codes.now) }
    ensures unbroken { OnOk result ((b : Broken) → BreaksImage world.now codes.now b → ⊥) }
    ensures refused { IfErr result (IsFirstRefused world.now codes.now) }
{
    let mut rows = no_puts(alloc, world.classes().items())?;
    let mut arrays = Row::new(alloc);
    let broken = image_break(alloc, world, codes.items(), &mut rows, &mut arrays)?;
    answer(alloc, broken)?;
    Ok(image_after(alloc, world, codes.items(), arrays, &rows)?)
}
