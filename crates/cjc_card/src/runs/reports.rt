//! The report of a state by token: static fields and objects told by the names that look-ups have for their
//! tokens. Nothing of the state is changed.

ghost use Rattle.std.specs.Prelude.{◌≡◌, ◌++◌, map, IfOk, OnOk};
ghost use Rattle.cjc_script.specs.declared.value.Value.TheVariants.{Num};
ghost use Rattle.cjc_card_semantics.specs.Bytecode.Machine.{report, shown};
ghost use Rattle.cjc_card_semantics.specs.Machine.ByToken.{by_token, shown_cell, shown_cells};
ghost use Rattle.cjc_card_frame.specs.Objects.{object_by};
ghost use Rattle.cjc_card_frame.specs.Kinds.{cell_name_of};

use crate::acts::{field_letter, zero_of};
use crate::turns::{Machine, copy_of, type_name};
use cjc_card_frame::heap::{Heap, Parts, Shape};
use cjc_card_frame::image::Statics;
use cjc_card_frame::parts::{CellName, LookUps};
use cjc_script::bytes::{Bytes, MemberId, NoMemory, Row};
use cjc_script::{FieldValue, Outcome, Report, Thing, Value};
use std::alloc::Global;

// Numbers as values.
fn values_of(alloc: Global, numbers: &[i32]) -> Result<Row<Value>, NoMemory>
    ensures { IfOk result (λ row. row ≡ map Num numbers.now) }
{
    let mut row = Row::new(alloc);
    for number in numbers {
        row.push(Value::Num(*number))?;
    }
    Ok(row)
}

// An array or object.
#[tactic(auto, unfolding(cjc_card_semantics::specs::Machine::ByToken::by_token))]
fn thing_of<L: LookUps>(alloc: Global, links: &L, object: Parts<'_>) -> Result<Thing, NoMemory>
    ensures { IfOk result (λ thing. thing ≡ shown (by_token (L.loaded links.now)) (object_by object.entry)) }
{
    match object {
        Parts::Numbers(element, items) => {
            let desc = type_name(alloc, links, Shape::OfNumbers(element))?;
            let items = values_of(alloc, items)?;
            Ok(Thing::Array { desc, items })
        }
        Parts::References(class, items) => {
            let desc = type_name(alloc, links, Shape::OfReferences(class))?;
            let items = copy_of(alloc, items)?;
            Ok(Thing::Array { desc, items })
        }
        Parts::Object(class, slots) => {
            let fields = links.shown_fields(alloc, class, slots)?;
            let class = Bytes::copy_of(alloc, links.name(class))?;
            Ok(Thing::Object { class, fields })
        }
    }
}

// All arrays and objects. No memory is there for 2^32 of them.
fn things_of<L: LookUps>(alloc: Global, links: &L, heap: &Heap) -> Result<Row<Thing>, NoMemory>
    ensures { IfOk result (λ things. things ≡ map (shown (by_token (L.loaded links.now))) heap.now) }
{
    let mut things = Row::new(alloc);
    let mut number = 0;
    'things: while let Some(object) = heap.get(number) {
        if number == u32::MAX {
            return Err(NoMemory);
        }
        things.push(thing_of(alloc, links, object)?)?;
        number += 1;
    }
    Ok(things)
}

// A copy of a member's name.
fn member_of(alloc: Global, id: &MemberId) -> Result<MemberId, NoMemory>
    ensures { IfOk result (λ m. m ≡ id.now) }
{
    let class = Bytes::copy_of(alloc, id.class.items())?;
    let name = Bytes::copy_of(alloc, id.name.items())?;
    let desc = Bytes::copy_of(alloc, id.desc.items())?;
    Ok(MemberId { class, name, desc })
}

// What a static cell of a package holds.
fn cell_value(statics: &Statics, part: u32, cell: &CellName) -> Result<Value, NoMemory>
    ensures { IfOk result (λ v. v ≡ (shown_cell part statics.now (cell_name_of cell.now)).value) }
{
    let letter = field_letter(cell.id.desc.items())?;
    let held = match letter {
        Some(letter) => statics.get(letter, part, cell.offset),
        None => None,
    };
    match held {
        Some(value) => Ok(value),
        None => Ok(zero_of(letter)),
    }
}

// The static cells of a package more.
fn put_cells(
    alloc: Global,
    fields: &mut Row<FieldValue>,
    statics: &Statics,
    part: u32,
    cells: &[CellName],
) -> Result<(), NoMemory>
    ensures { OnOk result (fields.new ≡ fields.old ++ map (shown_cell part statics.now) (map cell_name_of cells.now)) }
{
    for cell in cells {
        let value = cell_value(statics, part, cell)?;
        let field = member_of(alloc, &cell.id)?;
        fields.push(FieldValue { field, value })?;
    }
    Ok(())
}

// The static cells of all packages. No memory is there for 2^32 of these.
fn cells_of<L: LookUps>(
    alloc: Global,
    links: &L,
    statics: &Statics,
) -> Result<Row<FieldValue>, NoMemory>
    ensures { IfOk result (λ cells. cells ≡ shown_cells 0 (L.loaded links.now).parts statics.now) }
{
    let mut fields = Row::new(alloc);
    let mut part = 0;
    'parts: while links.statics(part).is_some() {
        if part == u32::MAX {
            return Err(NoMemory);
        }
        put_cells(alloc, &mut fields, statics, part, links.cells(part))?;
        part += 1;
    }
    Ok(fields)
}

/// What the state makes known.
#[tactic(auto, unfolding(cjc_card_semantics::specs::Machine::ByToken::by_token))]
pub(crate) fn report<L: LookUps>(
    alloc: Global,
    links: &L,
    machine: Machine<'_>,
    outcome: Outcome,
) -> Result<Report, NoMemory>
    ensures { IfOk result (λ r. r ≡ report (by_token (L.loaded links.now)) outcome machine.entry) }
{
    let statics = cells_of(alloc, links, &machine.statics)?;
    let heap = things_of(alloc, links, &machine.heap)?;
    let spent = machine.spent;
    Ok(Report {
        notes: machine.into_notes(),
        statics,
        heap,
        outcome,
        spent,
    })
}
