//! The report of a state by name: its notes, static fields, heap, outcome and count of instructions, with
//! copies of what they tell.

ghost use Rattle.std.specs.Prelude.{◌≡◌, length, IfOk};
ghost use Rattle.cjc_jvm_semantics.specs.Machine.{report};
ghost use Rattle.cjc_jvm_step.specs.Heap.Objects.{fields_with};

use crate::turns::{Machine, copy_of, member_of};
use cjc_jvm_semantics::bytes::{Bytes, NoMemory, Row};
use cjc_jvm_semantics::script::{FieldValue, Outcome, Report, Thing, Value};
use cjc_jvm_step::heap::{Heap, HeapObject, Parts, Statics};
use std::alloc::Global;

// Fields with what they hold.
fn fields_of(
    alloc: Global,
    fresh: &[FieldValue],
    values: &[Value],
) -> Result<Row<FieldValue>, NoMemory>
    requires { length values.now ≡ length fresh.now }
    ensures { IfOk result (λ fields. fields ≡ fields_with fresh.now values.now) }
{
    let mut fields = Row::new(alloc);
    for i in 0..fresh.len() {
        let id = &fresh[i].field;
        let field = member_of(alloc, id.class.items(), id)?;
        fields.push(FieldValue {
            field,
            value: values[i],
        })?;
    }
    Ok(fields)
}

// An array or object.
fn thing_of(alloc: Global, object: &HeapObject<'_>) -> Result<Thing, NoMemory>
    ensures { IfOk result (λ thing. thing ≡ object.now) }
{
    let name = Bytes::copy_of(alloc, object.type_name())?;
    match object.parts() {
        Parts::Items(items) => Ok(Thing::Array {
            desc: name,
            items: copy_of(alloc, items)?,
        }),
        Parts::Fields(fresh, values) => Ok(Thing::Object {
            class: name,
            fields: fields_of(alloc, fresh, values)?,
        }),
    }
}

// All arrays and objects.
fn things_of(alloc: Global, heap: &Heap<'_>) -> Result<Row<Thing>, NoMemory>
    ensures { IfOk result (λ things. things ≡ heap.now) }
{
    let mut things = Row::new(alloc);
    for k in 0..heap.len() {
        if let Some(object) = heap.get(k) {
            things.push(thing_of(alloc, object)?)?;
        }
    }
    Ok(things)
}

// The static cells.
fn cells_of(alloc: Global, statics: &Statics<'_>) -> Result<Row<FieldValue>, NoMemory>
    ensures { IfOk result (λ cells. cells ≡ statics.now) }
{
    let (fresh, values) = statics.cells();
    Ok(fields_of(alloc, fresh, values)?)
}

/// What the state makes known.
pub(crate) fn report(
    alloc: Global,
    machine: Machine<'_>,
    outcome: Outcome,
) -> Result<Report, NoMemory>
    ensures { IfOk result (λ r. r ≡ report outcome machine.entry) }
{
    let statics = cells_of(alloc, &machine.statics)?;
    let heap = things_of(alloc, &machine.heap)?;
    let spent = machine.spent;
    Ok(Report {
        notes: machine.into_notes(),
        statics,
        heap,
        outcome,
        spent,
    })
}
