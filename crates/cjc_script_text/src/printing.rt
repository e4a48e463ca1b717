//! A report printed line by line, as users and golden files see it. The only place that knows how values, notes
//! and heap objects look as text.

ghost use Rattle.std.specs.Prelude.{◌≡◌, ℕ, ◌++◌, ◌∷◌, [], map, codes, decimal, OnOk, IfOk, ◌<◌, ◌^◌, length};
ghost use Rattle.std.specs.List.{flat_map};
ghost use Rattle.cjc_script_text.specs.Printed.{object_text, value_text, value_words, method_word, field_word};
ghost use Rattle.cjc_script_text.specs.Printed.{note_line, static_line, field_value_word, field_words, thing_line};
ghost use Rattle.cjc_script_text.specs.Printed.{thing_lines, outcome_line, report_text};

use cjc_list::bytes::{Bytes, MemberId, NoMemory, Out};
use cjc_script::{FieldValue, Note, Outcome, Report, Thing, Value};
use itoa::Buffer;
use std::alloc::Global;

/// Appends these pieces.
#[tactic(auto, using(crate::proofs::Loops::flat_map_next, crate::proofs::Loops::flat_map_ends))]
fn put_all(out: &mut Out, pieces: &[&[u8]]) -> Result<(), NoMemory>
    ensures { OnOk result (out.new ≡ out.old ++ flat_map (λ p. p.now) pieces.now) }
{
    for piece in pieces {
        out.put_slice(piece)?;
    }
    Ok(())
}

/// Appends the object's number.
fn put_object(out: &mut Out, number: usize) -> Result<(), NoMemory>
    ensures { OnOk result (out.new ≡ out.old ++ object_text number) }
{
    let mut buffer = Buffer::new();
    put_all(out, &[b"@", buffer.format(number).as_bytes()])
}

/// Appends a value.
fn put_value(out: &mut Out, value: Value) -> Result<(), NoMemory>
    ensures { OnOk result (out.new ≡ out.old ++ value_text value) }
{
    let mut buffer = Buffer::new();
    match value {
        Value::Num(number) => out.put_slice(buffer.format(number).as_bytes()),
        Value::Null => out.put_slice(b"null"),
        Value::Obj(object) => put_object(out, object as usize),
    }
}

/// Appends a value behind a space.
#[tactic(auto, using(crate::proofs::Loops::seams))]
fn put_word(out: &mut Out, value: Value) -> Result<(), NoMemory>
    ensures { OnOk result (out.new ≡ out.old ++ 32 ∷ value_text value) }
{
    out.put1(b' ')?;
    put_value(out, value)
}

/// Appends each of these values behind a space.
#[tactic(auto, using(crate::proofs::Loops::flat_map_next, crate::proofs::Loops::flat_map_ends))]
fn put_values(out: &mut Out, values: &[Value]) -> Result<(), NoMemory>
    ensures { OnOk result (out.new ≡ out.old ++ value_words values.now) }
{
    for value in values {
        put_word(out, *value)?;
    }
    Ok(())
}

/// Appends a method by its class, name and descriptor.
fn put_method(out: &mut Out, method: &MemberId) -> Result<(), NoMemory>
    ensures { OnOk result (out.new ≡ out.old ++ method_word method.now) }
{
    put_all(
        out,
        &[
            method.class.items(),
            b".",
            method.name.items(),
            method.desc.items(),
        ],
    )
}

/// Appends a field by its class, name and descriptor.
fn put_field(out: &mut Out, field: &MemberId) -> Result<(), NoMemory>
    ensures { OnOk result (out.new ≡ out.old ++ field_word field.now) }
{
    put_all(
        out,
        &[
            field.class.items(),
            b".",
            field.name.items(),
            b":",
            field.desc.items(),
        ],
    )
}

/// Appends the line of an imported call.
#[tactic(auto, using(crate::proofs::Loops::seams))]
fn put_event(out: &mut Out, callee: &MemberId, args: &[Value]) -> Result<(), NoMemory>
    ensures { OnOk result (out.new ≡ out.old ++ (codes "event " ++ method_word callee.now ++ value_words args.now
        ++ 10 ∷ [])) }
{
    out.put_slice(b"event ")?;
    put_method(out, callee)?;
    put_values(out, args)?;
    out.put1(b'\n')
}

/// Appends the line of a result.
#[tactic(auto, using(crate::proofs::Loops::seams))]
fn put_result(out: &mut Out, value: Value) -> Result<(), NoMemory>
    ensures { OnOk result (out.new ≡ out.old ++ (codes "result " ++ value_text value ++ 10 ∷ [])) }
{
    out.put_slice(b"result ")?;
    put_value(out, value)?;
    out.put1(b'\n')
}

/// Appends the line of an exception.
#[tactic(auto, using(crate::proofs::Loops::seams))]
fn put_thrown(out: &mut Out, class: &[u8], object: u32) -> Result<(), NoMemory>
    ensures { OnOk result (out.new ≡ out.old ++ (codes "thrown " ++ class.now ++ (32 ∷ object_text object)
        ++ 10 ∷ [])) }
{
    put_all(out, &[b"thrown ", class, b" "])?;
    put_object(out, object as usize)?;
    out.put1(b'\n')
}

/// Appends the line of a note.
fn put_note(out: &mut Out, note: &Note) -> Result<(), NoMemory>
    ensures { OnOk result (out.new ≡ out.old ++ note_line note.now) }
{
    match note {
        Note::Event { callee, args } => put_event(out, callee, args.items()),
        Note::Result(None) => out.put_slice(b"result void\n"),
        Note::Result(Some(value)) => put_result(out, *value),
        Note::Thrown { class, object } => put_thrown(out, class.items(), *object),
    }
}

/// Appends the lines of notes.
#[tactic(auto, using(crate::proofs::Loops::flat_map_next, crate::proofs::Loops::flat_map_ends))]
fn put_notes(out: &mut Out, notes: &[Note]) -> Result<(), NoMemory>
    ensures { OnOk result (out.new ≡ out.old ++ flat_map note_line notes.now) }
{
    for note in notes {
        put_note(out, note)?;
    }
    Ok(())
}

/// Appends the line of a static cell.
#[tactic(auto, using(crate::proofs::Loops::seams))]
fn put_static(out: &mut Out, cell: &FieldValue) -> Result<(), NoMemory>
    ensures { OnOk result (out.new ≡ out.old ++ static_line cell.now) }
{
    out.put_slice(b"static ")?;
    put_field(out, &cell.field)?;
    out.put1(b' ')?;
    put_value(out, cell.value)?;
    out.put1(b'\n')
}

/// Appends the lines of static cells.
#[tactic(auto, using(crate::proofs::Loops::flat_map_next, crate::proofs::Loops::flat_map_ends))]
fn put_statics(out: &mut Out, cells: &[FieldValue]) -> Result<(), NoMemory>
    ensures { OnOk result (out.new ≡ out.old ++ flat_map static_line cells.now) }
{
    for cell in cells {
        put_static(out, cell)?;
    }
    Ok(())
}

/// Appends a field of an object and its value, behind a space.
#[tactic(auto, using(crate::proofs::Loops::seams))]
fn put_field_value(out: &mut Out, field: &FieldValue) -> Result<(), NoMemory>
    ensures { OnOk result (out.new ≡ out.old ++ field_value_word field.now) }
{
    out.put1(b' ')?;
    put_field(out, &field.field)?;
    out.put1(b'=')?;
    put_value(out, field.value)
}

/// Appends the fields of an object and their values.
#[tactic(auto, using(crate::proofs::Loops::flat_map_next, crate::proofs::Loops::flat_map_ends))]
fn put_fields(out: &mut Out, fields: &[FieldValue]) -> Result<(), NoMemory>
    ensures { OnOk result (out.new ≡ out.old ++ field_words fields.now) }
{
    for field in fields {
        put_field_value(out, field)?;
    }
    Ok(())
}

/// Appends the line of an array.
#[tactic(auto, using(crate::proofs::Loops::seams))]
fn put_array(out: &mut Out, number: usize, desc: &[u8], items: &[Value]) -> Result<(), NoMemory>
    ensures { OnOk result (out.new ≡ out.old ++ (codes "array " ++ object_text number ++ (32 ∷ desc.now)
        ++ value_words items.now ++ 10 ∷ [])) }
{
    out.put_slice(b"array ")?;
    put_object(out, number)?;
    put_all(out, &[b" ", desc])?;
    put_values(out, items)?;
    out.put1(b'\n')
}

/// Appends the line of an object.
#[tactic(auto, using(crate::proofs::Loops::seams))]
fn put_instance(
    out: &mut Out,
    number: usize,
    class: &[u8],
    fields: &[FieldValue],
) -> Result<(), NoMemory>
    ensures { OnOk result (out.new ≡ out.old ++ (codes "object " ++ object_text number ++ (32 ∷ class.now)
        ++ field_words fields.now ++ 10 ∷ [])) }
{
    out.put_slice(b"object ")?;
    put_object(out, number)?;
    put_all(out, &[b" ", class])?;
    put_fields(out, fields)?;
    out.put1(b'\n')
}

/// Appends the line of an array or an object.
fn put_thing(out: &mut Out, number: usize, thing: &Thing) -> Result<(), NoMemory>
    ensures { OnOk result (out.new ≡ out.old ++ thing_line number thing.now) }
{
    match thing {
        Thing::Array { desc, items } => put_array(out, number, desc.items(), items.items()),
        Thing::Object { class, fields } => put_instance(out, number, class.items(), fields.items()),
    }
}

/// Appends the lines of arrays and objects, numbered from 0.
#[tactic(auto, using(crate::proofs::Loops::things_next, crate::proofs::Loops::things_end))]
fn put_heap(out: &mut Out, heap: &[Thing]) -> Result<(), NoMemory>
    ensures { OnOk result (out.new ≡ out.old ++ thing_lines 0 heap.now) }
{
    for (number, thing) in heap.iter().enumerate() {
        put_thing(out, number, thing)?;
    }
    Ok(())
}

/// Appends the line of an outcome that has a number.
fn put_numbered(out: &mut Out, keyword: &[u8], number: u32) -> Result<(), NoMemory>
    ensures { OnOk result (out.new ≡ out.old ++ (keyword.now ++ decimal number ++ 10 ∷ [])) }
{
    let mut buffer = Buffer::new();
    put_all(out, &[keyword, buffer.format(number).as_bytes(), b"\n"])
}

/// Appends the line of an outcome.
fn put_outcome(out: &mut Out, outcome: Outcome) -> Result<(), NoMemory>
    ensures { OnOk result (out.new ≡ out.old ++ outcome_line outcome) }
{
    match outcome {
        Outcome::Done => out.put_slice(b"done\n"),
        Outcome::Running => out.put_slice(b"running\n"),
        Outcome::Waiting => out.put_slice(b"waiting\n"),
        Outcome::Unfit(number) => put_numbered(out, b"unfit ", number),
        Outcome::Stuck(at) => put_numbered(out, b"stuck ", at),
    }
}

/// The lines of a report: its notes, the static cells, the arrays and objects, and the outcome. Each ends with a
/// line feed.
#[tactic(auto, using(crate::proofs::Loops::seams))]
pub fn print(alloc: Global, report: &Report) -> Result<Bytes, NoMemory>
    ensures { IfOk result (λ text. text ≡ report_text report.now) }
{
    let mut out = Out::new(alloc);
    put_notes(&mut out, report.notes.items())?;
    put_statics(&mut out, report.statics.items())?;
    put_heap(&mut out, report.heap.items())?;
    put_outcome(&mut out, report.outcome)?;
    Ok(out.finish())
}
