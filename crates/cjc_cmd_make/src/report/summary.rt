//! The summary of a package and of its two runs, as lines. Called by making.rt. It knows no machine.

ghost use Rattle.std.specs.Prelude.{◌≡◌, ◌≤◌, ◌++◌, [], codes, count_by, decimal, IfOk, OnOk};
ghost use Rattle.cjc_cmd_card.specs.LowerScriptText.Printed.{line, value_text};
ghost use Rattle.cjc_cmd_make.specs.Report.Summary.{agree_word, is_result, last_result, package_lines, prints_alike};
ghost use Rattle.cjc_cmd_make.specs.Report.Summary.{run_lines, size_item, summary_lines, value_of};

use cjc_cmd_card::script_text::print;
use cjc_cmd_convert::bytes::{Bytes, NoMemory, Out, Row};
use cjc_cmd_convert::script::{Note, Report, Value};
use cjc_cmd_convert::shelf::command::Todo;
use itoa::Buffer;
use std::alloc::Global;

/// The size item of a component.
pub(crate) fn size_item(component: &[u8]) -> u32
    ensures { result ≡ size_item component.now }
{
    match component {
        [_tag, high, low, _info @ ..] => 256 * u32::from(*high) + u32::from(*low),
        _ => 0,
    }
}

/// Whether an entry ended with a result.
fn is_result(note: &Note) -> bool
    ensures { result ≡ is_result note.now }
{
    matches!(note, Note::Result(_))
}

/// How many entries ended with a result.
fn result_count(notes: &[Note]) -> usize
    ensures { result ≡ count_by is_result notes.now }
{
    notes.iter().filter(|note| is_result(note)).count()
}

/// The value that an entry ended with, where it ended with one.
fn value_of(note: &Note) -> Option<Value>
    ensures { result ≡ value_of note.now }
{
    match note {
        Note::Result(value) => *value,
        _ => None,
    }
}

/// The value of the last result, 0 where there is none.
fn last_result(notes: &[Note]) -> Value
    ensures { result ≡ last_result notes.now }
{
    let mut last = Value::Num(0);
    let mut left = notes;
    while let [note, rest @ ..] = left {
        if let Some(value) = value_of(note) {
            last = value;
        }
        left = rest;
    }
    last
}

/// A value as a report prints it.
fn value_text(alloc: Global, value: Value) -> Result<Bytes, NoMemory>
    ensures { IfOk result (λ text. text ≡ value_text value) }
{
    let mut text = Out::new(alloc);
    let mut buffer = Buffer::new();
    match value {
        Value::Num(number) => text.put_slice(buffer.format(number).as_bytes())?,
        Value::Null => text.put_slice(b"null")?,
        Value::Obj(object) => {
            text.put_slice(b"@")?;
            text.put_slice(buffer.format(object).as_bytes())?;
        }
    }
    Ok(text.finish())
}

/// A line of a label and a text.
fn text_line(alloc: Global, label: &[u8], text: &[u8]) -> Result<Bytes, NoMemory>
    ensures { IfOk result (λ bytes. bytes ≡ line (label.now ++ text.now)) }
{
    let mut bytes = Out::new(alloc);
    bytes.put_slice(label)?;
    bytes.put_slice(text)?;
    bytes.put_slice(b"\n")?;
    Ok(bytes.finish())
}

/// A line of a label and a number.
fn count_line(alloc: Global, label: &[u8], count: usize) -> Result<Bytes, NoMemory>
    ensures { IfOk result (λ bytes. bytes ≡ line (label.now ++ decimal count)) }
{
    let mut buffer = Buffer::new();
    text_line(alloc, label, buffer.format(count).as_bytes())
}

/// The line of the instructions that were spent.
fn spent_line(alloc: Global, by_name: u32, by_token: u32) -> Result<Bytes, NoMemory>
    ensures { IfOk result (λ bytes. bytes ≡ line (codes "instructions " ++ decimal by_name ++ codes " "
        ++ decimal by_token)) }
{
    let mut bytes = Out::new(alloc);
    let mut first = Buffer::new();
    let mut second = Buffer::new();
    bytes.put_slice(b"instructions ")?;
    bytes.put_slice(first.format(by_name).as_bytes())?;
    bytes.put_slice(b" ")?;
    bytes.put_slice(second.format(by_token).as_bytes())?;
    bytes.put_slice(b"\n")?;
    Ok(bytes.finish())
}

/// Whether reports are the same as they are printed.
fn prints_alike(alloc: Global, left: &Report, right: &Report) -> Result<bool, NoMemory>
    ensures { IfOk result (λ alike. alike ≡ prints_alike left.now right.now) }
{
    let left = print(alloc, left)?;
    let right = print(alloc, right)?;
    Ok(left.items() == right.items())
}

/// The line that says so.
fn agree_line(alloc: Global, alike: bool) -> Result<Bytes, NoMemory>
    ensures { IfOk result (λ bytes. bytes ≡ line (agree_word alike)) }
{
    if alike {
        Bytes::copy_of(alloc, b"agree\n")
    } else {
        Bytes::copy_of(alloc, b"differ\n")
    }
}

/// The lines of the package: its classes, its methods, and the size of Method.
fn package_lines(alloc: Global, size: u32, method_bytes: u32) -> Result<Row<Bytes>, NoMemory>
    requires { size ≤ 250 }
    ensures { IfOk result (λ lines. lines ≡ package_lines size method_bytes) }
{
    let mut lines = Row::new(alloc);
    lines.push(count_line(alloc, b"classes ", size as usize)?)?;
    lines.push(count_line(alloc, b"methods ", (3 * size) as usize)?)?;
    lines.push(count_line(alloc, b"method bytes ", method_bytes as usize)?)?;
    Ok(lines)
}

/// Appends the lines of the runs.
fn put_runs(
    alloc: Global,
    lines: &mut Row<Bytes>,
    by_name: &Report,
    by_token: &Report,
) -> Result<(), NoMemory>
    ensures { OnOk result (lines.new ≡ lines.old ++ run_lines by_name.now by_token.now) }
{
    let notes = by_name.notes.items();
    let last = value_text(alloc, last_result(notes))?;
    let alike = prints_alike(alloc, by_name, by_token)?;
    lines.push(count_line(alloc, b"calls ", result_count(notes))?)?;
    lines.push(spent_line(alloc, by_name.spent, by_token.spent)?)?;
    lines.push(text_line(alloc, b"last ", last.items())?)?;
    lines.push(agree_line(alloc, alike)?)?;
    Ok(())
}

/// What is printed of a package with these reports.
pub(crate) fn summary(
    alloc: Global,
    size: u32,
    method_bytes: u32,
    by_name: &Report,
    by_token: &Report,
) -> Result<Todo, NoMemory>
    requires { size ≤ 250 }
    ensures { IfOk result (λ todo. todo ≡ record {
      files = [];
      lines = summary_lines size method_bytes by_name.now
          by_token.now;
    }) }
{
    let mut lines = package_lines(alloc, size, method_bytes)?;
    put_runs(alloc, &mut lines, by_name, by_token)?;
    Ok(Todo {
        files: Row::new(alloc),
        lines,
    })
}
