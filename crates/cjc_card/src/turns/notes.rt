//! The note of an imported call, with copies of its arguments. Notes are what a report tells of the time before
//! its end.

ghost use Rattle.std.specs.Prelude.{◌≡◌, IfOk};
ghost use Rattle.cjc_script.specs.declared.report.Note.TheVariants.{Event, Thrown};
ghost use Rattle.cjc_card_frame.specs.Kinds.{method_id};

use cjc_card_frame::parts::ImportedMethod;
use cjc_script::bytes::{Bytes, MemberId, NoMemory, Row};
use cjc_script::{Note, Value};
use std::alloc::Global;

/// A copy of some values.
pub fn copy_of(alloc: Global, values: &[Value]) -> Result<Row<Value>, NoMemory>
    ensures { IfOk result (λ row. row ≡ values.now) }
{
    let mut row = Row::new(alloc);
    for value in values {
        row.push(*value)?;
    }
    Ok(row)
}

/// An imported call with its arguments.
pub(crate) fn event(
    alloc: Global,
    method: ImportedMethod<'_>,
    args: Row<Value>,
) -> Result<Note, NoMemory>
    ensures { IfOk result (λ note. note ≡ Event (method_id method.entry) args) }
{
    let class = Bytes::copy_of(alloc, method.class)?;
    let name = Bytes::copy_of(alloc, method.name)?;
    let desc = Bytes::copy_of(alloc, method.desc)?;
    let callee = MemberId { class, name, desc };
    Ok(Note::Event { callee, args })
}
