//! The notes of imported calls and of entries that end by an exception, with copies of what they tell. Notes
//! are what a report tells of the time before its end.

ghost use Rattle.std.specs.Prelude.{◌≡◌, IfOk};
ghost use Rattle.cjc_jvm_semantics.specs.OnePackage.{of_class};
ghost use Rattle.cjc_jvm_step.specs.Script.declared.report.Note.TheVariants.{Event, Thrown};

use cjc_jvm_semantics::bytes::{Bytes, MemberId, NoMemory, Row};
use cjc_jvm_semantics::script::{Note, Value};
use std::alloc::Global;

/// A copy of some values.
pub fn copy_of(alloc: Global, values: &[Value]) -> Result<Row<Value>, NoMemory>
    ensures { IfOk result (λ row. row ≡ values.now) }
{
    let mut row = Row::new(alloc);
    for value in values {
        row.push(*value)?;
    }
    Ok(row)
}

/// A member with the name and descriptor of another, of a class.
pub fn member_of(alloc: Global, class: &[u8], id: &MemberId) -> Result<MemberId, NoMemory>
    ensures { IfOk result (λ m. m ≡ of_class class.now id.now) }
{
    let class = Bytes::copy_of(alloc, class)?;
    let name = Bytes::copy_of(alloc, id.name.items())?;
    let desc = Bytes::copy_of(alloc, id.desc.items())?;
    Ok(MemberId { class, name, desc })
}

/// An imported call.
pub fn event(alloc: Global, class: &[u8], id: &MemberId, args: &[Value]) -> Result<Note, NoMemory>
    ensures { IfOk result (λ note. note ≡ Event (of_class class.now id.now) args.now) }
{
    let callee = member_of(alloc, class, id)?;
    let args = copy_of(alloc, args)?;
    Ok(Note::Event { callee, args })
}

/// An entry that ended by an exception.
pub fn thrown(alloc: Global, class: &[u8], object: u32) -> Result<Note, NoMemory>
    ensures { IfOk result (λ note. note ≡ Thrown class.now object) }
{
    let class = Bytes::copy_of(alloc, class)?;
    Ok(Note::Thrown { class, object })
}
