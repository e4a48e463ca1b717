//! The component Export: offsets of what other packages can use, by token (6.12). Called by `component`. It does not
//! ask what the offsets lead to.

ghost use Rattle.cjc_bytes.specs.Format.{repeated};
ghost use Rattle.cjc_bytes.specs.Reading.{Reads};
ghost use Rattle.cjc_capread.specs.Export.{exported_class, export};

use crate::parts::read_numbers;
use crate::tree::{Export, ExportedClass};
use cjc_bytes::{Cursor, Row, Stop};
use std::alloc::Global;

#[tactic(auto, unfolding(crate::specs::Export::exported_class, cjc_bytes::specs::Format::u1, cjc_bytes::specs::Format::u2))]
fn read_exported_class(alloc: Global, cursor: &mut Cursor<'_>) -> Result<ExportedClass, Stop>
    ensures { Reads (λ x. x) exported_class cursor.old cursor.new result }
{
    let class_offset = cursor.u2()?;
    let field_count = cursor.u1()?;
    let method_count = cursor.u1()?;
    let fields = read_numbers(alloc, u16::from(field_count), cursor)?;
    let methods = read_numbers(alloc, u16::from(method_count), cursor)?;
    Ok(ExportedClass {
        class_offset: u64::from(class_offset),
        fields,
        methods,
    })
}

#[tactic(auto, using(cjc_bytes::proofs::Loops::repeated_more, cjc_bytes::proofs::Loops::repeated_stops, cjc_bytes::proofs::Loops::repeated_all, cjc_bytes::proofs::Loops::with_none))]
fn read_exported_classes(
    alloc: Global,
    count: u8,
    cursor: &mut Cursor<'_>,
) -> Result<Row<ExportedClass>, Stop>
    ensures { Reads (λ xs. xs) (repeated count exported_class) cursor.old cursor.new result }
{
    let mut classes = Row::new(alloc);
    for _ in 0..count {
        classes.push(read_exported_class(alloc, cursor)?)?;
    }
    Ok(classes)
}

/// The content of an Export component: the classes it exports.
#[tactic(auto, unfolding(crate::specs::Export::export, cjc_bytes::specs::Format::u1))]
pub(crate) fn read_export(alloc: Global, cursor: &mut Cursor<'_>) -> Result<Export, Stop>
    ensures { Reads (λ x. x) export cursor.old cursor.new result }
{
    let count = cursor.u1()?;
    let classes = read_exported_classes(alloc, count, cursor)?;
    Ok(Export { classes })
}
