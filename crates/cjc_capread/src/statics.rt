//! The components StaticField and ReferenceLocation (6.10, 6.11). Called by `component`. Distances are bytes here: what
//! place each leads to is said where they are used.

ghost use Rattle.cjc_bytes.specs.Format.{repeated};
ghost use Rattle.cjc_bytes.specs.Reading.{Reads};
ghost use Rattle.cjc_capread.specs.StaticField.{array_init, static_field};
ghost use Rattle.cjc_capread.specs.ReferenceLocation.{reference_location};

use crate::parts::read_bytes2;
use crate::tree::{ArrayInit, ReferenceLocation, StaticField};
use cjc_bytes::{Cursor, Row, Stop};
use std::alloc::Global;

#[tactic(auto, unfolding(crate::specs::StaticField::array_init))]
fn read_array_init(alloc: Global, cursor: &mut Cursor<'_>) -> Result<ArrayInit, Stop>
    ensures { Reads (λ x. x) array_init cursor.old cursor.new result }
{
    let at = cursor.at();
    let type_ = cursor.u1()?;
    if type_ < 2 || type_ > 5 {
        return Err(Stop::Broken(at));
    }
    let values = read_bytes2(alloc, cursor)?;
    Ok(ArrayInit { type_, values })
}

#[tactic(auto, using(cjc_bytes::proofs::Loops::repeated_more, cjc_bytes::proofs::Loops::repeated_stops, cjc_bytes::proofs::Loops::repeated_all, cjc_bytes::proofs::Loops::with_none))]
fn read_array_inits(
    alloc: Global,
    count: u16,
    cursor: &mut Cursor<'_>,
) -> Result<Row<ArrayInit>, Stop>
    ensures { Reads (λ xs. xs) (repeated count array_init) cursor.old cursor.new result }
{
    let mut array_inits = Row::new(alloc);
    for _ in 0..count {
        array_inits.push(read_array_init(alloc, cursor)?)?;
    }
    Ok(array_inits)
}

/// The content of a Static Field component: the sizes of the image and the values it starts with.
#[tactic(auto, unfolding(crate::specs::StaticField::static_field, cjc_bytes::specs::Format::u2))]
pub(crate) fn read_static_field(alloc: Global, cursor: &mut Cursor<'_>) -> Result<StaticField, Stop>
    ensures { Reads (λ x. x) static_field cursor.old cursor.new result }
{
    let image_size = cursor.u2()?;
    let reference_count = cursor.u2()?;
    let count = cursor.u2()?;
    let array_inits = read_array_inits(alloc, count, cursor)?;
    let default_value_count = cursor.u2()?;
    let values = read_bytes2(alloc, cursor)?;
    Ok(StaticField {
        image_size: u64::from(image_size),
        reference_count: u64::from(reference_count),
        array_inits,
        default_value_count: u64::from(default_value_count),
        values,
    })
}

/// The content of a Reference Location component: where one-byte and two-byte indices of the pool lie in the methods.
#[tactic(auto, unfolding(crate::specs::ReferenceLocation::reference_location))]
pub(crate) fn read_reference_location(
    alloc: Global,
    cursor: &mut Cursor<'_>,
) -> Result<ReferenceLocation, Stop>
    ensures { Reads (λ x. x) reference_location cursor.old cursor.new result }
{
    let one_byte = read_bytes2(alloc, cursor)?;
    let two_byte = read_bytes2(alloc, cursor)?;
    Ok(ReferenceLocation { one_byte, two_byte })
}
