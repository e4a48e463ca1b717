//! What several components share: lists with a count, and references to classes and static members (6.1, 6.7.3). Called
//! by the module of each component, of which it knows none.

ghost use Rattle.std.specs.Prelude.{◌≡◌};
ghost use Rattle.cjc_bytes.specs.Format.{repeated, u1, u2, raw};
ghost use Rattle.cjc_bytes.specs.Reading.{Reads};
ghost use Rattle.cjc_capread.specs.Parts.{bytes1, bytes2, items1, bytes_before, class_of, class_ref, package_of};
ghost use Rattle.cjc_capread.specs.Parts.{static_rest, static_ref};

use crate::tree::{ClassRef, StaticRef};
use cjc_bytes::{Bytes, Cursor, Row, Stop};
use std::alloc::Global;

#[tactic(auto, unfolding(cjc_bytes::specs::Format::raw))]
fn read_bytes(alloc: Global, count: u32, cursor: &mut Cursor<'_>) -> Result<Bytes, Stop>
    ensures { Reads (λ x. x) (raw count) cursor.old cursor.new result }
{
    let bytes = cursor.take(count)?;
    Ok(Bytes::copy_of(alloc, bytes)?)
}

/// Bytes behind their number of one byte.
#[tactic(auto, unfolding(crate::specs::Parts::bytes1, cjc_bytes::specs::Format::u1))]
pub(crate) fn read_bytes1(alloc: Global, cursor: &mut Cursor<'_>) -> Result<Bytes, Stop>
    ensures { Reads (λ x. x) bytes1 cursor.old cursor.new result }
{
    let count = cursor.u1()?;
    read_bytes(alloc, u32::from(count), cursor)
}

/// Bytes behind their number of two bytes.
#[tactic(auto, unfolding(crate::specs::Parts::bytes2, cjc_bytes::specs::Format::u2))]
pub(crate) fn read_bytes2(alloc: Global, cursor: &mut Cursor<'_>) -> Result<Bytes, Stop>
    ensures { Reads (λ x. x) bytes2 cursor.old cursor.new result }
{
    let count = cursor.u2()?;
    read_bytes(alloc, u32::from(count), cursor)
}

#[tactic(auto, unfolding(cjc_bytes::specs::Format::u1))]
fn read_item(cursor: &mut Cursor<'_>) -> Result<u8, Stop>
    ensures { Reads (λ x. x) u1 cursor.old cursor.new result }
{
    let item = cursor.u1()?;
    Ok(item)
}

/// So many items of one byte, one by one: where the bytes end among them, the first that is missing breaks.
#[tactic(auto, using(cjc_bytes::proofs::Loops::repeated_more, cjc_bytes::proofs::Loops::repeated_stops, cjc_bytes::proofs::Loops::repeated_all, cjc_bytes::proofs::Loops::with_none))]
pub(crate) fn read_items(alloc: Global, count: u8, cursor: &mut Cursor<'_>) -> Result<Bytes, Stop>
    ensures { Reads (λ xs. xs) (repeated count u1) cursor.old cursor.new result }
{
    let mut items = Row::new(alloc);
    for _ in 0..count {
        items.push(read_item(cursor)?)?;
    }
    Ok(items)
}

/// Items of one byte behind their number.
#[tactic(auto, unfolding(crate::specs::Parts::items1, cjc_bytes::specs::Format::u1))]
pub(crate) fn read_items1(alloc: Global, cursor: &mut Cursor<'_>) -> Result<Bytes, Stop>
    ensures { Reads (λ x. x) items1 cursor.old cursor.new result }
{
    let count = cursor.u1()?;
    read_items(alloc, count, cursor)
}

/// The bytes up to a place.
#[tactic(auto, unfolding(crate::specs::Parts::bytes_before))]
pub(crate) fn read_bytes_before(
    alloc: Global,
    end: u32,
    cursor: &mut Cursor<'_>,
) -> Result<Bytes, Stop>
    ensures { Reads (λ x. x) (bytes_before end) cursor.old cursor.new result }
{
    let at = cursor.at();
    read_bytes(alloc, end.saturating_sub(at), cursor)
}

#[tactic(auto, unfolding(cjc_bytes::specs::Format::u2))]
fn read_number(cursor: &mut Cursor<'_>) -> Result<u64, Stop>
    ensures { Reads (λ x. x) u2 cursor.old cursor.new result }
{
    let number = cursor.u2()?;
    Ok(u64::from(number))
}

/// So many numbers of two bytes.
#[tactic(auto, using(cjc_bytes::proofs::Loops::repeated_more, cjc_bytes::proofs::Loops::repeated_stops, cjc_bytes::proofs::Loops::repeated_all, cjc_bytes::proofs::Loops::with_none))]
pub(crate) fn read_numbers(
    alloc: Global,
    count: u16,
    cursor: &mut Cursor<'_>,
) -> Result<Row<u64>, Stop>
    ensures { Reads (λ xs. xs) (repeated count u2) cursor.old cursor.new result }
{
    let mut numbers = Row::new(alloc);
    for _ in 0..count {
        numbers.push(read_number(cursor)?)?;
    }
    Ok(numbers)
}

fn class_of(n: u16) -> ClassRef
    ensures { result ≡ class_of n }
{
    if n < 0x8000 {
        ClassRef::Inside(u64::from(n))
    } else {
        ClassRef::Outside {
            package: (n / 256 - 0x80) as u8,
            class: (n % 256) as u8,
        }
    }
}

/// A reference to a class, of this package or of an imported one.
#[tactic(auto, unfolding(crate::specs::Parts::class_ref))]
pub(crate) fn read_class_ref(cursor: &mut Cursor<'_>) -> Result<ClassRef, Stop>
    ensures { Reads (λ x. x) class_ref cursor.old cursor.new result }
{
    let n = cursor.u2()?;
    Ok(class_of(n))
}

/// So many references to classes.
#[tactic(auto, using(cjc_bytes::proofs::Loops::repeated_more, cjc_bytes::proofs::Loops::repeated_stops, cjc_bytes::proofs::Loops::repeated_all, cjc_bytes::proofs::Loops::with_none))]
pub(crate) fn read_class_refs(
    alloc: Global,
    count: u8,
    cursor: &mut Cursor<'_>,
) -> Result<Row<ClassRef>, Stop>
    ensures { Reads (λ xs. xs) (repeated count class_ref) cursor.old cursor.new result }
{
    let mut classes = Row::new(alloc);
    for _ in 0..count {
        classes.push(read_class_ref(cursor)?)?;
    }
    Ok(classes)
}

fn package_of(n: u8) -> Option<Option<u8>>
    ensures { result ≡ package_of n }
{
    if n == 0 {
        Some(None)
    } else if n < 0x80 {
        None
    } else {
        Some(Some(n - 0x80))
    }
}

#[tactic(auto, unfolding(crate::specs::Parts::static_rest, cjc_bytes::specs::Format::u1, cjc_bytes::specs::Format::u2))]
fn read_static_rest(imported: Option<u8>, cursor: &mut Cursor<'_>) -> Result<StaticRef, Stop>
    ensures { Reads (λ x. x) (static_rest imported) cursor.old cursor.new result }
{
    match imported {
        None => {
            let offset = cursor.u2()?;
            Ok(StaticRef::Inside(u64::from(offset)))
        }
        Some(package) => {
            let class = cursor.u1()?;
            let token = cursor.u1()?;
            Ok(StaticRef::Outside {
                package,
                class,
                token,
            })
        }
    }
}

/// A reference to a static field or a method, of this package or of an imported one.
#[tactic(auto, unfolding(crate::specs::Parts::static_ref))]
pub(crate) fn read_static_ref(cursor: &mut Cursor<'_>) -> Result<StaticRef, Stop>
    ensures { Reads (λ x. x) static_ref cursor.old cursor.new result }
{
    let at = cursor.at();
    let first = cursor.u1()?;
    match package_of(first) {
        Some(package) => read_static_rest(package, cursor),
        None => Err(Stop::Broken(at)),
    }
}
