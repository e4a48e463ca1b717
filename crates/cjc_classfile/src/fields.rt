//! Fields, and attributes that are skipped (Java Virtual Machine Specification, sections 4.5 and 4.7).

ghost use Rattle.std.specs.Prelude.{◌≡◌, None};
ghost use Rattle.std.specs.Option.{option_copied};
ghost use Rattle.cjc_bytes.specs.Format.{iterated, repeated};
ghost use Rattle.cjc_bytes.specs.Reading.{Reads};
ghost use Rattle.cjc_classfile.specs.Members.{text_field, desc_field, class_field, skipped, attribute, constant_at};
ghost use Rattle.cjc_classfile.specs.Members.{constant_content, constant_name_at, field_attribute, field_tree};

use crate::items::{class_name_at, desc_of_at, text_at};
use crate::pool::{Entry, EntryKind};
use crate::tree::FieldTree;
use cjc_bytes::{Bytes, Cursor, Row, Stop, is_static};
use std::alloc::Global;

/// Reads an index of the constant pool, and answers the text that it names.
#[tactic(auto, unfolding(crate::specs::Members::text_field))]
pub(crate) fn read_text<'a>(pool: &[Entry<'a>], cursor: &mut Cursor<'_>) -> Result<&'a [u8], Stop>
    ensures { Reads (λ bytes. bytes.now) (text_field pool.now) cursor.old cursor.new result }
{
    let at = cursor.at();
    let index = cursor.u2()?;
    text_at(pool, index).ok_or(Stop::Broken(at))
}

/// Reads an index of the constant pool, and answers the descriptor of a field or of a method that it names.
#[tactic(auto, unfolding(crate::specs::Members::desc_field))]
pub(crate) fn read_desc<'a>(
    pool: &[Entry<'a>],
    is_method: bool,
    cursor: &mut Cursor<'_>,
) -> Result<&'a [u8], Stop>
    ensures { Reads (λ bytes. bytes.now) (desc_field pool.now is_method) cursor.old cursor.new result }
{
    let at = cursor.at();
    let index = cursor.u2()?;
    desc_of_at(pool, is_method, index).ok_or(Stop::Broken(at))
}

/// Reads an index of the constant pool, and answers the name of the class that it names.
#[tactic(auto, unfolding(crate::specs::Members::class_field))]
pub(crate) fn read_class<'a>(pool: &[Entry<'a>], cursor: &mut Cursor<'_>) -> Result<&'a [u8], Stop>
    ensures { Reads (λ bytes. bytes.now) (class_field pool.now) cursor.old cursor.new result }
{
    let at = cursor.at();
    let index = cursor.u2()?;
    class_name_at(pool, index).ok_or(Stop::Broken(at))
}

/// Passes over what stands in an attribute behind its name.
#[tactic(auto, unfolding(crate::specs::Members::skipped, cjc_bytes::specs::Format::u4, cjc_bytes::specs::Format::raw))]
pub(crate) fn skip_content(cursor: &mut Cursor<'_>) -> Result<(), Stop>
    ensures { Reads (λ x. x) skipped cursor.old cursor.new result }
{
    let length = cursor.u4()?;
    cursor.take(length)?;
    Ok(())
}

/// Passes over an attribute, whatever it says; its name has to be a text.
#[tactic(auto, unfolding(crate::specs::Members::attribute))]
pub(crate) fn skip_attribute(pool: &[Entry<'_>], cursor: &mut Cursor<'_>) -> Result<(), Stop>
    ensures { Reads (λ x. x) (attribute pool.now) cursor.old cursor.new result }
{
    read_text(pool, cursor)?;
    skip_content(cursor)
}

/// What an entry is worth as a constant: a number, or something else that may be one.
#[tactic(auto, unfolding(crate::specs::Members::constant_at))]
fn constant_at(pool: &[Entry<'_>], index: u16) -> Option<Option<i32>>
    ensures { result ≡ constant_at pool.now index }
{
    let entry = pool.get(usize::from(index))?;
    match entry.kind {
        EntryKind::Integer(n) => Some(Some(n)),
        EntryKind::Float | EntryKind::Wide | EntryKind::String(_) => Some(None),
        _ => None,
    }
}

#[tactic(auto, unfolding(crate::specs::Members::constant_name_at))]
fn constant_name_at(
    pool: &[Entry<'_>],
    is_static: bool,
    so_far: Option<Option<i32>>,
    index: u16,
) -> Option<bool>
    ensures { result ≡ constant_name_at pool.now is_static so_far index }
{
    let name = text_at(pool, index)?;
    let is_constant = is_static && name == b"ConstantValue".as_slice();
    if is_constant && so_far.is_some() {
        None
    } else {
        Some(is_constant)
    }
}

#[tactic(auto, unfolding(crate::specs::Members::constant_content))]
fn read_constant(
    pool: &[Entry<'_>],
    is_constant: bool,
    so_far: Option<Option<i32>>,
    cursor: &mut Cursor<'_>,
) -> Result<Option<Option<i32>>, Stop>
    ensures { Reads (λ x. x) (constant_content pool.now is_constant so_far) cursor.old cursor.new result }
{
    if !is_constant {
        skip_content(cursor)?;
        return Ok(so_far);
    }
    let at = cursor.at();
    if cursor.u4()? != 2 {
        return Err(Stop::Broken(at));
    }
    let at = cursor.at();
    let index = cursor.u2()?;
    let value = constant_at(pool, index).ok_or(Stop::Broken(at))?;
    Ok(Some(value))
}

#[tactic(auto, unfolding(crate::specs::Members::field_attribute))]
fn read_field_attribute(
    pool: &[Entry<'_>],
    is_static: bool,
    behind: u16,
    so_far: Option<Option<i32>>,
    cursor: &mut Cursor<'_>,
) -> Result<Option<Option<i32>>, Stop>
    ensures { Reads (λ x. x) (field_attribute pool.now is_static behind so_far) cursor.old cursor.new result }
{
    let at = cursor.at();
    let index = cursor.u2()?;
    let is_constant = constant_name_at(pool, is_static, so_far, index).ok_or(Stop::Broken(at))?;
    read_constant(pool, is_constant, so_far, cursor)
}

#[tactic(auto, using(cjc_bytes::proofs::Loops::iterated_more, cjc_bytes::proofs::Loops::iterated_stops, cjc_bytes::proofs::Loops::iterated_all))]
fn read_field_attributes(
    pool: &[Entry<'_>],
    is_static: bool,
    count: u16,
    cursor: &mut Cursor<'_>,
) -> Result<Option<Option<i32>>, Stop>
    ensures { Reads (λ x. x) (iterated count (field_attribute pool.now is_static) None) cursor.old cursor.new result }
{
    let mut so_far = None;
    for behind in (0..count).rev() {
        so_far = read_field_attribute(pool, is_static, behind, so_far, cursor)?;
    }
    Ok(so_far)
}

#[tactic(auto, unfolding(crate::specs::Members::field_tree, cjc_bytes::specs::Format::u2))]
fn read_field(alloc: Global, pool: &[Entry<'_>], cursor: &mut Cursor<'_>) -> Result<FieldTree, Stop>
    ensures { Reads (λ f. f) (field_tree pool.now) cursor.old cursor.new result }
{
    let flags = cursor.u2()?;
    let name = read_text(pool, cursor)?;
    let desc = read_desc(pool, false, cursor)?;
    let count = cursor.u2()?;
    let constant = read_field_attributes(pool, is_static(flags), count, cursor)?;
    Ok(FieldTree {
        flags,
        name: Bytes::copy_of(alloc, name)?,
        desc: Bytes::copy_of(alloc, desc)?,
        constant: constant.flatten(),
    })
}

/// Reads so many fields of a class.
#[tactic(auto, using(cjc_bytes::proofs::Loops::repeated_more, cjc_bytes::proofs::Loops::repeated_stops, cjc_bytes::proofs::Loops::repeated_all, cjc_bytes::proofs::Loops::with_none))]
pub(crate) fn read_fields(
    alloc: Global,
    pool: &[Entry<'_>],
    count: u16,
    cursor: &mut Cursor<'_>,
) -> Result<Row<FieldTree>, Stop>
    ensures { Reads (λ fs. fs) (repeated count (field_tree pool.now)) cursor.old cursor.new result }
{
    let mut fields = Row::new(alloc);
    for _ in 0..count {
        fields.push(read_field(alloc, pool, cursor)?)?;
    }
    Ok(fields)
}
