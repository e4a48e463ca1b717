//! The code of a method (Java Virtual Machine Specification, section 4.7.3). Its instructions are bytes here.

ghost use Rattle.std.specs.Prelude.{◌≡◌};
ghost use Rattle.cjc_bytes.specs.Format.{repeated, in_a_row};
ghost use Rattle.cjc_bytes.specs.Reading.{Reads};
ghost use Rattle.cjc_classfile.specs.Members.{attribute};
ghost use Rattle.cjc_classfile.specs.CodeAttribute.{catch_class, catch_class_at, catch, code_content, code};

use crate::fields::skip_attribute;
use crate::items::class_name_at;
use crate::pool::Entry;
use crate::tree::{Catch, Code};
use cjc_bytes::{Bytes, Cursor, Row, Stop};
use std::alloc::Global;

/// The index of a class or 0, and the class.
#[tactic(auto, unfolding(crate::specs::CodeAttribute::catch_class, crate::specs::CodeAttribute::catch_class_at))]
fn read_catch_class(
    alloc: Global,
    pool: &[Entry<'_>],
    cursor: &mut Cursor<'_>,
) -> Result<Option<Bytes>, Stop>
    ensures { Reads (λ c. c) (catch_class pool.now) cursor.old cursor.new result }
{
    let at = cursor.at();
    let index = cursor.u2()?;
    if index == 0 {
        return Ok(None);
    }
    let name = class_name_at(pool, index).ok_or(Stop::Broken(at))?;
    Ok(Some(Bytes::copy_of(alloc, name)?))
}

#[tactic(auto, unfolding(crate::specs::CodeAttribute::catch, cjc_bytes::specs::Format::u2))]
fn read_catch(
    alloc: Global,
    pool: &[Entry<'_>],
    length: u32,
    cursor: &mut Cursor<'_>,
) -> Result<Catch, Stop>
    ensures { Reads (λ c. c) (catch pool.now length) cursor.old cursor.new result }
{
    let start_at = cursor.at();
    let start = cursor.u2()?;
    let end_at = cursor.at();
    let end = cursor.u2()?;
    if start >= end {
        return Err(Stop::Broken(start_at));
    }
    if u32::from(end) > length {
        return Err(Stop::Broken(end_at));
    }
    let at = cursor.at();
    let target = cursor.u2()?;
    if u32::from(target) >= length {
        return Err(Stop::Broken(at));
    }
    let class = read_catch_class(alloc, pool, cursor)?;
    Ok(Catch {
        start,
        end,
        target,
        class,
    })
}

#[tactic(auto, using(cjc_bytes::proofs::Loops::repeated_more, cjc_bytes::proofs::Loops::repeated_stops, cjc_bytes::proofs::Loops::repeated_all, cjc_bytes::proofs::Loops::with_none))]
fn read_catches(
    alloc: Global,
    pool: &[Entry<'_>],
    length: u32,
    count: u16,
    cursor: &mut Cursor<'_>,
) -> Result<Row<Catch>, Stop>
    ensures { Reads (λ cs. cs) (repeated count (catch pool.now length)) cursor.old cursor.new result }
{
    let mut catches = Row::new(alloc);
    for _ in 0..count {
        catches.push(read_catch(alloc, pool, length, cursor)?)?;
    }
    Ok(catches)
}

/// Passes over so many attributes, whatever they say.
#[tactic(auto, using(cjc_bytes::proofs::Loops::skipped_more, cjc_bytes::proofs::Loops::skipped_stops, cjc_bytes::proofs::Loops::skipped_all))]
pub(crate) fn skip_attributes(
    pool: &[Entry<'_>],
    count: u16,
    cursor: &mut Cursor<'_>,
) -> Result<(), Stop>
    ensures { Reads (λ x. x) (in_a_row count (attribute pool.now)) cursor.old cursor.new result }
{
    for _ in 0..count {
        skip_attribute(pool, cursor)?;
    }
    Ok(())
}

#[tactic(auto, unfolding(crate::specs::CodeAttribute::code_content, cjc_bytes::specs::Format::u2, cjc_bytes::specs::Format::raw))]
fn read_code_content<'a>(
    alloc: Global,
    pool: &[Entry<'_>],
    cursor: &mut Cursor<'a>,
) -> Result<Code<'a>, Stop>
    ensures { Reads (λ c. c) (code_content pool.now) cursor.old cursor.new result }
{
    let max_stack = cursor.u2()?;
    let max_locals = cursor.u2()?;
    let at = cursor.at();
    let length = cursor.u4()?;
    if length == 0 || length > 65535 {
        return Err(Stop::Broken(at));
    }
    let bytes = cursor.take(length)?;
    let count = cursor.u2()?;
    let catches = read_catches(alloc, pool, length, count, cursor)?;
    let count = cursor.u2()?;
    skip_attributes(pool, count, cursor)?;
    Ok(Code {
        max_stack,
        max_locals,
        bytes,
        catches,
    })
}

/// Reads a Code attribute behind its name; its length has to be exact.
#[tactic(auto, unfolding(crate::specs::CodeAttribute::code, cjc_bytes::specs::Format::u4))]
pub(crate) fn read_code<'a>(
    alloc: Global,
    pool: &[Entry<'_>],
    cursor: &mut Cursor<'a>,
) -> Result<Code<'a>, Stop>
    ensures { Reads (λ c. c) (code pool.now) cursor.old cursor.new result }
{
    let at = cursor.at();
    let length = cursor.u4()?;
    let start = cursor.at();
    let code = read_code_content(alloc, pool, cursor)?;
    if u64::from(start) + u64::from(length) != u64::from(cursor.at()) {
        return Err(Stop::Broken(at));
    }
    Ok(code)
}
