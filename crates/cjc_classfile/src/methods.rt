//! The methods of a class file with their attributes, Code among them (Java Virtual Machine Specification,
//! sections 4.6 and 4.7.3). Called by `class`.

ghost use Rattle.std.specs.Prelude.{◌≡◌, None};
ghost use Rattle.cjc_bytes.specs.Format.{iterated, repeated};
ghost use Rattle.cjc_bytes.specs.Reading.{Reads};
ghost use Rattle.cjc_classfile.specs.Methods.{code_name_at, method_content, method_attribute, needs_code, method_tree};

use crate::code::read_code;
use crate::fields::{read_desc, read_text, skip_content};
use crate::items::text_at;
use crate::pool::Entry;
use crate::tree::{Code, MethodTree};
use cjc_bytes::{ACC_NATIVE, Bytes, Cursor, Row, Stop, has, is_abstract};
use std::alloc::Global;

#[tactic(auto, unfolding(crate::specs::Methods::code_name_at))]
fn code_name_at(pool: &[Entry<'_>], is_awaited: bool, behind: u16, index: u16) -> Option<bool>
    ensures { result ≡ code_name_at pool.now is_awaited behind index }
{
    let is_code = text_at(pool, index)? == b"Code".as_slice();
    if is_code {
        return if is_awaited { Some(true) } else { None };
    }
    if is_awaited && behind == 0 {
        None
    } else {
        Some(false)
    }
}

#[tactic(auto, unfolding(crate::specs::Methods::method_content))]
fn read_method_content<'a>(
    alloc: Global,
    pool: &[Entry<'_>],
    is_code: bool,
    so_far: Option<Code<'a>>,
    cursor: &mut Cursor<'a>,
) -> Result<Option<Code<'a>>, Stop>
    ensures { Reads (λ c. c) (method_content pool.now is_code so_far.entry) cursor.old cursor.new result }
{
    if is_code {
        Ok(Some(read_code(alloc, pool, cursor)?))
    } else {
        skip_content(cursor)?;
        Ok(so_far)
    }
}

#[tactic(auto, unfolding(crate::specs::Methods::method_attribute))]
fn read_method_attribute<'a>(
    alloc: Global,
    pool: &[Entry<'_>],
    is_needed: bool,
    behind: u16,
    so_far: Option<Code<'a>>,
    cursor: &mut Cursor<'a>,
) -> Result<Option<Code<'a>>, Stop>
    ensures { Reads (λ c. c) (method_attribute pool.now is_needed behind so_far.entry) cursor.old cursor.new result }
{
    let at = cursor.at();
    let index = cursor.u2()?;
    let is_awaited = is_needed && so_far.is_none();
    let is_code = code_name_at(pool, is_awaited, behind, index).ok_or(Stop::Broken(at))?;
    read_method_content(alloc, pool, is_code, so_far, cursor)
}

#[tactic(auto, using(cjc_bytes::proofs::Loops::iterated_more, cjc_bytes::proofs::Loops::iterated_stops, cjc_bytes::proofs::Loops::iterated_all))]
fn read_method_attributes<'a>(
    alloc: Global,
    pool: &[Entry<'_>],
    is_needed: bool,
    count: u16,
    cursor: &mut Cursor<'a>,
) -> Result<Option<Code<'a>>, Stop>
    ensures { Reads (λ c. c) (iterated count (method_attribute pool.now is_needed) None) cursor.old cursor.new result }
{
    let mut so_far = None;
    for behind in (0..count).rev() {
        so_far = read_method_attribute(alloc, pool, is_needed, behind, so_far, cursor)?;
    }
    Ok(so_far)
}

fn needs_code(flags: u16) -> bool
    ensures { result ≡ needs_code flags }
{
    !is_abstract(flags) && !has(flags, ACC_NATIVE)
}

#[tactic(auto, unfolding(crate::specs::Methods::method_tree, cjc_bytes::specs::Format::u2))]
fn read_method<'a>(
    alloc: Global,
    pool: &[Entry<'_>],
    cursor: &mut Cursor<'a>,
) -> Result<MethodTree<'a>, Stop>
    ensures { Reads (λ m. m) (method_tree pool.now) cursor.old cursor.new result }
{
    let flags = cursor.u2()?;
    let name = read_text(pool, cursor)?;
    let desc = read_desc(pool, true, cursor)?;
    let at = cursor.at();
    let count = cursor.u2()?;
    let is_needed = needs_code(flags);
    if is_needed && count == 0 {
        return Err(Stop::Broken(at));
    }
    let code = read_method_attributes(alloc, pool, is_needed, count, cursor)?;
    Ok(MethodTree {
        flags,
        name: Bytes::copy_of(alloc, name)?,
        desc: Bytes::copy_of(alloc, desc)?,
        code,
    })
}

/// Reads so many methods of a class.
#[tactic(auto, using(cjc_bytes::proofs::Loops::repeated_more, cjc_bytes::proofs::Loops::repeated_stops, cjc_bytes::proofs::Loops::repeated_all, cjc_bytes::proofs::Loops::with_none))]
pub(crate) fn read_methods<'a>(
    alloc: Global,
    pool: &[Entry<'_>],
    count: u16,
    cursor: &mut Cursor<'a>,
) -> Result<Row<MethodTree<'a>>, Stop>
    ensures { Reads (λ ms. ms) (repeated count (method_tree pool.now)) cursor.old cursor.new result }
{
    let mut methods = Row::new(alloc);
    for _ in 0..count {
        methods.push(read_method(alloc, pool, cursor)?)?;
    }
    Ok(methods)
}
