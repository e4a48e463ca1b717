//! The constant pool of an export file: its entries are read, and then looked up by the index that a field of
//! the file holds. An index to an entry of another kind is refused at the place where it stands.

ghost use Rattle.std.specs.Prelude.{◌≡◌, ◌<◌, ◌^◌, length, IfOk, IfSome};
ghost use Rattle.std.specs.Option.{option_copied};
ghost use Rattle.cjc_bytes.specs.Format.{repeated};
ghost use Rattle.cjc_bytes.specs.Found.{Finds, all_of};
ghost use Rattle.cjc_bytes.specs.Reading.{Reads};
ghost use Rattle.cjc_export.specs.Entry.{Entry as Seen};
ghost use Rattle.cjc_export.specs.Kind.{entry_of, IsShort};
ghost use Rattle.cjc_export.specs.Pool.{tag_of, index, aid_length, is_library, counted, content, entry, text_at};
ghost use Rattle.cjc_export.specs.Pool.{tested_name, tested, class_name_at};

use cjc_bytes::{Cursor, Row, Stop};
use std::alloc::Global;
use std::marker::Model;

/// An index into the pool, and the place where it stands.
#[derive(Clone, Copy)]
pub(crate) struct Index {
    pub(crate) at: u32,
    pub(crate) to: u16,
}

enum Tag {
    Utf8,
    Integer,
    Class,
    Package,
}

/// An entry of the pool, as the code keeps it.
#[derive(Drop)]
pub(crate) enum Kind<'a> {
    Text(&'a [u8]),
    Integer(i32),
    Class(Index),
    /// Whether it is a library, its name, its minor and major version, its AID.
    Package(bool, Index, u8, u8, &'a [u8]),
}

/// An entry of the pool.
#[derive(Drop)]
pub(crate) struct Entry<'a> {
    pub(crate) kind: Kind<'a>,
}

impl<'a> Model for Entry<'a> {
    ghost Value = { Seen };

    ghost view = { λ e. entry_of e.kind };

    ghost invariant = { λ e. IsShort e.kind };
}

fn tag_named(n: u8) -> Option<Tag>
    ensures { result ≡ tag_of n }
{
    match n {
        1 => Some(Tag::Utf8),
        3 => Some(Tag::Integer),
        7 => Some(Tag::Class),
        13 => Some(Tag::Package),
        _ => None,
    }
}

#[tactic(auto, unfolding(crate::specs::Pool::index, cjc_bytes::specs::Format::u2))]
fn read_index(cursor: &mut Cursor<'_>) -> Result<Index, Stop>
    ensures { Reads (λ i. i) index cursor.old cursor.new result }
{
    let at = cursor.at();
    let to = cursor.u2()?;
    Ok(Index { at, to })
}

/// A length and so many bytes.
#[tactic(auto, using(crate::proofs::Short::taken_length), unfolding(crate::specs::Pool::counted, cjc_bytes::specs::Format::u2, cjc_bytes::specs::Format::raw))]
fn read_counted<'a>(cursor: &mut Cursor<'a>) -> Result<&'a [u8], Stop>
    ensures reads { Reads (λ bytes. bytes.now) counted cursor.old cursor.new result }
    ensures short { IfOk result (λ bytes. length bytes.now < 2 ^ 16) }
{
    let length = cursor.u2()?;
    let bytes = cursor.take(u32::from(length))?;
    Ok(bytes)
}

#[tactic(auto, unfolding(crate::specs::Pool::content, cjc_bytes::specs::Format::u1, cjc_bytes::specs::Format::u2, cjc_bytes::specs::Format::u4, cjc_bytes::specs::Format::raw))]
fn read_content<'a>(tag: Tag, cursor: &mut Cursor<'a>) -> Result<Kind<'a>, Stop>
    ensures reads { Reads entry_of (content tag) cursor.old cursor.new result }
    ensures short { IfOk result IsShort }
{
    Ok(match tag {
        Tag::Utf8 => Kind::Text(read_counted(cursor)?),
        Tag::Integer => Kind::Integer(cursor.u4()?.cast_signed()),
        Tag::Class => Kind::Class(read_index(cursor)?),
        Tag::Package => {
            let flags = cursor.u1()?;
            let name = read_index(cursor)?;
            let minor = cursor.u1()?;
            let major = cursor.u1()?;
            let at = cursor.at();
            let length = cursor.u1()?;
            if length < 5 || length > 16 {
                return Err(Stop::Broken(at));
            }
            let aid = cursor.take(u32::from(length))?;
            Kind::Package(flags & 1 > 0, name, minor, major, aid)
        }
    })
}

#[tactic(auto, unfolding(crate::specs::Pool::entry))]
fn read_entry<'a>(cursor: &mut Cursor<'a>) -> Result<Entry<'a>, Stop>
    ensures { Reads (λ e. e) entry cursor.old cursor.new result }
{
    let at = cursor.at();
    let number = cursor.u1()?;
    match tag_named(number) {
        Some(tag) => {
            let kind = read_content(tag, cursor)?;
            Ok(Entry { kind })
        }
        None => Err(Stop::Broken(at)),
    }
}

/// Reads so many entries of the constant pool.
#[tactic(auto, using(cjc_bytes::proofs::Loops::repeated_more, cjc_bytes::proofs::Loops::repeated_stops, cjc_bytes::proofs::Loops::repeated_all, cjc_bytes::proofs::Loops::with_none))]
pub(crate) fn read_pool<'a>(
    alloc: Global,
    count: u16,
    cursor: &mut Cursor<'a>,
) -> Result<Row<Entry<'a>>, Stop>
    ensures { Reads (λ es. es) (repeated count entry) cursor.old cursor.new result }
{
    let mut pool = Row::new(alloc);
    for _ in 0..count {
        pool.push(read_entry(cursor)?)?;
    }
    Ok(pool)
}

/// The text at an index of the constant pool, if there is one.
#[tactic(auto, unfolding(crate::specs::Pool::text_at))]
pub(crate) fn text_at<'a>(pool: &[Entry<'a>], index: u16) -> Option<&'a [u8]>
    ensures text { option_copied result ≡ text_at pool.now index }
    ensures short { IfSome result (λ bytes. length bytes.now < 2 ^ 16) }
{
    let entry = pool.get(usize::from(index))?;
    match entry.kind {
        Kind::Text(bytes) => Some(bytes),
        _ => None,
    }
}

/// The name of the class at an index of the constant pool, if there is one.
#[tactic(auto, unfolding(crate::specs::Pool::class_name_at))]
pub(crate) fn class_name_at<'a>(pool: &[Entry<'a>], index: u16) -> Option<&'a [u8]>
    ensures { option_copied result ≡ class_name_at pool.now index }
{
    let entry = pool.get(usize::from(index))?;
    match entry.kind {
        Kind::Class(name) => text_at(pool, name.to),
        _ => None,
    }
}

#[tactic(auto, unfolding(crate::specs::Pool::tested_name))]
fn test_name(pool: &[Entry<'_>], name: Index) -> Result<(), Stop>
    ensures { Finds (λ x. x) (tested_name pool.now name) result }
{
    text_at(pool, name.to).ok_or(Stop::Broken(name.at))?;
    Ok(())
}

#[tactic(auto, unfolding(crate::specs::Pool::tested))]
fn test_entry(pool: &[Entry<'_>], entry: &Entry<'_>) -> Result<(), Stop>
    ensures { Finds (λ x. x) (tested pool.now entry.now) result }
{
    match entry.kind {
        Kind::Class(name) | Kind::Package(_, name, _, _, _) => test_name(pool, name),
        Kind::Text(_) | Kind::Integer(_) => Ok(()),
    }
}

/// Tests the indices inside the pool, in order of entries.
#[tactic(auto, using(cjc_bytes::proofs::Loops::all_of_next, cjc_bytes::proofs::Loops::all_of_breaks, cjc_bytes::proofs::Loops::all_of_ends))]
pub(crate) fn test_entries(pool: &[Entry<'_>]) -> Result<(), Stop>
    ensures { Finds (λ x. x) (all_of (tested pool.now) pool.now) result }
{
    for entry in pool {
        test_entry(pool, entry)?;
    }
    Ok(())
}
