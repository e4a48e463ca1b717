//! The constant pool (Java Virtual Machine Specification, section 4.4): its entries one after the other, their
//! indices not yet tested.

ghost use Rattle.std.specs.Prelude.{◌≡◌, ◌<◌, ◌^◌, false, length};
ghost use Rattle.cjc_bytes.specs.Reading.{Reads};
ghost use Rattle.cjc_classfile.specs.Entry.{Entry as Seen, other};
ghost use Rattle.cjc_classfile.specs.Kept.{entry_of};
ghost use Rattle.cjc_classfile.specs.Pool.{tag_of, desc_kind, index, pair, utf8, content, entry, pool_of, is_wide};

use cjc_bytes::{Cursor, Desc, Row, Stop};
use std::alloc::Global;
use std::marker::Model;

/// An index into the pool, and the place where it stands.
#[derive(Clone, Copy)]
pub(crate) struct Index {
    pub(crate) at: u32,
    pub(crate) to: u16,
}

/// The kinds of entry (Table 4.4-A), Long and Double as one.
enum Tag {
    Utf8,
    Integer,
    Float,
    Wide,
    Class,
    String,
    Field,
    Method,
    InterfaceMethod,
    NameAndType,
    MethodHandle,
    MethodType,
    InvokeDynamic,
}

/// What an entry says.
#[derive(Drop)]
pub(crate) enum EntryKind<'a> {
    /// The bytes; if they are a descriptor, whether it is a method's.
    Utf8(&'a [u8], Option<bool>),
    Integer(i32),
    Float,
    /// A Long or Double.
    Wide,
    Class(Index),
    String(Index),
    Field(Index, Index),
    Method(Index, Index),
    InterfaceMethod(Index, Index),
    NameAndType(Index, Index),
    /// A MethodHandle, a MethodType, an InvokeDynamic, or no entry.
    Other,
}

/// An entry of the pool.
#[derive(Drop)]
pub(crate) struct Entry<'a> {
    pub(crate) kind: EntryKind<'a>,
}

impl<'a> Model for Entry<'a> {
    ghost Value = { Seen };

    ghost view = { λ e. entry_of e.kind };
}

/// The tag of this number, where the entry's index has so many indices behind it.
fn tag_named(behind: u16, n: u8) -> Option<Tag>
    ensures { result ≡ tag_of behind n }
{
    match n {
        1 => Some(Tag::Utf8),
        3 => Some(Tag::Integer),
        4 => Some(Tag::Float),
        5 | 6 if behind > 0 => Some(Tag::Wide),
        7 => Some(Tag::Class),
        8 => Some(Tag::String),
        9 => Some(Tag::Field),
        10 => Some(Tag::Method),
        11 => Some(Tag::InterfaceMethod),
        12 => Some(Tag::NameAndType),
        15 => Some(Tag::MethodHandle),
        16 => Some(Tag::MethodType),
        18 => Some(Tag::InvokeDynamic),
        _ => None,
    }
}

#[tactic(auto, unfolding(crate::specs::Pool::index, cjc_bytes::specs::Format::u2))]
fn read_index(cursor: &mut Cursor<'_>) -> Result<Index, Stop>
    ensures { Reads (λ i. i) index cursor.old cursor.new result }
{
    let at = cursor.at();
    let to = cursor.u2()?;
    Ok(Index { at, to })
}

#[tactic(auto, unfolding(crate::specs::Pool::pair))]
fn read_pair(cursor: &mut Cursor<'_>) -> Result<(Index, Index), Stop>
    ensures { Reads (λ p. p) pair cursor.old cursor.new result }
{
    let first = read_index(cursor)?;
    let second = read_index(cursor)?;
    Ok((first, second))
}

#[tactic(auto, unfolding(crate::specs::Pool::desc_kind))]
fn desc_kind(bytes: &[u8]) -> Option<bool>
    requires { length bytes.now < 2 ^ 32 }
    ensures { result ≡ desc_kind bytes.now }
{
    match Desc::parse(bytes) {
        Ok(desc) => Some(desc.is_method()),
        Err(_) => None,
    }
}

#[tactic(auto, unfolding(crate::specs::Pool::utf8, cjc_bytes::specs::Format::u2, cjc_bytes::specs::Format::raw))]
fn read_utf8<'a>(cursor: &mut Cursor<'a>) -> Result<EntryKind<'a>, Stop>
    ensures { Reads entry_of utf8 cursor.old cursor.new result }
{
    let length = cursor.u2()?;
    let bytes = cursor.take(u32::from(length))?;
    Ok(EntryKind::Utf8(bytes, desc_kind(bytes)))
}

#[tactic(auto, unfolding(crate::specs::Pool::content, cjc_bytes::specs::Format::u1, cjc_bytes::specs::Format::u2, cjc_bytes::specs::Format::u4, cjc_bytes::specs::Format::raw))]
fn read_content<'a>(tag: Tag, cursor: &mut Cursor<'a>) -> Result<EntryKind<'a>, Stop>
    ensures { Reads entry_of (content tag) cursor.old cursor.new result }
{
    Ok(match tag {
        Tag::Utf8 => read_utf8(cursor)?,
        Tag::Integer => EntryKind::Integer(cursor.u4()?.cast_signed()),
        Tag::Float => {
            cursor.u4()?;
            EntryKind::Float
        }
        Tag::Wide => {
            cursor.take(8)?;
            EntryKind::Wide
        }
        Tag::Class => EntryKind::Class(read_index(cursor)?),
        Tag::String => EntryKind::String(read_index(cursor)?),
        Tag::Field => {
            let (class, member) = read_pair(cursor)?;
            EntryKind::Field(class, member)
        }
        Tag::Method => {
            let (class, member) = read_pair(cursor)?;
            EntryKind::Method(class, member)
        }
        Tag::InterfaceMethod => {
            let (class, member) = read_pair(cursor)?;
            EntryKind::InterfaceMethod(class, member)
        }
        Tag::NameAndType => {
            let (name, desc) = read_pair(cursor)?;
            EntryKind::NameAndType(name, desc)
        }
        Tag::MethodHandle => {
            cursor.u1()?;
            cursor.u2()?;
            EntryKind::Other
        }
        Tag::MethodType => {
            cursor.u2()?;
            EntryKind::Other
        }
        Tag::InvokeDynamic => {
            cursor.u2()?;
            cursor.u2()?;
            EntryKind::Other
        }
    })
}

#[tactic(auto, unfolding(crate::specs::Pool::entry))]
fn read_entry<'a>(after_wide: bool, behind: u16, cursor: &mut Cursor<'a>) -> Result<Entry<'a>, Stop>
    ensures { Reads (λ e. e) (entry after_wide behind) cursor.old cursor.new result }
{
    if after_wide {
        return Ok(Entry {
            kind: EntryKind::Other,
        });
    }
    let at = cursor.at();
    let number = cursor.u1()?;
    match tag_named(behind, number) {
        Some(tag) => {
            let kind = read_content(tag, cursor)?;
            Ok(Entry { kind })
        }
        None => Err(Stop::Broken(at)),
    }
}

impl Entry<'_> {
    /// Whether the entry takes two indices.
    fn is_wide(&self) -> bool
        ensures { result ≡ is_wide self.now }
    {
        matches!(self.kind, EntryKind::Wide)
    }
}

/// Reads the entries of so many indices of the constant pool; index 0, which is none of them, has no entry.
#[tactic(auto, using(crate::proofs::Entries::entries_more, crate::proofs::Entries::entries_stop, crate::proofs::Entries::entries_all), unfolding(crate::specs::Pool::pool_of))]
pub(crate) fn read_pool<'a>(
    alloc: Global,
    count: u16,
    cursor: &mut Cursor<'a>,
) -> Result<Row<Entry<'a>>, Stop>
    ensures { Reads (λ es. es) (pool_of count) cursor.old cursor.new result }
{
    let mut pool = Row::new(alloc);
    pool.push(Entry {
        kind: EntryKind::Other,
    })?;
    let mut after_wide = false;
    for behind in (0..count).rev() {
        let entry = read_entry(after_wide, behind, cursor)?;
        after_wide = entry.is_wide();
        pool.push(entry)?;
    }
    Ok(pool)
}
