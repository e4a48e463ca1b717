//! The component ConstantPool (6.7). Called by `component`. It does not ask whether what an entry names is there.

ghost use Rattle.std.specs.Prelude.{◌≡◌};
ghost use Rattle.cjc_bytes.specs.Format.{repeated};
ghost use Rattle.cjc_bytes.specs.Reading.{Reads};
ghost use Rattle.cjc_capread.specs.Pool.{tag_of, content, pool_entry, constant_pool};

use crate::parts::{read_class_ref, read_static_ref};
use crate::tree::{ConstantPool, PoolEntry};
use cjc_bytes::{Cursor, Row, Stop};
use std::alloc::Global;

/// What an entry is.
enum Tag {
    Class,
    InstanceField,
    VirtualMethod,
    SuperMethod,
    StaticField,
    StaticMethod,
}

fn tag_of(n: u8) -> Option<Tag>
    ensures { result ≡ tag_of n }
{
    match n {
        1 => Some(Tag::Class),
        2 => Some(Tag::InstanceField),
        3 => Some(Tag::VirtualMethod),
        4 => Some(Tag::SuperMethod),
        5 => Some(Tag::StaticField),
        6 => Some(Tag::StaticMethod),
        _ => None,
    }
}

#[tactic(auto, unfolding(crate::specs::Pool::content, cjc_bytes::specs::Format::u1))]
fn read_content(tag: Tag, cursor: &mut Cursor<'_>) -> Result<PoolEntry, Stop>
    ensures { Reads (λ x. x) (content tag) cursor.old cursor.new result }
{
    Ok(match tag {
        Tag::Class => {
            let class = read_class_ref(cursor)?;
            let at = cursor.at();
            if cursor.u1()? != 0 {
                return Err(Stop::Broken(at));
            }
            PoolEntry::Classref(class)
        }
        Tag::InstanceField => {
            let class = read_class_ref(cursor)?;
            let token = cursor.u1()?;
            PoolEntry::InstanceFieldref { class, token }
        }
        Tag::VirtualMethod => {
            let class = read_class_ref(cursor)?;
            let token = cursor.u1()?;
            PoolEntry::VirtualMethodref { class, token }
        }
        Tag::SuperMethod => {
            let class = read_class_ref(cursor)?;
            let token = cursor.u1()?;
            PoolEntry::SuperMethodref { class, token }
        }
        Tag::StaticField => PoolEntry::StaticFieldref(read_static_ref(cursor)?),
        Tag::StaticMethod => PoolEntry::StaticMethodref(read_static_ref(cursor)?),
    })
}

#[tactic(auto, unfolding(crate::specs::Pool::pool_entry))]
fn read_entry(cursor: &mut Cursor<'_>) -> Result<PoolEntry, Stop>
    ensures { Reads (λ x. x) pool_entry cursor.old cursor.new result }
{
    let at = cursor.at();
    let number = cursor.u1()?;
    match tag_of(number) {
        Some(tag) => read_content(tag, cursor),
        None => Err(Stop::Broken(at)),
    }
}

#[tactic(auto, using(cjc_bytes::proofs::Loops::repeated_more, cjc_bytes::proofs::Loops::repeated_stops, cjc_bytes::proofs::Loops::repeated_all, cjc_bytes::proofs::Loops::with_none))]
fn read_entries(alloc: Global, count: u16, cursor: &mut Cursor<'_>) -> Result<Row<PoolEntry>, Stop>
    ensures { Reads (λ xs. xs) (repeated count pool_entry) cursor.old cursor.new result }
{
    let mut entries = Row::new(alloc);
    for _ in 0..count {
        entries.push(read_entry(cursor)?)?;
    }
    Ok(entries)
}

/// The content of a Constant Pool component: its entries.
#[tactic(auto, unfolding(crate::specs::Pool::constant_pool, cjc_bytes::specs::Format::u2))]
pub(crate) fn read_constant_pool(
    alloc: Global,
    cursor: &mut Cursor<'_>,
) -> Result<ConstantPool, Stop>
    ensures { Reads (λ x. x) constant_pool cursor.old cursor.new result }
{
    let count = cursor.u2()?;
    let entries = read_entries(alloc, count, cursor)?;
    Ok(ConstantPool { entries })
}
