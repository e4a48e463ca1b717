//! What the entries of the constant pool mean, once the indices in them are tested.

ghost use Rattle.std.specs.Prelude.{◌≡◌};
ghost use Rattle.std.specs.Option.{option_copied};
ghost use Rattle.cjc_bytes.specs.Found.{Finds, each, all_of};
ghost use Rattle.cjc_classfile.specs.KeptItem.{id_of, item_of};
ghost use Rattle.cjc_classfile.specs.Items.{text_at, desc_at, desc_of_at, class_text_at, class_at, pair_at};
ghost use Rattle.cjc_classfile.specs.Items.{class_name_at, tested_member, tested, member, item, pool_items};

use crate::pool::{Entry, EntryKind, Index};
use crate::tree::{ItemKind, MemberText, PoolItem};
use cjc_bytes::{Row, Stop};
use std::alloc::Global;

/// The text at an index of the constant pool, if there is one.
#[tactic(auto, unfolding(crate::specs::Items::text_at))]
pub(crate) fn text_at<'a>(pool: &[Entry<'a>], index: u16) -> Option<&'a [u8]>
    ensures { option_copied result ≡ text_at pool.now index }
{
    let entry = pool.get(usize::from(index))?;
    match entry.kind {
        EntryKind::Utf8(bytes, _) => Some(bytes),
        _ => None,
    }
}

#[tactic(auto, unfolding(crate::specs::Items::desc_at))]
fn desc_at<'a>(pool: &[Entry<'a>], index: u16) -> Option<&'a [u8]>
    ensures { option_copied result ≡ desc_at pool.now index }
{
    let entry = pool.get(usize::from(index))?;
    match entry.kind {
        EntryKind::Utf8(bytes, Some(_)) => Some(bytes),
        _ => None,
    }
}

/// The descriptor of a field or of a method at an index of the constant pool, if there is one.
#[tactic(auto, unfolding(crate::specs::Items::desc_of_at))]
pub(crate) fn desc_of_at<'a>(pool: &[Entry<'a>], is_method: bool, index: u16) -> Option<&'a [u8]>
    ensures { option_copied result ≡ desc_of_at pool.now is_method index }
{
    let entry = pool.get(usize::from(index))?;
    match entry.kind {
        EntryKind::Utf8(bytes, Some(is_of_method)) if is_of_method == is_method => Some(bytes),
        _ => None,
    }
}

#[tactic(auto, unfolding(crate::specs::Items::class_text_at))]
fn class_text_at<'a>(pool: &[Entry<'a>], index: u16) -> Option<&'a [u8]>
    ensures { option_copied result ≡ class_text_at pool.now index }
{
    let bytes = text_at(pool, index)?;
    if bytes.is_empty() { None } else { Some(bytes) }
}

#[tactic(auto, unfolding(crate::specs::Items::class_at))]
fn class_at(pool: &[Entry<'_>], index: u16) -> Option<Index>
    ensures { result ≡ class_at pool.now index }
{
    let entry = pool.get(usize::from(index))?;
    match entry.kind {
        EntryKind::Class(name) => Some(name),
        _ => None,
    }
}

#[tactic(auto, unfolding(crate::specs::Items::pair_at))]
fn pair_at(pool: &[Entry<'_>], index: u16) -> Option<(Index, Index)>
    ensures { result ≡ pair_at pool.now index }
{
    let entry = pool.get(usize::from(index))?;
    match entry.kind {
        EntryKind::NameAndType(name, desc) => Some((name, desc)),
        _ => None,
    }
}

/// The name of the class at an index of the constant pool, if there is one that is not empty.
#[tactic(auto, unfolding(crate::specs::Items::class_name_at))]
pub(crate) fn class_name_at<'a>(pool: &[Entry<'a>], index: u16) -> Option<&'a [u8]>
    ensures { option_copied result ≡ class_name_at pool.now index }
{
    let name = class_at(pool, index)?;
    class_text_at(pool, name.to)
}

#[tactic(auto, unfolding(crate::specs::Items::tested_member))]
fn test_member(pool: &[Entry<'_>], owner: Index, member: Index) -> Result<(), Stop>
    ensures { Finds (λ x. x) (tested_member pool.now owner member) result }
{
    class_at(pool, owner.to).ok_or(Stop::Broken(owner.at))?;
    pair_at(pool, member.to).ok_or(Stop::Broken(member.at))?;
    Ok(())
}

#[tactic(auto, unfolding(crate::specs::Items::tested))]
fn test_entry(pool: &[Entry<'_>], entry: &Entry<'_>) -> Result<(), Stop>
    ensures { Finds (λ x. x) (tested pool.now entry.now) result }
{
    match entry.kind {
        EntryKind::Class(name) => {
            class_text_at(pool, name.to).ok_or(Stop::Broken(name.at))?;
            Ok(())
        }
        EntryKind::String(value) => {
            text_at(pool, value.to).ok_or(Stop::Broken(value.at))?;
            Ok(())
        }
        EntryKind::Field(owner, member)
        | EntryKind::Method(owner, member)
        | EntryKind::InterfaceMethod(owner, member) => test_member(pool, owner, member),
        EntryKind::NameAndType(name, desc) => {
            text_at(pool, name.to).ok_or(Stop::Broken(name.at))?;
            desc_at(pool, desc.to).ok_or(Stop::Broken(desc.at))?;
            Ok(())
        }
        EntryKind::Utf8(_, _)
        | EntryKind::Integer(_)
        | EntryKind::Float
        | EntryKind::Wide
        | EntryKind::Other => Ok(()),
    }
}

#[tactic(auto, unfolding(crate::specs::Items::member))]
fn member<'a>(pool: &[Entry<'a>], owner: Index, pair: Index) -> Result<MemberText<'a>, Stop>
    ensures { Finds id_of (member pool.now owner pair) result }
{
    let class = class_name_at(pool, owner.to).ok_or(Stop::Broken(owner.at))?;
    let (name, desc) = pair_at(pool, pair.to).ok_or(Stop::Broken(pair.at))?;
    let name = text_at(pool, name.to).ok_or(Stop::Broken(name.at))?;
    let desc = desc_at(pool, desc.to).ok_or(Stop::Broken(desc.at))?;
    Ok(MemberText { class, name, desc })
}

#[tactic(auto, unfolding(crate::specs::Items::item))]
fn item_kind<'a>(pool: &[Entry<'a>], entry: &Entry<'_>) -> Result<ItemKind<'a>, Stop>
    ensures { Finds item_of (item pool.now entry.now) result }
{
    Ok(match entry.kind {
        EntryKind::Integer(n) => ItemKind::Int(n),
        EntryKind::Class(name) => {
            ItemKind::Class(class_text_at(pool, name.to).ok_or(Stop::Broken(name.at))?)
        }
        EntryKind::Field(owner, pair) => ItemKind::Field(member(pool, owner, pair)?),
        EntryKind::Method(owner, pair) => ItemKind::Method(member(pool, owner, pair)?),
        EntryKind::InterfaceMethod(owner, pair) => {
            ItemKind::InterfaceMethod(member(pool, owner, pair)?)
        }
        EntryKind::Utf8(_, _)
        | EntryKind::Float
        | EntryKind::Wide
        | EntryKind::String(_)
        | EntryKind::NameAndType(_, _)
        | EntryKind::Other => ItemKind::Other,
    })
}

fn item<'a>(pool: &[Entry<'a>], entry: &Entry<'_>) -> Result<PoolItem<'a>, Stop>
    ensures { Finds (λ i. i) (item pool.now entry.now) result }
{
    let kind = item_kind(pool, entry)?;
    Ok(PoolItem { kind })
}

/// What the entries mean, where all their indices keep their tables.
#[tactic(auto, unfolding(crate::specs::Items::pool_items))]
pub(crate) fn pool_items<'a>(alloc: Global, pool: &[Entry<'a>]) -> Result<Row<PoolItem<'a>>, Stop>
    ensures { Finds (λ x. x) (pool_items pool.now) result }
{
    test_entries(pool)?;
    items(alloc, pool)
}

#[tactic(auto, using(cjc_bytes::proofs::Loops::all_of_next, cjc_bytes::proofs::Loops::all_of_breaks, cjc_bytes::proofs::Loops::all_of_ends))]
fn test_entries(pool: &[Entry<'_>]) -> Result<(), Stop>
    ensures { Finds (λ x. x) (all_of (tested pool.now) pool.now) result }
{
    for entry in pool {
        test_entry(pool, entry)?;
    }
    Ok(())
}

#[tactic(auto, using(cjc_bytes::proofs::Loops::each_next, cjc_bytes::proofs::Loops::each_breaks, cjc_bytes::proofs::Loops::each_ends, cjc_bytes::proofs::Loops::after_none))]
fn items<'a>(alloc: Global, pool: &[Entry<'a>]) -> Result<Row<PoolItem<'a>>, Stop>
    ensures { Finds (λ x. x) (each (item pool.now) pool.now) result }
{
    let mut items = Row::new(alloc);
    for entry in pool {
        items.push(item(pool, entry)?)?;
    }
    Ok(items)
}
