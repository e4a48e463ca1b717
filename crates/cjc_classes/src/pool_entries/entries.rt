//! From keys to the entries of ConstantPool, one for each, in the same order, so that an index means the same
//! before and after. What the crate is called for.

ghost use Rattle.std.specs.Prelude.{◌≡◌, ◌<◌, length, map, IfOk};
ghost use Rattle.cjc_world.specs.Classes.{all_classes};
ghost use Rattle.cjc_components.specs.Package.{Package, pool, tokens};
ghost use Rattle.cjc_components.specs.Names.{pool_entries};
ghost use Rattle.cjc_classes.specs.ClassInfo.Refs.{AreRefs, ref_of};
ghost use Rattle.cjc_classes.specs.ClassInfo.Entries.{AreOffsets, offset_in};
ghost use Rattle.cjc_classes.specs.Entries.{entry_by, key_cell, key_token, member_token_by, offset_by, static_ref};

use crate::class_info::{ClassRefs, offset_in};
use cjc_bytes::{NoMemory, Row};
use cjc_components::capread::{ClassRef, PoolEntry, StaticRef};
use cjc_components::ncode::PoolKey;
use cjc_tokens::Tokens;
use cjc_world::{Found, World};
use std::alloc::Global;

/// The token of what has none.
const NONE: u8 = 0xFF;

/// The token of a member, 0xFF where it has none.
fn member_token(tokens: &Tokens, member: Option<Found>) -> u8
    ensures { result ≡ member_token_by tokens.now member }
{
    match member {
        None => NONE,
        Some(found) => match tokens.member_token(found) {
            None => NONE,
            Some(token) => token,
        },
    }
}

fn offset_by(offsets: &[Row<u64>], method: Option<Found>) -> u64
    ensures { result ≡ offset_by (offset_in offsets.now) method }
{
    match method {
        None => 0,
        Some(found) => offset_in(offsets, found),
    }
}

/// A static member or a constructor, by the class that has it: of the package by an offset, else by a token.
fn static_ref(class: ClassRef, offset: u64, token: u8) -> StaticRef
    ensures { result ≡ static_ref class offset token }
{
    match class {
        ClassRef::Inside(_at) => StaticRef::Inside(offset),
        ClassRef::Outside { package, class } => StaticRef::Outside {
            package,
            class,
            token,
        },
    }
}

/// The entry of a key, where a virtual method has this token, and a static field a cell at this offset.
fn entry(
    world: &World<'_>,
    refs: &ClassRefs,
    tokens: &Tokens,
    offsets: &[Row<u64>],
    key: &PoolKey,
    token: u8,
    cell: u64,
) -> PoolEntry
    ensures { result ≡ entry_by (ref_of refs.now) (all_classes world.now) tokens.now (offset_in offsets.now) token cell
        key.now }
{
    match key {
        PoolKey::Class(name) => PoolEntry::Classref(refs.named(name.items())),
        PoolKey::Field(field) => PoolEntry::InstanceFieldref {
            class: refs.named(field.class.items()),
            token: member_token(tokens, world.find_field(field)),
        },
        PoolKey::Virtual(method) => PoolEntry::VirtualMethodref {
            class: refs.named(method.class.items()),
            token,
        },
        PoolKey::Super(method) => PoolEntry::SuperMethodref {
            class: refs.named(method.class.items()),
            token,
        },
        PoolKey::StaticField(field) => {
            let token = member_token(tokens, world.find_field(field));
            PoolEntry::StaticFieldref(static_ref(refs.named(field.class.items()), cell, token))
        }
        PoolKey::StaticMethod(method) => {
            let found = world.find_method(method);
            let offset = offset_by(offsets, found);
            let token = member_token(tokens, found);
            PoolEntry::StaticMethodref(static_ref(refs.named(method.class.items()), offset, token))
        }
    }
}

/// The entries of ConstantPool, one for each key. The token of the virtual method of a key and the offset of
/// the cell of its static field stand by the number of the key, 0 where it is of none.
pub fn pool_entries(
    alloc: Global,
    world: &World<'_>,
    refs: &ClassRefs,
    assigned: &Tokens,
    offsets: &[Row<u64>],
    keys: &[PoolKey],
    virtual_tokens: &[u8],
    cells: &[u64],
) -> Result<Row<PoolEntry>, NoMemory>
    requires tokens { length virtual_tokens.now ≡ length keys.now }
    requires cells { length cells.now ≡ length keys.now }
    ensures { (p : Package) → p.files ≡ world.now → AreRefs p refs.now → AreOffsets p offsets.now
        → assigned.now ≡ tokens p → keys.now ≡ pool p → virtual_tokens.now ≡ map (key_token p) (pool p)
        → cells.now ≡ map (key_cell p) (pool p) → IfOk result (λ row. row ≡ pool_entries p) }
{
    let mut entries = Row::new(alloc);
    for (number, key) in keys.iter().enumerate() {
        let token = virtual_tokens[number];
        let cell = cells[number];
        entries.push(entry(world, refs, assigned, offsets, key, token, cell))?;
    }
    Ok(entries)
}
