//! What is written for instructions that name a field or a method, by the look-ups of the world. Knows no label.

ghost use Rattle.std.specs.Prelude.{◌≡◌, ◌++◌, ◌∷◌, [], IfOk, OnOk};
ghost use Rattle.cjc_types.specs.Bytecode.Jvm as jvm;
ghost use Rattle.cjc_ncode.specs.declared.narrow.NInsn.TheVariants.{Named};
ghost use Rattle.cjc_ncode.specs.declared.narrow.PoolKey.TheVariants as keys;
ghost use Rattle.cjc_ncode.specs.Written.{call_by, called, field_access, nargs_of, static_by, this_access};
ghost use Rattle.cjc_jvm_semantics.specs.LowerScript.Sorts.{field_sort};
ghost use Rattle.cjc_narrow.specs.Keys.Index.{index_of};
ghost use Rattle.cjc_narrow.specs.Written.Operands.{IsByte};
ghost use Rattle.cjc_narrow.specs.Select.Working.Names.{is_one_byte, resolution_of};

use crate::keys::Numbers;
use crate::rows::{constant_named, resolved_field, resolved_method, special_key, virtual_method};
use crate::written::{field_access, pushed, static_access, this_access, words_by};
use cjc_ncode::capread::card;
use cjc_ncode::{NInsn, PoolKey};
use cjc_types::bytecode::jvm;
use cjc_types::bytes::{MemberId, NoMemory, Row};
use cjc_types::world::World;
use std::alloc::Global;
use std::marker::Model;

/// What names go by.
pub struct Names<'a, 'w> {
    pub world: &'a World<'w>,
    /// The class that holds the code.
    pub holder: &'a [u8],
    /// The constant pool, as far as it is known.
    pub pool: &'a Numbers,
}

impl Drop for Names<'_, '_> {
    fn drop(self) {
        let Names {
            world: _world,
            holder: _holder,
            pool: _pool,
        } = self;
    }
}

impl<'a, 'w> Model for Names<'a, 'w> {
    ghost use Rattle.cjc_narrow.specs.Rows.Selected.{near_fields};
    ghost use Rattle.cjc_narrow.specs.Select.Working.Names.{NamesView};

    ghost Value = { NamesView };

    ghost view = { λ n. record { files = n.world.now; near = near_fields n.pool.now; holder = n.holder.now } };
}

/// Whether a key has an index of one byte.
fn is_near(pool: &Numbers, key: &PoolKey) -> bool
    ensures { result ≡ is_one_byte (index_of pool.now key.now) }
{
    match pool.index_of(key) {
        Some(index) => index < 256,
        None => false,
    }
}

/// getstatic or putstatic; a constant is pushed.
#[tactic(auto, unfolding(crate::specs::Rows::Resolved::resolution))]
pub(crate) fn put_static(
    out: &mut Row<NInsn>,
    alloc: Global,
    names: &Names<'_, '_>,
    put: bool,
    field: &MemberId,
) -> Result<(), NoMemory>
    ensures { OnOk result (out.new ≡ out.old ++ static_by (resolution_of names.now) put field.now
        ((resolution_of names.now).constant field.now)) }
{
    match constant_named(names.world, field) {
        Some(z) => out.push(pushed(z)),
        None => {
            let op = static_access(put, field.desc.items())?;
            let key = PoolKey::StaticField(resolved_field(alloc, names.world, field)?);
            out.push(NInsn::Named { op, key })
        }
    }
}

/// Whether a field has an index of one byte.
#[tactic(auto, unfolding(crate::specs::Rows::Resolved::resolution), using(crate::proofs::SelectLaws::Near::near_by_index))]
pub(crate) fn is_near_field(
    alloc: Global,
    names: &Names<'_, '_>,
    field: &MemberId,
) -> Result<bool, NoMemory>
    ensures { let r = resolution_of names.now in IfOk result (λ near. near ≡ r.is_near field.now) }
{
    let key = PoolKey::Field(resolved_field(alloc, names.world, field)?);
    Ok(is_near(names.pool, &key))
}

/// getfield_this or putfield_this.
#[tactic(auto, unfolding(crate::specs::Rows::Resolved::resolution))]
pub(crate) fn put_this(
    out: &mut Row<NInsn>,
    alloc: Global,
    names: &Names<'_, '_>,
    put: bool,
    field: &MemberId,
) -> Result<(), NoMemory>
    ensures { let r = resolution_of names.now in OnOk result (out.new ≡ out.old
        ++ Named (this_access put (field_sort field.now.desc)) (keys.Field (r.field field.now)) ∷ []) }
{
    let key = PoolKey::Field(resolved_field(alloc, names.world, field)?);
    let op = this_access(put, field.desc.items())?;
    out.push(NInsn::Named { op, key })
}

/// getfield or putfield, with an index of one byte where the pool has one.
#[tactic(auto, unfolding(crate::specs::Rows::Resolved::resolution), using(crate::proofs::SelectLaws::Near::near_by_index))]
pub fn put_field(
    out: &mut Row<NInsn>,
    alloc: Global,
    names: &Names<'_, '_>,
    put: bool,
    field: &MemberId,
) -> Result<(), NoMemory>
    ensures { let r = resolution_of names.now in OnOk result (out.new ≡ out.old
        ++ Named (field_access put (r.is_near field.now) (field_sort field.now.desc)) (keys.Field (r.field field.now))
        ∷ []) }
{
    let key = PoolKey::Field(resolved_field(alloc, names.world, field)?);
    let near = is_near(names.pool, &key);
    let op = field_access(put, near, field.desc.items())?;
    out.push(NInsn::Named { op, key })
}

/// invokevirtual, invokespecial or invokestatic.
#[tactic(auto, unfolding(crate::specs::Rows::Resolved::resolution))]
fn called(
    alloc: Global,
    names: &Names<'_, '_>,
    op: u8,
    method: &MemberId,
) -> Result<NInsn, NoMemory>
    ensures { IfOk result (λ insn. insn ≡ called (resolution_of names.now) op method.now) }
{
    let world = names.world;
    match op {
        jvm::INVOKEVIRTUAL => {
            let key = PoolKey::Virtual(virtual_method(alloc, world, method)?);
            Ok(NInsn::Named {
                op: card::INVOKEVIRTUAL,
                key,
            })
        }
        jvm::INVOKESPECIAL => {
            let key = special_key(alloc, world, names.holder, method)?;
            Ok(NInsn::Named {
                op: card::INVOKESPECIAL,
                key,
            })
        }
        _ => {
            let key = PoolKey::StaticMethod(resolved_method(alloc, world, method)?);
            Ok(NInsn::Named {
                op: card::INVOKESTATIC,
                key,
            })
        }
    }
}

/// A call of any kind.
#[tactic(auto, unfolding(crate::specs::Rows::Resolved::resolution))]
pub fn put_call(
    out: &mut Row<NInsn>,
    alloc: Global,
    names: &Names<'_, '_>,
    op: u8,
    method: &MemberId,
) -> Result<(), NoMemory>
    requires { op ≡ jvm.invokeinterface → IsByte (nargs_of method.now) }
    ensures { OnOk result (out.new ≡ out.old ++ call_by (resolution_of names.now) op method.now) }
{
    if op == jvm::INVOKEINTERFACE {
        let nargs = words_by(method.desc.items())? as u8;
        let method = resolved_method(alloc, names.world, method)?;
        return out.push(NInsn::Interface { nargs, method });
    }
    out.push(called(alloc, names, op, method)?)
}
