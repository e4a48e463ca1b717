//! The methods of interfaces that code calls, each once, and their tokens. Called by whoever makes the pool. It
//! knows no index of the pool.

ghost use Rattle.std.specs.Prelude.{◌≡◌, [], map, IfOk, OnOk};
ghost use Rattle.std.specs.List.{flat_map};
ghost use Rattle.indexmap.specs.IndexSet.{insert_all};
ghost use Rattle.cjc_narrow.specs.LowerNCode.PoolOrder.{same_key};
ghost use Rattle.cjc_pool.specs.Working.Calls.{insn_calls, key_token, method_calls};

use cjc_components::tokens::Tokens;
use cjc_narrow::bytes::{NoMemory, Row};
use cjc_narrow::keys::{Key, Numbers};
use cjc_narrow::ncode::{NInsn, NMethod, PoolKey};
use cjc_narrow::world::World;
use std::alloc::Global;

fn add_call(calls: &mut Numbers, alloc: Global, insn: &NInsn) -> Result<(), NoMemory>
    ensures { OnOk result (calls.new ≡ insert_all same_key calls.old (insn_calls insn.now)) }
{
    match insn {
        NInsn::Interface { nargs: _, method } => calls.add(alloc, &Key::method(method)),
        _ => Ok(()),
    }
}

#[tactic(auto, using(cjc_narrow::proofs::KeysLaws::Walks::walk_next, cjc_narrow::proofs::KeysLaws::Walks::walk_end))]
fn add_calls(calls: &mut Numbers, alloc: Global, insns: &[NInsn]) -> Result<(), NoMemory>
    ensures { OnOk result (calls.new ≡ insert_all same_key calls.old (flat_map insn_calls insns.now)) }
{
    for insn in insns {
        add_call(calls, alloc, insn)?;
    }
    Ok(())
}

/// The methods of interfaces that some invokeinterface names, as they are first met.
#[tactic(auto, using(cjc_narrow::proofs::KeysLaws::Walks::walk_next, cjc_narrow::proofs::KeysLaws::Walks::walk_end))]
pub(crate) fn called(alloc: Global, methods: &[NMethod]) -> Result<Numbers, NoMemory>
    ensures { IfOk result (λ calls. calls ≡ insert_all same_key [] (flat_map method_calls methods.now)) }
{
    let mut calls = Numbers::new(alloc);
    for method in methods {
        add_calls(&mut calls, alloc, method.insns.items())?;
    }
    Ok(calls)
}

fn key_token(world: &World<'_>, tokens: &Tokens, key: &PoolKey) -> Option<u8>
    ensures { result ≡ key_token world.now tokens.now key.now }
{
    match key {
        PoolKey::Virtual(id) => tokens.member_token(world.find_method(id)?),
        _ => None,
    }
}

/// The token of each of these methods.
pub(crate) fn tokens_of(
    alloc: Global,
    world: &World<'_>,
    tokens: &Tokens,
    calls: &[PoolKey],
) -> Result<Row<Option<u8>>, NoMemory>
    ensures { IfOk result (λ row. row ≡ map (key_token world.now tokens.now) calls.now) }
{
    let mut row = Row::new(alloc);
    for key in calls {
        row.push(key_token(world, tokens, key))?;
    }
    Ok(row)
}
