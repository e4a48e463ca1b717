//! The tokens of the virtual methods that the keys of a constant pool name (Java Card Virtual Machine Specification 2.2.2, section
//! 6.7), by the methods that are found. Whoever writes ConstantPool calls it. It knows no code.
#![tactic(auto)]

ghost use Rattle.std.specs.Prelude.{◌≡◌, ℕ, map, IfOk};
ghost use Rattle.cjc_bytes.specs.declared.fault.MemberId.{MemberId as Member};
ghost use Rattle.cjc_world.specs.Classes.{all_classes};
ghost use Rattle.cjc_tokens.specs.Tokens.{assigned};
ghost use Rattle.cjc_components.specs.Names.{virtual_token};
ghost use Rattle.cjc_components.specs.Package.{Package, tokens, world};
ghost use Rattle.cjc_vtable.specs.Laws.{KeepsRules};
ghost use Rattle.cjc_key_tokens.specs.Found.{IsFoundAbove, found_token, token_found};

use cjc_bytes::{MemberId, NoMemory, Row};
use cjc_ncode::PoolKey;
use cjc_tokens::Tokens;
use cjc_world::{World, lookup_laws};
use std::alloc::Global;

/// The token of the method that is found; 0 where none is, or it has none.
fn token_found(world: &World<'_>, tokens: &Tokens, method: &MemberId) -> u8
    ensures { result ≡ token_found (all_classes world.now) tokens.now method.now }
{
    match world.find_method(method) {
        Some(found) => tokens.member_token(found).unwrap_or(0),
        None => 0,
    }
}

fn found_token(world: &World<'_>, tokens: &Tokens, key: &PoolKey) -> u8
    ensures { result ≡ found_token (all_classes world.now) tokens.now key.now }
{
    match key {
        PoolKey::Virtual(method) | PoolKey::Super(method) => token_found(world, tokens, method),
        _ => 0,
    }
}

/// By the number of a key the token of the method that is found by the class, the name and the descriptor that it says; 0 of
/// a key that is of no virtual method.
pub fn key_tokens(
    alloc: Global,
    world: &World<'_>,
    tokens: &Tokens,
    keys: &[PoolKey],
) -> Result<Row<u8>, NoMemory>
    ensures { IfOk result (λ row. row ≡ map (found_token (all_classes world.now) tokens.now) keys.now) }
{
    let mut row = Row::new(alloc);
    for key in keys {
        row.push(found_token(world, tokens, key))?;
    }
    Ok(row)
}

/// Where no cycle is, a class has one superclass, and export files do not contradict one another, the token of a virtual
/// method in the class that a key names is that of the method that is found, if it is found in that class or above.
pub fn key_tokens_are_those()
    ensures { (p : Package) (m : Member) → KeepsRules (world p) → IsFoundAbove (world p) m → virtual_token p m ≡ token_found (world p) (tokens p) m }
{
    lookup_laws();
}
