//! Of each key of the pool the token of its virtual method, looked up in the class that the key names. What the
//! crate is called for.

ghost use Rattle.std.specs.Prelude.{◌≡◌, ◌<◌, Bool, Some, length, map, slice_get, IfOk};
ghost use Rattle.cjc_world.specs.ClassFile.declared.tree.ClassTree.{ClassTree as Tree};
ghost use Rattle.cjc_world.specs.Classes.{all_classes, declared};
ghost use Rattle.cjc_tokens.specs.Lines.{line_at, line_of};
ghost use Rattle.cjc_tokens.specs.Tokens.{assigned};
ghost use Rattle.cjc_components.specs.Names.{token_in};
ghost use Rattle.cjc_components.specs.Package.{Package};
ghost use Rattle.cjc_classes.specs.Entries.{key_token};
ghost use Rattle.cjc_classes.specs.Walks.{called};

use crate::key_tokens::hidden::hidden_token;
use crate::key_tokens::imported::imported_token;
use crate::key_tokens::shown::shown_token;
use cjc_bytes::{MemberId, NoMemory, Row};
use cjc_components::ncode::PoolKey;
use cjc_tokens::Tokens;
use cjc_world::{Known, World, lookup_laws};
use std::alloc::Global;

/// The token of a virtual method in a class of the package, 0 where it has none.
fn declared_token(
    alloc: Global,
    world: &World<'_>,
    tokens: &Tokens,
    number: u32,
    method: &MemberId,
) -> Result<u8, NoMemory>
    requires tokens { (applets : Bool) × (tokens.now ≡ assigned applets world.now) }
    requires number { number < length world.now.classes }
    ensures { (c : Tree) → slice_get world.now.classes number ≡ Some c → IfOk result (λ t. let m = method.now
        in t ≡ token_in (line_at (all_classes world.now) (declared number c)) (called m.name m.desc)) }
{
    let name = method.name.items();
    let desc = method.desc.items();
    if let Some(token) = hidden_token(world, tokens, number, name, desc)? {
        return Ok(token);
    }
    let token = shown_token(alloc, world, tokens, number, name, desc)?;
    Ok(token.unwrap_or(0))
}

/// The token of a virtual method in the class that it names, 0 where it has none.
fn virtual_token(
    alloc: Global,
    world: &World<'_>,
    tokens: &Tokens,
    method: &MemberId,
) -> Result<u8, NoMemory>
    requires { (applets : Bool) × (tokens.now ≡ assigned applets world.now) }
    ensures { IfOk result (λ t. let m = method.now in t ≡ token_in (line_of (all_classes world.now) m.class)
        (called m.name m.desc)) }
{
    lookup_laws();
    world.acyclic();
    match world.class_named(method.class.items()) {
        None => Ok(0),
        Some(Known::Declared(number, _)) => declared_token(alloc, world, tokens, number, method),
        Some(Known::Imported(number, class)) => {
            let imported = Known::Imported(number, class);
            let name = method.name.items();
            let token = imported_token(alloc, world, imported, name, method.desc.items())?;
            Ok(token.unwrap_or(0))
        }
    }
}

fn key_token(
    alloc: Global,
    world: &World<'_>,
    tokens: &Tokens,
    key: &PoolKey,
) -> Result<u8, NoMemory>
    requires { (applets : Bool) × (tokens.now ≡ assigned applets world.now) }
    ensures { (p : Package) → p.files ≡ world.now → IfOk result (λ t. t ≡ key_token p key.now) }
{
    match key {
        PoolKey::Virtual(method) | PoolKey::Super(method) => {
            virtual_token(alloc, world, tokens, method)
        }
        _ => Ok(0),
    }
}

/// By the number of a key the token of its virtual method in the class that it names: of a public or protected
/// one, or one that the class got from its interfaces; or of a package-visible one of the package, with the
/// high bit. 0 of a key that is of no virtual method.
pub fn key_tokens(
    alloc: Global,
    world: &World<'_>,
    tokens: &Tokens,
    keys: &[PoolKey],
) -> Result<Row<u8>, NoMemory>
    requires { (applets : Bool) × (tokens.now ≡ assigned applets world.now) }
    ensures { (p : Package) → p.files ≡ world.now → IfOk result (λ row. row ≡ map (key_token p) keys.now) }
{
    let mut row = Row::new(alloc);
    for key in keys {
        row.push(key_token(alloc, world, tokens, key)?)?;
    }
    Ok(row)
}
