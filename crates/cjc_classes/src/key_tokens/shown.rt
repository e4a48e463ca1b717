//! The token that a class has for a public or protected method, by the nearest of it and its superclasses that
//! declares it, got it or is imported. Called by `keys`.

ghost use Rattle.std.specs.Prelude.{◌≡◌, ◌<◌, ◌&&◌, Bool, None, Some, length, map, position, slice_get, IfOk};
ghost use Rattle.cjc_world.specs.ClassFile.declared.tree.ClassTree.{ClassTree as Tree};
ghost use Rattle.cjc_world.specs.Classes.{all_classes, declared, method_of_class};
ghost use Rattle.cjc_world.specs.Lookup.{is_called};
ghost use Rattle.cjc_tokens.specs.Lines.{line_at};
ghost use Rattle.cjc_tokens.specs.Members.{is_shown};
ghost use Rattle.cjc_tokens.specs.Slots.{shown_token};
ghost use Rattle.cjc_tokens.specs.Tokens.{assigned};
ghost use Rattle.cjc_classes.specs.Walks.{IsShownHere, called};

use crate::key_tokens::above::above;
use crate::key_tokens::imported::imported_token;
use crate::key_tokens::members::own_token;
use crate::key_tokens::places::{added_place, shown_place};
use cjc_bytes::NoMemory;
use cjc_tokens::Tokens;
use cjc_world::{Known, World, lookup_laws};
use std::alloc::Global;

/// The token of a method that a class got from its interfaces, if it got one of this name and descriptor and
/// declares none.
fn got_here(
    world: &World<'_>,
    tokens: &Tokens,
    number: u32,
    name: &[u8],
    desc: &[u8],
) -> Result<Option<u8>, NoMemory>
    requires tokens { (applets : Bool) × (tokens.now ≡ assigned applets world.now) }
    requires number { number < length world.now.classes }
    ensures { (c : Tree) → slice_get world.now.classes number ≡ Some c
        → position (λ m. is_shown m && is_called name.now desc.now m) (map method_of_class c.methods) ≡ None
        → IfOk result (IsShownHere (all_classes world.now) (declared number c) (called name.now desc.now)) }
{
    let class = &world.classes().items()[number as usize];
    let Some(place) = added_place(world.added(number).items(), name, desc) else {
        return Ok(None);
    };
    let methods = class.methods.items().len();
    let token = own_token(tokens, number, class, methods, place)?;
    Ok(Some(token))
}

/// The token of the public or protected method that a class declares or got, if it has one.
fn shown_here(
    world: &World<'_>,
    tokens: &Tokens,
    number: u32,
    name: &[u8],
    desc: &[u8],
) -> Result<Option<u8>, NoMemory>
    requires tokens { (applets : Bool) × (tokens.now ≡ assigned applets world.now) }
    requires number { number < length world.now.classes }
    ensures { (c : Tree) → slice_get world.now.classes number ≡ Some c
        → IfOk result (IsShownHere (all_classes world.now) (declared number c) (called name.now desc.now)) }
{
    let class = &world.classes().items()[number as usize];
    let Some(place) = shown_place(class.methods.items(), name, desc) else {
        return got_here(world, tokens, number, name, desc);
    };
    let token = own_token(tokens, number, class, 0, place)?;
    Ok(Some(token))
}

/// The token that a class of the package has for a public or protected method: by the nearest of it and its
/// superclasses that declares or got one, else by the imported class above them.
pub(crate) fn shown_token(
    alloc: Global,
    world: &World<'_>,
    tokens: &Tokens,
    number: u32,
    name: &[u8],
    desc: &[u8],
) -> Result<Option<u8>, NoMemory>
    requires tokens { (applets : Bool) × (tokens.now ≡ assigned applets world.now) }
    requires number { number < length world.now.classes }
    ensures { (c : Tree) → slice_get world.now.classes number ≡ Some c
        → IfOk result (λ t. t ≡ shown_token (line_at (all_classes world.now) (declared number c))
        (called name.now desc.now)) }
{
    lookup_laws();
    world.acyclic();
    let mut at = number;
    for _ in 0..world.classes().items().len() {
        if let Some(token) = shown_here(world, tokens, at, name, desc)? {
            return Ok(Some(token));
        }
        match above(world, at) {
            None => return Ok(None),
            Some(Known::Declared(super_number, _)) => at = super_number,
            Some(Known::Imported(super_number, class)) => {
                let imported = Known::Imported(super_number, class);
                return imported_token(alloc, world, imported, name, desc);
            }
        }
    }
    Err(NoMemory)
}
