//! Package-visible methods, which have tokens of their own. Called by `keys`.

ghost use Rattle.std.specs.Prelude.{◌≡◌, ◌<◌, Bool, Some, length, slice_get, IfOk};
ghost use Rattle.cjc_world.specs.ClassFile.declared.tree.ClassTree.{ClassTree as Tree};
ghost use Rattle.cjc_world.specs.Classes.{all_classes, declared};
ghost use Rattle.cjc_tokens.specs.Lines.{line_at};
ghost use Rattle.cjc_tokens.specs.Tokens.{assigned};
ghost use Rattle.cjc_classes.specs.Walks.{IsHiddenHere, TellsHidden, called};

use crate::key_tokens::above::above;
use crate::key_tokens::members::own_token;
use crate::key_tokens::places::{called_place, is_hidden};
use cjc_bytes::NoMemory;
use cjc_tokens::Tokens;
use cjc_world::{Known, World, lookup_laws};

/// What the first method says that a class declares and that is called so: None where there is none, Some(None)
/// of one that is not package-visible, else its token. An interface has no package-visible method, which 304
/// refuses.
fn hidden_here(
    world: &World<'_>,
    tokens: &Tokens,
    number: u32,
    name: &[u8],
    desc: &[u8],
) -> Result<Option<Option<u8>>, NoMemory>
    requires tokens { (applets : Bool) × (tokens.now ≡ assigned applets world.now) }
    requires number { number < length world.now.classes }
    ensures { (c : Tree) → slice_get world.now.classes number ≡ Some c
        → IfOk result (IsHiddenHere (all_classes world.now) (declared number c) (called name.now desc.now)) }
{
    let class = &world.classes().items()[number as usize];
    let methods = class.methods.items();
    let Some(place) = called_place(methods, name, desc) else {
        return Ok(None);
    };
    let method = &methods[place];
    if is_hidden(method) {
        let token = own_token(tokens, number, class, 0, place)?;
        return Ok(Some(Some(token)));
    }
    Ok(Some(None))
}

/// The token of the package-visible method of the package that a look-up finds in a class or its superclasses;
/// None where it finds none, or another method.
pub(crate) fn hidden_token(
    world: &World<'_>,
    tokens: &Tokens,
    number: u32,
    name: &[u8],
    desc: &[u8],
) -> Result<Option<u8>, NoMemory>
    requires tokens { (applets : Bool) × (tokens.now ≡ assigned applets world.now) }
    requires number { number < length world.now.classes }
    ensures { (c : Tree) → slice_get world.now.classes number ≡ Some c
        → IfOk result (TellsHidden (line_at (all_classes world.now) (declared number c)) (called name.now desc.now)) }
{
    lookup_laws();
    world.acyclic();
    let mut at = number;
    for _ in 0..world.classes().items().len() {
        if let Some(told) = hidden_here(world, tokens, at, name, desc)? {
            return Ok(told);
        }
        match above(world, at) {
            None => return Ok(None),
            Some(Known::Imported(..)) => return Ok(None),
            Some(Known::Declared(super_number, _)) => at = super_number,
        }
    }
    Err(NoMemory)
}
