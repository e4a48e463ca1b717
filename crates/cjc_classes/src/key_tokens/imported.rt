//! The token of a virtual method of an imported class. Called by `shown` and `keys`.

ghost use Rattle.std.specs.Prelude.{◌≡◌, true, Option, IfOk};
ghost use Rattle.cjc_world.specs.Classes.{all_classes};
ghost use Rattle.cjc_world.specs.Working.Known.{class_of};
ghost use Rattle.cjc_tokens.specs.Lines.{line_at};
ghost use Rattle.cjc_tokens.specs.Slots.{shown_token};
ghost use Rattle.cjc_classes.specs.Walks.{called};

use cjc_bytes::NoMemory;
use cjc_world::{Known, World};
use std::alloc::Global;

/// A token as it stands in a component.
fn as_byte(token: Option<usize>) -> Result<Option<u8>, NoMemory>
    ensures { IfOk result (λ t. t ≡ token) }
{
    match token {
        None => Ok(None),
        Some(token) => {
            if token > 255 {
                return Err(NoMemory);
            }
            Ok(Some(token as u8))
        }
    }
}

/// The token that an imported class has for a public or protected method.
pub(crate) fn imported_token(
    alloc: Global,
    world: &World<'_>,
    class: Known<'_, '_>,
    name: &[u8],
    desc: &[u8],
) -> Result<Option<u8>, NoMemory>
    requires { (class_of class).is_imported ≡ true }
    ensures { IfOk result (λ t. t ≡ shown_token (line_at (all_classes world.now) (class_of class.entry))
        (called name.now desc.now)) }
{
    let token = cjc_tokens::imported_token(alloc, world, class, name, desc)?;
    as_byte(token)
}
