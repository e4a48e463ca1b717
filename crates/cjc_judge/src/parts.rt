//! What a package has where it keeps the rules that speak of it: its tokens, where 413 is kept, and what its static
//! fields hold at first, where 308 is. Called by whoever writes a package or runs one.

ghost use Rattle.std.specs.Prelude.{◌≡◌, [], IfOk};
ghost use Rattle.cjc_bytes.specs.Breaks.{Break as Broken};
ghost use Rattle.cjc_clinit.specs.Image.{IsImage};
ghost use Rattle.cjc_clinit.specs.Rules.{BreaksImage};
ghost use Rattle.cjc_judge.specs.Rules.{has_applets};
ghost use Rattle.cjc_vtable.specs.LowerTokens.Rules.{FewCells, FewExported, token_breaks};
ghost use Rattle.cjc_vtable.specs.LowerTokens.Tokens.{assigned};

use crate::judging::settings;
use cjc_bytes::{Fault, NoMemory};
use cjc_list::List;
use cjc_vtable::bytecode::Codes;
use cjc_vtable::tokens::{Tokens, assign};
use cjc_world::{StaticImage, World};
use std::alloc::Global;

/// The tokens of the classes and members of a list's package, and of those that export files describe, where none is
/// too high.
pub fn tokens_of(alloc: Global, list: &List, world: &World<'_>) -> Result<Tokens, NoMemory>
    requires exported { FewExported (has_applets list.now) world.now }
    requires cells { FewCells world.now }
    requires unbroken { token_breaks (has_applets list.now) world.now ≡ [] }
    ensures { IfOk result (λ t. t ≡ assigned (has_applets list.now) world.now) }
{
    let settings = settings(alloc, list)?;
    match assign(alloc, world, &settings) {
        Ok(tokens) => Ok(tokens),
        Err(Fault::NoMemory) => Err(NoMemory),
        Err(Fault::Refused(_)) => unreachable!(),
    }
}

/// What the static fields of a package hold at first, where its initialisers break nothing.
pub fn image_of(alloc: Global, world: &World<'_>, codes: &Codes) -> Result<StaticImage, NoMemory>
    requires { (b : Broken) → BreaksImage world.now codes.now b → ⊥ }
    ensures { IfOk result (IsImage world.now codes.now) }
{
    match cjc_clinit::image(alloc, world, codes) {
        Ok(image) => Ok(image),
        Err(Fault::NoMemory) => Err(NoMemory),
        Err(Fault::Refused(_)) => unreachable!(),
    }
}
