//! Whether a package has a method in int mode, of those that are written. It knows no code.

ghost use Rattle.std.specs.Prelude.{◌≡◌, All, length, IfOk};
ghost use Rattle.std.specs.List.{list_any};
ghost use Rattle.cjc_int_package.specs.Components.{is_in_int_mode};
ghost use Rattle.cjc_int_package.specs.Modes.{Tables, is_int};
ghost use Rattle.cjc_pool.specs.JvmSemantics.OnePackage.{method_at};
ghost use Rattle.cjc_methods.specs.Ready.{AreReady, AreTold, IsOwn};
ghost use Rattle.cjc_methods.specs.Working.Places.{class_places};

use crate::places::class_places;
use crate::selecting::{Sources, place_of};
use cjc_bytes::NoMemory;
use cjc_int_mode::modes::Mode;
use cjc_narrow::bytecode::MethodCode;
use cjc_narrow::types::TypeTable;
use cjc_world::{Found, World};
use std::alloc::Global;

fn is_int(mode: Mode) -> bool
    ensures { result ≡ is_int mode }
{
    match mode {
        Mode::Short => false,
        Mode::Int => true,
    }
}

/// Whether a member has code in int mode.
fn is_in_int_mode(world: &World<'_>, sources: Sources<'_>, member: Found) -> bool
    requires ready { AreReady world.now sources.codes.now sources.types.now }
    requires count { length sources.modes.now ≡ length sources.codes.now }
    requires places { sources.places.now ≡ class_places 0 world.now.classes }
    requires own { IsOwn world.now member }
    ensures { (t : Tables) → AreTold world.now sources.entry.codes.now sources.entry.types.now sources.entry.modes.now t
        → result ≡ is_in_int_mode t (method_at world.now member) }
{
    match place_of(world, sources, member) {
        Some(place) => is_int(sources.modes[place as usize]),
        None => false,
    }
}

/// Whether one of the methods of a package, which are these members, is in int mode.
pub fn any_in_int_mode(
    alloc: Global,
    world: &World<'_>,
    codes: &[MethodCode],
    types: &[TypeTable],
    modes: &[Mode],
    members: &[Found],
) -> Result<bool, NoMemory>
    requires ready { AreReady world.now codes.now types.now }
    requires count { length modes.now ≡ length codes.now }
    requires own { All (IsOwn world.now) members.now }
    ensures { (t : Tables) → AreTold world.now codes.now types.now modes.now t
        → IfOk result (λ any. any ≡ list_any (λ f. is_in_int_mode t (method_at world.now f)) members.now) }
{
    let places = class_places(alloc, world.classes().items())?;
    let sources = Sources {
        codes,
        types,
        modes,
        places: places.items(),
    };
    for member in members {
        if is_in_int_mode(world, sources, *member) {
            return Ok(true);
        }
    }
    Ok(false)
}
