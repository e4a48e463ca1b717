//! The narrow code of all methods of a package. Which field instructions have an index of one byte depends on the pool,
//! and the pool on what code names: so code is selected once to know the pool, and that of methods which name an
//! instance field again by the indices that it has.

ghost use Rattle.std.specs.Prelude.{◌≡◌, List, All, length, map, IfOk};
ghost use Rattle.cjc_pool.specs.NCode.PoolOrder.{pool_order};
ghost use Rattle.cjc_pool.specs.NCode.declared.narrow.PoolKey.{PoolKey};
ghost use Rattle.cjc_narrow.specs.Rows.Selected.{near_fields};
ghost use Rattle.cjc_int_package.specs.Modes.{Tables};
ghost use Rattle.cjc_int_package.specs.Written.{code_by_mode_at};
ghost use Rattle.cjc_methods.specs.Ready.{AreFree, AreReady, AreTold, IsListed};
ghost use Rattle.cjc_methods.specs.Words.{HasRoom};
ghost use Rattle.cjc_methods.specs.Working.Places.{class_places};

use crate::keeping::keeps_code;
use crate::places::class_places;
use crate::selecting::{Sources, code_at, codes_at};
use cjc_bytes::{NoMemory, Row};
use cjc_int_mode::modes::Mode;
use cjc_narrow::bytecode::MethodCode;
use cjc_narrow::keys::{Numbers, number};
use cjc_narrow::ncode::NMethod;
use cjc_narrow::types::TypeTable;
use cjc_world::{Found, World};
use std::alloc::Global;

/// The narrow code of these members by a pool, of that which was selected to know it: a method that names no instance
/// field keeps that, any other is selected again in its place.
fn settled(
    alloc: Global,
    world: &World<'_>,
    sources: Sources<'_>,
    pool: &Numbers,
    members: &[Found],
    first: Row<NMethod>,
) -> Result<Row<NMethod>, NoMemory>
    requires ready { AreReady world.now sources.codes.now sources.types.now }
    requires count { length sources.modes.now ≡ length sources.codes.now }
    requires free { AreFree world.now sources.codes.now sources.modes.now }
    requires places { sources.places.now ≡ class_places 0 world.now.classes }
    requires listed { All (IsListed world.now) members.now }
    requires room { All (HasRoom world.now sources.codes.now sources.types.now sources.modes.now) members.now }
    ensures { (t : Tables) (keys : List PoolKey) → AreTold world.now sources.entry.codes.now sources.entry.types.now
        sources.entry.modes.now t → first ≡ map (code_by_mode_at world.now (near_fields keys) t) members.now
        → IfOk result (λ ns. ns ≡ map (code_by_mode_at world.now (near_fields pool.now) t) members.now) }
{
    let mut codes = first.into_vec();
    for place in 0..members.len() {
        if place < codes.len() && !keeps_code(world, sources, members[place]) {
            codes[place] = code_at(alloc, world, sources, pool, members[place])?;
        }
    }
    Ok(Row::of(codes))
}

/// The narrow code of these members of the package, which are its methods in the order of Method: each with the
/// short form of a field instruction exactly where the field has an index of one byte in the pool of all.
/// Each has the code of its mode; abstract methods and those that a class gets from its interfaces have no
/// instructions.
pub fn narrow_codes(
    alloc: Global,
    world: &World<'_>,
    codes: &[MethodCode],
    types: &[TypeTable],
    modes: &[Mode],
    members: &[Found],
) -> Result<Row<NMethod>, NoMemory>
    requires ready { AreReady world.now codes.now types.now }
    requires count { length modes.now ≡ length codes.now }
    requires free { AreFree world.now codes.now modes.now }
    requires listed { All (IsListed world.now) members.now }
    requires room { All (HasRoom world.now codes.now types.now modes.now) members.now }
    ensures { (t : Tables) → AreTold world.now codes.now types.now modes.now t
        → IfOk result (λ ns. ns ≡ map (code_by_mode_at world.now (near_fields (pool_order ns)) t) members.now) }
{
    let places = class_places(alloc, world.classes().items())?;
    let sources = Sources {
        codes,
        types,
        modes,
        places: places.items(),
    };
    let first = codes_at(alloc, world, sources, &Numbers::new(alloc), members)?;
    let pool = number(alloc, first.items())?;
    settled(alloc, world, sources, &pool, members, first)
}
