//! The sentences on code: methods are cut and indices gathered here, once, and handed to their tests.

ghost use Rattle.std.specs.Prelude.{◌≡◌, IfOk, map};
ghost use Rattle.cjc_check.specs.Coded.{AreCoded};
ghost use Rattle.cjc_check.specs.Codes.Bodies.{AreBodies, IsCut, code_of, cut_of};
ghost use Rattle.cjc_check_tables.specs.CheckIndex.Lookup.Indexed.{IsIndexed};
ghost use Rattle.cjc_check_tables.specs.CheckIndex.Lookup.Parts.{complete_of};
ghost use Rattle.cjc_check_rules.specs.Codes.{all_codes, codes, whole_spots};
ghost use Rattle.cjc_check_rules.specs.Spots.{first};
ghost use Rattle.cjc_check_rules.specs.Complete.{AreSmall};

use crate::codes::{Body, Cutting, cut, whole_spot};
use crate::jumps::{all_indices, handler_spot, index_spot, jump_spot, location_spot};
use cjc_capread::bytes::NoMemory;
use cjc_check_rules::ComponentPlace;
use cjc_check_tables::check_index::lookup::Names;
use std::alloc::Global;

/// Where 709, 710, 711, 712 and 714 are broken first, each by itself.
#[derive(Clone, Copy)]
pub(crate) struct Coded {
    pub(crate) whole: Option<ComponentPlace>,
    pub(crate) jumps: Option<ComponentPlace>,
    pub(crate) indices: Option<ComponentPlace>,
    pub(crate) handlers: Option<ComponentPlace>,
    pub(crate) locations: Option<ComponentPlace>,
}

/// The codes of methods that were cut, none where that ended.
fn bodies_of<'a, 'b>(cutting: &'a Cutting<'b>) -> &'a [Body<'b>]
    requires { IsCut cutting.now }
    ensures is { map code_of result.now ≡ all_codes (cut_of cutting.now) }
    ensures kept { AreBodies result.now }
{
    match cutting {
        Cutting::Whole(bodies) => bodies.items(),
        Cutting::Ends(_) => &[],
    }
}

/// The first places, of methods that are cut.
fn in_bodies(
    alloc: Global,
    names: &Names<'_>,
    bodies: &[Body<'_>],
    whole: Option<ComponentPlace>,
) -> Result<Coded, NoMemory>
    requires small { AreSmall (complete_of names.now.parts.now) }
    requires kept { AreBodies bodies.now }
    requires is { map code_of bodies.now ≡ codes (complete_of names.now.parts.now) }
    requires whole { whole ≡ first (whole_spots (complete_of names.now.parts.now)) }
    ensures { IfOk result (λ r. AreCoded r (complete_of names.now.parts.now)) }
{
    let entries = names.parts.pool.entries.items();
    let handlers = names.parts.method.handlers.items();
    let all = all_indices(alloc, bodies)?;
    let listed = all.items();
    let locations = location_spot(alloc, names.parts.locations, handlers, listed)?;
    Ok(Coded {
        whole,
        jumps: jump_spot(bodies),
        indices: index_spot(entries, listed),
        handlers: handler_spot(handlers, bodies, entries),
        locations,
    })
}

/// Where 709, 710, 711, 712 and 714 are broken first, each by itself.
pub(crate) fn code_spots(alloc: Global, names: &Names<'_>) -> Result<Coded, NoMemory>
    requires ready { IsIndexed names.now }
    requires small { AreSmall (complete_of names.now.parts.now) }
    ensures { IfOk result (λ r. AreCoded r (complete_of names.now.parts.now)) }
{
    let cutting = cut(alloc, names)?;
    let whole = whole_spot(&cutting);
    in_bodies(alloc, names, bodies_of(&cutting), whole)
}
