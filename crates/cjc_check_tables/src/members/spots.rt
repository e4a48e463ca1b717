//! Where 707 and 708 are broken first: what imported classes have, and what the classes of the package have, is made
//! here, once.

ghost use Rattle.std.specs.Prelude.{◌≡◌, IfOk, length};
ghost use Rattle.cjc_check_index.specs.Imported.Tokens.{AreTokens};
ghost use Rattle.cjc_check_index.specs.Lookup.MethodStarts.{HasMethods};
ghost use Rattle.cjc_check_index.specs.Lookup.Parts.{complete_of};
ghost use Rattle.cjc_check_tables.specs.Members.MemberSpots.{AreMemberSpots};
ghost use Rattle.cjc_check_tables.specs.Members.Working.Above.{AreAbove};
ghost use Rattle.cjc_check_rules.specs.Complete.{AreSmall};

use crate::members::entries::entry_spot;
use crate::members::fields::fields_of;
use crate::members::maps::map_spot;
use crate::members::members::Members;
use crate::members::needs::needs_of;
use crate::members::virtuals::above_of;
use cjc_capread::bytes::{NoMemory, Row};
use cjc_check_index::imported::{Tokens, imported_tokens};
use cjc_check_index::lookup::Methods;
use cjc_check_rules::ComponentPlace;
use std::alloc::Global;

/// Where 707 and 708 are broken first, each by itself.
#[derive(Clone, Copy)]
pub struct MemberSpots {
    pub maps: Option<ComponentPlace>,
    pub entries: Option<ComponentPlace>,
}

/// The first places, where it is kept what imported classes and superclasses have.
fn by_tables(
    alloc: Global,
    methods: &Methods<'_>,
    tokens: &Tokens,
    above: &[Row<bool>],
) -> Result<MemberSpots, NoMemory>
    requires ready { HasMethods methods.now }
    requires small { AreSmall (complete_of methods.now.names.now.parts.now) }
    requires kept { AreTokens methods.now.names.now.exports.now tokens.now }
    requires known { AreAbove methods.now.names.now.parts.now.class.now methods.now.names.now.exports.now above.now }
    requires all { length above.now ≡ length methods.now.names.now.parts.now.class.now.classes }
    ensures { IfOk result (λ r. AreMemberSpots r (complete_of methods.now.names.now.parts.now)
        methods.now.names.now.exports.now) }
{
    let parts = methods.names.parts;
    let fields = fields_of(alloc, parts)?;
    let needs = needs_of(alloc, parts.descriptor.classes.items())?;
    let members = Members {
        methods,
        tokens,
        above,
        fields: &fields,
        needs: &needs,
    };
    Ok(MemberSpots {
        maps: map_spot(&members),
        entries: entry_spot(&members),
    })
}

/// Where 707 and 708 are broken first, each by itself.
pub fn member_spots(alloc: Global, methods: &Methods<'_>) -> Result<MemberSpots, NoMemory>
    requires ready { HasMethods methods.now }
    requires small { AreSmall (complete_of methods.now.names.now.parts.now) }
    ensures { IfOk result (λ r. AreMemberSpots r (complete_of methods.now.names.now.parts.now)
        methods.now.names.now.exports.now) }
{
    let names = methods.names;
    let tokens = imported_tokens(alloc, names.exports)?;
    let above = above_of(alloc, names, &tokens)?;
    by_tables(alloc, methods, &tokens, above.items())
}
