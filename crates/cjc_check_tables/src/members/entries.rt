//! The entries of the constant pool (Java Card Virtual Machine Specification 2.2.2, section 6.7). Called by `spots`.

ghost use Rattle.std.specs.Prelude.{◌≡◌, ◌+◌, ◌<◌, ◌^◌};
ghost use Rattle.cjc_check_index.specs.Lookup.Parts.{complete_of};
ghost use Rattle.cjc_check_tables.specs.Members.Working.Known.{HasMembers};
ghost use Rattle.cjc_check_tables.specs.Members.Working.Tests.{entry_spot};
ghost use Rattle.cjc_check_rules.specs.Complete.{AreSmall};
ghost use Rattle.cjc_check_rules.specs.PoolEntries.{pool_spots};
ghost use Rattle.cjc_check_rules.specs.Spots.{first};

use crate::members::members::Members;
use cjc_capread::PoolEntry;
use cjc_check_index::lookup::{Test, first_along, unless};
use cjc_check_rules::ComponentPlace;

/// The tag of ConstantPool.
const POOL: u8 = 5;

impl Test<PoolEntry> for Members<'_> {
    ghost broken = { λ s. entry_spot (complete_of s.methods.now.names.now.parts.now)
        s.methods.now.names.now.exports.now };

    ghost fits = { λ s. HasMembers s };

    fn first_in(&self, at: u32, item: &PoolEntry) -> Option<ComponentPlace> {
        unless(self.names_member(*item), POOL, at)
    }
}

/// Where 708 is broken first: an entry that names what is not there.
#[tactic(auto, using(cjc_check_rules::proofs::Arrays::four_each))]
pub(crate) fn entry_spot(members: &Members<'_>) -> Option<ComponentPlace>
    requires ready { HasMembers members.now }
    requires small { AreSmall (complete_of members.now.methods.now.names.now.parts.now) }
    ensures { result ≡ first (pool_spots (complete_of members.now.methods.now.names.now.parts.now)
        members.now.methods.now.names.now.exports.now) }
{
    let pool = members.methods.names.parts.pool;
    first_along(members, 2, pool.entries.items())
}
