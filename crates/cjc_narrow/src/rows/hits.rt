//! What a look-up of the world finds: the class that declares a member, and its flags. Called by names.rt. Knows no
//! instruction.

ghost use Rattle.std.specs.Prelude.{◌≡◌, option_map, slice_get};
ghost use Rattle.cjc_types.specs.World.Classes.{all_classes};
ghost use Rattle.cjc_types.specs.World.Rules.{members};
ghost use Rattle.cjc_types.specs.World.Working.Known.{class_of};
ghost use Rattle.cjc_narrow.specs.Rows.Resolved.{field_found, method_found};
ghost use Rattle.cjc_narrow.specs.Rows.Working.Hits.{hit_of};

use cjc_types::bytes::MemberId;
use cjc_types::world::{Known, World};

/// A field or method that is found.
#[derive(Clone, Copy)]
pub(crate) struct ResolvedMember<'w, 'a> {
    /// The class that declares it.
    pub owner: Known<'w, 'a>,
    pub flags: u16,
}

/// The field or method at a place of its class.
fn hit_at<'w, 'a>(owner: Known<'w, 'a>, field: bool, place: usize) -> Option<ResolvedMember<'w, 'a>>
    ensures { option_map hit_of result ≡ option_map (λ m. record { owner = class_of owner.entry; flags = m.flags })
        (slice_get (members field (class_of owner.entry)) place) }
{
    if place < owner.member_count(field) {
        let flags = owner.member_flags(field, place);
        Some(ResolvedMember { owner, flags })
    } else {
        None
    }
}

/// The field that is found from the named class.
pub(crate) fn field_found<'w, 'a>(
    world: &'w World<'a>,
    id: &MemberId,
) -> Option<ResolvedMember<'w, 'a>>
    ensures { option_map hit_of result ≡ field_found (all_classes world.now) id.now }
{
    let found = world.find_field(id)?;
    let owner = world.class_at(found.imported, found.class)?;
    hit_at(owner, true, found.member as usize)
}

/// The method that is found from the named class.
pub(crate) fn method_found<'w, 'a>(
    world: &'w World<'a>,
    id: &MemberId,
) -> Option<ResolvedMember<'w, 'a>>
    ensures { option_map hit_of result ≡ method_found (all_classes world.now) id.now }
{
    let found = world.find_method(id)?;
    let owner = world.class_at(found.imported, found.class)?;
    let place = (found.member as usize).saturating_sub(owner.field_count());
    hit_at(owner, false, place)
}
