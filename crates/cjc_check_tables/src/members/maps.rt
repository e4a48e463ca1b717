//! The interface maps of classes (Java Card Virtual Machine Specification 2.2.2, section 6.8.2.5). Called by `spots`.

ghost use Rattle.std.specs.Prelude.{◌≡◌, ◌+◌, ◌<◌, ◌^◌};
ghost use Rattle.cjc_check_index.specs.Lookup.Parts.{complete_of};
ghost use Rattle.cjc_check_tables.specs.Members.Working.Known.{HasMembers};
ghost use Rattle.cjc_check_tables.specs.Members.Working.Tests.{index_spot};
ghost use Rattle.cjc_check_rules.specs.Complete.{AreSmall, class_size};
ghost use Rattle.cjc_check_rules.specs.Spots.{first};
ghost use Rattle.cjc_check_rules.specs.Tables.{in_all_maps, in_map, map_spots};

use crate::members::members::Members;
use cjc_capread::{ClassEntry, ClassRef, ImplementedInterface};
use cjc_check_index::lookup::{Test, earlier, first_along, first_class, unless};
use cjc_check_rules::ComponentPlace;

/// The tag of Class.
const CLASS: u8 = 6;

/// No token.
const NONE: u8 = 0xFF;

/// The indices of the maps of a class that begins at an offset.
#[derive(Drop)]
struct Indices<'a> {
    members: &'a Members<'a>,
    class: u32,
}

impl Test<u8> for Indices<'_> {
    ghost broken = { λ s. index_spot (complete_of s.members.now.methods.now.names.now.parts.now)
        s.members.now.methods.now.names.now.exports.now s.class };

    ghost fits = { λ s. HasMembers s.members.now };

    fn first_in(&self, at: u32, item: &u8) -> Option<ComponentPlace> {
        let class = ClassRef::Inside(u64::from(self.class));
        let is_index = *item != NONE && self.members.has_virtual(class, *item);
        unless(is_index, CLASS, at)
    }
}

/// The maps of a class that begins at an offset.
#[derive(Drop)]
struct Maps<'a> {
    members: &'a Members<'a>,
    class: u32,
}

impl Test<ImplementedInterface> for Maps<'_> {
    ghost broken = { λ s. in_map (complete_of s.members.now.methods.now.names.now.parts.now)
        s.members.now.methods.now.names.now.exports.now s.class };

    ghost fits = { λ s. HasMembers s.members.now };

    #[tactic(auto, using(cjc_check_rules::proofs::Firsts::first_append, crate::proofs::MembersLaws::Sizes::one_each))]
    fn first_in(&self, at: u32, item: &ImplementedInterface) -> Option<ComponentPlace> {
        let indices = item.index.items();
        let is_long = self.members.is_long_enough(item.interface, indices.len());
        let count = unless(is_long, CLASS, at + 2);
        let test = Indices {
            members: self.members,
            class: self.class,
        };
        earlier(count, first_along(&test, at + 3, indices))
    }
}

/// The first place in the maps of a class, which begins at an offset, that is broken.
fn in_maps(members: &Members<'_>, class: &ClassEntry, at: u32) -> Option<ComponentPlace>
    requires ready { HasMembers members.now }
    requires small { 3 + at + class_size class.now < 2 ^ 32 }
    ensures { result ≡ first (in_all_maps (complete_of members.now.methods.now.names.now.parts.now)
        members.now.methods.now.names.now.exports.now at class.now) }
{
    let public = 2 * class.public_methods.items().len() as u32;
    let package = 2 * class.package_methods.items().len() as u32;
    let maps = Maps { members, class: at };
    first_along(&maps, at + 10 + public + package, class.interfaces.items())
}

impl Test<ClassEntry> for Members<'_> {
    ghost broken = { λ s. in_all_maps (complete_of s.methods.now.names.now.parts.now)
        s.methods.now.names.now.exports.now };

    ghost fits = { λ s. HasMembers s };

    fn first_in(&self, at: u32, item: &ClassEntry) -> Option<ComponentPlace> {
        in_maps(self, item, at)
    }
}

/// Where 707 is broken first: the count of a map, or an index.
pub(crate) fn map_spot(members: &Members<'_>) -> Option<ComponentPlace>
    requires ready { HasMembers members.now }
    requires small { AreSmall (complete_of members.now.methods.now.names.now.parts.now) }
    ensures { result ≡ first (map_spots (complete_of members.now.methods.now.names.now.parts.now)
        members.now.methods.now.names.now.exports.now) }
{
    let class = members.methods.names.parts.class;
    first_along(members, first_class(class), class.classes.items())
}
