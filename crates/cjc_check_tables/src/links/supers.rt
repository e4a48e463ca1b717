//! Each superclass is a class that stands earlier, and each interface an interface (Java Card Virtual Machine
//! Specification 2.2.2, sections 6.8 and 6.13). It knows the classes by `names`.

ghost use Rattle.std.specs.Prelude.{◌≡◌, ◌+◌, ◌<◌, ◌^◌};
ghost use Rattle.cjc_check_rules.specs.Classes.{first_class, first_interface, names_interface};
ghost use Rattle.cjc_check_rules.specs.ClassRefs.{has_superclass, in_interface, interfaces_in_described};
ghost use Rattle.cjc_check_rules.specs.ClassRefs.{stands_earlier, super_in_class, super_spots};
ghost use Rattle.cjc_check_rules.specs.Complete.{AreSmall, class_size, described_size, interface_size};
ghost use Rattle.cjc_check_rules.specs.Spots.{along, first};
ghost use Rattle.cjc_check_index.specs.Lookup.Indexed.{IsIndexed};
ghost use Rattle.cjc_check_index.specs.Lookup.Parts.{complete_of};

use crate::links::refs::{Refs, interface_refs};
use cjc_capread::{ClassDescriptor, ClassEntry, ClassRef};
use cjc_check_index::lookup::{Names, Test, Want, earlier, first_along, first_class, unless};
use cjc_check_rules::ComponentPlace;

/// The tag of Class.
const CLASS: u8 = 6;

/// The tag of Descriptor.
const DESCRIPTOR: u8 = 11;

/// The test of superclasses and interfaces.
#[derive(Drop)]
struct Supers<'a> {
    names: &'a Names<'a>,
}

/// Whether a class of the package stands before an offset of Class; others always do.
fn stands_earlier(class: ClassRef, at: u32) -> bool
    ensures { result ≡ stands_earlier class at }
{
    match class {
        ClassRef::Inside(offset) => offset < u64::from(at),
        ClassRef::Outside { .. } => true,
    }
}

/// Whether the superclass of a class that begins at an offset is a class, and stands earlier.
fn has_superclass(names: &Names<'_>, at: u32, class: &ClassEntry) -> bool
    requires { IsIndexed names.now }
    ensures { result ≡ has_superclass names.now.parts.now.class.now names.now.exports.now at class.now }
{
    names.names(Want::Class, class.superclass) && stands_earlier(class.superclass, at)
}

impl Test<ClassEntry> for Supers<'_> {
    ghost broken = { λ s. super_in_class s.names.now.parts.now.class.now s.names.now.exports.now };

    ghost fits = { λ s. IsIndexed s.names.now };

    #[tactic(auto, using(cjc_check_rules::proofs::Firsts::first_append))]
    fn first_in(&self, at: u32, item: &ClassEntry) -> Option<ComponentPlace> {
        let superclass = unless(has_superclass(self.names, at, item), CLASS, at + 1);
        let refs = Refs {
            names: self.names,
            want: Want::Interface,
        };
        earlier(superclass, refs.in_maps(item, at))
    }
}

impl Test<ClassDescriptor> for Supers<'_> {
    ghost broken = { λ s. interfaces_in_described (names_interface s.names.now.parts.now.class.now
        s.names.now.exports.now) };

    ghost fits = { λ s. IsIndexed s.names.now };

    fn first_in(&self, at: u32, item: &ClassDescriptor) -> Option<ComponentPlace> {
        let refs = Refs {
            names: self.names,
            want: Want::Interface,
        };
        refs.each(item.interfaces.items(), DESCRIPTOR, at + 9)
    }
}

/// The first class whose superclass or interfaces are of the wrong kind.
fn class_supers(supers: &Supers<'_>) -> Option<ComponentPlace>
    requires ready { IsIndexed supers.now.names.now }
    requires small { AreSmall (complete_of supers.now.names.now.parts.now) }
    ensures { result ≡ first (along class_size (super_in_class supers.now.names.now.parts.now.class.now
        supers.now.names.now.exports.now) (first_class supers.now.names.now.parts.now.class.now)
        supers.now.names.now.parts.now.class.now.classes) }
{
    let begin = first_class(supers.names.parts.class);
    first_along(supers, begin, supers.names.parts.class.classes.items())
}

/// The first class of Descriptor whose interfaces are of the wrong kind.
fn described_supers(supers: &Supers<'_>) -> Option<ComponentPlace>
    requires ready { IsIndexed supers.now.names.now }
    requires small { AreSmall (complete_of supers.now.names.now.parts.now) }
    ensures { result
        ≡ first (along described_size (interfaces_in_described (names_interface supers.now.names.now.parts.now.class.now
        supers.now.names.now.exports.now)) 1 supers.now.names.now.parts.now.descriptor.now.classes) }
{
    first_along(supers, 1, supers.names.parts.descriptor.classes.items())
}

/// The first superinterface of an interface that is no interface.
fn interface_supers(names: &Names<'_>) -> Option<ComponentPlace>
    requires ready { IsIndexed names.now }
    requires small { AreSmall (complete_of names.now.parts.now) }
    ensures { result ≡ first (along interface_size (in_interface (names_interface names.now.parts.now.class.now
        names.now.exports.now)) first_interface names.now.parts.now.class.now.interfaces) }
{
    let refs = Refs {
        names,
        want: Want::Interface,
    };
    interface_refs(&refs)
}

/// Where 705 is broken first: a superclass that is no class or does not stand earlier, or an interface that is none.
pub fn super_spot(names: &Names<'_>) -> Option<ComponentPlace>
    requires ready { IsIndexed names.now }
    requires small { AreSmall (complete_of names.now.parts.now) }
    ensures { result ≡ first (super_spots (complete_of names.now.parts.now) names.now.exports.now) }
{
    let interfaces = interface_supers(names);
    let supers = Supers { names };
    let classes = class_supers(&supers);
    let described = described_supers(&supers);
    earlier(earlier(interfaces, classes), described)
}
