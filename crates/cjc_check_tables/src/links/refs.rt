//! Each class_ref of the components names a class or interface (Java Card Virtual Machine Specification 2.2.2,
//! sections 6.1, 6.7, 6.8 and 6.13). It knows the classes by `names`.

ghost use Rattle.std.specs.Prelude.{◌≡◌, ◌+◌, ◌*◌, ◌/◌, ◌<◌, ◌≤◌, ◌^◌, length};
ghost use Rattle.cjc_check_rules.specs.ClassRefs.{class_ref_spots, each_ref, in_class, in_described, in_entry};
ghost use Rattle.cjc_check_rules.specs.ClassRefs.{in_field, in_interface, in_map, in_maps, in_nibbles, in_type};
ghost use Rattle.cjc_check_rules.specs.ClassRefs.{one_ref, types_begin};
ghost use Rattle.cjc_check_rules.specs.Classes.{first_class, first_interface};
ghost use Rattle.cjc_check_rules.specs.Complete.{AreSmall, class_size, described_size, interface_size, type_size};
ghost use Rattle.cjc_check_rules.specs.Spots.{along, first};
ghost use Rattle.cjc_check_index.specs.Lookup.Indexed.{IsIndexed, names_as};
ghost use Rattle.cjc_check_index.specs.Lookup.Parts.{complete_of};
ghost use Rattle.cjc_check_tables.specs.Links.Nibbles.{in_front, names_class, nibble_width};

use cjc_capread::{
    ClassDescriptor, ClassEntry, ClassRef, FieldDescriptor, FieldPlace, ImplementedInterface,
    InterfaceEntry, PoolEntry, TypeDescriptor,
};
use cjc_check_index::lookup::{
    Names, Test, Want, earlier, first_along, first_class, types_begin, unless,
};
use cjc_check_rules::ComponentPlace;

/// The tag of ConstantPool.
const POOL: u8 = 5;

/// The tag of Class.
const CLASS: u8 = 6;

/// The tag of Descriptor.
const DESCRIPTOR: u8 = 11;

/// The test of the class_refs of components: what each is to name.
#[derive(Drop)]
pub(crate) struct Refs<'a> {
    pub(crate) names: &'a Names<'a>,
    pub(crate) want: Want,
}

/// The same of class_refs one behind the other in the component of a tag.
#[derive(Drop)]
struct Row<'a> {
    refs: &'a Refs<'a>,
    tag: u8,
}

impl Refs<'_> {
    /// The place of a class_ref that does not name what it is to name.
    pub(crate) fn spot(&self, class: ClassRef, tag: u8, at: u32) -> Option<ComponentPlace>
        requires ready { IsIndexed self.now.names.now }
        requires small { 3 + at < 2 ^ 32 }
        ensures { result ≡ first (one_ref (names_as self.now.want self.now.names.now.parts.now.class.now
            self.now.names.now.exports.now) tag at class) }
    {
        unless(self.names.names(self.want, class), tag, at)
    }

    /// The first of several class_refs that does not name what it is to name, the first of which begins at an offset.
    #[tactic(auto, using(cjc_check_rules::proofs::Arrays::two_each))]
    pub(crate) fn each(&self, classes: &[ClassRef], tag: u8, at: u32) -> Option<ComponentPlace>
        requires ready { IsIndexed self.now.names.now }
        requires small { 3 + at + 2 * length classes.now < 2 ^ 32 }
        ensures { result ≡ first (each_ref (names_as self.now.want self.now.names.now.parts.now.class.now
            self.now.names.now.exports.now) tag at classes.now) }
    {
        first_along(&Row { refs: self, tag }, at, classes)
    }

    /// The first field of Descriptor whose class is not what it is to be.
    #[tactic(auto, using(cjc_check_rules::proofs::Arrays::seven_each))]
    fn in_fields(&self, fields: &[FieldDescriptor], at: u32) -> Option<ComponentPlace>
        requires ready { IsIndexed self.now.names.now }
        requires small { 3 + at + 7 * length fields.now < 2 ^ 32 }
        ensures { result
            ≡ first (along (λ x. 7) (in_field (names_as self.now.want self.now.names.now.parts.now.class.now
            self.now.names.now.exports.now)) at fields.now) }
    {
        first_along(self, at, fields)
    }

    /// The first map of a class, which begins at an offset, whose interface is not what it is to be.
    pub(crate) fn in_maps(&self, class: &ClassEntry, at: u32) -> Option<ComponentPlace>
        requires ready { IsIndexed self.now.names.now }
        requires small { 3 + at + class_size class.now < 2 ^ 32 }
        ensures { result ≡ first (in_maps (names_as self.now.want self.now.names.now.parts.now.class.now
            self.now.names.now.exports.now) at class.now) }
    {
        let public = 2 * class.public_methods.items().len() as u32;
        let package = 2 * class.package_methods.items().len() as u32;
        first_along(self, at + 10 + public + package, class.interfaces.items())
    }

    /// The place of the class at the front of nibbles, where there is one that does not name what it is to name.
    fn in_front(&self, nibbles: &[u8], at: u32) -> Option<ComponentPlace>
        requires ready { IsIndexed self.now.names.now }
        requires small { 3 + at < 2 ^ 32 }
        requires five { 5 ≤ length nibbles.now }
        ensures { result ≡ first (in_front (names_as self.now.want self.now.names.now.parts.now.class.now
            self.now.names.now.exports.now) at nibbles.now) }
    {
        let high = 4096 * u32::from(nibbles[1]) + 256 * u32::from(nibbles[2]);
        let number = high + 16 * u32::from(nibbles[3]) + u32::from(nibbles[4]);
        let is_named = !names_class(nibbles[0]) || self.names.names_number(self.want, number);
        unless(is_named, DESCRIPTOR, at)
    }

    /// The first class in the nibbles of a type that does not name what it is to name, the type beginning at an offset.
    fn in_nibbles(&self, nibbles: &[u8], at: u32) -> Option<ComponentPlace>
        requires ready { IsIndexed self.now.names.now }
        requires small { 4 + at + length nibbles.now / 2 < 2 ^ 32 }
        ensures { result ≡ first (in_nibbles (names_as self.now.want self.now.names.now.parts.now.class.now
            self.now.names.now.exports.now) at 0 nibbles.now) }
    {
        let mut least = None;
        let mut i = 0;
        while i + 4 < nibbles.len() {
            let rest = &nibbles[i..];
            least = earlier(least, self.in_front(rest, at + 1 + ((i + 1) / 2) as u32));
            i += nibble_width(rest[0]);
        }
        least
    }
}

/// Whether a nibble says that the nibbles of a class follow.
fn names_class(nibble: u8) -> bool
    ensures { result ≡ names_class nibble }
{
    nibble == 0x6 || nibble == 0xE
}

/// The nibbles of the part of a type that begins with a nibble.
fn nibble_width(nibble: u8) -> usize
    ensures { result ≡ nibble_width nibble }
{
    if names_class(nibble) { 5 } else { 1 }
}

impl Test<ClassRef> for Row<'_> {
    ghost broken = { λ s. one_ref (names_as s.refs.now.want s.refs.now.names.now.parts.now.class.now
        s.refs.now.names.now.exports.now) s.tag };

    ghost fits = { λ s. IsIndexed s.refs.now.names.now };

    fn first_in(&self, at: u32, item: &ClassRef) -> Option<ComponentPlace> {
        self.refs.spot(*item, self.tag, at)
    }
}

impl Test<PoolEntry> for Refs<'_> {
    ghost broken = { λ s. in_entry (names_as s.want s.names.now.parts.now.class.now s.names.now.exports.now) };

    ghost fits = { λ s. IsIndexed s.names.now };

    #[tactic(auto, unfolding(cjc_check_rules::specs::Spots::first))]
    fn first_in(&self, at: u32, item: &PoolEntry) -> Option<ComponentPlace> {
        match *item {
            PoolEntry::Classref(class) => self.spot(class, POOL, at + 1),
            PoolEntry::InstanceFieldref { class, .. } => self.spot(class, POOL, at + 1),
            PoolEntry::VirtualMethodref { class, .. } => self.spot(class, POOL, at + 1),
            PoolEntry::SuperMethodref { class, .. } => self.spot(class, POOL, at + 1),
            PoolEntry::StaticFieldref(_) => None,
            PoolEntry::StaticMethodref(_) => None,
        }
    }
}

impl Test<InterfaceEntry> for Refs<'_> {
    ghost broken = { λ s. in_interface (names_as s.want s.names.now.parts.now.class.now s.names.now.exports.now) };

    ghost fits = { λ s. IsIndexed s.names.now };

    fn first_in(&self, at: u32, item: &InterfaceEntry) -> Option<ComponentPlace> {
        self.each(item.superinterfaces.items(), CLASS, at + 1)
    }
}

impl Test<ImplementedInterface> for Refs<'_> {
    ghost broken = { λ s. in_map (names_as s.want s.names.now.parts.now.class.now s.names.now.exports.now) };

    ghost fits = { λ s. IsIndexed s.names.now };

    fn first_in(&self, at: u32, item: &ImplementedInterface) -> Option<ComponentPlace> {
        self.spot(item.interface, CLASS, at)
    }
}

impl Test<FieldDescriptor> for Refs<'_> {
    ghost broken = { λ s. in_field (names_as s.want s.names.now.parts.now.class.now s.names.now.exports.now) };

    ghost fits = { λ s. IsIndexed s.names.now };

    #[tactic(auto, unfolding(cjc_check_rules::specs::Spots::first))]
    fn first_in(&self, at: u32, item: &FieldDescriptor) -> Option<ComponentPlace> {
        match item.place {
            FieldPlace::Static(_) => None,
            FieldPlace::Instance { class, .. } => self.spot(class, DESCRIPTOR, at + 2),
        }
    }
}

impl Test<TypeDescriptor> for Refs<'_> {
    ghost broken = { λ s. in_type (names_as s.want s.names.now.parts.now.class.now s.names.now.exports.now) };

    ghost fits = { λ s. IsIndexed s.names.now };

    fn first_in(&self, at: u32, item: &TypeDescriptor) -> Option<ComponentPlace> {
        self.in_nibbles(item.nibbles.items(), at)
    }
}

impl Test<ClassEntry> for Refs<'_> {
    ghost broken = { λ s. in_class (names_as s.want s.names.now.parts.now.class.now s.names.now.exports.now) };

    ghost fits = { λ s. IsIndexed s.names.now };

    #[tactic(auto, using(cjc_check_rules::proofs::Firsts::first_append))]
    fn first_in(&self, at: u32, item: &ClassEntry) -> Option<ComponentPlace> {
        let superclass = self.spot(item.superclass, CLASS, at + 1);
        earlier(superclass, self.in_maps(item, at))
    }
}

impl Test<ClassDescriptor> for Refs<'_> {
    ghost broken = { λ s. in_described (names_as s.want s.names.now.parts.now.class.now s.names.now.exports.now) };

    ghost fits = { λ s. IsIndexed s.names.now };

    #[tactic(auto, using(cjc_check_rules::proofs::Firsts::first_append))]
    fn first_in(&self, at: u32, item: &ClassDescriptor) -> Option<ComponentPlace> {
        let interfaces = item.interfaces.items();
        let class = self.spot(item.this_class, DESCRIPTOR, at + 2);
        let supers = self.each(interfaces, DESCRIPTOR, at + 9);
        let begin = at + 9 + 2 * interfaces.len() as u32;
        earlier(
            earlier(class, supers),
            self.in_fields(item.fields.items(), begin),
        )
    }
}

/// The first entry of the constant pool whose class is not what it is to be.
#[tactic(auto, using(cjc_check_rules::proofs::Arrays::four_each))]
fn pool_refs(refs: &Refs<'_>) -> Option<ComponentPlace>
    requires ready { IsIndexed refs.now.names.now }
    requires small { AreSmall (complete_of refs.now.names.now.parts.now) }
    ensures { result ≡ first (along (λ x. 4) (in_entry (names_as refs.now.want refs.now.names.now.parts.now.class.now
        refs.now.names.now.exports.now)) 2 refs.now.names.now.parts.now.pool.now.entries) }
{
    first_along(refs, 2, refs.names.parts.pool.entries.items())
}

/// The first superinterface of an interface that is not what it is to be.
pub(crate) fn interface_refs(refs: &Refs<'_>) -> Option<ComponentPlace>
    requires ready { IsIndexed refs.now.names.now }
    requires small { AreSmall (complete_of refs.now.names.now.parts.now) }
    ensures { result
        ≡ first (along interface_size (in_interface (names_as refs.now.want refs.now.names.now.parts.now.class.now
        refs.now.names.now.exports.now)) first_interface refs.now.names.now.parts.now.class.now.interfaces) }
{
    first_along(refs, 2, refs.names.parts.class.interfaces.items())
}

/// The first superclass, or interface of a map, that is not what it is to be.
fn class_refs(refs: &Refs<'_>) -> Option<ComponentPlace>
    requires ready { IsIndexed refs.now.names.now }
    requires small { AreSmall (complete_of refs.now.names.now.parts.now) }
    ensures { result ≡ first (along class_size (in_class (names_as refs.now.want refs.now.names.now.parts.now.class.now
        refs.now.names.now.exports.now)) (first_class refs.now.names.now.parts.now.class.now)
        refs.now.names.now.parts.now.class.now.classes) }
{
    let begin = first_class(refs.names.parts.class);
    first_along(refs, begin, refs.names.parts.class.classes.items())
}

/// The first class_ref of a class of Descriptor that is not what it is to be.
fn described_refs(refs: &Refs<'_>) -> Option<ComponentPlace>
    requires ready { IsIndexed refs.now.names.now }
    requires small { AreSmall (complete_of refs.now.names.now.parts.now) }
    ensures { result
        ≡ first (along described_size (in_described (names_as refs.now.want refs.now.names.now.parts.now.class.now
        refs.now.names.now.exports.now)) 1 refs.now.names.now.parts.now.descriptor.now.classes) }
{
    first_along(refs, 1, refs.names.parts.descriptor.classes.items())
}

/// The first class_ref of a type of Descriptor that is not what it is to be.
fn type_refs(refs: &Refs<'_>) -> Option<ComponentPlace>
    requires ready { IsIndexed refs.now.names.now }
    requires small { AreSmall (complete_of refs.now.names.now.parts.now) }
    ensures { result ≡ first (along type_size (in_type (names_as refs.now.want refs.now.names.now.parts.now.class.now
        refs.now.names.now.exports.now)) (types_begin refs.now.names.now.parts.now.descriptor.now)
        refs.now.names.now.parts.now.descriptor.now.types) }
{
    let begin = types_begin(refs.names.parts.descriptor);
    first_along(refs, begin, refs.names.parts.descriptor.types.items())
}

/// Where 704 is broken first: a class_ref that names no class and no interface.
pub fn class_ref_spot(names: &Names<'_>) -> Option<ComponentPlace>
    requires ready { IsIndexed names.now }
    requires small { AreSmall (complete_of names.now.parts.now) }
    ensures { result ≡ first (class_ref_spots (complete_of names.now.parts.now) names.now.exports.now) }
{
    let refs = Refs {
        names,
        want: Want::There,
    };
    let pool = pool_refs(&refs);
    let interfaces = interface_refs(&refs);
    let classes = class_refs(&refs);
    let described = described_refs(&refs);
    let types = type_refs(&refs);
    earlier(
        earlier(earlier(earlier(pool, interfaces), classes), described),
        types,
    )
}
