//! The items of infos beside those that are wanted: the first place where one differs.

ghost use Rattle.std.specs.Prelude.{◌≡◌, ◌+◌, ◌*◌, ◌++◌, ◌<◌, ◌^◌, ◌==◌, ◌&&◌, length};
ghost use Rattle.cjc_capread.specs.ClassRefs.{same_class};
ghost use Rattle.cjc_check_rules.specs.ClassRefs.{maps_begin};
ghost use Rattle.cjc_check_rules.specs.Complete.{class_size, interface_size, map_size};
ghost use Rattle.cjc_check_rules.specs.Spots.{beside, bytes_differ, first, in_info, unless};
ghost use Rattle.cjc_verify.specs.Wanted.{class_differs, counts_differ, entries_differ, head_differs};
ghost use Rattle.cjc_verify.specs.Wanted.{interface_differs, map_differs, map_interface_differs, refs_differ};
ghost use Rattle.cjc_verify.specs.Wanted.{tables_differ};

use cjc_capread::{ClassEntry, ClassRef, ImplementedInterface, InterfaceEntry};
use cjc_card_calls::check_index::lookup::{Comparison, earlier, first_beside, unless};
use cjc_check_rules::ComponentPlace;

/// The tag of Class.
const CLASS: u8 = 6;

/// Whether two class_refs name one class.
pub(crate) fn same_class(one: ClassRef, other: ClassRef) -> bool
    ensures { result ≡ same_class one other }
{
    match (one, other) {
        (ClassRef::Inside(a), ClassRef::Inside(b)) => a == b,
        (
            ClassRef::Outside { package, class },
            ClassRef::Outside {
                package: other_package,
                class: other_class,
            },
        ) => package == other_package && class == other_class,
        _ => false,
    }
}

/// Whether numbers, class_refs or interfaces of maps are the same.
struct Same;

impl Comparison<ClassRef, ClassRef> for Same {
    ghost broken = { λ s at r w. unless (same_class r w) (in_info 6 at) };

    ghost fits = { λ s. Unit {0} };

    fn first_between(&self, at: u32, item: &ClassRef, other: &ClassRef) -> Option<ComponentPlace> {
        unless(same_class(*item, *other), CLASS, at)
    }
}

impl Comparison<u8, u8> for Same {
    ghost broken = { λ s at b w. unless (b == w) (in_info 6 at) };

    ghost fits = { λ s. Unit {0} };

    fn first_between(&self, at: u32, item: &u8, other: &u8) -> Option<ComponentPlace> {
        unless(*item == *other, CLASS, at)
    }
}

impl Comparison<u64, u64> for Same {
    ghost broken = { λ s at e w. unless (e == w) (in_info 6 at) };

    ghost fits = { λ s. Unit {0} };

    fn first_between(&self, at: u32, item: &u64, other: &u64) -> Option<ComponentPlace> {
        unless(*item == *other, CLASS, at)
    }
}

impl Comparison<ImplementedInterface, ImplementedInterface> for Same {
    ghost broken = { λ s. map_interface_differs };

    ghost fits = { λ s. Unit {0} };

    fn first_between(
        &self,
        at: u32,
        item: &ImplementedInterface,
        other: &ImplementedInterface,
    ) -> Option<ComponentPlace> {
        unless(same_class(item.interface, other.interface), CLASS, at)
    }
}

/// The first of several class_refs that is another than is wanted.
#[tactic(auto, using(cjc_check_rules::proofs::Arrays::two_each))]
fn refs_differ(at: u32, refs: &[ClassRef], wanted: &[ClassRef]) -> Option<ComponentPlace>
    requires { 3 + at + 2 * length refs.now < 2 ^ 32 }
    ensures { result ≡ first (refs_differ at refs.now wanted.now) }
{
    first_beside(&Same, at, refs, wanted)
}

/// Where an interface differs first.
#[tactic(auto, using(cjc_check_rules::proofs::Firsts::first_append))]
pub(crate) fn interface_differs(
    at: u32,
    own: &InterfaceEntry,
    wanted: &InterfaceEntry,
) -> Option<ComponentPlace>
    requires { 3 + at + interface_size own.now < 2 ^ 32 }
    ensures { result ≡ first (interface_differs at own.now wanted.now) }
{
    let refs = own.superinterfaces.items();
    let wanted_refs = wanted.superinterfaces.items();
    let same = own.flags == wanted.flags && refs.len() == wanted_refs.len();
    earlier(
        unless(same, CLASS, at),
        refs_differ(at + 1, refs, wanted_refs),
    )
}

/// Where the maps of a class begin, the class beginning at an offset.
fn maps_begin(at: u32, class: &ClassEntry) -> u32
    requires { 3 + at + class_size class.now < 2 ^ 32 }
    ensures { result ≡ maps_begin at class.now }
{
    let public = 2 * class.public_methods.items().len() as u32;
    let package = 2 * class.package_methods.items().len() as u32;
    at + 10 + public + package
}

/// The first map of a class whose interface differs.
fn interfaces_differ(at: u32, own: &ClassEntry, wanted: &ClassEntry) -> Option<ComponentPlace>
    requires { 3 + at + class_size own.now < 2 ^ 32 }
    ensures { result ≡ first (beside map_size map_interface_differs (maps_begin at own.now) own.now.interfaces
        wanted.now.interfaces) }
{
    let begin = maps_begin(at, own);
    first_beside(
        &Same,
        begin,
        own.interfaces.items(),
        wanted.interfaces.items(),
    )
}

/// Whether a class has the flags that are wanted, and as many interfaces.
fn same_flags(own: &ClassEntry, wanted: &ClassEntry) -> bool
    ensures { result ≡ ((own.now.flags == wanted.now.flags) && (length own.now.interfaces
        == length wanted.now.interfaces)) }
{
    let count = own.interfaces.items().len() == wanted.interfaces.items().len();
    own.flags == wanted.flags && count
}

/// Where a class differs first in its flags, its superclass or its instance fields.
#[tactic(auto, using(cjc_check_rules::proofs::Firsts::first_append))]
fn head_differs(at: u32, own: &ClassEntry, wanted: &ClassEntry) -> Option<ComponentPlace>
    requires { 3 + at + class_size own.now < 2 ^ 32 }
    ensures { result ≡ first (head_differs at own.now wanted.now) }
{
    let flags = unless(same_flags(own, wanted), CLASS, at);
    let same = same_class(own.superclass, wanted.superclass);
    let size = own.declared_instance_size == wanted.declared_instance_size;
    let token = own.first_reference_token == wanted.first_reference_token;
    let references = own.reference_count == wanted.reference_count;
    let supers = earlier(flags, unless(same, CLASS, at + 1));
    let sizes = earlier(supers, unless(size, CLASS, at + 3));
    let tokens = earlier(sizes, unless(token, CLASS, at + 4));
    earlier(tokens, unless(references, CLASS, at + 5))
}

/// Where a class differs first in its flags, its superclass, its instance fields or its interfaces.
#[tactic(auto, using(cjc_check_rules::proofs::Firsts::first_append))]
pub(crate) fn class_differs(
    at: u32,
    own: &ClassEntry,
    wanted: &ClassEntry,
) -> Option<ComponentPlace>
    requires { 3 + at + class_size own.now < 2 ^ 32 }
    ensures { result ≡ first (class_differs at own.now wanted.now) }
{
    let head = head_differs(at, own, wanted);
    earlier(head, interfaces_differ(at, own, wanted))
}

// ---- tables and maps

/// Whether maps are the same.
struct Maps;

impl Comparison<ImplementedInterface, ImplementedInterface> for Maps {
    ghost broken = { λ s. map_differs };

    ghost fits = { λ s. Unit {0} };

    #[tactic(auto, using(cjc_check_rules::proofs::Firsts::first_append, cjc_check_rules::proofs::Arrays::one_each))]
    fn first_between(
        &self,
        at: u32,
        item: &ImplementedInterface,
        other: &ImplementedInterface,
    ) -> Option<ComponentPlace> {
        let index = item.index.items();
        let wanted = other.index.items();
        let interface = unless(same_class(item.interface, other.interface), CLASS, at);
        let count = unless(index.len() == wanted.len(), CLASS, at + 2);
        earlier(
            earlier(interface, count),
            first_beside(&Same, at + 3, index, wanted),
        )
    }
}

/// The first entry of a table that is another than is wanted.
#[tactic(auto, using(cjc_check_rules::proofs::Arrays::two_each))]
fn entries_differ(at: u32, entries: &[u64], wanted: &[u64]) -> Option<ComponentPlace>
    requires { 3 + at + 2 * length entries.now < 2 ^ 32 }
    ensures { result ≡ first (entries_differ at entries.now wanted.now) }
{
    first_beside(&Same, at, entries, wanted)
}

/// Where a class differs first in the number of its interfaces or in the bases and counts of its tables.
#[tactic(auto, using(cjc_check_rules::proofs::Firsts::first_append))]
fn counts_differ(at: u32, own: &ClassEntry, wanted: &ClassEntry) -> Option<ComponentPlace>
    requires { 3 + at + class_size own.now < 2 ^ 32 }
    ensures { result ≡ first (counts_differ at own.now wanted.now) }
{
    let interfaces = own.interfaces.items().len() == wanted.interfaces.items().len();
    let public = own.public_methods.items().len() == wanted.public_methods.items().len();
    let package = own.package_methods.items().len() == wanted.package_methods.items().len();
    let base = own.public_base == wanted.public_base;
    let package_base = own.package_base == wanted.package_base;
    let bases = earlier(unless(interfaces, CLASS, at), unless(base, CLASS, at + 6));
    let publics = earlier(bases, unless(public, CLASS, at + 7));
    let packages = earlier(publics, unless(package_base, CLASS, at + 8));
    earlier(packages, unless(package, CLASS, at + 9))
}

/// Where the tables of a class differ first.
#[tactic(auto, using(cjc_check_rules::proofs::Firsts::first_append))]
fn public_differs(at: u32, own: &ClassEntry, wanted: &ClassEntry) -> Option<ComponentPlace>
    requires { 3 + at + class_size own.now < 2 ^ 32 }
    ensures { result ≡ first (counts_differ at own.now wanted.now ++ entries_differ (at + 10) own.now.public_methods
        wanted.now.public_methods) }
{
    let counts = counts_differ(at, own, wanted);
    let entries = own.public_methods.items();
    earlier(
        counts,
        entries_differ(at + 10, entries, wanted.public_methods.items()),
    )
}

/// The first entry of a class's package table that differs.
fn package_differs(at: u32, own: &ClassEntry, wanted: &ClassEntry) -> Option<ComponentPlace>
    requires { 3 + at + class_size own.now < 2 ^ 32 }
    ensures { result ≡ first (entries_differ (at + 10 + 2 * length own.now.public_methods) own.now.package_methods
        wanted.now.package_methods) }
{
    let begin = at + 10 + 2 * own.public_methods.items().len() as u32;
    entries_differ(
        begin,
        own.package_methods.items(),
        wanted.package_methods.items(),
    )
}

/// The first item of a class's maps that differs.
fn maps_differ(at: u32, own: &ClassEntry, wanted: &ClassEntry) -> Option<ComponentPlace>
    requires { 3 + at + class_size own.now < 2 ^ 32 }
    ensures { result ≡ first (beside map_size map_differs (maps_begin at own.now) own.now.interfaces
        wanted.now.interfaces) }
{
    let begin = maps_begin(at, own);
    first_beside(
        &Maps,
        begin,
        own.interfaces.items(),
        wanted.interfaces.items(),
    )
}

/// Where the tables or the maps of a class differ first.
#[tactic(auto, using(cjc_check_rules::proofs::Firsts::first_append))]
pub(crate) fn tables_differ(
    at: u32,
    own: &ClassEntry,
    wanted: &ClassEntry,
) -> Option<ComponentPlace>
    requires { 3 + at + class_size own.now < 2 ^ 32 }
    ensures { result ≡ first (tables_differ at own.now wanted.now) }
{
    let public = public_differs(at, own, wanted);
    let package = earlier(public, package_differs(at, own, wanted));
    earlier(package, maps_differ(at, own, wanted))
}
