//! Rules 305, 306 and 307: visibility and kind that change on the way down, and methods without code, told by a
//! method beside those of its name and descriptor above it.

ghost use Rattle.std.specs.Prelude.{◌≡◌, ◌&&◌, ◌<◌, false, length, get_or, map, not, option_map, IfOk};
ghost use Rattle.std.specs.List.{list_any};
ghost use Rattle.cjc_world.specs.Classes.{Member, all_classes, declared, imported};
ghost use Rattle.cjc_bytes.specs.AccessFlags.{acc_public, is_interface};
ghost use Rattle.cjc_world.specs.Working.Known.{class_of};
ghost use Rattle.cjc_world.specs.Lookup.{is_called, selected};
ghost use Rattle.cjc_bytes.specs.Told.{break_of, spot_of};
ghost use Rattle.cjc_subset.specs.Working.Hits.{hit_of};
ghost use Rattle.cjc_subset.specs.Working.Kinds.{kinds_of};
ghost use Rattle.cjc_subset.specs.Members.{hit};
ghost use Rattle.cjc_subset.specs.Overriding.{asks_for_code, changes_kind, class_against, gets_hidden, has_no_code};
ghost use Rattle.cjc_subset.specs.Overriding.{hides_added, hides_one, is_superclass};
ghost use Rattle.cjc_subset.specs.Overriding.{is_inherited, is_of_other_kind, is_open, is_out_of_sight};
ghost use Rattle.cjc_subset.specs.Overriding.{is_package_visible, is_special, is_unfit_selection, supertype_breaks};
ghost use Rattle.cjc_subset.specs.Overriding.{lacks_code, method_against, overriding_breaks};
ghost use Rattle.cjc_subset.specs.Places.{at_class};
ghost use Rattle.cjc_bytes.specs.Order.{FilePlace};
ghost use Rattle.cjc_bytes.specs.Breaks.{IsFirstOf, each};

use crate::kinds::{Kinds, kinds_of, may_break};
use crate::members::{ResolvedMember, is_constructor, is_initialiser, member_found};
use crate::places::method_spot;
use cjc_bytes::{
    ACC_PUBLIC, Break, Bytes, MemberId, NoMemory, RulePlace, broken, first, is_abstract,
    is_private, is_protected, is_public, is_static,
};
use cjc_code::classfile::{ClassTree, MethodTree};
use cjc_world::export_file::{ExportClass, ExportTree};
use cjc_world::{Known, World};
use std::alloc::Global;

pub(crate) fn is_special(name: &[u8]) -> bool
    ensures { result ≡ is_special name.now }
{
    is_constructor(name) || is_initialiser(name)
}

pub(crate) fn is_open(flags: u16) -> bool
    ensures { result ≡ is_open flags }
{
    is_public(flags) || is_protected(flags)
}

pub(crate) fn is_package_visible(flags: u16) -> bool
    ensures { result ≡ is_package_visible flags }
{
    !is_public(flags) && !is_protected(flags) && !is_private(flags)
}

fn is_out_of_sight(inherited_is_imported: bool, flags: u16, inherited: u16) -> bool
    ensures { result ≡ is_out_of_sight inherited_is_imported flags inherited }
{
    is_package_visible(flags) && is_open(inherited)
        || is_open(flags) && is_package_visible(inherited)
        || is_package_visible(flags) && is_package_visible(inherited) && inherited_is_imported
}

fn is_of_other_kind(flags: u16, inherited: u16) -> bool
    ensures { result ≡ is_of_other_kind flags inherited }
{
    let private_or_static = is_private(flags) || is_static(flags);
    !is_private(inherited) && private_or_static != is_static(inherited)
}

/// Whether the method at a place of a class has this name and this descriptor.
fn is_called(known: Known<'_, '_>, place: usize, name: &[u8], desc: &[u8]) -> bool
    requires { place < length (class_of known).methods }
    ensures { (d : Member) → result ≡ is_called name.now desc.now (get_or (class_of known.entry).methods place d) }
{
    let (other_name, other_desc) = known.member_at(false, place);
    other_name == name && other_desc == desc
}

/// Whether a method can't override the one at a place of a class that is inherited from, since one of them is
/// out of the other's sight.
fn hides_at(known: Known<'_, '_>, place: usize, flags: u16, name: &[u8], desc: &[u8]) -> bool
    requires { place < length (class_of known).methods }
    ensures { (d : Member) → result ≡ (is_called name.now desc.now (get_or (class_of known.entry).methods place d)
        && is_out_of_sight (class_of known.entry).is_imported flags (get_or (class_of known.entry).methods place
        d).flags) }
{
    is_called(known, place, name, desc)
        && is_out_of_sight(known.is_imported(), flags, known.member_flags(false, place))
}

/// Whether a method can't override one that it would inherit, since one of them is out of the other's sight.
fn hides_one(known: Known<'_, '_>, flags: u16, name: &[u8], desc: &[u8]) -> bool
    ensures { result ≡ hides_one (class_of known.entry) flags name.now desc.now }
{
    for place in 0..known.member_count(false) {
        if hides_at(known, place, flags, name, desc) {
            return true;
        }
    }
    false
}

/// Whether of a method and the one at a place of a class above exactly one is private or static.
fn changes_at(known: Known<'_, '_>, place: usize, flags: u16, name: &[u8], desc: &[u8]) -> bool
    requires { place < length (class_of known).methods }
    ensures { (d : Member) → result ≡ (is_called name.now desc.now (get_or (class_of known.entry).methods place d)
        && is_of_other_kind flags (get_or (class_of known.entry).methods place d).flags) }
{
    is_called(known, place, name, desc) && is_of_other_kind(flags, known.member_flags(false, place))
}

/// Whether of a method and one of a class above exactly one is private or static.
fn changes_kind(known: Known<'_, '_>, flags: u16, name: &[u8], desc: &[u8]) -> bool
    ensures { result ≡ changes_kind (class_of known.entry) flags name.now desc.now }
{
    for place in 0..known.member_count(false) {
        if changes_at(known, place, flags, name, desc) {
            return true;
        }
    }
    false
}

// ---- 305 of methods that a class gets

/// Whether another class is a superclass of a class.
fn is_superclass(world: &World<'_>, class: &ClassTree<'_>, known: Known<'_, '_>) -> bool
    ensures { result ≡ is_superclass (all_classes world.now) class.now (class_of known.entry) }
{
    let name = class.name.items();
    world.is_below(name, known.name()) && name != known.name()
}

/// Whether a class has a package-visible method of the name and descriptor of one of these, which are public.
fn hides_any(known: Known<'_, '_>, added: &[MemberId]) -> bool
    ensures { result ≡ list_any (λ m. hides_one (class_of known.entry) acc_public m.name m.desc) added.now }
{
    added.iter().any(|m| hides_one(known, ACC_PUBLIC, m.name.items(), m.desc.items()))
}

/// Whether another class is a superclass of a class and has a package-visible method where the class gets a public one.
fn hides_added(
    world: &World<'_>,
    class: &ClassTree<'_>,
    added: &[MemberId],
    known: Known<'_, '_>,
) -> bool
    ensures { result ≡ hides_added (all_classes world.now) class.now added.now (class_of known.entry) }
{
    is_superclass(world, class, known) && hides_any(known, added)
}

fn hides_declared(
    world: &World<'_>,
    class: &ClassTree<'_>,
    added: &[MemberId],
    others: &[ClassTree<'_>],
) -> bool
    ensures { result ≡ list_any (λ d. hides_added (all_classes world.now) class.now added.now (declared 0 d))
        others.now }
{
    others.iter().any(|other| hides_added(world, class, added, Known::Declared(0, other)))
}

fn hides_imported(
    world: &World<'_>,
    class: &ClassTree<'_>,
    added: &[MemberId],
    others: &[ExportClass],
) -> bool
    ensures { result ≡ list_any (λ d. hides_added (all_classes world.now) class.now added.now (imported 0 d))
        others.now }
{
    others.iter().any(|other| hides_added(world, class, added, Known::Imported(0, other)))
}

fn hides_exported(
    world: &World<'_>,
    class: &ClassTree<'_>,
    added: &[MemberId],
    exports: &[ExportTree],
) -> bool
    ensures { result ≡ list_any (λ t. list_any (λ d. hides_added (all_classes world.now) class.now added.now
        (imported 0 d)) t.classes) exports.now }
{
    exports.iter().any(|tree| hides_imported(world, class, added, tree.classes.items()))
}

/// Whether a superclass of a class has a package-visible method where the class gets one of these.
#[tactic(auto, unfolding(crate::specs::Overriding::gets_hidden))]
pub(crate) fn gets_hidden(world: &World<'_>, class: &ClassTree<'_>, added: &[MemberId]) -> bool
    ensures { result ≡ gets_hidden world.now class.now added.now }
{
    match added {
        [] => false,
        [_, ..] => hides_declared(world, class, added, world.classes().items())
            || hides_exported(world, class, added, world.exports().items()),
    }
}

// ---- 307

/// Whether the method at a place of a class is abstract or an interface's; a `<clinit>` of the package is none.
fn asks_for_code(known: Known<'_, '_>, place: usize) -> bool
    requires { place < length (class_of known).methods }
    ensures { (d : Member) → result ≡ asks_for_code (class_of known.entry) (get_or (class_of known.entry).methods place
        d) }
{
    let (name, _) = known.member_at(false, place);
    let flags = known.member_flags(false, place);
    (is_abstract(flags) || known.is_interface()) && (known.is_imported() || !is_initialiser(name))
}

fn is_unfit_selection(for_interface: bool, hit: Option<ResolvedMember<'_, '_>>) -> bool
    ensures { result ≡ is_unfit_selection for_interface (option_map hit_of hit.entry) }
{
    match hit {
        Some(hit) => is_abstract(hit.flags) || for_interface && !is_public(hit.flags),
        None => true,
    }
}

/// Whether selection from a class gives no code for a name and a descriptor.
fn has_unfit_selection(
    alloc: Global,
    world: &World<'_>,
    class: &ClassTree<'_>,
    for_interface: bool,
    name: &[u8],
    desc: &[u8],
) -> Result<bool, NoMemory>
    ensures { IfOk result (λ b. b ≡ is_unfit_selection for_interface (hit (all_classes world.now) false
        (selected (all_classes world.now) class.now.name name.now desc.now))) }
{
    let id = MemberId {
        class: Bytes::new(alloc),
        name: Bytes::copy_of(alloc, name)?,
        desc: Bytes::copy_of(alloc, desc)?,
    };
    let found = world.selected(class.name.items(), &id);
    Ok(is_unfit_selection(for_interface, member_found(world, false, found)))
}

/// Whether a class has no code for the method at a place of a class above or of itself, and needs it.
fn lacks_code_at(
    alloc: Global,
    world: &World<'_>,
    class: &ClassTree<'_>,
    known: Known<'_, '_>,
    place: usize,
) -> Result<bool, NoMemory>
    requires { place < length (class_of known).methods }
    ensures { (d : Member) → IfOk result (λ b. b ≡ has_no_code (all_classes world.now) class.now (class_of known.entry)
        (get_or (class_of known.entry).methods place d)) }
{
    if !asks_for_code(known, place) {
        return Ok(false);
    }
    let (name, desc) = known.member_at(false, place);
    has_unfit_selection(alloc, world, class, known.is_interface(), name, desc)
}

/// Whether a class that is not abstract has no code for a method of a class above or of itself.
fn lacks_code(
    alloc: Global,
    world: &World<'_>,
    class: &ClassTree<'_>,
    known: Known<'_, '_>,
) -> Result<bool, NoMemory>
    ensures { IfOk result (λ b. b ≡ lacks_code (all_classes world.now) class.now (class_of known.entry)) }
{
    if is_abstract(class.flags) {
        return Ok(false);
    }
    for place in 0..known.member_count(false) {
        if lacks_code_at(alloc, world, class, known, place)? {
            return Ok(true);
        }
    }
    Ok(false)
}

// ---- the first that is broken

fn breaks_sight(method: &MethodTree<'_>, known: Known<'_, '_>) -> bool
    ensures { result ≡ (not (is_special method.now.name) && hides_one (class_of known.entry) method.now.flags
        method.now.name method.now.desc) }
{
    let name = method.name.items();
    !is_special(name) && hides_one(known, method.flags, name, method.desc.items())
}

fn breaks_kind(method: &MethodTree<'_>, known: Known<'_, '_>) -> bool
    ensures { result ≡ (not (is_special method.now.name) && changes_kind (class_of known.entry) method.now.flags
        method.now.name method.now.desc) }
{
    let name = method.name.items();
    !is_special(name) && changes_kind(known, method.flags, name, method.desc.items())
}

/// The first rule that a method of a class breaks against a class that it inherits from.
#[tactic(auto, unfolding(crate::specs::Overriding::method_against))]
fn method_against<'w>(
    class: &'w ClassTree<'_>,
    known: Known<'_, '_>,
    place: usize,
    method: &'w MethodTree<'_>,
    spot: RulePlace<'w>,
) -> Option<Break<'w>>
    requires { place < length class.now.methods }
    ensures { (f : FilePlace) → spot_of spot.entry ≡ at_class f class.now
        → IsFirstOf (method_against f class.now (class_of known.entry) place method.now) (option_map break_of result) }
{
    let spot = method_spot(spot, class, place, method, 0);
    first(
        broken(breaks_sight(method, known), spot, 305),
        broken(breaks_kind(method, known), spot, 306),
    )
}

/// The first rule that the methods of a class break against a class that it inherits from.
fn methods_against<'w>(
    class: &'w ClassTree<'_>,
    known: Known<'_, '_>,
    spot: RulePlace<'w>,
) -> Option<Break<'w>>
    ensures { (f : FilePlace) → spot_of spot.entry ≡ at_class f class.now
        → IsFirstOf (each (λ i m. method_against f class.now (class_of known.entry) i m) class.now.methods)
        (option_map break_of result) }
{
    let mut least = None;
    let methods = class.methods.items();
    for (place, method) in methods.iter().enumerate() {
        least = first(least, method_against(class, known, place, method, spot));
    }
    least
}

/// The first rule that a class breaks against one above.
fn class_against<'w>(
    alloc: Global,
    world: &World<'_>,
    class: &'w ClassTree<'_>,
    known: Known<'_, '_>,
    spot: RulePlace<'w>,
) -> Result<Option<Break<'w>>, NoMemory>
    ensures { (f : FilePlace) → spot_of spot.entry ≡ at_class f class.now
        → IfOk result (λ b. IsFirstOf (class_against (all_classes world.now) f class.now (class_of known.entry))
        (option_map break_of b)) }
{
    let lacking = lacks_code(alloc, world, class, known)?;
    Ok(first(
        broken(lacking, spot, 307),
        methods_against(class, known, spot),
    ))
}

/// Whether a class is a superclass or a superinterface of another.
fn is_inherited(world: &World<'_>, class: &ClassTree<'_>, known: Known<'_, '_>) -> bool
    ensures { result ≡ is_inherited (all_classes world.now) class.now (class_of known.entry) }
{
    let name = class.name.items();
    (world.is_below(name, known.name()) || world.has_interface(name, known.name()))
        && name != known.name()
}

/// The first rule that a class breaks against another, where it inherits from that.
fn supertype_break<'w>(
    alloc: Global,
    world: &World<'_>,
    class: &'w ClassTree<'_>,
    known: Known<'_, '_>,
    spot: RulePlace<'w>,
) -> Result<Option<Break<'w>>, NoMemory>
    ensures { (f : FilePlace) → spot_of spot.entry ≡ at_class f class.now
        → IfOk result (λ b. IsFirstOf (supertype_breaks (all_classes world.now) f class.now (class_of known.entry))
        (option_map break_of b)) }
{
    if is_inherited(world, class, known) {
        class_against(alloc, world, class, known, spot)
    } else {
        Ok(None)
    }
}

/// The same of another class of the package. Nothing is looked up where the kinds of methods of both say that
/// there is none.
fn package_break<'w>(
    alloc: Global,
    world: &World<'_>,
    class: &'w ClassTree<'_>,
    own: Kinds,
    other: &ClassTree<'_>,
    kinds: Kinds,
    spot: RulePlace<'w>,
) -> Result<Option<Break<'w>>, NoMemory>
    requires own { own ≡ kinds_of class.now }
    requires kinds { kinds ≡ kinds_of other.now }
    ensures { (f : FilePlace) → spot_of spot.entry ≡ at_class f class.now
        → IfOk result (λ b. IsFirstOf (supertype_breaks (all_classes world.now) f class.now (declared 0 other.now))
        (option_map break_of b)) }
{
    if may_break(own, kinds) {
        supertype_break(alloc, world, class, Known::Declared(0, other), spot)
    } else {
        Ok(None)
    }
}

/// The first rule that a class breaks against these classes of the package, of which these are the kinds of methods.
fn declared_break<'w>(
    alloc: Global,
    world: &World<'_>,
    class: &'w ClassTree<'_>,
    others: &[ClassTree<'_>],
    kinds: &[Kinds],
    spot: RulePlace<'w>,
) -> Result<Option<Break<'w>>, NoMemory>
    requires { kinds.now ≡ map kinds_of others.now }
    ensures { (f : FilePlace) → spot_of spot.entry ≡ at_class f class.now
        → IfOk result (λ b. IsFirstOf (each (λ _ d. supertype_breaks (all_classes world.now) f class.now (declared 0 d))
        others.now) (option_map break_of b)) }
{
    let own = kinds_of(class);
    let mut least = None;
    for (place, other) in others.iter().enumerate() {
        let broken = package_break(alloc, world, class, own, other, kinds[place], spot)?;
        least = first(least, broken);
    }
    Ok(least)
}

/// The first rule that a class breaks against these classes of an export file.
fn imported_break<'w>(
    alloc: Global,
    world: &World<'_>,
    class: &'w ClassTree<'_>,
    others: &[ExportClass],
    spot: RulePlace<'w>,
) -> Result<Option<Break<'w>>, NoMemory>
    ensures { (f : FilePlace) → spot_of spot.entry ≡ at_class f class.now
        → IfOk result (λ b. IsFirstOf (each (λ _ d. supertype_breaks (all_classes world.now) f class.now (imported 0 d))
        others.now) (option_map break_of b)) }
{
    let mut least = None;
    for other in others {
        let broken = supertype_break(alloc, world, class, Known::Imported(0, other), spot)?;
        least = first(least, broken);
    }
    Ok(least)
}

/// The first rule that a class breaks against the classes of these export files.
fn imports_break<'w>(
    alloc: Global,
    world: &World<'_>,
    class: &'w ClassTree<'_>,
    exports: &[ExportTree],
    spot: RulePlace<'w>,
) -> Result<Option<Break<'w>>, NoMemory>
    ensures { (f : FilePlace) → spot_of spot.entry ≡ at_class f class.now
        → IfOk result (λ b. IsFirstOf (each (λ _ t. each (λ _ d. supertype_breaks (all_classes world.now) f class.now
        (imported 0 d)) t.classes) exports.now) (option_map break_of b)) }
{
    let mut least = None;
    for tree in exports {
        let broken = imported_break(alloc, world, class, tree.classes.items(), spot)?;
        least = first(least, broken);
    }
    Ok(least)
}

/// The first of rules 305, 306 and 307 that a class of the package breaks, whose place this is. The kinds are
/// those of each class of the package.
pub(crate) fn overriding_break<'w>(
    alloc: Global,
    world: &World<'_>,
    kinds: &[Kinds],
    class: &'w ClassTree<'_>,
    spot: RulePlace<'w>,
) -> Result<Option<Break<'w>>, NoMemory>
    requires { kinds.now ≡ map kinds_of world.now.classes }
    ensures { (f : FilePlace) → spot_of spot.entry ≡ at_class f class.now
        → IfOk result (λ b. IsFirstOf (overriding_breaks world.now f class.now) (option_map break_of b)) }
{
    let lacking = lacks_code(alloc, world, class, Known::Declared(0, class))?;
    let declared = declared_break(alloc, world, class, world.classes().items(), kinds, spot)?;
    let imported = imports_break(alloc, world, class, world.exports().items(), spot)?;
    Ok(first(first(broken(lacking, spot, 307), declared), imported))
}
