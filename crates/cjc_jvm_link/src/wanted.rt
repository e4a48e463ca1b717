//! How a method is chosen among those of a class and of what stands above it, also where classes of several packages
//! stand above one another (Java Virtual Machine Specification, 5.4.5: a package-visible method is overridden by those
//! of its package alone).

ghost use Rattle.std.specs.Prelude.{◌≡◌, ◌==◌, ◌&&◌, List, [], ◌∷◌, if◌then◌else◌, position, slice_get};
ghost use Rattle.std.specs.Prelude.{false, not, option_and_then};
ghost use Rattle.std.specs.Str.{bytes_eq};
ghost use Rattle.cjc_world.specs.Classes.{Class, all_classes};
ghost use Rattle.cjc_world.specs.Interfaces.{gathered, known};
ghost use Rattle.cjc_world.specs.Lookup.{first, is_called};
ghost use Rattle.cjc_world.specs.Supertypes.{line, supertypes};
ghost use Rattle.cjc_world.specs.Working.Known.{class_of};
ghost use Rattle.cjc_world.specs.Working.Places.{first_place};
ghost use Rattle.cjc_world.specs.Working.Spots.{IsCounted};
ghost use Rattle.cjc_jvm_semantics.specs.Group.{find_exposed, is_exposed, is_open, is_package_visible, joint_method};
ghost use Rattle.cjc_jvm_semantics.specs.Group.{own_where, own_within, package_of, selection_for};
ghost use Rattle.cjc_jvm_link.specs.Found.{hit_of};
ghost use Rattle.cjc_jvm_link.specs.Wanted.{own_by, passes_by, selection_by};

use crate::calls::{is_selectable, receiver};
use crate::hits::Owner;
use crate::links::Links;
use cjc_world::bytes::{MemberId, is_private, is_protected, is_public};
use cjc_world::classfile::MethodTree;
use cjc_world::export_file::ExportMethod;
use cjc_world::{Found, Known};

/// Which of a class's own methods are wanted.
#[derive(Clone, Copy)]
pub(crate) enum Wanted<'w> {
    /// All.
    Every,
    /// Those that can be selected.
    Any,
    /// Public and protected ones.
    Exposed,
    /// Those that can be selected and are not package-visible.
    Open,
    /// Those that can be selected, of classes of this package.
    Within(&'w [u8]),
}

fn is_exposed(flags: u16) -> bool
    ensures { result ≡ is_exposed flags }
{
    is_public(flags) || is_protected(flags)
}

fn is_package_visible(flags: u16) -> bool
    ensures { result ≡ is_package_visible flags }
{
    !is_exposed(flags) && !is_private(flags)
}

fn is_open(flags: u16) -> bool
    ensures { result ≡ is_open flags }
{
    is_selectable(flags) && !is_package_visible(flags)
}

fn passes(wanted: Wanted<'_>, flags: u16) -> bool
    ensures { result ≡ passes_by wanted.entry flags }
{
    match wanted {
        Wanted::Every => true,
        Wanted::Any => is_selectable(flags),
        Wanted::Exposed => is_exposed(flags),
        Wanted::Open => is_open(flags),
        Wanted::Within(_) => is_selectable(flags),
    }
}

/// The place of a slash, or else this one.
fn slash_or(byte: u8, place: usize, end: usize) -> usize
    ensures { result ≡ (if byte == 47 then place else end) }
{
    if byte == b'/' { place } else { end }
}

/// The package of a class: what stands before the last part of its name.
#[tactic(auto, using(crate::proofs::Packages::package_next, crate::proofs::Packages::package_ends))]
pub(crate) fn package_of(class: &[u8]) -> &[u8]
    ensures { result.now ≡ package_of class.now }
{
    let mut end = 0;
    for (place, byte) in class.iter().enumerate() {
        end = slash_or(*byte, place, end);
    }
    &class[..end]
}

fn class_method(
    methods: &[MethodTree<'_>],
    wanted: Wanted<'_>,
    name: &[u8],
    desc: &[u8],
) -> Option<usize>
    ensures { result ≡ position (λ m. passes_by wanted.entry m.flags && (bytes_eq m.name name.now
        && bytes_eq m.desc desc.now)) methods.now }
{
    methods.iter().position(|m| {
        passes(wanted, m.flags) && (m.name.items() == name && m.desc.items() == desc)
    })
}

fn export_method(
    methods: &[ExportMethod],
    wanted: Wanted<'_>,
    name: &[u8],
    desc: &[u8],
) -> Option<usize>
    ensures { result ≡ position (λ m. passes_by wanted.entry m.flags && (bytes_eq m.name name.now
        && bytes_eq m.desc desc.now)) methods.now }
{
    methods.iter().position(|m| {
        passes(wanted, m.flags) && (m.name.items() == name && m.desc.items() == desc)
    })
}

fn place_where(class: Known<'_, '_>, wanted: Wanted<'_>, name: &[u8], desc: &[u8]) -> Option<usize>
    ensures { result ≡ position (λ m. passes_by wanted.entry m.flags && is_called name.now desc.now m)
        (class_of class.entry).methods }
{
    match class {
        Known::Declared(_, class) => class_method(class.methods.items(), wanted, name, desc),
        Known::Imported(_, class) => export_method(class.methods.items(), wanted, name, desc),
    }
}

/// A class's own method that is wanted by its flags.
fn own_where(class: Known<'_, '_>, wanted: Wanted<'_>, id: &MemberId) -> Option<Found>
    requires { IsCounted (class_of class) }
    ensures { result ≡ own_where (passes_by wanted.entry) id.now.name id.now.desc (class_of class.entry) }
{
    match place_where(class, wanted, id.name.items(), id.desc.items()) {
        Some(place) => Some(Found {
            imported: class.is_imported(),
            class: class.number(),
            member: (class.field_count() + place) as u32,
        }),
        None => None,
    }
}

/// A class's own method that can be selected, where the class is of this package.
fn own_within(class: Known<'_, '_>, home: &[u8], id: &MemberId) -> Option<Found>
    requires { IsCounted (class_of class) }
    ensures { result ≡ own_within home.now id.now.name id.now.desc (class_of class.entry) }
{
    if package_of(class.name()) == home {
        own_where(class, Wanted::Any, id)
    } else {
        None
    }
}

/// A class's own method that is wanted.
fn own_by(class: Known<'_, '_>, wanted: Wanted<'_>, id: &MemberId) -> Option<Found>
    requires { IsCounted (class_of class) }
    ensures { result ≡ own_by wanted.entry id.now.name id.now.desc (class_of class.entry) }
{
    match wanted {
        Wanted::Every => own_where(class, Wanted::Every, id),
        Wanted::Any => own_where(class, Wanted::Any, id),
        Wanted::Exposed => own_where(class, Wanted::Exposed, id),
        Wanted::Open => own_where(class, Wanted::Open, id),
        Wanted::Within(home) => own_within(class, home, id),
    }
}

/// What is selected on a receiver for a method that was found: a package-visible one in classes of its package, any
/// other past package-visible ones.
pub(crate) fn wanted_for<'w>(owner: Owner<'w, '_>) -> Wanted<'w>
    ensures { (w : List Class) → selection_for w (hit_of owner.entry) ≡ selection_by w result }
{
    if is_package_visible(owner.flags) {
        Wanted::Within(package_of(owner.class.name()))
    } else {
        Wanted::Open
    }
}

/// Whether what a package took for an imported class is one of a package of the group.
fn is_of_group(owner: Known<'_, '_>, class: Known<'_, '_>) -> bool
    ensures { result ≡ ((class_of owner.entry).is_imported && not (class_of class.entry).is_imported) }
{
    owner.is_imported() && !class.is_imported()
}

impl<'w, 'a> Links<'w, 'a> {
    fn own_at(&self, place: u32, wanted: Wanted<'_>, id: &MemberId) -> Option<Found>
        ensures { result ≡ option_and_then (own_by wanted.entry id.now.name id.now.desc)
            (slice_get (all_classes self.now.files) place) }
    {
        match self.world.class_in(place) {
            Some(class) => own_by(class, wanted, id),
            None => None,
        }
    }

    fn first_at(&self, places: &[u32], wanted: Wanted<'_>, id: &MemberId) -> Option<Found>
        ensures { result ≡ first_place (λ p. option_and_then (own_by wanted.entry id.now.name id.now.desc)
            (slice_get (all_classes self.now.files) p)) places.now }
    {
        for place in places {
            if let Some(found) = self.own_at(*place, wanted, id) {
                return Some(found);
            }
        }
        None
    }

    /// The first method that is wanted, from a class upwards.
    fn first_above(&self, wanted: Wanted<'_>, class: &[u8], id: &MemberId) -> Option<Found>
        ensures { result ≡ first (own_by wanted.entry id.now.name id.now.desc) (line (all_classes self.now.files)
            class.now) }
    {
        self.first_at(self.world.line_above(class), wanted, id)
    }

    /// The same on a receiver of a type; an array counts as java/lang/Object.
    pub(crate) fn select(&self, wanted: Wanted<'_>, class: &[u8], id: &MemberId) -> Option<Found>
        ensures { result ≡ selection_by (all_classes self.now.files) wanted.entry class.now id.now }
    {
        match wanted {
            Wanted::Any => self.world.selected(class, id),
            Wanted::Every => self.first_above(Wanted::Every, receiver(class), id),
            Wanted::Exposed => self.first_above(Wanted::Exposed, receiver(class), id),
            Wanted::Open => self.first_above(Wanted::Open, receiver(class), id),
            Wanted::Within(home) => self.first_above(Wanted::Within(home), receiver(class), id),
        }
    }

    /// The first method that is wanted among the interfaces of a class.
    fn first_of_interfaces(&self, wanted: Wanted<'_>, class: &[u8], id: &MemberId) -> Option<Found>
        ensures { result ≡ first (own_by wanted.entry id.now.name id.now.desc)
            (known (gathered false (supertypes (all_classes self.now.files) (class.now ∷ [])))) }
    {
        self.first_at(self.world.interfaces_above(class), wanted, id)
    }

    /// The public or protected method that a class declares or inherits.
    fn find_exposed(&self, class: &[u8], id: &MemberId) -> Option<Found>
        ensures { result ≡ find_exposed (all_classes self.now.files) class.now id.now }
    {
        match self.first_above(Wanted::Exposed, class, id) {
            Some(found) => Some(found),
            None => self.first_of_interfaces(Wanted::Exposed, class, id),
        }
    }

    /// What a method that a package found in a class of its files is here.
    pub(crate) fn joint_method(&self, owner: Known<'_, '_>, id: &MemberId) -> Option<Found>
        ensures { result ≡ joint_method (all_classes self.now.files) (class_of owner.entry) id.now }
    {
        let Some(class) = self.world.class_named(owner.name()) else {
            return None;
        };
        if is_of_group(owner, class) {
            return self.find_exposed(owner.name(), id);
        }
        own_where(class, Wanted::Every, id)
    }
}
