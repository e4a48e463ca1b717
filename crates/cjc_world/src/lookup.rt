//! The part of the roster that walks over lists of classes: the first field or method that fits, whether a name
//! is among them, and subclasses. Nothing here takes memory.

ghost use Rattle.std.specs.Prelude.{◌≡◌, ◌||◌, ◌∷◌, [], false, slice_get};
ghost use Rattle.std.specs.List.{list_any};
ghost use Rattle.std.specs.Str.{bytes_eq};
ghost use Rattle.cjc_world.specs.Classes.{all_classes, class_named};
ghost use Rattle.cjc_world.specs.Interfaces.{gathered, has_interface, known};
ghost use Rattle.cjc_world.specs.Supertypes.{is_below, supertypes, line};
ghost use Rattle.cjc_world.specs.Working.Known.{class_of};
ghost use Rattle.cjc_world.specs.Lookup.{find_field, find_method, first, method_of_interface, own_method, own_of};
ghost use Rattle.cjc_world.specs.Subtype.{is_subclass};
ghost use Rattle.cjc_world.specs.Working.Tables.{IsTable};
ghost use Rattle.cjc_world.specs.Working.Places.{field_of, first_place, has_name, method_of, names, names_of};
ghost use Rattle.cjc_world.specs.Working.Places.{names_super, names_super_of, IsWalk};

use crate::class::Known;
use crate::class_index::ClassIndex;
use crate::found::Found;
use crate::tables::{Above, Order, row_at};
use cjc_bytes::Bytes;

fn any_is(names: &[Bytes], name: &[u8]) -> bool
    ensures { result ≡ list_any (λ x. bytes_eq x name.now) names.now }
{
    names.iter().any(|other| other.items() == name)
}

/// Whether a class has the name or lists it.
fn is_naming(class: Known<'_, '_>, name: &[u8]) -> bool
    ensures { result ≡ names name.now (class_of class.entry) }
{
    class.name() == name || (any_is(class.supers(), name) || any_is(class.interfaces(), name))
}

/// Whether a class has the name or lists it as a super.
fn is_naming_super(class: Known<'_, '_>, name: &[u8]) -> bool
    ensures { result ≡ names_super name.now (class_of class.entry) }
{
    class.name() == name || any_is(class.supers(), name)
}

impl<'a> ClassIndex<'a> {
    fn field_in(&self, place: u32, name: &[u8], desc: &[u8]) -> Option<Found>
        ensures { result ≡ field_of name.now desc.now (slice_get (all_classes self.now) place) }
    {
        match self.class_in(place) {
            Some(class) => class.field(self.members_in(place, true), name, desc),
            None => None,
        }
    }

    fn method_in(&self, place: u32, selecting: bool, name: &[u8], desc: &[u8]) -> Option<Found>
        ensures { result ≡ method_of selecting name.now desc.now (slice_get (all_classes self.now) place) }
    {
        match self.class_in(place) {
            Some(class) => class.method(self.members_in(place, false), selecting, name, desc),
            None => None,
        }
    }

    /// Whether there is a class at the place and it has the name.
    pub(crate) fn has_name(&self, place: u32, name: &[u8]) -> bool
        ensures { result ≡ has_name name.now (slice_get (all_classes self.now) place) }
    {
        match self.class_in(place) {
            Some(class) => class.name() == name,
            None => false,
        }
    }

    fn is_naming(&self, place: u32, name: &[u8]) -> bool
        ensures { result ≡ names_of name.now (slice_get (all_classes self.now) place) }
    {
        match self.class_in(place) {
            Some(class) => is_naming(class, name),
            None => false,
        }
    }

    fn is_naming_super(&self, place: u32, name: &[u8]) -> bool
        ensures { result ≡ names_super_of name.now (slice_get (all_classes self.now) place) }
    {
        match self.class_in(place) {
            Some(class) => is_naming_super(class, name),
            None => false,
        }
    }

    /// The field of the first of these classes that has one.
    pub(crate) fn first_field(&self, places: &[u32], name: &[u8], desc: &[u8]) -> Option<Found>
        ensures { result ≡ first_place (λ p. field_of name.now desc.now (slice_get (all_classes self.now) p))
            places.now }
    {
        for place in places {
            if let Some(found) = self.field_in(*place, name, desc) {
                return Some(found);
            }
        }
        None
    }

    /// The method of the first of these classes that has one; in selecting neither a private nor a static one.
    pub(crate) fn first_method(
        &self,
        places: &[u32],
        selecting: bool,
        name: &[u8],
        desc: &[u8],
    ) -> Option<Found>
        ensures { result ≡ first_place (λ p. method_of selecting name.now desc.now (slice_get (all_classes self.now) p))
            places.now }
    {
        for place in places {
            if let Some(found) = self.method_in(*place, selecting, name, desc) {
                return Some(found);
            }
        }
        None
    }

    /// Whether one of these classes has the name.
    pub(crate) fn any_has_name(&self, places: &[u32], name: &[u8]) -> bool
        ensures { result ≡ list_any (λ p. has_name name.now (slice_get (all_classes self.now) p)) places.now }
    {
        places.iter().any(|place| self.has_name(*place, name))
    }

    /// Whether one of these classes has the name or lists it.
    pub(crate) fn any_naming(&self, places: &[u32], name: &[u8]) -> bool
        ensures { result ≡ list_any (λ p. names_of name.now (slice_get (all_classes self.now) p)) places.now }
    {
        places.iter().any(|place| self.is_naming(*place, name))
    }

    /// Whether one of these classes has the name or lists it as a super.
    pub(crate) fn any_naming_super(&self, places: &[u32], name: &[u8]) -> bool
        ensures { result ≡ list_any (λ p. names_super_of name.now (slice_get (all_classes self.now) p)) places.now }
    {
        places
            .iter()
            .any(|place| self.is_naming_super(*place, name))
    }

    /// Whether a class is another or stands below it.
    pub(crate) fn is_subclass(&self, rows: &[Option<Above>], sub: &[u8], sup: &[u8]) -> bool
        requires { IsTable (all_classes self.now) rows.now }
        ensures { result ≡ is_subclass (all_classes self.now) sub.now sup.now }
    {
        match self.place_named(sub) {
            Some(place) => self.any_naming(row_at(rows, Order::Fields, place), sup),
            None => sub == sup,
        }
    }

    /// Whether a name is that of a class or of a superclass of it, one of no file too.
    pub(crate) fn is_below(&self, rows: &[Option<Above>], sub: &[u8], sup: &[u8]) -> bool
        requires { IsTable (all_classes self.now) rows.now }
        ensures { result ≡ is_below (all_classes self.now) sub.now sup.now }
    {
        match self.place_named(sub) {
            Some(place) => self.any_naming_super(row_at(rows, Order::Line, place), sup),
            None => sub == sup,
        }
    }

    /// Whether the class of a name is one of the interfaces of another.
    pub(crate) fn has_interface(
        &self,
        rows: &[Option<Above>],
        class: &[u8],
        interface: &[u8],
    ) -> bool
        requires { IsTable (all_classes self.now) rows.now }
        ensures { result ≡ has_interface (all_classes self.now) class.now interface.now }
    {
        match self.place_named(class) {
            Some(place) => self.any_has_name(row_at(rows, Order::Interfaces, place), interface),
            None => false,
        }
    }

    /// The field that a look-up finds.
    pub(crate) fn find_field(
        &self,
        rows: &[Option<Above>],
        class: &[u8],
        name: &[u8],
        desc: &[u8],
    ) -> Option<Found>
        requires { IsTable (all_classes self.now) rows.now }
        ensures { result ≡ find_field (all_classes self.now) class.now name.now desc.now }
    {
        match self.place_named(class) {
            Some(place) => self.first_field(row_at(rows, Order::Fields, place), name, desc),
            None => None,
        }
    }

    /// Where a class and its superclasses stand, going upwards.
    pub(crate) fn line_places<'s>(&self, rows: &'s [Option<Above>], class: &[u8]) -> &'s [u32]
        requires { IsTable (all_classes self.now) rows.now }
        ensures { IsWalk (all_classes self.now) (line (all_classes self.now) class.now) result.now }
    {
        match self.place_named(class) {
            Some(place) => row_at(rows, Order::Line, place),
            None => &[],
        }
    }

    /// Where the interfaces of a class stand, in their order.
    pub(crate) fn interface_places<'s>(&self, rows: &'s [Option<Above>], class: &[u8]) -> &'s [u32]
        requires { IsTable (all_classes self.now) rows.now }
        ensures { IsWalk (all_classes self.now) (known (gathered false (supertypes (all_classes self.now)
            (class.now ∷ [])))) result.now }
    {
        match self.place_named(class) {
            Some(place) => row_at(rows, Order::Interfaces, place),
            None => &[],
        }
    }

    /// The first method in a class or upwards; in selecting neither a private nor a static one.
    pub(crate) fn method_above(
        &self,
        rows: &[Option<Above>],
        selecting: bool,
        class: &[u8],
        name: &[u8],
        desc: &[u8],
    ) -> Option<Found>
        requires { IsTable (all_classes self.now) rows.now }
        ensures { result ≡ first (own_method selecting name.now desc.now) (line (all_classes self.now) class.now) }
    {
        match self.place_named(class) {
            Some(place) => self.first_method(
                row_at(rows, Order::Line, place),
                selecting,
                name,
                desc,
            ),
            None => None,
        }
    }

    /// The first method among the interfaces of a class in their order.
    pub(crate) fn interface_method(
        &self,
        rows: &[Option<Above>],
        class: &[u8],
        name: &[u8],
        desc: &[u8],
    ) -> Option<Found>
        requires { IsTable (all_classes self.now) rows.now }
        ensures { result ≡ first (own_method false name.now desc.now)
            (known (gathered false (supertypes (all_classes self.now) (class.now ∷ [])))) }
    {
        match self.place_named(class) {
            Some(place) => {
                self.first_method(row_at(rows, Order::Interfaces, place), false, name, desc)
            }
            None => None,
        }
    }

    /// A class's own method.
    fn own_of(&self, class: &[u8], name: &[u8], desc: &[u8]) -> Option<Found>
        ensures { result ≡ own_of name.now desc.now (class_named (all_classes self.now) class.now) }
    {
        match self.place_named(class) {
            Some(place) => self.method_in(place, false, name, desc),
            None => None,
        }
    }

    /// The method of an interface: its own, else that of the first of its superinterfaces that declares one.
    #[tactic(auto, unfolding(crate::specs::Lookup::method_of_interface))]
    pub(crate) fn method_of_interface(
        &self,
        rows: &[Option<Above>],
        interface: &[u8],
        name: &[u8],
        desc: &[u8],
    ) -> Option<Found>
        requires { IsTable (all_classes self.now) rows.now }
        ensures { result ≡ method_of_interface (all_classes self.now) interface.now name.now desc.now }
    {
        match self.own_of(interface, name, desc) {
            Some(found) => Some(found),
            None => self.interface_method(rows, interface, name, desc),
        }
    }

    /// The method that a look-up finds.
    #[tactic(auto, unfolding(crate::specs::Lookup::find_method))]
    pub(crate) fn find_method(
        &self,
        rows: &[Option<Above>],
        class: &[u8],
        name: &[u8],
        desc: &[u8],
    ) -> Option<Found>
        requires { IsTable (all_classes self.now) rows.now }
        ensures { result ≡ find_method (all_classes self.now) class.now name.now desc.now }
    {
        match self.method_above(rows, false, class, name, desc) {
            Some(found) => Some(found),
            None => self.interface_method(rows, class, name, desc),
        }
    }
}
