//! The classes and interfaces that a class_ref can name, each found at once (Java Card Virtual Machine
//! Specification 2.2.2, sections 6.1 and 6.8, and chapter 5). The tests of class_refs and of members use it. It
//! knows no sentence.

ghost use Rattle.std.specs.Prelude.{◌≡◌, ◌==◌};
ghost use Rattle.std.specs.List.{find};
ghost use Rattle.std.specs.Option.{option_copied};
ghost use Rattle.cjc_check_rules.specs.CapRead.Parts.{class_of};
ghost use Rattle.cjc_check_rules.specs.Classes.{classes_at, imported, interfaces_at, is_own_class};
ghost use Rattle.cjc_check_rules.specs.Spots.{begins};
ghost use Rattle.cjc_check_index.specs.Lookup.Indexed.{IsIndexed, names_as, places_of};

use crate::lookup::along::is_among;
use crate::lookup::parts::Parts;
use cjc_check_rules::bytes::{Row, is_interface};
use cjc_check_rules::capread::ClassRef;
use cjc_check_rules::export_file::{ExportClass, ExportTree};

/// What a class_ref is to name.
#[derive(Clone, Copy)]
pub enum Want {
    /// A class or an interface.
    There,
    Interface,
    /// A class that is no interface.
    Class,
}

/// The classes of the package and of the export files.
#[derive(Drop)]
pub struct Names<'a> {
    pub parts: &'a Parts<'a>,
    pub exports: &'a [ExportTree],
    /// Where the interfaces of the package begin, in order.
    pub interfaces: &'a [u64],
    /// Where its classes begin, in order.
    pub classes: &'a [u64],
    /// Of each export file the places of its classes by token.
    pub tokens: &'a [Row<Option<usize>>],
}

/// The first class of a token.
fn class_with<'a>(
    classes: &'a [ExportClass],
    places: &[Option<usize>],
    token: u8,
) -> Option<&'a ExportClass>
    requires { places.now ≡ places_of classes.now }
    ensures { option_copied result ≡ find (λ c. c.token == token) classes.now }
{
    let place = places[usize::from(token)];
    match place {
        Some(at) => {
            if at < classes.len() {
                Some(&classes[at])
            } else {
                None
            }
        }
        None => None,
    }
}

impl<'a> Names<'a> {
    /// Whether an interface of the package begins at an offset.
    pub fn is_own_interface(&self, offset: u64) -> bool
        requires { IsIndexed self.now }
        ensures { result ≡ begins (interfaces_at self.now.parts.now.class.now) offset }
    {
        is_among(self.interfaces, offset)
    }

    /// Whether a class of the package that is no interface begins at an offset.
    pub fn is_own_class(&self, offset: u64) -> bool
        requires { IsIndexed self.now }
        ensures { result ≡ begins (classes_at self.now.parts.now.class.now) offset }
    {
        is_among(self.classes, offset)
    }

    /// The exported class with these tokens.
    pub fn imported(&self, import: usize, class: u8) -> Option<&'a ExportClass>
        requires { IsIndexed self.now }
        ensures { option_copied result ≡ imported self.now.exports.now import class }
    {
        if import >= self.exports.len() || import >= self.tokens.len() {
            return None;
        }
        let classes = self.exports[import].classes.items();
        class_with(classes, self.tokens[import].items(), class)
    }

    /// Whether what begins at an offset of Class is what is wanted.
    fn names_own(&self, want: Want, offset: u64) -> bool
        requires { IsIndexed self.now }
        ensures { result ≡ names_as want self.now.parts.now.class.now self.now.exports.now (ClassRef.Inside offset) }
    {
        match want {
            Want::There => self.is_own_interface(offset) || self.is_own_class(offset),
            Want::Interface => self.is_own_interface(offset),
            Want::Class => self.is_own_class(offset),
        }
    }

    /// Whether the exported class with these tokens is what is wanted.
    fn names_imported(&self, want: Want, import: usize, class: u8) -> bool
        requires { IsIndexed self.now }
        ensures { result ≡ names_as want self.now.parts.now.class.now self.now.exports.now (ClassRef.Outside import
            class) }
    {
        match self.imported(import, class) {
            Some(found) => match want {
                Want::There => true,
                Want::Interface => is_interface(found.flags),
                Want::Class => !is_interface(found.flags),
            },
            None => false,
        }
    }

    /// Whether a class_ref names what is wanted.
    pub fn names(&self, want: Want, class: ClassRef) -> bool
        requires { IsIndexed self.now }
        ensures { result ≡ names_as want self.now.parts.now.class.now self.now.exports.now class }
    {
        match class {
            ClassRef::Inside(offset) => self.names_own(want, offset),
            ClassRef::Outside { package, class } => {
                self.names_imported(want, usize::from(package), class)
            }
        }
    }

    /// Whether a class_ref of these two bytes names what is wanted.
    pub fn names_number(&self, want: Want, number: u32) -> bool
        requires { IsIndexed self.now }
        ensures { result ≡ names_as want self.now.parts.now.class.now self.now.exports.now (class_of number) }
    {
        if number < 0x8000 {
            self.names_own(want, u64::from(number))
        } else {
            self.names_imported(want, (number / 256 - 0x80) as usize, (number % 256) as u8)
        }
    }
}

/// Whether a class_ref names a class of the package that is no interface.
pub fn is_own_class(names: &Names<'_>, class: ClassRef) -> bool
    requires { IsIndexed names.now }
    ensures { result ≡ is_own_class names.now.parts.now.class.now class }
{
    match class {
        ClassRef::Inside(offset) => names.is_own_class(offset),
        ClassRef::Outside { .. } => false,
    }
}
