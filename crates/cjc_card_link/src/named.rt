//! The part of `Tables` that tells the name of a class and finds a class by its name: for scripts, reports,
//! descriptors, and the classes that the machine itself names.

ghost use Rattle.std.specs.Prelude.{◌≡◌, option_map, option_and_then, slice_get};
ghost use Rattle.std.specs.Option.{option_copied};
ghost use Rattle.std.specs.Str.{bytes_eq};
ghost use Rattle.cjc_card_semantics.specs.Machine.Classes.{class_named, is_interface, name_of, names_of, own_from};
ghost use Rattle.cjc_card_frame.specs.Objects.{class_of};
ghost use Rattle.cjc_card_link.specs.Names.{class_names_of};
ghost use Rattle.cjc_card_link.specs.Packages.{named_class};
ghost use Rattle.cjc_card_link.specs.Tables.{AreKept, loaded_of};

use crate::infos::Info;
use crate::names::ClassNames;
use crate::tables::Tables;
use cjc_card_frame::heap::Class;
use cjc_check_index::bytes::is_interface;

impl<'a> Tables<'a> {
    /// The names of a class of a package.
    pub fn class_names(&self, part: u32, offset: u32) -> Option<&'a ClassNames>
        requires { AreKept self.now }
        ensures { option_map class_names_of (option_copied result) ≡ names_of (loaded_of self.now) part offset }
    {
        match self.package(part) {
            Some(package) => package.names(u64::from(offset)),
            None => None,
        }
    }

    /// The name of a class.
    pub fn name(&self, class: Class) -> &'a [u8]
        requires { AreKept self.now }
        ensures { result.now ≡ name_of (loaded_of self.now) (class_of class) }
    {
        match class {
            Class::Own(part, offset) => match self.class_names(part, offset) {
                Some(names) => names.name.items(),
                None => &[],
            },
            Class::External(tree, token) => match self.external(tree, token) {
                Some(class) => class.name.items(),
                None => &[],
            },
        }
    }

    // A class of a package by its name.
    fn named_in(&self, part: u32, name: &[u8]) -> Option<Class>
        ensures { option_map class_of result ≡ option_and_then (λ q. named_class part q name.now)
            (slice_get (loaded_of self.now).parts part) }
    {
        match self.package(part) {
            Some(package) => match package.offset_named(name) {
                Some(offset) => Some(Class::Own(part, offset as u32)),
                None => None,
            },
            None => None,
        }
    }

    // The first class of the packages with a name.
    fn own_named(&self, name: &[u8]) -> Option<Class>
        requires { AreKept self.now }
        ensures { option_map class_of result ≡ own_from 0 (loaded_of self.now).parts name.now }
    {
        for part in 0..self.part_count() {
            if let Some(class) = self.named_in(part, name) {
                return Some(class);
            }
        }
        None
    }

    /// The first class of the packages with a name, else of the export files.
    pub fn class_named(&self, name: &[u8]) -> Option<Class>
        requires { AreKept self.now }
        ensures { option_map class_of result ≡ class_named (loaded_of self.now) name.now }
    {
        match self.own_named(name) {
            Some(class) => Some(class),
            None => self.external_named(name),
        }
    }

    /// Whether no object is made of a class.
    pub fn is_interface(&self, class: Class) -> bool
        requires { AreKept self.now }
        ensures { result ≡ is_interface (loaded_of self.now) (class_of class) }
    {
        match class {
            Class::Own(part, offset) => match self.info(part, u64::from(offset)) {
                Some(Info::IsClass(_)) => false,
                Some(Info::IsInterface(_)) => true,
                None => true,
            },
            Class::External(tree, token) => match self.external(tree, token) {
                Some(class) => is_interface(class.flags),
                None => true,
            },
        }
    }
}
