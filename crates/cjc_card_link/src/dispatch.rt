//! Dispatch through the tables of a class and its superclasses in the package, up to an imported class (Java
//! Card Virtual Machine Specification 2.2.2, sections 6.8.2 and 7.5).

ghost use Rattle.std.specs.Prelude.{◌≡◌, ℕ, List, Option, option_map, if◌then◌else◌};
ghost use Rattle.std.specs.Option.{option_copied};
ghost use Rattle.cjc_card_semantics.specs.Machine.Classes.{or_else};
ghost use Rattle.cjc_card_semantics.specs.Machine.Dispatch.{Selection, at_table, is_same, dispatched_hidden};
ghost use Rattle.cjc_card_semantics.specs.Machine.Dispatch.{dispatched_open, map_in, map_of, tower_from};
ghost use Rattle.cjc_card_semantics.specs.Machine.Classes.{info_of};
ghost use Rattle.cjc_card_frame.specs.Objects.{class_of};
ghost use Rattle.cjc_card_link.specs.Walks.{entry_in, entry_gives, walk_gives, walk_hides};
ghost use Rattle.cjc_card_link.specs.Tables.{AreKept, loaded_of};

use crate::infos::Info;
use crate::tables::Tables;
use cjc_card_frame::heap::{Class, same_class};
use cjc_card_semantics::capread::{ClassEntry, ImplementedInterface};
use cjc_check_index::bytes::Bytes;

// No method there: the superclass's.
const NONE: u64 = 0xFFFF;

/// What a table says of a token: the superclass's method, none, or a method by its offset.
#[derive(Clone, Copy)]
enum TableEntry {
    Above,
    Nothing,
    At(u64),
}

/// What is found upwards: none, a method of a package by its offset, or an imported class, which is asked.
#[derive(Clone, Copy)]
pub enum Walk {
    Nothing,
    At(u32, u64),
    Abroad(u32, u8),
}

// The entry of a token, where the first has another.
fn table_entry(base: u8, entries: &[u64], token: u8) -> TableEntry
    ensures { (part : ℕ) → (above : Selection) → entry_gives part above result ≡ at_table part base entries.now token
        above }
{
    if token < base {
        return TableEntry::Above;
    }
    match entries.get(usize::from(token - base)).copied() {
        Some(offset) => {
            if offset == NONE {
                TableEntry::Above
            } else {
                TableEntry::At(offset)
            }
        }
        None => TableEntry::Nothing,
    }
}

// The entry of a package-visible token; a class of another package is passed over.
fn hidden_entry(is_home: bool, entry: &ClassEntry, token: u8) -> TableEntry
    ensures { (part : ℕ) → (above : Selection) → entry_gives part above result ≡ (if is_home
        then at_table part entry.now.package_base entry.now.package_methods token above else above) }
{
    if is_home {
        table_entry(entry.package_base, entry.package_methods.items(), token)
    } else {
        TableEntry::Above
    }
}

// Whether a class is this one.
fn is_same(found: Option<Class>, class: Class) -> bool
    ensures { result ≡ is_same (option_map class_of found) (class_of class) }
{
    match found {
        Some(found) => same_class(found, class),
        None => false,
    }
}

impl<'a> Tables<'a> {
    /// The class of a package at an offset, where one that is no interface stands there.
    pub(crate) fn class_info(&self, part: u32, offset: u32) -> Option<&'a ClassEntry>
        requires { AreKept self.now }
        ensures { option_copied result ≡ entry_in (info_of (loaded_of self.now) part offset) }
    {
        match self.info(part, u64::from(offset)) {
            Some(Info::IsClass(entry)) => Some(entry),
            Some(Info::IsInterface(_)) => None,
            None => None,
        }
    }

    /// A public or protected method by its token, so many classes upwards at most.
    pub fn walk_open(&self, class: Option<Class>, depth: u32, token: u8) -> Walk
        requires { AreKept self.now }
        ensures { walk_gives (loaded_of self.now) token result ≡ dispatched_open (tower_from (loaded_of self.now) depth
            (option_map class_of class)) token }
    {
        if depth == 0 {
            return Walk::Nothing;
        }
        match class {
            None => Walk::Nothing,
            Some(Class::External(tree, number)) => Walk::Abroad(tree, number),
            Some(Class::Own(part, offset)) => match self.class_info(part, offset) {
                None => Walk::Nothing,
                Some(entry) => {
                    match table_entry(entry.public_base, entry.public_methods.items(), token) {
                        TableEntry::Nothing => Walk::Nothing,
                        TableEntry::At(offset) => Walk::At(part, offset),
                        TableEntry::Above => {
                            let above = self.class_in(part, entry.superclass);
                            self.walk_open(above, depth - 1, token)
                        }
                    }
                }
            },
        }
    }

    /// A package-visible method by its package and its token, so many classes upwards at most.
    pub fn walk_hidden(&self, class: Option<Class>, depth: u32, home: u32, token: u8) -> Walk
        requires { AreKept self.now }
        ensures { walk_hides result ≡ dispatched_hidden (tower_from (loaded_of self.now) depth
            (option_map class_of class)) home token }
    {
        if depth == 0 {
            return Walk::Nothing;
        }
        match class {
            None => Walk::Nothing,
            Some(Class::External(tree, number)) => Walk::Abroad(tree, number),
            Some(Class::Own(part, offset)) => match self.class_info(part, offset) {
                None => Walk::Nothing,
                Some(entry) => match hidden_entry(part == home, entry, token) {
                    TableEntry::Nothing => Walk::Nothing,
                    TableEntry::At(offset) => Walk::At(part, offset),
                    TableEntry::Above => {
                        let above = self.class_in(part, entry.superclass);
                        self.walk_hidden(above, depth - 1, home, token)
                    }
                },
            },
        }
    }

    // The map of an interface among those that a class lists.
    fn map_in(
        &self,
        part: u32,
        maps: &'a [ImplementedInterface],
        interface: Class,
    ) -> Option<&'a Bytes>
        requires { AreKept self.now }
        ensures { (above : Option (List ℕ)) → or_else (option_copied result) above ≡ map_in (loaded_of self.now) part
            maps.now (class_of interface) above }
    {
        for map in maps {
            if is_same(self.class_in(part, map.interface), interface) {
                return Some(&map.index);
            }
        }
        None
    }

    /// The map of an interface, in a class or the nearest above that lists it, so many classes upwards at most.
    pub fn map_of(&self, class: Option<Class>, depth: u32, interface: Class) -> Option<&'a Bytes>
        requires { AreKept self.now }
        ensures { option_copied result ≡ map_of (loaded_of self.now) (tower_from (loaded_of self.now) depth
            (option_map class_of class)) (class_of interface) }
    {
        if depth == 0 {
            return None;
        }
        match class {
            None => None,
            Some(Class::External(_, _)) => None,
            Some(Class::Own(part, offset)) => match self.class_info(part, offset) {
                None => None,
                Some(entry) => match self.map_in(part, entry.interfaces.items(), interface) {
                    Some(map) => Some(map),
                    None => self.map_of(
                        self.class_in(part, entry.superclass),
                        depth - 1,
                        interface,
                    ),
                },
            },
        }
    }
}
