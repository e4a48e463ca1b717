//! Methods of interfaces on objects of a class (Java Card Virtual Machine Specification 2.2.2, sections 6.8 and 7.5).

ghost use Rattle.std.specs.Prelude.{◌≡◌, Some, option_map, slice_get};
ghost use Rattle.cjc_card_semantics.specs.Machine.Classes.{Own};
ghost use Rattle.cjc_card_semantics.specs.Machine.Dispatch.{at_map, dispatched_interface, interface_method, of_names};
ghost use Rattle.cjc_card_semantics.specs.Machine.Dispatch.{tower};
ghost use Rattle.cjc_card_frame.specs.Objects.{class_of};
ghost use Rattle.cjc_card_calls.specs.Files.Files.{AreFiles};
ghost use Rattle.cjc_card_link.specs.Names.{class_names_of};
ghost use Rattle.cjc_card_link.specs.Tables.{AreKept, loaded_of};
ghost use Rattle.cjc_card_calls.specs.Found.{found_of};

use crate::calls::found::Found;
use crate::calls::imported::{found_by, of_file};
use crate::files::Files;
use cjc_card_frame::heap::Class;
use cjc_card_frame::parts::ImportedMethod;
use cjc_card_link::{ClassNames, Tables};

// The method of a token of an interface of the package.
fn of_names<'a>(names: &'a ClassNames, token: u64) -> Found<'a>
    ensures { found_of result ≡ of_names (Some (class_names_of names.now)) token }
{
    match names.interface_methods.items().get(token as usize) {
        Some(method) => Found::Outward(ImportedMethod {
            class: names.name.items(),
            name: method.name.items(),
            desc: method.desc.items(),
        }),
        None => Found::NotFound,
    }
}

// The method of an interface itself.
pub fn interface_method<'a>(tables: &Tables<'a>, interface: Class, token: u64) -> Found<'a>
    requires { AreKept tables.now }
    ensures { found_of result ≡ interface_method (loaded_of tables.now) (class_of interface) token }
{
    match interface {
        Class::External(tree, number) => match tables.external(tree, number) {
            Some(class) => of_file(class, token),
            None => Found::NotFound,
        },
        Class::Own(part, offset) => match tables.class_names(part, offset) {
            Some(names) => of_names(names, token),
            None => Found::NotFound,
        },
    }
}

// The token of a virtual method, as a map has it.
fn token_at(map: &[u8], token: u64) -> Option<u8>
    ensures { result ≡ slice_get map.now token }
{
    map.get(token as usize).copied()
}

// The method of a token at which a map points, on objects of a class.
fn at_map<'a>(
    tables: &Tables<'a>,
    files: &Files<'a>,
    class: Class,
    map: &[u8],
    token: u64,
) -> Found<'a>
    requires tables { AreKept tables.now }
    requires files { AreFiles (loaded_of tables.now) files.now }
    ensures { found_of result ≡ at_map (tower (loaded_of tables.now) (class_of class)) (Some map.now) token }
{
    match token_at(map, token) {
        Some(token) => {
            let walk = tables.walk_open(Some(class), tables.depth() + 1, token);
            found_by(files, walk, token)
        }
        None => Found::NotFound,
    }
}

// A method of an interface on objects of a class of a package.
fn on_own<'a>(
    tables: &Tables<'a>,
    files: &Files<'a>,
    part: u32,
    offset: u32,
    interface: Class,
    token: u64,
) -> Found<'a>
    requires tables { AreKept tables.now }
    requires files { AreFiles (loaded_of tables.now) files.now }
    ensures { found_of result ≡ dispatched_interface (loaded_of tables.now) (Some (Own part offset))
        (class_of interface) token }
{
    let class = Class::Own(part, offset);
    match tables.map_of(Some(class), tables.depth() + 1, interface) {
        Some(map) => at_map(tables, files, class, map.items(), token),
        None => Found::NotFound,
    }
}

/// A method of an interface by its token, on a receiver of a class.
pub fn dispatched_interface<'a>(
    tables: &Tables<'a>,
    files: &Files<'a>,
    receiver: Option<Class>,
    interface: Class,
    token: u64,
) -> Found<'a>
    requires tables { AreKept tables.now }
    requires files { AreFiles (loaded_of tables.now) files.now }
    ensures { found_of result ≡ dispatched_interface (loaded_of tables.now) (option_map class_of receiver)
        (class_of interface) token }
{
    match receiver {
        None => Found::NotFound,
        Some(Class::External(_, _)) => interface_method(tables, interface, token),
        Some(Class::Own(part, offset)) => on_own(tables, files, part, offset, interface, token),
    }
}
