//! Methods of interfaces by their names, and what they are on a receiver (Java Card Virtual Machine
//! Specification 2.2.2, sections 6.8 and 7.5).

ghost use Rattle.std.specs.Prelude.{◌≡◌, map, option_map};
ghost use Rattle.cjc_card_semantics.specs.Machine.Calls.{interface_token, start_selected, through_first};
ghost use Rattle.cjc_card_semantics.specs.Machine.Calls.{token_if_interface};
ghost use Rattle.cjc_card_semantics.specs.Machine.Classes.{Own, External, upwards};
ghost use Rattle.cjc_card_semantics.specs.Machine.Dispatch.{dispatched_interface};
ghost use Rattle.cjc_card_frame.specs.Objects.{class_of};
ghost use Rattle.cjc_card_frame.specs.Kinds.{start_of};
ghost use Rattle.cjc_card_calls.specs.Found.{found_of};
ghost use Rattle.cjc_card_calls.specs.Files.Files.{AreFiles};
ghost use Rattle.cjc_card_calls.specs.Lines.Lines.{AreLines};
ghost use Rattle.cjc_card_link.specs.Tables.{AreKept, loaded_of};

use crate::calls::{Found, dispatched_interface};
use crate::files::Files;
use crate::lines::{Lines, nothing_above};
use crate::names::names::{listed_token, place_named};
use cjc_card_frame::heap::Class;
use cjc_card_frame::parts::Start;
use cjc_card_link::Tables;
use cjc_card_semantics::bytes::MemberId;

// The token of the method of a name in an imported interface.
fn token_abroad(tables: &Tables<'_>, tree: u32, number: u8, id: &MemberId) -> Option<u64>
    ensures { result ≡ interface_token (loaded_of tables.now) (External tree number) id.now }
{
    match tables.external(tree, number) {
        Some(class) => match listed_token(class.methods.items(), id) {
            Some(Some(token)) => Some(u64::from(token)),
            Some(None) => None,
            None => None,
        },
        None => None,
    }
}

// The token of the method of a name in an interface of a package.
fn token_within(tables: &Tables<'_>, part: u32, offset: u32, id: &MemberId) -> Option<u64>
    requires { AreKept tables.now }
    ensures { result ≡ interface_token (loaded_of tables.now) (Own part offset) id.now }
{
    match tables.class_names(part, offset) {
        Some(names) => match place_named(names.interface_methods.items(), id) {
            Some(place) => Some(place as u64),
            None => None,
        },
        None => None,
    }
}

/// The token of the method of a name in an interface.
pub(crate) fn interface_token(tables: &Tables<'_>, class: Class, id: &MemberId) -> Option<u64>
    requires { AreKept tables.now }
    ensures { result ≡ interface_token (loaded_of tables.now) (class_of class) id.now }
{
    match class {
        Class::Own(part, offset) => token_within(tables, part, offset, id),
        Class::External(tree, number) => token_abroad(tables, tree, number, id),
    }
}

// The same of a class that may be an interface.
fn token_if_interface(tables: &Tables<'_>, class: Class, id: &MemberId) -> Option<u64>
    requires { AreKept tables.now }
    ensures { result ≡ token_if_interface (loaded_of tables.now) (class_of class) id.now }
{
    if tables.is_interface(class) {
        interface_token(tables, class, id)
    } else {
        None
    }
}

/// A method of the group.
pub(crate) fn start_selected(tables: &Tables<'_>, found: Found<'_>) -> Option<Start>
    requires { AreKept tables.now }
    ensures { option_map start_of result ≡ start_selected (loaded_of tables.now) (found_of found.entry) }
{
    match found {
        Found::At(part, offset) => tables.start(part, offset),
        Found::NotFound => None,
        Found::Outward(_) => None,
    }
}

/// The method of the group that a method of an interface is on a receiver.
pub(crate) fn start_on_interface(
    tables: &Tables<'_>,
    files: &Files<'_>,
    receiver: Option<Class>,
    interface: Class,
    token: u64,
) -> Option<Start>
    requires tables { AreKept tables.now }
    requires files { AreFiles (loaded_of tables.now) files.now }
    ensures { option_map start_of result ≡ start_selected (loaded_of tables.now)
        (dispatched_interface (loaded_of tables.now) (option_map class_of receiver) (class_of interface) token) }
{
    let found = dispatched_interface(tables, files, receiver, interface, token);
    start_selected(tables, found)
}

// The method of the group by the first interface among these that has the method of a name.
fn through_first(
    tables: &Tables<'_>,
    files: &Files<'_>,
    receiver: Option<Class>,
    classes: &[Class],
    id: &MemberId,
) -> Option<Start>
    requires tables { AreKept tables.now }
    requires files { AreFiles (loaded_of tables.now) files.now }
    ensures { option_map start_of result ≡ start_selected (loaded_of tables.now) (through_first (loaded_of tables.now)
        (option_map class_of receiver) (map class_of classes.now) id.now) }
{
    for class in classes {
        if let Some(token) = token_if_interface(tables, *class, id) {
            return start_on_interface(tables, files, receiver, *class, token);
        }
    }
    None
}

/// The method of the group by the first interface that has the method of a name, from a class upwards.
pub(crate) fn through_above(
    tables: &Tables<'_>,
    lines: &Lines,
    files: &Files<'_>,
    receiver: Option<Class>,
    named: Class,
    id: &MemberId,
) -> Option<Start>
    requires tables { AreKept tables.now }
    requires lines { AreLines (loaded_of tables.now) lines.now }
    requires files { AreFiles (loaded_of tables.now) files.now }
    ensures { option_map start_of result ≡ start_selected (loaded_of tables.now) (through_first (loaded_of tables.now)
        (option_map class_of receiver) (upwards (loaded_of tables.now) (class_of named)) id.now) }
{
    match lines.line(named) {
        Some(line) => through_first(tables, files, receiver, line, id),
        None => {
            nothing_above();
            through_first(tables, files, receiver, &[named], id)
        }
    }
}
