//! What calls reach (Java Card Virtual Machine Specification 2.2.2, section 7.5).

ghost use Rattle.std.specs.Prelude.{◌≡◌, option_and_then, option_map};
ghost use Rattle.cjc_card_semantics.specs.Machine.Calls.{reached, reached_by, selected};
ghost use Rattle.cjc_card_semantics.specs.Machine.Classes.{shape_class};
ghost use Rattle.cjc_card_frame.specs.Objects.{class_of, shape_of};
ghost use Rattle.cjc_card_frame.specs.Kinds.{callee_of, reached_of};
ghost use Rattle.cjc_card_calls.specs.Files.Files.{AreFiles};
ghost use Rattle.cjc_card_link.specs.Tables.{AreKept, loaded_of};
ghost use Rattle.cjc_card_calls.specs.Found.{found_of};

use crate::calls::dispatch::{dispatched_above, dispatched_on};
use crate::calls::found::Found;
use crate::calls::interfaces::dispatched_interface;
use crate::files::Files;
use crate::lines::shape_class;
use cjc_card_frame::heap::{Class, Shape};
use cjc_card_frame::parts::{Callee, Reached};
use cjc_card_link::Tables;

// The class of a receiver, where there is one.
fn receiver_class(tables: &Tables<'_>, receiver: Option<Shape>) -> Option<Class>
    requires { AreKept tables.now }
    ensures { option_map class_of result ≡ option_and_then (shape_class (loaded_of tables.now))
        (option_map shape_of receiver) }
{
    match receiver {
        Some(kind) => shape_class(tables, kind),
        None => None,
    }
}

// The method that a call selects.
fn selected<'a>(
    tables: &Tables<'a>,
    files: &Files<'a>,
    callee: Callee<'a>,
    receiver: Option<Class>,
) -> Found<'a>
    requires tables { AreKept tables.now }
    requires files { AreFiles (loaded_of tables.now) files.now }
    ensures { found_of result ≡ selected (loaded_of tables.now) (callee_of callee.entry)
        (option_map class_of receiver) }
{
    match callee {
        Callee::Fixed(_, part, offset) => Found::At(part, offset),
        Callee::Outer(_, method) => Found::Outward(method),
        Callee::OnObject(_, token) => dispatched_on(tables, files, receiver, token),
        Callee::OnSuper(class, token) => dispatched_above(tables, files, class, token),
        Callee::OnInterface(_, interface, token) => {
            dispatched_interface(tables, files, receiver, interface, u64::from(token))
        }
    }
}

// What is reached by what was found.
fn reached_by<'a>(tables: &Tables<'a>, found: Found<'a>) -> Reached<'a>
    requires { AreKept tables.now }
    ensures { reached_of result ≡ reached_by (loaded_of tables.now) (found_of found.entry) }
{
    match found {
        Found::NotFound => Reached::Nowhere,
        Found::At(part, offset) => match tables.start(part, offset) {
            Some(start) => Reached::Within(start),
            None => Reached::Nowhere,
        },
        Found::Outward(method) => Reached::Abroad(method),
    }
}

/// What a call reaches on a receiver of a type.
pub fn reached<'a>(
    tables: &Tables<'a>,
    files: &Files<'a>,
    callee: Callee<'a>,
    receiver: Option<Shape>,
) -> Reached<'a>
    requires tables { AreKept tables.now }
    requires files { AreFiles (loaded_of tables.now) files.now }
    ensures { reached_of result ≡ reached (loaded_of tables.now) (callee_of callee.entry)
        (option_map shape_of receiver) }
{
    let class = receiver_class(tables, receiver);
    reached_by(tables, selected(tables, files, callee, class))
}
