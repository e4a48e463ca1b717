//! What a method that a script names is on an object: by a method that is found from the named class upwards,
//! else by an interface above it (Java Card Virtual Machine Specification 2.2.2, section 7.5).

ghost use Rattle.std.specs.Prelude.{◌≡◌, option_map};
ghost use Rattle.cjc_card_semantics.specs.Machine.Calls.{sent, sent_as, sent_by, sent_to, start_selected};
ghost use Rattle.cjc_card_frame.specs.Objects.{class_of, shape_of};
ghost use Rattle.cjc_card_frame.specs.Kinds.{start_of, token_of};
ghost use Rattle.cjc_card_calls.specs.Files.Files.{AreFiles};
ghost use Rattle.cjc_card_calls.specs.Lines.Lines.{AreLines};
ghost use Rattle.cjc_card_link.specs.Tables.{AreKept, loaded_of};
ghost use Rattle.cjc_card_calls.specs.Names.Sending.{sent_from, sent_to_interface};

use crate::calls::dispatched_on;
use crate::files::Files;
use crate::lines::{Lines, is_of, shape_class};
use crate::names::interfaces::{
    interface_token, start_on_interface, start_selected, through_above,
};
use crate::names::tokens::token_from;
use cjc_card_frame::heap::{Class, Shape};
use cjc_card_frame::parts::{Start, Token};
use cjc_card_link::Tables;
use cjc_card_semantics::bytes::MemberId;

// A method that is found decides, also where it has no token; else an interface above the named class may have it.
fn sent_by(
    tables: &Tables<'_>,
    lines: &Lines,
    files: &Files<'_>,
    receiver: Option<Class>,
    named: Class,
    id: &MemberId,
    found: Option<Option<Token>>,
) -> Option<Start>
    requires tables { AreKept tables.now }
    requires lines { AreLines (loaded_of tables.now) lines.now }
    requires files { AreFiles (loaded_of tables.now) files.now }
    ensures { option_map start_of result ≡ start_selected (loaded_of tables.now) (sent_by (loaded_of tables.now)
        (option_map class_of receiver) (class_of named) id.now (option_map (option_map token_of) found)) }
{
    match found {
        Some(Some(token)) => start_selected(tables, dispatched_on(tables, files, receiver, token)),
        Some(None) => None,
        None => through_above(tables, lines, files, receiver, named, id),
    }
}

// The method that is found from a class decides.
fn sent_from(
    tables: &Tables<'_>,
    lines: &Lines,
    files: &Files<'_>,
    receiver: Option<Class>,
    named: Class,
    id: &MemberId,
    class: Option<Class>,
) -> Option<Start>
    requires tables { AreKept tables.now }
    requires lines { AreLines (loaded_of tables.now) lines.now }
    requires files { AreFiles (loaded_of tables.now) files.now }
    ensures { option_map start_of result ≡ start_selected (loaded_of tables.now) (sent_from (loaded_of tables.now)
        (option_map class_of receiver) (class_of named) id.now (option_map class_of class)) }
{
    let found = token_from(tables, files, class, id);
    sent_by(tables, lines, files, receiver, named, id, found)
}

// The method of a named interface, else of java/lang/Object.
fn sent_to_interface(
    tables: &Tables<'_>,
    lines: &Lines,
    files: &Files<'_>,
    receiver: Option<Class>,
    named: Class,
    id: &MemberId,
) -> Option<Start>
    requires tables { AreKept tables.now }
    requires lines { AreLines (loaded_of tables.now) lines.now }
    requires files { AreFiles (loaded_of tables.now) files.now }
    ensures { option_map start_of result ≡ start_selected (loaded_of tables.now)
        (sent_to_interface (loaded_of tables.now) (option_map class_of receiver) (class_of named) id.now) }
{
    match interface_token(tables, named, id) {
        Some(token) => start_on_interface(tables, files, receiver, named, token),
        None => {
            let object = tables.object_class();
            sent_from(tables, lines, files, receiver, named, id, object)
        }
    }
}

// The method of a named class on a receiver.
fn sent_to(
    tables: &Tables<'_>,
    lines: &Lines,
    files: &Files<'_>,
    receiver: Option<Class>,
    named: Class,
    id: &MemberId,
) -> Option<Start>
    requires tables { AreKept tables.now }
    requires lines { AreLines (loaded_of tables.now) lines.now }
    requires files { AreFiles (loaded_of tables.now) files.now }
    ensures { option_map start_of result ≡ start_selected (loaded_of tables.now) (sent_to (loaded_of tables.now)
        (option_map class_of receiver) (class_of named) id.now) }
{
    if tables.is_interface(named) {
        sent_to_interface(tables, lines, files, receiver, named, id)
    } else {
        sent_from(tables, lines, files, receiver, named, id, Some(named))
    }
}

// The method of a named class on an object of a type, where that is of the class.
fn sent_as(
    tables: &Tables<'_>,
    lines: &Lines,
    files: &Files<'_>,
    kind: Shape,
    id: &MemberId,
    named: Class,
) -> Option<Start>
    requires tables { AreKept tables.now }
    requires lines { AreLines (loaded_of tables.now) lines.now }
    requires files { AreFiles (loaded_of tables.now) files.now }
    ensures { option_map start_of result ≡ sent_as (loaded_of tables.now) (shape_of kind) id.now (class_of named) }
{
    if is_of(tables, lines, kind, Shape::OfClass(named)) {
        let receiver = shape_class(tables, kind);
        sent_to(tables, lines, files, receiver, named, id)
    } else {
        None
    }
}

/// The method of the group that a script sends to an object of a type.
pub fn sent(
    tables: &Tables<'_>,
    lines: &Lines,
    files: &Files<'_>,
    kind: Shape,
    id: &MemberId,
) -> Option<Start>
    requires tables { AreKept tables.now }
    requires lines { AreLines (loaded_of tables.now) lines.now }
    requires files { AreFiles (loaded_of tables.now) files.now }
    ensures { option_map start_of result ≡ sent (loaded_of tables.now) (shape_of kind) id.now }
{
    match tables.class_named(id.class.items()) {
        Some(named) => sent_as(tables, lines, files, kind, id, named),
        None => None,
    }
}
