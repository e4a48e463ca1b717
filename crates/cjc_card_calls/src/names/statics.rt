//! The static method that an entry of a script calls, by class, name and descriptor. Instructions never come
//! here: they have tokens.

ghost use Rattle.std.specs.Prelude.{◌≡◌, option_map};
ghost use Rattle.cjc_card_semantics.specs.Machine.Calls.{called, static_start};
ghost use Rattle.cjc_card_frame.specs.Kinds.{start_of};
ghost use Rattle.cjc_card_link.specs.Tables.{AreKept, loaded_of};
ghost use Rattle.cjc_card_calls.specs.Names.Described.{described_of};

use crate::names::described::{Described, declared};
use cjc_card_frame::parts::Start;
use cjc_card_link::Tables;
use cjc_card_semantics::bytes::{MemberId, is_static};

// A method that is static.
fn static_start(tables: &Tables<'_>, described: Described) -> Option<Start>
    requires { AreKept tables.now }
    ensures { option_map start_of result ≡ static_start (loaded_of tables.now) (described_of described) }
{
    if is_static(u16::from(described.method.flags)) {
        tables.start(described.part, described.method.offset)
    } else {
        None
    }
}

/// The static method that the named class of a package declares.
pub fn called(tables: &Tables<'_>, id: &MemberId) -> Option<Start>
    requires { AreKept tables.now }
    ensures { option_map start_of result ≡ called (loaded_of tables.now) id.now }
{
    match tables.class_named(id.class.items()) {
        Some(class) => match declared(tables, class, id) {
            Some(described) => static_start(tables, described),
            None => None,
        },
        None => None,
    }
}
