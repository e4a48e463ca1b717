//! Dispatch by token on objects of a class (Java Card Virtual Machine Specification 2.2.2, sections 6.8 and 7.5).

ghost use Rattle.std.specs.Prelude.{◌≡◌, option_map};
ghost use Rattle.cjc_card_semantics.specs.Machine.Calls.{dispatched_on};
ghost use Rattle.cjc_card_semantics.specs.Machine.Dispatch.{above, dispatched, tower, tower_from};
ghost use Rattle.cjc_card_frame.specs.Objects.{class_of};
ghost use Rattle.cjc_card_frame.specs.Kinds.{token_of};
ghost use Rattle.cjc_card_calls.specs.Files.Files.{AreFiles};
ghost use Rattle.cjc_card_link.specs.Tables.{AreKept, loaded_of};
ghost use Rattle.cjc_card_calls.specs.Found.{found_of};

use crate::calls::found::Found;
use crate::calls::imported::{found_by, hidden_by};
use crate::files::Files;
use cjc_card_frame::heap::Class;
use cjc_card_frame::parts::Token;
use cjc_card_link::Tables;

// A virtual method by its token, so many classes upwards at most.
fn dispatched<'a>(
    tables: &Tables<'a>,
    files: &Files<'a>,
    class: Option<Class>,
    depth: u32,
    token: Token,
) -> Found<'a>
    requires tables { AreKept tables.now }
    requires files { AreFiles (loaded_of tables.now) files.now }
    ensures { found_of result ≡ dispatched (tower_from (loaded_of tables.now) depth (option_map class_of class))
        (token_of token) }
{
    match token {
        Token::Open(token) => found_by(files, tables.walk_open(class, depth, token), token),
        Token::Hidden(home, token) => hidden_by(tables.walk_hidden(class, depth, home, token)),
    }
}

/// A virtual method on a receiver of a class.
pub fn dispatched_on<'a>(
    tables: &Tables<'a>,
    files: &Files<'a>,
    receiver: Option<Class>,
    token: Token,
) -> Found<'a>
    requires tables { AreKept tables.now }
    requires files { AreFiles (loaded_of tables.now) files.now }
    ensures { found_of result ≡ dispatched_on (loaded_of tables.now) (option_map class_of receiver) (token_of token) }
{
    match receiver {
        Some(class) => dispatched(tables, files, Some(class), tables.depth() + 1, token),
        None => Found::NotFound,
    }
}

/// A virtual method of the superclass of a class.
pub fn dispatched_above<'a>(
    tables: &Tables<'a>,
    files: &Files<'a>,
    class: Class,
    token: Token,
) -> Found<'a>
    requires tables { AreKept tables.now }
    requires files { AreFiles (loaded_of tables.now) files.now }
    ensures { found_of result ≡ dispatched (above (tower (loaded_of tables.now) (class_of class))) (token_of token) }
{
    match class {
        Class::Own(part, offset) => {
            let class = tables.superclass(part, offset);
            dispatched(tables, files, class, tables.depth(), token)
        }
        Class::External(_, _) => Found::NotFound,
    }
}
