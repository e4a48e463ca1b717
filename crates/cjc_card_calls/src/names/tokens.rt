//! The tokens of virtual methods that are found by their names from a class upwards.

ghost use Rattle.std.specs.Prelude.{◌≡◌, option_map, suc};
ghost use Rattle.cjc_card_semantics.specs.Machine.Calls.{found_token, token_in_files};
ghost use Rattle.cjc_card_semantics.specs.Machine.Classes.{depth, external};
ghost use Rattle.cjc_card_semantics.specs.Machine.Dispatch.{Open, exported_line};
ghost use Rattle.cjc_card_frame.specs.Objects.{class_of};
ghost use Rattle.cjc_card_frame.specs.Kinds.{token_of};
ghost use Rattle.cjc_card_calls.specs.Files.Files.{AreFiles};
ghost use Rattle.cjc_card_link.specs.Tables.{AreKept, loaded_of};

use crate::files::Files;
use crate::names::described::{declared, described_token};
use crate::names::names::token_in_files;
use cjc_card_frame::heap::Class;
use cjc_card_frame::parts::Token;
use cjc_card_link::Tables;
use cjc_card_semantics::bytes::MemberId;

// The token of a method of an imported class.
fn open_token(token: Option<u8>) -> Option<Token>
    ensures { option_map token_of result ≡ option_map Open token }
{
    match token {
        Some(token) => Some(Token::Open(token)),
        None => None,
    }
}

// The token of the method that is found from an imported class, or that it has none.
fn token_abroad(
    tables: &Tables<'_>,
    files: &Files<'_>,
    tree: u32,
    number: u8,
    id: &MemberId,
) -> Option<Option<Token>>
    requires { AreFiles (loaded_of tables.now) files.now }
    ensures { option_map (option_map token_of) result ≡ option_map (option_map Open)
        (token_in_files (exported_line (loaded_of tables.now) (external (loaded_of tables.now) tree number)) id.now) }
{
    match token_in_files(files.line(tree, number), id) {
        Some(token) => Some(open_token(token)),
        None => None,
    }
}

// The token of the method that is found from a class, so many classes upwards at most, or that it has none.
fn found_token(
    tables: &Tables<'_>,
    files: &Files<'_>,
    depth: u32,
    class: Option<Class>,
    id: &MemberId,
) -> Option<Option<Token>>
    requires tables { AreKept tables.now }
    requires files { AreFiles (loaded_of tables.now) files.now }
    ensures { option_map (option_map token_of) result ≡ found_token (loaded_of tables.now) depth
        (option_map class_of class) id.now }
{
    if depth == 0 {
        return None;
    }
    match class {
        None => None,
        Some(Class::External(tree, number)) => token_abroad(tables, files, tree, number, id),
        Some(Class::Own(part, offset)) => match declared(tables, Class::Own(part, offset), id) {
            Some(described) => Some(described_token(described)),
            None => {
                let above = tables.superclass(part, offset);
                found_token(tables, files, depth - 1, above, id)
            }
        },
    }
}

/// The token of the method that is found from a class, or that it has none.
pub(crate) fn token_from(
    tables: &Tables<'_>,
    files: &Files<'_>,
    class: Option<Class>,
    id: &MemberId,
) -> Option<Option<Token>>
    requires tables { AreKept tables.now }
    requires files { AreFiles (loaded_of tables.now) files.now }
    ensures { option_map (option_map token_of) result ≡ found_token (loaded_of tables.now)
        (suc (depth (loaded_of tables.now))) (option_map class_of class) id.now }
{
    found_token(tables, files, tables.depth() + 1, class, id)
}
