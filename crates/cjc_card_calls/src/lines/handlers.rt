//! The handler that takes an exception: in the order of the table, up to a stop bit (Java Card Virtual Machine
//! Specification 2.2.2, section 6.9.1).

ghost use Rattle.std.specs.Prelude.{◌≡◌, true};
ghost use Rattle.cjc_card_semantics.specs.Machine.Methods.{covers, handler, handler_among, takes};
ghost use Rattle.cjc_card_frame.specs.Objects.{shape_of};
ghost use Rattle.cjc_card_frame.specs.Kinds.{code_of, pool_of};
ghost use Rattle.cjc_card_calls.specs.Lines.Handlers.{are_all_near, are_near};
ghost use Rattle.cjc_card_calls.specs.Lines.Lines.{AreLines};
ghost use Rattle.cjc_card_link.specs.Tables.{AreKept, loaded_of};

use crate::lines::kinds::is_of;
use crate::lines::lines::Lines;
use cjc_card_frame::heap::Shape;
use cjc_card_frame::parts::Code;
use cjc_card_link::Tables;
use cjc_card_semantics::capread::Handler;

// Offsets that 32 bits count are below this one.
const FAR: u64 = 1 << 32;

/// Whether 32 bits count the offsets of handlers.
pub fn are_near(handlers: &[Handler]) -> bool
    ensures { result ≡ are_near handlers.now }
{
    for handler in handlers {
        if handler.handler >= FAR {
            return false;
        }
    }
    true
}

// Whether an offset lies in a handler's range.
fn covers(handler: &Handler, at: u32) -> bool
    ensures { result ≡ covers handler.now at }
{
    let at = u64::from(at);
    handler.start <= at && at - handler.start < handler.length
}

// Whether a handler takes an exception of a type.
fn takes(tables: &Tables<'_>, lines: &Lines, part: u32, index: u64, kind: Shape) -> bool
    requires tables { AreKept tables.now }
    requires lines { AreLines (loaded_of tables.now) lines.now }
    ensures { result ≡ takes (loaded_of tables.now) part (pool_of (loaded_of tables.now) part) index (shape_of kind) }
{
    if index == 0 {
        return true;
    }
    match tables.class_of_entry(part, index) {
        Some(class) => is_of(tables, lines, kind, Shape::OfClass(class)),
        None => false,
    }
}

// The handler among some of a package.
#[tactic(auto, using(crate::proofs::LinesLaws::Near::near_here, crate::proofs::LinesLaws::Near::near_behind))]
fn handler_among(
    tables: &Tables<'_>,
    lines: &Lines,
    part: u32,
    handlers: &[Handler],
    at: u32,
    kind: Shape,
) -> Option<u32>
    requires tables { AreKept tables.now }
    requires lines { AreLines (loaded_of tables.now) lines.now }
    requires near { are_near handlers.now ≡ true }
    ensures { result ≡ handler_among (loaded_of tables.now) part (pool_of (loaded_of tables.now) part) handlers.now at
        (shape_of kind) }
{
    for handler in handlers {
        if covers(handler, at) {
            if takes(tables, lines, part, handler.catch_index, kind) {
                return Some(handler.handler as u32);
            }
            if handler.stop {
                return None;
            }
        }
    }
    None
}

/// The handler that takes an exception of a type at an offset.
pub fn handler(tables: &Tables<'_>, lines: &Lines, code: Code, at: u32, kind: Shape) -> Option<u32>
    requires tables { AreKept tables.now }
    requires lines { AreLines (loaded_of tables.now) lines.now }
    requires near { are_all_near (loaded_of tables.now) ≡ true }
    ensures { result ≡ handler (loaded_of tables.now) (code_of code) at (shape_of kind) }
{
    match tables.part(code.part) {
        Some(part) => {
            let handlers = part.method.handlers.items();
            handler_among(tables, lines, code.part, handlers, at, kind)
        }
        None => None,
    }
}
