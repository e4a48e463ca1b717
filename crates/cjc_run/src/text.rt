//! The line that says how a run ended. The program puts it to standard error. Nothing here takes memory.

ghost use Rattle.std.specs.Prelude.{◌≡◌, ◌∷◌, []};
ghost use Rattle.std.specs.List.{concat};
ghost use Rattle.cjc_shelf.specs.Sink.{Puts};
ghost use Rattle.cjc_run.specs.Text.{shown_part, refusal_line, status_lines};

use cjc_shelf::bytes::{Bytes, Refusal};
use cjc_shelf::command::{Status, put_pieces};
use cjc_shelf::{Sink, SinkFailed};
use itoa::Buffer;

const USAGE: &[u8] =
    b"usage: jcconv convert LIST DIR, check LIST DIR, jvm LIST SCRIPT N, card LIST DIR SCRIPT N, make NUMBER SIZE, verify LIST DIR, link GROUP SCRIPT N, linkjvm GROUP SCRIPT N, compat OLD NEW\n";

/// Puts the line of the status, and nothing at Done.
///
/// # Errors
///
/// `SinkFailed` where the sink's count of faults rose; a prefix of the line was put then.
pub fn status_line<O: Sink>(status: &Status, out: &mut O) -> Result<(), SinkFailed>
    ensures { Puts (status_lines status.now) (O.sunk out.old) (O.sunk out.new) result }
{
    match status {
        Status::Done => Ok(()),
        Status::Usage => out.put(USAGE),
        Status::Refused(refusal) => line(refusal, out),
        Status::Absent(name) => put_named(b"absent ", name, out),
        Status::TooLong(name) => put_named(b"too long ", name, out),
        Status::ShelfFault(name) => put_named(b"shelf fault ", name, out),
        Status::SinkFault => out.put(b"sink fault\n"),
        Status::NoMemory => out.put(b"no memory\n"),
    }
}

fn put_named<O: Sink>(words: &[u8], name: &Bytes, out: &mut O) -> Result<(), SinkFailed>
    ensures { Puts (concat (words.now ∷ name.now ∷ (10 ∷ []) ∷ [])) (O.sunk out.old) (O.sunk out.new) result }
{
    put_pieces(&[words, name.items(), b"\n"], out)
}

/// Puts the line of a refusal: `refused RULE FILE CLASS MEMBER OFFSET`, with `-` for an empty part.
///
/// # Errors
///
/// `SinkFailed` where the sink's count of faults rose; a prefix of the line was put then.
pub fn line<O: Sink>(refusal: &Refusal, out: &mut O) -> Result<(), SinkFailed>
    ensures { Puts (refusal_line refusal.now) (O.sunk out.old) (O.sunk out.new) result }
{
    let mut rule = Buffer::new();
    let mut offset = Buffer::new();
    let place = &refusal.place;
    put_pieces(
        &[
            b"refused ",
            rule.format(refusal.rule.0).as_bytes(),
            b" ",
            shown(&place.file),
            b" ",
            shown(&place.class),
            b" ",
            shown(&place.member),
            b" ",
            offset.format(place.offset).as_bytes(),
            b"\n",
        ],
        out,
    )
}

// The part, or a dash where it is empty.
fn shown(part: &Bytes) -> &[u8]
    ensures { result.now ≡ shown_part part.now }
{
    let bytes = part.items();
    if bytes.is_empty() { b"-" } else { bytes }
}
