//! How many words calls take: of a method of the package by its header, of an imported one by its descriptor.

ghost use Rattle.std.specs.Prelude.{◌≡◌, ◌+◌, ◌<◌, ◌≤◌, ◌^◌, ℕ, List, map, option_map, if◌then◌else◌, IfOk};
ghost use Rattle.cjc_card_semantics.specs.Bytecode.Arguments.{width, widths};
ghost use Rattle.cjc_card_semantics.specs.Script.Sorts.{signature_of, sort_by, sort_of};
ghost use Rattle.cjc_card_semantics.specs.Machine.Calls.{argument_words, words, words_of};
ghost use Rattle.cjc_card_semantics.specs.Machine.Dispatch.{At};
ghost use Rattle.cjc_card_frame.specs.Kinds.{callee_of};
ghost use Rattle.cjc_card_calls.specs.Files.Files.{AreFiles};
ghost use Rattle.cjc_card_link.specs.Tables.{AreKept, loaded_of};
ghost use Rattle.cjc_card_calls.specs.Found.{found_of};

use crate::calls::dispatch::{dispatched_above, dispatched_on};
use crate::calls::found::Found;
use crate::files::Files;
use cjc_card_frame::parts::Callee;
use cjc_card_link::Tables;
use cjc_card_semantics::bytes::{Desc, Kind, NoMemory};

// More bytes than the descriptors of any file have.
const TOO_LONG: usize = 1 << 32;

// The words of a value of a kind.
fn width(kind: Kind) -> u64
    ensures width { (class : List ℕ) → result ≡ width (sort_by kind class) }
    ensures few { result ≤ 2 }
{
    match kind {
        Kind::Int => 2,
        _ => 1,
    }
}

// The words of a descriptor's parameters.
#[tactic(auto, using(crate::proofs::CallsLaws::Widths::widths_next, crate::proofs::CallsLaws::Widths::widths_end))]
fn widths(desc: &Desc<'_>) -> u64
    ensures widths { result ≡ widths (map sort_of desc.now.params) }
    ensures few { result < 2 ^ 34 }
{
    let mut words = 0;
    for i in 0..desc.params() {
        words += width(desc.kind(i));
    }
    words
}

// The words of arguments, the receiver counted.
fn with_receiver(on_object: bool, words: u64) -> u64
    requires { words < 2 ^ 34 }
    ensures { result ≡ (if on_object then 1 + words else words) }
{
    if on_object { 1 + words } else { words }
}

// The words of the arguments of a method's descriptor. No memory is there for one of 2^32 bytes or more.
fn words_by(on_object: bool, desc: &[u8]) -> Result<Option<u64>, NoMemory>
    ensures { IfOk result (λ count. count ≡ option_map (argument_words on_object) (signature_of desc.now)) }
{
    if desc.len() >= TOO_LONG {
        return Err(NoMemory);
    }
    match Desc::parse(desc) {
        Ok(desc) => {
            if !desc.is_method() {
                return Ok(None);
            }
            Ok(Some(with_receiver(on_object, widths(&desc))))
        }
        Err(_) => Ok(None),
    }
}

// The words of a method of the package.
fn words_at(tables: &Tables<'_>, on_object: bool, part: u32, offset: u64) -> Option<u64>
    requires { AreKept tables.now }
    ensures { result ≡ words_of (loaded_of tables.now) on_object (At part offset) }
{
    match tables.start(part, offset) {
        Some(start) => Some(u64::from(start.nargs)),
        None => None,
    }
}

// The words of what was found.
fn words_of(tables: &Tables<'_>, on_object: bool, found: Found<'_>) -> Result<Option<u64>, NoMemory>
    requires { AreKept tables.now }
    ensures { IfOk result (λ count. count ≡ words_of (loaded_of tables.now) on_object (found_of found.entry)) }
{
    match found {
        Found::NotFound => Ok(None),
        Found::At(part, offset) => Ok(words_at(tables, on_object, part, offset)),
        Found::Outward(method) => words_by(on_object, method.desc),
    }
}

/// How many words a call takes, the receiver counted. No memory is there for a descriptor of 2^32 bytes or more.
pub fn words(
    tables: &Tables<'_>,
    files: &Files<'_>,
    callee: Callee<'_>,
) -> Result<Option<u64>, NoMemory>
    requires tables { AreKept tables.now }
    requires files { AreFiles (loaded_of tables.now) files.now }
    ensures { IfOk result (λ count. count ≡ words (loaded_of tables.now) (callee_of callee.entry)) }
{
    match callee {
        Callee::Fixed(on_object, part, offset) => Ok(words_at(tables, on_object, part, offset)),
        Callee::Outer(on_object, method) => words_by(on_object, method.desc),
        Callee::OnObject(class, token) => {
            words_of(
                tables,
                true,
                dispatched_on(tables, files, Some(class), token),
            )
        }
        Callee::OnSuper(class, token) => {
            words_of(tables, true, dispatched_above(tables, files, class, token))
        }
        Callee::OnInterface(count, _, _) => Ok(Some(u64::from(count))),
    }
}
