//! What is found of a member, written down as `own CLASS PLACE` or `imported CLASS PLACE`, or `none`.

use cjc_tests_files::cases::{cut, is_number};
use cjc_vtable::world::Found;

fn is_place(found: Found, words: &str) -> bool {
    let (kind, words) = cut(words, " ");
    let (class, member) = cut(words, " ");
    let is_kind = if found.imported {
        kind == "imported"
    } else {
        kind == "own"
    };
    is_kind && is_number(class, found.class) && is_number(member, found.member)
}

/// Whether these words say what was found, where `none` is nothing.
pub(crate) fn is_found(found: Option<Found>, words: &str) -> bool {
    match found {
        Some(found) => is_place(found, words),
        None => words == "none",
    }
}
