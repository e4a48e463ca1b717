//! The classes of export files by token, each found at once (Java Card Virtual Machine Specification 2.2.2,
//! chapter 5). It knows no component.

ghost use Rattle.std.specs.Prelude.{◌≡◌, IfOk, None, Some, get_or, length, map, set};
ghost use Rattle.cjc_check_index.specs.Lookup.Indexed.{places_of};
ghost use Rattle.cjc_check_index.specs.Lookup.Tokens.{or_else};

use cjc_check_rules::bytes::{NoMemory, Row};
use cjc_check_rules::export_file::{ExportClass, ExportTree};
use std::alloc::Global;

/// A place, or another where there is none.
fn or_else(place: Option<usize>, other: usize) -> Option<usize>
    ensures { result ≡ or_else place (Some other) }
{
    match place {
        Some(place) => Some(place),
        None => Some(other),
    }
}

/// Puts the place of a class down at its token, unless there is one.
fn with_place(places: Vec<Option<usize>>, token: u8, at: usize) -> Vec<Option<usize>>
    requires { length places.items ≡ 256 }
    ensures { result.items ≡ set places.items token (or_else (get_or places.items token None) (Some at)) }
{
    let mut places = places;
    let token = usize::from(token);
    places[token] = or_else(places[token], at);
    places
}

/// The places of classes by token: of several with one token the first.
fn places_of(alloc: Global, classes: &[ExportClass]) -> Result<Row<Option<usize>>, NoMemory>
    ensures { IfOk result (λ r. r ≡ places_of classes.now) }
{
    let mut places = vec![in alloc; None; 256]?;
    for (i, class) in classes.iter().enumerate() {
        places = with_place(places, class.token, i);
    }
    Ok(Row::of(places))
}

/// The places of the classes of each export file by token.
pub fn tokens_of(alloc: Global, exports: &[ExportTree]) -> Result<Row<Row<Option<usize>>>, NoMemory>
    ensures { IfOk result (λ r. r ≡ map (λ t. places_of t.classes) exports.now) }
{
    let mut tokens = Row::new(alloc);
    for tree in exports {
        tokens.push(places_of(alloc, tree.classes.items())?)?;
    }
    Ok(tokens)
}
