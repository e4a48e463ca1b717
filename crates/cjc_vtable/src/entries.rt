//! Which entries the public and the package table of a class have: from the least token that the class
//! declares, overrides or got, and with none for an imported method. Called by `building`.

ghost use Rattle.std.specs.Prelude.{◌≡◌, ◌≤◌, length, IfOk};
ghost use Rattle.cjc_vtable.specs.Tables.{base, entries, is_own, methods, of_package};

use cjc_world::Found;
use cjc_world::bytes::{NoMemory, Row};
use std::alloc::Global;

/// Whether a token means a method that this class of the package declares or got.
fn is_own(class: u32, method: Option<Found>) -> bool
    ensures { result ≡ is_own class method }
{
    match method {
        None => false,
        Some(found) => !found.imported && found.class == class,
    }
}

/// A method of the package; None for an imported one.
fn of_package(method: Option<Found>) -> Option<Found>
    ensures { result ≡ of_package method }
{
    match method {
        Some(found) if !found.imported => method,
        _ => None,
    }
}

/// The least token that the class declares, overrides or got, or the next free one.
fn base(class: u32, row: &[Option<Found>]) -> usize
    ensures base { result ≡ base class row.now }
    ensures within { result ≤ length row.now }
{
    for (token, method) in row.iter().enumerate() {
        if is_own(class, *method) {
            return token;
        }
    }
    row.len()
}

/// The base of a class's table and its entries, from the methods by their tokens.
pub(crate) fn table(
    alloc: Global,
    class: u32,
    row: &[Option<Found>],
) -> Result<(u8, Row<Option<Found>>), NoMemory>
    ensures base { IfOk result (λ t. t.0 ≡ base class row.now) }
    ensures entries { IfOk result (λ t. t.1 ≡ entries class row.now) }
{
    let base = base(class, row);
    if base > 255 {
        return Err(NoMemory);
    }
    let mut entries = Row::new(alloc);
    for method in &row[base..] {
        entries.push(of_package(*method))?;
    }
    Ok((base as u8, entries))
}

/// The methods of a table that has one at each place.
pub(crate) fn methods(alloc: Global, entries: &[Option<Found>]) -> Result<Row<Found>, NoMemory>
    ensures { IfOk result (λ found. found ≡ methods entries.now) }
{
    let mut found = Row::new(alloc);
    for entry in entries {
        if let Some(method) = entry {
            found.push(*method)?;
        }
    }
    Ok(found)
}
