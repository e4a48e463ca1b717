//! ReferenceLocation lists the indices into the constant pool (Java Card Virtual Machine Specification 2.2.2, section
//! 6.11). It knows the indices of instructions, and handlers.

ghost use Rattle.std.specs.Prelude.{◌≡◌, ◌+◌, ◌-◌, ◌*◌, ◌<◌, ◌^◌, ◌++◌, ◌==◌, IfOk, length, map, OnOk};
ghost use Rattle.cjc_check.specs.Jumps.Listing.{catch_place, place_of, wanted_ones, wanted_twos};
ghost use Rattle.cjc_check.specs.Jumps.Offsets.{operand_at};
ghost use Rattle.cjc_check_rules.specs.Complete.{locations_size};
ghost use Rattle.cjc_check_rules.specs.Locations.{are_listed, catch_places, distance, distances, places_of};
ghost use Rattle.cjc_check_rules.specs.Spots.{first, in_info, unless};

use crate::jumps::indices::IndexAt;
use cjc_capread::bytes::{NoMemory, Row};
use cjc_capread::{Handler, ReferenceLocation};
use cjc_check_rules::ComponentPlace;
use cjc_check_tables::check_index::lookup::{Comparison, earlier, first_beside, unless};
use std::alloc::Global;

/// The tag of ReferenceLocation.
const LOCATIONS: u8 = 9;

/// Puts the place of an index at the end, where it has so many bytes.
fn put_place(places: &mut Row<u32>, size: u8, index: IndexAt) -> Result<(), NoMemory>
    ensures { OnOk result (places.new ≡ places.old ++ place_of size (operand_at index)) }
{
    if index.size == size {
        places.push(index.at)
    } else {
        Ok(())
    }
}

/// Puts the places of indices of so many bytes at the end.
fn put_places(places: &mut Row<u32>, size: u8, indices: &[IndexAt]) -> Result<(), NoMemory>
    ensures { OnOk result (places.new ≡ places.old ++ places_of size (map operand_at indices.now)) }
{
    for index in indices {
        put_place(places, size, *index)?;
    }
    Ok(())
}

/// Puts the place of a catch index that is not 0 at the end, where the handler begins at an offset.
fn put_catch(places: &mut Row<u32>, at: u32, handler: Handler) -> Result<(), NoMemory>
    requires { 11 + at < 2 ^ 32 }
    ensures { OnOk result (places.new ≡ places.old ++ catch_place at handler) }
{
    if handler.catch_index == 0 {
        Ok(())
    } else {
        places.push(at + 6)
    }
}

/// Puts the places of catch indices that are not 0 at the end, where the first handler begins at an offset.
fn put_catches(places: &mut Row<u32>, from: u32, handlers: &[Handler]) -> Result<(), NoMemory>
    requires { 3 + from + 8 * length handlers.now < 2 ^ 32 }
    ensures { OnOk result (places.new ≡ places.old ++ catch_places from handlers.now) }
{
    let mut at = from;
    for handler in handlers {
        put_catch(places, at, *handler)?;
        at += 8;
    }
    Ok(())
}

/// Puts a distance at the end.
fn put_distance(bytes: &mut Row<u8>, by: u32) -> Result<(), NoMemory>
    ensures { OnOk result (bytes.new ≡ bytes.old ++ distance by) }
{
    let mut left = by;
    while left >= 255 {
        bytes.push(255)?;
        left -= 255;
    }
    bytes.push(left as u8)
}

/// How far a place is from one before it.
fn gap(before: u32, at: u32) -> u32
    ensures { result ≡ at - before }
{
    at.saturating_sub(before)
}

/// The distances of places, each from the one before and the first from the start.
fn distances(alloc: Global, places: &[u32]) -> Result<Row<u8>, NoMemory>
    ensures { IfOk result (λ b. b ≡ distances 0 places.now) }
{
    let mut bytes = Row::new(alloc);
    let mut before = 0;
    for at in places {
        put_distance(&mut bytes, gap(before, *at))?;
        before = *at;
    }
    Ok(bytes)
}

/// The distances of indices of one byte.
fn wanted_ones(alloc: Global, indices: &[IndexAt]) -> Result<Row<u8>, NoMemory>
    ensures { IfOk result (λ b. b ≡ wanted_ones (map operand_at indices.now)) }
{
    let mut places = Row::new(alloc);
    put_places(&mut places, 1, indices)?;
    distances(alloc, places.items())
}

/// The distances of catch indices and of indices of two bytes.
fn wanted_twos(
    alloc: Global,
    handlers: &[Handler],
    indices: &[IndexAt],
) -> Result<Row<u8>, NoMemory>
    requires { 4 + 8 * length handlers.now < 2 ^ 32 }
    ensures { IfOk result (λ b. b ≡ wanted_twos handlers.now (map operand_at indices.now)) }
{
    let mut places = Row::new(alloc);
    put_catches(&mut places, 1, handlers)?;
    put_places(&mut places, 2, indices)?;
    distances(alloc, places.items())
}

/// Whether bytes are the same.
struct Same;

impl Comparison<u8, u8> for Same {
    ghost broken = { λ s at b w. unless (b == w) (in_info 9 at) };

    ghost fits = { λ s. Unit {0} };

    fn first_between(&self, at: u32, item: &u8, other: &u8) -> Option<ComponentPlace> {
        unless(*item == *other, LOCATIONS, at)
    }
}

/// The first of bytes behind their number that differs from what is wanted, the number standing at an offset.
#[tactic(auto, using(cjc_check_rules::proofs::Firsts::first_append, crate::proofs::JumpsLaws::Listed::one_each))]
fn are_listed(at: u32, listed: &[u8], wanted: &[u8]) -> Option<ComponentPlace>
    requires { 5 + at + length listed.now < 2 ^ 32 }
    ensures { result ≡ first (are_listed at listed.now wanted.now) }
{
    let count = unless(listed.len() == wanted.len(), LOCATIONS, at);
    earlier(count, first_beside(&Same, at + 2, listed, wanted))
}

/// Where 714 is broken first: a count or a byte that differs from what is wanted.
pub fn location_spot(
    alloc: Global,
    locations: &ReferenceLocation,
    handlers: &[Handler],
    indices: &[IndexAt],
) -> Result<Option<ComponentPlace>, NoMemory>
    requires handlers { 4 + 8 * length handlers.now < 2 ^ 32 }
    requires locations { 3 + locations_size locations.now < 2 ^ 32 }
    ensures { IfOk result (λ s. s
        ≡ first (are_listed 0 locations.now.one_byte (wanted_ones (map operand_at indices.now))
        ++ are_listed (2 + length locations.now.one_byte) locations.now.two_byte (wanted_twos handlers.now
        (map operand_at indices.now)))) }
{
    let ones = wanted_ones(alloc, indices)?;
    let twos = wanted_twos(alloc, handlers, indices)?;
    let one_wanted = ones.items();
    let two_wanted = twos.items();
    let one_byte = locations.one_byte.items();
    let two_byte = locations.two_byte.items();
    let first = are_listed(0, one_byte, one_wanted);
    let second = are_listed(2 + one_byte.len() as u32, two_byte, two_wanted);
    Ok(earlier(first, second))
}
