//! The intervals of values that no instruction computes. Called by steps.rt, elements.rt and entry.rt.

ghost use Rattle.std.specs.Prelude.{◌≡◌, ◌++◌, map, option_to_list, IfOk, OnOk};
ghost use Rattle.std.specs.List.{list_all};
ghost use Rattle.cjc_intervals.specs.Values.{boolean_range, byte_element_range, element_range, exactly};
ghost use Rattle.cjc_intervals.specs.Values.{is_boolean_array, length_range, range_of, range_of_kind, result_ranges};
ghost use Rattle.cjc_range.specs.Span.{byte_range, short_range};
ghost use Rattle.cjc_types.specs.Types.{is_void, parts};

use crate::intervals::full_interval;
use cjc_fixpoint::bytes::{Kind, NoMemory, Row};
use cjc_range::Interval;
use cjc_types::bytecode::jvm;
use cjc_types::{Cell, Name, parsed};
use std::alloc::Global;

/// One number.
pub(crate) fn exact(number: i32) -> Interval
    ensures { result ≡ exactly number }
{
    Interval {
        low: number,
        high: number,
    }
}

/// One number of 16 bits.
pub(crate) fn exact_short(number: i16) -> Interval
    ensures { result ≡ exactly number }
{
    exact(i32::from(number))
}

/// The numbers of a boolean.
pub(crate) fn boolean() -> Interval
    ensures { result ≡ boolean_range }
{
    Interval { low: 0, high: 1 }
}

fn byte() -> Interval
    ensures { result ≡ byte_range }
{
    Interval {
        low: -128,
        high: 127,
    }
}

fn short() -> Interval
    ensures { result ≡ short_range }
{
    Interval {
        low: -32768,
        high: 32767,
    }
}

/// As many elements as an array may have.
pub(crate) fn length() -> Interval
    ensures { result ≡ length_range }
{
    Interval {
        low: 0,
        high: 32767,
    }
}

/// The numbers of a type.
fn of_kind(kind: Kind) -> Interval
    ensures { result ≡ range_of_kind kind }
{
    match kind {
        Kind::Bool => boolean(),
        Kind::Byte => byte(),
        Kind::Short => short(),
        _ => full_interval(),
    }
}

fn is_void(kind: Kind) -> bool
    ensures { result ≡ is_void kind }
{
    match kind {
        Kind::Void => true,
        _ => false,
    }
}

/// What the result of a descriptor puts on the stack.
pub(crate) fn result_of(desc: &[u8]) -> Option<Interval>
    ensures { option_to_list result ≡ result_ranges (parts desc.now).result }
{
    let parts = parsed(desc)?;
    let kind = parts.kind(parts.params());
    if is_void(kind) {
        None
    } else {
        Some(of_kind(kind))
    }
}

/// Puts the numbers of the parameters at the end.
pub(crate) fn put_parameters(ranges: &mut Row<Interval>, desc: &[u8]) -> Result<(), NoMemory>
    ensures { OnOk result (ranges.new ≡ ranges.old ++ map range_of (parts desc.now).params) }
{
    if let Some(parts) = parsed(desc) {
        for (kind, _) in parts.parameters() {
            ranges.push(of_kind(kind))?;
        }
    }
    Ok(())
}

fn is_booleans(name: &[u8]) -> bool
    ensures { result ≡ is_boolean_array name.now }
{
    match name {
        [b'[', b'Z'] => true,
        _ => false,
    }
}

fn are_booleans(types: &[Name]) -> bool
    ensures { result ≡ list_all is_boolean_array types.now }
{
    for name in types {
        if !is_booleans(name.items()) {
            return false;
        }
    }
    true
}

/// What baload gives from an array of these types.
fn byte_element(array: &Cell) -> Interval
    ensures { result ≡ byte_element_range array.now }
{
    match array {
        Cell::Refs(types) if are_booleans(types.items()) => boolean(),
        Cell::Refs(_) => byte(),
        _ => full_interval(),
    }
}

/// What an array load by this opcode gives, from an array of these types.
pub(crate) fn element(opcode: u8, array: &Cell) -> Interval
    ensures { result ≡ element_range opcode array.now }
{
    match opcode {
        jvm::BALOAD => byte_element(array),
        jvm::SALOAD => short(),
        _ => full_interval(),
    }
}
