//! What names and descriptors say of values: the cell of a type, of a result, of an array and of its elements.
//! No class is looked up here.

ghost use Rattle.std.specs.Prelude.{◌≡◌, ◌+◌, ◌≤◌, ◌<◌, ◌^◌, [], ◌∷◌, ◌++◌, length, not, IfOk, OnOk, option_map};
ghost use Rattle.cjc_bytes.specs.Descriptor.{Part, part_at};
ghost use Rattle.cjc_world.specs.Subtype.{starts, inner};
ghost use Rattle.cjc_types.specs.Names.{IsSet};
ghost use Rattle.cjc_types.specs.Types.{parts, parts_or_none, cell_of, value_of, is_void, result_of, array_of, letter};
ghost use Rattle.cjc_types.specs.Types.{held, held_by, elements, element_of, as_reference as reference_of, with_held};

use crate::cell::{self, Cell};
use crate::names::{self, Name, Names};
use crate::shared::Shared;
use cjc_bytes::{Bytes, Desc, Kind, NoMemory, Row};
use cjc_code::jvm;
use std::alloc::Global;

/// The parts of a descriptor, or nothing where the bytes are none.
#[tactic(auto, unfolding(crate::specs::Types::parts))]
pub fn parsed(desc: &[u8]) -> Option<Desc<'_>>
    ensures { parts_or_none result ≡ parts desc.now }
{
    if desc.len() >= 1 << 32 {
        return None;
    }
    match Desc::parse(desc) {
        Ok(parsed) => Some(parsed),
        Err(_) => None,
    }
}

/// The number of parameters of a descriptor.
pub(crate) fn parameters(desc: &[u8]) -> usize
    ensures count { result ≡ length (parts desc.now).params }
    ensures small { result < 2 ^ 32 }
{
    match parsed(desc) {
        Some(parsed) => parsed.params() as usize,
        None => 0,
    }
}

/// What a value of a type is.
pub(crate) fn value_of(alloc: Global, kind: Kind, class: &[u8]) -> Result<Cell, NoMemory>
    ensures { IfOk result (λ cell. cell ≡ cell_of kind class.now) }
{
    match kind {
        Kind::Bool | Kind::Byte | Kind::Short | Kind::Int => Ok(Cell::Number),
        Kind::Ref => Ok(Cell::Refs(names::one_name(alloc, class)?)),
        Kind::Other | Kind::Void => Ok(Cell::Unusable),
    }
}

fn is_void(kind: Kind) -> bool
    ensures { result ≡ is_void kind }
{
    match kind {
        Kind::Void => true,
        _ => false,
    }
}

/// Whether a descriptor has a result.
pub(crate) fn has_result(desc: &[u8]) -> bool
    ensures { result ≡ not (is_void (parts desc.now).result.kind) }
{
    match parsed(desc) {
        Some(parsed) => !is_void(parsed.kind(parsed.params())),
        None => false,
    }
}

/// What a result of a descriptor puts on the stack.
pub(crate) fn given_by(alloc: Global, desc: &[u8]) -> Result<Row<Cell>, NoMemory>
    ensures { IfOk result (λ cells. cells ≡ result_of (parts desc.now).result) }
{
    let mut cells = Row::new(alloc);
    if let Some(parsed) = parsed(desc) {
        let last = parsed.params();
        let kind = parsed.kind(last);
        if !is_void(kind) {
            cells.push(value_of(alloc, kind, parsed.class(last))?)?;
        }
    }
    Ok(cells)
}

/// Whether there is a first byte and it is this one.
pub(crate) fn starts(first: u8, bytes: &[u8]) -> bool
    ensures { result ≡ starts first bytes.now }
{
    match bytes {
        [] => false,
        [byte, ..] => *byte == first,
    }
}

/// What stands between the first byte and the last.
fn inner(bytes: &[u8]) -> &[u8]
    ensures { result.now ≡ inner bytes.now }
{
    match bytes {
        [] => bytes,
        [_, rest @ ..] => &rest[..rest.len().saturating_sub(1)],
    }
}

/// The array type of elements of a class or array type.
pub(crate) fn array_of(alloc: Global, name: &[u8]) -> Result<Bytes, NoMemory>
    ensures { IfOk result (λ array. array ≡ array_of name.now) }
{
    let mut array = Vec::new(alloc);
    array.push(b'[')?;
    if starts(b'[', name) {
        array.extend_from_slice(name)?;
    } else {
        array.push(b'L')?;
        array.extend_from_slice(name)?;
        array.push(b';')?;
    }
    Ok(Row::of(array))
}

/// The letter of a newarray's type number.
pub(crate) fn letter(number: u8) -> u8
    ensures { result ≡ letter number }
{
    match number {
        4 => b'Z',
        5 => b'C',
        6 => b'F',
        7 => b'D',
        8 => b'B',
        9 => b'S',
        10 => b'I',
        _ => b'J',
    }
}

/// The type that an array of references holds.
pub(crate) fn held(array: &[u8]) -> Option<&[u8]>
    ensures { option_map (λ name. name.now) result ≡ held array.now }
{
    match array {
        [b'[', element @ ..] => {
            if starts(b'[', element) {
                Some(element)
            } else if starts(b'L', element) {
                Some(inner(element))
            } else {
                None
            }
        }
        _ => None,
    }
}

/// Puts the type that an array of references holds into the set; another type holds none.
fn put_held(alloc: Global, names: &mut Vec<Name>, array: &[u8]) -> Result<(), NoMemory>
    requires { IsSet names.old.items }
    ensures { OnOk result (names.new.items ≡ with_held (held array.now) names.old.items) }
{
    match held(array) {
        Some(name) => names::put(alloc, names, name),
        None => Ok(()),
    }
}

/// The types that the arrays of references among these hold.
fn elements(alloc: Global, types: &[Name]) -> Result<Names, NoMemory>
    ensures { IfOk result (λ held. held ≡ elements types.now []) }
{
    let mut names = Vec::new(alloc);
    for array in types {
        put_held(alloc, &mut names, array.items())?;
    }
    Shared::new(alloc, Row::of(names))
}

/// What an array load gives.
pub(crate) fn element_of(alloc: Global, opcode: u8, array: &Cell) -> Result<Cell, NoMemory>
    ensures { IfOk result (λ cell. cell ≡ element_of opcode array.now) }
{
    match array {
        Cell::Refs(types) if opcode == jvm::AALOAD => Ok(cell::refs(elements(
            alloc,
            types.items(),
        )?)),
        Cell::Refs(_) => Ok(Cell::Number),
        _ => Ok(Cell::Unusable),
    }
}

/// A reference, or else unusable.
pub(crate) fn as_reference(cell: &Cell) -> Result<Cell, NoMemory>
    ensures { IfOk result (λ reference. reference ≡ reference_of cell.now) }
{
    match cell {
        Cell::Refs(types) => Ok(Cell::Refs(types.shared()?)),
        _ => Ok(Cell::Unusable),
    }
}
