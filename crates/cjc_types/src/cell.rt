//! Cells, the values of type inference for one word: what is known of it, their order and their join. They know
//! no instruction.

ghost use Rattle.std.specs.Prelude.{◌≡◌, ◌≤◌, ◌^◌, IfOk, IsTrue};
ghost use Rattle.cjc_types.specs.Cells.{IsCell, cell_rank, joined_cell, refs};

use crate::names::{self, Names};
use crate::recent::Sets;
use cjc_bytes::NoMemory;
use std::alloc::Global;

/// What is known of a word of a frame.
#[derive(Drop)]
pub enum Cell {
    /// It holds a boolean, byte, short or int.
    Number,
    /// It holds null or a reference to an object of one of these types. The types are given by the name of a class or
    /// interface, or by the descriptor of an array; they stand in ascending order, none twice.
    Refs(Names),
    /// It may hold anything, and nothing may be done with it.
    Unusable,
}

/// The cell of a set of types.
#[tactic(auto, unfolding(crate::specs::Cells::most_names))]
pub(crate) fn refs(types: Names) -> Cell
    ensures { result ≡ refs types }
{
    if types.items().len() <= 0xFFFF_FFFF {
        Cell::Refs(types)
    } else {
        Cell::Unusable
    }
}

/// The same cell once more.
pub(crate) fn copied(cell: &Cell) -> Result<Cell, NoMemory>
    ensures { IfOk result (λ copied. copied ≡ cell.now) }
{
    match cell {
        Cell::Number => Ok(Cell::Number),
        Cell::Refs(types) => Ok(Cell::Refs(types.shared()?)),
        Cell::Unusable => Ok(Cell::Unusable),
    }
}

/// The least cell above both, made of the first, at this place of its frame.
pub(crate) fn joined(
    alloc: Global,
    recent: &mut Sets,
    at: usize,
    left: Cell,
    right: &Cell,
) -> Result<Cell, NoMemory>
    requires left { IsCell left }
    requires right { IsCell right.now }
    ensures { IfOk result (λ joined. joined ≡ joined_cell left right.now) }
{
    match (left, right) {
        (Cell::Number, Cell::Number) => Ok(Cell::Number),
        (Cell::Refs(types), Cell::Refs(others)) => {
            Ok(refs(names::either(alloc, recent, at, types, others)?))
        }
        _ => Ok(Cell::Unusable),
    }
}

/// Whether to join the other cell changes nothing.
pub(crate) fn is_above(left: &Cell, right: &Cell) -> bool
    requires left { IsCell left.now }
    requires right { IsCell right.now }
    ensures { IsTrue result → joined_cell left.now right.now ≡ left.now }
{
    match (left, right) {
        (Cell::Number, Cell::Number) => true,
        (Cell::Refs(types), Cell::Refs(others)) => names::has_all(types.items(), others.items()),
        (Cell::Unusable, _) => true,
        _ => false,
    }
}

/// How high a cell stands in their order.
#[tactic(auto, unfolding(crate::specs::Cells::most_names))]
pub(crate) fn rank(cell: &Cell) -> u64
    requires { IsCell cell.now }
    ensures rank { result ≡ cell_rank cell.now }
    ensures small { result ≤ 2 ^ 32 }
{
    match cell {
        Cell::Number => 0,
        Cell::Refs(types) => types.items().len() as u64,
        Cell::Unusable => 1 << 32,
    }
}
