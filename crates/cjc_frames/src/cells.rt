//! Cells, the values of frames for one word: what is known of it, their order and their join. They know no instruction.

ghost use Rattle.std.specs.Prelude.{◌≡◌, ◌≤◌, ◌^◌, [], ◌∷◌, IfOk};
ghost use Rattle.cjc_types.specs.Cells.{IsCell, cell_rank, joined_cell, refs};
ghost use Rattle.cjc_types.specs.Types.{as_reference};
ghost use Rattle.cjc_types.specs.Rules.{is_number, is_reference};
ghost use Rattle.cjc_frames.specs.Types.{element_of, item_of};
ghost use Rattle.cjc_types.specs.declared.cell.Cell.TheVariants as known;

use crate::sets;
use cjc_fixpoint::bytes::{Bytes, NoMemory, Row};
use std::alloc::Global;
use std::marker::Model;

/// What is known of a word.
#[derive(Drop)]
pub(crate) enum Word {
    Number,
    /// A reference to an object of one of these types, or null.
    Refs(Row<Bytes>),
    /// It may hold anything, and nothing may be done with it.
    Unusable,
}

/// A word of a frame. Contracts see what is known of it.
#[derive(Drop)]
pub struct Cell {
    pub(crate) word: Word,
}

impl Model for Cell {
    ghost use Rattle.cjc_types.specs.declared.cell.Cell.{Cell as Known};
    ghost use Rattle.cjc_frames.specs.Known.{cell_in};

    ghost Value = { Known };

    ghost view = { λ c. cell_in c.word };
}

impl Cell {
    /// A number.
    pub(crate) fn number() -> Cell
        ensures { result ≡ known.Number }
    {
        Cell { word: Word::Number }
    }

    /// Anything.
    pub(crate) fn unusable() -> Cell
        ensures { result ≡ known.Unusable }
    {
        Cell {
            word: Word::Unusable,
        }
    }

    /// A reference of one of these types.
    #[tactic(auto, unfolding(cjc_types::specs::Cells::most_names))]
    pub(crate) fn refs(types: Row<Bytes>) -> Cell
        ensures { result ≡ refs types }
    {
        if types.items().len() <= 0xFFFF_FFFF {
            Cell {
                word: Word::Refs(types),
            }
        } else {
            Cell::unusable()
        }
    }

    /// Null.
    pub(crate) fn null(alloc: Global) -> Cell
        ensures { result ≡ known.Refs [] }
    {
        Cell {
            word: Word::Refs(Row::new(alloc)),
        }
    }

    /// A reference of this type.
    pub(crate) fn object(alloc: Global, type_: &[u8]) -> Result<Cell, NoMemory>
        ensures { IfOk result (λ cell. cell ≡ known.Refs (type_.now ∷ [])) }
    {
        Ok(Cell {
            word: Word::Refs(sets::one_type(alloc, type_)?),
        })
    }

    /// The same cell once more.
    pub(crate) fn copied(&self, alloc: Global) -> Result<Cell, NoMemory>
        ensures { IfOk result (λ copied. copied ≡ self.now) }
    {
        match &self.word {
            Word::Number => Ok(Cell::number()),
            Word::Refs(types) => Ok(Cell {
                word: Word::Refs(sets::copied(alloc, types.items())?),
            }),
            Word::Unusable => Ok(Cell::unusable()),
        }
    }

    /// The least cell above a number and this one.
    fn with_number(self) -> Cell
        ensures { result ≡ joined_cell known.Number self }
    {
        let Cell { word } = self;
        match word {
            Word::Number => Cell::number(),
            Word::Refs(_) => Cell::unusable(),
            Word::Unusable => Cell::unusable(),
        }
    }

    /// The least cell above references of these types and this one.
    fn with_types(self, alloc: Global, types: &[Bytes]) -> Result<Cell, NoMemory>
        requires { IsCell self }
        ensures { IfOk result (λ joined. joined ≡ joined_cell (known.Refs types.now) self) }
    {
        let Cell { word } = self;
        match word {
            Word::Number => Ok(Cell::unusable()),
            Word::Refs(others) => Ok(Cell::refs(sets::with_types(alloc, others, types)?)),
            Word::Unusable => Ok(Cell::unusable()),
        }
    }

    /// The least cell above both, made of the second.
    pub(crate) fn joined(&self, alloc: Global, other: Cell) -> Result<Cell, NoMemory>
        requires left { IsCell self.now }
        requires right { IsCell other }
        ensures { IfOk result (λ joined. joined ≡ joined_cell self.now other) }
    {
        match &self.word {
            Word::Number => Ok(other.with_number()),
            Word::Refs(types) => other.with_types(alloc, types.items()),
            Word::Unusable => Ok(Cell::unusable()),
        }
    }

    /// How high a cell stands in their order.
    #[tactic(auto, unfolding(cjc_types::specs::Cells::most_names))]
    pub(crate) fn rank(&self) -> u64
        requires { IsCell self.now }
        ensures rank { result ≡ cell_rank self.now }
        ensures small { result ≤ 2 ^ 32 }
    {
        match &self.word {
            Word::Number => 0,
            Word::Refs(types) => types.items().len() as u64,
            Word::Unusable => 1 << 32,
        }
    }

    /// Whether it is a number.
    pub(crate) fn is_number(&self) -> bool
        ensures { result ≡ is_number self.now }
    {
        match &self.word {
            Word::Number => true,
            Word::Refs(_) => false,
            Word::Unusable => false,
        }
    }

    /// Whether it is a reference.
    pub(crate) fn is_reference(&self) -> bool
        ensures { result ≡ is_reference self.now }
    {
        match &self.word {
            Word::Number => false,
            Word::Refs(_) => true,
            Word::Unusable => false,
        }
    }

    /// A reference, or else unusable.
    pub(crate) fn as_reference(&self, alloc: Global) -> Result<Cell, NoMemory>
        ensures { IfOk result (λ cell. cell ≡ as_reference self.now) }
    {
        match &self.word {
            Word::Number => Ok(Cell::unusable()),
            Word::Refs(_) => self.copied(alloc),
            Word::Unusable => Ok(Cell::unusable()),
        }
    }

    /// What an array of references holds.
    pub(crate) fn element(&self, alloc: Global) -> Result<Cell, NoMemory>
        ensures { IfOk result (λ cell. cell ≡ element_of self.now) }
    {
        match &self.word {
            Word::Number => Ok(Cell::unusable()),
            Word::Refs(types) => Ok(Cell::refs(sets::elements(alloc, types.items())?)),
            Word::Unusable => Ok(Cell::unusable()),
        }
    }

    /// What an array of numbers holds.
    pub(crate) fn item(&self) -> Cell
        ensures { result ≡ item_of self.now }
    {
        match &self.word {
            Word::Number => Cell::unusable(),
            Word::Refs(_) => Cell::number(),
            Word::Unusable => Cell::unusable(),
        }
    }
}
