//! What joins made last, place by place. Where ways meet alike at many marks their joins are made again and again, and
//! what is made equal once more is shared instead. Called by names.rt, state.rt and operands.rt. Contracts know nothing
//! of what is kept here: it is compared before it is shared.

ghost use Rattle.std.specs.Prelude.{◌≡◌, IfOk, IsTrue};

use crate::cell::{self, Cell};
use crate::names::{Name, Names};
use crate::shared::Shared;
use cjc_bytes::{NoMemory, Row};
use std::alloc::Global;

/// How many places have a set of their own: those of all locals that a frame of the card can have, and as many of a
/// stack.
const PLACES: usize = 256;

/// The sets that joins made last, at the places of some cells.
#[derive(Drop)]
pub(crate) struct Sets {
    sets: Vec<Option<Names>>,
}

/// What joins made last.
#[derive(Drop)]
pub(crate) struct Recent {
    /// In locals.
    pub(crate) locals: Sets,
    /// In the cells of stacks above their parts.
    pub(crate) own: Sets,
    /// In the cells of parts.
    pub(crate) deep: Sets,
    /// The parts themselves, from the bottom of a stack up.
    parts: Vec<Option<Shared<Row<Cell>>>>,
}

/// Whether two sets have the same names.
fn are_same(left: &[Name], right: &[Name]) -> bool
    ensures { IsTrue result → left.now ≡ right.now }
{
    if left.len() != right.len() {
        return false;
    }
    for i in 0..left.len() {
        if left[i].items() != right[i].items() {
            return false;
        }
    }
    true
}

/// Whether two parts have the same cells.
fn are_same_cells(left: &[Cell], right: &[Cell]) -> bool
    ensures { IsTrue result → left.now ≡ right.now }
{
    if left.len() != right.len() {
        return false;
    }
    for i in 0..left.len() {
        if !is_same(&left[i], &right[i]) {
            return false;
        }
    }
    true
}

/// Whether two cells are the same.
fn is_same(left: &Cell, right: &Cell) -> bool
    ensures { IsTrue result → left.now ≡ right.now }
{
    match (left, right) {
        (Cell::Number, Cell::Number) | (Cell::Unusable, Cell::Unusable) => true,
        (Cell::Refs(types), Cell::Refs(others)) => are_same(types.items(), others.items()),
        _ => false,
    }
}

impl Sets {
    /// Nothing was made yet. Takes no memory.
    pub(crate) fn new(alloc: Global) -> Sets {
        Sets {
            sets: Vec::new(alloc),
        }
    }

    /// Forgets the set of a place where it is this very one, so that this may be changed in place.
    pub(crate) fn forget(&mut self, at: usize, set: &Names) {
        if let Some(kept) = self.sets.get_mut(at) {
            let is_kept = match kept {
                Some(kept) => kept.is_one_with(set),
                None => false,
            };
            if is_kept {
                *kept = None;
            }
        }
    }

    /// Keeps what was made at a place.
    fn keep(&mut self, at: usize, set: Names) -> Result<(), NoMemory> {
        if at >= PLACES {
            return Ok(());
        }
        while self.sets.len() <= at {
            self.sets.push(None)?;
        }
        self.sets[at] = Some(set);
        Ok(())
    }

    /// The set that was made; where what was made last at this place has the same names, that one.
    pub(crate) fn shared(&mut self, at: usize, made: Names) -> Result<Names, NoMemory>
        ensures { IfOk result (λ set. set ≡ made) }
    {
        if let Some(Some(last)) = self.sets.get(at) {
            if are_same(last.items(), made.items()) {
                return last.shared();
            }
        }
        self.keep(at, made.shared()?)?;
        Ok(made)
    }
}

impl Recent {
    /// Nothing was made yet. Takes no memory.
    pub(crate) fn new(alloc: Global) -> Recent {
        Recent {
            locals: Sets::new(alloc),
            own: Sets::new(alloc),
            deep: Sets::new(alloc),
            parts: Vec::new(alloc),
        }
    }

    /// Keeps the part that was made at a place.
    fn keep_part(&mut self, at: usize, part: Shared<Row<Cell>>) -> Result<(), NoMemory> {
        while self.parts.len() <= at {
            self.parts.push(None)?;
        }
        self.parts[at] = Some(part);
        Ok(())
    }

    /// The cells that were made as a part; where the part that was made last at this place has the same cells, that
    /// one.
    pub(crate) fn shared_part(
        &mut self,
        alloc: Global,
        at: usize,
        made: Row<Cell>,
    ) -> Result<Shared<Row<Cell>>, NoMemory>
        ensures { IfOk result (λ part. part ≡ made) }
    {
        if let Some(Some(last)) = self.parts.get(at) {
            if are_same_cells(last.items(), made.items()) {
                return last.shared();
            }
        }
        let part = Shared::new(alloc, made)?;
        self.keep_part(at, part.shared()?)?;
        Ok(part)
    }
}
