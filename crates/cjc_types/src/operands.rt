//! The cells of operand stacks. In memory the top lies last, so that an instruction takes cells off and puts
//! cells on without moving the rest, and the deeper cells lie in parts that the frames of a table share;
//! contracts see the cells, the top first. Called by state.rt, steps.rt and rules.rt. Knows no instruction.

ghost use Rattle.std.specs.Prelude.{◌≡◌, ◌<◌, ◌≤◌, ◌*◌, ◌^◌, ◌∷◌, ◌++◌, [], length, drop, sum_by, map, reverse, All};
ghost use Rattle.std.specs.Prelude.{IfOk, OnOk, IsTrue, MatchOption};
ghost use Rattle.cjc_fixpoint.specs.Lattice.{joined as joined_in_turn};
ghost use Rattle.cjc_types.specs.Cells.{IsCell, cell_rank, joined_cell};
ghost use Rattle.cjc_types.specs.Steps.{operand};
ghost use Rattle.cjc_types.specs.Working.Parts.{bottom_up};
ghost use Rattle.cjc_types.specs.declared.cell.Cell.TheVariants as cells_of;

use crate::cell::{self, Cell};
use crate::recent::Recent;
use crate::shared::Shared;
use crate::state::{are_above, cells_rank, copied_cells, joined_cells};
use cjc_bytes::{NoMemory, Row};
use std::alloc::Global;
use std::marker::Model;
use std::mem;

/// How many cells lie above the shared parts at most.
const OWN_CELLS: usize = 128;

/// Cells that the frames of a table share, the top last.
type Part = Shared<Row<Cell>>;

/// The cells of an operand stack. Contracts see the list of them, the top first.
#[derive(Drop)]
pub struct Operands {
    /// The deeper cells in parts, from the bottom up.
    parts: Vec<Part>,
    /// How many cells the parts have.
    deep: usize,
    /// The cells above them, the top last.
    own: Vec<Cell>,
}

impl Model for Operands {
    ghost use Rattle.std.specs.Prelude.{◌≡◌, ◌<◌, ◌+◌, ◌^◌, ◌++◌, List, length, reverse};
    ghost use Rattle.cjc_types.specs.Working.Parts.{bottom_up};
    ghost use Rattle.cjc_types.specs.declared.cell.Cell.{Cell as Known};

    ghost Value = { List Known };

    ghost view = { λ s. reverse (bottom_up s.parts.items ++ s.own.items) };

    ghost invariant = { λ s. (s.deep ≡ length (bottom_up s.parts.items)) × (s.deep + length s.own.items < 2 ^ 64) };
}

impl Operands {
    /// The empty stack. Takes no memory.
    pub(crate) fn new(alloc: Global) -> Operands
        ensures { result ≡ [] }
    {
        Operands {
            parts: Vec::new(alloc),
            deep: 0,
            own: Vec::new(alloc),
        }
    }

    /// The number of cells.
    pub fn len(&self) -> usize
        ensures { result ≡ length self.now }
    {
        self.deep + self.own.len()
    }

    /// The k-th cell from the top, if there is one.
    pub fn get(&self, k: usize) -> Option<&Cell>
        ensures { MatchOption result ((length self.now ≤ k) × (operand self.now k ≡ cells_of.Unusable))
            (λ cell. (k < length self.now) × (cell.now ≡ operand self.now k)) }
    {
        let count = self.own.len();
        if k < count {
            Some(&self.own[count - 1 - k])
        } else {
            deep_cell(&self.parts, k - count)
        }
    }

    /// Puts a cell on the top.
    pub(crate) fn push(&mut self, alloc: Global, cell: Cell) -> Result<(), NoMemory>
        ensures { OnOk result (self.new ≡ cell ∷ self.old) }
    {
        if self.own.len() >= OWN_CELLS {
            self.share_own(alloc)?;
        }
        self.put(cell)
    }

    /// Puts a cell on the top of the own cells. A stack that no word could count is as much as want of memory.
    fn put(&mut self, cell: Cell) -> Result<(), NoMemory>
        ensures { OnOk result (self.new ≡ cell ∷ self.old) }
    {
        if self.deep + self.own.len() == usize::MAX {
            return Err(NoMemory);
        }
        self.own.push(cell)?;
        Ok(())
    }

    /// Makes a part of the own cells.
    fn share_own(&mut self, alloc: Global) -> Result<(), NoMemory>
        ensures { OnOk result (self.new ≡ self.old) }
    {
        let own = mem::replace(&mut self.own, Vec::new(alloc));
        let count = own.len();
        let part = Shared::new(alloc, Row::of(own))?;
        self.parts.push(part)?;
        self.deep += count;
        Ok(())
    }

    /// The stack without so many cells of its top.
    pub(crate) fn below(self, alloc: Global, count: usize) -> Result<Operands, NoMemory>
        ensures { IfOk result (λ below. below ≡ drop count self) }
    {
        let Operands { parts, deep, own } = self;
        let mut parts = parts;
        let mut deep = deep;
        let mut own = own;
        let mut left = count;
        while left >= own.len() {
            let Some(part) = parts.pop() else {
                // (what is put on next finds the memory of these cells)
                own.clear();
                return Ok(Operands {
                    parts: Vec::new(alloc),
                    deep: 0,
                    own,
                });
            };
            left -= own.len();
            deep -= part.items().len();
            own = copied_cells(alloc, part.items())?.into_vec();
        }
        let kept = own.len() - left;
        own.truncate(kept);
        Ok(Operands { parts, deep, own })
    }

    /// The same stack once more.
    pub(crate) fn copied(&self, alloc: Global) -> Result<Operands, NoMemory>
        ensures { IfOk result (λ copied. copied ≡ self.now) }
    {
        let parts = shared_parts(alloc, &self.parts)?;
        let own = copied_cells(alloc, &self.own)?.into_vec();
        Ok(Operands {
            parts,
            deep: self.deep,
            own,
        })
    }

    /// The cells of two stacks of one height, joined in turn.
    pub(crate) fn joined(
        self,
        alloc: Global,
        recent: &mut Recent,
        other: &Operands,
    ) -> Result<Operands, NoMemory>
        requires sized { length self ≡ length other.now }
        requires left { All IsCell self }
        requires right { All IsCell other.now }
        ensures { IfOk result (λ joined. joined ≡ joined_in_turn joined_cell self other.now) }
    {
        let Operands { parts, deep, own } = self;
        if are_alike(&parts, &other.parts) && own.len() == other.own.len() {
            let parts = joined_parts(alloc, recent, parts, &other.parts)?;
            let own = joined_cells(alloc, &mut recent.own, own, &other.own)?;
            Ok(Operands { parts, deep, own })
        } else {
            let left = all_cells(alloc, &parts, &own)?;
            let right = all_cells(alloc, &other.parts, &other.own)?;
            let own = joined_cells(alloc, &mut recent.own, left, &right)?;
            Ok(Operands {
                parts: Vec::new(alloc),
                deep: 0,
                own,
            })
        }
    }

    /// Whether to join the cells of another stack of this height changes none.
    pub(crate) fn is_above(&self, other: &Operands) -> bool
        requires sized { length self.now ≡ length other.now }
        requires left { All IsCell self.now }
        requires right { All IsCell other.now }
        ensures { IsTrue result → joined_in_turn joined_cell self.now other.now ≡ self.now }
    {
        if !are_alike(&self.parts, &other.parts) || self.own.len() != other.own.len() {
            return false;
        }
        are_parts_above(&self.parts, &other.parts) && are_above(&self.own, &other.own)
    }

    /// How high the cells stand together.
    pub(crate) fn rank(&self) -> u64
        requires few { length self.now ≤ 393216 }
        requires own { All IsCell self.now }
        ensures rank { result ≡ sum_by cell_rank self.now }
        ensures small { result ≤ length self.now * 2 ^ 32 }
    {
        parts_rank(&self.parts) + cells_rank(&self.own)
    }
}

/// The k-th cell from the top of some parts, if there is one.
fn deep_cell(parts: &[Part], k: usize) -> Option<&Cell>
    ensures { MatchOption result (length (bottom_up parts.now) ≤ k)
        (λ cell. (k < length (bottom_up parts.now)) × (cell.now ≡ operand (reverse (bottom_up parts.now)) k)) }
{
    let mut left = k;
    let mut count = parts.len();
    while count > 0 {
        count -= 1;
        let cells = parts[count].items();
        if left < cells.len() {
            return Some(&cells[cells.len() - 1 - left]);
        }
        left -= cells.len();
    }
    None
}

/// The same parts with one owner more.
fn shared_parts(alloc: Global, parts: &[Part]) -> Result<Vec<Part>, NoMemory>
    ensures { IfOk result (λ shared. shared.items ≡ parts.now) }
{
    let mut shared = Vec::with_capacity(alloc, parts.len())?;
    for part in parts {
        shared.push(part.shared()?)?;
    }
    Ok(shared)
}

/// Whether the parts of two stacks have as many cells each.
fn are_alike(left: &[Part], right: &[Part]) -> bool
    ensures { IsTrue result → map length left.now ≡ map length right.now }
{
    if left.len() != right.len() {
        return false;
    }
    for i in 0..left.len() {
        if left[i].items().len() != right[i].items().len() {
            return false;
        }
    }
    true
}

/// The cells of a part joined in turn with those of another of this height. Where that is one of the two, it stays
/// shared, and else with what was made last at this place of the stack.
fn joined_part(
    alloc: Global,
    recent: &mut Recent,
    at: usize,
    left: &Part,
    right: &Part,
) -> Result<Part, NoMemory>
    requires sized { length left.now ≡ length right.now }
    requires left { All IsCell left.now }
    requires right { All IsCell right.now }
    ensures { IfOk result (λ part. part ≡ joined_in_turn joined_cell left.now right.now) }
{
    if are_above(left.items(), right.items()) {
        return left.shared();
    }
    if are_above(right.items(), left.items()) {
        return right.shared();
    }
    let cells = copied_cells(alloc, left.items())?.into_vec();
    let cells = joined_cells(alloc, &mut recent.deep, cells, right.items())?;
    recent.shared_part(alloc, at, Row::of(cells))
}

/// The parts of two stacks joined in turn, made of the first ones.
fn joined_parts(
    alloc: Global,
    recent: &mut Recent,
    left: Vec<Part>,
    right: &[Part],
) -> Result<Vec<Part>, NoMemory>
    requires sized { map length left.items ≡ map length right.now }
    requires left { All IsCell (bottom_up left.items) }
    requires right { All IsCell (bottom_up right.now) }
    ensures { IfOk result (λ parts. parts.items ≡ joined_in_turn (joined_in_turn joined_cell) left.items right.now) }
{
    let mut parts = left;
    for i in 0..right.len() {
        let part = joined_part(alloc, recent, i, &parts[i], &right[i])?;
        parts[i] = part;
    }
    Ok(parts)
}

/// Whether to join the other parts in turn changes none.
fn are_parts_above(left: &[Part], right: &[Part]) -> bool
    requires sized { map length left.now ≡ map length right.now }
    requires left { All IsCell (bottom_up left.now) }
    requires right { All IsCell (bottom_up right.now) }
    ensures { IsTrue result → joined_in_turn (joined_in_turn joined_cell) left.now right.now ≡ left.now }
{
    for i in 0..left.len() {
        if !are_above(left[i].items(), right[i].items()) {
            return false;
        }
    }
    true
}

/// How high the cells of parts stand together.
fn parts_rank(parts: &[Part]) -> u64
    requires few { length (bottom_up parts.now) ≤ 393216 }
    requires own { All IsCell (bottom_up parts.now) }
    ensures rank { result ≡ sum_by cell_rank (bottom_up parts.now) }
    ensures small { result ≤ length (bottom_up parts.now) * 2 ^ 32 }
{
    let mut total = 0;
    for part in parts {
        total += cells_rank(part.items());
    }
    total
}

/// Puts the same cells once more at the end.
fn put_copies(alloc: Global, all: &mut Vec<Cell>, cells: &[Cell]) -> Result<(), NoMemory>
    ensures { OnOk result (all.new.items ≡ all.old.items ++ cells.now) }
{
    for cell in cells {
        all.push(cell::copied(cell)?)?;
    }
    Ok(())
}

/// The cells of parts and the own ones above them, once more.
fn all_cells(alloc: Global, parts: &[Part], own: &[Cell]) -> Result<Vec<Cell>, NoMemory>
    ensures { IfOk result (λ all. all.items ≡ bottom_up parts.now ++ own.now) }
{
    let mut all = Vec::new(alloc);
    for part in parts {
        put_copies(alloc, &mut all, part.items())?;
    }
    put_copies(alloc, &mut all, own)?;
    Ok(all)
}

/// Puts cells on the top, the last of them first.
pub(crate) fn put_on(alloc: Global, stack: &mut Operands, cells: Row<Cell>) -> Result<(), NoMemory>
    ensures { OnOk result (stack.new ≡ cells ++ stack.old) }
{
    let mut left = cells.into_vec();
    while let Some(cell) = left.pop() {
        stack.push(alloc, cell)?;
    }
    Ok(())
}
