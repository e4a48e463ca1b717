//! Lists of intervals, and operand stacks of them. In memory the top of a stack lies last, so that an instruction takes
//! intervals off and puts them on without moving the rest; contracts see it first. Knows no instruction.

ghost use Rattle.std.specs.Prelude.{◌≡◌, ◌≤◌, ◌*◌, ◌^◌, ◌∷◌, [], length, drop, sum_by, All, IfOk, OnOk, IsTrue};
ghost use Rattle.cjc_fixpoint.specs.Lattice.{joined};
ghost use Rattle.cjc_range.specs.Rows.{join_row};
ghost use Rattle.cjc_range.specs.Span.{full, width, IsWord};
ghost use Rattle.cjc_intervals.specs.Steps.{operand};

use cjc_fixpoint::bytes::NoMemory;
use cjc_range::Interval;
use std::alloc::Global;
use std::marker::Model;

/// Every number of 32 bits.
pub(crate) fn full_interval() -> Interval
    ensures { result ≡ full }
{
    Interval {
        low: i32::MIN,
        high: i32::MAX,
    }
}

/// The intervals joined in turn, made of the first ones.
pub(crate) fn joined(left: Vec<Interval>, right: &[Interval]) -> Vec<Interval>
    requires { length left.items ≡ length right.now }
    ensures { result.items ≡ joined join_row left.items right.now }
{
    let mut cells = left;
    for i in 0..right.len() {
        let cell = cells[i];
        cells[i] = cell.join(right[i]);
    }
    cells
}

/// Whether to join the other interval changes nothing.
fn is_wider(left: Interval, right: Interval) -> bool
    ensures { IsTrue result → join_row left right ≡ left }
{
    left.join(right) == left
}

/// Whether to join the other intervals in turn changes none.
pub(crate) fn are_above(left: &[Interval], right: &[Interval]) -> bool
    requires { length left.now ≡ length right.now }
    ensures { IsTrue result → joined join_row left.now right.now ≡ left.now }
{
    for i in 0..left.len() {
        if !is_wider(left[i], right[i]) {
            return false;
        }
    }
    true
}

/// How wide intervals are together.
pub(crate) fn width_of_all(cells: &[Interval]) -> u64
    requires { length cells.now ≤ 393216 }
    ensures rank { result ≡ sum_by width cells.now }
    ensures small { result ≤ length cells.now * 2 ^ 32 }
{
    let mut total = 0;
    for cell in cells {
        total += u64::from(cell.width());
    }
    total
}

/// The intervals of an operand stack. Contracts see the list of them, the top first.
#[derive(Drop)]
pub struct Intervals {
    cells: Vec<Interval>,
}

impl Model for Intervals {
    ghost use Rattle.std.specs.Prelude.{List, reverse};
    ghost use Rattle.cjc_range.specs.Span.{Span};

    ghost Value = { List Span };

    ghost view = { λ s. reverse s.cells.items };
}

impl Intervals {
    /// The empty stack. Takes no memory.
    pub(crate) fn new(alloc: Global) -> Intervals
        ensures { result ≡ [] }
    {
        Intervals {
            cells: Vec::new(alloc),
        }
    }

    /// The number of intervals.
    pub fn len(&self) -> usize
        ensures { result ≡ length self.now }
    {
        self.cells.len()
    }

    /// The k-th interval from the top; one that is missing is full.
    pub fn get(&self, k: usize) -> Interval
        ensures { result ≡ operand self.now k }
    {
        let count = self.cells.len();
        if k < count {
            self.cells[count - 1 - k]
        } else {
            full_interval()
        }
    }

    /// Puts an interval on the top.
    pub(crate) fn push(&mut self, cell: Interval) -> Result<(), NoMemory>
        ensures { OnOk result (self.new ≡ cell ∷ self.old) }
    {
        self.cells.push(cell)?;
        Ok(())
    }

    /// Takes so many intervals off the top.
    pub(crate) fn take_off(&mut self, count: usize)
        ensures { self.new ≡ drop count self.old }
    {
        let kept = self.cells.as_slice().len().saturating_sub(count);
        self.cells.truncate(kept);
    }

    /// The same stack once more.
    pub(crate) fn copied(&self, alloc: Global) -> Result<Intervals, NoMemory>
        ensures { IfOk result (λ copied. copied ≡ self.now) }
    {
        let cells = Vec::from_slice(alloc, self.cells.as_slice())?;
        Ok(Intervals { cells })
    }

    /// The intervals of two stacks of one height, joined in turn.
    pub(crate) fn joined(self, other: &Intervals) -> Intervals
        requires { length self ≡ length other.now }
        ensures { result ≡ joined join_row self other.now }
    {
        let Intervals { cells } = self;
        let cells = joined(cells, other.cells.as_slice());
        Intervals { cells }
    }

    /// Whether to join the intervals of another stack of this height changes none.
    pub(crate) fn is_above(&self, other: &Intervals) -> bool
        requires { length self.now ≡ length other.now }
        ensures { IsTrue result → joined join_row self.now other.now ≡ self.now }
    {
        are_above(self.cells.as_slice(), other.cells.as_slice())
    }

    /// How wide the intervals are together.
    pub(crate) fn width(&self) -> u64
        requires { length self.now ≤ 393216 }
        ensures rank { result ≡ sum_by width self.now }
        ensures small { result ≤ length self.now * 2 ^ 32 }
    {
        width_of_all(self.cells.as_slice())
    }
}
