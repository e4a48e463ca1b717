//! A method with its types and with the places at which ranges of its handlers begin or end, so that a place
//! which hands its handlers nothing new is not asked for it again. Called by ranging.rt. Knows no instruction.

ghost use Rattle.cjc_types.specs.Repeats.{CoverAlike};

use crate::ranging::Ranging;
use crate::state::Ranges;
use cjc_fixpoint::bytes::{NoMemory, Row};
use cjc_fixpoint::{Edge, Flow, Repeating};
use std::alloc::Global;

/// A method with its types, and with the places at which ranges of its handlers begin or end.
#[derive(Drop)]
pub(crate) struct Bounded<'a> {
    pub(crate) ranging: &'a Ranging<'a>,
    pub(crate) bounds: &'a [bool],
    ghost alike: { CoverAlike ranging.now.body.insns bounds.now ranging.now.body.catches },
}

impl Flow for Bounded<'_> {
    ghost use Rattle.cjc_flow.specs.Working.Kept.{kept_flow};
    ghost use Rattle.cjc_flow.specs.Working.KeptLaws.{kept_laws};

    type State = Ranges;

    ghost meaning = { λ m. kept_flow m.ranging.now };

    ghost laws = { λ m. kept_laws m.ranging.now };

    fn copy(&self, alloc: Global, state: &Ranges) -> Result<Ranges, NoMemory> {
        self.ranging.copy(alloc, state)
    }

    fn join(&self, alloc: Global, left: &Ranges, right: &Ranges) -> Result<Ranges, NoMemory> {
        self.ranging.join(alloc, left, right)
    }

    fn join_into(&self, alloc: Global, left: Ranges, right: &Ranges) -> Result<Ranges, NoMemory> {
        self.ranging.join_into(alloc, left, right)
    }

    fn is_above(&self, row: &Ranges, state: &Ranges) -> bool {
        self.ranging.is_above(row, state)
    }

    fn transfer(
        &self,
        alloc: Global,
        at: u32,
        before: &Ranges,
    ) -> Result<Row<Edge<Ranges>>, NoMemory> {
        self.ranging.transfer(alloc, at, before)
    }

    fn step(&self, alloc: Global, at: u32, before: Ranges) -> Result<Row<Edge<Ranges>>, NoMemory> {
        self.ranging.step(alloc, at, before)
    }

    fn entry(&self, alloc: Global) -> Result<Ranges, NoMemory> {
        Flow::entry(self.ranging, alloc)
    }

    fn rank(&self, state: &Ranges) -> u64 {
        self.ranging.rank(state)
    }

    fn height(&self) -> u64 {
        self.ranging.height()
    }
}

impl Repeating for Bounded<'_> {
    ghost use Rattle.cjc_types.specs.Repeats.{repeats_at};
    ghost use Rattle.cjc_flow.specs.Working.RepeatLaws.{kept_repeats};

    ghost again = { λ m at. repeats_at m.ranging.now.body m.bounds.now at };

    ghost repeated = { λ m. kept_repeats m.ranging.now m.bounds.now m.alike };

    fn repeats(&self, at: u32) -> bool {
        self.ranging.repeats_at(self.bounds, at)
    }

    fn pass(&self, alloc: Global, at: u32, before: Ranges) -> Result<Option<Ranges>, NoMemory> {
        self.ranging.pass(alloc, at, before)
    }
}
