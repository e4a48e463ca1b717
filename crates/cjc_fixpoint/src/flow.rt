//! What a flow is: its methods, the meaning that they compute, and the laws that the meaning obeys.

ghost use Rattle.std.specs.Prelude.{◌≡◌, IfOk};
ghost use Rattle.cjc_fixpoint.specs.Dataflow.{Dataflow, IsLawful};

use cjc_bytes::{NoMemory, Row};
use std::alloc::Global;

/// What a place hands on to another.
#[derive(Drop)]
pub struct Edge<T> {
    /// The place that is reached.
    pub to: u32,
    /// The state with which it is reached.
    pub state: T,
}

/// A dataflow problem. Its places are numbers from 0 on, and place 0 is entered first.
pub trait Flow {
    /// What is known at a place. Equal states are those that contracts see as equal.
    type State: Drop;

    /// The dataflow problem that the methods compute.
    ghost meaning: { Self → Dataflow Self.State };

    /// The same state once more.
    fn copy(&self, alloc: Global, state: &Self::State) -> Result<Self::State, NoMemory>
        ensures { IfOk result (λ copied. copied ≡ state.now) };

    /// The least state above both.
    fn join(
        &self,
        alloc: Global,
        left: &Self::State,
        right: &Self::State,
    ) -> Result<Self::State, NoMemory>
        requires left { (meaning self.now).Own left.now }
        requires right { (meaning self.now).Own right.now }
        ensures { IfOk result (λ joined. joined ≡ (meaning self.now).join left.now right.now) };

    /// What the place `at` hands on where its state is `before`.
    fn transfer(
        &self,
        alloc: Global,
        at: u32,
        before: &Self::State,
    ) -> Result<Row<Edge<Self::State>>, NoMemory>
        requires { (meaning self.now).Own before.now }
        ensures { IfOk result (λ edges. edges ≡ (meaning self.now).edges at before.now) };

    /// The state in which place 0 is entered.
    fn entry(&self, alloc: Global) -> Result<Self::State, NoMemory>
        ensures { IfOk result (λ state. state ≡ (meaning self.now).entry) };

    /// How high a state stands. A greater state has a greater rank.
    fn rank(&self, state: &Self::State) -> u64
        requires { (meaning self.now).Own state.now }
        ensures { result ≡ (meaning self.now).rank state.now };

    /// A rank that none exceeds.
    fn height(&self) -> u64
        ensures { result ≡ (meaning self.now).height };

    ghost laws: { (flow : Self) → IsLawful (meaning flow) };
}
