//! The intervals of a method's numbers over its type table, as a dataflow problem, and the rules that bound operands by
//! them: which tables are closed and least, and which operand breaks which rule. It has definitions and laws alone, for
//! whoever computes such tables and whoever relies on them. It knows no file beside the method's own instructions, and
//! nothing of narrow code.
#![tactic(auto)]

pub mod range_laws;

ghost use Rattle.std.specs.Prelude.{Option, List, ℤ};
ghost use Rattle.cjc_bytes.specs.declared.fault.MemberId.{MemberId};
ghost use Rattle.cjc_fixpoint.specs.Dataflow.{IsLawful};
ghost use Rattle.cjc_types.specs.declared.state.State.{State as Typed};
ghost use Rattle.cjc_types.specs.Flow.{Body};
ghost use Rattle.cjc_intervals.specs.Flow.{range_flow};

/// The intervals of every method over every type table obey the laws of flows, so that they have a least closed table.
pub fn range_flow_laws()
    ensures { (b : Body) (constant : MemberId → Option ℤ) (types : List (Option Typed))
        → IsLawful (range_flow b constant types) }
{}
