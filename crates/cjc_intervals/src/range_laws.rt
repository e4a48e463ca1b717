//! The intervals of a method's numbers over a type table have a least table, whichever those are. Laws alone:
//! nothing here runs.
ghost use Rattle.std.specs.Prelude.{List, Option, ℤ};
ghost use Rattle.cjc_bytes.specs.declared.fault.MemberId.{MemberId};
ghost use Rattle.cjc_intervals.specs.Frames.{RangeState};
ghost use Rattle.cjc_intervals.specs.Tables.{IsLeastRanges};
ghost use Rattle.cjc_types.specs.declared.state.State.{State as Typed};
ghost use Rattle.cjc_types.specs.Flow.{Body};

/// There is a least range table of each method over each type table: a table that is closed and lies below
/// every closed one.
pub fn least_ranges_exist()
    ensures { (b : Body) (constant : MemberId → Option ℤ) (types : List (Option Typed))
        → (ranges : List (Option RangeState)) × IsLeastRanges b constant types ranges }
{}
