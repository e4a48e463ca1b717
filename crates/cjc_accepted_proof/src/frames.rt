//! Least tables of types of frames: they break no rule where some closed table breaks none.
ghost use Rattle.std.specs.Prelude.{ℕ, List, Option, length};
ghost use Rattle.cjc_types.specs.declared.state.State.{State};
ghost use Rattle.cjc_types.specs.Fixpoint.Tables.{IsClosed};
ghost use Rattle.cjc_frames.specs.Acts.{Subtype};
ghost use Rattle.cjc_frames.specs.Flow.{Body, frame_flow};
ghost use Rattle.cjc_frames.specs.Tables.{IsLeastTable};
ghost use Rattle.cjc_accepted_proof.specs.Tables.{BreaksNone};

/// A closed table of types of frames that breaks no rule leaves the least table none to break: that one lies below it,
/// and what breaks a rule in a frame breaks one in each frame above.
pub fn closed_tables_clear_least_ones()
    ensures { (is_of : Subtype) (b : Body) (rows others : List (Option State)) → IsLeastTable b rows
        → IsClosed (frame_flow b) (length b.steps) others → BreaksNone is_of b others → BreaksNone is_of b rows }
{}
