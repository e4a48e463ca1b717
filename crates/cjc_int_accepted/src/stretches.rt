//! The table of a method whose instructions stand in stretches, each written for one instruction of a class file.
ghost use Rattle.std.specs.Prelude.{List, Some, length, map};
ghost use Rattle.cjc_accepted_proof.specs.Tables.{BreaksNone};
ghost use Rattle.cjc_frames.specs.Acts.{Subtype};
ghost use Rattle.cjc_frames.specs.Flow.{Body, frame_flow};
ghost use Rattle.cjc_int_accepted.specs.Stretches.{AreStretches, Stretch, frames_in};
ghost use Rattle.cjc_types.specs.Fixpoint.Tables.{IsClosed};

/// The frames of stretches make a table that is closed under the card's instructions and breaks no rule, where no
/// instruction of a stretch breaks one in the frame to which those before it lead, and stretches lead to each other as
/// their instructions do.
pub fn frames_of_stretches_make_tables()
    ensures closed { (is_of : Subtype) (b : Body) (stretches : List Stretch) → AreStretches is_of b stretches
        → IsClosed (frame_flow b) (length b.steps) (map Some (frames_in stretches)) }
    ensures unbroken { (is_of : Subtype) (b : Body) (stretches : List Stretch) → AreStretches is_of b stretches
        → BreaksNone is_of b (map Some (frames_in stretches)) }
{}
