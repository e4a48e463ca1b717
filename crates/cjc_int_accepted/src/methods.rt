//! The table of a method that is written in int mode: its frames follow from the class file's type table.
ghost use Rattle.std.specs.Prelude.{ℕ, List, Option, Some, length, map};
ghost use Rattle.cjc_accepted_proof.specs.Tables.{BreaksNone};
ghost use Rattle.cjc_check_proof.specs.NarrowProof.Tables.Analysis.{IsDecoded};
ghost use Rattle.cjc_frames.specs.Acts.{Subtype};
ghost use Rattle.cjc_frames.specs.Flow.{Body, frame_flow};
ghost use Rattle.cjc_frames.specs.declared.acts.Step.{Step};
ghost use Rattle.cjc_int_accepted.specs.Frames.{Room};
ghost use Rattle.cjc_int_accepted.specs.Methods.{IsWrittenInIntMode, Selection, stretches_in};
ghost use Rattle.cjc_int_accepted.specs.Stretches.{AreStretches, frames_in};
ghost use Rattle.cjc_types.specs.Fixpoint.Tables.{IsClosed};
ghost use Rattle.cjc_types.specs.Flow.{Body as BodyByName, type_flow};
ghost use Rattle.cjc_types.specs.declared.state.State.{State};

/// The frames that follow from a closed type table of a class file's method make a table of the method that is written
/// for it in int mode, which is closed and breaks no rule: where what is written for each reached instruction goes from
/// the frame before it to the one behind it, and jumps and handlers lead to what is written for their targets.
pub fn tables_in_int_mode_are_closed()
    ensures stretches { (card_type : List ℕ → Option (List ℕ)) (is_of : Subtype) (m : Room) (new : Selection)
        (b : BodyByName) (rows : List (Option State)) (label to : ℕ → ℕ) (c : Body) (front : List Step)
        → IsWrittenInIntMode card_type is_of m new b rows label to c front → IsDecoded b
        → IsClosed (type_flow b) (length b.insns) rows
        → AreStretches is_of c (stretches_in card_type m new b rows c front) }
    ensures closed { (card_type : List ℕ → Option (List ℕ)) (is_of : Subtype) (m : Room) (new : Selection)
        (b : BodyByName) (rows : List (Option State)) (label to : ℕ → ℕ) (c : Body) (front : List Step)
        → IsWrittenInIntMode card_type is_of m new b rows label to c front → IsDecoded b
        → IsClosed (type_flow b) (length b.insns) rows
        → IsClosed (frame_flow c) (length c.steps) (map Some (frames_in (stretches_in card_type m new b rows c
        front))) }
    ensures unbroken { (card_type : List ℕ → Option (List ℕ)) (is_of : Subtype) (m : Room) (new : Selection)
        (b : BodyByName) (rows : List (Option State)) (label to : ℕ → ℕ) (c : Body) (front : List Step)
        → IsWrittenInIntMode card_type is_of m new b rows label to c front → IsDecoded b
        → IsClosed (type_flow b) (length b.insns) rows
        → BreaksNone is_of c (map Some (frames_in (stretches_in card_type m new b rows c front))) }
{}
