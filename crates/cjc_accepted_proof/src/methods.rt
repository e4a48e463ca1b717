//! The table of a method that is written for one of a class file: its frames follow from the class file's type table.
ghost use Rattle.std.specs.Prelude.{Some, ℕ, List, Option, length, map};
ghost use Rattle.cjc_types.specs.Fixpoint.Tables.{IsClosed};
ghost use Rattle.cjc_types.specs.Flow.{Body as BodyByName, type_flow};
ghost use Rattle.cjc_types.specs.declared.state.State.{State};
ghost use Rattle.cjc_check_proof.specs.NCode.Written.{Resolution};
ghost use Rattle.cjc_check_proof.specs.NCode.declared.narrow.NInsn.{NInsn};
ghost use Rattle.cjc_verify.specs.Narrow.Pairs.Open.{Open};
ghost use Rattle.cjc_check_proof.specs.NarrowProof.Tables.Analysis.{IsDecoded};
ghost use Rattle.cjc_check_proof.specs.NarrowProof.Tables.Pairs.{AreInPairs};
ghost use Rattle.cjc_frames.specs.Acts.{Subtype};
ghost use Rattle.cjc_frames.specs.Flow.{Body, frame_flow};
ghost use Rattle.cjc_frames.specs.declared.acts.Step.{Step};
ghost use Rattle.cjc_accepted_proof.specs.Blocks.{AreBlocks, frames_of};
ghost use Rattle.cjc_accepted_proof.specs.Methods.{IsWrittenFor, blocks_from};
ghost use Rattle.cjc_accepted_proof.specs.Tables.{BreaksNone};

/// The frames that follow from a closed type table of a class file's method make a table of the method that is written
/// for it, which is closed and breaks no rule: where what is written for each reached instruction stands between its
/// frames, and jumps and handlers lead to what is written for their targets.
pub fn tables_of_methods_are_closed()
    ensures blocks { (card_type : List ℕ → Option (List ℕ)) (is_of : Subtype) (r : Resolution) (b : BodyByName)
        (rows : List (Option State)) (opened : ℕ → Open) (step : (label : ℕ) → NInsn → Step) (m : Body) (to : ℕ → ℕ)
        → IsWrittenFor card_type is_of r b rows opened step m to → IsDecoded b → AreInPairs r b rows opened
        → IsClosed (type_flow b) (length b.insns) rows
        → AreBlocks is_of m (blocks_from card_type is_of r b rows opened step 0 0 b.insns rows) }
    ensures closed { (card_type : List ℕ → Option (List ℕ)) (is_of : Subtype) (r : Resolution) (b : BodyByName)
        (rows : List (Option State)) (opened : ℕ → Open) (step : (label : ℕ) → NInsn → Step) (m : Body) (to : ℕ → ℕ)
        → IsWrittenFor card_type is_of r b rows opened step m to → IsDecoded b → AreInPairs r b rows opened
        → IsClosed (type_flow b) (length b.insns) rows
        → IsClosed (frame_flow m) (length m.steps) (map Some (frames_of (blocks_from card_type is_of r b rows opened
        step 0 0 b.insns rows))) }
    ensures unbroken { (card_type : List ℕ → Option (List ℕ)) (is_of : Subtype) (r : Resolution) (b : BodyByName)
        (rows : List (Option State)) (opened : ℕ → Open) (step : (label : ℕ) → NInsn → Step) (m : Body) (to : ℕ → ℕ)
        → IsWrittenFor card_type is_of r b rows opened step m to → IsDecoded b → AreInPairs r b rows opened
        → IsClosed (type_flow b) (length b.insns) rows
        → BreaksNone is_of m (map Some (frames_of (blocks_from card_type is_of r b rows opened step 0 0 b.insns
        rows))) }
{}
