//! What is written in int mode for a return stands between its frames.
ghost use Rattle.std.specs.Prelude.{Bool, List, Option, true, ℕ, ◌≡◌};
ghost use Rattle.cjc_accepted_proof.specs.Frames.{SubtypesAgree};
ghost use Rattle.cjc_check_proof.specs.NCode.Lowering.Naming.{Naming};
ghost use Rattle.cjc_check_proof.specs.NCode.Written.{Resolution};
ghost use Rattle.cjc_check_proof.specs.NarrowProof.Tables.Names.{IsDesc};
ghost use Rattle.cjc_check_proof.specs.NarrowProof.Tables.Supported.{IsReturn};
ghost use Rattle.cjc_frames.specs.Acts.{Subtype};
ghost use Rattle.cjc_int_accepted.specs.Frames.{Room};
ghost use Rattle.cjc_int_accepted.specs.Methods.{Selection};
ghost use Rattle.cjc_int_accepted.specs.Standing.{IsStanding};
ghost use Rattle.cjc_int_accepted.specs.Types.{IsTypedAs};
ghost use Rattle.cjc_int_mode.specs.Written.{int_frame};
ghost use Rattle.cjc_ncode.specs.IntCode.IntCode.{Before, Frame};
ghost use Rattle.cjc_types.specs.Bytecode.declared.insn.JOp.TheVariants as jop;
ghost use Rattle.cjc_types.specs.Flow.{Body};
ghost use Rattle.cjc_types.specs.Types.{parts};
ghost use Rattle.cjc_types.specs.World.Classes.{Class};
ghost use Rattle.cjc_types.specs.declared.state.State.{State};
ghost use Rattle.cjc_verify.specs.CardActs.CardTypes.{ValueType};
ghost use Rattle.cjc_verify.specs.Pairs.{Pair};
ghost use Rattle.cjc_verify.specs.Script.Sorts.{result_by};

/// What is written for a method in int mode knows its result by its descriptor, and so does a return: it stands between
/// its frames, where the card's type of the result is the descriptor's.
pub fn returns_stand()
    ensures results { (b : Body) → IsDesc b.desc → (let d = parts b.desc in d.is_method) ≡ true → (let f = int_frame b
        in f.result) ≡ (let d = parts b.desc in let v = d.result in result_by v.kind v) }
    ensures stand { (card_type : List ℕ → Option (List ℕ)) (is_of : Subtype) (m : Room) (new : Selection) (b : Body)
        (rows : List (Option State)) (label to : ℕ → ℕ) (p : Pair) (result : ValueType) (n : Naming) (wide : ℕ →
        Bool) (f : Frame) (r : Resolution) (known : Before) (w : List Class) (count place here o : ℕ) (x : State)
        → SubtypesAgree card_type is_of w → (let d = parts b.desc in let v = d.result in IsTypedAs card_type v.kind
        v.class result) → f.result ≡ (let d = parts b.desc in let v = d.result in result_by v.kind v) → (op : ℕ) →
        IsReturn op → IsStanding card_type is_of m new b rows label to p result n wide f r known w count place here o x
        (jop.Return op) }
{}
