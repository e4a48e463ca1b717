//! What is written in int mode for a call stands between its frames.
ghost use Rattle.std.specs.Prelude.{Bool, List, Option, length, ℕ, ◌*◌, ◌≡◌, ◌≤◌};
ghost use Rattle.cjc_accepted_proof.specs.Frames.{SubtypesAgree};
ghost use Rattle.cjc_check_proof.specs.NCode.Lowering.Naming.{Naming};
ghost use Rattle.cjc_check_proof.specs.NCode.Written.{Resolution};
ghost use Rattle.cjc_frames.specs.Acts.{Subtype};
ghost use Rattle.cjc_int_accepted.specs.Entered.{AreShapes};
ghost use Rattle.cjc_int_accepted.specs.Frames.{Room};
ghost use Rattle.cjc_int_accepted.specs.Methods.{Selection};
ghost use Rattle.cjc_int_accepted.specs.Served.{CallServed};
ghost use Rattle.cjc_int_accepted.specs.Standing.{IsStanding};
ghost use Rattle.cjc_ncode.specs.IntCode.IntCode.{Before, Frame, nargs, scratch_pairs_of};
ghost use Rattle.cjc_types.specs.Bytecode.declared.insn.JOp.TheVariants as jop;
ghost use Rattle.cjc_types.specs.Bytes.declared.fault.MemberId.{MemberId};
ghost use Rattle.cjc_types.specs.Flow.{Body};
ghost use Rattle.cjc_types.specs.World.Classes.{Class};
ghost use Rattle.cjc_types.specs.declared.state.State.{State};
ghost use Rattle.cjc_verify.specs.CardActs.CardTypes.{ValueType};
ghost use Rattle.cjc_verify.specs.Pairs.{Pair};

/// What is written for a call that is served stands between its frames, where they break no rule and the frame has as
/// many scratch pairs as it needs: its arguments are handed over as they are, by a cut of the last one or by scratch
/// pairs, and its result is widened.
pub fn calls_stand_in_int_mode()
    ensures { (card_type : List ℕ → Option (List ℕ)) (is_of : Subtype) (m : Room) (new : Selection) (b : Body)
        (rows : List (Option State)) (label to : ℕ → ℕ) (p : Pair) (result : ValueType) (n : Naming) (wide : ℕ → Bool)
        (f : Frame) (r : Resolution) (known : Before) (w : List Class) (count place here o : ℕ) (x : State)
        → SubtypesAgree card_type is_of w → AreShapes card_type → (op : ℕ) (id : MemberId)
        → CallServed card_type is_of w p n r b op id → nargs f ≡ m.arguments → length x.locals ≡ f.max_locals
        → 2 * scratch_pairs_of (jop.Call op id) ≤ m.scratch
        → IsStanding card_type is_of m new b rows label to p result n wide f r known w count place here o x (jop.Call op
        id) }
{}
