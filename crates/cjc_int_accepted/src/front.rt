//! What is written before the first instruction of a method in int mode is what brings its arguments to their locals.
ghost use Rattle.std.specs.Prelude.{Bool, List, Option, length, ℕ, ◌<◌, ◌≡◌, ◌≤◌};
ghost use Rattle.cjc_accepted_proof.specs.Coded.{step_laid};
ghost use Rattle.cjc_accepted_proof.specs.Methods.{steps_from};
ghost use Rattle.cjc_check_proof.specs.NCode.Lowering.Naming.{Naming};
ghost use Rattle.cjc_frames.specs.Acts.{Subtype};
ghost use Rattle.cjc_frames.specs.Flow.{Body};
ghost use Rattle.cjc_int_accepted.specs.Acts.{moving_all};
ghost use Rattle.cjc_int_accepted.specs.Entered.{AreShapes, AreSortsFor, BeginBehind, IsEntered};
ghost use Rattle.cjc_int_accepted.specs.Frames.{Room};
ghost use Rattle.cjc_int_accepted.specs.Methods.{Begins, Selection, acts_of};
ghost use Rattle.cjc_ncode.specs.IntCode.IntCode.{Frame, nargs, prologue};
ghost use Rattle.cjc_types.specs.Flow.{Body as BodyByName};
ghost use Rattle.cjc_types.specs.declared.state.State.{State};
ghost use Rattle.cjc_verify.specs.CardActs.CardTypes.{ValueType};
ghost use Rattle.cjc_verify.specs.Pairs.{Pair};

/// The prologue takes and gives what brings arguments of these types to their locals. So it begins a method whose frame
/// is entered with the words of the class file's arguments, where each handler that covers something of it begins
/// behind it.
pub fn prologues_begin_methods_in_int_mode()
    ensures acts { (p : Pair) (result : ValueType) (n : Naming) (to : ℕ → ℕ) (wide : ℕ → Bool) (f : Frame) (ts : List
        ValueType) → AreSortsFor f.params ts
        → acts_of (steps_from (step_laid p result n to wide) 0 (prologue f)) ≡ moving_all 0 (nargs f) ts }
    ensures begins { (p : Pair) (result : ValueType) (n : Naming) (to : ℕ → ℕ) (wide : ℕ → Bool)
        (card_type : List ℕ → Option (List ℕ)) (is_of : Subtype) (m : Room) (new : Selection) (b : BodyByName)
        (rows : List (Option State)) (label : ℕ → ℕ) (c : Body) (f : Frame) (holder : List ℕ) (ts : List ValueType)
        (shapes : AreShapes card_type) (is : IsEntered card_type m b c f holder ts) (all : ℕ)
        → length (prologue f) ≤ all → ((j k : ℕ) → j < k → k ≤ all → to j < to k)
        → ((j k : ℕ) → j ≤ k → to j ≤ to k) → BeginBehind to (length (prologue f)) c.catches
        → Begins card_type is_of m new b rows label to c (steps_from (step_laid p result n to wide) 0 (prologue f)) }
{}
