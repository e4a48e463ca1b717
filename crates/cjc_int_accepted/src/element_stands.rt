//! What is written in int mode for a load or a store of an element stands between its frames.
ghost use Rattle.std.specs.Prelude.{Bool, List, Option, true, ℕ, ◌≡◌, ◌≤◌};
ghost use Rattle.cjc_accepted_proof.specs.Elements.{ArraysAgree};
ghost use Rattle.cjc_check_proof.specs.NCode.Lowering.Naming.{Naming};
ghost use Rattle.cjc_check_proof.specs.NCode.Written.{Resolution};
ghost use Rattle.cjc_frames.specs.Acts.{Subtype};
ghost use Rattle.cjc_frames.specs.declared.acts.Act.{Act};
ghost use Rattle.cjc_int_accepted.specs.Ends.{falls_behind};
ghost use Rattle.cjc_int_accepted.specs.Frames.{Room, frame_words, stack_words};
ghost use Rattle.cjc_int_accepted.specs.Guards.{IsOnElement, LeadOver};
ghost use Rattle.cjc_int_accepted.specs.Methods.{Selection, StretchStands, acts_of};
ghost use Rattle.cjc_int_accepted.specs.Runs.{Runs, most_words};
ghost use Rattle.cjc_int_accepted.specs.Standing.{IsStanding};
ghost use Rattle.cjc_ncode.specs.IntCode.IntCode.{Before, Frame};
ghost use Rattle.cjc_types.specs.Bytecode.declared.insn.JInsn.{JInsn};
ghost use Rattle.cjc_types.specs.Bytecode.declared.insn.JOp.{JOp};
ghost use Rattle.cjc_types.specs.Flow.{Body};
ghost use Rattle.cjc_types.specs.States.{most_cells};
ghost use Rattle.cjc_types.specs.Steps.{goes_on};
ghost use Rattle.cjc_types.specs.World.Classes.{Class};
ghost use Rattle.cjc_types.specs.declared.cell.Cell.{Cell};
ghost use Rattle.cjc_types.specs.declared.state.Stack.TheVariants.{Cells};
ghost use Rattle.cjc_types.specs.declared.state.State.{State};
ghost use Rattle.cjc_verify.specs.CardActs.CardTypes.{ValueType};
ghost use Rattle.cjc_verify.specs.Pairs.{Pair};

/// What is written for an instruction stands between its frames where its acts run, and jump to later ones of their own
/// before which the words are those behind the jump.
pub fn stretches_stand_by_their_guards()
    ensures { (card_type : List ℕ → Option (List ℕ)) (is_of : Subtype) (m : Room) (new : Selection) (b : Body)
        (rows : List (Option State)) (label to : ℕ → ℕ) (count place here : ℕ) (i : JInsn) (x : State)
        (s : List Cell) (acts : List Act) → x.stack ≡ Cells s → acts_of (new place here i x) ≡ acts
        → most_words b.max_stack ≤ most_cells → Runs card_type is_of m b.max_stack i.op acts x.locals s
        → LeadOver to here acts (frame_words card_type m x.locals) (stack_words card_type s)
        → (falls_behind acts ≡ true → goes_on i.op ≡ true)
        → StretchStands card_type is_of m new b rows label to count place here i x }
{}

/// What is written for a load or a store of an element stands between its frames, where they break no rule, no stack is
/// too high and the card's types of arrays say what the arrays by name are: the jump of the guard of its index leads to
/// the last instruction of the guard.
pub fn elements_stand_in_int_mode()
    ensures { (card_type : List ℕ → Option (List ℕ)) (is_of : Subtype) (m : Room) (new : Selection) (b : Body)
        (rows : List (Option State)) (label to : ℕ → ℕ) (p : Pair) (result : ValueType) (n : Naming) (wide : ℕ → Bool)
        (f : Frame) (r : Resolution) (known : Before) (w : List Class) (count place here o : ℕ) (x : State)
        → most_words b.max_stack ≤ most_cells → ArraysAgree card_type → (op : JOp) → IsOnElement op
        → IsStanding card_type is_of m new b rows label to p result n wide f r known w count place here o x op }
{}
