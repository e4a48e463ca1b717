//! What is written for an instruction in int mode stands between its frames, by its acts.
ghost use Rattle.std.specs.Prelude.{List, Option, true, ℕ, ◌≡◌};
ghost use Rattle.cjc_frames.specs.Acts.{Subtype};
ghost use Rattle.cjc_frames.specs.declared.acts.Act.{Act};
ghost use Rattle.cjc_int_accepted.specs.Ends.{LeadAtEnd, falls_behind};
ghost use Rattle.cjc_int_accepted.specs.Frames.{Room};
ghost use Rattle.cjc_int_accepted.specs.Methods.{Selection, StretchStands, acts_of};
ghost use Rattle.cjc_int_accepted.specs.Runs.{Runs};
ghost use Rattle.cjc_types.specs.Bytecode.declared.insn.JInsn.{JInsn};
ghost use Rattle.cjc_types.specs.Flow.{Body};
ghost use Rattle.cjc_types.specs.Steps.{goes_on};
ghost use Rattle.cjc_types.specs.declared.cell.Cell.{Cell};
ghost use Rattle.cjc_types.specs.declared.state.Stack.TheVariants.{Cells};
ghost use Rattle.cjc_types.specs.declared.state.State.{State};

/// What is written for a reached instruction, except for an element with the guard of its index, stands where its acts
/// run from its frame, go on no more than the instruction does, and jump by the last one alone to what is written for
/// its targets.
pub fn stretches_stand_by_their_acts()
    ensures { (card_type : List ℕ → Option (List ℕ)) (is_of : Subtype) (m : Room) (new : Selection) (b : Body)
        (rows : List (Option State)) (label to : ℕ → ℕ) (count place here : ℕ) (i : JInsn) (x : State) (s : List Cell)
        (acts : List Act) → x.stack ≡ Cells s → acts_of (new place here i x) ≡ acts
        → Runs card_type is_of m b.max_stack i.op acts x.locals s → LeadAtEnd label to i.op acts
        → (falls_behind acts ≡ true → goes_on i.op ≡ true)
        → StretchStands card_type is_of m new b rows label to count place here i x }
{}
