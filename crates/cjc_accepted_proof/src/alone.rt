//! Rows of a method for each of which one instruction is written, or none.
ghost use Rattle.std.specs.Prelude.{◌≡◌, ℕ, suc, List, Option, [], ◌∷◌, true, false};
ghost use Rattle.std.specs.List.{Contains};
ghost use Rattle.cjc_types.specs.Bytecode.declared.insn.JInsn.{JInsn};
ghost use Rattle.cjc_types.specs.Flow.{Body};
ghost use Rattle.cjc_types.specs.Rules.{is_off};
ghost use Rattle.cjc_types.specs.States.{states};
ghost use Rattle.cjc_types.specs.Steps.{after, goes_on, targets};
ghost use Rattle.cjc_types.specs.World.Classes.{Class};
ghost use Rattle.cjc_types.specs.declared.cell.Cell.{Cell};
ghost use Rattle.cjc_types.specs.declared.state.Stack.TheVariants.{Cells};
ghost use Rattle.cjc_types.specs.declared.state.State.{State};
ghost use Rattle.cjc_check_proof.specs.NCode.Written.{Resolution, place_in, reached, written_for};
ghost use Rattle.cjc_check_proof.specs.NCode.declared.narrow.NInsn.{NInsn};
ghost use Rattle.cjc_verify.specs.Narrow.Pairs.Open.{Open, closed};
ghost use Rattle.cjc_frames.specs.Acts.{Subtype};
ghost use Rattle.cjc_frames.specs.declared.acts.Act.{Act};
ghost use Rattle.cjc_frames.specs.declared.acts.Step.{Step};
ghost use Rattle.cjc_accepted_proof.specs.Frames.{Mirrors, Stands, card_state};
ghost use Rattle.cjc_accepted_proof.specs.Methods.{RowStands};

/// The row of an instruction for which one is written stands where that one stands between its frames, goes on where it
/// does, and jumps to what is written for its targets; in pairs too.
pub fn rows_of_one_stand()
    ensures { (card_type : List ℕ → Option (List ℕ)) (is_of : Subtype) (w : List Class) (r : Resolution) (b : Body)
        (rows : List (Option State)) (opened : ℕ → Open) (step : (label : ℕ) → NInsn → Step) (count : ℕ) (to : ℕ → ℕ)
        (at from : ℕ) (i : JInsn) (x : State) (insn : NInsn)
        → written_for r (λ offset. place_in r (reached b.insns rows) offset) i ≡ insn ∷ []
        → Stands is_of count b.max_stack (let t = step from insn in t.act) (card_state card_type (opened at) x)
        (card_state card_type (opened (suc at)) (after i.op x))
        → ((let t = step from insn in let a = t.act in a.falls) ≡ true → goes_on i.op ≡ true)
        → ((offset : ℕ) → Contains (let t = step from insn in let a = t.act in a.targets) offset → (target : ℕ)
        × Contains (targets i.op) target × (offset ≡ to (place_in r (reached b.insns rows) target)))
        → RowStands card_type is_of r b rows opened step count b.max_stack to at from i x }
{}

/// The row of an instruction for which nothing is written stands where the card's frame stays; in pairs too.
pub fn rows_of_none_stand()
    ensures { (card_type : List ℕ → Option (List ℕ)) (is_of : Subtype) (w : List Class) (r : Resolution) (b : Body)
        (rows : List (Option State)) (opened : ℕ → Open) (step : (label : ℕ) → NInsn → Step) (count : ℕ) (to : ℕ → ℕ)
        (at from : ℕ) (i : JInsn) (x : State)
        → written_for r (λ offset. place_in r (reached b.insns rows) offset) i ≡ []
        → (let s = states count in s.Below (card_state card_type (opened at) x) (card_state card_type (opened (suc at))
        (after i.op x))) → goes_on i.op ≡ true
        → RowStands card_type is_of r b rows opened step count b.max_stack to at from i x }
{}

/// The row of a reached instruction outside of pairs, for which one instruction is written, stands where the act of
/// that one mirrors it, goes on where it does, and jumps to what is written for its targets.
pub fn rows_alone_stand()
    ensures { (card_type : List ℕ → Option (List ℕ)) (is_of : Subtype) (w : List Class) (r : Resolution) (b : Body)
        (rows : List (Option State)) (opened : ℕ → Open) (step : (label : ℕ) → NInsn → Step) (count : ℕ) (to : ℕ → ℕ)
        (at from : ℕ) (i : JInsn) (locals s : List Cell) (insn : NInsn) → opened at ≡ closed → opened (suc at) ≡ closed
        → written_for r (λ offset. place_in r (reached b.insns rows) offset) i ≡ insn ∷ []
        → Mirrors card_type is_of i.op (let t = step from insn in t.act) locals s → is_off b i.op locals s ≡ false
        → ((let t = step from insn in let a = t.act in a.falls) ≡ true → goes_on i.op ≡ true)
        → ((offset : ℕ) → Contains (let t = step from insn in let a = t.act in a.targets) offset → (target : ℕ)
        × Contains (targets i.op) target × (offset ≡ to (place_in r (reached b.insns rows) target)))
        → RowStands card_type is_of r b rows opened step count b.max_stack to at from i (record {
          stack = Cells s;
          locals = locals;
        }) }
{}
