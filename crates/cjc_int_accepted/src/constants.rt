//! Rows of constants and arithmetic in int mode: a number is two words.
ghost use Rattle.std.specs.Prelude.{List, Option, [], false, ℕ, ℤ, ◌==◌, ◌∷◌, ◌≡◌};
ghost use Rattle.cjc_frames.specs.Acts.{Subtype};
ghost use Rattle.cjc_frames.specs.declared.acts.Given.TheVariants.{ANull, ANumber};
ghost use Rattle.cjc_int_accepted.specs.Acts.{taking};
ghost use Rattle.cjc_int_accepted.specs.Frames.{Room};
ghost use Rattle.cjc_int_accepted.specs.Runs.{IsOn, Runs};
ghost use Rattle.cjc_types.specs.Flow.{Body};
ghost use Rattle.cjc_types.specs.Rules.{has_wrong as has_wrong_by_name};
ghost use Rattle.cjc_types.specs.World.Classes.{Class};
ghost use Rattle.cjc_types.specs.declared.cell.Cell.{Cell};
ghost use Rattle.cjc_verify.specs.CardActs.Rows.{calculating, pushing};
ghost use Rattle.cjc_types.specs.Bytecode.Jvm as jvm;
ghost use Rattle.cjc_types.specs.Bytecode.declared.insn.JOp.TheVariants as jop;

/// What is written for a nop, a constant or a goto goes from the words of its frame to those of the frame behind
/// it.
pub fn constants_run_in_int_mode()
    ensures nothing { (card_type : List ℕ → Option (List ℕ)) (is_of : Subtype) (m : Room) (max_stack : ℕ) → (ls s :
        List Cell) → Runs card_type is_of m max_stack jop.Nop [] ls s }
    ensures null { (card_type : List ℕ → Option (List ℕ)) (is_of : Subtype) (m : Room) (max_stack : ℕ) → (ls s :
        List Cell) → IsOn max_stack jop.Null ls s → Runs card_type is_of m max_stack jop.Null (pushing (ANull ∷ [])
        ∷ []) ls s }
    ensures numbers { (card_type : List ℕ → Option (List ℕ)) (is_of : Subtype) (m : Room) (max_stack : ℕ) → (z : ℤ)
        (ls s : List Cell) → IsOn max_stack (jop.Number z) ls s → Runs card_type is_of m max_stack (jop.Number z)
        (pushing (ANumber ∷ ANumber ∷ []) ∷ []) ls s }
    ensures gotos { (card_type : List ℕ → Option (List ℕ)) (is_of : Subtype) (m : Room) (max_stack : ℕ) → (target :
        ℕ) (targets : List ℕ) (ls s : List Cell) → IsOn max_stack (jop.Goto target) ls s → Runs card_type is_of m
        max_stack (jop.Goto target) (taking [] [] false targets ∷ []) ls s }
{}

/// What is written for arithmetic, i2b and i2s goes from the words of its frame to those of the frame behind it.
pub fn arithmetic_runs_in_int_mode()
    ensures negation { (card_type : List ℕ → Option (List ℕ)) (is_of : Subtype) (m : Room) (max_stack : ℕ) (w : List
        Class) (b : Body) → (ls s : List Cell) → IsOn max_stack (jop.Arith jvm.ineg) ls s → has_wrong_by_name w b
        (jop.Arith jvm.ineg) 1 0 s ≡ false → Runs card_type is_of m max_stack (jop.Arith jvm.ineg) (calculating 2 2
        ∷ []) ls s }
    ensures arithmetic { (card_type : List ℕ → Option (List ℕ)) (is_of : Subtype) (m : Room) (max_stack : ℕ) (w :
        List Class) (b : Body) → (op : ℕ) → (op == jvm.ineg) ≡ false → (ls s : List Cell) → IsOn max_stack
        (jop.Arith op) ls s → has_wrong_by_name w b (jop.Arith op) 2 0 s ≡ false → Runs card_type is_of m max_stack
        (jop.Arith op) (calculating 4 2 ∷ []) ls s }
    ensures narrowing { (card_type : List ℕ → Option (List ℕ)) (is_of : Subtype) (m : Room) (max_stack : ℕ) (w :
        List Class) (b : Body) → (op : ℕ) (ls s : List Cell) → IsOn max_stack (jop.Narrow op) ls s →
        has_wrong_by_name w b (jop.Narrow op) 1 0 s ≡ false → Runs card_type is_of m max_stack (jop.Narrow op)
        (calculating 2 1 ∷ calculating 1 2 ∷ []) ls s }
{}
