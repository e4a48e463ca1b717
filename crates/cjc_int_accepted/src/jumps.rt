//! Rows of jumps and switches in int mode.
ghost use Rattle.std.specs.Prelude.{List, Option, [], false, true, ℕ, ℤ, ◌∷◌, ◌≡◌};
ghost use Rattle.cjc_frames.specs.Acts.{Subtype};
ghost use Rattle.cjc_frames.specs.declared.acts.Given.TheVariants.{ANumber};
ghost use Rattle.cjc_frames.specs.declared.acts.Need.TheVariants.{NumberWord, ReferenceWord};
ghost use Rattle.cjc_int_accepted.specs.Acts.{taking};
ghost use Rattle.cjc_int_accepted.specs.Frames.{Room};
ghost use Rattle.cjc_int_accepted.specs.Runs.{IsOn, Runs};
ghost use Rattle.cjc_types.specs.Bytecode.declared.insn.JCase.{JCase};
ghost use Rattle.cjc_types.specs.Flow.{Body};
ghost use Rattle.cjc_types.specs.Rules.{has_wrong as has_wrong_by_name, tests_references};
ghost use Rattle.cjc_types.specs.Steps.{compares};
ghost use Rattle.cjc_types.specs.World.Classes.{Class};
ghost use Rattle.cjc_types.specs.declared.cell.Cell.{Cell};
ghost use Rattle.cjc_verify.specs.CardActs.Rows.{calculating, number_words, pushing};
ghost use Rattle.cjc_types.specs.Bytecode.declared.insn.JOp.TheVariants as jop;

/// What is written for a jump goes from the words of its frame to those of the frame behind it, wherever it leads:
/// of references as outside int mode, of a number by iconst_0 and icmp, of two by icmp.
pub fn jumps_run_in_int_mode()
    ensures references { (card_type : List ℕ → Option (List ℕ)) (is_of : Subtype) (m : Room) (max_stack : ℕ) (w :
        List Class) (b : Body) → (op target : ℕ) (targets : List ℕ) → compares op ≡ false → tests_references op ≡
        true → (ls s : List Cell) → IsOn max_stack (jop.If op target) ls s → has_wrong_by_name w b (jop.If op
        target) 1 0 s ≡ false → Runs card_type is_of m max_stack (jop.If op target) (taking (ReferenceWord ∷ []) []
        true targets ∷ []) ls s }
    ensures pairs_of_references { (card_type : List ℕ → Option (List ℕ)) (is_of : Subtype) (m : Room) (max_stack :
        ℕ) (w : List Class) (b : Body) → (op target : ℕ) (targets : List ℕ) → compares op ≡ true → tests_references
        op ≡ true → (ls s : List Cell) → IsOn max_stack (jop.If op target) ls s → has_wrong_by_name w b (jop.If op
        target) 2 0 s ≡ false → Runs card_type is_of m max_stack (jop.If op target) (taking (ReferenceWord ∷
        ReferenceWord ∷ []) [] true targets ∷ []) ls s }
    ensures numbers { (card_type : List ℕ → Option (List ℕ)) (is_of : Subtype) (m : Room) (max_stack : ℕ) (w : List
        Class) (b : Body) → (op target : ℕ) (targets : List ℕ) → compares op ≡ false → tests_references op ≡ false →
        (ls s : List Cell) → IsOn max_stack (jop.If op target) ls s → has_wrong_by_name w b (jop.If op target) 1 0 s
        ≡ false → Runs card_type is_of m max_stack (jop.If op target) (pushing (ANumber ∷ ANumber ∷ []) ∷
        calculating 4 1 ∷ taking (NumberWord ∷ []) [] true targets ∷ []) ls s }
    ensures pairs_of_numbers { (card_type : List ℕ → Option (List ℕ)) (is_of : Subtype) (m : Room) (max_stack : ℕ)
        (w : List Class) (b : Body) → (op target : ℕ) (targets : List ℕ) → compares op ≡ true → tests_references op
        ≡ false → (ls s : List Cell) → IsOn max_stack (jop.If op target) ls s → has_wrong_by_name w b (jop.If op
        target) 2 0 s ≡ false → Runs card_type is_of m max_stack (jop.If op target) (calculating 4 1 ∷ taking
        (NumberWord ∷ []) [] true targets ∷ []) ls s }
{}

/// So does what is written for a switch.
pub fn switches_run_in_int_mode()
    ensures tables { (card_type : List ℕ → Option (List ℕ)) (is_of : Subtype) (m : Room) (max_stack : ℕ) (w : List
        Class) (b : Body) → (other : ℕ) (low : ℤ) (cases targets : List ℕ) (ls s : List Cell) → IsOn max_stack
        (jop.TableSwitch other low cases) ls s → has_wrong_by_name w b (jop.TableSwitch other low cases) 1 0 s ≡
        false → Runs card_type is_of m max_stack (jop.TableSwitch other low cases) (taking (number_words 2) [] false
        targets ∷ []) ls s }
    ensures matches { (card_type : List ℕ → Option (List ℕ)) (is_of : Subtype) (m : Room) (max_stack : ℕ) (w : List
        Class) (b : Body) → (other : ℕ) (cases : List JCase) (targets : List ℕ) (ls s : List Cell) → IsOn max_stack
        (jop.LookupSwitch other cases) ls s → has_wrong_by_name w b (jop.LookupSwitch other cases) 1 0 s ≡ false →
        Runs card_type is_of m max_stack (jop.LookupSwitch other cases) (taking (number_words 2) [] false targets ∷
        []) ls s }
{}
