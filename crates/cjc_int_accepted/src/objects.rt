//! Rows of what makes and tests objects and arrays in int mode.
ghost use Rattle.std.specs.List.{list_all};
ghost use Rattle.std.specs.Prelude.{List, Option, Some, [], false, true, ℕ, ◌∷◌, ◌≡◌};
ghost use Rattle.cjc_accepted_proof.specs.Frames.{SubtypesAgree, types_named};
ghost use Rattle.cjc_frames.specs.Acts.{Subtype};
ghost use Rattle.cjc_frames.specs.Types.{begins_with};
ghost use Rattle.cjc_frames.specs.declared.acts.Given.TheVariants.{ANumber, AnObject};
ghost use Rattle.cjc_frames.specs.declared.acts.Need.TheVariants.{NumberWord, OfArrays, OfType, ReferenceWord};
ghost use Rattle.cjc_int_accepted.specs.Acts.{taking};
ghost use Rattle.cjc_int_accepted.specs.Frames.{Room};
ghost use Rattle.cjc_int_accepted.specs.Runs.{IsOn, Runs};
ghost use Rattle.cjc_types.specs.Flow.{Body};
ghost use Rattle.cjc_types.specs.Rules.{has_wrong as has_wrong_by_name, throwable};
ghost use Rattle.cjc_types.specs.Types.{array_of, letter};
ghost use Rattle.cjc_types.specs.World.Classes.{Class};
ghost use Rattle.cjc_types.specs.declared.cell.Cell.{Cell};
ghost use Rattle.cjc_types.specs.declared.cell.Cell.TheVariants.{Refs};
ghost use Rattle.cjc_verify.specs.CardActs.CardTypes.{all_arrays};
ghost use Rattle.cjc_verify.specs.CardActs.Rows.{calculating};
ghost use Rattle.cjc_types.specs.Bytecode.declared.insn.JOp.TheVariants as jop;

/// What is written for new, newarray and anewarray goes from the words of its frame to those of the frame behind
/// it: the length is cut to a word.
pub fn makings_run_in_int_mode()
    ensures objects { (card_type : List ℕ → Option (List ℕ)) (is_of : Subtype) (m : Room) (max_stack : ℕ) → (class
        type : List ℕ) → card_type class ≡ Some type → (ls s : List Cell) → IsOn max_stack (jop.New class) ls s →
        Runs card_type is_of m max_stack (jop.New class) (taking [] (AnObject type ∷ []) true [] ∷ []) ls s }
    ensures numbers { (card_type : List ℕ → Option (List ℕ)) (is_of : Subtype) (m : Room) (max_stack : ℕ) (w : List
        Class) (b : Body) → (number : ℕ) (type : List ℕ) → card_type (91 ∷ letter number ∷ []) ≡ Some type → (ls s :
        List Cell) → IsOn max_stack (jop.NewArray number) ls s → has_wrong_by_name w b (jop.NewArray number) 1 0 s ≡
        false → Runs card_type is_of m max_stack (jop.NewArray number) (calculating 2 1 ∷ taking (NumberWord ∷ [])
        (AnObject type ∷ []) true [] ∷ []) ls s }
    ensures references { (card_type : List ℕ → Option (List ℕ)) (is_of : Subtype) (m : Room) (max_stack : ℕ) (w :
        List Class) (b : Body) → (class type : List ℕ) → card_type (array_of class) ≡ Some type → (ls s : List Cell)
        → IsOn max_stack (jop.ANewArray class) ls s → has_wrong_by_name w b (jop.ANewArray class) 1 0 s ≡ false →
        Runs card_type is_of m max_stack (jop.ANewArray class) (calculating 2 1 ∷ taking (NumberWord ∷ []) (AnObject
        type ∷ []) true [] ∷ []) ls s }
{}

/// So does what is written for arraylength, checkcast, instanceof and athrow.
pub fn tests_run_in_int_mode()
    ensures lengths { (card_type : List ℕ → Option (List ℕ)) (is_of : Subtype) (m : Room) (max_stack : ℕ) (w : List
        Class) (b : Body) → (ls : List Cell) (names : List (List ℕ)) (s : List Cell) → IsOn max_stack
        jop.ArrayLength ls (Refs names ∷ s) → list_all (begins_with all_arrays) (types_named card_type names) ≡ true
        → Runs card_type is_of m max_stack jop.ArrayLength (taking (OfArrays all_arrays ∷ []) (ANumber ∷ []) true []
        ∷ calculating 1 2 ∷ []) ls (Refs names ∷ s) }
    ensures casts { (card_type : List ℕ → Option (List ℕ)) (is_of : Subtype) (m : Room) (max_stack : ℕ) (w : List
        Class) (b : Body) → (class type : List ℕ) → card_type class ≡ Some type → (ls s : List Cell) → IsOn
        max_stack (jop.CheckCast class) ls s → has_wrong_by_name w b (jop.CheckCast class) 1 0 s ≡ false → Runs
        card_type is_of m max_stack (jop.CheckCast class) (taking (ReferenceWord ∷ []) (AnObject type ∷ []) true []
        ∷ []) ls s }
    ensures asks { (card_type : List ℕ → Option (List ℕ)) (is_of : Subtype) (m : Room) (max_stack : ℕ) (w : List
        Class) (b : Body) → (class : List ℕ) (ls s : List Cell) → IsOn max_stack (jop.InstanceOf class) ls s →
        has_wrong_by_name w b (jop.InstanceOf class) 1 0 s ≡ false → Runs card_type is_of m max_stack
        (jop.InstanceOf class) (taking (ReferenceWord ∷ []) (ANumber ∷ []) true [] ∷ calculating 1 2 ∷ []) ls s }
    ensures throws { (card_type : List ℕ → Option (List ℕ)) (is_of : Subtype) (m : Room) (max_stack : ℕ) (w : List
        Class) (b : Body) (agree : SubtypesAgree card_type is_of w) → (type : List ℕ) → card_type throwable ≡ Some
        type → (ls s : List Cell) → IsOn max_stack jop.Throw ls s → has_wrong_by_name w b jop.Throw 1 0 s ≡ false →
        Runs card_type is_of m max_stack jop.Throw (taking (OfType type ∷ []) [] false [] ∷ []) ls s }
{}
