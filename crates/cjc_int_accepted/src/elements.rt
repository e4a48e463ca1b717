//! Rows of elements of arrays in int mode: the index becomes one word by its guard.
ghost use Rattle.std.specs.Prelude.{Bool, List, Option, false, ℕ, ◌++◌, ◌==◌, ◌∷◌, ◌≡◌};
ghost use Rattle.cjc_accepted_proof.specs.Frames.{card_cell, types_named};
ghost use Rattle.cjc_frames.specs.Acts.{Subtype};
ghost use Rattle.cjc_frames.specs.Types.{element_of};
ghost use Rattle.cjc_int_accepted.specs.Acts.{guarding, reading_item, writing_item};
ghost use Rattle.cjc_int_accepted.specs.Frames.{Room};
ghost use Rattle.cjc_int_accepted.specs.Runs.{IsOn, Runs};
ghost use Rattle.cjc_int_accepted.specs.Types.{ServesItems};
ghost use Rattle.cjc_types.specs.Cells.{IsCellBelow};
ghost use Rattle.cjc_types.specs.Types.{element_of as element_by_name};
ghost use Rattle.cjc_types.specs.declared.cell.Cell.{Cell};
ghost use Rattle.cjc_types.specs.declared.cell.Cell.TheVariants.{Number, Refs};
ghost use Rattle.cjc_types.specs.Bytecode.Jvm as jvm;
ghost use Rattle.cjc_types.specs.Bytecode.declared.insn.JOp.TheVariants as jop;
ghost use Rattle.cjc_verify.specs.CardSemantics.Bytecode.Effects as letters;

/// What is written for a load of an element goes from the words of its frame to those of the frame behind it,
/// whether the index is known to lie within 16 bits or not.
pub fn elements_are_loaded_in_int_mode()
    ensures bytes { (card_type : List ℕ → Option (List ℕ)) (is_of : Subtype) (m : Room) (max_stack : ℕ) (op : ℕ)
        (inside : Bool) (targets : List ℕ) (ls : List Cell) (names : List (List ℕ)) (s : List Cell) (on : IsOn
        max_stack (jop.ArrayLoad op) ls (Number ∷ Refs names ∷ s)) → ServesItems card_type letters.Byte names → (op
        == jvm.aaload) ≡ false → Runs card_type is_of m max_stack (jop.ArrayLoad op) (guarding inside targets ++
        reading_item letters.Byte) ls (Number ∷ Refs names ∷ s) }
    ensures shorts { (card_type : List ℕ → Option (List ℕ)) (is_of : Subtype) (m : Room) (max_stack : ℕ) (op : ℕ)
        (inside : Bool) (targets : List ℕ) (ls : List Cell) (names : List (List ℕ)) (s : List Cell) (on : IsOn
        max_stack (jop.ArrayLoad op) ls (Number ∷ Refs names ∷ s)) → ServesItems card_type letters.Short names → (op
        == jvm.aaload) ≡ false → Runs card_type is_of m max_stack (jop.ArrayLoad op) (guarding inside targets ++
        reading_item letters.Short) ls (Number ∷ Refs names ∷ s) }
    ensures ints { (card_type : List ℕ → Option (List ℕ)) (is_of : Subtype) (m : Room) (max_stack : ℕ) (op : ℕ)
        (inside : Bool) (targets : List ℕ) (ls : List Cell) (names : List (List ℕ)) (s : List Cell) (on : IsOn
        max_stack (jop.ArrayLoad op) ls (Number ∷ Refs names ∷ s)) → ServesItems card_type letters.Int names → (op
        == jvm.aaload) ≡ false → Runs card_type is_of m max_stack (jop.ArrayLoad op) (guarding inside targets ++
        reading_item letters.Int) ls (Number ∷ Refs names ∷ s) }
    ensures references { (card_type : List ℕ → Option (List ℕ)) (is_of : Subtype) (m : Room) (max_stack : ℕ) →
        (inside : Bool) (targets : List ℕ) (ls : List Cell) (names : List (List ℕ)) (s : List Cell) → IsOn max_stack
        (jop.ArrayLoad jvm.aaload) ls (Number ∷ Refs names ∷ s) → ServesItems card_type letters.Reference names →
        IsCellBelow (element_of (Refs (types_named card_type names))) (card_cell card_type (element_by_name
        jvm.aaload (Refs names))) → Runs card_type is_of m max_stack (jop.ArrayLoad jvm.aaload) (guarding inside
        targets ++ reading_item letters.Reference) ls (Number ∷ Refs names ∷ s) }
{}

/// So does what is written for a store of one.
pub fn elements_are_stored_in_int_mode()
    ensures bytes { (card_type : List ℕ → Option (List ℕ)) (is_of : Subtype) (m : Room) (max_stack : ℕ) (op : ℕ)
        (inside : Bool) (targets : List ℕ) (ls : List Cell) (names : List (List ℕ)) (s : List Cell) → IsOn max_stack
        (jop.ArrayStore op) ls (Number ∷ Number ∷ Refs names ∷ s) → ServesItems card_type letters.Byte names → Runs
        card_type is_of m max_stack (jop.ArrayStore op) (writing_item letters.Byte inside targets) ls (Number ∷
        Number ∷ Refs names ∷ s) }
    ensures shorts { (card_type : List ℕ → Option (List ℕ)) (is_of : Subtype) (m : Room) (max_stack : ℕ) (op : ℕ)
        (inside : Bool) (targets : List ℕ) (ls : List Cell) (names : List (List ℕ)) (s : List Cell) → IsOn max_stack
        (jop.ArrayStore op) ls (Number ∷ Number ∷ Refs names ∷ s) → ServesItems card_type letters.Short names → Runs
        card_type is_of m max_stack (jop.ArrayStore op) (writing_item letters.Short inside targets) ls (Number ∷
        Number ∷ Refs names ∷ s) }
    ensures ints { (card_type : List ℕ → Option (List ℕ)) (is_of : Subtype) (m : Room) (max_stack : ℕ) (op : ℕ)
        (inside : Bool) (targets : List ℕ) (ls : List Cell) (names : List (List ℕ)) (s : List Cell) → IsOn max_stack
        (jop.ArrayStore op) ls (Number ∷ Number ∷ Refs names ∷ s) → ServesItems card_type letters.Int names → Runs
        card_type is_of m max_stack (jop.ArrayStore op) (writing_item letters.Int inside targets) ls (Number ∷
        Number ∷ Refs names ∷ s) }
    ensures references { (card_type : List ℕ → Option (List ℕ)) (is_of : Subtype) (m : Room) (max_stack : ℕ) (op :
        ℕ) (inside : Bool) (targets : List ℕ) (ls : List Cell) (names : List (List ℕ)) (s : List Cell) → (others :
        List (List ℕ)) → IsOn max_stack (jop.ArrayStore op) ls (Refs others ∷ Number ∷ Refs names ∷ s) → ServesItems
        card_type letters.Reference names → Runs card_type is_of m max_stack (jop.ArrayStore op) (writing_item
        letters.Reference inside targets) ls (Refs others ∷ Number ∷ Refs names ∷ s) }
{}
