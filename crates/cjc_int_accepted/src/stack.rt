//! Rows of the stack's instructions in int mode, by the words of the cells.
ghost use Rattle.std.specs.Prelude.{List, Option, [], ℕ, ◌+◌, ◌∷◌};
ghost use Rattle.cjc_frames.specs.Acts.{Subtype};
ghost use Rattle.cjc_int_accepted.specs.Acts.{dropping};
ghost use Rattle.cjc_int_accepted.specs.Frames.{Room, count_of};
ghost use Rattle.cjc_int_accepted.specs.Runs.{IsOn, Runs};
ghost use Rattle.cjc_types.specs.declared.cell.Cell.{Cell};
ghost use Rattle.cjc_verify.specs.CardActs.Rows.{copying, swapping};
ghost use Rattle.cjc_types.specs.Bytecode.Jvm as jvm;
ghost use Rattle.cjc_types.specs.Bytecode.declared.insn.JOp.TheVariants as jop;

/// What is written for pop and pop2 goes from the words of its frame to those of the frame behind it.
pub fn cells_are_dropped_in_int_mode()
    ensures one { (card_type : List ℕ → Option (List ℕ)) (is_of : Subtype) (m : Room) (max_stack : ℕ) → (ls : List
        Cell) (x : Cell) (rest : List Cell) → IsOn max_stack (jop.Stack jvm.pop) ls (x ∷ rest) → Runs card_type
        is_of m max_stack (jop.Stack jvm.pop) (dropping card_type x ∷ []) ls (x ∷ rest) }
    ensures two { (card_type : List ℕ → Option (List ℕ)) (is_of : Subtype) (m : Room) (max_stack : ℕ) → (ls : List
        Cell) (x y : Cell) (rest : List Cell) → IsOn max_stack (jop.Stack jvm.pop2) ls (x ∷ y ∷ rest) → Runs
        card_type is_of m max_stack (jop.Stack jvm.pop2) (dropping card_type x ∷ dropping card_type y ∷ []) ls (x ∷
        y ∷ rest) }
{}

/// So does what is written for the other instructions of the stack, whichever cells are references and have one
/// word.
pub fn cells_are_copied_in_int_mode()
    ensures dup { (card_type : List ℕ → Option (List ℕ)) (is_of : Subtype) (m : Room) (max_stack : ℕ) → (ls : List
        Cell) (x : Cell) (rest : List Cell) → IsOn max_stack (jop.Stack jvm.dup) ls (x ∷ rest) → Runs card_type
        is_of m max_stack (jop.Stack jvm.dup) (copying (count_of card_type (x ∷ [])) (count_of card_type (x ∷ []) +
        count_of card_type []) ∷ []) ls (x ∷ rest) }
    ensures dup2 { (card_type : List ℕ → Option (List ℕ)) (is_of : Subtype) (m : Room) (max_stack : ℕ) → (ls : List
        Cell) (x y : Cell) (rest : List Cell) → IsOn max_stack (jop.Stack jvm.dup2) ls (x ∷ y ∷ rest) → Runs
        card_type is_of m max_stack (jop.Stack jvm.dup2) (copying (count_of card_type (x ∷ y ∷ [])) (count_of
        card_type (x ∷ y ∷ []) + count_of card_type []) ∷ []) ls (x ∷ y ∷ rest) }
    ensures dup_x1 { (card_type : List ℕ → Option (List ℕ)) (is_of : Subtype) (m : Room) (max_stack : ℕ) → (ls :
        List Cell) (x y : Cell) (rest : List Cell) → IsOn max_stack (jop.Stack jvm.dup_x1) ls (x ∷ y ∷ rest) → Runs
        card_type is_of m max_stack (jop.Stack jvm.dup_x1) (copying (count_of card_type (x ∷ [])) (count_of
        card_type (x ∷ []) + count_of card_type (y ∷ [])) ∷ []) ls (x ∷ y ∷ rest) }
    ensures dup_x2 { (card_type : List ℕ → Option (List ℕ)) (is_of : Subtype) (m : Room) (max_stack : ℕ) → (ls :
        List Cell) (x y z : Cell) (rest : List Cell) → IsOn max_stack (jop.Stack jvm.dup_x2) ls (x ∷ y ∷ z ∷ rest) →
        Runs card_type is_of m max_stack (jop.Stack jvm.dup_x2) (copying (count_of card_type (x ∷ [])) (count_of
        card_type (x ∷ []) + count_of card_type (y ∷ z ∷ [])) ∷ []) ls (x ∷ y ∷ z ∷ rest) }
    ensures dup2_x1 { (card_type : List ℕ → Option (List ℕ)) (is_of : Subtype) (m : Room) (max_stack : ℕ) → (ls :
        List Cell) (x y z : Cell) (rest : List Cell) → IsOn max_stack (jop.Stack jvm.dup2_x1) ls (x ∷ y ∷ z ∷ rest)
        → Runs card_type is_of m max_stack (jop.Stack jvm.dup2_x1) (copying (count_of card_type (x ∷ y ∷ []))
        (count_of card_type (x ∷ y ∷ []) + count_of card_type (z ∷ [])) ∷ []) ls (x ∷ y ∷ z ∷ rest) }
    ensures dup2_x2 { (card_type : List ℕ → Option (List ℕ)) (is_of : Subtype) (m : Room) (max_stack : ℕ) → (ls :
        List Cell) (x y z u : Cell) (rest : List Cell) → IsOn max_stack (jop.Stack jvm.dup2_x2) ls (x ∷ y ∷ z ∷ u ∷
        rest) → Runs card_type is_of m max_stack (jop.Stack jvm.dup2_x2) (copying (count_of card_type (x ∷ y ∷ []))
        (count_of card_type (x ∷ y ∷ []) + count_of card_type (z ∷ u ∷ [])) ∷ []) ls (x ∷ y ∷ z ∷ u ∷ rest) }
    ensures swap { (card_type : List ℕ → Option (List ℕ)) (is_of : Subtype) (m : Room) (max_stack : ℕ) → (ls : List
        Cell) (x y : Cell) (rest : List Cell) → IsOn max_stack (jop.Stack jvm.swap) ls (x ∷ y ∷ rest) → Runs
        card_type is_of m max_stack (jop.Stack jvm.swap) (swapping (count_of card_type (x ∷ [])) (count_of card_type
        (y ∷ [])) ∷ []) ls (x ∷ y ∷ rest) }
{}
