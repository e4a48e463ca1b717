//! The acts of what is written in int mode for an instruction that names nothing, where it is laid.
ghost use Rattle.std.specs.Prelude.{Bool, List, Option, Some, [], false, map, nat_le, true, ℕ, ℤ, ◌++◌, ◌+◌, ◌==◌};
ghost use Rattle.std.specs.Prelude.{◌∷◌, ◌≡◌};
ghost use Rattle.cjc_check_proof.specs.NCode.Lowering.Naming.{Naming};
ghost use Rattle.cjc_check_proof.specs.NCode.Written.{Resolution};
ghost use Rattle.cjc_frames.specs.declared.acts.Given.TheVariants.{ANull, ANumber};
ghost use Rattle.cjc_frames.specs.declared.acts.Need.TheVariants.{NumberWord, ReferenceWord};
ghost use Rattle.cjc_int_accepted.specs.Acts.{cutting, dropping, guarding, letter_of_local, reading_item, taking};
ghost use Rattle.cjc_int_accepted.specs.Acts.{writing_item};
ghost use Rattle.cjc_int_accepted.specs.Frames.{count_of};
ghost use Rattle.cjc_int_accepted.specs.Laid.{IsNumberAs, acts_laid, guard_of_store, letter_loaded, letter_stored};
ghost use Rattle.cjc_int_accepted.specs.Laid.{references_in};
ghost use Rattle.cjc_ncode.specs.IntCode.IntCode.{Before, Frame, first_word, written};
ghost use Rattle.cjc_types.specs.Bytecode.Jvm as jvm;
ghost use Rattle.cjc_types.specs.Bytecode.declared.insn.JCase.{JCase};
ghost use Rattle.cjc_types.specs.Bytecode.declared.insn.JOp.TheVariants as jop;
ghost use Rattle.cjc_types.specs.Steps.{case_target};
ghost use Rattle.cjc_types.specs.declared.cell.Cell.{Cell};
ghost use Rattle.cjc_verify.specs.CardActs.CardTypes as types;
ghost use Rattle.cjc_verify.specs.CardActs.CardTypes.{ValueType, needs_of};
ghost use Rattle.cjc_verify.specs.Script.Sorts.{Sort};
ghost use Rattle.cjc_verify.specs.CardActs.Rows.{calculating, copying, increasing, loading, number_words, pushing};
ghost use Rattle.cjc_verify.specs.CardActs.Rows.{storing, swapping};
ghost use Rattle.cjc_verify.specs.CardSemantics.Bytecode.Effects.{Int};
ghost use Rattle.cjc_verify.specs.Pairs.{Pair};

/// What is written in int mode for constants, locals and arithmetic has the acts of their rows, wherever it is laid.
pub fn plain_instructions_are_written_with_their_acts()
    ensures nothing { (p : Pair) (result : ValueType) (n : Naming) (to : ℕ → ℕ) (wide : ℕ → Bool) (f : Frame) (r :
        Resolution) (place : ℕ → ℕ) (b : Before) (here : ℕ) → acts_laid p result n to wide here (written f r place b
        here jop.Nop) ≡ [] }
    ensures null { (p : Pair) (result : ValueType) (n : Naming) (to : ℕ → ℕ) (wide : ℕ → Bool) (f : Frame) (r :
        Resolution) (place : ℕ → ℕ) (b : Before) (here : ℕ) → acts_laid p result n to wide here (written f r place b
        here jop.Null) ≡ pushing (ANull ∷ []) ∷ [] }
    ensures numbers { (p : Pair) (result : ValueType) (n : Naming) (to : ℕ → ℕ) (wide : ℕ → Bool) (f : Frame) (r :
        Resolution) (place : ℕ → ℕ) (b : Before) (here : ℕ) (z : ℤ) → acts_laid p result n to wide here (written f r
        place b here (jop.Number z)) ≡ pushing (ANumber ∷ ANumber ∷ []) ∷ [] }
    ensures loads { (p : Pair) (result : ValueType) (n : Naming) (to : ℕ → ℕ) (wide : ℕ → Bool) (f : Frame) (r :
        Resolution) (place : ℕ → ℕ) (b : Before) (here : ℕ) (refs : Bool) (l : ℕ) → acts_laid p result n to wide
        here (written f r place b here (jop.Load refs l)) ≡ loading (letter_of_local refs) (first_word f l) ∷ [] }
    ensures stores { (p : Pair) (result : ValueType) (n : Naming) (to : ℕ → ℕ) (wide : ℕ → Bool) (f : Frame) (r :
        Resolution) (place : ℕ → ℕ) (b : Before) (here : ℕ) (refs : Bool) (l : ℕ) → acts_laid p result n to wide
        here (written f r place b here (jop.Store refs l)) ≡ storing (letter_of_local refs) (first_word f l) ∷ [] }
    ensures increases { (p : Pair) (result : ValueType) (n : Naming) (to : ℕ → ℕ) (wide : ℕ → Bool) (f : Frame) (r :
        Resolution) (place : ℕ → ℕ) (b : Before) (here : ℕ) (l : ℕ) (z : ℤ) → acts_laid p result n to wide here
        (written f r place b here (jop.Inc l z)) ≡ increasing Int (first_word f l) ∷ [] }
    ensures negation { (p : Pair) (result : ValueType) (n : Naming) (to : ℕ → ℕ) (wide : ℕ → Bool) (f : Frame) (r :
        Resolution) (place : ℕ → ℕ) (b : Before) (here : ℕ) → acts_laid p result n to wide here (written f r place b
        here (jop.Arith jvm.ineg)) ≡ calculating 2 2 ∷ [] }
    ensures arithmetic { (p : Pair) (result : ValueType) (n : Naming) (to : ℕ → ℕ) (wide : ℕ → Bool) (f : Frame) (r
        : Resolution) (place : ℕ → ℕ) (b : Before) (here : ℕ) (op : ℕ) → (op == jvm.ineg) ≡ false → acts_laid p
        result n to wide here (written f r place b here (jop.Arith op)) ≡ calculating 4 2 ∷ [] }
    ensures narrowing { (p : Pair) (result : ValueType) (n : Naming) (to : ℕ → ℕ) (wide : ℕ → Bool) (f : Frame) (r :
        Resolution) (place : ℕ → ℕ) (b : Before) (here : ℕ) (op : ℕ) → acts_laid p result n to wide here (written f
        r place b here (jop.Narrow op)) ≡ calculating 2 1 ∷ calculating 1 2 ∷ [] }
{}

/// What is written for a load or a store of an element has the acts of its row: the jump of the guard of an index leads
/// to its last instruction.
pub fn elements_are_written_with_their_acts()
    ensures loads { (p : Pair) (result : ValueType) (n : Naming) (to : ℕ → ℕ) (wide : ℕ → Bool) (f : Frame) (r :
        Resolution) (place : ℕ → ℕ) (b : Before) (here : ℕ) (op : ℕ) → acts_laid p result n to wide here (written f
        r place b here (jop.ArrayLoad op)) ≡ guarding b.is_index_inside (to (here + 8) ∷ []) ++ reading_item
        (letter_loaded op) }
    ensures stores { (p : Pair) (result : ValueType) (n : Naming) (to : ℕ → ℕ) (wide : ℕ → Bool) (f : Frame) (r :
        Resolution) (place : ℕ → ℕ) (b : Before) (here : ℕ) (op : ℕ) → acts_laid p result n to wide here (written f
        r place b here (jop.ArrayStore op)) ≡ writing_item (letter_stored op) b.is_index_inside (to (guard_of_store
        (letter_stored op) here + 8) ∷ []) }
{}

/// What is written for jumps and switches has the acts of their rows and leads to what is written for their targets.
pub fn jumps_are_written_with_their_acts()
    ensures numbers { (p : Pair) (result : ValueType) (n : Naming) (to : ℕ → ℕ) (wide : ℕ → Bool) (f : Frame) (r :
        Resolution) (place : ℕ → ℕ) (b : Before) (here : ℕ) (op target : ℕ) → nat_le op jvm.ifle ≡ true → acts_laid
        p result n to wide here (written f r place b here (jop.If op target)) ≡ pushing (ANumber ∷ ANumber ∷ []) ∷
        calculating 4 1 ∷ taking (NumberWord ∷ []) [] true (to (place target) ∷ []) ∷ [] }
    ensures pairs_of_numbers { (p : Pair) (result : ValueType) (n : Naming) (to : ℕ → ℕ) (wide : ℕ → Bool) (f :
        Frame) (r : Resolution) (place : ℕ → ℕ) (b : Before) (here : ℕ) (op target : ℕ) → nat_le op jvm.ifle ≡ false
        → nat_le op jvm.if_icmple ≡ true → acts_laid p result n to wide here (written f r place b here (jop.If op
        target)) ≡ calculating 4 1 ∷ taking (NumberWord ∷ []) [] true (to (place target) ∷ []) ∷ [] }
    ensures same_references { (p : Pair) (result : ValueType) (n : Naming) (to : ℕ → ℕ) (wide : ℕ → Bool) (f :
        Frame) (r : Resolution) (place : ℕ → ℕ) (b : Before) (here : ℕ) (target : ℕ) → acts_laid p result n to wide
        here (written f r place b here (jop.If jvm.if_acmpeq target)) ≡ taking (ReferenceWord ∷ ReferenceWord ∷ [])
        [] true (to (place target) ∷ []) ∷ [] }
    ensures other_references { (p : Pair) (result : ValueType) (n : Naming) (to : ℕ → ℕ) (wide : ℕ → Bool) (f :
        Frame) (r : Resolution) (place : ℕ → ℕ) (b : Before) (here : ℕ) (target : ℕ) → acts_laid p result n to wide
        here (written f r place b here (jop.If jvm.if_acmpne target)) ≡ taking (ReferenceWord ∷ ReferenceWord ∷ [])
        [] true (to (place target) ∷ []) ∷ [] }
    ensures nulls { (p : Pair) (result : ValueType) (n : Naming) (to : ℕ → ℕ) (wide : ℕ → Bool) (f : Frame) (r :
        Resolution) (place : ℕ → ℕ) (b : Before) (here : ℕ) (target : ℕ) → acts_laid p result n to wide here
        (written f r place b here (jop.If jvm.ifnull target)) ≡ taking (ReferenceWord ∷ []) [] true (to (place
        target) ∷ []) ∷ [] }
    ensures objects { (p : Pair) (result : ValueType) (n : Naming) (to : ℕ → ℕ) (wide : ℕ → Bool) (f : Frame) (r :
        Resolution) (place : ℕ → ℕ) (b : Before) (here : ℕ) (target : ℕ) → acts_laid p result n to wide here
        (written f r place b here (jop.If jvm.ifnonnull target)) ≡ taking (ReferenceWord ∷ []) [] true (to (place
        target) ∷ []) ∷ [] }
    ensures gotos { (p : Pair) (result : ValueType) (n : Naming) (to : ℕ → ℕ) (wide : ℕ → Bool) (f : Frame) (r :
        Resolution) (place : ℕ → ℕ) (b : Before) (here : ℕ) (target : ℕ) → acts_laid p result n to wide here
        (written f r place b here (jop.Goto target)) ≡ taking [] [] false (to (place target) ∷ []) ∷ [] }
    ensures tables { (p : Pair) (result : ValueType) (n : Naming) (to : ℕ → ℕ) (wide : ℕ → Bool) (f : Frame) (r :
        Resolution) (place : ℕ → ℕ) (b : Before) (here : ℕ) (other : ℕ) (low : ℤ) (ts : List ℕ) → acts_laid p result
        n to wide here (written f r place b here (jop.TableSwitch other low ts)) ≡ taking (number_words 2) [] false
        (map (λ t. to (place t)) (other ∷ ts)) ∷ [] }
    ensures matches { (p : Pair) (result : ValueType) (n : Naming) (to : ℕ → ℕ) (wide : ℕ → Bool) (f : Frame) (r :
        Resolution) (place : ℕ → ℕ) (b : Before) (here : ℕ) (other : ℕ) (cases : List JCase) → acts_laid p result n
        to wide here (written f r place b here (jop.LookupSwitch other cases)) ≡ taking (number_words 2) [] false
        (map (λ t. to (place t)) (other ∷ map case_target cases)) ∷ [] }
{}

/// What is written for an instruction of the stack has the act of its row, by the words of the cells: those that the
/// table says are references have one.
pub fn stack_instructions_are_written_with_their_acts()
    ensures pop { (p : Pair) (result : ValueType) (n : Naming) (to : ℕ → ℕ) (wide : ℕ → Bool) (f : Frame) (r :
        Resolution) (place : ℕ → ℕ) (b : Before) (here : ℕ) (card_type : List ℕ → Option (List ℕ)) (x : Cell) (rest
        : List Cell) → b.references ≡ references_in (x ∷ rest) → acts_laid p result n to wide here (written f r
        place b here (jop.Stack jvm.pop)) ≡ dropping card_type x ∷ [] }
    ensures pop2 { (p : Pair) (result : ValueType) (n : Naming) (to : ℕ → ℕ) (wide : ℕ → Bool) (f : Frame) (r :
        Resolution) (place : ℕ → ℕ) (b : Before) (here : ℕ) (card_type : List ℕ → Option (List ℕ)) (x y : Cell)
        (rest : List Cell) → b.references ≡ references_in (x ∷ y ∷ rest) → acts_laid p result n to wide here
        (written f r place b here (jop.Stack jvm.pop2)) ≡ dropping card_type x ∷ dropping card_type y ∷ [] }
    ensures dup { (p : Pair) (result : ValueType) (n : Naming) (to : ℕ → ℕ) (wide : ℕ → Bool) (f : Frame) (r :
        Resolution) (place : ℕ → ℕ) (b : Before) (here : ℕ) (card_type : List ℕ → Option (List ℕ)) (x : Cell) (rest
        : List Cell) → b.references ≡ references_in (x ∷ rest) → acts_laid p result n to wide here (written f r
        place b here (jop.Stack jvm.dup)) ≡ copying (count_of card_type (x ∷ [])) (count_of card_type (x ∷ []) +
        count_of card_type []) ∷ [] }
    ensures dup2 { (p : Pair) (result : ValueType) (n : Naming) (to : ℕ → ℕ) (wide : ℕ → Bool) (f : Frame) (r :
        Resolution) (place : ℕ → ℕ) (b : Before) (here : ℕ) (card_type : List ℕ → Option (List ℕ)) (x y : Cell)
        (rest : List Cell) → b.references ≡ references_in (x ∷ y ∷ rest) → acts_laid p result n to wide here
        (written f r place b here (jop.Stack jvm.dup2)) ≡ copying (count_of card_type (x ∷ y ∷ [])) (count_of
        card_type (x ∷ y ∷ []) + count_of card_type []) ∷ [] }
    ensures dup_x1 { (p : Pair) (result : ValueType) (n : Naming) (to : ℕ → ℕ) (wide : ℕ → Bool) (f : Frame) (r :
        Resolution) (place : ℕ → ℕ) (b : Before) (here : ℕ) (card_type : List ℕ → Option (List ℕ)) (x y : Cell)
        (rest : List Cell) → b.references ≡ references_in (x ∷ y ∷ rest) → acts_laid p result n to wide here
        (written f r place b here (jop.Stack jvm.dup_x1)) ≡ copying (count_of card_type (x ∷ [])) (count_of
        card_type (x ∷ []) + count_of card_type (y ∷ [])) ∷ [] }
    ensures dup_x2 { (p : Pair) (result : ValueType) (n : Naming) (to : ℕ → ℕ) (wide : ℕ → Bool) (f : Frame) (r :
        Resolution) (place : ℕ → ℕ) (b : Before) (here : ℕ) (card_type : List ℕ → Option (List ℕ)) (x y z : Cell)
        (rest : List Cell) → b.references ≡ references_in (x ∷ y ∷ z ∷ rest) → acts_laid p result n to wide here
        (written f r place b here (jop.Stack jvm.dup_x2)) ≡ copying (count_of card_type (x ∷ [])) (count_of
        card_type (x ∷ []) + count_of card_type (y ∷ z ∷ [])) ∷ [] }
    ensures dup2_x1 { (p : Pair) (result : ValueType) (n : Naming) (to : ℕ → ℕ) (wide : ℕ → Bool) (f : Frame) (r :
        Resolution) (place : ℕ → ℕ) (b : Before) (here : ℕ) (card_type : List ℕ → Option (List ℕ)) (x y z : Cell)
        (rest : List Cell) → b.references ≡ references_in (x ∷ y ∷ z ∷ rest) → acts_laid p result n to wide here
        (written f r place b here (jop.Stack jvm.dup2_x1)) ≡ copying (count_of card_type (x ∷ y ∷ [])) (count_of
        card_type (x ∷ y ∷ []) + count_of card_type (z ∷ [])) ∷ [] }
    ensures dup2_x2 { (p : Pair) (result : ValueType) (n : Naming) (to : ℕ → ℕ) (wide : ℕ → Bool) (f : Frame) (r :
        Resolution) (place : ℕ → ℕ) (b : Before) (here : ℕ) (card_type : List ℕ → Option (List ℕ)) (x y z u : Cell)
        (rest : List Cell) → b.references ≡ references_in (x ∷ y ∷ z ∷ u ∷ rest) → acts_laid p result n to wide here
        (written f r place b here (jop.Stack jvm.dup2_x2)) ≡ copying (count_of card_type (x ∷ y ∷ [])) (count_of
        card_type (x ∷ y ∷ []) + count_of card_type (z ∷ u ∷ [])) ∷ [] }
    ensures swap { (p : Pair) (result : ValueType) (n : Naming) (to : ℕ → ℕ) (wide : ℕ → Bool) (f : Frame) (r :
        Resolution) (place : ℕ → ℕ) (b : Before) (here : ℕ) (card_type : List ℕ → Option (List ℕ)) (x y : Cell)
        (rest : List Cell) → b.references ≡ references_in (x ∷ y ∷ rest) → acts_laid p result n to wide here
        (written f r place b here (jop.Stack jvm.swap)) ≡ swapping (count_of card_type (x ∷ [])) (count_of card_type
        (y ∷ [])) ∷ [] }
{}

/// What is written for a return has the acts of its row: a value of one word is cut before.
pub fn returns_are_written_with_their_acts()
    ensures numbers { (p : Pair) (result : ValueType) (n : Naming) (to : ℕ → ℕ) (wide : ℕ → Bool) (f : Frame) (r :
        Resolution) (place : ℕ → ℕ) (b : Before) (here : ℕ) (s : Sort) → f.result ≡ Some s → IsNumberAs s result →
        acts_laid p result n to wide here (written f r place b here (jop.Return jvm.ireturn)) ≡ cutting result ++
        taking (needs_of result) [] false [] ∷ [] }
    ensures references { (p : Pair) (result : ValueType) (n : Naming) (to : ℕ → ℕ) (wide : ℕ → Bool) (f : Frame) (r
        : Resolution) (place : ℕ → ℕ) (b : Before) (here : ℕ) (type : List ℕ) → result ≡ types.Reference type →
        acts_laid p result n to wide here (written f r place b here (jop.Return jvm.areturn)) ≡ cutting result ++
        taking (needs_of result) [] false [] ∷ [] }
    ensures nothing { (p : Pair) (result : ValueType) (n : Naming) (to : ℕ → ℕ) (wide : ℕ → Bool) (f : Frame) (r :
        Resolution) (place : ℕ → ℕ) (b : Before) (here : ℕ) → result ≡ types.Void → acts_laid p result n to wide
        here (written f r place b here (jop.Return jvm.return)) ≡ taking [] [] false [] ∷ [] }
{}
