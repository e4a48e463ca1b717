//! Rows of loads, stores and increases of locals in int mode: a local is two words.
ghost use Rattle.std.specs.Prelude.{Bool, List, Option, [], false, length, ℕ, ℤ, ◌<◌, ◌∷◌, ◌≡◌};
ghost use Rattle.cjc_frames.specs.Acts.{Subtype};
ghost use Rattle.cjc_int_accepted.specs.Acts.{letter_of_local};
ghost use Rattle.cjc_int_accepted.specs.Frames.{Room, word_of};
ghost use Rattle.cjc_int_accepted.specs.Runs.{IsOn, Runs};
ghost use Rattle.cjc_types.specs.Flow.{Body};
ghost use Rattle.cjc_types.specs.Rules.{has_wrong as has_wrong_by_name, has_wrong_local as has_wrong_local_by_name};
ghost use Rattle.cjc_types.specs.World.Classes.{Class};
ghost use Rattle.cjc_types.specs.declared.cell.Cell.{Cell};
ghost use Rattle.cjc_verify.specs.CardActs.Rows.{increasing, loading, storing};
ghost use Rattle.cjc_types.specs.Bytecode.declared.insn.JOp.TheVariants as jop;
ghost use Rattle.cjc_verify.specs.CardSemantics.Bytecode.Effects as letters;

/// What is written for a load, a store or an increase of a local goes from the words of its frame to those of the
/// frame behind it: a number is in both words of the local, a reference in the first.
pub fn locals_run_in_int_mode()
    ensures loads { (card_type : List ℕ → Option (List ℕ)) (is_of : Subtype) (m : Room) (max_stack : ℕ) → (refs :
        Bool) (k : ℕ) (ls s : List Cell) → IsOn max_stack (jop.Load refs k) ls s → has_wrong_local_by_name (jop.Load
        refs k) ls ≡ false → Runs card_type is_of m max_stack (jop.Load refs k) (loading (letter_of_local refs)
        (word_of m k) ∷ []) ls s }
    ensures increases { (card_type : List ℕ → Option (List ℕ)) (is_of : Subtype) (m : Room) (max_stack : ℕ) → (k :
        ℕ) (by : ℤ) (ls s : List Cell) → IsOn max_stack (jop.Inc k by) ls s → has_wrong_local_by_name (jop.Inc k by)
        ls ≡ false → Runs card_type is_of m max_stack (jop.Inc k by) (increasing letters.Int (word_of m k) ∷ []) ls
        s }
    ensures stores { (card_type : List ℕ → Option (List ℕ)) (is_of : Subtype) (m : Room) (max_stack : ℕ) → (w : List
        Class) (b : Body) (refs : Bool) (k : ℕ) (ls s : List Cell) → k < length ls → IsOn max_stack (jop.Store refs
        k) ls s → has_wrong_by_name w b (jop.Store refs k) 1 0 s ≡ false → Runs card_type is_of m max_stack
        (jop.Store refs k) (storing (letter_of_local refs) (word_of m k) ∷ []) ls s }
{}
