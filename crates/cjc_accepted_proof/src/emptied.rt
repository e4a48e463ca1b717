//! Switches of whose cases none is left: a pop and a goto are written.
ghost use Rattle.std.specs.Prelude.{◌≡◌, ◌≤◌, ℕ, List, Option, [], ◌∷◌, false, length, nat_lt};
ghost use Rattle.cjc_types.specs.Flow.{Body};
ghost use Rattle.cjc_types.specs.States.{most_cells, stack_of};
ghost use Rattle.cjc_types.specs.World.Classes.{Class};
ghost use Rattle.cjc_types.specs.declared.cell.Cell.{Cell};
ghost use Rattle.cjc_types.specs.declared.state.Stack.TheVariants.{Cells};
ghost use Rattle.cjc_types.specs.declared.state.State.{State};
ghost use Rattle.cjc_verify.specs.Narrow.Pairs.Open.{closed};
ghost use Rattle.cjc_verify.specs.CardActs.Rows.{any_words, idle};
ghost use Rattle.cjc_frames.specs.Acts.{Subtype};
ghost use Rattle.cjc_frames.specs.declared.acts.Act.{Act};
ghost use Rattle.cjc_frames.specs.declared.acts.Step.{Step};
ghost use Rattle.cjc_accepted_proof.specs.Blocks.{AllStand};
ghost use Rattle.cjc_accepted_proof.specs.Frames.{card_cells, card_stack};

/// A pop and a goto stand between the frame before a switch, with a word on the stack, one without it, and the frame
/// behind.
pub fn emptied_switches_stand()
    ensures { (card_type : List ℕ → Option (List ℕ)) (is_of : Subtype) (w : List Class) (b : Body) (count : ℕ)
        (locals : List Cell) (y : Cell) (s : List Cell) → nat_lt b.max_stack (length (y ∷ s)) ≡ false
        → nat_lt b.max_stack (length s) ≡ false → length s ≤ most_cells → (t u : Step) (target : ℕ) (targets : List ℕ)
        → t.act ≡ record idle { takes = any_words 1 }
        → u.act ≡ record idle { takes = []; falls = false; targets = targets }
        → AllStand is_of count b.max_stack (record {
          stack = Cells (card_cells card_type (y ∷ s));
          locals = card_cells card_type locals;
        }) (record { stack = Cells (card_cells card_type s); locals = card_cells card_type locals }) (record {
          stack = card_stack card_type closed (stack_of s);
          locals = card_cells card_type locals;
        }) (t ∷ u ∷ []) }
{}
