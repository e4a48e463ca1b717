//! Layouts of methods: the least choice of wide jumps, the offsets of instructions, and the handlers as they
//! stand in the handler table. Whoever emits methods' bytes calls it. It knows no token, no index into the
//! constant pool and no header.
#![tactic(auto)]

ghost use Rattle.std.specs.Prelude.{◌≡◌, ℕ, ◌+◌, Bool, List, ◌∷◌, [], map, slice_get, Some, None, true, false, codes};
ghost use Rattle.std.specs.Prelude.{pos, negsuc};
ghost use Rattle.cjc_ncode.specs.LowerScript.Sorts.{Shape};
ghost use Rattle.cjc_ncode.specs.declared.narrow.NInsn.{NInsn};
ghost use Rattle.cjc_ncode.specs.declared.narrow.NCatch.{NCatch};
ghost use Rattle.cjc_ncode.specs.ByLabel.{Named, handler};
ghost use Rattle.cjc_ncode.specs.Lowering.Naming.{Naming};
ghost use Rattle.cjc_ncode.specs.Lowering.Laid.{IsFormed};
ghost use Rattle.cjc_ncode.specs.Lowering.Placed as Placed;
ghost use Rattle.cjc_ncode.specs.Lowering.Handlers as Lower;
ghost use Rattle.cjc_layout.specs.OnCard.{handler_on_card};
ghost use Rattle.cjc_ncode.specs.Lowering.Laid.{distance};
ghost use Rattle.cjc_layout.specs.Sizes.{insn_size, bytes_before};
ghost use Rattle.cjc_layout.specs.Forms.{HasForm};
ghost use Rattle.cjc_layout.specs.Legal.{is_near};
ghost use Rattle.cjc_layout.specs.Handlers.{handlers_of, table_order};
ghost use Rattle.cjc_layout.specs.Refusals.{overtaking};
ghost use Rattle.cjc_layout.specs.Worked.{at, switch, looks_up, leaps, goto_over, loop_over, loop_wide, divides, inner};
ghost use Rattle.cjc_layout.specs.Worked.{empty, outer};

mod handlers;
mod jumps;
mod layout;
mod method;
mod sizes;

pub use layout::{Handler, Layout};
pub use method::lay;

/// Sizes and offsets of methods made by hand: switches of each kind, and jumps over the greatest distance of
/// their narrow forms and one byte more.
pub fn places_are_sums()
    ensures sizes { insn_size false (switch 0x73) ∷ insn_size false (switch 0x74) ∷ insn_size false (switch 0x75)
        ∷ insn_size false (switch 0x76) ∷ [] ≡ 11 ∷ 15 ∷ 13 ∷ 17 ∷ [] }
    ensures looks_up { at looks_up 1 ∷ at looks_up 2 ∷ at looks_up 6 ∷ at looks_up 8 ∷ [] ≡ 1 ∷ 10 ∷ 14 ∷ 16 ∷ [] }
    ensures leaps { distance (at leaps 2) (at leaps 5) ≡ pos 4 }
    ensures narrow { is_near (at (goto_over 125) 0) (at (goto_over 125) 126) ≡ true }
    ensures narrow_distance { distance (at (goto_over 125) 0) (at (goto_over 125) 126) ≡ pos 0x7F }
    ensures wide { is_near (at (goto_over 126) 0) (at (goto_over 126) 127) ≡ false }
    ensures wide_distance { distance 0 (bytes_before (goto_over 126) (true ∷ []) 1) ≡ pos 3 }
{}

/// A loop made by hand whose two jumps widen one after the other: the distances of its jumps in the least
/// choice for 123, 124 and 125 bytes between them.
pub fn jumps_widen()
    ensures both_narrow { let to = bytes_before (loop_over 123) (loop_wide 123 false false) in distance (to 1) (to 126)
        ∷ distance (to 125) (to 0) ∷ [] ≡ pos 0x7F ∷ negsuc 125 ∷ [] }
    ensures one_wide { let to = bytes_before (loop_over 124) (loop_wide 124 true false) in distance (to 1) (to 127)
        ∷ distance (to 126) (to 0) ∷ [] ≡ pos 0x81 ∷ negsuc 127 ∷ [] }
    ensures both_wide { let to = bytes_before (loop_over 125) (loop_wide 125 true true) in distance (to 1) (to 128)
        ∷ distance (to 127) (to 0) ∷ [] ≡ pos 0x83 ∷ negsuc 128 ∷ [] }
{}

/// Handlers of a method made by hand: one over nothing is left out, the stop bit is set where no later range
/// meets, and targets that go back under a common instruction are told.
pub fn handlers_are_ordered()
    ensures handlers { handlers_of (at divides) (table_order (inner ∷ empty ∷ outer ∷ [])) ≡ record {
      start = 2;
      stop = false;
      length = 1;
      target = 4;
      class = Some (codes "java/lang/ClassCastException");
    } ∷ record {
      start =
          0;
      stop = true;
      length = 3;
      target = 10;
      class = None;
    } ∷ [] }
    ensures sorted { table_order (outer ∷ inner ∷ []) ≡ inner ∷ outer ∷ [] }
    ensures unbroken { overtaking [] (inner ∷ empty ∷ outer ∷ []) ≡ [] }
    ensures broken { overtaking [] (outer ∷ empty ∷ inner ∷ []) ≡ 5 ∷ [] }
{}

/// Sizes, offsets of labels and handlers of a layout are those with which instructions and handlers are laid
/// out in components: the sizes of instructions that have their forms, as all formed ones have, under every naming; and
/// with the offset of the method's first instruction added, the handlers of the handler table.
pub fn layouts_are_laid_out()
    ensures forms { (n : Naming) (insn : NInsn) → IsFormed n insn → HasForm insn }
    ensures sizes { (n : Naming) (wide : Bool) (insn : NInsn) → HasForm insn → Placed.insn_size n wide insn
        ≡ insn_size wide insn }
    ensures offsets { (n : Naming) (insns : List NInsn) (wide : List Bool) → ((k : ℕ) (insn : NInsn)
        → slice_get insns k ≡ Some insn → HasForm insn) → (label : ℕ) → Placed.bytes_before n insns wide label
        ≡ bytes_before insns wide label }
    ensures handlers { (n : Naming) (first : ℕ) (to : ℕ → ℕ) (catches : List NCatch)
        → map (handler_on_card n first) (handlers_of to catches) ≡ Lower.handlers_of n (λ label. first + to label)
        catches }
{}

/// At each label the search for a handler finds the same in the order of the table as in that of the class
/// file, where no handler is out of order.
pub fn order_changes_no_search()
    ensures { (l : Named) (label : ℕ) (kind : Shape (List ℕ)) (catches : List NCatch) → overtaking [] catches ≡ []
        → handler l (table_order catches) label kind ≡ handler l catches label kind }
{}
