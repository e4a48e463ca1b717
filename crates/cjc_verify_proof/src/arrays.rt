//! Rows of the table of opcodes that read or write arrays: the machine is not stuck on an array whose card types begin
//! as the row says. It has laws alone, for whoever proves that components which break no rule are never stuck.
ghost use Rattle.std.specs.Prelude.{◌≡◌, ℕ, true, false, List, ◌∷◌, ◌++◌, length, nat_lt, Option, ℤ};
ghost use Rattle.cjc_script.specs.declared.value.Value.{Value};
ghost use Rattle.cjc_script.specs.declared.value.Value.TheVariants.{Num};
ghost use Rattle.cjc_types.specs.Rules.{all_types};
ghost use Rattle.cjc_types.specs.declared.cell.Cell.{Cell};
ghost use Rattle.cjc_types.specs.declared.cell.Cell.TheVariants.{Number};
ghost use Rattle.cjc_card_semantics.specs.Bytecode.Effects.{Letter, Reference, Byte, Short, Int, Length};
ghost use Rattle.cjc_card_semantics.specs.Bytecode.Effects.{Classes, Memory, load_number, store_number};
ghost use Rattle.cjc_card_semantics.specs.Bytecode.Effects.{effect_of_access};
ghost use Rattle.cjc_card_semantics.specs.Machine.Statics.{Image, StaticCell};
ghost use Rattle.cjc_card_semantics.specs.Machine.Loaded.{Loaded};
ghost use Rattle.cjc_card_semantics.specs.Machine.Classes.{Class, Field};
ghost use Rattle.cjc_frames.specs.Types.{begins_with};
ghost use Rattle.cjc_card_acts.specs.CardTypes.{arrays_of, all_arrays};
ghost use Rattle.cjc_verify_proof.specs.Words.{IsWord, AreWords, AreLocals};
ghost use Rattle.cjc_verify_proof.specs.Heaps.{object_is, AreFit, Onward, Stored, item_cells};

/// baload, saload and iaload go on or raise, where an index lies on top of a reference all of whose types begin as
/// arrays of the letter do, and arrays of numbers hold what they may.
pub fn loads_of_numbers_hold()
    ensures { (l : Loaded) (room next : ℕ) (local_cells : List Cell) (locals : List (Option Value))
        (m : Memory Class Field (List Image)) → AreLocals (object_is l m.heap) local_cells locals
        → (classes : Classes Class Field StaticCell (List Image)) → AreFit m.heap → (letter : Letter)
        → (letter ≡ Reference → ⊥) → (index array : Cell) (cells : List Cell) (u v : Value)
        (stack : List Value) → index ≡ Number → all_types (begins_with (arrays_of letter)) array ≡ true
        → AreWords (object_is l m.heap) (index ∷ array ∷ cells) (u ∷ v ∷ stack)
        → nat_lt room (length (item_cells letter ++ cells)) ≡ false
        → Onward l next (item_cells letter ++ cells) local_cells m
        (load_number classes letter room next locals m (u ∷ v ∷ stack)) }
{}

/// arraylength tells a number or raises, where all types of the reference on top begin as arrays do.
pub fn lengths_hold()
    ensures { (l : Loaded) (room next : ℕ) (local_cells : List Cell) (locals : List (Option Value))
        (m : Memory Class Field (List Image)) → AreLocals (object_is l m.heap) local_cells locals
        → (classes : Classes Class Field StaticCell (List Image)) (array : Cell) (cells : List Cell) (v : Value)
        (stack : List Value) → all_types (begins_with all_arrays) array ≡ true
        → AreWords (object_is l m.heap) (array ∷ cells) (v ∷ stack)
        → Onward l next (Number ∷ cells) local_cells m
        (effect_of_access classes Length room next locals m (v ∷ stack)) }
{}

/// bastore, sastore and iastore go on with a heap of the same shapes whose arrays of numbers hold what they may, or
/// raise, where numbers lie on top of a reference all of whose types begin as arrays of the letter do.
pub fn stores_of_numbers_hold()
    ensures bytes { (l : Loaded) (next : ℕ) (local_cells : List Cell) (locals : List (Option Value))
        (m : Memory Class Field (List Image)) → AreLocals (object_is l m.heap) local_cells locals
        → (classes : Classes Class Field StaticCell (List Image)) → AreFit m.heap → (cells : List Cell)
        (stack : List Value) → AreWords (object_is l m.heap) cells stack → (x index : ℤ) (array : Cell) (v : Value)
        → all_types (begins_with (arrays_of Byte)) array ≡ true → IsWord (object_is l m.heap) array v
        → Stored l next cells local_cells m (store_number classes Byte next locals m (Num x ∷ Num index ∷ v ∷ stack)) }
    ensures shorts { (l : Loaded) (next : ℕ) (local_cells : List Cell) (locals : List (Option Value))
        (m : Memory Class Field (List Image)) → AreLocals (object_is l m.heap) local_cells locals
        → (classes : Classes Class Field StaticCell (List Image)) → AreFit m.heap → (cells : List Cell)
        (stack : List Value) → AreWords (object_is l m.heap) cells stack → (x index : ℤ) (array : Cell) (v : Value)
        → all_types (begins_with (arrays_of Short)) array ≡ true → IsWord (object_is l m.heap) array v
        → Stored l next cells local_cells m (store_number classes Short next locals m (Num x ∷ Num index ∷ v ∷ stack)) }
    ensures ints { (l : Loaded) (next : ℕ) (local_cells : List Cell) (locals : List (Option Value))
        (m : Memory Class Field (List Image)) → AreLocals (object_is l m.heap) local_cells locals
        → (classes : Classes Class Field StaticCell (List Image)) → AreFit m.heap → (cells : List Cell)
        (stack : List Value) → AreWords (object_is l m.heap) cells stack → (low high index : ℤ) (array : Cell)
        (v : Value) → all_types (begins_with (arrays_of Int)) array ≡ true → IsWord (object_is l m.heap) array v
        → Stored l next cells local_cells m
        (store_number classes Int next locals m (Num low ∷ Num high ∷ Num index ∷ v ∷ stack)) }
{}
