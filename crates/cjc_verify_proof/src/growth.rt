//! Heaps that grow or whose arrays change: words, locals and what arrays hold stay what they were. It has laws alone,
//! for whoever proves that components which break no rule are never stuck.
ghost use Rattle.std.specs.Prelude.{◌≡◌, true, List, [], ◌∷◌, ◌++◌, Option};
ghost use Rattle.cjc_script.specs.declared.value.Value.{Value};
ghost use Rattle.cjc_script.specs.Sorts.{Element, Shape};
ghost use Rattle.cjc_types.specs.declared.cell.Cell.{Cell};
ghost use Rattle.cjc_card_semantics.specs.Bytecode.Effects.{HeapObject, Memory};
ghost use Rattle.cjc_card_semantics.specs.Machine.Loaded.{Loaded};
ghost use Rattle.cjc_card_semantics.specs.Machine.Classes.{Class, Field, is_of};
ghost use Rattle.cjc_card_semantics.specs.Machine.Statics.{Image};
ghost use Rattle.cjc_verify_proof.specs.Words.{AreWords, AreLocals};
ghost use Rattle.cjc_verify_proof.specs.Heaps.{object_is, AreFit};
ghost use Rattle.cjc_verify_proof.specs.Growth.{Extends, AreZeros, AreNulls};
ghost use Rattle.cjc_verify_proof.specs.References.{AreHeld, PutsReference};

/// What is of a type is of each type of which that type is.
pub fn types_are_transitive()
    ensures { (l : Loaded) (a b c : Shape Class) → is_of l a b ≡ true → is_of l b c ≡ true → is_of l a c ≡ true }
{}

/// Words and locals stay of their cells, where what is on the heap keeps its types.
pub fn growing_heaps_keep_words()
    ensures words { (l : Loaded) (heap after : List (HeapObject Class Field)) → Extends heap after
        → (cells : List Cell) (stack : List Value) → AreWords (object_is l heap) cells stack
        → AreWords (object_is l after) cells stack }
    ensures locals { (l : Loaded) (heap after : List (HeapObject Class Field)) → Extends heap after
        → (cells : List Cell) (locals : List (Option Value)) → AreLocals (object_is l heap) cells locals
        → AreLocals (object_is l after) cells locals }
{}

/// A heap with a new array of zeros or nulls keeps the types of what is there, and its arrays hold what they may.
pub fn new_arrays_keep_heaps()
    ensures extends { (heap : List (HeapObject Class Field)) (thing : HeapObject Class Field)
        → Extends heap (heap ++ thing ∷ []) }
    ensures numbers { (l : Loaded) (heap : List (HeapObject Class Field)) (element : Element)
        (thing : HeapObject Class Field) → AreZeros element thing → AreFit heap → AreHeld l heap
        → AreFit (heap ++ thing ∷ []) × AreHeld l (heap ++ thing ∷ []) }
    ensures references { (l : Loaded) (heap : List (HeapObject Class Field)) (class : Class)
        (thing : HeapObject Class Field) → AreNulls class thing → AreFit heap → AreHeld l heap
        → AreFit (heap ++ thing ∷ []) × AreHeld l (heap ++ thing ∷ []) }
{}

/// A heap with another element in an array of references keeps the types of what is there, and its arrays hold what
/// they may.
pub fn stored_references_keep_heaps()
    ensures { (l : Loaded) (m after : Memory Class Field (List Image)) → PutsReference l m after
        → (Extends m.heap after.heap × ((AreFit m.heap → AreFit after.heap) × (AreHeld l m.heap
        → AreHeld l after.heap))) }
{}
