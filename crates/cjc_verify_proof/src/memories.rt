//! Memory holds what it may behind instructions that leave it as it is, make arrays or store into them. It has laws
//! alone, for whoever proves that components which break no rule are never stuck.
ghost use Rattle.std.specs.Prelude.{◌≡◌, ℕ, true, List, ◌∷◌, Option, ℤ};
ghost use Rattle.cjc_script.specs.declared.value.Value.{Value};
ghost use Rattle.cjc_script.specs.declared.value.Value.TheVariants.{Num};
ghost use Rattle.cjc_script.specs.Sorts.{Element};
ghost use Rattle.cjc_types.specs.Rules.{all_types};
ghost use Rattle.cjc_types.specs.declared.cell.Cell.{Cell};
ghost use Rattle.cjc_card_semantics.specs.Bytecode.Effects.{Byte, Short, Int, Classes, Effect, Memory, store_number};
ghost use Rattle.cjc_card_semantics.specs.Machine.Loaded.{Loaded};
ghost use Rattle.cjc_card_semantics.specs.Machine.Classes.{Class, Field};
ghost use Rattle.cjc_card_semantics.specs.Machine.Operations.{Callee};
ghost use Rattle.cjc_card_semantics.specs.Machine.Statics.{Image, StaticCell};
ghost use Rattle.cjc_frames.specs.Types.{begins_with};
ghost use Rattle.cjc_card_acts.specs.CardTypes.{arrays_of};
ghost use Rattle.cjc_verify_proof.specs.Words.{IsWord, AreWords, AreLocals};
ghost use Rattle.cjc_verify_proof.specs.Heaps.{object_is, Onward};
ghost use Rattle.cjc_verify_proof.specs.Growth.{AreZeros, AreNulls, Adds};
ghost use Rattle.cjc_verify_proof.specs.References.{Puts};
ghost use Rattle.cjc_verify_proof.specs.Memories.{FieldTypes, IsMemory, Goes};

/// An instruction that leaves memory as it is, makes an array of zeros or nulls, or puts another element into an array
/// of references leaves memory that holds what it may.
pub fn effects_keep_memory()
    ensures onward { (l : Loaded) (t : FieldTypes) (next : ℕ) (m : Memory Class Field (List Image)) → IsMemory l t m
        → (cs lc : List Cell) (e : Effect Class Field Callee (List Image)) → Onward l next cs lc m e
        → Goes l t next cs lc m e }
    ensures zeros { (l : Loaded) (t : FieldTypes) (next : ℕ) (cs lc : List Cell) (m : Memory Class Field (List Image))
        → IsMemory l t m → (element : Element) (e : Effect Class Field Callee (List Image))
        → Adds l next cs lc m (AreZeros element) e → Goes l t next cs lc m e }
    ensures nulls { (l : Loaded) (t : FieldTypes) (next : ℕ) (cs lc : List Cell) (m : Memory Class Field (List Image))
        → IsMemory l t m → (class : Class) (e : Effect Class Field Callee (List Image))
        → Adds l next cs lc m (AreNulls class) e → Goes l t next cs lc m e }
    ensures references { (l : Loaded) (t : FieldTypes) (next : ℕ) (cs lc : List Cell)
        (m : Memory Class Field (List Image)) → IsMemory l t m → (e : Effect Class Field Callee (List Image))
        → Puts l next cs lc m e → Goes l t next cs lc m e }
{}

/// bastore, sastore and iastore leave memory that holds what it may, or raise, where numbers lie on top of a reference
/// all of whose types begin as arrays of the letter do.
pub fn stores_of_numbers_keep_memory()
    ensures bytes { (l : Loaded) (t : FieldTypes) (next : ℕ) (cs lc : List Cell) (m : Memory Class Field (List Image))
        → IsMemory l t m → (vs : List Value) → AreWords (object_is l m.heap) cs vs → (lv : List (Option Value))
        → AreLocals (object_is l m.heap) lc lv → (classes : Classes Class Field StaticCell (List Image)) (x index : ℤ)
        (array : Cell) (v : Value) → all_types (begins_with (arrays_of Byte)) array ≡ true
        → IsWord (object_is l m.heap) array v
        → Goes l t next cs lc m (store_number classes Byte next lv m (Num x ∷ Num index ∷ v ∷ vs)) }
    ensures shorts { (l : Loaded) (t : FieldTypes) (next : ℕ) (cs lc : List Cell) (m : Memory Class Field (List Image))
        → IsMemory l t m → (vs : List Value) → AreWords (object_is l m.heap) cs vs → (lv : List (Option Value))
        → AreLocals (object_is l m.heap) lc lv → (classes : Classes Class Field StaticCell (List Image)) (x index : ℤ)
        (array : Cell) (v : Value) → all_types (begins_with (arrays_of Short)) array ≡ true
        → IsWord (object_is l m.heap) array v
        → Goes l t next cs lc m (store_number classes Short next lv m (Num x ∷ Num index ∷ v ∷ vs)) }
    ensures ints { (l : Loaded) (t : FieldTypes) (next : ℕ) (cs lc : List Cell) (m : Memory Class Field (List Image))
        → IsMemory l t m → (vs : List Value) → AreWords (object_is l m.heap) cs vs → (lv : List (Option Value))
        → AreLocals (object_is l m.heap) lc lv → (classes : Classes Class Field StaticCell (List Image))
        (low high index : ℤ) (array : Cell) (v : Value) → all_types (begins_with (arrays_of Int)) array ≡ true
        → IsWord (object_is l m.heap) array v
        → Goes l t next cs lc m (store_number classes Int next lv m (Num low ∷ Num high ∷ Num index ∷ v ∷ vs)) }
{}
