//! Instructions that make arrays, test types, and read or write arrays of references: the machine is not stuck, where
//! operands are what rows need and each array of references holds what its class says. It has laws alone, for whoever
//! proves that components which break no rule are never stuck.
ghost use Rattle.std.specs.Prelude.{◌≡◌, ℕ, true, false, List, [], ◌∷◌, length, nat_lt, Option, Some};
ghost use Rattle.cjc_script.specs.declared.value.Value.{Value};
ghost use Rattle.cjc_script.specs.Sorts.{Element, Shape, OfNumbers, OfReferences};
ghost use Rattle.cjc_types.specs.declared.cell.Cell.{Cell};
ghost use Rattle.cjc_types.specs.declared.cell.Cell.TheVariants.{Number, Refs};
ghost use Rattle.cjc_types.specs.Rules.{is_reference, all_types};
ghost use Rattle.cjc_card_semantics.specs.Bytecode.Effects.{Reference, Memory, Classes, effect, NewNumbers};
ghost use Rattle.cjc_card_semantics.specs.Bytecode.Effects.{NewReferences, Cast, Ask, load_reference_item};
ghost use Rattle.cjc_card_semantics.specs.Bytecode.Effects.{store_reference};
ghost use Rattle.cjc_card_semantics.specs.Machine.Loaded.{Loaded};
ghost use Rattle.cjc_card_semantics.specs.Machine.Classes.{Class, Field};
ghost use Rattle.cjc_card_semantics.specs.Machine.Statics.{Image, StaticCell};
ghost use Rattle.cjc_card_semantics.specs.Machine.ByToken.{classes};
ghost use Rattle.cjc_frames.specs.Types.{begins_with, element_of};
ghost use Rattle.cjc_card_acts.specs.CardTypes.{shape_by, arrays_of};
ghost use Rattle.cjc_verify_proof.specs.Words.{AreWords, AreLocals};
ghost use Rattle.cjc_verify_proof.specs.Heaps.{object_is, Onward};
ghost use Rattle.cjc_verify_proof.specs.Growth.{AreZeros, AreNulls, Adds};
ghost use Rattle.cjc_verify_proof.specs.References.{AreHeld, Puts};

/// newarray and anewarray add an array of zeros or nulls to the heap and put its reference, or raise, where a number
/// lies on top and the stack has room.
pub fn new_arrays_hold()
    ensures numbers { (l : Loaded) (room next : ℕ) (local_cells : List Cell) (locals : List (Option Value))
        (m : Memory Class Field (List Image)) → AreLocals (object_is l m.heap) local_cells locals
        → (classes : Classes Class Field StaticCell (List Image)) (type : List ℕ) (element : Element)
        → shape_by l type ≡ Some (OfNumbers element) → (count : Cell) (cells : List Cell) (v : Value)
        (stack : List Value) → count ≡ Number → AreWords (object_is l m.heap) (count ∷ cells) (v ∷ stack)
        → nat_lt room (length (Refs (type ∷ []) ∷ cells)) ≡ false
        → Adds l next (Refs (type ∷ []) ∷ cells) local_cells m (AreZeros element)
        (effect classes (NewNumbers element) room next locals m (v ∷ stack)) }
    ensures references { (l : Loaded) (room next : ℕ) (local_cells : List Cell) (locals : List (Option Value))
        (m : Memory Class Field (List Image)) → AreLocals (object_is l m.heap) local_cells locals
        → (classes : Classes Class Field StaticCell (List Image)) (type : List ℕ) (class : Class)
        → shape_by l type ≡ Some (OfReferences class) → (count : Cell) (cells : List Cell) (v : Value)
        (stack : List Value) → count ≡ Number → AreWords (object_is l m.heap) (count ∷ cells) (v ∷ stack)
        → nat_lt room (length (Refs (type ∷ []) ∷ cells)) ≡ false
        → Adds l next (Refs (type ∷ []) ∷ cells) local_cells m (AreNulls class)
        (effect classes (NewReferences class) room next locals m (v ∷ stack)) }
{}

/// checkcast leaves a reference of the type that it names, or raises, and instanceof a number, where a reference lies
/// on top.
pub fn type_tests_hold()
    ensures casts { (l : Loaded) (room next : ℕ) (local_cells : List Cell) (locals : List (Option Value))
        (m : Memory Class Field (List Image)) → AreLocals (object_is l m.heap) local_cells locals
        → (target : Shape Class) (type : List ℕ) → shape_by l type ≡ Some target → (cell : Cell) (cells : List Cell)
        (v : Value) (stack : List Value) → is_reference cell ≡ true
        → AreWords (object_is l m.heap) (cell ∷ cells) (v ∷ stack)
        → Onward l next (Refs (type ∷ []) ∷ cells) local_cells m
        (effect (classes l) (Cast target) room next locals m (v ∷ stack)) }
    ensures asks { (l : Loaded) (room next : ℕ) (local_cells : List Cell) (locals : List (Option Value))
        (m : Memory Class Field (List Image)) → AreLocals (object_is l m.heap) local_cells locals
        → (target : Shape Class) (cell : Cell) (cells : List Cell) (v : Value) (stack : List Value)
        → is_reference cell ≡ true → AreWords (object_is l m.heap) (cell ∷ cells) (v ∷ stack)
        → Onward l next (Number ∷ cells) local_cells m
        (effect (classes l) (Ask target) room next locals m (v ∷ stack)) }
{}

/// aaload puts a reference of the types that the arrays' types hold, or raises, where an index lies on top of a
/// reference all of whose types begin as arrays of references do.
pub fn loads_of_references_hold()
    ensures { (l : Loaded) (room next : ℕ) (local_cells : List Cell) (locals : List (Option Value))
        (m : Memory Class Field (List Image)) → AreLocals (object_is l m.heap) local_cells locals
        → AreHeld l m.heap → (classes : Classes Class Field StaticCell (List Image)) (index array : Cell)
        (cells : List Cell) (u v : Value) (stack : List Value) → index ≡ Number
        → all_types (begins_with (arrays_of Reference)) array ≡ true
        → AreWords (object_is l m.heap) (index ∷ array ∷ cells) (u ∷ v ∷ stack)
        → nat_lt room (length (element_of array ∷ cells)) ≡ false
        → Onward l next (element_of array ∷ cells) local_cells m
        (load_reference_item classes room next locals m (u ∷ v ∷ stack)) }
{}

/// aastore gives an array of references another element, which is of its class, or raises, where a reference lies on
/// top of an index on top of a reference all of whose types begin as arrays of references do.
pub fn stores_of_references_hold()
    ensures { (l : Loaded) (next : ℕ) (local_cells : List Cell) (locals : List (Option Value))
        (m : Memory Class Field (List Image)) → AreLocals (object_is l m.heap) local_cells locals
        → (value index array : Cell) (cells : List Cell) (t u v : Value) (stack : List Value)
        → is_reference value ≡ true → index ≡ Number → all_types (begins_with (arrays_of Reference)) array ≡ true
        → AreWords (object_is l m.heap) (value ∷ index ∷ array ∷ cells) (t ∷ u ∷ v ∷ stack)
        → Puts l next cells local_cells m (store_reference (classes l) next locals m (t ∷ u ∷ v ∷ stack)) }
{}
