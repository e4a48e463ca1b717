//! Static cells: each that has a type holds a value of it, before the first entry and behind each put. It has laws
//! alone, for whoever proves that components which break no rule are never stuck.
ghost use Rattle.std.specs.Prelude.{◌≡◌, true, List, [], ◌∷◌, Some};
ghost use Rattle.cjc_script.specs.declared.value.Value.{Value};
ghost use Rattle.cjc_card_semantics.specs.Bytecode.Effects.{HeapObject, Letter};
ghost use Rattle.cjc_card_semantics.specs.Machine.Loaded.{Loaded, Part};
ghost use Rattle.cjc_card_semantics.specs.Machine.Classes.{Class, Field};
ghost use Rattle.cjc_card_semantics.specs.Machine.Statics.{Image, StaticCell, first_memory, get_static, put_static};
ghost use Rattle.cjc_card_acts.specs.CardTypes.{ValueType, is_moved_by};
ghost use Rattle.cjc_verify_proof.specs.Heaps.{object_is};
ghost use Rattle.cjc_verify_proof.specs.Values.{IsValue};
ghost use Rattle.cjc_verify_proof.specs.Memories.{FieldTypes, AreCells, IsMemory, ImageFits};

/// The arrays and the static cells of a lone package hold what they may before the first entry, where its image has a
/// cell for each static field, and an array fills only cells of its own type.
pub fn first_memory_holds()
    ensures { (l : Loaded) (t : FieldTypes) (part : Part) → l.parts ≡ part ∷ [] → ImageFits l t part.statics
        → IsMemory l t (first_memory l) }
{}

/// A static cell that has a type is read as a value of it by each letter that moves such values.
pub fn static_cells_are_read()
    ensures { (l : Loaded) (t : FieldTypes) (heap : List (HeapObject Class Field)) (images : List Image)
        → AreCells l t heap images → (s : StaticCell) (type : ValueType) (letter : Letter) → t.cell s ≡ Some type
        → is_moved_by letter type ≡ true
        → (v : Value) × (get_static letter s images ≡ Some v) × IsValue (object_is l heap) type v }
{}

/// A static cell that has a type takes each value of it, and all cells hold values of their types afterwards.
pub fn static_cells_are_put()
    ensures { (l : Loaded) (t : FieldTypes) (heap : List (HeapObject Class Field)) (images : List Image)
        → AreCells l t heap images → (s : StaticCell) (type : ValueType) (letter : Letter) → t.cell s ≡ Some type
        → is_moved_by letter type ≡ true → (v : Value) → IsValue (object_is l heap) type v
        → (after : List Image) × (put_static letter s v images ≡ Some after) × AreCells l t heap after }
{}
