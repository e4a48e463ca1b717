//! Objects that are made: each field of the object's class and of the classes above it has a slot with a value of the
//! field's type. It has laws alone, for whoever proves that components which break no rule are never stuck.
ghost use Rattle.std.specs.Prelude.{◌≡◌, ℕ, Bool, List, Some};
ghost use Rattle.cjc_card_semantics.specs.Bytecode.Effects.{Slot};
ghost use Rattle.cjc_card_semantics.specs.Machine.Loaded.{Loaded};
ghost use Rattle.cjc_card_semantics.specs.Machine.Classes.{Class, Field, fresh};
ghost use Rattle.cjc_verify_proof.specs.Memories.{FieldTypes, AreSlots, SupersStand, AreDeclared};

/// A new object has a slot for each field of its class and of the classes above it, which holds a value of the field's
/// type, where superclasses stand before and the class infos have slots for all fields.
pub fn new_objects_have_slots()
    ensures { (l : Loaded) (t : FieldTypes) → SupersStand l → AreDeclared l t
        → (is : (type : List ℕ) → (object : ℕ) → Bool) (c : Class) (slots : List (Slot Field))
        → fresh l c ≡ Some slots → AreSlots l t is c slots }
{}
