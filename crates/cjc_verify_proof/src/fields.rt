//! Instructions on fields and static cells, and new: where the operands are what the row of the instruction needs, the
//! machine is not stuck, and memory holds what it may afterwards. It has laws alone, for whoever proves that components
//! which break no rule are never stuck.
ghost use Rattle.std.specs.Prelude.{◌≡◌, ℕ, true, false, List, [], ◌∷◌, ◌++◌, Option, Some};
ghost use Rattle.cjc_script.specs.declared.value.Value.{Value};
ghost use Rattle.cjc_script.specs.Sorts.{OfClass};
ghost use Rattle.cjc_types.specs.declared.cell.Cell.{Cell};
ghost use Rattle.cjc_card_semantics.specs.Bytecode.Effects.{Letter, Memory, Get, Put, GetStatic, PutStatic, New};
ghost use Rattle.cjc_card_semantics.specs.Bytecode.Effects.{effect};
ghost use Rattle.cjc_card_semantics.specs.Machine.Loaded.{Loaded};
ghost use Rattle.cjc_card_semantics.specs.Machine.Classes.{Class, Field, is_interface};
ghost use Rattle.cjc_card_semantics.specs.Machine.Statics.{Image, StaticCell};
ghost use Rattle.cjc_card_semantics.specs.Machine.ByToken.{classes};
ghost use Rattle.cjc_frames.specs.declared.acts.Act.{Act};
ghost use Rattle.cjc_frames.specs.declared.acts.Need.TheVariants.{OfType};
ghost use Rattle.cjc_frames.specs.declared.acts.Given.TheVariants.{AnObject};
ghost use Rattle.cjc_frames.specs.Acts.{stack_behind};
ghost use Rattle.cjc_card_acts.specs.Rows.{reading};
ghost use Rattle.cjc_card_acts.specs.CardTypes.{ValueType, is_moved_by, is_type_of, needs_of, shape_by, words};
ghost use Rattle.cjc_verify_proof.specs.Words.{AreWords, AreLocals};
ghost use Rattle.cjc_verify_proof.specs.Acts.{Passes};
ghost use Rattle.cjc_verify_proof.specs.Heaps.{object_is};
ghost use Rattle.cjc_verify_proof.specs.Memories.{FieldTypes, IsMemory, Goes, SupersStand, AreDeclared};

/// getfield pushes a value of the field's type or raises, for the object of a reference on the stack or in local 0 all
/// of whose types are of the field's class.
pub fn fields_are_read()
    ensures object { (l : Loaded) (t : FieldTypes) (room next : ℕ) (lc : List Cell) (lv : List (Option Value))
        (m : Memory Class Field (List Image)) → AreLocals (object_is l m.heap) lc lv → IsMemory l t m
        → SupersStand l → AreDeclared l t → (f : Field) (type : ValueType) → t.field f ≡ Some type → (letter : Letter)
        → is_moved_by letter type ≡ true → (name : List ℕ) → shape_by l name ≡ Some (OfClass f.class)
        → (a : Act) → a.takes ≡ OfType name ∷ [] → a.gives ≡ words type
        → (cs : List Cell) (vs : List Value) → AreWords (object_is l m.heap) cs vs → Passes (is_type_of l) room a lc cs
        → Goes l t next (stack_behind a lc cs) lc m (effect (classes l) (Get false letter f) room next lv m vs) }
    ensures this { (l : Loaded) (t : FieldTypes) (room next : ℕ) (lc : List Cell) (lv : List (Option Value))
        (m : Memory Class Field (List Image)) → AreLocals (object_is l m.heap) lc lv → IsMemory l t m
        → SupersStand l → AreDeclared l t → (f : Field) (type : ValueType) → t.field f ≡ Some type → (letter : Letter)
        → is_moved_by letter type ≡ true → (name : List ℕ) → shape_by l name ≡ Some (OfClass f.class)
        → (a : Act) → a.takes ≡ [] → a.reads ≡ reading 0 (OfType name) ∷ [] → a.gives ≡ words type
        → (cs : List Cell) (vs : List Value) → AreWords (object_is l m.heap) cs vs → Passes (is_type_of l) room a lc cs
        → Goes l t next (stack_behind a lc cs) lc m (effect (classes l) (Get true letter f) room next lv m vs) }
{}

/// putfield replaces the value of a field by one of the field's type or raises, for the object of a reference on the
/// stack or in local 0 all of whose types are of the field's class.
pub fn fields_are_put()
    ensures object { (l : Loaded) (t : FieldTypes) (room next : ℕ) (lc : List Cell) (lv : List (Option Value))
        (m : Memory Class Field (List Image)) → AreLocals (object_is l m.heap) lc lv → IsMemory l t m
        → SupersStand l → AreDeclared l t → (f : Field) (type : ValueType) → t.field f ≡ Some type → (letter : Letter)
        → is_moved_by letter type ≡ true → (name : List ℕ) → shape_by l name ≡ Some (OfClass f.class)
        → (a : Act) → a.takes ≡ needs_of type ++ OfType name ∷ [] → a.gives ≡ []
        → (cs : List Cell) (vs : List Value) → AreWords (object_is l m.heap) cs vs → Passes (is_type_of l) room a lc cs
        → Goes l t next (stack_behind a lc cs) lc m (effect (classes l) (Put false letter f) room next lv m vs) }
    ensures this { (l : Loaded) (t : FieldTypes) (room next : ℕ) (lc : List Cell) (lv : List (Option Value))
        (m : Memory Class Field (List Image)) → AreLocals (object_is l m.heap) lc lv → IsMemory l t m
        → SupersStand l → AreDeclared l t → (f : Field) (type : ValueType) → t.field f ≡ Some type → (letter : Letter)
        → is_moved_by letter type ≡ true → (name : List ℕ) → shape_by l name ≡ Some (OfClass f.class)
        → (a : Act) → a.takes ≡ needs_of type → a.reads ≡ reading 0 (OfType name) ∷ [] → a.gives ≡ []
        → (cs : List Cell) (vs : List Value) → AreWords (object_is l m.heap) cs vs → Passes (is_type_of l) room a lc cs
        → Goes l t next (stack_behind a lc cs) lc m (effect (classes l) (Put true letter f) room next lv m vs) }
{}

/// getstatic pushes a value of the type of the static cell.
pub fn static_fields_are_read()
    ensures { (l : Loaded) (t : FieldTypes) (room next : ℕ) (lc : List Cell) (lv : List (Option Value))
        (m : Memory Class Field (List Image)) → AreLocals (object_is l m.heap) lc lv → IsMemory l t m
        → (c : StaticCell) (type : ValueType) → t.cell c ≡ Some type → (letter : Letter) → is_moved_by letter type
        ≡ true → (a : Act) → a.takes ≡ [] → a.gives ≡ words type
        → (cs : List Cell) (vs : List Value) → AreWords (object_is l m.heap) cs vs → Passes (is_type_of l) room a lc cs
        → Goes l t next (stack_behind a lc cs) lc m (effect (classes l) (GetStatic letter c) room next lv m vs) }
{}

/// putstatic replaces the value of a static cell by one of the cell's type.
pub fn static_fields_are_put()
    ensures { (l : Loaded) (t : FieldTypes) (room next : ℕ) (lc : List Cell) (lv : List (Option Value))
        (m : Memory Class Field (List Image)) → AreLocals (object_is l m.heap) lc lv → IsMemory l t m
        → (c : StaticCell) (type : ValueType) → t.cell c ≡ Some type → (letter : Letter) → is_moved_by letter type
        ≡ true → (a : Act) → a.takes ≡ needs_of type → a.gives ≡ []
        → (cs : List Cell) (vs : List Value) → AreWords (object_is l m.heap) cs vs → Passes (is_type_of l) room a lc cs
        → Goes l t next (stack_behind a lc cs) lc m (effect (classes l) (PutStatic letter c) room next lv m vs) }
{}

/// new pushes a reference to a new object of the class, whose slots hold values of the fields' types, where the class
/// is no interface.
pub fn objects_are_made()
    ensures { (l : Loaded) (t : FieldTypes) (room next : ℕ) (lc : List Cell) (lv : List (Option Value))
        (m : Memory Class Field (List Image)) → AreLocals (object_is l m.heap) lc lv → IsMemory l t m
        → SupersStand l → AreDeclared l t → (class : Class) → is_interface l class ≡ false → (name : List ℕ)
        → shape_by l name ≡ Some (OfClass class) → (a : Act) → a.takes ≡ [] → a.gives ≡ AnObject name ∷ []
        → (cs : List Cell) (vs : List Value) → AreWords (object_is l m.heap) cs vs → Passes (is_type_of l) room a lc cs
        → Goes l t next (stack_behind a lc cs) lc m (effect (classes l) (New class) room next lv m vs) }
{}
