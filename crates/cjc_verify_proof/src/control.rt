//! Instructions that jump, throw or return: the machine goes where the row says, throws what is an exception, and
//! leaves a method with words of its result. It has laws alone, for whoever proves that components which break no rule
//! are never stuck.
ghost use Rattle.std.specs.Prelude.{◌≡◌, ◌≤◌, ℕ, Bool, true, false, List, ◌∷◌, length, drop, map, Option};
ghost use Rattle.cjc_script.specs.declared.value.Value.{Value};
ghost use Rattle.cjc_types.specs.declared.cell.Cell.{Cell};
ghost use Rattle.cjc_types.specs.Rules.{all_types};
ghost use Rattle.cjc_card_semantics.specs.Bytecode.Calculations.{Test};
ghost use Rattle.cjc_card_semantics.specs.Bytecode.Effects.{Letter, Throw, Return, Arm, Memory, Classes};
ghost use Rattle.cjc_card_semantics.specs.Bytecode.Effects.{effect_of_access, effect, Pick, Branch};
ghost use Rattle.cjc_card_semantics.specs.Machine.Loaded.{Loaded};
ghost use Rattle.cjc_card_semantics.specs.Machine.Classes.{Class, Field};
ghost use Rattle.cjc_card_semantics.specs.Machine.Statics.{Image, StaticCell};
ghost use Rattle.cjc_card_semantics.specs.Machine.Operations.{Callee};
ghost use Rattle.cjc_frames.specs.declared.acts.Need.{Need};
ghost use Rattle.cjc_frames.specs.Acts.{Subtype, has_wrong};
ghost use Rattle.cjc_card_acts.specs.Rows.{number_words};
ghost use Rattle.cjc_card_acts.specs.CardTypes.{ValueType, needs_of, is_returned_by, is_type_of};
ghost use Rattle.cjc_verify_proof.specs.Words.{AreWords, AreLocals};
ghost use Rattle.cjc_verify_proof.specs.Heaps.{object_is};
ghost use Rattle.cjc_verify_proof.specs.Beside.{BesideTest};
ghost use Rattle.cjc_verify_proof.specs.Control.{next_if, switched_words, Leads, Throws, Returns};

/// A switch goes on at one of its arms or at its default, where the number that it takes lies on top.
pub fn switches_lead()
    ensures { (l : Loaded) (room next : ℕ) (local_cells : List Cell) (locals : List (Option Value))
        (m : Memory Class Field (List Image)) → AreLocals (object_is l m.heap) local_cells locals
        → (classes : Classes Class Field StaticCell (List Image)) (is_of : Subtype) (is_int : Bool) (other : ℕ)
        (arms : List Arm) (cells : List Cell) (stack : List Value) → AreWords (object_is l m.heap) cells stack
        → has_wrong is_of (number_words (switched_words is_int)) cells ≡ false
        → length (number_words (switched_words is_int)) ≤ length cells
        → Leads l (other ∷ map (λ (a : Arm). a.to) arms) (drop (switched_words is_int) cells) local_cells m
        (effect classes (Pick is_int other arms) room next locals m stack) }
{}

/// A jump goes on at its target, or at the next instruction where that may follow.
pub fn jumps_lead()
    ensures { (l : Loaded) (room next : ℕ) (local_cells : List Cell) (locals : List (Option Value))
        (m : Memory Class Field (List Image)) → AreLocals (object_is l m.heap) local_cells locals
        → (classes : Classes Class Field StaticCell (List Image)) (is_of : Subtype) (to : ℕ) (needs : List Need)
        (falls : Bool) (test : Test) → BesideTest needs falls test → (cells : List Cell) (stack : List Value)
        → AreWords (object_is l m.heap) cells stack → has_wrong is_of needs cells ≡ false
        → length needs ≤ length cells
        → Leads l (to ∷ next_if falls next) (drop (length needs) cells) local_cells m
        (effect classes (Branch test to) room next locals m stack) }
{}

/// athrow throws what is of a type, or null raises, where all types of the reference on top are of that type.
pub fn throws_hold()
    ensures { (l : Loaded) (room next : ℕ) (local_cells : List Cell) (locals : List (Option Value))
        (m : Memory Class Field (List Image)) → AreLocals (object_is l m.heap) local_cells locals
        → (classes : Classes Class Field StaticCell (List Image)) (type : List ℕ) (cell : Cell) (cells : List Cell)
        (v : Value) (stack : List Value) → all_types (λ t. is_type_of l t type) cell ≡ true
        → AreWords (object_is l m.heap) (cell ∷ cells) (v ∷ stack)
        → Throws l type m (effect_of_access classes Throw room next locals m (v ∷ stack)) }
{}

/// A return leaves its method with the words of a result of a type, where it is a return of that type and such a value
/// lies on top.
pub fn returns_hold()
    ensures { (l : Loaded) (room next : ℕ) (local_cells : List Cell) (locals : List (Option Value))
        (m : Memory Class Field (List Image)) → AreLocals (object_is l m.heap) local_cells locals
        → (letter : Option Letter) (t : ValueType) → is_returned_by letter t ≡ true → (cells : List Cell)
        (stack : List Value) → AreWords (object_is l m.heap) cells stack
        → has_wrong (is_type_of l) (needs_of t) cells ≡ false → length (needs_of t) ≤ length cells
        → (classes : Classes Class Field StaticCell (List Image))
        → Returns l t m (effect_of_access classes (Return letter) room next locals m stack) }
{}
