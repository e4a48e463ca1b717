//! Frames of a run by token: each stands where the least table of its method has a row, with a stack and locals of its
//! cells. They stay so where an instruction goes on, a method begins or returns, and an exception is thrown, and none
//! of these turns is stuck. It has laws alone, for whoever proves that components which break no rule are never stuck.
ghost use Rattle.std.specs.Prelude.{◌≡◌, ℕ, true, false, List, [], ◌∷◌, ◌++◌, map, reverse, slice_get, Option, Some};
ghost use Rattle.std.specs.Prelude.{Contains};
ghost use Rattle.cjc_script.specs.declared.value.Value.{Value};
ghost use Rattle.cjc_script.specs.Sorts.{OfClass};
ghost use Rattle.cjc_types.specs.declared.state.Stack.TheVariants.{Cells};
ghost use Rattle.cjc_card_semantics.specs.Bytecode.Effects.{HeapObject, Object};
ghost use Rattle.cjc_card_semantics.specs.Bytecode.Machine.{Start, Frame, State, Turn, Fetched, frame_for_call};
ghost use Rattle.cjc_card_semantics.specs.Bytecode.Machine.{turn_after_raise, turn_after_toss, left, inside};
ghost use Rattle.cjc_card_semantics.specs.Machine.Loaded.{Loaded};
ghost use Rattle.cjc_card_semantics.specs.Machine.Classes.{Class, Field};
ghost use Rattle.cjc_card_semantics.specs.Machine.Statics.{Image, StaticCell};
ghost use Rattle.cjc_card_semantics.specs.Machine.Operations.{Callee};
ghost use Rattle.cjc_card_semantics.specs.Machine.Methods.{Code, fetch};
ghost use Rattle.cjc_card_semantics.specs.Machine.ByToken.{by_token};
ghost use Rattle.cjc_frames.specs.Acts.{given, stack_behind, with_writes};
ghost use Rattle.cjc_card_acts.specs.CardTypes.{shape_by, both_of, is_type_of};
ghost use Rattle.cjc_verify_proof.specs.Words.{AreWords, AreLocals};
ghost use Rattle.cjc_verify_proof.specs.Heaps.{object_is};
ghost use Rattle.cjc_verify_proof.specs.Acts.{Passes};
ghost use Rattle.cjc_verify_proof.specs.Control.{next_if, cells_of};
ghost use Rattle.cjc_verify_proof.specs.Frames.{Typing, IsMethod, Program, AreMethods, Stands, Runs};
ghost use Rattle.cjc_verify_proof.specs.Frames.{AreOuter, GoesOn, Begins};

/// What an instruction takes and reads is what it needs, where a frame stands at it, and it may be named as it is.
pub fn frames_pass()
    ensures { (l : Loaded) (exceptions : List ℕ) (t : Typing) → IsMethod l exceptions t
        → (heap : List (HeapObject Class Field)) (f : Frame Code) (s : Stands l heap t f) → (let a = s.step in
        Passes (is_type_of l) t.body.max_stack a.act s.locals s.cells) × ((let x = s.step in let a = x.act in
        a.misnames) ≡ false) }
{}

/// A frame goes on to the next instruction where that may follow, or to a target, with a stack and locals of what the
/// instruction gives.
pub fn frames_go_on()
    ensures { (l : Loaded) (exceptions : List ℕ) (t : Typing) → IsMethod l exceptions t
        → (before heap : List (HeapObject Class Field)) (f : Frame Code) (s : Stands l before t f)
        (i : Fetched Class Field StaticCell Callee) → fetch l f.code f.at ≡ Some i → (at : ℕ)
        → (let x = s.step in let a = x.act in Contains (next_if a.falls i.next ++ a.targets) at)
        → (stack : List Value) (locals : List (Option Value))
        → (let x = s.step in AreWords (object_is l heap) (stack_behind x.act s.locals s.cells) stack)
        → (let x = s.step in let a = x.act in AreLocals (object_is l heap) (with_writes x.act s.locals
        (Cells s.cells) a.writes s.locals) locals)
        → Runs l heap t (record f { at = at; stack = stack; locals = locals }) }
{}

/// What is thrown is caught by a frame, or ends its entry: an object or array of the type of all exceptions, and a new
/// object of a class of that type.
pub fn exceptions_are_caught()
    ensures thrown { (l : Loaded) (program : Program) → AreMethods l program → (s : State Code Class Field (List
        Image)) (t : Typing)
        → Contains program.methods t → (f : Frame Code) (outer : List (Frame Code)) → Stands l s.memory.heap t f
        → AreOuter l program s.memory.heap t.result outer → (object : ℕ)
        → object_is l s.memory.heap program.exceptions object ≡ true → GoesOn l program s.memory
        (turn_after_toss (by_token l) (slice_get s.memory.heap object) f outer object s) }
    ensures raised { (l : Loaded) (program : Program) → AreMethods l program → (s : State Code Class Field (List
        Image)) (t : Typing)
        → Contains program.methods t → (f : Frame Code) (outer : List (Frame Code)) → Stands l s.memory.heap t f
        → AreOuter l program s.memory.heap t.result outer → (c : Class)
        → both_of l (Some (OfClass c)) (shape_by l program.exceptions) ≡ true
        → (otherwise : Turn Code Class Field (List Image)) → GoesOn l program
        (record (s.memory) { heap = s.memory.heap ++ Object c [] ∷ [] })
        (turn_after_raise (by_token l) (Some c) f outer s otherwise) }
{}

/// A frame that waits goes on with the words of a result, or the entry ends.
pub fn results_are_returned()
    ensures { (l : Loaded) (program : Program) → AreMethods l program → (s : State Code Class Field (List Image)) (t :
        Typing) (words : List Value) → AreWords (object_is l s.memory.heap) (cells_of t.result) (reverse words)
        → (f : Frame Code) (outer : List (Frame Code)) → AreOuter l program s.memory.heap t.result outer
        → GoesOn l program s.memory (left (by_token l) words f outer s) }
{}

/// A method begins with words of its arguments, inside a frame that waits for its result or as an entry.
pub fn methods_begin()
    ensures entries { (l : Loaded) (exceptions : List ℕ) (heap : List (HeapObject Class Field)) (t : Typing)
        → IsMethod l exceptions t → (m : Start Code) → Begins t m → (args : List Value)
        → AreWords (object_is l heap) (map (given [] []) t.body.arguments) args
        → Runs l heap t (frame_for_call m args) }
    ensures calls { (l : Loaded) (program : Program) → AreMethods l program → (s : State Code Class Field (List
        Image)) (t : Typing) → Contains program.methods t → (m : Start Code) → Begins t m → (args : List Value)
        → AreWords (object_is l s.memory.heap) (map (given [] []) t.body.arguments) args → (f : Frame Code)
        (outer : List (Frame Code)) → AreOuter l program s.memory.heap t.result (f ∷ outer)
        → GoesOn l program s.memory (inside (by_token l) m args f outer s) }
{}
