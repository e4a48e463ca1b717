//! Calls by token: what a call takes are arguments of its method, and an imported call is answered by the script with a
//! value of its result's type or an exception. It has laws alone, for whoever proves that components which break no
//! rule are never stuck.
ghost use Rattle.std.specs.Prelude.{◌≡◌, ◌≤◌, ℕ, Bool, true, false, List, ◌++◌, length, take, reverse, Option, Some};
ghost use Rattle.std.specs.Prelude.{Contains};
ghost use Rattle.cjc_script.specs.Bytes.declared.fault.MemberId.{MemberId};
ghost use Rattle.cjc_script.specs.declared.value.Value.{Value};
ghost use Rattle.cjc_script.specs.declared.script.Act.{Act};
ghost use Rattle.cjc_script.specs.Sorts.{Sort, Signature, signature_of, result_fits};
ghost use Rattle.cjc_types.specs.declared.cell.Cell.{Cell};
ghost use Rattle.cjc_card_semantics.specs.Bytecode.Calculations.{Fault};
ghost use Rattle.cjc_card_semantics.specs.Bytecode.Effects.{HeapObject};
ghost use Rattle.cjc_card_semantics.specs.Bytecode.Arguments.{event_values, result_words};
ghost use Rattle.cjc_card_semantics.specs.Bytecode.Machine.{Frame, State, heap_after, object_fits, turn_after_fault};
ghost use Rattle.cjc_card_semantics.specs.Bytecode.Machine.{outside};
ghost use Rattle.cjc_card_semantics.specs.Machine.Loaded.{Loaded};
ghost use Rattle.cjc_card_semantics.specs.Machine.Classes.{Class, Field};
ghost use Rattle.cjc_card_semantics.specs.Machine.Statics.{Image};
ghost use Rattle.cjc_card_semantics.specs.Machine.Methods.{Code};
ghost use Rattle.cjc_card_semantics.specs.Machine.ByToken.{by_token};
ghost use Rattle.cjc_frames.specs.Acts.{has_wrong};
ghost use Rattle.cjc_card_acts.specs.CardTypes.{ValueType, needs_of_all, is_type_of};
ghost use Rattle.cjc_verify_proof.specs.Words.{AreWords};
ghost use Rattle.cjc_verify_proof.specs.Heaps.{object_is};
ghost use Rattle.cjc_verify_proof.specs.Control.{cells_of};
ghost use Rattle.cjc_verify_proof.specs.Frames.{Typing, Program, AreMethods, Stands, Waits, AreOuter};
ghost use Rattle.cjc_verify_proof.specs.Calls.{receiver_needs, has_receiver, argument_cells, AreSorts, IsResult};
ghost use Rattle.cjc_verify_proof.specs.Scripts.{IsPrepared, GoesOnPrepared, HasExceptions};

/// The words that a call takes, the deepest first, are those of the receiver and of values of the parameters' types.
pub fn calls_take_arguments()
    ensures { (l : Loaded) (heap : List (HeapObject Class Field)) (receiver : Option (List ℕ))
        (params : List ValueType) (cells : List Cell) (stack : List Value) → AreWords (object_is l heap) cells stack
        → has_wrong (is_type_of l) (needs_of_all params ++ receiver_needs receiver) cells ≡ false
        → length (needs_of_all params ++ receiver_needs receiver) ≤ length cells
        → AreWords (object_is l heap) (argument_cells receiver params)
        (reverse (take (length (needs_of_all params ++ receiver_needs receiver)) stack)) }
{}

/// An act of a script that fits leaves a heap on which what was there keeps its type, arrays hold what they may, and
/// new objects are of imported classes.
pub fn acts_prepare_heaps()
    ensures { (l : Loaded) (heap after : List (HeapObject Class Field)) (a : Act)
        → heap_after (by_token l) a heap ≡ Some after → IsPrepared l heap after }
{}

/// A value that fits the result of an imported call is words of the result's cells.
pub fn results_are_words()
    ensures { (l : Loaded) (heap : List (HeapObject Class Field)) (sort : Option Sort) (result : ValueType)
        → IsResult l sort result → (v : Option Value) → result_fits (object_fits (by_token l) heap) sort v ≡ true
        → AreWords (object_is l heap) (cells_of result) (reverse (result_words sort v)) }
{}

/// An exception of the machine's own is made and caught by a frame, or ends its entry.
pub fn faults_are_caught()
    ensures { (l : Loaded) (program : Program) → AreMethods l program → HasExceptions l program.exceptions
        → (s : State Code Class Field (List Image)) (t : Typing) → Contains program.methods t → (f : Frame Code)
        → Stands l s.memory.heap t f → (outer : List (Frame Code)) → AreOuter l program s.memory.heap t.result outer
        → (fault : Fault) → GoesOnPrepared l program s.memory (turn_after_fault (by_token l) fault f outer s) }
{}

/// An imported call waits for an answer or ends the run, or its frame goes on with a value of its result's type or an
/// exception, where its words are arguments of the types that its descriptor says.
pub fn imported_calls_go_on()
    ensures { (l : Loaded) (program : Program) → AreMethods l program → HasExceptions l program.exceptions
        → (s : State Code Class Field (List Image)) (t : Typing) → Contains program.methods t → (result : ValueType)
        (f : Frame Code) → Waits l s.memory.heap result t f → (outer : List (Frame Code))
        → AreOuter l program s.memory.heap t.result outer → (on_object : Bool) (id : MemberId) (types : Signature)
        → signature_of id.desc ≡ Some types → (receiver : Option (List ℕ)) → on_object ≡ has_receiver receiver
        → (params : List ValueType) → AreSorts l types.params params → IsResult l types.result result
        → (args : List Value) → AreWords (object_is l s.memory.heap) (argument_cells receiver params) args
        → GoesOnPrepared l program s.memory (outside (by_token l) on_object id args f outer s) }
{}
