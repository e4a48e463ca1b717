//! What code in int mode does before calls and behind them, and how it throws: values go between methods as their types
//! say, whatever the modes of both are.

ghost use Rattle.std.specs.Prelude.{◌≡◌, ℕ, ◌+◌, ◌≤◌, Option, List, length, Bool, Some, true, ◌++◌};
ghost use Rattle.cjc_script.specs.Bytes.declared.fault.MemberId.{MemberId};
ghost use Rattle.cjc_script.specs.declared.value.Value.{Value};
ghost use Rattle.cjc_script.specs.Sorts.{Shape, Sort, Signature, signature_of};
ghost use Rattle.cjc_ncode.specs.declared.narrow.NMethod.{NMethod};
ghost use Rattle.cjc_ncode.specs.ByLabel.{Callee, Named};
ghost use Rattle.cjc_ncode.specs.Written.{Resolution};
ghost use Rattle.cjc_ncode.specs.IntCode.IntCode.{Before, Frame, is_by_scratch, widened_result, handed_over};
ghost use Rattle.cjc_jvm_semantics.specs.Linked.{Method, Linked};
ghost use Rattle.cjc_narrow_proof.specs.Selection.Callees.{Names};
ghost use Rattle.cjc_narrow_proof.specs.Selection.Relation.{Kind, NMemory};
ghost use Rattle.cjc_int_runs.specs.Relation.{IntStacks, IntLocals};
ghost use Rattle.cjc_int_runs.specs.Steps.{StandAt, HasIntRoom, IntResults};
ghost use Rattle.cjc_int_runs.specs.Calls.{onto, PassesInt, HandsOver, IntCall, Resumed};
ghost use Rattle.cjc_int_runs.specs.Throws.{IntThrow};

/// Parameters on the stack are handed over by their types: a boolean, a byte and a short as one word, an int as two, a
/// reference as it is. Where they go by scratch pairs, each comes back as it went.
pub fn parameters_are_handed_over()
    ensures { (l : Named) (f : Frame) (pairs : ℕ) (ls : List Kind) (code : NMethod) (here : ℕ) (vs ws : List Value)
        (locals words : List (Option Value)) (memory : NMemory) → IntLocals memory.heap f pairs ls locals words
        → (max_stack : ℕ) (sorts : List Sort) (ps ks : List Kind) → PassesInt sorts ps
        → (is_by_scratch sorts ≡ true → length sorts ≤ pairs)
        → HasIntRoom (length ps + length ks) max_stack code.max_stack → StandAt code here (handed_over f sorts)
        → IntStacks memory.heap (onto ps ks) vs ws
        → HandsOver l f pairs ls code here (handed_over f sorts) sorts ps ks vs ws locals words memory }
{}

/// A call calls the same member on both sides, with arguments that agree by the types of that member.
pub fn calls_agree()
    ensures { (by : Linked) (l : Named) (f : Frame) (pairs : ℕ) (r : Resolution) (m : Method) (b : Before) (op : ℕ)
        (id : MemberId) (callee : Callee) (types : Signature) (params : List Kind) → signature_of id.desc ≡ Some types
        → Names r op id callee → PassesInt types.params params
        → (is_by_scratch types.params ≡ true → length types.params ≤ pairs)
        → IntCall by l f pairs r m b op id callee types params }
{}

/// Behind a call the words of a result are those of the number by name.
pub fn results_come_back()
    ensures { (l : Named) (code : NMethod) (here : ℕ) (ks : List Kind) (under below : List Value)
        (words : List (Option Value)) (memory : NMemory) (max_stack : ℕ) (sort : Option Sort) (kinds : List Kind)
        (value : Option Value) (result_words : List Value) → IntResults memory.heap sort kinds value result_words
        → HasIntRoom (length (kinds ++ ks)) max_stack code.max_stack → StandAt code here (widened_result sort)
        → IntStacks memory.heap ks under below
        → Resumed l code here (widened_result sort) kinds ks value result_words under below words memory }
{}

/// An athrow throws the same array or object, and raises for null.
pub fn throws_agree()
    ensures { (by : Linked) (l : Named) (f : Frame) (r : Resolution) (m : Method) (b : Before)
        (within : Shape (List ℕ) → Bool) → IntThrow by l f r m b within }
{}
