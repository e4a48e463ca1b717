//! Frames made by hand that agree, a method made by hand that is written and typed, and what the guard makes of
//! indices at the ends of 16 and 32 bits.

ghost use Rattle.std.specs.Prelude.{◌≡◌, [], ◌∷◌, pos, negsuc, Option, Some};
ghost use Rattle.cjc_range.specs.Span.{short_range, full};
ghost use Rattle.cjc_script.specs.declared.value.Value.TheVariants.{Num};
ghost use Rattle.cjc_script.specs.Sorts.{Short, Int, Sort};
ghost use Rattle.cjc_card_semantics.specs.Bytecode.Calculations.{int_words};
ghost use Rattle.cjc_card_semantics.specs.Bytecode.Numbers.{spelt_by};
ghost use Rattle.cjc_ncode.specs.ByLabel.{Named, by_label};
ghost use Rattle.cjc_ncode.specs.WorkedCode.{linked};
ghost use Rattle.cjc_ncode.specs.IntCode.Worked.{element_frame};
ghost use Rattle.cjc_jvm_semantics.specs.Linked.{Linked, Method};
ghost use Rattle.cjc_int_proof.specs.Walks.{Within, walk};
ghost use Rattle.cjc_narrow_proof.specs.Selection.Relation.{Range};
ghost use Rattle.cjc_narrow_proof.specs.Selection.Tables.{Table};
ghost use Rattle.cjc_int_runs.specs.IntFrames.{IntBody, StandsByMode};
ghost use Rattle.cjc_int_runs.specs.Relation.{IntStacks, IntLocals, AllHanded};
ghost use Rattle.cjc_int_runs.specs.Steps.{spot};
ghost use Rattle.cjc_int_runs.specs.Typed.{IsWritten, IntMethodIsTyped};
ghost use Rattle.cjc_int_runs.specs.Worked.{echo, echo_body, echo_reached};
ghost use Rattle.cjc_int_runs.specs.Worked.{cells, values, value_words, local_cells, locals, local_words, guard_code};

/// A stack and locals that agree, and arguments that are handed over: a short of one word and an int of two.
pub fn frames_agree()
    ensures stack { IntStacks [] cells values value_words }
    ensures locals { IntLocals [] element_frame 0 local_cells locals local_words }
    ensures arguments { AllHanded [] (Short ∷ Int ∷ []) (Range short_range ∷ Range full ∷ [])
        (Num (negsuc 0) ∷ Num (pos 65536) ∷ []) (Num (negsuc 0) ∷ Num (pos 1) ∷ Num (pos 0) ∷ []) }
    ensures least { spelt_by (negsuc 32767) (pos 0) ≡ negsuc 2147483647 }
    ensures greatest { spelt_by (pos 32767) (negsuc 0) ≡ pos 2147483647 }
{}

/// The guard leaves an index of 16 bits as it is, in seven instructions, and makes -1 of any other, in nine: of 65,536
/// too, whose low word is 0.
pub fn indices_are_guarded()
    ensures inside { walk (by_label linked) guard_code 7 (spot 0 (int_words (pos 32767)) [] linked.memory)
        ≡ Within (spot 9 (Num (pos 32767) ∷ []) [] linked.memory) }
    ensures negative { walk (by_label linked) guard_code 7 (spot 0 (int_words (negsuc 0)) [] linked.memory)
        ≡ Within (spot 9 (Num (negsuc 0) ∷ []) [] linked.memory) }
    ensures whole { walk (by_label linked) guard_code 9 (spot 0 (int_words (pos 65536)) [] linked.memory)
        ≡ Within (spot 9 (Num (negsuc 0) ∷ []) [] linked.memory) }
    ensures greatest { walk (by_label linked) guard_code 9 (spot 0 (int_words (pos 2147483647)) [] linked.memory)
        ≡ Within (spot 9 (Num (negsuc 0) ∷ []) [] linked.memory) }
{}

/// A method made by hand, which takes an int and returns it, is written and typed, in any package where its result
/// is an
/// int.
pub fn an_echo_is_written_and_typed()
    ensures written { IsWritten echo_body echo echo_reached }
    ensures typed { (by : Linked) (l : Named) (tb : Table) (bodies : Method → Option IntBody)
        (results : Method → Option Sort) → results echo ≡ Some Int → IntMethodIsTyped by l (StandsByMode l tb bodies)
        results tb.narrowed tb.may_throw echo_body echo }
{}
