//! Class files and narrow code behave alike, on numbers of 32 bits and on words of 16: when their frames, heaps and
//! static cells agree, and laws that keep them so, one instruction at a time. It has definitions and laws alone, for
//! whoever proves that whole runs agree. It knows no tokens and no components, and not how a table was made.
ghost use Rattle.std.specs.List.{Contains};
ghost use Rattle.std.specs.Prelude.{◌≡◌, ◌<◌, ◌+◌, length, slice_set, ◌∷◌, [], ◌++◌, reverse, option_map, slice_get};
ghost use Rattle.std.specs.Prelude.{Option, Some, false, true, Bool, List, ℕ, ℤ, pos};
ghost use Rattle.cjc_bytes.specs.declared.fault.MemberId.{MemberId};
ghost use Rattle.cjc_range.specs.Span.{Span, span, Holds, Within, IsWord, short_range};
ghost use Rattle.cjc_range.specs.Rows.{add_row, sub_row, mul_row, neg_row, div_row, rem_row, shl_row, shr_row};
ghost use Rattle.cjc_range.specs.Rows.{ushr_row, and_row, or_row, to_byte_row, to_short_row};
ghost use Rattle.cjc_code.specs.ClassFile.declared.tree.Catch.{Catch};
ghost use Rattle.cjc_code.specs.Jvm as jvm;
ghost use Rattle.cjc_code.specs.declared.insn.JCase.{JCase};
ghost use Rattle.cjc_code.specs.declared.insn.JInsn.{JInsn};
ghost use Rattle.cjc_code.specs.declared.insn.JOp.TheVariants as jop;
ghost use Rattle.cjc_script.specs.Sorts.{Booleans, Bytes, Shorts, Signature, Shape, OfClass, OfNumbers, OfReferences};
ghost use Rattle.cjc_script.specs.Sorts.{shape_name, field_sort};
ghost use Rattle.cjc_card_semantics.specs.Bytecode.Effects.{Invoke, Toss, Raise, Leave, HeapObject, shape};
ghost use Rattle.cjc_card_semantics.specs.Bytecode.Effects as narrow;
ghost use Rattle.cjc_card_semantics.specs.Bytecode.Runs.{Agree};
ghost use Rattle.cjc_card_semantics.specs.Bytecode.Machine.{Start, caught, made, begins as narrow_begins};
ghost use Rattle.cjc_card_semantics.specs.Bytecode.Machine.{step as narrow_step};
ghost use Rattle.cjc_script.specs.declared.value.Value.{Value};
ghost use Rattle.cjc_script.specs.declared.script.Entry.{Entry};
ghost use Rattle.cjc_script.specs.declared.script.Script.{Script};
ghost use Rattle.cjc_ncode.specs.declared.narrow.NInsn.{NInsn};
ghost use Rattle.cjc_ncode.specs.declared.narrow.NInsn.TheVariants as insns;
ghost use Rattle.cjc_ncode.specs.declared.narrow.NMethod.{NMethod};
ghost use Rattle.cjc_ncode.specs.Written.{Resolution, written, place_in, catches_at};
ghost use Rattle.cjc_ncode.specs.ByLabel.{Callee, Named, Resolved, by_label, classes, operation};
ghost use Rattle.cjc_ncode.specs.ByLabel.{handler as narrow_handler, run as narrow_run};
ghost use Rattle.cjc_jvm_semantics.specs.Linked.{Method, Linked};
ghost use Rattle.cjc_jvm_semantics.specs.Effects.{Fault, NullPointer, exception_class, Store, place};
ghost use Rattle.cjc_jvm_semantics.specs.Effects as effects;
ghost use Rattle.cjc_jvm_semantics.specs.Machine.{Frame, State, room, holder_of, handler, after_throw, after_effect};
ghost use Rattle.cjc_jvm_semantics.specs.Machine.{begins, step, run};
ghost use Rattle.cjc_narrow_proof.specs.Selection.Relation.{Kind, OnBoth, Range, Refers, boolean_range, Heap, NMemory};
ghost use Rattle.cjc_narrow_proof.specs.Selection.Relation.{Stacks, Locals, AllWider, IsMadeOf, Stores};
ghost use Rattle.cjc_narrow_proof.specs.Selection.Rows.{narrow_fault, NEffect, GoesOn, HasRoom, Same, RowAgrees};
ghost use Rattle.cjc_narrow_proof.specs.Selection.Rows.{RowOnLocals, IsNotWritten, FieldIsThere, kind_of};
ghost use Rattle.cjc_narrow_proof.specs.Selection.Objects.{IsMade, IsClassThere, IsTypeThere};
ghost use Rattle.cjc_narrow_proof.specs.Selection.Elements.{index_range, IsBytes, IsShorts, IsReferences, AreAll};
ghost use Rattle.cjc_narrow_proof.specs.Selection.Elements.{AreArrays, ElementsLie, ItemsPass, KeepsAlike};
ghost use Rattle.cjc_narrow_proof.specs.Selection.Cells.{CellIsThere, IsConstant, MayBePut};
ghost use Rattle.cjc_narrow_proof.specs.Selection.Jumps.{Jumps, JumpAgrees, ReturnAgrees, Results};
ghost use Rattle.cjc_narrow_proof.specs.Selection.Switches.{targets_of, JumpsInTwo, TwoAgree};
ghost use Rattle.cjc_narrow_proof.specs.Selection.Callees.{Names, CallIsWritten};
ghost use Rattle.cjc_narrow_proof.specs.Selection.Results.{Resumes, NotesResult, AreShort};
ghost use Rattle.cjc_narrow_proof.specs.Selection.Replies.{StatesAgree, result_kinds, IsStaticImport, IsObjectImport};
ghost use Rattle.cjc_narrow_proof.specs.Selection.Replies.{AnswersAlike, ImportAgrees};
ghost use Rattle.cjc_narrow_proof.specs.Selection.Acts.{ActsAlike, ActsAreTold};
ghost use Rattle.cjc_narrow_proof.specs.Selection.Entries.{MayEnter, IsEntry, IsNoEntry, entry_kinds, EntryAgrees};
ghost use Rattle.cjc_narrow_proof.specs.Selection.Types.{TypesStay};
ghost use Rattle.cjc_narrow_proof.specs.Selection.Turns.{TurnAgrees};
ghost use Rattle.cjc_narrow_proof.specs.Selection.Paths.{JumpTurn, SilentTurn, TwoTurns, TurnsAre};
ghost use Rattle.cjc_narrow_proof.specs.Selection.Tosses.{ThrowTurn};
ghost use Rattle.cjc_narrow_proof.specs.Selection.Tables.{Point, Table, MayRaise, class_of_code, code_of};
ghost use Rattle.cjc_narrow_proof.specs.Selection.Tables.{written_place, offset_at, spot, Arrives, Handles, handler_at};
ghost use Rattle.cjc_narrow_proof.specs.Selection.Tables.{CatchesAlike, Catches};
ghost use Rattle.cjc_narrow_proof.specs.Selection.Runs.{Falls, Rule, Begins, IsFine};
ghost use Rattle.cjc_narrow_proof.specs.Selection.Reached.{IsCallAt, MayBeCalled, MayBeAnswered, MaySelectOn};
ghost use Rattle.cjc_narrow_proof.specs.Selection.Reached.{IsAnswered, MayBegin};
ghost use Rattle.cjc_narrow_proof.specs.Selection.Throws.{nheap, HandleAlike, Unwinds, Raises, IsRaised};
ghost use Rattle.cjc_narrow_proof.specs.Selection.Calls.{NFrame, NState, Frames, CallAgrees, IsStaticCall};
ghost use Rattle.cjc_narrow_proof.specs.Selection.Calls.{IsReceiverCall, IsObjectCall, MaySelect, IsWrittenAt};
ghost use Rattle.cjc_narrow_proof.specs.Selection.Calls.{HandlesAlike, CatchAgrees};

/// Arithmetic of class files on operands in intervals, and what is written for it: words stay the low words of
/// their numbers, and each result lies in the interval that its row gives. A quotient, a remainder and a number
/// that is shifted to the right are so where the operands have 16 bits; a zero divisor raises.
pub fn arithmetic_agrees()
    ensures iadd { (by : Linked) (l : Named) (r : Resolution) (m : Method) (s t : Span)
        → RowAgrees by l r m (jop.Arith jvm.iadd) (Range t ∷ Range s ∷ []) (Range (add_row s t) ∷ []) }
    ensures isub { (by : Linked) (l : Named) (r : Resolution) (m : Method) (s t : Span)
        → RowAgrees by l r m (jop.Arith jvm.isub) (Range t ∷ Range s ∷ []) (Range (sub_row s t) ∷ []) }
    ensures imul { (by : Linked) (l : Named) (r : Resolution) (m : Method) (s t : Span)
        → RowAgrees by l r m (jop.Arith jvm.imul) (Range t ∷ Range s ∷ []) (Range (mul_row s t) ∷ []) }
    ensures ishl { (by : Linked) (l : Named) (r : Resolution) (m : Method) (s t : Span) → IsWord t
        → RowAgrees by l r m (jop.Arith jvm.ishl) (Range t ∷ Range s ∷ []) (Range (shl_row s t) ∷ []) }
    ensures iand { (by : Linked) (l : Named) (r : Resolution) (m : Method) (s t : Span) → IsWord s → IsWord t
        → RowAgrees by l r m (jop.Arith jvm.iand) (Range t ∷ Range s ∷ []) (Range (and_row s t) ∷ []) }
    ensures ior { (by : Linked) (l : Named) (r : Resolution) (m : Method) (s t : Span) → IsWord s → IsWord t
        → RowAgrees by l r m (jop.Arith jvm.ior) (Range t ∷ Range s ∷ []) (Range (or_row s t) ∷ []) }
    ensures ixor { (by : Linked) (l : Named) (r : Resolution) (m : Method) (s t : Span) → IsWord s → IsWord t
        → RowAgrees by l r m (jop.Arith jvm.ixor) (Range t ∷ Range s ∷ []) (Range (or_row s t) ∷ []) }
    ensures idiv { (by : Linked) (l : Named) (r : Resolution) (m : Method) (s t : Span) → Within s short_range
        → Within t short_range → RowAgrees by l r m (jop.Arith jvm.idiv) (Range t ∷ Range s ∷ []) (Range (div_row s t)
        ∷ []) }
    ensures irem { (by : Linked) (l : Named) (r : Resolution) (m : Method) (s t : Span) → IsWord s → IsWord t
        → Within s short_range → Within t short_range → RowAgrees by l r m (jop.Arith jvm.irem) (Range t ∷ Range s
        ∷ []) (Range (rem_row s t) ∷ []) }
    ensures ishr { (by : Linked) (l : Named) (r : Resolution) (m : Method) (s t : Span) → IsWord s → IsWord t
        → Within s short_range → RowAgrees by l r m (jop.Arith jvm.ishr) (Range t ∷ Range s ∷ []) (Range (shr_row s t)
        ∷ []) }
    ensures iushr { (by : Linked) (l : Named) (r : Resolution) (m : Method) (s t : Span) → IsWord s → IsWord t
        → Within s short_range → RowAgrees by l r m (jop.Arith jvm.iushr) (Range t ∷ Range s ∷ []) (Range (ushr_row s t)
        ∷ []) }
    ensures i2b { (by : Linked) (l : Named) (r : Resolution) (m : Method) (s : Span)
        → RowAgrees by l r m (jop.Narrow jvm.i2b) (Range s ∷ []) (Range (to_byte_row s) ∷ []) }
    ensures ineg { (by : Linked) (l : Named) (r : Resolution) (m : Method) (s : Span)
        → RowAgrees by l r m (jop.Arith jvm.ineg) (Range s ∷ []) (Range (neg_row s) ∷ []) }
{}

/// Null, a number and a local are pushed alike: of a number its low word.
pub fn pushes_agree()
    ensures aconst_null { (by : Linked) (l : Named) (r : Resolution) (m : Method) (within : Shape (List ℕ) → Bool)
        → RowAgrees by l r m jop.Null [] (Refers within ∷ []) }
    ensures number { (by : Linked) (l : Named) (r : Resolution) (m : Method) (z : ℤ) (s : Span) → Holds s z
        → RowAgrees by l r m (jop.Number z) [] (Range s ∷ []) }
    ensures iload { (by : Linked) (l : Named) (r : Resolution) (m : Method) (ls : List Kind) (n : ℕ) (s : Span)
        → slice_get ls n ≡ Some (Range s) → RowOnLocals by l r m (jop.Load false n) [] (Range s ∷ []) ls ls }
    ensures aload { (by : Linked) (l : Named) (r : Resolution) (m : Method) (ls : List Kind) (n : ℕ)
        (within : Shape (List ℕ) → Bool) → slice_get ls n ≡ Some (Refers within)
        → RowOnLocals by l r m (jop.Load true n) [] (Refers within ∷ []) ls ls }
{}

/// Cells that are on both stacks are copied alike.
pub fn copies_agree()
    ensures dup { (by : Linked) (l : Named) (r : Resolution) (m : Method) (a : Kind) → OnBoth (a ∷ [])
        → RowAgrees by l r m (jop.Stack jvm.dup) (a ∷ []) (a ∷ a ∷ []) }
    ensures dup_x1 { (by : Linked) (l : Named) (r : Resolution) (m : Method) (a b : Kind) → OnBoth (a ∷ b ∷ [])
        → RowAgrees by l r m (jop.Stack jvm.dup_x1) (a ∷ b ∷ []) (a ∷ b ∷ a ∷ []) }
    ensures dup_x2 { (by : Linked) (l : Named) (r : Resolution) (m : Method) (a b c : Kind) → OnBoth (a ∷ b ∷ c ∷ [])
        → RowAgrees by l r m (jop.Stack jvm.dup_x2) (a ∷ b ∷ c ∷ []) (a ∷ b ∷ c ∷ a ∷ []) }
    ensures dup2 { (by : Linked) (l : Named) (r : Resolution) (m : Method) (a b : Kind) → OnBoth (a ∷ b ∷ [])
        → RowAgrees by l r m (jop.Stack jvm.dup2) (a ∷ b ∷ []) (a ∷ b ∷ a ∷ b ∷ []) }
    ensures dup2_x1 { (by : Linked) (l : Named) (r : Resolution) (m : Method) (a b c : Kind) → OnBoth (a ∷ b ∷ c ∷ [])
        → RowAgrees by l r m (jop.Stack jvm.dup2_x1) (a ∷ b ∷ c ∷ []) (a ∷ b ∷ c ∷ a ∷ b ∷ []) }
    ensures dup2_x2 { (by : Linked) (l : Named) (r : Resolution) (m : Method) (a b c d : Kind)
        → OnBoth (a ∷ b ∷ c ∷ d ∷ []) → RowAgrees by l r m (jop.Stack jvm.dup2_x2) (a ∷ b ∷ c ∷ d ∷ []) (a ∷ b ∷ c ∷ d
        ∷ a ∷ b ∷ []) }
{}

/// Cells that are on both stacks are dropped and exchanged alike.
pub fn drops_agree()
    ensures pop { (by : Linked) (l : Named) (r : Resolution) (m : Method) (a : Kind) → OnBoth (a ∷ [])
        → RowAgrees by l r m (jop.Stack jvm.pop) (a ∷ []) [] }
    ensures pop2 { (by : Linked) (l : Named) (r : Resolution) (m : Method) (a b : Kind) → OnBoth (a ∷ b ∷ [])
        → RowAgrees by l r m (jop.Stack jvm.pop2) (a ∷ b ∷ []) [] }
    ensures swap { (by : Linked) (l : Named) (r : Resolution) (m : Method) (a b : Kind) → OnBoth (a ∷ b ∷ [])
        → RowAgrees by l r m (jop.Stack jvm.swap) (a ∷ b ∷ []) (b ∷ a ∷ []) }
{}

/// Nothing is written for nop and i2s, and no word changes: what i2s leaves of a number has the number's low word.
pub fn nothing_changes_no_word()
    ensures nop { (by : Linked) (r : Resolution) (m : Method) → IsNotWritten by r m jop.Nop [] [] }
    ensures i2s { (by : Linked) (r : Resolution) (m : Method) (s : Span)
        → IsNotWritten by r m (jop.Narrow jvm.i2s) (Range s ∷ []) (Range (to_short_row s) ∷ []) }
{}

/// A local is written alike, and increased by a number of 16 bits.
pub fn locals_are_written_alike()
    ensures istore { (by : Linked) (l : Named) (r : Resolution) (m : Method) (ls : List Kind) (n : ℕ) → n < length ls
        → (s : Span) → RowOnLocals by l r m (jop.Store false n) (Range s ∷ []) [] ls (slice_set ls n (Range s)) }
    ensures astore { (by : Linked) (l : Named) (r : Resolution) (m : Method) (ls : List Kind) (n : ℕ) → n < length ls
        → (within : Shape (List ℕ) → Bool) → RowOnLocals by l r m (jop.Store true n) (Refers within ∷ []) [] ls
        (slice_set ls n (Refers within)) }
    ensures iinc { (by : Linked) (l : Named) (r : Resolution) (m : Method) (ls : List Kind) (n : ℕ) (s : Span) (z : ℤ)
        → slice_get ls n ≡ Some (Range s) → Holds short_range z
        → RowOnLocals by l r m (jop.Inc n z) [] [] ls (slice_set ls n (Range (add_row s (span z z)))) }
{}

/// An object is thrown and the elements of an array are counted alike; null raises.
pub fn references_are_met_alike()
    ensures athrow { (by : Linked) (l : Named) (r : Resolution) (m : Method) (within : Shape (List ℕ) → Bool)
        → RowAgrees by l r m jop.Throw (Refers within ∷ []) [] }
    ensures arraylength { (by : Linked) (l : Named) (r : Resolution) (m : Method) (within : Shape (List ℕ) → Bool)
        → AreArrays l within → RowAgrees by l r m jop.ArrayLength (Refers within ∷ []) (Range (span (pos 0) (pos 32767))
        ∷ []) }
{}

/// Elements of arrays are read and written alike, at indices whose low words find the same items: null, an
/// index outside and a reference that the array's class does not have raise. A byte or boolean keeps eight bits
/// of a number and a short sixteen; a number that is put into an array that may be one of booleans is 0 or 1.
pub fn elements_are_met_alike()
    ensures baload { (by : Linked) (l : Named) (r : Resolution) (m : Method) (i t : Span) (within : Shape (List ℕ)
        → Bool) → Within i index_range → AreAll l IsBytes within → ElementsLie within t
        → RowAgrees by l r m (jop.ArrayLoad jvm.baload) (Range i ∷ Refers within ∷ []) (Range t ∷ []) }
    ensures saload { (by : Linked) (l : Named) (r : Resolution) (m : Method) (i t : Span) (within : Shape (List ℕ)
        → Bool) → Within i index_range → AreAll l IsShorts within → ElementsLie within t
        → RowAgrees by l r m (jop.ArrayLoad jvm.saload) (Range i ∷ Refers within ∷ []) (Range t ∷ []) }
    ensures aaload { (by : Linked) (l : Named) (r : Resolution) (m : Method) (i : Span) (within items : Shape (List ℕ)
        → Bool) → Within i index_range → AreAll l IsReferences within → ItemsPass l within items
        → RowAgrees by l r m (jop.ArrayLoad jvm.aaload) (Range i ∷ Refers within ∷ []) (Refers items ∷ []) }
    ensures bastore { (by : Linked) (l : Named) (r : Resolution) (m : Method) (i s : Span) (within : Shape (List ℕ)
        → Bool) → Within i index_range → AreAll l IsBytes within → (within (OfNumbers Booleans) ≡ true
        → Within s boolean_range) → RowAgrees by l r m (jop.ArrayStore jvm.bastore) (Range s ∷ Range i ∷ Refers within
        ∷ []) [] }
    ensures sastore { (by : Linked) (l : Named) (r : Resolution) (m : Method) (i s : Span) (within : Shape (List ℕ)
        → Bool) → Within i index_range → AreAll l IsShorts within → RowAgrees by l r m (jop.ArrayStore jvm.sastore)
        (Range s ∷ Range i ∷ Refers within ∷ []) [] }
    ensures aastore { (by : Linked) (l : Named) (r : Resolution) (m : Method) (i : Span) (within values : Shape (List ℕ)
        → Bool) → Within i index_range → AreAll l IsReferences within → KeepsAlike by l m within values
        → RowAgrees by l r m (jop.ArrayStore jvm.aastore) (Refers values ∷ Range i ∷ Refers within ∷ []) [] }
{}

/// A field whose values are one word is read alike, on an object of a class that has it: what both heaps hold
/// under it is pushed, and null raises.
pub fn fields_are_read_alike()
    ensures { (by : Linked) (l : Named) (r : Resolution) (m : Method) (named : MemberId) (within : Shape (List ℕ)
        → Bool) → FieldIsThere by l r m named within → RowAgrees by l r m (jop.Field false named) (Refers within
        ∷ []) (kind_of l (field_sort named.desc) ∷ []) }
{}

/// A field whose values are one word is written alike, on an object of a class that has it, and null raises: a
/// number is put in the interval of the field's type, a reference of its type.
pub fn fields_are_written_alike()
    ensures { (by : Linked) (l : Named) (r : Resolution) (m : Method) (named : MemberId) (k : Kind)
        (within : Shape (List ℕ) → Bool) → FieldIsThere by l r m named within → MayBePut l (field_sort named.desc) k
        → RowAgrees by l r m (jop.Field true named) (k ∷ Refers within ∷ []) [] }
{}

/// A static field whose values are one word is read and written alike, where the static cells have it: a number
/// is put in the interval of the field's type, a reference of its type. Of a constant its number is pushed.
pub fn static_fields_are_met_alike()
    ensures getstatic { (by : Linked) (l : Named) (r : Resolution) (m : Method) (named : MemberId)
        → CellIsThere by l r m named → RowAgrees by l r m (jop.Static false named) [] (kind_of l (field_sort named.desc)
        ∷ []) }
    ensures putstatic { (by : Linked) (l : Named) (r : Resolution) (m : Method) (named : MemberId) (k : Kind)
        → CellIsThere by l r m named → MayBePut l (field_sort named.desc) k
        → RowAgrees by l r m (jop.Static true named) (k ∷ []) [] }
    ensures constant { (by : Linked) (l : Named) (r : Resolution) (m : Method) (z : ℤ) (s : Span) → Holds s z
        → (named : MemberId) → IsConstant by r m named z → RowAgrees by l r m (jop.Static false named) [] (Range s
        ∷ []) }
{}

/// Where no frame is active the next entry of a script begins alike, after its acts: a static method that it
/// calls, or the one that is selected on the array or object that it sends to, with arguments that are the same
/// on both sides; or an act, the method or an argument does not fit, and both runs are over. Its parameters are
/// one word each, and one act changes both heaps alike.
pub fn entries_begin_alike()
    ensures { (by : Linked) (l : Named) (narrowed : Method → Start NMethod) (types : Signature) (within : Method
        → Shape (List ℕ) → Bool) (e : Entry) (entries : List Entry) → ActsAlike by l
        → IsEntry by l narrowed e.method types within → (s : State) (t : NState) → StatesAgree l s t
        → EntryAgrees by l narrowed e.virtual_call (entry_kinds e.virtual_call l within types) e entries t.notes
        (begins by [] (e ∷ entries) s) (narrow_begins (by_label l) [] (e ∷ entries) t) }
{}

/// A call of a static method, and one on a receiver that each of its types selects a method of the package for:
/// the method and what is written for it begin with arguments that agree, above frames that wait behind the
/// call; null raises. The method is the one that the call names, or one that the receiver may select; its
/// receiver is known to pass what that method's are to pass.
pub fn calls_begin_alike()
    ensures static_call { (by : Linked) (l : Named) (narrowed : Method → Start NMethod) (op : ℕ) (id : MemberId)
        (named : Callee) (params ks ls : List Kind) (next : ℕ) (f : Frame) (outer : List Frame) (s : State) (g : NFrame)
        (others : List NFrame) (t : NState) → (call : IsStaticCall by l narrowed (holder_of f) op id named params)
        → Frames (let m = t.memory in m.heap) (reverse params ++ ks) ls f g → CallAgrees by l narrowed (λ m. call.callee
        ≡ m) (λ m. params) ks next f outer s g others t (after_effect by (effects.Invoke op id) f outer s)
        (made (by_label l) (Invoke named) next g others t) }
    ensures object_call { (by : Linked) (l : Named) (narrowed : Method → Start NMethod) (op : ℕ) (id : MemberId)
        (named : Callee) (within : Shape (List ℕ) → Bool) (receives : Method → Shape (List ℕ)
        → Bool) (params ks ls : List Kind) (next : ℕ) (f : Frame) (outer : List Frame) (s : State) (g : NFrame)
        (others : List NFrame) (t : NState) → (call : IsObjectCall by l narrowed (holder_of f) op id named within
        params) → ((kind : Shape (List ℕ)) (is : within kind ≡ true) (made : IsMadeOf l kind)
        → let h = call.selects kind is made in receives h.callee kind ≡ true) → Stores l s.store t.memory
        → Frames (let m = t.memory in m.heap) (reverse (Refers within ∷ params) ++ ks) ls f g
        → CallAgrees by l narrowed (MaySelect l narrowed (let c = call.call in c.selected) named (length (Refers within
        ∷ params)) within call.selects) (λ m. Refers (receives m) ∷ params) ks next f outer s g others t
        (after_effect by (effects.Invoke op id) f outer s) (made (by_label l) (Invoke named) next g others t) }
{}

/// A call of an imported method is noted alike, with the same values, and answered alike: the script's acts
/// change both heaps in the same way, a value that fits goes behind the call, an object that an answer throws
/// is made and goes outwards, and an answer that does not fit, or none that is left, ends both runs. A call on
/// null raises. Numbers that are passed have 16 bits, results are one word, and what the script does by itself
/// is done alike.
pub fn imports_are_answered_alike()
    ensures static_call { (by : Linked) (l : Named) (op : ℕ) (id event : MemberId) (named : Callee) (types : Signature)
        (params ks ls : List Kind) (next : ℕ) (f : Frame) (outer : List Frame) (s : State) (g : NFrame)
        (others : List NFrame) (t : NState) → IsStaticImport by l (holder_of f) op id event named types params
        → StatesAgree l s t → Frames (nheap t) (reverse params ++ ks) ls f g → HasRoom (result_kinds l types.result
        ++ ks) (room f) (let m = g.code in m.max_stack) → ((vs ws : List Value)
        → AnswersAlike by l t (record f { stack = vs }) outer (record g { next = next; stack = ws }) others)
        → ImportAgrees by l (result_kinds l types.result) ks ls next f outer s g others t
        (after_effect by (effects.Invoke op id) f outer s) (made (by_label l) (Invoke named) next g others t) }
    ensures object_call { (by : Linked) (l : Named) (op : ℕ) (id : MemberId) (named : Callee) (within : Shape (List ℕ)
        → Bool) (types : Signature) (params ks ls : List Kind) (next : ℕ) (f : Frame) (outer : List Frame) (s : State)
        (g : NFrame) (others : List NFrame) (t : NState) → IsObjectImport by l (holder_of f) op id named within types
        params → StatesAgree l s t → Frames (nheap t) (reverse (Refers within ∷ params) ++ ks) ls f g
        → HasRoom (result_kinds l types.result ++ ks) (room f) (let m = g.code in m.max_stack) → ((vs ws : List Value)
        → AnswersAlike by l t (record f { stack = vs }) outer (record g { next = next; stack = ws }) others)
        → ImportAgrees by l (result_kinds l types.result) ks ls next f outer s g others t
        (after_effect by (effects.Invoke op id) f outer s) (made (by_label l) (Invoke named) next g others t) }
{}

/// What is written for a call names what the member stands for: a static method, a constructor or private
/// method, a method of a superclass, a virtual method, or a method of an interface with the words that it
/// takes.
pub fn calls_are_written()
    ensures { (by : Linked) (l : Named) (r : Resolution) (m : Method) (op : ℕ) (id : MemberId) (named : Callee)
        → Names r op id named → CallIsWritten by l r m op id named }
{}

/// Where an instruction is one that is written for an instruction of the class file, the narrow search for a
/// handler finds what is written for the target that the search by name finds, or both find none; and the frame
/// goes on there with the exception alone on its stack.
pub fn handlers_are_found_alike()
    ensures search { (by : Linked) (l : Named) (r : Resolution) (reached : List JInsn) (holder : List ℕ)
        (kind : Shape (List ℕ)) (here at : ℕ) (catches : List Catch) → IsWrittenAt r reached here at
        → ((class : List ℕ) → by.subtype (Some holder) (shape_name kind) class ≡ l.is_of kind (OfClass class))
        → narrow_handler l (catches_at (place_in r reached) catches) at kind ≡ option_map (place_in r reached)
        (handler by holder catches here (shape_name kind)) }
    ensures frame { (by : Linked) (l : Named) (r : Resolution) (reached : List JInsn) (within : Shape (List ℕ)
        → Bool) (ls : List Kind) (from at object : ℕ) (thing : HeapObject (List ℕ) MemberId) (f : Frame)
        (outer : List Frame) (s : State) (g : NFrame) (others : List NFrame) (t : NState)
        → HandlesAlike by l r reached (shape thing) f g → slice_get (let m = t.memory in m.heap) object ≡ Some thing
        → within (shape thing) ≡ true → Locals (let m = t.memory in m.heap) ls f.locals g.locals
        → CatchAgrees by l (place_in r reached) within ls from at object (shape thing) f outer s g others t
        (after_throw by from (f ∷ outer) object (shape_name (shape thing)) s) (caught (by_label l) at (g ∷ others)
        object (shape thing) t) }
{}

/// An exception goes outwards alike: from the innermost frame on, through frames that handle alike, to what is
/// written for the target of the same handler, or out of all frames, where it is noted. So does what athrow
/// throws, and an exception of the machine's own, whose object is made alike at the end of both heaps.
pub fn exceptions_go_out_alike()
    ensures unwinding { (by : Linked) (l : Named) (within : Shape (List ℕ)
        → Bool) (object : ℕ) (thing : HeapObject (List ℕ) MemberId) (from at : ℕ) (s : State) (t : NState)
        (outer : List Frame) (others : List NFrame) → slice_get (nheap t) object ≡ Some thing → within (shape thing)
        ≡ true → HandleAlike by l (nheap t) (shape thing) outer others → Unwinds by l within object (shape thing) s t
        outer others (after_throw by from outer object (shape_name (shape thing)) s) (caught (by_label l) at others
        object (shape thing) t) }
    ensures athrow { (by : Linked) (l : Named) (within : Shape (List ℕ) → Bool) (f : Frame) (outer : List Frame)
        (s : State) (g : NFrame) (others : List NFrame) (t : NState) → Stores l s.store t.memory
        → (object : ℕ) (thing : HeapObject (List ℕ) MemberId) (next : ℕ) → slice_get (nheap t) object ≡ Some thing
        → within (shape thing) ≡ true → HandleAlike by l (nheap t) (shape thing) (f ∷ outer) (g ∷ others)
        → Unwinds by l within object (shape thing) s t (f ∷ outer) (g ∷ others) (after_effect by (effects.Toss object) f
        outer s) (made (by_label l) (Toss object) next g others t) }
    ensures own { (by : Linked) (l : Named) (within : Shape (List ℕ) → Bool) (f : Frame) (outer : List Frame)
        (s : State) (g : NFrame) (others : List NFrame) (t : NState) → Stores l s.store t.memory
        → (fault : Fault) (next : ℕ) → IsRaised l fault → within (OfClass (exception_class fault)) ≡ true
        → HandleAlike by l (nheap t) (OfClass (exception_class fault)) (f ∷ outer) (g ∷ others)
        → Raises by l within (exception_class fault) s t (f ∷ outer) (g ∷ others) (after_effect by (effects.Raise fault)
        f outer s) (made (by_label l) (Raise (narrow_fault fault)) next g others t) }
{}

/// A jump leads to one place on both sides: what stands for its target, or what stands behind it. A number that
/// a condition reads has 16 bits.
pub fn jumps_agree()
    ensures goto { (by : Linked) (l : Named) (r : Resolution) (m : Method) (target : ℕ)
        → JumpAgrees by l r m (jop.Goto target) [] (target ∷ []) }
    ensures ifeq { (by : Linked) (l : Named) (r : Resolution) (m : Method) (target : ℕ) (s : Span)
        → Within s short_range → JumpAgrees by l r m (jop.If jvm.ifeq target) (Range s ∷ []) (target ∷ []) }
    ensures ifne { (by : Linked) (l : Named) (r : Resolution) (m : Method) (target : ℕ) (s : Span)
        → Within s short_range → JumpAgrees by l r m (jop.If jvm.ifne target) (Range s ∷ []) (target ∷ []) }
    ensures iflt { (by : Linked) (l : Named) (r : Resolution) (m : Method) (target : ℕ) (s : Span)
        → Within s short_range → JumpAgrees by l r m (jop.If jvm.iflt target) (Range s ∷ []) (target ∷ []) }
    ensures ifge { (by : Linked) (l : Named) (r : Resolution) (m : Method) (target : ℕ) (s : Span)
        → Within s short_range → JumpAgrees by l r m (jop.If jvm.ifge target) (Range s ∷ []) (target ∷ []) }
    ensures ifgt { (by : Linked) (l : Named) (r : Resolution) (m : Method) (target : ℕ) (s : Span)
        → Within s short_range → JumpAgrees by l r m (jop.If jvm.ifgt target) (Range s ∷ []) (target ∷ []) }
    ensures ifle { (by : Linked) (l : Named) (r : Resolution) (m : Method) (target : ℕ) (s : Span)
        → Within s short_range → JumpAgrees by l r m (jop.If jvm.ifle target) (Range s ∷ []) (target ∷ []) }
    ensures if_icmpeq { (by : Linked) (l : Named) (r : Resolution) (m : Method) (target : ℕ) (s t : Span)
        → Within s short_range → Within t short_range → JumpAgrees by l r m (jop.If jvm.if_icmpeq target) (Range t
        ∷ Range s ∷ []) (target ∷ []) }
    ensures if_icmpne { (by : Linked) (l : Named) (r : Resolution) (m : Method) (target : ℕ) (s t : Span)
        → Within s short_range → Within t short_range → JumpAgrees by l r m (jop.If jvm.if_icmpne target) (Range t
        ∷ Range s ∷ []) (target ∷ []) }
    ensures if_icmplt { (by : Linked) (l : Named) (r : Resolution) (m : Method) (target : ℕ) (s t : Span)
        → Within s short_range → Within t short_range → JumpAgrees by l r m (jop.If jvm.if_icmplt target) (Range t
        ∷ Range s ∷ []) (target ∷ []) }
    ensures if_icmpge { (by : Linked) (l : Named) (r : Resolution) (m : Method) (target : ℕ) (s t : Span)
        → Within s short_range → Within t short_range → JumpAgrees by l r m (jop.If jvm.if_icmpge target) (Range t
        ∷ Range s ∷ []) (target ∷ []) }
    ensures if_icmpgt { (by : Linked) (l : Named) (r : Resolution) (m : Method) (target : ℕ) (s t : Span)
        → Within s short_range → Within t short_range → JumpAgrees by l r m (jop.If jvm.if_icmpgt target) (Range t
        ∷ Range s ∷ []) (target ∷ []) }
    ensures if_icmple { (by : Linked) (l : Named) (r : Resolution) (m : Method) (target : ℕ) (s t : Span)
        → Within s short_range → Within t short_range → JumpAgrees by l r m (jop.If jvm.if_icmple target) (Range t
        ∷ Range s ∷ []) (target ∷ []) }
    ensures if_acmpeq { (by : Linked) (l : Named) (r : Resolution) (m : Method) (target : ℕ) (within below :
        Shape (List ℕ) → Bool) → JumpAgrees by l r m (jop.If jvm.if_acmpeq target) (Refers within ∷ Refers below
        ∷ []) (target ∷ []) }
    ensures if_acmpne { (by : Linked) (l : Named) (r : Resolution) (m : Method) (target : ℕ) (within below :
        Shape (List ℕ) → Bool) → JumpAgrees by l r m (jop.If jvm.if_acmpne target) (Refers within ∷ Refers below
        ∷ []) (target ∷ []) }
    ensures ifnull { (by : Linked) (l : Named) (r : Resolution) (m : Method) (target : ℕ) (within : Shape (List ℕ)
        → Bool) → JumpAgrees by l r m (jop.If jvm.ifnull target) (Refers within ∷ []) (target ∷ []) }
    ensures ifnonnull { (by : Linked) (l : Named) (r : Resolution) (m : Method) (target : ℕ) (within : Shape (List ℕ)
        → Bool) → JumpAgrees by l r m (jop.If jvm.ifnonnull target) (Refers within ∷ []) (target ∷ []) }
{}

/// A switch by a number of 16 bits leads to one place on both sides. A case outside of 16 bits is left out of
/// what is written: it is none of such a number. Where no case is left, what is written takes the number off
/// the stack and jumps to what stands for the default.
pub fn switches_agree()
    ensures tableswitch { (by : Linked) (l : Named) (r : Resolution) (m : Method) (s : Span) → Within s short_range
        → (other : ℕ) (low : ℤ) (targets : List ℕ) → JumpAgrees by l r m (jop.TableSwitch other low targets) (Range s
        ∷ []) (other ∷ targets) }
    ensures lookupswitch { (by : Linked) (l : Named) (r : Resolution) (m : Method) (s : Span) → Within s short_range
        → (other : ℕ) (cases : List JCase) → JumpAgrees by l r m (jop.LookupSwitch other cases) (Range s ∷ []) (other
        ∷ targets_of cases) }
    ensures empty_table { (by : Linked) (l : Named) (r : Resolution) (m : Method) (s : Span) → Within s short_range
        → (other : ℕ) (low : ℤ) (targets : List ℕ) → TwoAgree by l r m (jop.TableSwitch other low targets) (Range s
        ∷ []) (other ∷ targets) }
    ensures empty_pairs { (by : Linked) (l : Named) (r : Resolution) (m : Method) (s : Span) → Within s short_range
        → (other : ℕ) (cases : List JCase) → TwoAgree by l r m (jop.LookupSwitch other cases) (Range s ∷ []) (other
        ∷ targets_of cases) }
{}

/// A return gives the same reference on both sides, and the low word of the same number.
pub fn returns_agree()
    ensures ireturn { (by : Linked) (l : Named) (r : Resolution) (m : Method) (s : Span)
        → ReturnAgrees by l r m (jop.Return jvm.ireturn) (Range s ∷ []) }
    ensures areturn { (by : Linked) (l : Named) (r : Resolution) (m : Method) (within : Shape (List ℕ) → Bool)
        → ReturnAgrees by l r m (jop.Return jvm.areturn) (Refers within ∷ []) }
    ensures returns { (by : Linked) (l : Named) (r : Resolution) (m : Method)
        → ReturnAgrees by l r m (jop.Return jvm.return) [] }
{}

/// A result goes to the frames that wait behind the same call, or, where none waits, is noted: a number of 16
/// bits and a reference as they are.
pub fn results_go_out_alike()
    ensures to_caller { (by : Linked) (l : Named) (ks : List Kind) (f : Frame) (outer : List Frame) (s : State)
        (g : NFrame) (others : List NFrame) (t : NState) → Stacks (nheap t) ks f.stack g.stack
        → (kinds : List Kind) (value : Option Value) (words : List Value) → Results (nheap t) kinds value words
        → HasRoom (kinds ++ ks) (room f) (let m = g.code in m.max_stack) → (from : Frame) (at : NFrame) (next : ℕ)
        → Resumes l (kinds ++ ks) s t f outer g others (after_effect by (effects.Leave value) from (f ∷ outer) s)
        (made (by_label l) (Leave words) next at (g ∷ others) t) }
    ensures of_entry { (by : Linked) (l : Named) (s : State) (t : NState) (kinds : List Kind) (value : Option Value)
        (words : List Value) → AreShort kinds → Results (nheap t) kinds value words
        → (from : Frame) (at : NFrame) (next : ℕ) → NotesResult value s t (after_effect by (effects.Leave value) from []
        s) (made (by_label l) (Leave words) next at [] t) }
{}

/// A new array or object is made alike at the end of both heaps, of a class of which both sides say the same fields; a
/// negative number of elements raises. The number of elements has 16 bits.
pub fn objects_are_made_alike()
    ensures new { (by : Linked) (l : Named) (r : Resolution) (m : Method) (class : List ℕ) (within : Shape (List ℕ)
        → Bool) → IsMade by l m class → within (OfClass class) ≡ true
        → RowAgrees by l r m (jop.New class) [] (Refers within ∷ []) }
    ensures booleans { (by : Linked) (l : Named) (r : Resolution) (m : Method) (s : Span) → Within s short_range
        → (within : Shape (List ℕ) → Bool) → within (OfNumbers Booleans) ≡ true
        → RowAgrees by l r m (jop.NewArray 4) (Range s ∷ []) (Refers within ∷ []) }
    ensures bytes { (by : Linked) (l : Named) (r : Resolution) (m : Method) (s : Span) → Within s short_range
        → (within : Shape (List ℕ) → Bool) → within (OfNumbers Bytes) ≡ true
        → RowAgrees by l r m (jop.NewArray 8) (Range s ∷ []) (Refers within ∷ []) }
    ensures shorts { (by : Linked) (l : Named) (r : Resolution) (m : Method) (s : Span) → Within s short_range
        → (within : Shape (List ℕ) → Bool) → within (OfNumbers Shorts) ≡ true
        → RowAgrees by l r m (jop.NewArray 9) (Range s ∷ []) (Refers within ∷ []) }
    ensures anewarray { (by : Linked) (l : Named) (r : Resolution) (m : Method) (s : Span) → Within s short_range
        → (within : Shape (List ℕ) → Bool) (class : List ℕ) → IsClassThere by l m class → within (OfReferences class)
        ≡ true → RowAgrees by l r m (jop.ANewArray class) (Range s ∷ []) (Refers within ∷ []) }
{}

/// The type of an array or object is asked alike. What passes a cast is what was there, of that type too; null
/// passes, and is of no type.
pub fn types_are_asked_alike()
    ensures checkcast { (by : Linked) (l : Named) (r : Resolution) (m : Method) (type : List ℕ) (there : IsTypeThere by
        l m type) (within after : Shape (List ℕ) → Bool) → ((kind : Shape (List ℕ)) → within kind ≡ true
        → l.is_of kind there.kind ≡ true → after kind ≡ true) → RowAgrees by l r m (jop.CheckCast type) (Refers within
        ∷ []) (Refers after ∷ []) }
    ensures instanceof { (by : Linked) (l : Named) (r : Resolution) (m : Method) (type : List ℕ)
        → IsTypeThere by l m type → (within : Shape (List ℕ) → Bool)
        → RowAgrees by l r m (jop.InstanceOf type) (Refers within ∷ []) (Range boolean_range ∷ []) }
{}

/// No narrow instruction changes the type of an array or object that is there.
pub fn types_stay()
    ensures { (l : Named) (room next : ℕ) (words : List (Option Value)) (memory : NMemory) (op : Resolved)
        (stack : List Value) → TypesStay memory.heap (narrow.effect (classes l) op room next words memory stack) }
{}

/// A row of an instruction that is no athrow makes one turn of both machines: in frames at that instruction and
/// at the one that is written for it both go on with what the row says, or raise the same exception, and spend
/// one instruction.
pub fn rows_make_turns()
    ensures { (by : Linked) (l : Named) (ks ls : List Kind) (f : Frame) (outer : List Frame) (s : State) (g : NFrame)
        (others : List NFrame) (t : NState) → Stores l s.store t.memory → ((fault : Fault) → IsRaised l fault)
        → ((fault : Fault) → HandleAlike by l (nheap t) (OfClass (exception_class fault)) (f ∷ outer) (g ∷ others))
        → (i : JInsn) (insn : NInsn) → slice_get (let m = f.method in m.insns) f.at ≡ Some i
        → slice_get (let m = g.code in m.insns) g.at ≡ Some insn
        → ((object : ℕ) → effects.effect by f.method f.at f.locals s.store i.op f.stack ≡ effects.Toss object → ⊥)
        → Same l ks ls (f.at + 1) (g.at + 1) (effects.effect by f.method f.at f.locals s.store i.op f.stack)
        (narrow.effect (classes l) (operation insn) (let m = g.code in m.max_stack) (g.at + 1) g.locals t.memory
        g.stack) → TurnAgrees by l ks ls (f.at + 1) (g.at + 1) f outer s g others t (step by (f ∷ outer) s)
        (narrow_step (by_label l) (g ∷ others) t) }
{}

/// A jump makes one turn of both machines, and an instruction for which nothing is written one turn of the
/// machine by name alone. A switch for which two instructions are written makes one turn of the machine by name
/// and two of narrow code. A turn of any other instruction is what it asks.
pub fn jumps_make_turns()
    ensures jumps { (by : Linked) (l : Named) (ks ls : List Kind) (offsets : List ℕ) (narrow_place : ℕ
        → ℕ) (f : Frame) (outer : List Frame) (s : State) (g : NFrame) (others : List NFrame) (t : NState) (i : JInsn)
        (insn : NInsn) → slice_get (let m = f.method in m.insns) f.at ≡ Some i
        → slice_get (let m = g.code in m.insns) g.at ≡ Some insn
        → Jumps l ks ls offsets (effects.place (let m = f.method in m.insns)) narrow_place (f.at + 1) (g.at + 1)
        (effects.effect by f.method f.at f.locals s.store i.op f.stack) (narrow.effect (classes l) (operation insn)
        (let m = g.code in m.max_stack) (g.at + 1) g.locals t.memory g.stack)
        → JumpTurn l ks ls offsets narrow_place f outer s g others t (step by (f ∷ outer) s) (narrow_step (by_label l)
        (g ∷ others) t) }
    ensures silent { (by : Linked) (ks : List Kind) (f : Frame) (outer : List Frame) (s : State) (g : NFrame)
        (t : NState) (i : JInsn) → slice_get (let m = f.method in m.insns) f.at ≡ Some i
        → GoesOn by f.method i.op f.at f.locals s.store t.memory ks f.stack g.stack → SilentTurn by ks f outer s g t }
    ensures two { (by : Linked) (l : Named) (ks ls : List Kind) (offsets : List ℕ) (narrow_place : ℕ
        → ℕ) (f : Frame) (outer : List Frame) (s : State) (g : NFrame) (others : List NFrame) (t : NState) (i : JInsn)
        (first second : NInsn) → slice_get (let m = f.method in m.insns) f.at ≡ Some i
        → slice_get (let m = g.code in m.insns) g.at ≡ Some first → slice_get (let m = g.code in m.insns) (g.at + 1)
        ≡ Some second → JumpsInTwo l ks ls offsets (effects.place (let m = f.method in m.insns)) narrow_place (f.at + 1)
        (g.at + 1) (g.at + 1 + 1) (let m = g.code in m.max_stack) first second g.locals t.memory g.stack
        (effects.effect by f.method f.at f.locals s.store i.op f.stack)
        → TwoTurns by l ks ls offsets narrow_place f outer s g others t }
    ensures other { (by : Linked) (l : Named) (f : Frame) (outer : List Frame) (s : State) (g : NFrame)
        (others : List NFrame) (t : NState) (i : JInsn) (insn : NInsn) → slice_get (let m = f.method in m.insns) f.at
        ≡ Some i → slice_get (let m = g.code in m.insns) g.at ≡ Some insn
        → (effect : effects.Effect) (effect' : NEffect) → effects.effect by f.method f.at f.locals s.store i.op f.stack
        ≡ effect → narrow.effect (classes l) (operation insn) (let m = g.code in m.max_stack) (g.at + 1) g.locals
        t.memory g.stack ≡ effect' → TurnsAre by l f outer s g others t effect effect' }
{}

/// An athrow makes one turn of both machines: the object goes outwards alike, and null raises.
pub fn throws_make_turns()
    ensures { (by : Linked) (l : Named) (within : Shape (List ℕ) → Bool) (ks : List Kind) (f : Frame)
        (outer : List Frame) (s : State) (g : NFrame) (others : List NFrame) (t : NState) → Stores l s.store t.memory
        → IsRaised l NullPointer → HandleAlike by l (nheap t) (OfClass (exception_class NullPointer)) (f ∷ outer) (g
        ∷ others) → ((thing : HeapObject (List ℕ) MemberId) → within (shape thing) ≡ true
        → HandleAlike by l (nheap t) (shape thing) (f ∷ outer) (g ∷ others)) → (i : JInsn) → i.op ≡ jop.Throw
        → slice_get (let m = f.method in m.insns) f.at ≡ Some i → slice_get (let m = g.code in m.insns) g.at
        ≡ Some (insns.Op 0x93) → Stacks (nheap t) (Refers within ∷ ks) f.stack g.stack
        → ThrowTurn by l within f outer s g others t (step by (f ∷ outer) s) (narrow_step (by_label l) (g ∷ others) t) }
{}

/// Stacks and locals that agree by some kinds agree by wider ones, as a join of states gives them.
pub fn wider_kinds_hold()
    ensures stacks { (heap : Heap) (ks js : List Kind) (vs ws : List Value) → AllWider ks js → Stacks heap ks vs ws
        → Stacks heap js vs ws }
    ensures locals { (heap : Heap) (ks js : List Kind) (vs ws : List (Option Value)) → AllWider ks js
        → Locals heap ks vs ws → Locals heap js vs ws }
{}

/// Whole runs agree, of every script, by a table of what is known at each place whose rules are kept: of the
/// notes of any two runs one begins with the other; where the run by name of n instructions is not Running, the
/// narrow run of at least 2n ends alike; where the narrow run of n is not Running, the run by name of at least
/// 65,536 (n + 1) ends alike; and neither is ever stuck.
pub fn whole_runs_agree()
    ensures { (by : Linked) (l : Named) (table : Table) → IsFine by l table → (script : Script)
        → Agree 2 (λ n. run by script n) (λ n. narrow_run l script n) }
{}

/// A call keeps its rule, where each method of the package that it may reach begins with what is known of the
/// arguments and gives what its caller goes on with, and where the caller goes on with the result of each
/// imported one. A receiver may select either.
pub fn calls_keep_rules()
    ensures static_call { (by : Linked) (l : Named) (table : Table) → MayRaise l table
        → (m : Method) (at : ℕ) (p : Point) (i : JInsn) (op : ℕ) (id : MemberId) (named : Callee) (params : List Kind)
        → (facts : IsCallAt by l table m at p i op id named params)
        → (call : IsStaticCall by l table.narrowed (class_of_code m) op id named params)
        → MayBeCalled table m at params facts.ks p.locals call.callee → Rule by l table m at p i }
    ensures static_import { (by : Linked) (l : Named) (table : Table) → MayRaise l table → IsAnswered by l table
        → (m : Method) (at : ℕ) (p : Point) (i : JInsn) (op : ℕ) (id event : MemberId) (named : Callee)
        (types : Signature) (params : List Kind) → (facts : IsCallAt by l table m at p i op id named params)
        → IsStaticImport by l (class_of_code m) op id event named types params
        → MayBeAnswered table m at (result_kinds l types.result) facts.ks p.locals → Rule by l table m at p i }
    ensures object_call { (by : Linked) (l : Named) (table : Table) → MayRaise l table → IsAnswered by l table
        → (m : Method) (at : ℕ) (p : Point) (i : JInsn) (op : ℕ) (id : MemberId) (named : Callee)
        (within : Shape (List ℕ) → Bool) (types : Signature) (params : List Kind)
        → (facts : IsCallAt by l table m at p i op id named (Refers within ∷ params))
        → (call : IsReceiverCall by l (class_of_code m) op id named within types params) → ((kind : Shape (List ℕ))
        → within kind ≡ true → IsMadeOf l kind → MaySelectOn by l table m at id named within types params facts.ks
        p.locals call.selected kind) → Rule by l table m at p i }
{}

/// An entry of a script begins as whole runs ask, where one act changes both heaps alike and each method that
/// the entry may stand for begins with what is known of the arguments and has a result of 16 bits; so it does
/// where there is no such method.
pub fn entries_keep_rules()
    ensures none { (by : Linked) (l : Named) (table : Table) (e : Entry) (entries : List Entry) → ActsAlike by l
        → IsNoEntry by l e.method → (s : State) (t : NState) → StatesAgree l s t
        → Begins by l table t.notes (begins by [] (e ∷ entries) s) (narrow_begins (by_label l) [] (e ∷ entries) t) }
    ensures some { (by : Linked) (l : Named) (table : Table) (types : Signature) (within : Method → Shape (List ℕ)
        → Bool) (e : Entry) (entries : List Entry) → ActsAlike by l → IsEntry by l table.narrowed e.method types within
        → ((m : Method) → MayEnter by l e.method e.virtual_call m
        → MayBegin table (entry_kinds e.virtual_call l within types m) m) → (s : State) (t : NState) → StatesAgree l s t
        → Begins by l table t.notes (begins by [] (e ∷ entries) s) (narrow_begins (by_label l) [] (e ∷ entries) t) }
{}

/// A row, a jump, what is not written, a switch that is written as two instructions, and a return keep their
/// rules, where they are written at their places and where both machines go on no more is known than they
/// leave.
pub fn rows_keep_rules()
    ensures row { (by : Linked) (l : Named) (table : Table) (m : Method) (at : ℕ) (p : Point) (i : JInsn)
        (before after ks : List Kind) (insn : NInsn) → written (table.resolution m) (written_place table m) i.op ≡ insn
        ∷ [] → slice_get (let code = code_of table m in code.insns) (spot table m at) ≡ Some insn
        → RowAgrees by l (table.resolution m) m i.op before after → p.stack ≡ before ++ ks
        → HasRoom (after ++ ks) m.max_stack (let code = code_of table m in code.max_stack)
        → ((locals : List (Option Value)) (store : Store) (vs : List Value) (object : ℕ)
        → effects.effect by m at locals store i.op vs ≡ effects.Toss object → ⊥)
        → Arrives table m (at + 1) (spot table m at + 1) (after ++ ks) p.locals → Catches by l table m at p.locals
        → Rule by l table m at p i }
    ensures on_locals { (by : Linked) (l : Named) (table : Table) (m : Method) (at : ℕ) (p : Point) (i : JInsn)
        (before after js ks : List Kind) (insn : NInsn) → written (table.resolution m) (written_place table m) i.op
        ≡ insn ∷ [] → slice_get (let code = code_of table m in code.insns) (spot table m at) ≡ Some insn
        → RowOnLocals by l (table.resolution m) m i.op before after p.locals js → p.stack ≡ before ++ ks
        → HasRoom (after ++ ks) m.max_stack (let code = code_of table m in code.max_stack)
        → ((locals : List (Option Value)) (store : Store) (vs : List Value) (object : ℕ)
        → effects.effect by m at locals store i.op vs ≡ effects.Toss object → ⊥)
        → Arrives table m (at + 1) (spot table m at + 1) (after ++ ks) js → Catches by l table m at p.locals
        → Rule by l table m at p i }
    ensures jump { (by : Linked) (l : Named) (table : Table) (m : Method) (at : ℕ) (p : Point) (i : JInsn)
        (before ks : List Kind) (offsets : List ℕ) (insn : NInsn) → written (table.resolution m) (written_place table m)
        i.op ≡ insn ∷ [] → slice_get (let code = code_of table m in code.insns) (spot table m at) ≡ Some insn
        → JumpAgrees by l (table.resolution m) m i.op before offsets → p.stack ≡ before ++ ks
        → ((offset : ℕ) → Contains offsets offset
        → Arrives table m (place m.insns offset) (written_place table m offset) ks p.locals)
        → Falls by l table m at p i (spot table m at + 1) ks p.locals → Rule by l table m at p i }
    ensures not_written { (by : Linked) (l : Named) (table : Table) (m : Method) (at : ℕ) (p : Point) (i : JInsn)
        (before after ks : List Kind) → IsNotWritten by (table.resolution m) m i.op before after → p.stack ≡ before
        ++ ks → Arrives table m (at + 1) (spot table m at) (after ++ ks) p.locals → at < 65534
        → Rule by l table m at p i }
    ensures two { (by : Linked) (l : Named) (table : Table) (m : Method) (at : ℕ) (p : Point) (i : JInsn)
        (before ks : List Kind) (offsets : List ℕ) (insn second : NInsn)
        → written (table.resolution m) (written_place table m) i.op ≡ insn ∷ second ∷ []
        → slice_get (let code = code_of table m in code.insns) (spot table m at) ≡ Some insn
        → slice_get (let code = code_of table m in code.insns) (spot table m at + 1) ≡ Some second
        → TwoAgree by l (table.resolution m) m i.op before offsets → p.stack ≡ before ++ ks
        → ((offset : ℕ) → Contains offsets offset
        → Arrives table m (place m.insns offset) (written_place table m offset) ks p.locals)
        → Falls by l table m at p i (spot table m at + 1 + 1) ks p.locals → Rule by l table m at p i }
    ensures returns { (by : Linked) (l : Named) (table : Table) (m : Method) (at : ℕ) (p : Point) (i : JInsn)
        (before ks : List Kind) (insn : NInsn) → written (table.resolution m) (written_place table m) i.op ≡ insn ∷ []
        → slice_get (let code = code_of table m in code.insns) (spot table m at) ≡ Some insn
        → ReturnAgrees by l (table.resolution m) m i.op before → p.stack ≡ before ++ ks
        → AllWider before (table.results m) → Rule by l table m at p i }
{}

/// Handlers are found alike at a place of a table, where they are those of the class file over what is written,
/// classes are told alike, and something is written at the place.
pub fn handlers_keep_rules()
    ensures { (by : Linked) (l : Named) (table : Table) (m : Method) (at : ℕ) (ls : List Kind) (kind : Shape (List ℕ))
        → (let code = code_of table m in code.catches) ≡ catches_at (written_place table m) m.catches
        → IsWrittenAt (table.resolution m) (table.reached m) (offset_at m at) (spot table m at)
        → ((class : List ℕ) → by.subtype (Some (class_of_code m)) (shape_name kind) class
        ≡ l.is_of kind (OfClass class)) → ((target : ℕ) → handler_at by m at kind ≡ Some target
        → Handles table m target ls kind) → CatchesAlike by l table m at ls kind }
{}

/// An act of a script does the same to heaps that agree, or fits neither: a new array, an object of an imported
/// class, an item of an array. So it is where both sides tell alike which classes are there, which are imported
/// and what is of a class.
pub fn acts_are_done_alike()
    ensures { (by : Linked) (l : Named) → ActsAreTold by l → ActsAlike by l }
{}
