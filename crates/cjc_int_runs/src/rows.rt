//! What is written in int mode for an instruction does the same, in any code in which it stands.

ghost use Rattle.std.specs.Prelude.{◌-◌, ◌*◌, ◌++◌, replicate};
ghost use Rattle.std.specs.Prelude.{◌≡◌, ℕ, ◌+◌, ◌≤◌, ◌<◌, Option, ℤ, pos, List, [], ◌∷◌, length, map, Bool, Some};
ghost use Rattle.std.specs.Prelude.{None};
ghost use Rattle.std.specs.Prelude.{true, false, slice_get, slice_set};
ghost use Rattle.cjc_script.specs.Bytes.declared.fault.MemberId.{MemberId};
ghost use Rattle.cjc_range.specs.Span.{Span, span, Holds, IsWord, Within, full, short_range};
ghost use Rattle.cjc_range.specs.Rows.{add_row, sub_row, mul_row, neg_row, div_row, rem_row, shl_row, shr_row};
ghost use Rattle.cjc_range.specs.Rows.{ushr_row, and_row, or_row, to_byte_row, to_short_row};
ghost use Rattle.cjc_int_proof.specs.Bytecode.Jvm as jvm;
ghost use Rattle.cjc_int_proof.specs.Bytecode.declared.insn.JCase.{JCase};
ghost use Rattle.cjc_int_proof.specs.Bytecode.declared.insn.JOp.TheVariants as jop;
ghost use Rattle.cjc_script.specs.Sorts.{Shape, Sort, Int, Reference, OfClass, OfNumbers, OfReferences, field_sort};
ghost use Rattle.cjc_script.specs.Sorts.{Booleans, Bytes, Shorts, Ints};
ghost use Rattle.cjc_script.specs.declared.value.Value.{Value};
ghost use Rattle.cjc_script.specs.declared.value.Value.TheVariants.{Num};
ghost use Rattle.cjc_card_semantics.specs.Bytecode.Machine.{locals_of};
ghost use Rattle.cjc_card_semantics.specs.Bytecode.Numbers.{spelt_by};
ghost use Rattle.cjc_ncode.specs.declared.narrow.NMethod.{NMethod};
ghost use Rattle.cjc_ncode.specs.ByLabel.{Named};
ghost use Rattle.cjc_ncode.specs.Written.{Resolution};
ghost use Rattle.cjc_ncode.specs.IntCode.IntCode.{Before, Frame, guard, is_short, nargs, prologue};
ghost use Rattle.cjc_jvm_semantics.specs.Linked.{Method, Linked};
ghost use Rattle.cjc_narrow_proof.specs.Selection.Relation.{Kind, Free, NMemory, Range, Refers, boolean_range};
ghost use Rattle.cjc_narrow_proof.specs.Selection.Elements.{index_range, IsBytes, IsShorts, AreAll, AreArrays};
ghost use Rattle.cjc_narrow_proof.specs.Selection.Elements.{ElementsLie, IsReferences, ItemsPass, KeepsAlike};
ghost use Rattle.cjc_narrow_proof.specs.Selection.Rows.{kind_of};
ghost use Rattle.cjc_int_runs.specs.Relation.{AllHanded, IntLocals, type_range};
ghost use Rattle.cjc_int_runs.specs.Prologue.{filled, Brings};
ghost use Rattle.cjc_int_runs.specs.Fields.{IntFieldIsThere, IntCellIsThere, MayBePutInt};
ghost use Rattle.cjc_narrow_proof.specs.Selection.Cells.{IsConstant};
ghost use Rattle.cjc_narrow_proof.specs.Selection.Objects.{IsMade, IsClassThere, IsTypeThere};
ghost use Rattle.cjc_narrow_proof.specs.Selection.Switches.{targets_of};
ghost use Rattle.cjc_int_runs.specs.Elements.{IsInts};
ghost use Rattle.cjc_int_runs.specs.Guards.{Guarded};
ghost use Rattle.cjc_int_runs.specs.Steps.{StandAt, IntRow, IntJump, IntReturn, known};

/// Arithmetic on numbers of 32 bits gives what it gives by name, and each result lies in the interval that its row
/// gives. A zero divisor raises.
pub fn arithmetic_agrees()
    ensures iadd { (by : Linked) (l : Named) (f : Frame) (pairs : ℕ) (r : Resolution) (m : Method) (b : Before)
        (ls : List Kind) (s t : Span)
        → IntRow by l f pairs r m b (jop.Arith jvm.iadd) (Range t ∷ Range s ∷ []) (Range (add_row s t) ∷ []) ls ls }
    ensures isub { (by : Linked) (l : Named) (f : Frame) (pairs : ℕ) (r : Resolution) (m : Method) (b : Before)
        (ls : List Kind) (s t : Span)
        → IntRow by l f pairs r m b (jop.Arith jvm.isub) (Range t ∷ Range s ∷ []) (Range (sub_row s t) ∷ []) ls ls }
    ensures imul { (by : Linked) (l : Named) (f : Frame) (pairs : ℕ) (r : Resolution) (m : Method) (b : Before)
        (ls : List Kind) (s t : Span)
        → IntRow by l f pairs r m b (jop.Arith jvm.imul) (Range t ∷ Range s ∷ []) (Range (mul_row s t) ∷ []) ls ls }
    ensures idiv { (by : Linked) (l : Named) (f : Frame) (pairs : ℕ) (r : Resolution) (m : Method) (b : Before)
        (ls : List Kind) (s t : Span)
        → IntRow by l f pairs r m b (jop.Arith jvm.idiv) (Range t ∷ Range s ∷ []) (Range (div_row s t) ∷ []) ls ls }
    ensures irem { (by : Linked) (l : Named) (f : Frame) (pairs : ℕ) (r : Resolution) (m : Method) (b : Before)
        (ls : List Kind) (s t : Span) → IsWord s → IsWord t
        → IntRow by l f pairs r m b (jop.Arith jvm.irem) (Range t ∷ Range s ∷ []) (Range (rem_row s t) ∷ []) ls ls }
    ensures ishl { (by : Linked) (l : Named) (f : Frame) (pairs : ℕ) (r : Resolution) (m : Method) (b : Before)
        (ls : List Kind) (s t : Span)
        → IntRow by l f pairs r m b (jop.Arith jvm.ishl) (Range t ∷ Range s ∷ []) (Range (shl_row s t) ∷ []) ls ls }
    ensures ishr { (by : Linked) (l : Named) (f : Frame) (pairs : ℕ) (r : Resolution) (m : Method) (b : Before)
        (ls : List Kind) (s t : Span) → IsWord s → IsWord t
        → IntRow by l f pairs r m b (jop.Arith jvm.ishr) (Range t ∷ Range s ∷ []) (Range (shr_row s t) ∷ []) ls ls }
    ensures iushr { (by : Linked) (l : Named) (f : Frame) (pairs : ℕ) (r : Resolution) (m : Method) (b : Before)
        (ls : List Kind) (s t : Span) → IsWord s → IsWord t
        → IntRow by l f pairs r m b (jop.Arith jvm.iushr) (Range t ∷ Range s ∷ []) (Range (ushr_row s t) ∷ []) ls ls }
    ensures iand { (by : Linked) (l : Named) (f : Frame) (pairs : ℕ) (r : Resolution) (m : Method) (b : Before)
        (ls : List Kind) (s t : Span) → IsWord s → IsWord t
        → IntRow by l f pairs r m b (jop.Arith jvm.iand) (Range t ∷ Range s ∷ []) (Range (and_row s t) ∷ []) ls ls }
    ensures ior { (by : Linked) (l : Named) (f : Frame) (pairs : ℕ) (r : Resolution) (m : Method) (b : Before)
        (ls : List Kind) (s t : Span) → IsWord s → IsWord t
        → IntRow by l f pairs r m b (jop.Arith jvm.ior) (Range t ∷ Range s ∷ []) (Range (or_row s t) ∷ []) ls ls }
    ensures ixor { (by : Linked) (l : Named) (f : Frame) (pairs : ℕ) (r : Resolution) (m : Method) (b : Before)
        (ls : List Kind) (s t : Span) → IsWord s → IsWord t
        → IntRow by l f pairs r m b (jop.Arith jvm.ixor) (Range t ∷ Range s ∷ []) (Range (or_row s t) ∷ []) ls ls }
    ensures ineg { (by : Linked) (l : Named) (f : Frame) (pairs : ℕ) (r : Resolution) (m : Method) (b : Before)
        (ls : List Kind) (s : Span)
        → IntRow by l f pairs r m b (jop.Arith jvm.ineg) (Range s ∷ []) (Range (neg_row s) ∷ []) ls ls }
    ensures i2b { (by : Linked) (l : Named) (f : Frame) (pairs : ℕ) (r : Resolution) (m : Method) (b : Before)
        (ls : List Kind) (s : Span)
        → IntRow by l f pairs r m b (jop.Narrow jvm.i2b) (Range s ∷ []) (Range (to_byte_row s) ∷ []) ls ls }
    ensures i2s { (by : Linked) (l : Named) (f : Frame) (pairs : ℕ) (r : Resolution) (m : Method) (b : Before)
        (ls : List Kind) (s : Span)
        → IntRow by l f pairs r m b (jop.Narrow jvm.i2s) (Range s ∷ []) (Range (to_short_row s) ∷ []) ls ls }
{}

/// Null is pushed as one word, and a number of 32 bits as two; nop does nothing.
pub fn constants_agree()
    ensures nop { (by : Linked) (l : Named) (f : Frame) (pairs : ℕ) (r : Resolution) (m : Method) (b : Before)
        (ls : List Kind) → IntRow by l f pairs r m b jop.Nop [] [] ls ls }
    ensures aconst_null { (by : Linked) (l : Named) (f : Frame) (pairs : ℕ) (r : Resolution) (m : Method) (b : Before)
        (ls : List Kind) (within : Shape (List ℕ) → Bool)
        → IntRow by l f pairs r m b jop.Null [] (Refers within ∷ []) ls ls }
    ensures number { (by : Linked) (l : Named) (f : Frame) (pairs : ℕ) (r : Resolution) (m : Method) (b : Before)
        (ls : List Kind) (z : ℤ) (s : Span) → Holds full z → Holds s z
        → IntRow by l f pairs r m b (jop.Number z) [] (Range s ∷ []) ls ls }
{}

/// Locals are read, written and increased alike: a number by its two words, a reference by the first of them.
pub fn locals_agree()
    ensures iload { (by : Linked) (l : Named) (f : Frame) (pairs : ℕ) (r : Resolution) (m : Method) (b : Before)
        (ls : List Kind) (n : ℕ) (s : Span) → slice_get ls n ≡ Some (Range s)
        → IntRow by l f pairs r m b (jop.Load false n) [] (Range s ∷ []) ls ls }
    ensures aload { (by : Linked) (l : Named) (f : Frame) (pairs : ℕ) (r : Resolution) (m : Method) (b : Before)
        (ls : List Kind) (n : ℕ) (within : Shape (List ℕ) → Bool) → slice_get ls n ≡ Some (Refers within)
        → IntRow by l f pairs r m b (jop.Load true n) [] (Refers within ∷ []) ls ls }
    ensures istore { (by : Linked) (l : Named) (f : Frame) (pairs : ℕ) (r : Resolution) (m : Method) (b : Before)
        (ls : List Kind) (n : ℕ) (s : Span) → n < length ls
        → IntRow by l f pairs r m b (jop.Store false n) (Range s ∷ []) [] ls (slice_set ls n (Range s)) }
    ensures astore { (by : Linked) (l : Named) (f : Frame) (pairs : ℕ) (r : Resolution) (m : Method) (b : Before)
        (ls : List Kind) (n : ℕ) (within : Shape (List ℕ) → Bool) → n < length ls
        → IntRow by l f pairs r m b (jop.Store true n) (Refers within ∷ []) [] ls (slice_set ls n (Refers within)) }
    ensures iinc { (by : Linked) (l : Named) (f : Frame) (pairs : ℕ) (r : Resolution) (m : Method) (b : Before)
        (ls : List Kind) (n : ℕ) (s : Span) (z : ℤ) → slice_get ls n ≡ Some (Range s) → n < length ls
        → Holds short_range z
        → IntRow by l f pairs r m b (jop.Inc n z) [] [] ls (slice_set ls n (Range (add_row s (span z z)))) }
{}

/// A jump leads to one place on both sides: of a number against zero, and of two numbers, by icmp.
pub fn jumps_agree()
    ensures goto { (by : Linked) (l : Named) (f : Frame) (pairs : ℕ) (r : Resolution) (m : Method) (b : Before)
        (target : ℕ) → IntJump by l f pairs r m b (jop.Goto target) [] (target ∷ []) }
    ensures ifeq { (by : Linked) (l : Named) (f : Frame) (pairs : ℕ) (r : Resolution) (m : Method) (b : Before)
        (target : ℕ) (s : Span)
        → IntJump by l f pairs r m b (jop.If jvm.ifeq target) (Range s ∷ []) (target ∷ []) }
    ensures ifne { (by : Linked) (l : Named) (f : Frame) (pairs : ℕ) (r : Resolution) (m : Method) (b : Before)
        (target : ℕ) (s : Span)
        → IntJump by l f pairs r m b (jop.If jvm.ifne target) (Range s ∷ []) (target ∷ []) }
    ensures iflt { (by : Linked) (l : Named) (f : Frame) (pairs : ℕ) (r : Resolution) (m : Method) (b : Before)
        (target : ℕ) (s : Span)
        → IntJump by l f pairs r m b (jop.If jvm.iflt target) (Range s ∷ []) (target ∷ []) }
    ensures ifge { (by : Linked) (l : Named) (f : Frame) (pairs : ℕ) (r : Resolution) (m : Method) (b : Before)
        (target : ℕ) (s : Span)
        → IntJump by l f pairs r m b (jop.If jvm.ifge target) (Range s ∷ []) (target ∷ []) }
    ensures ifgt { (by : Linked) (l : Named) (f : Frame) (pairs : ℕ) (r : Resolution) (m : Method) (b : Before)
        (target : ℕ) (s : Span)
        → IntJump by l f pairs r m b (jop.If jvm.ifgt target) (Range s ∷ []) (target ∷ []) }
    ensures ifle { (by : Linked) (l : Named) (f : Frame) (pairs : ℕ) (r : Resolution) (m : Method) (b : Before)
        (target : ℕ) (s : Span)
        → IntJump by l f pairs r m b (jop.If jvm.ifle target) (Range s ∷ []) (target ∷ []) }
    ensures if_icmpeq { (by : Linked) (l : Named) (f : Frame) (pairs : ℕ) (r : Resolution) (m : Method) (b : Before)
        (target : ℕ) (s t : Span)
        → IntJump by l f pairs r m b (jop.If jvm.if_icmpeq target) (Range t ∷ Range s ∷ []) (target ∷ []) }
    ensures if_icmpne { (by : Linked) (l : Named) (f : Frame) (pairs : ℕ) (r : Resolution) (m : Method) (b : Before)
        (target : ℕ) (s t : Span)
        → IntJump by l f pairs r m b (jop.If jvm.if_icmpne target) (Range t ∷ Range s ∷ []) (target ∷ []) }
    ensures if_icmplt { (by : Linked) (l : Named) (f : Frame) (pairs : ℕ) (r : Resolution) (m : Method) (b : Before)
        (target : ℕ) (s t : Span)
        → IntJump by l f pairs r m b (jop.If jvm.if_icmplt target) (Range t ∷ Range s ∷ []) (target ∷ []) }
    ensures if_icmpge { (by : Linked) (l : Named) (f : Frame) (pairs : ℕ) (r : Resolution) (m : Method) (b : Before)
        (target : ℕ) (s t : Span)
        → IntJump by l f pairs r m b (jop.If jvm.if_icmpge target) (Range t ∷ Range s ∷ []) (target ∷ []) }
    ensures if_icmpgt { (by : Linked) (l : Named) (f : Frame) (pairs : ℕ) (r : Resolution) (m : Method) (b : Before)
        (target : ℕ) (s t : Span)
        → IntJump by l f pairs r m b (jop.If jvm.if_icmpgt target) (Range t ∷ Range s ∷ []) (target ∷ []) }
    ensures if_icmple { (by : Linked) (l : Named) (f : Frame) (pairs : ℕ) (r : Resolution) (m : Method) (b : Before)
        (target : ℕ) (s t : Span)
        → IntJump by l f pairs r m b (jop.If jvm.if_icmple target) (Range t ∷ Range s ∷ []) (target ∷ []) }
{}

/// A jump on references leads to one place on both sides.
pub fn reference_jumps_agree()
    ensures ifnull { (by : Linked) (l : Named) (f : Frame) (pairs : ℕ) (r : Resolution) (m : Method) (b : Before)
        (target : ℕ) (within : Shape (List ℕ) → Bool)
        → IntJump by l f pairs r m b (jop.If jvm.ifnull target) (Refers within ∷ []) (target ∷ []) }
    ensures ifnonnull { (by : Linked) (l : Named) (f : Frame) (pairs : ℕ) (r : Resolution) (m : Method) (b : Before)
        (target : ℕ) (within : Shape (List ℕ) → Bool)
        → IntJump by l f pairs r m b (jop.If jvm.ifnonnull target) (Refers within ∷ []) (target ∷ []) }
    ensures if_acmpeq { (by : Linked) (l : Named) (f : Frame) (pairs : ℕ) (r : Resolution) (m : Method) (b : Before)
        (target : ℕ) (within within' : Shape (List ℕ) → Bool)
        → IntJump by l f pairs r m b (jop.If jvm.if_acmpeq target) (Refers within ∷ Refers within' ∷ []) (target ∷ []) }
    ensures if_acmpne { (by : Linked) (l : Named) (f : Frame) (pairs : ℕ) (r : Resolution) (m : Method) (b : Before)
        (target : ℕ) (within within' : Shape (List ℕ) → Bool)
        → IntJump by l f pairs r m b (jop.If jvm.if_acmpne target) (Refers within ∷ Refers within' ∷ []) (target ∷ []) }
{}

/// A return gives its method's result: an int as two words, a boolean, a byte or a short as its low word, a reference
/// as
/// it is, and nothing where the method has none.
pub fn returns_agree()
    ensures int { (by : Linked) (l : Named) (f : Frame) (r : Resolution) (m : Method) (b : Before) (s : Span)
        → f.result ≡ Some Int → IntReturn by l f r m b (jop.Return jvm.ireturn) (Range s ∷ []) }
    ensures short { (by : Linked) (l : Named) (f : Frame) (r : Resolution) (m : Method) (b : Before) (sort : Sort) (s :
        Span)
        → f.result ≡ Some sort → is_short sort ≡ true → Within s (type_range sort)
        → IntReturn by l f r m b (jop.Return jvm.ireturn) (Range s ∷ []) }
    ensures reference { (by : Linked) (l : Named) (f : Frame) (r : Resolution) (m : Method) (b : Before) (shape : Shape
        (List ℕ))
        (within : Shape (List ℕ) → Bool) → f.result ≡ Some (Reference shape)
        → IntReturn by l f r m b (jop.Return jvm.areturn) (Refers within ∷ []) }
    ensures nothing { (by : Linked) (l : Named) (f : Frame) (r : Resolution) (m : Method) (b : Before) → f.result ≡ None
        → IntReturn by l f r m b (jop.Return jvm.return) [] }
{}

/// Cells are copied alike, one word of a reference and two of a number, whatever is below them.
pub fn copies_agree()
    ensures dup { (by : Linked) (l : Named) (f : Frame) (pairs : ℕ) (r : Resolution) (m : Method)
        (ls : List Kind) (below : List Bool) (inside : Bool) (a : Kind)
        → IntRow by l f pairs r m (known (a ∷ []) below inside) (jop.Stack jvm.dup) (a ∷ [])
        (a ∷ a ∷ []) ls ls }
    ensures dup_x1 { (by : Linked) (l : Named) (f : Frame) (pairs : ℕ) (r : Resolution) (m : Method)
        (ls : List Kind) (below : List Bool) (inside : Bool) (a b : Kind)
        → IntRow by l f pairs r m (known (a ∷ b ∷ []) below inside) (jop.Stack jvm.dup_x1) (a ∷ b ∷ [])
        (a ∷ b ∷ a ∷ []) ls ls }
    ensures dup_x2 { (by : Linked) (l : Named) (f : Frame) (pairs : ℕ) (r : Resolution) (m : Method)
        (ls : List Kind) (below : List Bool) (inside : Bool) (a b c : Kind)
        → IntRow by l f pairs r m (known (a ∷ b ∷ c ∷ []) below inside) (jop.Stack jvm.dup_x2) (a ∷ b ∷ c ∷ [])
        (a ∷ b ∷ c ∷ a ∷ []) ls ls }
    ensures dup2 { (by : Linked) (l : Named) (f : Frame) (pairs : ℕ) (r : Resolution) (m : Method)
        (ls : List Kind) (below : List Bool) (inside : Bool) (a b : Kind)
        → IntRow by l f pairs r m (known (a ∷ b ∷ []) below inside) (jop.Stack jvm.dup2) (a ∷ b ∷ [])
        (a ∷ b ∷ a ∷ b ∷ []) ls ls }
    ensures dup2_x1 { (by : Linked) (l : Named) (f : Frame) (pairs : ℕ) (r : Resolution) (m : Method)
        (ls : List Kind) (below : List Bool) (inside : Bool) (a b c : Kind)
        → IntRow by l f pairs r m (known (a ∷ b ∷ c ∷ []) below inside) (jop.Stack jvm.dup2_x1) (a ∷ b ∷ c ∷ [])
        (a ∷ b ∷ c ∷ a ∷ b ∷ []) ls ls }
    ensures dup2_x2 { (by : Linked) (l : Named) (f : Frame) (pairs : ℕ) (r : Resolution) (m : Method)
        (ls : List Kind) (below : List Bool) (inside : Bool) (a b c d : Kind)
        → IntRow by l f pairs r m (known (a ∷ b ∷ c ∷ d ∷ []) below inside) (jop.Stack jvm.dup2_x2) (a ∷ b ∷ c ∷ d ∷ [])
        (a ∷ b ∷ c ∷ d ∷ a ∷ b ∷ []) ls ls }
{}

/// Cells are dropped and exchanged alike, one word of a reference and two of a number.
pub fn drops_agree()
    ensures pop { (by : Linked) (l : Named) (f : Frame) (pairs : ℕ) (r : Resolution) (m : Method)
        (ls : List Kind) (below : List Bool) (inside : Bool) (a : Kind)
        → IntRow by l f pairs r m (known (a ∷ []) below inside) (jop.Stack jvm.pop) (a ∷ [])
        ([]) ls ls }
    ensures pop2 { (by : Linked) (l : Named) (f : Frame) (pairs : ℕ) (r : Resolution) (m : Method)
        (ls : List Kind) (below : List Bool) (inside : Bool) (a b : Kind)
        → IntRow by l f pairs r m (known (a ∷ b ∷ []) below inside) (jop.Stack jvm.pop2) (a ∷ b ∷ [])
        ([]) ls ls }
    ensures swap { (by : Linked) (l : Named) (f : Frame) (pairs : ℕ) (r : Resolution) (m : Method)
        (ls : List Kind) (below : List Bool) (inside : Bool) (a b : Kind)
        → IntRow by l f pairs r m (known (a ∷ b ∷ []) below inside) (jop.Stack jvm.swap) (a ∷ b ∷ [])
        (b ∷ a ∷ []) ls ls }
{}

/// The guard of an index of two words leaves one word, by which each array finds the item that the index finds, or
/// none where the index finds none. Where the guard is i2s alone, the index is to lie from -32,769 to 65,535.
pub fn guards_find_items()
    ensures { (l : Named) (code : NMethod) (here : ℕ) (i high low : ℤ) (ws : List Value)
        (words : List (Option Value)) (memory : NMemory) → i ≡ spelt_by high low → (inside : Bool)
        → (inside ≡ true → Holds index_range i) → StandAt code here (guard inside here)
        → length ws + 6 ≤ code.max_stack
        → Guarded l code here (guard inside here) i (Num low ∷ Num high ∷ ws) ws words memory }
{}

/// An element is read alike, by an index of two words: both sides push what the array holds at it, and raise for null
/// and for an index outside of the array, whatever its 32 bits are.
pub fn elements_are_read_alike()
    ensures baload { (by : Linked) (l : Named) (f : Frame) (pairs : ℕ) (r : Resolution) (m : Method)
        (ls : List Kind) (below : List Bool) (inside : Bool) (s t : Span) (within : Shape (List ℕ) → Bool)
        → (inside ≡ true → Within s index_range) → AreAll l IsBytes within → ElementsLie within t
        → IntRow by l f pairs r m (known (Range s ∷ Refers within ∷ []) below inside) (jop.ArrayLoad jvm.baload)
        (Range s ∷ Refers within ∷ []) (Range t ∷ []) ls ls }
    ensures saload { (by : Linked) (l : Named) (f : Frame) (pairs : ℕ) (r : Resolution) (m : Method)
        (ls : List Kind) (below : List Bool) (inside : Bool) (s t : Span) (within : Shape (List ℕ) → Bool)
        → (inside ≡ true → Within s index_range) → AreAll l IsShorts within → ElementsLie within t
        → IntRow by l f pairs r m (known (Range s ∷ Refers within ∷ []) below inside) (jop.ArrayLoad jvm.saload)
        (Range s ∷ Refers within ∷ []) (Range t ∷ []) ls ls }
    ensures iaload { (by : Linked) (l : Named) (f : Frame) (pairs : ℕ) (r : Resolution) (m : Method)
        (ls : List Kind) (below : List Bool) (inside : Bool) (s t : Span) (within : Shape (List ℕ) → Bool)
        → (inside ≡ true → Within s index_range) → AreAll l IsInts within → Within full t
        → IntRow by l f pairs r m (known (Range s ∷ Refers within ∷ []) below inside) (jop.ArrayLoad jvm.iaload)
        (Range s ∷ Refers within ∷ []) (Range t ∷ []) ls ls }
{}

/// An element is written alike, by an index of two words: both sides keep the same of a number, and raise for null and
/// for an index outside of the array, whatever its 32 bits are.
pub fn elements_are_written_alike()
    ensures bastore { (by : Linked) (l : Named) (f : Frame) (pairs : ℕ) (r : Resolution) (m : Method)
        (ls : List Kind) (below : List Bool) (inside : Bool) (s t : Span) (within : Shape (List ℕ) → Bool)
        → (inside ≡ true → Within s index_range) → AreAll l IsBytes within
        → (within (OfNumbers Booleans) ≡ true → Within t boolean_range)
        → IntRow by l f pairs r m (known (Range t ∷ Range s ∷ Refers within ∷ []) below inside)
        (jop.ArrayStore jvm.bastore) (Range t ∷ Range s ∷ Refers within ∷ []) [] ls ls }
    ensures sastore { (by : Linked) (l : Named) (f : Frame) (pairs : ℕ) (r : Resolution) (m : Method)
        (ls : List Kind) (below : List Bool) (inside : Bool) (s t : Span) (within : Shape (List ℕ) → Bool)
        → (inside ≡ true → Within s index_range) → AreAll l IsShorts within
        → IntRow by l f pairs r m (known (Range t ∷ Range s ∷ Refers within ∷ []) below inside)
        (jop.ArrayStore jvm.sastore) (Range t ∷ Range s ∷ Refers within ∷ []) [] ls ls }
    ensures iastore { (by : Linked) (l : Named) (f : Frame) (pairs : ℕ) (r : Resolution) (m : Method)
        (ls : List Kind) (below : List Bool) (inside : Bool) (s t : Span) (within : Shape (List ℕ) → Bool)
        → (inside ≡ true → Within s index_range) → AreAll l IsInts within
        → IntRow by l f pairs r m (known (Range t ∷ Range s ∷ Refers within ∷ []) below inside)
        (jop.ArrayStore jvm.iastore) (Range t ∷ Range s ∷ Refers within ∷ []) [] ls ls }
{}

/// A switch leads to one place on both sides, whatever the 32 bits of its number are.
pub fn switches_agree()
    ensures tableswitch { (by : Linked) (l : Named) (f : Frame) (pairs : ℕ) (r : Resolution) (m : Method) (b : Before)
        (s : Span) (other : ℕ) (low : ℤ) (targets : List ℕ)
        → IntJump by l f pairs r m b (jop.TableSwitch other low targets) (Range s ∷ []) (other ∷ targets) }
    ensures lookupswitch { (by : Linked) (l : Named) (f : Frame) (pairs : ℕ) (r : Resolution) (m : Method)
        (b : Before) (s : Span) (other : ℕ) (cases : List JCase)
        → IntJump by l f pairs r m b (jop.LookupSwitch other cases) (Range s ∷ []) (other ∷ targets_of cases) }
{}

/// A field is read alike, on an object of a class that has it, whether its values are one word or two, and so is the
/// length of an array. Null raises.
pub fn objects_are_read_alike()
    ensures getfield { (by : Linked) (l : Named) (f : Frame) (pairs : ℕ) (r : Resolution) (m : Method) (b : Before)
        (ls : List Kind) (named : MemberId) (within : Shape (List ℕ) → Bool) → IntFieldIsThere by l r m named within
        → IntRow by l f pairs r m b (jop.Field false named) (Refers within ∷ [])
        (kind_of l (field_sort named.desc) ∷ []) ls ls }
    ensures arraylength { (by : Linked) (l : Named) (f : Frame) (pairs : ℕ) (r : Resolution) (m : Method) (b : Before)
        (ls : List Kind) (within : Shape (List ℕ) → Bool) → AreArrays l within
        → IntRow by l f pairs r m b jop.ArrayLength (Refers within ∷ []) (Range (span (pos 0) (pos 32767)) ∷ []) ls ls }
{}

/// A static field is read alike, and what a constant's name stands for is pushed.
pub fn static_fields_are_read_alike()
    ensures cell { (by : Linked) (l : Named) (f : Frame) (pairs : ℕ) (r : Resolution) (m : Method) (b : Before)
        (ls : List Kind) (named : MemberId) → IntCellIsThere by l r m named
        → IntRow by l f pairs r m b (jop.Static false named) [] (kind_of l (field_sort named.desc) ∷ []) ls ls }
    ensures constant { (by : Linked) (l : Named) (f : Frame) (pairs : ℕ) (r : Resolution) (m : Method) (b : Before)
        (ls : List Kind) (named : MemberId) (z : ℤ) (s : Span) → IsConstant by r m named z → Holds full z → Holds s z
        → IntRow by l f pairs r m b (jop.Static false named) [] (Range s ∷ []) ls ls }
{}

/// A field is written alike, and so is a static one: both sides keep the same value of one word or of two, and raise
/// for null.
pub fn fields_are_written_alike()
    ensures putfield { (by : Linked) (l : Named) (f : Frame) (pairs : ℕ) (r : Resolution) (m : Method) (b : Before)
        (ls : List Kind) (named : MemberId) (k : Kind) (within : Shape (List ℕ) → Bool)
        → IntFieldIsThere by l r m named within → MayBePutInt l (field_sort named.desc) k
        → IntRow by l f pairs r m b (jop.Field true named) (k ∷ Refers within ∷ []) [] ls ls }
    ensures putstatic { (by : Linked) (l : Named) (f : Frame) (pairs : ℕ) (r : Resolution) (m : Method) (b : Before)
        (ls : List Kind) (named : MemberId) (k : Kind) → IntCellIsThere by l r m named
        → MayBePutInt l (field_sort named.desc) k → IntRow by l f pairs r m b (jop.Static true named) (k ∷ []) [] ls
        ls }
{}

/// Objects and arrays are made alike, with the same fields and as many elements; a negative number of elements raises.
pub fn objects_are_made_alike()
    ensures new { (by : Linked) (l : Named) (f : Frame) (pairs : ℕ) (r : Resolution) (m : Method) (b : Before)
        (ls : List Kind) (within : Shape (List ℕ) → Bool) (class : List ℕ) → IsMade by l m class
        → within (OfClass class) ≡ true → IntRow by l f pairs r m b (jop.New class) [] (Refers within ∷ []) ls ls }
    ensures booleans { (by : Linked) (l : Named) (f : Frame) (pairs : ℕ) (r : Resolution) (m : Method) (b : Before)
        (ls : List Kind) (within : Shape (List ℕ) → Bool) (s : Span) → Within s short_range
        → within (OfNumbers Booleans) ≡ true
        → IntRow by l f pairs r m b (jop.NewArray 4) (Range s ∷ []) (Refers within ∷ []) ls ls }
    ensures bytes { (by : Linked) (l : Named) (f : Frame) (pairs : ℕ) (r : Resolution) (m : Method) (b : Before)
        (ls : List Kind) (within : Shape (List ℕ) → Bool) (s : Span) → Within s short_range
        → within (OfNumbers Bytes) ≡ true
        → IntRow by l f pairs r m b (jop.NewArray 8) (Range s ∷ []) (Refers within ∷ []) ls ls }
    ensures shorts { (by : Linked) (l : Named) (f : Frame) (pairs : ℕ) (r : Resolution) (m : Method) (b : Before)
        (ls : List Kind) (within : Shape (List ℕ) → Bool) (s : Span) → Within s short_range
        → within (OfNumbers Shorts) ≡ true
        → IntRow by l f pairs r m b (jop.NewArray 9) (Range s ∷ []) (Refers within ∷ []) ls ls }
    ensures ints { (by : Linked) (l : Named) (f : Frame) (pairs : ℕ) (r : Resolution) (m : Method) (b : Before)
        (ls : List Kind) (within : Shape (List ℕ) → Bool) (s : Span) → Within s short_range
        → within (OfNumbers Ints) ≡ true
        → IntRow by l f pairs r m b (jop.NewArray 10) (Range s ∷ []) (Refers within ∷ []) ls ls }
    ensures anewarray { (by : Linked) (l : Named) (f : Frame) (pairs : ℕ) (r : Resolution) (m : Method) (b : Before)
        (ls : List Kind) (within : Shape (List ℕ) → Bool) (s : Span) → Within s short_range
        → (class : List ℕ) → IsClassThere by l m class → within (OfReferences class) ≡ true
        → IntRow by l f pairs r m b (jop.ANewArray class) (Range s ∷ []) (Refers within ∷ []) ls ls }
{}

/// The type of an array or object is asked alike; null is of each type for checkcast, and of none for instanceof.
pub fn types_are_asked_alike()
    ensures checkcast { (by : Linked) (l : Named) (f : Frame) (pairs : ℕ) (r : Resolution) (m : Method) (b : Before)
        (ls : List Kind) (type : List ℕ) (there : IsTypeThere by l m type) (within after : Shape (List ℕ) → Bool)
        → ((kind : Shape (List ℕ)) → within kind ≡ true → l.is_of kind there.kind ≡ true → after kind ≡ true)
        → IntRow by l f pairs r m b (jop.CheckCast type) (Refers within ∷ []) (Refers after ∷ []) ls ls }
    ensures instanceof { (by : Linked) (l : Named) (f : Frame) (pairs : ℕ) (r : Resolution) (m : Method) (b : Before)
        (ls : List Kind) (type : List ℕ) → IsTypeThere by l m type → (within : Shape (List ℕ) → Bool)
        → IntRow by l f pairs r m b (jop.InstanceOf type) (Refers within ∷ []) (Range boolean_range ∷ []) ls ls }
{}

/// The prologue brings arguments of one word and of two to the locals of the class file, in not more instructions than
/// are written of it, with an empty stack behind it.
pub fn prologues_bring_arguments()
    ensures { (l : Named) (f : Frame) (pairs : ℕ) (code : NMethod) → 2 ≤ code.max_stack → (memory : NMemory) (here : ℕ)
        (ks : List Kind) (vs args : List Value) (ls : List Kind) (locals words : List (Option Value))
        → AllHanded memory.heap f.params ks vs args → (h : IntLocals memory.heap f pairs ls locals words)
        → h.arguments ≡ map (λ v. Some v) args → length ks ≤ length ls → StandAt code here (prologue f)
        → Brings l f pairs code here (prologue f) (filled ls 0 ks) (filled locals 0 (map (λ v. Some v) vs)) words
        memory }
{}

/// A method in int mode that begins with arguments comes to its first instruction of the class file with an empty stack
/// and with the locals that it has by name: its arguments, and then nothing that is known.
pub fn methods_begin_alike()
    ensures { (l : Named) (f : Frame) (pairs : ℕ) (code : NMethod) → 2 ≤ code.max_stack → (memory : NMemory) (here : ℕ)
        (ks : List Kind) (vs args : List Value) → AllHanded memory.heap f.params ks vs args
        → length ks ≤ f.max_locals → StandAt code here (prologue f)
        → Brings l f pairs code here (prologue f) (ks ++ replicate (f.max_locals - length ks) Free)
        (map (λ v. Some v) vs ++ replicate (f.max_locals - length vs) None)
        (locals_of (nargs f) (2 * f.max_locals + 2 * pairs) args) memory }
{}

/// References in an array are read and written alike, by an index of two words: both sides raise for null, for an index
/// outside of the array, and for what its class does not have.
pub fn references_are_met_alike()
    ensures aaload { (by : Linked) (l : Named) (f : Frame) (pairs : ℕ) (r : Resolution) (m : Method) (ls : List Kind)
        (below : List Bool) (inside : Bool) (s : Span) (within items : Shape (List ℕ) → Bool)
        → (inside ≡ true → Within s index_range) → AreAll l IsReferences within → ItemsPass l within items
        → IntRow by l f pairs r m (known (Range s ∷ Refers within ∷ []) below inside) (jop.ArrayLoad jvm.aaload)
        (Range s ∷ Refers within ∷ []) (Refers items ∷ []) ls ls }
    ensures aastore { (by : Linked) (l : Named) (f : Frame) (pairs : ℕ) (r : Resolution) (m : Method) (ls : List Kind)
        (below : List Bool) (inside : Bool) (s : Span) (within items : Shape (List ℕ) → Bool)
        → (inside ≡ true → Within s index_range) → AreAll l IsReferences within → KeepsAlike by l m within items
        → IntRow by l f pairs r m (known (Refers items ∷ Range s ∷ Refers within ∷ []) below inside)
        (jop.ArrayStore jvm.aastore) (Refers items ∷ Range s ∷ Refers within ∷ []) [] ls ls }
{}
