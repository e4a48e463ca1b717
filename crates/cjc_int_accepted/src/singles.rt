//! What is written in int mode for an instruction that names nothing and has no guard stands between its frames.
ghost use Rattle.std.specs.Prelude.{Bool, List, Option, Some, false, length, slice_get, true, ℕ, ℤ, ◌<◌, ◌==◌, ◌≡◌};
ghost use Rattle.std.specs.Prelude.{nat_le};
ghost use Rattle.cjc_accepted_proof.specs.Coded.{step_laid};
ghost use Rattle.cjc_accepted_proof.specs.Methods.{steps_from};
ghost use Rattle.cjc_check_proof.specs.NCode.Lowering.Naming.{Naming};
ghost use Rattle.cjc_check_proof.specs.NCode.Written.{Resolution};
ghost use Rattle.cjc_frames.specs.Acts.{Subtype};
ghost use Rattle.cjc_int_accepted.specs.Frames.{Room};
ghost use Rattle.cjc_int_accepted.specs.Methods.{Selection, StretchStands};
ghost use Rattle.cjc_int_accepted.specs.Reached.{IsRight};
ghost use Rattle.cjc_ncode.specs.IntCode.IntCode.{Before, Frame, nargs, written};
ghost use Rattle.cjc_types.specs.Bytecode.Jvm as jvm;
ghost use Rattle.cjc_types.specs.Bytecode.declared.insn.JCase.{JCase};
ghost use Rattle.cjc_types.specs.Bytecode.declared.insn.JOp.TheVariants as jop;
ghost use Rattle.cjc_types.specs.Bytecode.declared.insn.JOp.{JOp};
ghost use Rattle.cjc_types.specs.Flow.{Body};
ghost use Rattle.cjc_types.specs.Rules.{Breaks};
ghost use Rattle.cjc_types.specs.Steps.{goes_on, stack_behind};
ghost use Rattle.cjc_types.specs.World.Classes.{Class};
ghost use Rattle.cjc_types.specs.declared.cell.Cell.TheVariants.{Unusable};
ghost use Rattle.cjc_types.specs.declared.cell.Cell.{Cell};
ghost use Rattle.cjc_types.specs.declared.state.Stack.TheVariants.{Cells};
ghost use Rattle.cjc_types.specs.declared.state.Stack.{Stack};
ghost use Rattle.cjc_types.specs.declared.state.State.{State};
ghost use Rattle.cjc_verify.specs.CardActs.CardTypes.{ValueType};
ghost use Rattle.cjc_verify.specs.Pairs.{Pair};

/// A frame that breaks no rule has a stack with the operands of its instruction.
pub fn unbroken_frames_are_right()
    ensures { (w : List Class) (b : Body) (op : JOp) (ls : List Cell) (t : Stack) → ((rule : ℕ) → Breaks w b op
        (record { stack = t; locals = ls }) rule → ⊥) → ((s : List Cell) → t ≡ Cells s → goes_on op ≡ true → (k : ℕ)
        → slice_get (stack_behind op ls s) k ≡ Some Unusable → ⊥) → IsRight w b op (record { stack = t; locals = ls }) }
{}

/// What is written for a constant, for arithmetic and for a local stands between its frames, where they break no rule.
pub fn plain_stretches_stand()
    ensures nothing { (card_type : List ℕ → Option (List ℕ)) (is_of : Subtype) (m : Room) (new : Selection) (b :
        Body) (rows : List (Option State)) (label to : ℕ → ℕ) (p : Pair) (result : ValueType) (n : Naming) (wide : ℕ
        → Bool) (f : Frame) (r : Resolution) (known : Before) (w : List Class) (count place here o : ℕ) (x : State)
        → IsRight w b jop.Nop x → new place here (record { at = o; op = jop.Nop }) x ≡ steps_from (step_laid p
        result n to wide) here (written f r label known here jop.Nop) → StretchStands card_type is_of m new b rows
        label to count place here (record { at = o; op = jop.Nop }) x }
    ensures null { (card_type : List ℕ → Option (List ℕ)) (is_of : Subtype) (m : Room) (new : Selection) (b : Body)
        (rows : List (Option State)) (label to : ℕ → ℕ) (p : Pair) (result : ValueType) (n : Naming) (wide : ℕ →
        Bool) (f : Frame) (r : Resolution) (known : Before) (w : List Class) (count place here o : ℕ) (x : State) →
        IsRight w b jop.Null x → new place here (record { at = o; op = jop.Null }) x ≡ steps_from (step_laid p
        result n to wide) here (written f r label known here jop.Null) → StretchStands card_type is_of m new b rows
        label to count place here (record { at = o; op = jop.Null }) x }
    ensures numbers { (card_type : List ℕ → Option (List ℕ)) (is_of : Subtype) (m : Room) (new : Selection) (b :
        Body) (rows : List (Option State)) (label to : ℕ → ℕ) (p : Pair) (result : ValueType) (n : Naming) (wide : ℕ
        → Bool) (f : Frame) (r : Resolution) (known : Before) (w : List Class) (count place here o : ℕ) (x : State)
        (z : ℤ) → IsRight w b (jop.Number z) x → new place here (record { at = o; op = (jop.Number z) }) x ≡
        steps_from (step_laid p result n to wide) here (written f r label known here (jop.Number z)) → StretchStands
        card_type is_of m new b rows label to count place here (record { at = o; op = (jop.Number z) }) x }
    ensures negation { (card_type : List ℕ → Option (List ℕ)) (is_of : Subtype) (m : Room) (new : Selection) (b :
        Body) (rows : List (Option State)) (label to : ℕ → ℕ) (p : Pair) (result : ValueType) (n : Naming) (wide : ℕ
        → Bool) (f : Frame) (r : Resolution) (known : Before) (w : List Class) (count place here o : ℕ) (x : State)
        → IsRight w b (jop.Arith jvm.ineg) x → new place here (record { at = o; op = (jop.Arith jvm.ineg) }) x ≡
        steps_from (step_laid p result n to wide) here (written f r label known here (jop.Arith jvm.ineg)) →
        StretchStands card_type is_of m new b rows label to count place here (record {
          at = o;
          op = (jop.Arith
              jvm.ineg);
        }) x }
    ensures arithmetic { (card_type : List ℕ → Option (List ℕ)) (is_of : Subtype) (m : Room) (new : Selection) (b :
        Body) (rows : List (Option State)) (label to : ℕ → ℕ) (p : Pair) (result : ValueType) (n : Naming) (wide : ℕ
        → Bool) (f : Frame) (r : Resolution) (known : Before) (w : List Class) (count place here o : ℕ) (x : State)
        (op : ℕ) → (op == jvm.ineg) ≡ false → IsRight w b (jop.Arith op) x → new place here (record {
          at = o;
          op =
              (jop.Arith op);
        }) x ≡ steps_from (step_laid p result n to wide) here (written f r label known here
        (jop.Arith op)) → StretchStands card_type is_of m new b rows label to count place here (record {
          at = o;
          op
              = (jop.Arith op);
        }) x }
    ensures narrowing { (card_type : List ℕ → Option (List ℕ)) (is_of : Subtype) (m : Room) (new : Selection) (b :
        Body) (rows : List (Option State)) (label to : ℕ → ℕ) (p : Pair) (result : ValueType) (n : Naming) (wide : ℕ
        → Bool) (f : Frame) (r : Resolution) (known : Before) (w : List Class) (count place here o : ℕ) (x : State)
        (op : ℕ) → IsRight w b (jop.Narrow op) x → new place here (record { at = o; op = (jop.Narrow op) }) x ≡
        steps_from (step_laid p result n to wide) here (written f r label known here (jop.Narrow op)) →
        StretchStands card_type is_of m new b rows label to count place here (record {
          at = o;
          op = (jop.Narrow op);
        }) x }
    ensures loads { (card_type : List ℕ → Option (List ℕ)) (is_of : Subtype) (m : Room) (new : Selection) (b : Body)
        (rows : List (Option State)) (label to : ℕ → ℕ) (p : Pair) (result : ValueType) (n : Naming) (wide : ℕ →
        Bool) (f : Frame) (r : Resolution) (known : Before) (w : List Class) (count place here o : ℕ) (x : State) →
        nargs f ≡ m.arguments → (refs : Bool) (k : ℕ) → IsRight w b (jop.Load refs k) x → new place here (record {
          at = o;
          op = (jop.Load refs k);
        }) x ≡ steps_from (step_laid p result n to wide) here (written f r label
        known here (jop.Load refs k)) → StretchStands card_type is_of m new b rows label to count place here (record
        { at = o; op = (jop.Load refs k) }) x }
    ensures stores { (card_type : List ℕ → Option (List ℕ)) (is_of : Subtype) (m : Room) (new : Selection) (b :
        Body) (rows : List (Option State)) (label to : ℕ → ℕ) (p : Pair) (result : ValueType) (n : Naming) (wide : ℕ
        → Bool) (f : Frame) (r : Resolution) (known : Before) (w : List Class) (count place here o : ℕ) (x : State)
        → nargs f ≡ m.arguments → (refs : Bool) (k : ℕ) → k < length x.locals → IsRight w b (jop.Store refs k) x →
        new place here (record { at = o; op = (jop.Store refs k) }) x ≡ steps_from (step_laid p result n to wide)
        here (written f r label known here (jop.Store refs k)) → StretchStands card_type is_of m new b rows label to
        count place here (record { at = o; op = (jop.Store refs k) }) x }
    ensures increases { (card_type : List ℕ → Option (List ℕ)) (is_of : Subtype) (m : Room) (new : Selection) (b :
        Body) (rows : List (Option State)) (label to : ℕ → ℕ) (p : Pair) (result : ValueType) (n : Naming) (wide : ℕ
        → Bool) (f : Frame) (r : Resolution) (known : Before) (w : List Class) (count place here o : ℕ) (x : State)
        → nargs f ≡ m.arguments → (k : ℕ) (z : ℤ) → IsRight w b (jop.Inc k z) x → new place here (record {
          at = o;
          op = (jop.Inc k z);
        }) x ≡ steps_from (step_laid p result n to wide) here (written f r label known here
        (jop.Inc k z)) → StretchStands card_type is_of m new b rows label to count place here (record {
          at = o;
          op =
              (jop.Inc k z);
        }) x }
{}

/// So does what is written for a jump or a switch.
pub fn jumping_stretches_stand()
    ensures numbers { (card_type : List ℕ → Option (List ℕ)) (is_of : Subtype) (m : Room) (new : Selection) (b :
        Body) (rows : List (Option State)) (label to : ℕ → ℕ) (p : Pair) (result : ValueType) (n : Naming) (wide : ℕ
        → Bool) (f : Frame) (r : Resolution) (known : Before) (w : List Class) (count place here o : ℕ) (x : State)
        (op target : ℕ) → nat_le op jvm.ifle ≡ true → IsRight w b (jop.If op target) x → new place here (record {
          at
              = o;
          op = (jop.If op target);
        }) x ≡ steps_from (step_laid p result n to wide) here (written f r label known
        here (jop.If op target)) → StretchStands card_type is_of m new b rows label to count place here (record {
          at
              = o;
          op = (jop.If op target);
        }) x }
    ensures pairs_of_numbers { (card_type : List ℕ → Option (List ℕ)) (is_of : Subtype) (m : Room) (new : Selection)
        (b : Body) (rows : List (Option State)) (label to : ℕ → ℕ) (p : Pair) (result : ValueType) (n : Naming)
        (wide : ℕ → Bool) (f : Frame) (r : Resolution) (known : Before) (w : List Class) (count place here o : ℕ) (x
        : State) (op target : ℕ) → nat_le op jvm.ifle ≡ false → nat_le op jvm.if_icmple ≡ true → IsRight w b (jop.If
        op target) x → new place here (record { at = o; op = (jop.If op target) }) x ≡ steps_from (step_laid p
        result n to wide) here (written f r label known here (jop.If op target)) → StretchStands card_type is_of m
        new b rows label to count place here (record { at = o; op = (jop.If op target) }) x }
    ensures same_references { (card_type : List ℕ → Option (List ℕ)) (is_of : Subtype) (m : Room) (new : Selection)
        (b : Body) (rows : List (Option State)) (label to : ℕ → ℕ) (p : Pair) (result : ValueType) (n : Naming)
        (wide : ℕ → Bool) (f : Frame) (r : Resolution) (known : Before) (w : List Class) (count place here o : ℕ) (x
        : State) (target : ℕ) → IsRight w b (jop.If jvm.if_acmpeq target) x → new place here (record {
          at = o;
          op =
              (jop.If jvm.if_acmpeq target);
        }) x ≡ steps_from (step_laid p result n to wide) here (written f r label known
        here (jop.If jvm.if_acmpeq target)) → StretchStands card_type is_of m new b rows label to count place here
        (record { at = o; op = (jop.If jvm.if_acmpeq target) }) x }
    ensures other_references { (card_type : List ℕ → Option (List ℕ)) (is_of : Subtype) (m : Room) (new : Selection)
        (b : Body) (rows : List (Option State)) (label to : ℕ → ℕ) (p : Pair) (result : ValueType) (n : Naming)
        (wide : ℕ → Bool) (f : Frame) (r : Resolution) (known : Before) (w : List Class) (count place here o : ℕ) (x
        : State) (target : ℕ) → IsRight w b (jop.If jvm.if_acmpne target) x → new place here (record {
          at = o;
          op =
              (jop.If jvm.if_acmpne target);
        }) x ≡ steps_from (step_laid p result n to wide) here (written f r label known
        here (jop.If jvm.if_acmpne target)) → StretchStands card_type is_of m new b rows label to count place here
        (record { at = o; op = (jop.If jvm.if_acmpne target) }) x }
    ensures nulls { (card_type : List ℕ → Option (List ℕ)) (is_of : Subtype) (m : Room) (new : Selection) (b : Body)
        (rows : List (Option State)) (label to : ℕ → ℕ) (p : Pair) (result : ValueType) (n : Naming) (wide : ℕ →
        Bool) (f : Frame) (r : Resolution) (known : Before) (w : List Class) (count place here o : ℕ) (x : State)
        (target : ℕ) → IsRight w b (jop.If jvm.ifnull target) x → new place here (record {
          at = o;
          op = (jop.If
              jvm.ifnull target);
        }) x ≡ steps_from (step_laid p result n to wide) here (written f r label known here
        (jop.If jvm.ifnull target)) → StretchStands card_type is_of m new b rows label to count place here (record {
          at = o;
          op = (jop.If jvm.ifnull target);
        }) x }
    ensures objects { (card_type : List ℕ → Option (List ℕ)) (is_of : Subtype) (m : Room) (new : Selection) (b :
        Body) (rows : List (Option State)) (label to : ℕ → ℕ) (p : Pair) (result : ValueType) (n : Naming) (wide : ℕ
        → Bool) (f : Frame) (r : Resolution) (known : Before) (w : List Class) (count place here o : ℕ) (x : State)
        (target : ℕ) → IsRight w b (jop.If jvm.ifnonnull target) x → new place here (record {
          at = o;
          op = (jop.If
              jvm.ifnonnull target);
        }) x ≡ steps_from (step_laid p result n to wide) here (written f r label known here
        (jop.If jvm.ifnonnull target)) → StretchStands card_type is_of m new b rows label to count place here
        (record { at = o; op = (jop.If jvm.ifnonnull target) }) x }
    ensures gotos { (card_type : List ℕ → Option (List ℕ)) (is_of : Subtype) (m : Room) (new : Selection) (b : Body)
        (rows : List (Option State)) (label to : ℕ → ℕ) (p : Pair) (result : ValueType) (n : Naming) (wide : ℕ →
        Bool) (f : Frame) (r : Resolution) (known : Before) (w : List Class) (count place here o : ℕ) (x : State)
        (target : ℕ) → IsRight w b (jop.Goto target) x → new place here (record { at = o; op = (jop.Goto target) })
        x ≡ steps_from (step_laid p result n to wide) here (written f r label known here (jop.Goto target)) →
        StretchStands card_type is_of m new b rows label to count place here (record {
          at = o;
          op = (jop.Goto
              target);
        }) x }
    ensures tables { (card_type : List ℕ → Option (List ℕ)) (is_of : Subtype) (m : Room) (new : Selection) (b :
        Body) (rows : List (Option State)) (label to : ℕ → ℕ) (p : Pair) (result : ValueType) (n : Naming) (wide : ℕ
        → Bool) (f : Frame) (r : Resolution) (known : Before) (w : List Class) (count place here o : ℕ) (x : State)
        (other : ℕ) (low : ℤ) (ts : List ℕ) → IsRight w b (jop.TableSwitch other low ts) x → new place here (record
        { at = o; op = (jop.TableSwitch other low ts) }) x ≡ steps_from (step_laid p result n to wide) here (written
        f r label known here (jop.TableSwitch other low ts)) → StretchStands card_type is_of m new b rows label to
        count place here (record { at = o; op = (jop.TableSwitch other low ts) }) x }
    ensures matches { (card_type : List ℕ → Option (List ℕ)) (is_of : Subtype) (m : Room) (new : Selection) (b :
        Body) (rows : List (Option State)) (label to : ℕ → ℕ) (p : Pair) (result : ValueType) (n : Naming) (wide : ℕ
        → Bool) (f : Frame) (r : Resolution) (known : Before) (w : List Class) (count place here o : ℕ) (x : State)
        (other : ℕ) (cases : List JCase) → IsRight w b (jop.LookupSwitch other cases) x → new place here (record {
          at = o;
          op = (jop.LookupSwitch other cases);
        }) x ≡ steps_from (step_laid p result n to wide) here (written f
        r label known here (jop.LookupSwitch other cases)) → StretchStands card_type is_of m new b rows label to
        count place here (record { at = o; op = (jop.LookupSwitch other cases) }) x }
{}
