//! Rows of fields and returns in int mode: a value of one word is cut before it is handed over, and widened where it
//! comes back.
ghost use Rattle.std.specs.Prelude.{List, Option, [], false, true, ℕ, ◌++◌, ◌==◌, ◌∷◌, ◌≡◌};
ghost use Rattle.cjc_accepted_proof.specs.Frames.{PassesFor, SubtypesAgree};
ghost use Rattle.cjc_frames.specs.Acts.{Subtype};
ghost use Rattle.cjc_frames.specs.declared.acts.Need.TheVariants.{OfType};
ghost use Rattle.cjc_int_accepted.specs.Acts.{cutting, taking, widening};
ghost use Rattle.cjc_int_accepted.specs.Frames.{Room};
ghost use Rattle.cjc_int_accepted.specs.Runs.{IsOn, Runs};
ghost use Rattle.cjc_int_accepted.specs.Types.{IsTypedAs};
ghost use Rattle.cjc_types.specs.Bytes.declared.fault.MemberId.{MemberId};
ghost use Rattle.cjc_types.specs.Flow.{Body};
ghost use Rattle.cjc_types.specs.Rules.{has_wrong as has_wrong_by_name};
ghost use Rattle.cjc_types.specs.Types.{is_void, parts};
ghost use Rattle.cjc_types.specs.World.Classes.{Class};
ghost use Rattle.cjc_types.specs.declared.cell.Cell.{Cell};
ghost use Rattle.cjc_verify.specs.CardActs.CardTypes.{ValueType, needs_of, words as words_given};
ghost use Rattle.cjc_types.specs.Bytecode.Jvm as jvm;
ghost use Rattle.cjc_types.specs.Bytecode.declared.insn.JOp.TheVariants as jop;

/// What is written for a field that is read or written goes from the words of its frame to those of the frame
/// behind it.
pub fn fields_run_in_int_mode()
    ensures static_reads { (card_type : List ℕ → Option (List ℕ)) (is_of : Subtype) (m : Room) (max_stack : ℕ) (w :
        List Class) (b : Body) (agree : SubtypesAgree card_type is_of w) → (f : MemberId) (t : ValueType) → (let d =
        parts f.desc in let r = d.result in IsTypedAs card_type r.kind r.class t) → (ls s : List Cell) → IsOn
        max_stack (jop.Static false f) ls s → Runs card_type is_of m max_stack (jop.Static false f) (taking []
        (words_given t) true [] ∷ widening t) ls s }
    ensures reads { (card_type : List ℕ → Option (List ℕ)) (is_of : Subtype) (m : Room) (max_stack : ℕ) (w : List
        Class) (b : Body) (agree : SubtypesAgree card_type is_of w) → (f : MemberId) (t : ValueType) (type : List ℕ)
        → (let d = parts f.desc in let r = d.result in IsTypedAs card_type r.kind r.class t) → PassesFor card_type
        is_of w f.class type → (ls s : List Cell) → IsOn max_stack (jop.Field false f) ls s → has_wrong_by_name w b
        (jop.Field false f) 1 0 s ≡ false → Runs card_type is_of m max_stack (jop.Field false f) (taking (OfType
        type ∷ []) (words_given t) true [] ∷ widening t) ls s }
    ensures static_writes { (card_type : List ℕ → Option (List ℕ)) (is_of : Subtype) (m : Room) (max_stack : ℕ) (w :
        List Class) (b : Body) (agree : SubtypesAgree card_type is_of w) → (f : MemberId) (t : ValueType) → (let d =
        parts f.desc in let r = d.result in IsTypedAs card_type r.kind r.class t) → (let d = parts f.desc in let r =
        d.result in is_void r.kind) ≡ false → (ls s : List Cell) → IsOn max_stack (jop.Static true f) ls s →
        has_wrong_by_name w b (jop.Static true f) 1 0 s ≡ false → Runs card_type is_of m max_stack (jop.Static true
        f) (cutting t ++ taking (needs_of t) [] true [] ∷ []) ls s }
    ensures writes { (card_type : List ℕ → Option (List ℕ)) (is_of : Subtype) (m : Room) (max_stack : ℕ) (w : List
        Class) (b : Body) (agree : SubtypesAgree card_type is_of w) → (f : MemberId) (t : ValueType) (type : List ℕ)
        → (let d = parts f.desc in let r = d.result in IsTypedAs card_type r.kind r.class t) → (let d = parts f.desc
        in let r = d.result in is_void r.kind) ≡ false → PassesFor card_type is_of w f.class type → (ls s : List
        Cell) → IsOn max_stack (jop.Field true f) ls s → has_wrong_by_name w b (jop.Field true f) 2 0 s ≡ false →
        Runs card_type is_of m max_stack (jop.Field true f) (cutting t ++ taking (needs_of t ++ OfType type ∷ []) []
        true [] ∷ []) ls s }
{}

/// What is written for a return finds the value that it returns.
pub fn returns_run_in_int_mode()
    ensures values { (card_type : List ℕ → Option (List ℕ)) (is_of : Subtype) (m : Room) (max_stack : ℕ) (w : List
        Class) (b : Body) (agree : SubtypesAgree card_type is_of w) → (op : ℕ) → (op == jvm.return) ≡ false → (t :
        ValueType) → (let d = parts b.desc in let r = d.result in IsTypedAs card_type r.kind r.class t) → (let d =
        parts b.desc in let r = d.result in is_void r.kind) ≡ false → (ls s : List Cell) → IsOn max_stack
        (jop.Return op) ls s → has_wrong_by_name w b (jop.Return op) 1 0 s ≡ false → Runs card_type is_of m
        max_stack (jop.Return op) (cutting t ++ taking (needs_of t) [] false [] ∷ []) ls s }
    ensures nothing { (card_type : List ℕ → Option (List ℕ)) (is_of : Subtype) (m : Room) (max_stack : ℕ) → (ls s :
        List Cell) → IsOn max_stack (jop.Return jvm.return) ls s → Runs card_type is_of m max_stack (jop.Return
        jvm.return) (taking [] [] false [] ∷ []) ls s }
{}
