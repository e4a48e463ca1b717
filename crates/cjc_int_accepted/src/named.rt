//! The acts of what is written in int mode for an instruction that names a field, a method, a class or a type, where it
//! is laid.
ghost use Rattle.std.specs.Prelude.{Bool, List, Option, Some, [], false, true, ℕ, ℤ, ◌++◌, ◌∷◌, ◌≡◌};
ghost use Rattle.cjc_accepted_proof.specs.Served.{TypeServed, entry_for};
ghost use Rattle.cjc_check_proof.specs.NCode.Lowering.Naming.{Naming};
ghost use Rattle.cjc_check_proof.specs.NCode.Written.{Resolution, element_number};
ghost use Rattle.cjc_check_proof.specs.NCode.declared.narrow.PoolKey.TheVariants as keys;
ghost use Rattle.cjc_frames.specs.Acts.{Subtype};
ghost use Rattle.cjc_frames.specs.declared.acts.Given.TheVariants.{ANumber, AnObject};
ghost use Rattle.cjc_frames.specs.declared.acts.Need.TheVariants.{NumberWord, OfArrays, OfType, ReferenceWord};
ghost use Rattle.cjc_frames.specs.declared.acts.Need.{Need};
ghost use Rattle.cjc_int_accepted.specs.Acts.{cutting, taking, widening};
ghost use Rattle.cjc_int_accepted.specs.Laid.{acts_laid};
ghost use Rattle.cjc_int_accepted.specs.Named.{AreSortsOf, CallNamed, FieldNamed, IsResultOf, StaticNamed, field_type};
ghost use Rattle.cjc_int_accepted.specs.Named.{handing, static_type};
ghost use Rattle.cjc_ncode.specs.IntCode.IntCode.{Before, Frame, written};
ghost use Rattle.cjc_types.specs.Bytecode.declared.insn.JOp.TheVariants as jop;
ghost use Rattle.cjc_types.specs.Bytes.declared.fault.MemberId.{MemberId};
ghost use Rattle.cjc_types.specs.World.Classes.{Class};
ghost use Rattle.cjc_verify.specs.CapRead.declared.tree.ClassRef.{ClassRef};
ghost use Rattle.cjc_verify.specs.CapRead.declared.tree.PoolEntry.TheVariants as entries;
ghost use Rattle.cjc_verify.specs.CardActs.CardTypes.{MemberType, ValueType, all_arrays, needs_of, needs_of_all};
ghost use Rattle.cjc_verify.specs.CardActs.CardTypes.{numbers_type, words as words_given};
ghost use Rattle.cjc_verify.specs.CardActs.Rows.{calculating, pushing};
ghost use Rattle.cjc_verify.specs.ClassTypes.{array_type, class_type};
ghost use Rattle.cjc_verify.specs.Instructions.{throwable};
ghost use Rattle.cjc_verify.specs.Named.{names_unmade};
ghost use Rattle.cjc_verify.specs.Pairs.{Pair};
ghost use Rattle.cjc_verify.specs.Script.Sorts.{Signature, signature_of};

/// What is written in int mode for a field has the acts of its row, by its entry of the constant pool: a value of one
/// word is cut before it is handed over, and widened where it comes back.
pub fn fields_are_written_with_their_acts()
    ensures constants { (p : Pair) (result : ValueType) (n : Naming) (to : ℕ → ℕ) (wide : ℕ → Bool) (f : Frame) (r :
        Resolution) (place : ℕ → ℕ) (b : Before) (here : ℕ) (x : MemberId) (z : ℤ) → r.constant x ≡ Some z →
        acts_laid p result n to wide here (written f r place b here (jop.Static false x)) ≡ pushing (ANumber ∷
        ANumber ∷ []) ∷ [] }
    ensures static_reads { (p : Pair) (result : ValueType) (n : Naming) (to : ℕ → ℕ) (wide : ℕ → Bool) (f : Frame)
        (r : Resolution) (place : ℕ → ℕ) (b : Before) (here : ℕ) (x : MemberId) → StaticNamed p n r x → acts_laid p
        result n to wide here (written f r place b here (jop.Static false x)) ≡ taking [] (words_given (static_type
        p n r x)) true [] ∷ widening (static_type p n r x) }
    ensures static_writes { (p : Pair) (result : ValueType) (n : Naming) (to : ℕ → ℕ) (wide : ℕ → Bool) (f : Frame)
        (r : Resolution) (place : ℕ → ℕ) (b : Before) (here : ℕ) (x : MemberId) → StaticNamed p n r x → acts_laid p
        result n to wide here (written f r place b here (jop.Static true x)) ≡ cutting (static_type p n r x) ++
        taking (needs_of (static_type p n r x)) [] true [] ∷ [] }
    ensures reads { (p : Pair) (result : ValueType) (n : Naming) (to : ℕ → ℕ) (wide : ℕ → Bool) (f : Frame) (r :
        Resolution) (place : ℕ → ℕ) (b : Before) (here : ℕ) (x : MemberId) (class : ClassRef) → FieldNamed p n r x
        class → acts_laid p result n to wide here (written f r place b here (jop.Field false x)) ≡ taking (OfType
        (class_type class) ∷ []) (words_given (field_type p n r x)) true [] ∷ widening (field_type p n r x) }
    ensures writes { (p : Pair) (result : ValueType) (n : Naming) (to : ℕ → ℕ) (wide : ℕ → Bool) (f : Frame) (r :
        Resolution) (place : ℕ → ℕ) (b : Before) (here : ℕ) (x : MemberId) (class : ClassRef) → FieldNamed p n r x
        class → acts_laid p result n to wide here (written f r place b here (jop.Field true x)) ≡ cutting
        (field_type p n r x) ++ taking (needs_of (field_type p n r x) ++ OfType (class_type class) ∷ []) [] true []
        ∷ [] }
{}

/// What is written for what makes and tests objects and arrays has the acts of its row, by the entries of the constant
/// pool.
pub fn objects_are_written_with_their_acts()
    ensures objects { (p : Pair) (result : ValueType) (n : Naming) (to : ℕ → ℕ) (wide : ℕ → Bool) (f : Frame) (r :
        Resolution) (place : ℕ → ℕ) (b : Before) (here : ℕ) (c : List ℕ) (class : ClassRef) → entry_for p n
        (keys.Class c) ≡ Some (entries.Classref class) → names_unmade p class ≡ false → acts_laid p result n to wide
        here (written f r place b here (jop.New c)) ≡ taking [] (AnObject (class_type class) ∷ []) true [] ∷ [] }
    ensures references { (p : Pair) (result : ValueType) (n : Naming) (to : ℕ → ℕ) (wide : ℕ → Bool) (f : Frame) (r
        : Resolution) (place : ℕ → ℕ) (b : Before) (here : ℕ) (c : List ℕ) (class : ClassRef) → entry_for p n
        (keys.Class c) ≡ Some (entries.Classref class) → acts_laid p result n to wide here (written f r place b here
        (jop.ANewArray c)) ≡ calculating 2 1 ∷ taking (NumberWord ∷ []) (AnObject (array_type class) ∷ []) true [] ∷
        [] }
    ensures numbers { (p : Pair) (result : ValueType) (n : Naming) (to : ℕ → ℕ) (wide : ℕ → Bool) (f : Frame) (r :
        Resolution) (place : ℕ → ℕ) (b : Before) (here : ℕ) (kind : ℕ) (type : List ℕ) → numbers_type
        (element_number kind) ≡ Some type → acts_laid p result n to wide here (written f r place b here
        (jop.NewArray kind)) ≡ calculating 2 1 ∷ taking (NumberWord ∷ []) (AnObject type ∷ []) true [] ∷ [] }
    ensures lengths { (p : Pair) (result : ValueType) (n : Naming) (to : ℕ → ℕ) (wide : ℕ → Bool) (f : Frame) (r :
        Resolution) (place : ℕ → ℕ) (b : Before) (here : ℕ) → acts_laid p result n to wide here (written f r place b
        here jop.ArrayLength) ≡ taking (OfArrays all_arrays ∷ []) (ANumber ∷ []) true [] ∷ calculating 1 2 ∷ [] }
    ensures throws { (p : Pair) (result : ValueType) (n : Naming) (to : ℕ → ℕ) (wide : ℕ → Bool) (f : Frame) (r :
        Resolution) (place : ℕ → ℕ) (b : Before) (here : ℕ) (type : List ℕ) → throwable p ≡ Some type → acts_laid p
        result n to wide here (written f r place b here jop.Throw) ≡ taking (OfType type ∷ []) [] false [] ∷ [] }
    ensures casts { (p : Pair) (result : ValueType) (n : Naming) (to : ℕ → ℕ) (wide : ℕ → Bool) (f : Frame) (r :
        Resolution) (place : ℕ → ℕ) (b : Before) (here : ℕ) (card_type : List ℕ → Option (List ℕ)) (is_of : Subtype)
        (w : List Class) (name : List ℕ) → TypeServed card_type is_of w p n r name → (type : List ℕ) → card_type
        name ≡ Some type → acts_laid p result n to wide here (written f r place b here (jop.CheckCast name)) ≡
        taking (ReferenceWord ∷ []) (AnObject type ∷ []) true [] ∷ [] }
    ensures tests { (p : Pair) (result : ValueType) (n : Naming) (to : ℕ → ℕ) (wide : ℕ → Bool) (f : Frame) (r :
        Resolution) (place : ℕ → ℕ) (b : Before) (here : ℕ) (card_type : List ℕ → Option (List ℕ)) (is_of : Subtype)
        (w : List Class) (name : List ℕ) → TypeServed card_type is_of w p n r name → acts_laid p result n to wide
        here (written f r place b here (jop.InstanceOf name)) ≡ taking (ReferenceWord ∷ []) (ANumber ∷ []) true [] ∷
        calculating 1 2 ∷ [] }
{}

/// What is written for a call hands its arguments over as they are, by a cut of the last one or by scratch pairs, has
/// the act of its method's entry, and widens a result of one word.
pub fn calls_are_written_with_their_acts()
    ensures { (p : Pair) (result : ValueType) (n : Naming) (to : ℕ → ℕ) (wide : ℕ → Bool) (f : Frame) (r :
        Resolution) (place : ℕ → ℕ) (b : Before) (here : ℕ) (op : ℕ) (m : MemberId) (s : Signature) (t : MemberType)
        (receiver : List Need) → signature_of m.desc ≡ Some s → AreSortsOf s.params t.params → IsResultOf s.result
        t.result → CallNamed p n r op m t receiver → acts_laid p result n to wide here (written f r place b here
        (jop.Call op m)) ≡ handing f s.params t.params ++ (taking (needs_of_all t.params ++ receiver) (words_given
        t.result) true [] ∷ widening t.result) }
{}
