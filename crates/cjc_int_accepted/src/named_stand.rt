//! What is written in int mode for an instruction that names a field, a class or a type stands between its frames.
ghost use Rattle.std.specs.Prelude.{Bool, List, Option, Some, [], false, ℕ, ℤ, ◌∷◌, ◌≡◌};
ghost use Rattle.cjc_accepted_proof.specs.Elements.{ArraysAgree};
ghost use Rattle.cjc_accepted_proof.specs.Frames.{SubtypesAgree};
ghost use Rattle.cjc_accepted_proof.specs.Served.{TypeServed, entry_for};
ghost use Rattle.cjc_check_proof.specs.NCode.Lowering.Naming.{Naming};
ghost use Rattle.cjc_check_proof.specs.NCode.Written.{Resolution, element_number};
ghost use Rattle.cjc_check_proof.specs.NCode.declared.narrow.PoolKey.TheVariants as keys;
ghost use Rattle.cjc_frames.specs.Acts.{Subtype};
ghost use Rattle.cjc_int_accepted.specs.Frames.{Room};
ghost use Rattle.cjc_int_accepted.specs.Methods.{Selection};
ghost use Rattle.cjc_int_accepted.specs.Served.{FieldServed, StaticServed};
ghost use Rattle.cjc_int_accepted.specs.Standing.{IsStanding};
ghost use Rattle.cjc_ncode.specs.IntCode.IntCode.{Before, Frame};
ghost use Rattle.cjc_types.specs.Bytecode.declared.insn.JOp.TheVariants as jop;
ghost use Rattle.cjc_types.specs.Bytes.declared.fault.MemberId.{MemberId};
ghost use Rattle.cjc_types.specs.Flow.{Body};
ghost use Rattle.cjc_types.specs.Rules.{throwable as throwable_by_name};
ghost use Rattle.cjc_types.specs.Types.{array_of, letter, parts, result_of};
ghost use Rattle.cjc_types.specs.World.Classes.{Class};
ghost use Rattle.cjc_types.specs.declared.cell.Cell.TheVariants.{Number};
ghost use Rattle.cjc_types.specs.declared.state.State.{State};
ghost use Rattle.cjc_verify.specs.CapRead.declared.tree.ClassRef.{ClassRef};
ghost use Rattle.cjc_verify.specs.CapRead.declared.tree.PoolEntry.TheVariants as entries;
ghost use Rattle.cjc_verify.specs.CardActs.CardTypes.{ValueType, numbers_type};
ghost use Rattle.cjc_verify.specs.ClassTypes.{array_type, class_type};
ghost use Rattle.cjc_verify.specs.Instructions.{throwable};
ghost use Rattle.cjc_verify.specs.Named.{names_unmade};
ghost use Rattle.cjc_verify.specs.Pairs.{Pair};

/// What is written for a field that is read or written, and for a constant that is pushed in its place, stands between
/// its frames, where its entry is served.
pub fn fields_stand()
    ensures constants { (card_type : List ℕ → Option (List ℕ)) (is_of : Subtype) (m : Room) (new : Selection) (b : Body)
        (rows : List (Option State)) (label to : ℕ → ℕ) (p : Pair) (result : ValueType) (n : Naming) (wide : ℕ →
        Bool) (f : Frame) (r : Resolution) (known : Before) (w : List Class) (count place here o : ℕ) (x : State)
        (g : MemberId) (z : ℤ) → r.constant g ≡ Some z → (let d = parts g.desc in result_of d.result) ≡ Number ∷ []
        → IsStanding card_type is_of m new b rows label to p result n wide f r known w count place here o x (jop.Static
        false g) }
    ensures statics { (card_type : List ℕ → Option (List ℕ)) (is_of : Subtype) (m : Room) (new : Selection) (b : Body)
        (rows : List (Option State)) (label to : ℕ → ℕ) (p : Pair) (result : ValueType) (n : Naming) (wide : ℕ →
        Bool) (f : Frame) (r : Resolution) (known : Before) (w : List Class) (count place here o : ℕ) (x : State)
        → SubtypesAgree card_type is_of w → (g : MemberId) → StaticServed card_type is_of w p n r g → (put : Bool) →
        IsStanding card_type is_of m new b rows label to p result n wide f r known w count place here o x (jop.Static
        put g) }
    ensures fields { (card_type : List ℕ → Option (List ℕ)) (is_of : Subtype) (m : Room) (new : Selection) (b : Body)
        (rows : List (Option State)) (label to : ℕ → ℕ) (p : Pair) (result : ValueType) (n : Naming) (wide : ℕ →
        Bool) (f : Frame) (r : Resolution) (known : Before) (w : List Class) (count place here o : ℕ) (x : State)
        → SubtypesAgree card_type is_of w → (g : MemberId) → FieldServed card_type is_of w p n r g → (put : Bool) →
        IsStanding card_type is_of m new b rows label to p result n wide f r known w count place here o x (jop.Field
        put g) }
{}

/// So does what is written for what makes an object or an array.
pub fn makings_stand()
    ensures objects { (card_type : List ℕ → Option (List ℕ)) (is_of : Subtype) (m : Room) (new : Selection) (b : Body)
        (rows : List (Option State)) (label to : ℕ → ℕ) (p : Pair) (result : ValueType) (n : Naming) (wide : ℕ →
        Bool) (f : Frame) (r : Resolution) (known : Before) (w : List Class) (count place here o : ℕ) (x : State)
        (c : List ℕ) (class : ClassRef) → entry_for p n (keys.Class c) ≡ Some (entries.Classref class) → card_type c
        ≡ Some (class_type class) → names_unmade p class ≡ false → IsStanding card_type is_of m new b rows label to p
        result n wide f r known w count place here o x (jop.New c) }
    ensures arrays { (card_type : List ℕ → Option (List ℕ)) (is_of : Subtype) (m : Room) (new : Selection) (b : Body)
        (rows : List (Option State)) (label to : ℕ → ℕ) (p : Pair) (result : ValueType) (n : Naming) (wide : ℕ →
        Bool) (f : Frame) (r : Resolution) (known : Before) (w : List Class) (count place here o : ℕ) (x : State)
        (c : List ℕ) (class : ClassRef) → entry_for p n (keys.Class c) ≡ Some (entries.Classref class) → card_type
        (array_of c) ≡ Some (array_type class) → IsStanding card_type is_of m new b rows label to p result n wide f r
        known w count place here o x (jop.ANewArray c) }
    ensures numbers { (card_type : List ℕ → Option (List ℕ)) (is_of : Subtype) (m : Room) (new : Selection) (b : Body)
        (rows : List (Option State)) (label to : ℕ → ℕ) (p : Pair) (result : ValueType) (n : Naming) (wide : ℕ →
        Bool) (f : Frame) (r : Resolution) (known : Before) (w : List Class) (count place here o : ℕ) (x : State)
        (kind : ℕ) (type : List ℕ) → numbers_type (element_number kind) ≡ Some type → card_type (91 ∷ letter kind ∷
        []) ≡ Some type → IsStanding card_type is_of m new b rows label to p result n wide f r known w count place here
        o x (jop.NewArray kind) }
{}

/// So does what is written for checkcast, instanceof, arraylength and athrow.
pub fn tests_stand()
    ensures casts { (card_type : List ℕ → Option (List ℕ)) (is_of : Subtype) (m : Room) (new : Selection) (b : Body)
        (rows : List (Option State)) (label to : ℕ → ℕ) (p : Pair) (result : ValueType) (n : Naming) (wide : ℕ →
        Bool) (f : Frame) (r : Resolution) (known : Before) (w : List Class) (count place here o : ℕ) (x : State)
        (name : List ℕ) → TypeServed card_type is_of w p n r name → IsStanding card_type is_of m new b rows label to p
        result n wide f r known w count place here o x (jop.CheckCast name) }
    ensures asks { (card_type : List ℕ → Option (List ℕ)) (is_of : Subtype) (m : Room) (new : Selection) (b : Body)
        (rows : List (Option State)) (label to : ℕ → ℕ) (p : Pair) (result : ValueType) (n : Naming) (wide : ℕ →
        Bool) (f : Frame) (r : Resolution) (known : Before) (w : List Class) (count place here o : ℕ) (x : State)
        (name : List ℕ) → TypeServed card_type is_of w p n r name → IsStanding card_type is_of m new b rows label to p
        result n wide f r known w count place here o x (jop.InstanceOf name) }
    ensures lengths { (card_type : List ℕ → Option (List ℕ)) (is_of : Subtype) (m : Room) (new : Selection) (b : Body)
        (rows : List (Option State)) (label to : ℕ → ℕ) (p : Pair) (result : ValueType) (n : Naming) (wide : ℕ →
        Bool) (f : Frame) (r : Resolution) (known : Before) (w : List Class) (count place here o : ℕ) (x : State)
        → ArraysAgree card_type → IsStanding card_type is_of m new b rows label to p result n wide f r known w count
        place here o x jop.ArrayLength }
    ensures throws { (card_type : List ℕ → Option (List ℕ)) (is_of : Subtype) (m : Room) (new : Selection) (b : Body)
        (rows : List (Option State)) (label to : ℕ → ℕ) (p : Pair) (result : ValueType) (n : Naming) (wide : ℕ →
        Bool) (f : Frame) (r : Resolution) (known : Before) (w : List Class) (count place here o : ℕ) (x : State)
        → SubtypesAgree card_type is_of w → throwable p ≡ card_type throwable_by_name → IsStanding card_type is_of m
        new b rows label to p result n wide f r known w count place here o x jop.Throw }
{}
