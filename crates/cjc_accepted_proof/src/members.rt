//! Rows of instructions that name members, and of returns: what entries of the constant pool and types say of members
//! is what the class file says.
ghost use Rattle.std.specs.Prelude.{◌≡◌, ◌==◌, ℕ, List, Option, [], ◌∷◌, Bool, true, false};
ghost use Rattle.cjc_types.specs.Bytes.declared.fault.MemberId.{MemberId};
ghost use Rattle.cjc_types.specs.Bytecode.Jvm.{invokestatic};
ghost use Rattle.cjc_types.specs.Bytecode.declared.insn.JOp.TheVariants.{Call, Field, Return, Static};
ghost use Rattle.cjc_types.specs.Flow.{Body};
ghost use Rattle.cjc_types.specs.Rules.{has_wrong, is_wrong_return, receiver_class};
ghost use Rattle.cjc_types.specs.Steps.{takes};
ghost use Rattle.cjc_types.specs.Types.{is_void, parts, result_of};
ghost use Rattle.cjc_types.specs.World.Classes.{Class};
ghost use Rattle.cjc_types.specs.declared.cell.Cell.{Cell};
ghost use Rattle.cjc_types.specs.declared.cell.Cell.TheVariants.{Number};
ghost use Rattle.cjc_verify.specs.CapRead.declared.tree.ClassRef.{ClassRef};
ghost use Rattle.cjc_verify.specs.CapRead.declared.tree.StaticRef.{StaticRef};
ghost use Rattle.cjc_verify.specs.CardActs.CardTypes.{MemberType, ValueType};
ghost use Rattle.cjc_verify.specs.CardActs.Rows.{pushing};
ghost use Rattle.cjc_verify.specs.CardSemantics.Bytecode.Effects.{Letter};
ghost use Rattle.cjc_frames.specs.Acts.{Subtype};
ghost use Rattle.cjc_frames.specs.declared.acts.Given.TheVariants.{ANumber};
ghost use Rattle.cjc_verify.specs.Instructions.{calling, calling_on, getting_static, putting, putting_static};
ghost use Rattle.cjc_verify.specs.Instructions.{returning};
ghost use Rattle.cjc_accepted_proof.specs.Frames.{FieldFits, IsTypeFor, MethodFits, Mirrors, PassesFor, SubtypesAgree};
ghost use Rattle.cjc_accepted_proof.specs.Members.{StaticFits, letter_of_return};

/// A putfield is mirrored where its entry fits the field that it names, which has a value.
pub fn field_writes_are_mirrored()
    ensures { (card_type : List ℕ → Option (List ℕ)) (is_of : Subtype) (w : List Class) → SubtypesAgree card_type
        is_of w → (b : Body) (f : MemberId) (letter : Letter) (class : ClassRef) (t : ValueType)
        → FieldFits card_type is_of w f letter class t
        → (let d = parts f.desc in let r = d.result in is_void r.kind) ≡ false
        → (locals s : List Cell) → has_wrong w b (Field true f) 2 0 s ≡ false
        → Mirrors card_type is_of (Field true f) (putting false letter class t) locals s }
{}

/// Static fields are mirrored where their entries fit the fields that are named; of a constant a number is put.
pub fn static_fields_are_mirrored()
    ensures reads { (card_type : List ℕ → Option (List ℕ)) (is_of : Subtype) (w : List Class) → SubtypesAgree card_type
        is_of w → (b : Body) (f : MemberId) (letter : Letter) (field : StaticRef) (t : ValueType)
        → StaticFits card_type f letter field t → (locals s : List Cell)
        → Mirrors card_type is_of (Static false f) (getting_static letter field t) locals s }
    ensures constants { (card_type : List ℕ → Option (List ℕ)) (is_of : Subtype) (w : List Class)
        → SubtypesAgree card_type is_of w → (b : Body) (f : MemberId)
        → (let d = parts f.desc in result_of d.result) ≡ Number ∷ [] → (locals s : List Cell)
        → Mirrors card_type is_of (Static false f) (pushing (ANumber ∷ [])) locals s }
    ensures writes { (card_type : List ℕ → Option (List ℕ)) (is_of : Subtype) (w : List Class) → SubtypesAgree card_type
        is_of w → (b : Body) (f : MemberId) (letter : Letter) (field : StaticRef) (t : ValueType)
        → StaticFits card_type f letter field t
        → (let d = parts f.desc in let r = d.result in is_void r.kind) ≡ false → (locals s : List Cell)
        → has_wrong w b (Static true f) 1 0 s ≡ false
        → Mirrors card_type is_of (Static true f) (putting_static letter field t) locals s }
{}

/// Calls that might misname their methods and do not are mirrored like others: by invokestatic, and on objects.
pub fn named_calls_are_mirrored()
    ensures static_calls { (card_type : List ℕ → Option (List ℕ)) (is_of : Subtype) (w : List Class)
        → SubtypesAgree card_type is_of w → (b : Body) (m : MemberId) (t : MemberType) (misnames : Bool)
        → misnames ≡ false → MethodFits card_type m t → (locals s : List Cell)
        → has_wrong w b (Call invokestatic m) (takes (Call invokestatic m)) 0 s ≡ false
        → Mirrors card_type is_of (Call invokestatic m) (calling t [] misnames) locals s }
    ensures on_objects { (card_type : List ℕ → Option (List ℕ)) (is_of : Subtype) (w : List Class)
        → SubtypesAgree card_type is_of w → (b : Body) (opcode : ℕ) → (opcode == invokestatic) ≡ false → (m : MemberId)
        (t : MemberType) (type : List ℕ) (misnames : Bool) → misnames ≡ false → MethodFits card_type m t
        → PassesFor card_type is_of w (receiver_class w b opcode m) type → (locals s : List Cell)
        → has_wrong w b (Call opcode m) (takes (Call opcode m)) 0 s ≡ false
        → Mirrors card_type is_of (Call opcode m) (calling_on t type misnames) locals s }
{}

/// A return that is right for the method's result is mirrored, where the card's type of the result is the descriptor's.
pub fn returns_are_mirrored()
    ensures { (card_type : List ℕ → Option (List ℕ)) (is_of : Subtype) (w : List Class) → SubtypesAgree card_type
        is_of w → (b : Body) (opcode : ℕ) (t : ValueType)
        → (let d = parts b.desc in let r = d.result in IsTypeFor card_type r.kind r.class t)
        → is_wrong_return b (Return opcode) ≡ false → (locals s : List Cell)
        → has_wrong w b (Return opcode) (takes (Return opcode)) 0 s ≡ false
        → Mirrors card_type is_of (Return opcode) (returning (letter_of_return opcode) t) locals s }
{}
