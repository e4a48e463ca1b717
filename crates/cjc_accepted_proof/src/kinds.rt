//! Rows of fields, calls and handlers: what entries of the constant pool say of members is what the instructions of the
//! class file name.
ghost use Rattle.std.specs.Prelude.{◌≡◌, ℕ, List, Option, [], ◌==◌, false};
ghost use Rattle.cjc_types.specs.Bytes.declared.fault.MemberId.{MemberId};
ghost use Rattle.cjc_verify.specs.CapRead.declared.tree.ClassRef.{ClassRef};
ghost use Rattle.cjc_verify.specs.CardActs.CardTypes.{MemberType, ValueType};
ghost use Rattle.cjc_frames.specs.Acts.{Subtype};
ghost use Rattle.cjc_frames.specs.Flow.{caught};
ghost use Rattle.cjc_frames.specs.declared.acts.Catch.{Catch};
ghost use Rattle.cjc_types.specs.Bytecode.Jvm.{invokestatic};
ghost use Rattle.cjc_types.specs.Bytecode.declared.insn.JOp.TheVariants.{Call, Field};
ghost use Rattle.cjc_types.specs.ClassFile.declared.tree.Catch.{Catch as CatchByName};
ghost use Rattle.cjc_types.specs.Flow.{Body, caught as caught_by_name, caught_type};
ghost use Rattle.cjc_types.specs.Rules.{has_wrong, receiver_class};
ghost use Rattle.cjc_types.specs.States.{states};
ghost use Rattle.cjc_types.specs.Steps.{takes};
ghost use Rattle.cjc_types.specs.declared.cell.Cell.{Cell};
ghost use Rattle.cjc_types.specs.declared.state.State.{State};
ghost use Rattle.cjc_verify.specs.CardSemantics.Bytecode.Effects.{Letter};
ghost use Rattle.cjc_verify.specs.Narrow.Pairs.Open.{Open, closed};
ghost use Rattle.cjc_verify.specs.Instructions.{calling, calling_on, getting};
ghost use Rattle.cjc_types.specs.World.Classes.{Class};
ghost use Rattle.cjc_accepted_proof.specs.Frames.{FieldFits, IsCaughtAs, MethodFits, Mirrors, PassesFor, SubtypesAgree};
ghost use Rattle.cjc_accepted_proof.specs.Frames.{card_state};

/// A getfield is mirrored where its entry fits the field that it names.
pub fn field_reads_are_mirrored()
    ensures { (card_type : List ℕ → Option (List ℕ)) (is_of : Subtype) (w : List Class) → SubtypesAgree card_type
        is_of w → (b : Body)
        (f : MemberId) (letter : Letter) (class : ClassRef) (t : ValueType) → FieldFits card_type is_of w f letter
        class t
        → (locals s : List Cell) → has_wrong w b (Field false f) 1 0 s ≡ false
        → Mirrors card_type is_of (Field false f) (getting false letter class t) locals s }
{}

/// A call is mirrored where its entry fits the method that it names, and objects are of the class that it is called on.
pub fn calls_are_mirrored()
    ensures static_calls { (card_type : List ℕ → Option (List ℕ)) (is_of : Subtype) (w : List Class) → SubtypesAgree
        card_type is_of w
        → (b : Body) (m : MemberId) (t : MemberType) → MethodFits card_type m t → (locals s : List Cell)
        → has_wrong w b (Call invokestatic m) (takes (Call invokestatic m)) 0 s ≡ false
        → Mirrors card_type is_of (Call invokestatic m) (calling t [] false) locals s }
    ensures on_objects { (card_type : List ℕ → Option (List ℕ)) (is_of : Subtype) (w : List Class) → SubtypesAgree
        card_type is_of w
        → (b : Body) (opcode : ℕ) → (opcode == invokestatic) ≡ false → (m : MemberId) (t : MemberType) (type : List ℕ)
        → MethodFits card_type m t → PassesFor card_type is_of w (receiver_class w b opcode m) type → (locals s : List
        Cell)
        → has_wrong w b (Call opcode m) (takes (Call opcode m)) 0 s ≡ false
        → Mirrors card_type is_of (Call opcode m) (calling_on t type false) locals s }
{}

/// What an instruction hands to a handler lies below what it hands to the handler of the class file, where the one
/// catches the card's type of the class that the other catches, or any exception where that is java/lang/Object.
pub fn exceptions_are_mirrored()
    ensures { (card_type : List ℕ → Option (List ℕ)) (o : Open) (count : ℕ) (c : Catch) (j : CatchByName)
        → IsCaughtAs card_type c.caught (caught_type j.class) → (x : State)
        → (let s = states count in s.Below (caught c (card_state card_type o x)) (card_state card_type closed
        (caught_by_name j x))) }
{}
