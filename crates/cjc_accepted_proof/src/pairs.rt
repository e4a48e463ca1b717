//! Rows of pairs of an aload_0 and a field instruction that are written as one.
ghost use Rattle.std.specs.Prelude.{◌≡◌, ℕ, List, ◌∷◌, Option, Some, true, false, slice_get};
ghost use Rattle.cjc_types.specs.Bytes.declared.fault.MemberId.{MemberId};
ghost use Rattle.cjc_verify.specs.CapRead.declared.tree.ClassRef.{ClassRef};
ghost use Rattle.cjc_verify.specs.CardActs.CardTypes.{ValueType};
ghost use Rattle.cjc_frames.specs.Acts.{Subtype};
ghost use Rattle.cjc_frames.specs.declared.acts.Act.{Act};
ghost use Rattle.cjc_types.specs.Bytecode.declared.insn.JOp.{JOp};
ghost use Rattle.cjc_types.specs.Bytecode.declared.insn.JOp.TheVariants.{Field};
ghost use Rattle.cjc_types.specs.Flow.{Body};
ghost use Rattle.cjc_types.specs.Rules.{all_types, is_off};
ghost use Rattle.cjc_types.specs.Steps.{after};
ghost use Rattle.cjc_types.specs.declared.cell.Cell.{Cell};
ghost use Rattle.cjc_types.specs.declared.state.Stack.TheVariants.{Cells};
ghost use Rattle.cjc_verify.specs.CardSemantics.Bytecode.Effects.{Letter};
ghost use Rattle.cjc_verify.specs.Narrow.Pairs.Open.{Open, begun, closed};
ghost use Rattle.cjc_verify.specs.ClassTypes.{class_type};
ghost use Rattle.cjc_verify.specs.Instructions.{getting};
ghost use Rattle.cjc_types.specs.World.Classes.{Class};
ghost use Rattle.cjc_accepted_proof.specs.Frames.{FieldFits, MirrorsInPair, Stands, SubtypesAgree, card_cell};
ghost use Rattle.cjc_accepted_proof.specs.Frames.{card_state};

/// The row of an instruction stands where its act mirrors the instruction of the class file, with what is open before
/// and behind it.
pub fn rows_in_pairs_stand()
    ensures { (card_type : List ℕ → Option (List ℕ)) (is_of : Subtype) (w : List Class) (b : Body) (count : ℕ)
        (before behind : Open) (op : JOp) (a : Act) (locals s : List Cell)
        → MirrorsInPair card_type is_of before behind op a locals s → is_off b op locals s ≡ false
        → Stands is_of count b.max_stack a (card_state card_type before (record { stack = Cells s; locals = locals }))
        (card_state card_type behind (after op (record { stack = Cells s; locals = locals }))) }
{}

/// A getfield that closes a pair is mirrored where its entry fits the field that it names, and local 0 holds an object
/// of the class that declares it.
pub fn closing_reads_are_mirrored()
    ensures { (card_type : List ℕ → Option (List ℕ)) (is_of : Subtype) (w : List Class)
        → SubtypesAgree card_type is_of w → (f : MemberId) (letter : Letter) (class : ClassRef) (t : ValueType)
        → FieldFits card_type is_of w f letter class t → (locals s : List Cell) (this x : Cell)
        → slice_get locals 0 ≡ Some this
        → all_types (λ type. is_of type (class_type class)) (card_cell card_type this) ≡ true
        → MirrorsInPair card_type is_of begun closed (Field false f) (getting true letter class t) locals (x ∷ s) }
{}
