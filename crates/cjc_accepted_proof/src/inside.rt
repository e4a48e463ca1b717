//! Rows of instructions in pairs, and of those for which nothing is written.
ghost use Rattle.std.specs.Prelude.{◌≡◌, ℕ, List, Option, Some, [], ◌∷◌, true, false, slice_get};
ghost use Rattle.cjc_types.specs.Bytes.declared.fault.MemberId.{MemberId};
ghost use Rattle.cjc_types.specs.Bytecode.declared.insn.JOp.{JOp};
ghost use Rattle.cjc_types.specs.Bytecode.declared.insn.JOp.TheVariants.{Field, Load};
ghost use Rattle.cjc_types.specs.Flow.{Body};
ghost use Rattle.cjc_types.specs.Rules.{all_types, has_wrong, is_off};
ghost use Rattle.cjc_types.specs.States.{states};
ghost use Rattle.cjc_types.specs.Steps.{after, gives, takes};
ghost use Rattle.cjc_types.specs.Types.{is_void, parts};
ghost use Rattle.cjc_types.specs.World.Classes.{Class};
ghost use Rattle.cjc_types.specs.declared.cell.Cell.{Cell};
ghost use Rattle.cjc_types.specs.declared.state.Stack.TheVariants.{Cells};
ghost use Rattle.cjc_types.specs.declared.state.State.{State};
ghost use Rattle.cjc_verify.specs.Narrow.Pairs.Open.{Open, begun, closed, pushed};
ghost use Rattle.cjc_check_proof.specs.NarrowProof.Tables.Pairs.{IsSilent};
ghost use Rattle.cjc_verify.specs.CapRead.declared.tree.ClassRef.{ClassRef};
ghost use Rattle.cjc_verify.specs.CardActs.CardTypes.{ValueType};
ghost use Rattle.cjc_verify.specs.CardSemantics.Bytecode.Effects.{Letter};
ghost use Rattle.cjc_verify.specs.ClassTypes.{class_type};
ghost use Rattle.cjc_frames.specs.Acts.{Subtype, given};
ghost use Rattle.cjc_frames.specs.declared.acts.Act.{Act};
ghost use Rattle.cjc_frames.specs.declared.acts.Given.{Given};
ghost use Rattle.cjc_verify.specs.Instructions.{putting};
ghost use Rattle.cjc_accepted_proof.specs.Frames.{FieldFits, Mirrors, MirrorsInPair, SubtypesAgree, card_cell};
ghost use Rattle.cjc_accepted_proof.specs.Frames.{card_cells, card_state};

/// Where nothing is written the card's frame stays: for nop and i2s, whatever is open, and for the aload_0 that opens a
/// pair, whose reference is left out.
pub fn frames_stay_where_nothing_is_written()
    ensures silent { (card_type : List ℕ → Option (List ℕ)) (w : List Class) (b : Body) (count : ℕ) (o : Open)
        (op : JOp) → IsSilent op → (locals s : List Cell) → has_wrong w b op (takes op) 0 s ≡ false
        → is_off b op locals s ≡ false
        → (let x : State = record { stack = Cells s; locals = locals } in let t = states count
        in t.Below (card_state card_type o x) (card_state card_type o (after op x))) }
    ensures opening { (card_type : List ℕ → Option (List ℕ)) (count : ℕ) (locals s : List Cell)
        → (let x : State = record { stack = Cells s; locals = locals } in let t = states count
        in t.Below (card_state card_type closed x) (card_state card_type begun (after (Load true 0) x))) }
{}

/// What pushes one word is mirrored in a pair too, where the word is not one of the stack.
pub fn pushes_in_pairs_are_mirrored()
    ensures { (card_type : List ℕ → Option (List ℕ)) (is_of : Subtype) (op : JOp) (a : Act) (g : Given)
        (locals : List Cell) (x : Cell) (s : List Cell) → Mirrors card_type is_of op a locals (x ∷ s) → takes op ≡ 0
        → a.gives ≡ g ∷ [] → a.writes ≡ []
        → given (card_cells card_type locals) (card_cells card_type (x ∷ s)) g
        ≡ given (card_cells card_type locals) (card_cells card_type s) g → (c : Cell) → gives op locals (x ∷ s)
        ≡ c ∷ [] → MirrorsInPair card_type is_of begun pushed op a locals (x ∷ s) }
{}

/// A putfield that closes a pair is mirrored where its entry fits the field that it names, and local 0 holds an object
/// of the class that declares it.
pub fn closing_writes_are_mirrored()
    ensures { (card_type : List ℕ → Option (List ℕ)) (is_of : Subtype) (w : List Class)
        → SubtypesAgree card_type is_of w → (b : Body) (f : MemberId) (letter : Letter) (class : ClassRef)
        (t : ValueType) → FieldFits card_type is_of w f letter class t
        → (let d = parts f.desc in let r = d.result in is_void r.kind) ≡ false
        → (locals s : List Cell) (this v x : Cell) → slice_get locals 0 ≡ Some this
        → all_types (λ type. is_of type (class_type class)) (card_cell card_type this) ≡ true
        → has_wrong w b (Field true f) 2 0 (v ∷ x ∷ s) ≡ false
        → MirrorsInPair card_type is_of pushed closed (Field true f) (putting true letter class t) locals (v ∷ x ∷ s) }
{}
