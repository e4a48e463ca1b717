//! Methods of Method beside those of class files that they are written for.
ghost use Rattle.std.specs.Prelude.{◌≡◌, ◌++◌, ◌∷◌, ◌≤◌, [], Bool, List, Option, Some, false, flat_map};
ghost use Rattle.std.specs.Prelude.{if◌then◌else◌, length, map, slice_get, true, ℕ};
ghost use Rattle.std.specs.List.{AllZip, Contains};
ghost use Rattle.cjc_types.specs.Bytecode.declared.insn.JInsn.{JInsn};
ghost use Rattle.cjc_types.specs.Bytecode.declared.method_code.MethodCode.{MethodCode};
ghost use Rattle.cjc_types.specs.Bytes.AccessFlags.{is_static};
ghost use Rattle.cjc_types.specs.Bytes.Descriptor.{Part};
ghost use Rattle.cjc_types.specs.Cells.{IsCellBelow};
ghost use Rattle.cjc_types.specs.Fixpoint.Tables.{HasRow};
ghost use Rattle.cjc_types.specs.Flow.{Body as BodyByName, arguments, entry as entry_by_name};
ghost use Rattle.cjc_types.specs.States.{states};
ghost use Rattle.cjc_types.specs.Tables.{Breach, IsLeastTable};
ghost use Rattle.cjc_types.specs.Types.{value_of};
ghost use Rattle.cjc_types.specs.World.Classes.{Class};
ghost use Rattle.cjc_types.specs.declared.cell.Cell.{Cell};
ghost use Rattle.cjc_types.specs.declared.cell.Cell.TheVariants.{Refs};
ghost use Rattle.cjc_types.specs.declared.state.State.{State};
ghost use Rattle.cjc_check_proof.specs.Code.Codes.{laid_code};
ghost use Rattle.cjc_check_proof.specs.Code.Written.{AllWritable};
ghost use Rattle.cjc_check_proof.specs.NCode.Lowering.Placed.{HandlersStand, first};
ghost use Rattle.cjc_check_proof.specs.NCode.Written.{Resolution};
ghost use Rattle.cjc_check_proof.specs.NarrowProof.Tables.Analysis.{IsDecoded};
ghost use Rattle.cjc_check_proof.specs.NarrowProof.Tables.Pairs.{AreInPairs};
ghost use Rattle.cjc_check_proof.specs.TokenProof.Tables.Loading.{part};
ghost use Rattle.cjc_verify.specs.Bodies.{Body, catches, frames_of, step};
ghost use Rattle.cjc_verify.specs.CardActs.CardTypes.{ValueType, words};
ghost use Rattle.cjc_verify.specs.Components.Methods.{placed_at};
ghost use Rattle.cjc_verify.specs.Components.Names.{names};
ghost use Rattle.cjc_verify.specs.Components.Package.{LaidMethod, Package};
ghost use Rattle.cjc_verify.specs.Narrow.Pairs.Open.{Open, closed};
ghost use Rattle.cjc_verify.specs.Narrow.Pairs.Roles.{stores_this};
ghost use Rattle.cjc_frames.specs.Acts.{Subtype, given};
ghost use Rattle.cjc_frames.specs.Flow.{Body as Frames, covers, entry};
ghost use Rattle.cjc_frames.specs.declared.acts.Catch.{Catch};
ghost use Rattle.cjc_frames.specs.declared.acts.Given.TheVariants.{AnObject};
ghost use Rattle.cjc_frames.specs.declared.acts.Step.{Step};
ghost use Rattle.cjc_accepted_proof.specs.Accepted.{HasTable};
ghost use Rattle.cjc_accepted_proof.specs.Beside.{Beside, ConstantsAreNumbers, IsBeside, RowsStandAlone, body_by_name};
ghost use Rattle.cjc_accepted_proof.specs.Beside.{label_in, names_in, offset_in, opened_in, step_in};
ghost use Rattle.cjc_accepted_proof.specs.Checked.{CatchesAreNamed, IsChecked, IsServedAll};
ghost use Rattle.cjc_accepted_proof.specs.Coded.{card_type, is_of, label_at, step_of};
ghost use Rattle.cjc_accepted_proof.specs.Frames.{AreTypesFor, SubtypesAgree, card_cells, card_state};
ghost use Rattle.cjc_accepted_proof.specs.Methods.{IsHandlerFor, IsWrittenFor, RowStands, steps_for, steps_from};
ghost use Rattle.cjc_accepted_proof.specs.Written.{written_pair};

/// The code of a method of a class file that is written is decoded, and its instructions stand in the pairs that are
/// written as one.
pub fn methods_stand_in_pairs()
    ensures decoded { (p : Package) (m : Beside) (codes : List MethodCode) → IsBeside p m codes
        → IsDecoded (body_by_name m) }
    ensures pairs { (p : Package) (m : Beside) (codes : List MethodCode) → IsBeside p m codes
        → AreInPairs (names_in p m) (body_by_name m) m.rows (opened_in p m) }
{}

/// The row of each reached instruction stands, in a pair too, where those outside of pairs stand and what instructions
/// name is served: local 0 holds the receiver wherever a pair is open.
pub fn rows_of_methods_stand()
    ensures { (p : Package) (m : Beside) (codes : List MethodCode) → IsBeside p m codes → IsServedAll p m
        → (let tree = m.tree in length (arguments (body_by_name m)) ≤ tree.max_locals) → RowsStandAlone p m
        → (at : ℕ) (i : JInsn) (x : State) → (let code = m.code in slice_get code.insns at ≡ Some i)
        → HasRow m.rows at x
        → (let tree = m.tree in RowStands (card_type p) (is_of p) (names_in p m) (body_by_name m) m.rows
        (opened_in p m) (step_in p m) tree.max_locals tree.max_stack (offset_in p m) at (label_in p m i.at) i x) }
{}

/// A method of Method is written for the one of its class file, and has a closed table of frames that breaks no rule,
/// where the type checker reads of it what is laid and what the class file says, and its rows outside of pairs stand.
pub fn checked_methods_have_tables()
    ensures written { (p : Package) (m : Beside) (codes : List MethodCode) → IsBeside p m codes → (v : Body)
        → IsChecked p m v → RowsStandAlone p m
        → IsWrittenFor (card_type p) (is_of p) (names_in p m) (body_by_name m) m.rows (opened_in p m) (step_in p m)
        (frames_of (written_pair p) v) (offset_in p m) }
    ensures tables { (p : Package) (m : Beside) (codes : List MethodCode) → IsBeside p m codes → (v : Body)
        → IsChecked p m v → RowsStandAlone p m → HasTable p v }
{}

/// The instructions that are laid for a method, with what each takes and gives, are the steps of its labels.
pub fn instructions_are_laid()
    ensures { (p : Package) (result : ValueType) (offset : ℕ) (m : LaidMethod)
        → length m.wide ≡ (let code = m.code in length code.insns)
        → map (step (written_pair p) result) (let code = m.code in laid_code (names p) (label_at p offset m) (first
        (placed_at offset m)) code.insns m.wide)
        ≡ steps_from (step_of p result offset m) 0 (let code = m.code in code.insns) }
{}

/// Each handler of Method that covers what is written for an instruction is that of a handler of the class file which
/// covers the instruction, where each handler that is laid catches by its index the card's type of its class.
pub fn handlers_cover_alike()
    ensures { (p : Package) (m : Beside) (codes : List MethodCode) → IsBeside p m codes
        → AllWritable (names p) p.methods → HandlersStand (names p) (placed_at m.offset m.laid) (part p)
        → CatchesAreNamed p m → (at : ℕ) (i : JInsn) (x : State)
        → (let code = m.code in slice_get code.insns at ≡ Some i) → HasRow m.rows at x → (s : Step)
        → Contains (steps_for (card_type p) (is_of p) (names_in p m) (body_by_name m) m.rows (opened_in p m)
        (step_in p m) (label_in p m i.at) i) s → (c : Catch) → Contains (catches (written_pair p)) c
        → covers c s.at ≡ true → IsHandlerFor (card_type p) (is_of p) (names_in p m) (body_by_name m) m.rows
        (opened_in p m) (step_in p m) (offset_in p m) c i }
{}

/// The frame in which a method of the card is entered lies below the card's frame of the entry of the class file's,
/// where its locals are as many and its arguments are of the card's types of the class file's.
pub fn entries_lie_below()
    ensures frames { (card_type : List ℕ → Option (List ℕ)) (m : Frames) (b : BodyByName) → m.local_count ≡ b.max_locals
        → AllZip IsCellBelow (map (given [] []) m.arguments) (card_cells card_type (arguments b))
        → (let s = states m.local_count in s.Below (entry m) (card_state card_type closed (entry_by_name b))) }
    ensures arguments { (card_type : List ℕ → Option (List ℕ)) (is_of : Subtype) (w : List Class)
        → SubtypesAgree card_type is_of w → (static : Bool) (class holder : List ℕ) → card_type class ≡ Some holder
        → (ps : List Part) (ts : List ValueType) → AreTypesFor card_type ps ts
        → AllZip IsCellBelow (map (given [] []) ((if static then [] else AnObject holder ∷ []) ++ flat_map words ts))
        (card_cells card_type ((if static then [] else Refs (class ∷ []) ∷ []) ++ map value_of ps)) }
{}

/// In the least table of a method that is not static, breaks no rule and stores nothing into local 0 where it is
/// reached, local 0 holds no reference but one of the class that holds the method.
pub fn receivers_stay()
    ensures { (w : List Class) (r : Resolution) (b : BodyByName) (rows : List (Option State)) (opened : ℕ → Open)
        → ((place rule : ℕ) → Breach w b rows place rule → ⊥) → AreInPairs r b rows opened
        → ((at : ℕ) (i : JInsn) (x : State) → slice_get b.insns at ≡ Some i → HasRow rows at x
        → stores_this i.op ≡ false) → ConstantsAreNumbers r b rows → IsLeastTable b rows → is_static b.flags ≡ false
        → (at : ℕ) (x : State) (c : Cell) → HasRow rows at x → slice_get x.locals 0 ≡ Some c
        → IsCellBelow c (Refs (b.class ∷ [])) }
{}

/// A method without instructions, as an abstract one is, has such a table: the empty one.
pub fn methods_without_code_have_tables()
    ensures { (p : Package) (v : Body) → v.instructions ≡ [] → HasTable p v }
{}
