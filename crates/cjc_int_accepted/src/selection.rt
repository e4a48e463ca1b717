//! The narrow code of a method in int mode is what the laws of its frames speak of: what brings the arguments to their
//! locals, and behind it what is written for each reached instruction, at the label of its offset.
ghost use Rattle.std.specs.Prelude.{◌≡◌, ◌+◌, ◌-◌, ◌*◌, ◌++◌, ◌<◌, ◌≤◌, ℕ, List, Option, Some, length, slice_get, true};
ghost use Rattle.std.specs.List.{Contains};
ghost use Rattle.cjc_types.specs.Bytecode.declared.insn.JInsn.{JInsn};
ghost use Rattle.cjc_types.specs.Bytecode.declared.method_code.MethodCode.{MethodCode};
ghost use Rattle.cjc_types.specs.Bytes.declared.fault.MemberId.{MemberId};
ghost use Rattle.cjc_types.specs.ClassFile.Code.{CodeTree};
ghost use Rattle.cjc_types.specs.ClassFile.declared.tree.Catch.{Catch};
ghost use Rattle.cjc_types.specs.ClassFile.declared.tree.ClassTree.{ClassTree};
ghost use Rattle.cjc_types.specs.ClassFile.declared.tree.MethodTree.{MethodTree};
ghost use Rattle.cjc_types.specs.Fixpoint.Tables.{HasRow, IsClosed};
ghost use Rattle.cjc_types.specs.Flow.{Body, body_of, covers, type_flow};
ghost use Rattle.cjc_types.specs.World.Classes.{Class};
ghost use Rattle.cjc_types.specs.Tables.{Breach, IsMethodOf};
ghost use Rattle.cjc_types.specs.World.Files.{Files};
ghost use Rattle.cjc_types.specs.States.{most_cells};
ghost use Rattle.cjc_types.specs.declared.cell.Cell.{Cell};
ghost use Rattle.cjc_types.specs.declared.cell.Cell.TheVariants.{Unusable};
ghost use Rattle.cjc_types.specs.declared.state.Stack.TheVariants.{Cells};
ghost use Rattle.cjc_types.specs.declared.state.State.{State};
ghost use Rattle.cjc_check_proof.specs.JvmSemantics.OnePackage.{method_at, method_by};
ghost use Rattle.cjc_check_proof.specs.NarrowProof.Selected.Keeps.{FindsItself};
ghost use Rattle.cjc_check_proof.specs.NarrowProof.Tables.Analysis.{Ascend, IsDecoded};
ghost use Rattle.cjc_verify.specs.Components.Package.{LaidMethod};
ghost use Rattle.cjc_verify.specs.Narrow.Rows.Resolved.{resolution};
ghost use Rattle.cjc_int_components.specs.Modes.{Tables};
ghost use Rattle.cjc_int_components.specs.Written.{IsWrittenByMode};
ghost use Rattle.cjc_int_mode.specs.declared.modes.Mode.TheVariants as modes;
ghost use Rattle.cjc_intervals.specs.Frames.{RangeState};
ghost use Rattle.cjc_ncode.specs.Written.{Resolution, catches_at};
ghost use Rattle.cjc_ncode.specs.declared.narrow.NInsn.{NInsn};
ghost use Rattle.cjc_ncode.specs.IntCode.IntCode.{scratch_pairs_of};
ghost use Rattle.cjc_int_mode.specs.Room.{IsRoom};
ghost use Rattle.cjc_int_mode.specs.Written.{written_in_int_mode};
ghost use Rattle.cjc_frames.specs.Acts.{Subtype};
ghost use Rattle.cjc_frames.specs.Flow.{Body as CardBody};
ghost use Rattle.cjc_frames.specs.declared.acts.Step.{Step};
ghost use Rattle.cjc_accepted_proof.specs.Frames.{AreFew};
ghost use Rattle.cjc_accepted_proof.specs.Methods.{steps_from};
ghost use Rattle.cjc_int_accepted.specs.Frames.{Room};
ghost use Rattle.cjc_int_accepted.specs.Methods.{AreLabelled, IsWrittenInIntMode, stretches_from};
ghost use Rattle.cjc_int_accepted.specs.Reached.{IsRight};
ghost use Rattle.cjc_int_accepted.specs.Runs.{most_words};
ghost use Rattle.cjc_int_accepted.specs.Selection.{IsLaid, RowsStand, front_of, label_in, room_of, selected};
ghost use Rattle.cjc_int_accepted.specs.Stretches.{steps_in};

/// The steps of the narrow code that is written for a method in int mode are those of the selection by its tables, each
/// stretch at the label of its offset where offsets ascend, and a step stands where its label does.
pub fn int_code_is_selected()
    ensures steps { (card_type : List ℕ → Option (List ℕ)) (m : Room) (r : Resolution) (code : CodeTree) (b : Body)
        (types : List (Option State)) (ranges : List (Option RangeState)) (step : (label : ℕ) → NInsn → Step)
        → (let written = written_in_int_mode r code b types ranges in let front = front_of r b types ranges step in
        steps_from step 0 written.insns ≡ front ++ steps_in (stretches_from card_type m (selected r b types ranges step)
        0 (length front) b.insns types)) }
    ensures labels { (card_type : List ℕ → Option (List ℕ)) (m : Room) (r : Resolution) (b : Body)
        (types : List (Option State)) (ranges : List (Option RangeState)) (step : (label : ℕ) → NInsn → Step)
        → Ascend b.insns → AreLabelled card_type m (selected r b types ranges step) (label_in r b types ranges) 0
        (length (front_of r b types ranges step)) b.insns types }
    ensures places { (step : (label : ℕ) → NInsn → Step) (to : ℕ → ℕ) (insns : List NInsn) → ((k : ℕ) (i : NInsn)
        → (let s = step k i in s.at) ≡ to k) → (k : ℕ) (s : Step) → slice_get (steps_from step 0 insns) k ≡ Some s
        → s.at ≡ to k }
{}

/// Where steps stand at offsets that ascend, a handler of the class file covers an instruction where the labels of its
/// range hold a step that is written for the instruction, and what stands before the first stands before every label of
/// an offset.
pub fn handlers_cover_as_in_class_files()
    ensures front { (r : Resolution) (code : CodeTree) (b : Body) (types : List (Option State))
        (ranges : List (Option RangeState)) (step : (label : ℕ) → NInsn → Step) (to : ℕ → ℕ) → ((k : ℕ) (i : NInsn)
        → (let s = step k i in s.at) ≡ to k) → ((j k : ℕ) → j < k → k ≤ (let written = written_in_int_mode r code b
        types ranges in length written.insns) → to j < to k) → (s : Step) → Contains (front_of r b types ranges step) s
        → (offset : ℕ) → s.at < to (label_in r b types ranges offset) }
    ensures covered { (r : Resolution) (code : CodeTree) (b : Body) (types : List (Option State))
        (ranges : List (Option RangeState)) (step : (label : ℕ) → NInsn → Step) (to : ℕ → ℕ) → ((k : ℕ) (i : NInsn)
        → (let s = step k i in s.at) ≡ to k) → ((j k : ℕ) → j < k → k ≤ (let written = written_in_int_mode r code b
        types ranges in length written.insns) → to j < to k) → (at : ℕ) (i : JInsn) (x : State) → slice_get b.insns at
        ≡ Some i → HasRow types at x → (s : Step) → (let label = label_in r b types ranges in Contains (selected r b
        types ranges step at (label i.at) i x) s → (d : Catch) → to (label d.start) ≤ s.at → s.at < to (label d.start)
        + (to (label d.end) - to (label d.start)) → covers d i.at ≡ true) }
{}

/// So is the code that Method has of a method in int mode, and its handlers are at the labels of their offsets.
pub fn laid_int_code_is_selected()
    ensures steps { (files : Files) (code : MethodCode) (class : ClassTree) (method : MethodTree) (tree : CodeTree)
        → IsMethodOf files code class method tree → (near : List MemberId) (t : Tables) (m : LaidMethod)
        → IsWrittenByMode files near t m → method_at files m.member ≡ Some (method_by class method (Some tree))
        → t.mode (method_by class method (Some tree)) ≡ modes.Int → FindsItself files class method
        → (card_type : List ℕ → Option (List ℕ)) (room : Room) (step : (label : ℕ) → NInsn → Step)
        → (let x = method_by class method (Some tree) in let r = resolution files near class.name in let b = body_of
        class method tree code.insns in let laid = m.code in let front = front_of r b (t.types x) (t.ranges x) step in
        steps_from step 0 laid.insns ≡ front ++ steps_in (stretches_from card_type room (selected r b (t.types x)
        (t.ranges x) step) 0 (length front) b.insns (t.types x))) }
    ensures catches { (files : Files) (code : MethodCode) (class : ClassTree) (method : MethodTree) (tree : CodeTree)
        → IsMethodOf files code class method tree → (near : List MemberId) (t : Tables) (m : LaidMethod)
        → IsWrittenByMode files near t m → method_at files m.member ≡ Some (method_by class method (Some tree))
        → t.mode (method_by class method (Some tree)) ≡ modes.Int → FindsItself files class method
        → (let x = method_by class method (Some tree) in let r = resolution files near class.name in let b = body_of
        class method tree code.insns in let laid = m.code in laid.catches ≡ catches_at (label_in r b (t.types x)
        (t.ranges x)) tree.catches) }
{}

/// The words that Method says of a method in int mode are those of its frames: twice max_stack and four more for the
/// stack, and those of arguments, locals and scratch pairs, of which there are as many as each call needs.
pub fn laid_int_code_has_its_words()
    ensures pairs { (b : Body) (types : List (Option State)) (ranges : List (Option RangeState)) → (at : ℕ) (i : JInsn)
        (x : State) → slice_get b.insns at ≡ Some i → HasRow types at x → (let room = room_of b types ranges in 2
        * scratch_pairs_of i.op ≤ room.scratch) }
    ensures stack { (files : Files) (code : MethodCode) (class : ClassTree) (method : MethodTree) (tree : CodeTree)
        → IsMethodOf files code class method tree → (near : List MemberId) (t : Tables) (m : LaidMethod)
        → IsWrittenByMode files near t m → method_at files m.member ≡ Some (method_by class method (Some tree))
        → t.mode (method_by class method (Some tree)) ≡ modes.Int → FindsItself files class method
        → (let laid = m.code in laid.max_stack) ≡ most_words tree.max_stack }
    ensures frame { (files : Files) (code : MethodCode) (class : ClassTree) (method : MethodTree) (tree : CodeTree)
        → IsMethodOf files code class method tree → (near : List MemberId) (t : Tables) (m : LaidMethod)
        → IsWrittenByMode files near t m → method_at files m.member ≡ Some (method_by class method (Some tree))
        → t.mode (method_by class method (Some tree)) ≡ modes.Int → FindsItself files class method
        → (let x = method_by class method (Some tree) in let b = body_of class method tree code.insns in let room =
        room_of b (t.types x) (t.ranges x) in let laid = m.code in laid.nargs + laid.max_locals ≡ room.arguments + 2
        * b.max_locals + room.scratch) }
{}

/// A method with room for int mode has a stack of the card that is low enough, and uses no cell of which nothing is
/// known.
pub fn methods_in_int_mode_have_room()
    ensures low { (b : Body) (types : List (Option State)) → IsRoom b types modes.Int true → most_words b.max_stack
        ≤ most_cells }
    ensures usable { (b : Body) (types : List (Option State)) → IsRoom b types modes.Int true → (at : ℕ) (x : State)
        → HasRow types at x → (s : List Cell) → x.stack ≡ Cells s → (k : ℕ) → slice_get s k ≡ Some Unusable → ⊥ }
{}

/// A method of the card that reads the narrow code of a method in int mode is written for it, where its rows stand.
pub fn laid_int_code_is_written_in_int_mode()
    ensures { (card_type : List ℕ → Option (List ℕ)) (is_of : Subtype) (r : Resolution) (b : Body)
        (types : List (Option State)) (ranges : List (Option RangeState)) (step : (label : ℕ) → NInsn → Step) (to : ℕ
        → ℕ) (c : CardBody) (code : CodeTree) → AreFew card_type → 0 < length b.insns → (w : List Class) → IsDecoded b
        → IsClosed (type_flow b) (length b.insns) types → ((place rule : ℕ) → Breach w b types place rule → ⊥)
        → IsRoom b types modes.Int true → code.max_stack ≡ b.max_stack → IsLaid r b types ranges step to c
        code → RowsStand r b types ranges step to c card_type is_of → IsWrittenInIntMode card_type is_of (room_of b
        types ranges) (selected r b types ranges step) b types (label_in r b types ranges) to c (front_of r b types
        ranges step) }
{}

/// Before a reached instruction of a method with room for int mode, whose table breaks no rule, is a stack of cells
/// with the operands that it takes, and where another may follow no cell behind it is unusable.
pub fn reached_instructions_are_right()
    ensures { (w : List Class) (b : Body) (rows : List (Option State)) → IsDecoded b → IsClosed (type_flow b) (length
        b.insns) rows → ((place rule : ℕ) → Breach w b rows place rule → ⊥) → IsRoom b rows modes.Int true → (at : ℕ)
        (i : JInsn) (x : State) → slice_get b.insns at ≡ Some i → HasRow rows at x → IsRight w b i.op x }
{}
