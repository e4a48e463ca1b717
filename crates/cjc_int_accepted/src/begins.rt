//! A method in int mode, where it is laid in a package, begins with its prologue.
ghost use Rattle.std.specs.Prelude.{List, Option, Some, length, slice_get, true, ℕ, ◌≡◌};
ghost use Rattle.std.specs.List.{AllByRecursion, Contains};
ghost use Rattle.cjc_accepted_proof.specs.Frames.{IsCaughtAs};
ghost use Rattle.cjc_check_proof.specs.NCode.Lowering.Laid.{class_index};
ghost use Rattle.cjc_check_proof.specs.NCode.declared.narrow.NCatch.{NCatch};
ghost use Rattle.cjc_frames.specs.Flow.{covers};
ghost use Rattle.cjc_frames.specs.declared.acts.Catch.{Catch};
ghost use Rattle.cjc_frames.specs.declared.acts.Step.{Step};
ghost use Rattle.cjc_types.specs.Bytecode.declared.insn.JInsn.{JInsn};
ghost use Rattle.cjc_types.specs.Fixpoint.Tables.{HasRow};
ghost use Rattle.cjc_accepted_proof.specs.Coded.{card_type, is_of, label_at, step_of};
ghost use Rattle.cjc_accepted_proof.specs.Frames.{type_named};
ghost use Rattle.cjc_accepted_proof.specs.Methods.{steps_from};
ghost use Rattle.cjc_accepted_proof.specs.Written.{written_pair};
ghost use Rattle.cjc_check_proof.specs.Code.Codes.{code_at};
ghost use Rattle.cjc_check_proof.specs.Code.Written.{AllWritable};
ghost use Rattle.cjc_check_proof.specs.NCode.Lowering.Placed.{HandlersStand};
ghost use Rattle.cjc_check_proof.specs.TokenProof.Tables.Loading.{components, part};
ghost use Rattle.cjc_int_accepted.specs.Entered.{AreShapes, BeginBehind};
ghost use Rattle.cjc_int_accepted.specs.Headers.{IsReadInIntMode};
ghost use Rattle.cjc_int_accepted.specs.Methods.{Begins, IsHandlerFor, Selection};
ghost use Rattle.cjc_int_accepted.specs.Selection.{IsLaid, label_in, room_of, selected};
ghost use Rattle.cjc_int_mode.specs.Intervals.Frames.{RangeState};
ghost use Rattle.cjc_int_mode.specs.Written.{int_frame, written_in_int_mode};
ghost use Rattle.cjc_ncode.specs.IntCode.IntCode.{prologue};
ghost use Rattle.cjc_ncode.specs.Written.{Resolution};
ghost use Rattle.cjc_types.specs.ClassFile.Code.{CodeTree};
ghost use Rattle.cjc_types.specs.Flow.{Body as BodyByName, caught_type as type_by_name};
ghost use Rattle.cjc_types.specs.World.Classes.{Class};
ghost use Rattle.cjc_types.specs.declared.state.State.{State};
ghost use Rattle.cjc_verify.specs.Bodies.{Body, catches, caught_type, frames_of, type_of_body};
ghost use Rattle.cjc_verify.specs.CapRead.declared.tree.ClassRef.{ClassRef};
ghost use Rattle.cjc_verify.specs.CardActs.CardTypes.{ValueType};
ghost use Rattle.cjc_verify.specs.Components.Methods.{placed_at};
ghost use Rattle.cjc_verify.specs.Components.Names.{names};
ghost use Rattle.cjc_verify.specs.Components.Package.{LaidMethod, Package};

/// No handler of a package covers the prologue of a method in int mode: those of other methods lie elsewhere, and each
/// of its own begins behind it. So what stands before the first instruction goes from the entry to the frame of the
/// class file's, where the type checker reads what is written for the method; and its steps and words are those of the
/// narrow code.
pub fn methods_in_int_mode_begin()
    ensures shapes { (w : List Class) (ref : List ℕ → ClassRef) → AreShapes (type_named w ref) }
    ensures handlers { (p : Package) (number offset : ℕ) (laid : LaidMethod)
        (is_laid : slice_get p.methods number ≡ Some laid) (can : AllWritable (names p) p.methods)
        (stand : HandlersStand (names p) (placed_at offset laid) (part p)) (r : Resolution) (code : CodeTree)
        (b : BodyByName) (rows : List (Option State)) (ranges : List (Option RangeState))
        → laid.code ≡ written_in_int_mode r code b rows ranges
        → BeginBehind (label_at p offset laid) (length (prologue (int_frame b))) (catches (written_pair p)) }
    ensures begins { (p : Package) (number offset : ℕ) (laid : LaidMethod)
        (is_laid : slice_get p.methods number ≡ Some laid) (can : AllWritable (names p) p.methods)
        (stand : HandlersStand (names p) (placed_at offset laid) (part p)) (r : Resolution) (code : CodeTree)
        (b : BodyByName) (rows : List (Option State)) (ranges : List (Option RangeState))
        → laid.code ≡ written_in_int_mode r code b rows ranges → (result : ValueType) (new : Selection) (label : ℕ → ℕ)
        (v : Body) → IsReadInIntMode (card_type p) (written_pair p) r code b rows ranges v
        → Begins (card_type p) (is_of p) (room_of b rows ranges) new b rows label (label_at p offset laid)
        (frames_of (written_pair p) v) (steps_from (step_of p result offset laid) 0 (prologue (int_frame b))) }
    ensures laid { (p : Package) (number offset : ℕ) (laid : LaidMethod)
        (is_laid : slice_get p.methods number ≡ Some laid) (can : AllWritable (names p) p.methods)
        (stand : HandlersStand (names p) (placed_at offset laid) (part p)) (r : Resolution) (code : CodeTree)
        (b : BodyByName) (rows : List (Option State)) (ranges : List (Option RangeState))
        → laid.code ≡ written_in_int_mode r code b rows ranges → (result : ValueType) (v : Body)
        → v.instructions ≡ (let c = code_at (names p) offset laid in c.instructions)
        → (let t = type_of_body (components p) v in t.result) ≡ result
        → IsReadInIntMode (card_type p) (written_pair p) r code b rows ranges v
        → IsLaid r b rows ranges (step_of p result offset laid) (label_at p offset laid) (frames_of (written_pair p) v)
        code }
{}

/// A handler of the package that covers an instruction of what is written for one of the class file, where each handler
/// of the method catches by its index the card's type of its class, is that of a handler of the class file which covers
/// it.
pub fn handlers_in_int_mode_are_those_of_class_files()
    ensures { (p : Package) (number offset : ℕ) (laid : LaidMethod)
        (is_laid : slice_get p.methods number ≡ Some laid) (can : AllWritable (names p) p.methods)
        (stand : HandlersStand (names p) (placed_at offset laid) (part p)) (r : Resolution) (code : CodeTree)
        (b : BodyByName) (rows : List (Option State)) (ranges : List (Option RangeState))
        → laid.code ≡ written_in_int_mode r code b rows ranges → b.catches ≡ code.catches
        → AllByRecursion (λ (c : NCatch). IsCaughtAs (card_type p) (caught_type (written_pair p) (class_index (names p)
        c.class)) (type_by_name c.class)) (let l = laid.code in l.catches) → (result : ValueType) (place : ℕ)
        (i : JInsn) (x : State) → slice_get b.insns place ≡ Some i → HasRow rows place x → (s : Step)
        → Contains (selected r b rows ranges (step_of p result offset laid) place (label_in r b rows ranges i.at) i x) s
        → (h : Catch) → Contains (catches (written_pair p)) h → covers h s.at ≡ true
        → IsHandlerFor (card_type p) (is_of p) (room_of b rows ranges) (selected r b rows ranges (step_of p result
        offset laid)) b rows (label_in r b rows ranges) (label_at p offset laid) h i }
{}
