//! Headers of methods in int mode: they have the words of their methods' types, and room for their frames.
ghost use Rattle.std.specs.Prelude.{List, Option, [], ℕ, ◌*◌, ◌+◌, ◌≡◌, ◌≤◌};
ghost use Rattle.cjc_int_accepted.specs.Entered.{AreShapes, IsEntered};
ghost use Rattle.cjc_int_accepted.specs.Headers.{IsReadInIntMode};
ghost use Rattle.cjc_int_accepted.specs.Runs.{most_words};
ghost use Rattle.cjc_int_accepted.specs.Selection.{room_of};
ghost use Rattle.cjc_int_mode.specs.Intervals.Frames.{RangeState};
ghost use Rattle.cjc_int_mode.specs.Room.{LacksRoom};
ghost use Rattle.cjc_int_mode.specs.Written.{argument_words, int_frame, local_words};
ghost use Rattle.cjc_int_mode.specs.declared.modes.Mode.TheVariants as modes;
ghost use Rattle.cjc_ncode.specs.Written.{Resolution};
ghost use Rattle.cjc_types.specs.ClassFile.Code.{CodeTree};
ghost use Rattle.cjc_types.specs.Flow.{Body as BodyByName};
ghost use Rattle.cjc_types.specs.declared.state.State.{State};
ghost use Rattle.cjc_verify.specs.Bodies.{Body, frames_of, type_of_body};
ghost use Rattle.cjc_verify.specs.ClassTypes.{class_type};
ghost use Rattle.cjc_verify.specs.Headers.{header_spots};
ghost use Rattle.cjc_verify.specs.Pairs.{Pair};

/// A method that has room in int mode has at most 255 words of arguments and locals, and of its operand stack.
pub fn methods_in_int_mode_have_few_words()
    ensures words { (b : BodyByName) (rows : List (Option State)) → (LacksRoom b rows modes.Int → ⊥)
        → argument_words b + local_words b rows ≤ 255 }
    ensures stack { (b : BodyByName) (rows : List (Option State)) → (LacksRoom b rows modes.Int → ⊥)
        → most_words b.max_stack ≤ 255 }
{}

/// The header that is written for a method in int mode has the words of the method's type, so it breaks no rule; the
/// type checker's frames have twice max_stack and four more words of the stack, and the words of the arguments, two for
/// each local and those of the scratch pairs; and the method is entered with the words of its arguments.
pub fn headers_in_int_mode_fit()
    ensures fits { (card_type : List ℕ → Option (List ℕ)) (shapes : AreShapes card_type) (q : Pair) (r : Resolution)
        (code : CodeTree) (b : BodyByName) (rows : List (Option State)) (ranges : List (Option RangeState)) (v : Body)
        → IsReadInIntMode card_type q r code b rows ranges v → header_spots q v ≡ [] }
    ensures stack { (card_type : List ℕ → Option (List ℕ)) (shapes : AreShapes card_type) (q : Pair) (r : Resolution)
        (code : CodeTree) (b : BodyByName) (rows : List (Option State)) (ranges : List (Option RangeState)) (v : Body)
        → IsReadInIntMode card_type q r code b rows ranges v
        → (let c = frames_of q v in c.max_stack) ≡ most_words b.max_stack }
    ensures locals { (card_type : List ℕ → Option (List ℕ)) (shapes : AreShapes card_type) (q : Pair) (r : Resolution)
        (code : CodeTree) (b : BodyByName) (rows : List (Option State)) (ranges : List (Option RangeState)) (v : Body)
        → IsReadInIntMode card_type q r code b rows ranges v → (let c = frames_of q v in c.local_count)
        ≡ (let m = room_of b rows ranges in m.arguments + 2 * b.max_locals + m.scratch) }
    ensures words { (card_type : List ℕ → Option (List ℕ)) (shapes : AreShapes card_type) (q : Pair) (r : Resolution)
        (code : CodeTree) (b : BodyByName) (rows : List (Option State)) (ranges : List (Option RangeState)) (v : Body)
        → IsReadInIntMode card_type q r code b rows ranges v → (let c = frames_of q v in c.local_count) ≤ 255 }
    ensures entered { (card_type : List ℕ → Option (List ℕ)) (shapes : AreShapes card_type) (q : Pair) (r : Resolution)
        (code : CodeTree) (b : BodyByName) (rows : List (Option State)) (ranges : List (Option RangeState)) (v : Body)
        → IsReadInIntMode card_type q r code b rows ranges v
        → IsEntered card_type (room_of b rows ranges) b (frames_of q v) (int_frame b) (class_type v.holder)
        (let t = type_of_body q.components v in t.params) }
{}
