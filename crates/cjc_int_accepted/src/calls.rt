//! Rows of calls in int mode: arguments are cut before the call, and its result is widened behind it.
ghost use Rattle.std.specs.List.{AllZip};
ghost use Rattle.std.specs.Prelude.{List, Option, [], drop, false, length, true, ℕ, ◌*◌, ◌++◌, ◌+◌, ◌∷◌, ◌≡◌, ◌≤◌};
ghost use Rattle.cjc_accepted_proof.specs.Frames.{SubtypesAgree};
ghost use Rattle.cjc_frames.specs.Acts.{Subtype, has_wrong};
ghost use Rattle.cjc_frames.specs.declared.acts.Act.{Act};
ghost use Rattle.cjc_frames.specs.declared.acts.Need.{Need};
ghost use Rattle.cjc_int_accepted.specs.Acts.{cutting, putting_aside, taking, taking_back, widening};
ghost use Rattle.cjc_int_accepted.specs.Frames.{Room, frame_words, free, local_words, stack_words, words_of};
ghost use Rattle.cjc_int_accepted.specs.Runs.{IsOn, Runs, Walks, most_words};
ghost use Rattle.cjc_int_accepted.specs.Types.{AreArguments, IsTypedAs, NoneShort, arguments_on, cut_on, cut_words};
ghost use Rattle.cjc_int_accepted.specs.Types.{pairs_with, words_on};
ghost use Rattle.cjc_types.specs.Bytecode.declared.insn.JOp.{JOp};
ghost use Rattle.cjc_types.specs.Bytes.Descriptor.{Part};
ghost use Rattle.cjc_types.specs.Cells.{IsCellBelow};
ghost use Rattle.cjc_types.specs.Steps.{locals_after, stack_behind as behind_by_name};
ghost use Rattle.cjc_types.specs.Types.{result_of};
ghost use Rattle.cjc_types.specs.World.Classes.{Class};
ghost use Rattle.cjc_types.specs.declared.cell.Cell.{Cell};
ghost use Rattle.cjc_types.specs.declared.state.Stack.TheVariants.{Cells};
ghost use Rattle.cjc_verify.specs.CardActs.CardTypes.{ValueType, needs_of_all, words as words_given};

/// What is written for a call goes from the words of its frame to those of the frame behind it, however its
/// arguments were handed over.
pub fn calls_run_in_int_mode()
    ensures { (card_type : List ℕ → Option (List ℕ)) (is_of : Subtype) (w : List Class) (agree : SubtypesAgree
        card_type is_of w) (m : Room) (max_stack : ℕ) → (op : JOp) (ps : List Part) (ts : List ValueType) (xs : List
        Cell) (part : Part) (t : ValueType) (receiver : List Need) (handed : List Act) (ls ms s left : List Cell) →
        AreArguments card_type w ps ts xs → IsTypedAs card_type part.kind part.class t → IsOn max_stack op ls
        (arguments_on xs s) → behind_by_name op ls (arguments_on xs s) ≡ result_of part ++ left → locals_after op ls
        (Cells (arguments_on xs s)) ≡ ls → has_wrong is_of receiver (stack_words card_type s) ≡ false → length
        receiver ≤ length (stack_words card_type s) → drop (length receiver) (stack_words card_type s) ≡ stack_words
        card_type left → Walks is_of (most_words max_stack) (frame_words card_type m ls) handed (frame_words
        card_type m ls) (words_on card_type xs (stack_words card_type s)) ms (cut_on card_type ts xs (stack_words
        card_type s)) → AllZip IsCellBelow ms (frame_words card_type m ls) → length (cut_on card_type ts xs
        (stack_words card_type s)) ≤ (most_words max_stack) → length (stack_words card_type left) + 2 ≤ (most_words
        max_stack) → Runs card_type is_of m max_stack op (handed ++ (taking (needs_of_all ts ++ receiver)
        (words_given t) true [] ∷ widening t)) ls (arguments_on xs s) }
{}

/// Arguments none of which has one word are handed over as they are; where the last alone has one it is cut.
pub fn arguments_are_handed_over_in_int_mode()
    ensures whole { (card_type : List ℕ → Option (List ℕ)) (is_of : Subtype) (w : List Class) (agree : SubtypesAgree
        card_type is_of w) (m : Room) (max_stack : ℕ) → (ts : List ValueType) (ps : List Part) (xs : List Cell) →
        AreArguments card_type w ps ts xs → NoneShort ts → (ls s : List Cell) → Walks is_of (most_words max_stack)
        (frame_words card_type m ls) [] (frame_words card_type m ls) (words_on card_type xs s) (frame_words
        card_type m ls) (cut_on card_type ts xs s) }
    ensures last { (card_type : List ℕ → Option (List ℕ)) (is_of : Subtype) (w : List Class) (agree : SubtypesAgree
        card_type is_of w) (m : Room) (max_stack : ℕ) → (ts : List ValueType) (ps : List Part) (xs : List Cell) →
        AreArguments card_type w ps ts xs → NoneShort ts → (p : Part) (t : ValueType) (x : Cell) → AreArguments
        card_type w (p ∷ []) (t ∷ []) (x ∷ []) → (ls s : List Cell) → length (cut_on card_type ts xs s) + 2 ≤
        (most_words max_stack) → Walks is_of (most_words max_stack) (frame_words card_type m ls) (cutting t)
        (frame_words card_type m ls) (words_of card_type x ++ words_on card_type xs s) (frame_words card_type m ls)
        (cut_words card_type t x ++ cut_on card_type ts xs s) }
{}

/// Where another argument has one word, all are put aside into scratch pairs, the last first, and come back in
/// order, cut where they have one word; of the frame nothing else changes.
pub fn arguments_go_by_scratch_pairs()
    ensures walks { (card_type : List ℕ → Option (List ℕ)) (is_of : Subtype) (w : List Class) (agree : SubtypesAgree
        card_type is_of w) (m : Room) (max_stack : ℕ) → (ps : List Part) (ts : List ValueType) (xs : List Cell) →
        AreArguments card_type w ps ts xs → (ls : List Cell) (word : ℕ) → word ≡ m.arguments + 2 * length ls → 2 *
        length ts ≤ m.scratch → (s : List Cell) → length (words_on card_type xs s) + 1 ≤ most_words max_stack →
        Walks is_of (most_words max_stack) (frame_words card_type m ls) (putting_aside word ts ++ taking_back word
        ts) (frame_words card_type m ls) (words_on card_type xs s) ((free m.arguments ++ local_words card_type ls)
        ++ pairs_with card_type xs (free m.scratch)) (cut_on card_type ts xs s) }
    ensures frames { (card_type : List ℕ → Option (List ℕ)) (is_of : Subtype) (w : List Class) (agree :
        SubtypesAgree card_type is_of w) (m : Room) (max_stack : ℕ) → (ls xs : List Cell) → length (pairs_with
        card_type xs (free m.scratch)) ≡ m.scratch → AllZip IsCellBelow ((free m.arguments ++ local_words card_type
        ls) ++ pairs_with card_type xs (free m.scratch)) (frame_words card_type m ls) }
{}
