//! What stands before the first instruction of a method in int mode: each argument goes to its local.
ghost use Rattle.std.specs.List.{AllZip};
ghost use Rattle.std.specs.Prelude.{List, Option, [], flat_map, length, ℕ, ◌*◌, ◌++◌, ◌+◌, ◌≡◌, ◌≤◌};
ghost use Rattle.cjc_frames.specs.Acts.{Breaks, Subtype};
ghost use Rattle.cjc_frames.specs.Flow.{Body, entry};
ghost use Rattle.cjc_frames.specs.declared.acts.Step.{Step};
ghost use Rattle.cjc_int_accepted.specs.Acts.{moving_all};
ghost use Rattle.cjc_int_accepted.specs.Arguments.{arguments_of, locals_of};
ghost use Rattle.cjc_int_accepted.specs.Frames.{Room, free, int_state, local_words};
ghost use Rattle.cjc_int_accepted.specs.Methods.{acts_of};
ghost use Rattle.cjc_int_accepted.specs.Runs.{Walks};
ghost use Rattle.cjc_int_accepted.specs.Stretches.{IsAlong, frame_through};
ghost use Rattle.cjc_int_accepted.specs.Types.{AreValues};
ghost use Rattle.cjc_types.specs.Cells.{IsCellBelow};
ghost use Rattle.cjc_types.specs.Flow.{Body as BodyByName, arguments as arguments_by_name, entry as entry_by_name};
ghost use Rattle.cjc_types.specs.States.{most_cells, states};
ghost use Rattle.cjc_types.specs.declared.cell.Cell.{Cell};
ghost use Rattle.cjc_types.specs.declared.state.State.{State};
ghost use Rattle.cjc_verify.specs.CardActs.CardTypes.{ValueType, words as words_given};

/// Each argument is loaded from its words and stored into the two of its local, widened where it has one, and the
/// arguments stay: from the frame of the entry, whose other words are free, all finds what it needs.
pub fn arguments_go_to_their_locals()
    ensures { (is_of : Subtype) (most n : ℕ) (room : 2 ≤ most) → (ts : List ValueType) → AreValues ts
        → (front ps rest : List Cell) (word first : ℕ) → word ≡ length front
        → first ≡ length (front ++ arguments_of ts) + length ps
        → length ((front ++ arguments_of ts) ++ (ps ++ (free (2 * length ts) ++ rest))) ≡ n
        → Walks is_of most (free n) (moving_all word first ts) ((front ++ arguments_of ts) ++ (ps ++ (free (2 * length
        ts) ++ rest))) [] ((front ++ arguments_of ts) ++ (ps ++ (locals_of ts ++ rest))) [] }
{}

/// So what stands before the first instruction breaks no rule, and leads from the entry to no more than the frame of
/// the class file's entry, where the words of the arguments and their types on the card are those of the class file.
pub fn entries_lead_to_the_first_instruction()
    ensures unbroken { (card_type : List ℕ → Option (List ℕ)) (is_of : Subtype) (m : Room) (b : BodyByName) (c :
        Body) (front : List Step) (ts : List ValueType) (some : AreValues ts) (low : c.max_stack ≤ most_cells) (room
        : 2 ≤ c.max_stack) (acts : acts_of front ≡ moving_all 0 m.arguments ts) (given_are : c.arguments ≡ flat_map
        words_given ts) (words : length (arguments_of ts) ≡ m.arguments) (count : c.local_count ≡ m.arguments + 2 *
        b.max_locals + m.scratch) (few : length ts ≤ b.max_locals) (as_many : length (arguments_by_name b) ≡ length
        ts) (below : AllZip IsCellBelow (locals_of ts) (local_words card_type (arguments_by_name b))) → (index : ℕ)
        (s : Step) (x : State) → IsAlong (record { steps = front; before = entry c }) index s x → (rule : ℕ) →
        Breaks is_of c.max_stack s.act x rule → ⊥ }
    ensures arrives { (card_type : List ℕ → Option (List ℕ)) (is_of : Subtype) (m : Room) (b : BodyByName) (c :
        Body) (front : List Step) (ts : List ValueType) (some : AreValues ts) (low : c.max_stack ≤ most_cells) (room
        : 2 ≤ c.max_stack) (acts : acts_of front ≡ moving_all 0 m.arguments ts) (given_are : c.arguments ≡ flat_map
        words_given ts) (words : length (arguments_of ts) ≡ m.arguments) (count : c.local_count ≡ m.arguments + 2 *
        b.max_locals + m.scratch) (few : length ts ≤ b.max_locals) (as_many : length (arguments_by_name b) ≡ length
        ts) (below : AllZip IsCellBelow (locals_of ts) (local_words card_type (arguments_by_name b))) → (let l =
        states c.local_count in l.Below (frame_through front (entry c)) (int_state card_type m (entry_by_name b))) }
{}
