//! Rows of instructions on objects and arrays: what they make, test, load and store is of the card's types of what the
//! class file names.
ghost use Rattle.std.specs.Prelude.{◌≡◌, ℕ, List, Option, Some, [], ◌∷◌, Bool, false};
ghost use Rattle.cjc_verify.specs.CardActs.CardTypes.{all_arrays};
ghost use Rattle.cjc_verify.specs.CardActs.Rows.{idle, loading_item, storing_item};
ghost use Rattle.cjc_verify.specs.CardSemantics.Bytecode.Effects.{Byte, Reference, Short};
ghost use Rattle.cjc_frames.specs.Acts.{Subtype};
ghost use Rattle.cjc_frames.specs.declared.acts.Given.TheVariants.{ANumber, AnObject};
ghost use Rattle.cjc_frames.specs.declared.acts.Need.TheVariants.{NumberWord, OfArrays};
ghost use Rattle.cjc_verify.specs.Instructions.{asking, casting, exception_needs, last, making_numbers};
ghost use Rattle.cjc_types.specs.Bytecode.Jvm.{aaload, aastore, baload, bastore, saload, sastore};
ghost use Rattle.cjc_types.specs.Bytecode.declared.insn.JOp.TheVariants.{ANewArray, ArrayLength, ArrayLoad};
ghost use Rattle.cjc_types.specs.Bytecode.declared.insn.JOp.TheVariants.{ArrayStore};
ghost use Rattle.cjc_types.specs.Bytecode.declared.insn.JOp.TheVariants.{CheckCast, InstanceOf, New, NewArray, Throw};
ghost use Rattle.cjc_types.specs.Flow.{Body};
ghost use Rattle.cjc_types.specs.Rules.{has_wrong, throwable};
ghost use Rattle.cjc_types.specs.Types.{array_of, letter};
ghost use Rattle.cjc_types.specs.declared.cell.Cell.{Cell};
ghost use Rattle.cjc_types.specs.World.Classes.{Class};
ghost use Rattle.cjc_accepted_proof.specs.Elements.{ArraysAgree};
ghost use Rattle.cjc_accepted_proof.specs.Frames.{Mirrors, SubtypesAgree};

/// What makes objects and arrays is mirrored, where the card has the type of what is made.
pub fn makings_are_mirrored()
    ensures objects { (card_type : List ℕ → Option (List ℕ)) (is_of : Subtype) (w : List Class) (b : Body)
        (class type : List ℕ) → card_type class ≡ Some type → (misnames : Bool) → misnames ≡ false
        → (locals s : List Cell) → Mirrors card_type is_of (New class) (record idle {
          gives = AnObject type ∷ [];
          misnames = misnames;
        }) locals s }
    ensures numbers { (card_type : List ℕ → Option (List ℕ)) (is_of : Subtype) (w : List Class) (b : Body) (number : ℕ)
        (type : List ℕ) → card_type (91 ∷ letter number ∷ []) ≡ Some type → (locals s : List Cell)
        → has_wrong w b (NewArray number) 1 0 s ≡ false
        → Mirrors card_type is_of (NewArray number) (making_numbers (Some type)) locals s }
    ensures references { (card_type : List ℕ → Option (List ℕ)) (is_of : Subtype) (w : List Class) (b : Body)
        (class type : List ℕ) → card_type (array_of class) ≡ Some type → (locals s : List Cell)
        → has_wrong w b (ANewArray class) 1 0 s ≡ false → Mirrors card_type is_of (ANewArray class) (record idle {
          takes = NumberWord ∷ [];
          gives = AnObject type ∷ [];
        }) locals s }
{}

/// checkcast and instanceof are mirrored, where the card has the type.
pub fn tests_are_mirrored()
    ensures casts { (card_type : List ℕ → Option (List ℕ)) (is_of : Subtype) (w : List Class) (b : Body)
        (class type : List ℕ) → card_type class ≡ Some type → (locals s : List Cell)
        → has_wrong w b (CheckCast class) 1 0 s ≡ false
        → Mirrors card_type is_of (CheckCast class) (casting (Some type)) locals s }
    ensures asks { (card_type : List ℕ → Option (List ℕ)) (is_of : Subtype) (w : List Class) (b : Body)
        (class type : List ℕ) (locals s : List Cell) → has_wrong w b (InstanceOf class) 1 0 s ≡ false
        → Mirrors card_type is_of (InstanceOf class) (asking (Some type)) locals s }
{}

/// athrow is mirrored, where what the card asks of exceptions is its type of java/lang/Throwable.
pub fn throws_are_mirrored()
    ensures { (card_type : List ℕ → Option (List ℕ)) (is_of : Subtype) (w : List Class) (b : Body)
        → SubtypesAgree card_type is_of w → (o : Option (List ℕ)) → o ≡ card_type throwable → (locals s : List Cell)
        → has_wrong w b Throw 1 0 s ≡ false → Mirrors card_type is_of Throw (last (exception_needs o)) locals s }
{}

/// arraylength, and loads and stores of elements of references, of byte or boolean and of short, are mirrored, where
/// the card's types of arrays say what the arrays by name are.
pub fn elements_are_mirrored()
    ensures lengths { (card_type : List ℕ → Option (List ℕ)) (is_of : Subtype) (w : List Class) (b : Body)
        → ArraysAgree card_type → (locals s : List Cell) → has_wrong w b ArrayLength 1 0 s ≡ false
        → Mirrors card_type is_of ArrayLength (record idle {
          takes = OfArrays all_arrays ∷ [];
          gives = ANumber ∷ [];
        }) locals s }
    ensures loads_references { (card_type : List ℕ → Option (List ℕ)) (is_of : Subtype) (w : List Class) (b : Body)
        → ArraysAgree card_type → (locals s : List Cell) → has_wrong w b (ArrayLoad aaload) 2 0 s ≡ false
        → Mirrors card_type is_of (ArrayLoad aaload) (loading_item Reference) locals s }
    ensures loads_bytes { (card_type : List ℕ → Option (List ℕ)) (is_of : Subtype) (w : List Class) (b : Body)
        → ArraysAgree card_type → (locals s : List Cell) → has_wrong w b (ArrayLoad baload) 2 0 s ≡ false
        → Mirrors card_type is_of (ArrayLoad baload) (loading_item Byte) locals s }
    ensures loads_shorts { (card_type : List ℕ → Option (List ℕ)) (is_of : Subtype) (w : List Class) (b : Body)
        → ArraysAgree card_type → (locals s : List Cell) → has_wrong w b (ArrayLoad saload) 2 0 s ≡ false
        → Mirrors card_type is_of (ArrayLoad saload) (loading_item Short) locals s }
    ensures stores_references { (card_type : List ℕ → Option (List ℕ)) (is_of : Subtype) (w : List Class) (b : Body)
        → ArraysAgree card_type → (locals s : List Cell) → has_wrong w b (ArrayStore aastore) 3 0 s ≡ false
        → Mirrors card_type is_of (ArrayStore aastore) (storing_item Reference) locals s }
    ensures stores_bytes { (card_type : List ℕ → Option (List ℕ)) (is_of : Subtype) (w : List Class) (b : Body)
        → ArraysAgree card_type → (locals s : List Cell) → has_wrong w b (ArrayStore bastore) 3 0 s ≡ false
        → Mirrors card_type is_of (ArrayStore bastore) (storing_item Byte) locals s }
    ensures stores_shorts { (card_type : List ℕ → Option (List ℕ)) (is_of : Subtype) (w : List Class) (b : Body)
        → ArraysAgree card_type → (locals s : List Cell) → has_wrong w b (ArrayStore sastore) 3 0 s ≡ false
        → Mirrors card_type is_of (ArrayStore sastore) (storing_item Short) locals s }
{}
