//! What the items of an array are by its descriptor, and which array instructions serve it. A boolean array is
//! served as a byte array is.

ghost use Rattle.std.specs.Prelude.{◌≡◌, ◌<◌, ◌^◌, ◌∷◌, ◌-◌, ℕ, List, [], length, take};
ghost use Rattle.cjc_script.specs.Bytes.Spots.{part_of};
ghost use Rattle.cjc_script.specs.Sorts.{shape_named, array_by, array_name};
ghost use Rattle.cjc_jvm_semantics.specs.Effects.{serves};
ghost use Rattle.cjc_jvm_step.specs.Heap.Kinds.{effect_moves, elements_of, shape_of, is_class_and_end};

use cjc_script::bytes::Desc;

/// The numbers of an array.
#[derive(Clone, Copy)]
pub enum Element {
    Boolean,
    Byte,
    Short,
    Int,
}

/// What an array holds.
#[derive(Clone, Copy)]
pub enum ArrayKind {
    Numbers(Element),
    /// Null and objects of the class that its descriptor names.
    References,
    /// No array instruction serves it.
    Neither,
}

/// What an array instruction moves.
#[derive(Clone, Copy)]
pub enum Moves {
    Reference,
    Byte,
    Short,
    Int,
}

// Whether this is the name of a class, which is no array, and one byte behind it.
fn is_class_and_end(bytes: &[u8]) -> bool
    ensures { result ≡ is_class_and_end bytes.now }
{
    match bytes {
        [] => false,
        [_] => false,
        [first, _, ..] => *first != b'[',
    }
}

// What the array of these elements holds, where its descriptor is one.
fn kind_by(element: &[u8]) -> ArrayKind
    ensures { array_by (part_of element.now) ≡ shape_of result (91 ∷ element.now) }
{
    match element {
        [] => ArrayKind::Neither,
        [b'Z', ..] => ArrayKind::Numbers(Element::Boolean),
        [b'B', ..] => ArrayKind::Numbers(Element::Byte),
        [b'S', ..] => ArrayKind::Numbers(Element::Short),
        [b'I', ..] => ArrayKind::Numbers(Element::Int),
        [b'L', class @ ..] if is_class_and_end(class) => ArrayKind::References,
        _ => ArrayKind::Neither,
    }
}

/// What an array of a type holds.
pub fn kind_of(desc: &[u8]) -> ArrayKind
    requires { length desc.now < 2 ^ 32 }
    ensures { (bs : List ℕ) → desc.now ≡ 91 ∷ bs → shape_named desc.now ≡ shape_of result desc.now }
{
    match (Desc::parse(desc), desc) {
        (Ok(_), [_, element @ ..]) => kind_by(element),
        _ => ArrayKind::Neither,
    }
}

impl Element {
    /// The descriptor of an array of these numbers.
    pub fn array_name(self) -> &'static [u8]
        ensures name { result.now ≡ array_name (elements_of self) }
        ensures shape { shape_named (array_name (elements_of self)) ≡ shape_of (ArrayKind.Numbers self)
            (array_name (elements_of self)) }
    {
        match self {
            Element::Boolean => b"[Z",
            Element::Byte => b"[B",
            Element::Short => b"[S",
            Element::Int => b"[I",
        }
    }
}

/// Whether an instruction that moves this serves an array.
pub fn serves(moves: Moves, kind: ArrayKind) -> bool
    ensures { (desc : List ℕ) → result ≡ serves (effect_moves moves) (shape_of kind desc) }
{
    match (moves, kind) {
        (Moves::Reference, ArrayKind::References) => true,
        (Moves::Byte, ArrayKind::Numbers(Element::Boolean)) => true,
        (Moves::Byte, ArrayKind::Numbers(Element::Byte)) => true,
        (Moves::Short, ArrayKind::Numbers(Element::Short)) => true,
        (Moves::Int, ArrayKind::Numbers(Element::Int)) => true,
        _ => false,
    }
}
