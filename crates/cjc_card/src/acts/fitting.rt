//! Whether a value of a script is of the type that a descriptor says, on the heap by token: of a number its
//! range, of a reference the class of its object. Never asked of code.

ghost use Rattle.std.specs.Prelude.{◌≡◌, ℕ, List, Bool, map, option_map};
ghost use Rattle.cjc_script.specs.declared.value.Value.TheVariants.{Num};
ghost use Rattle.cjc_script.specs.Sorts.{Shape as ShapeOf, all_fit, fits, result_fits};
ghost use Rattle.cjc_jvm.specs.JvmStep.Heap.Kinds.{elements_of};
ghost use Rattle.cjc_jvm.specs.JvmStep.Step.Names.{shape_meant};
ghost use Rattle.cjc_jvm.specs.Acts.Meant.{sort_meant};
ghost use Rattle.cjc_card_semantics.specs.Bytecode.Machine.{item_fits, object_fits, shape_of as shape_by_name};
ghost use Rattle.cjc_card_semantics.specs.Machine.ByToken.{by_token};
ghost use Rattle.cjc_card_frame.specs.Objects.{class_of, element_of, shape_of};

use cjc_card_frame::heap::{Class, Element, Heap, Shape};
use cjc_card_frame::jvm_step::heap::Element as NamedElement;
use cjc_card_frame::jvm_step::step::Shape as NamedShape;
use cjc_card_frame::parts::LookUps;
use cjc_jvm::acts::Sort;
use cjc_script::Value;

// The elements of an array of numbers, as the heap keeps them.
fn element_of(element: NamedElement) -> Element
    ensures { element_of result ≡ elements_of element }
{
    match element {
        NamedElement::Boolean => Element::Booleans,
        NamedElement::Byte => Element::Bytes,
        NamedElement::Short => Element::Shorts,
        NamedElement::Int => Element::Ints,
    }
}

/// The type that a script or a descriptor names, where it is there.
#[tactic(auto, unfolding(cjc_card_semantics::specs::Machine::ByToken::by_token))]
pub(crate) fn shape_of<L: LookUps>(links: &L, shape: NamedShape<'_>) -> Option<Shape>
    ensures { option_map shape_of result ≡ shape_by_name (by_token (L.loaded links.now)) (shape_meant shape.entry) }
{
    match shape {
        NamedShape::Class(name) => match links.class_named(name) {
            Some(class) => Some(Shape::OfClass(class)),
            None => None,
        },
        NamedShape::Numbers(element) => Some(Shape::OfNumbers(element_of(element))),
        NamedShape::References(name) => match links.class_named(name) {
            Some(class) => Some(Shape::OfReferences(class)),
            None => None,
        },
    }
}

// Whether the array or object of a number is of a type.
fn object_fits<L: LookUps>(links: &L, heap: &Heap, number: u32, shape: NamedShape<'_>) -> bool
    ensures { result ≡ object_fits (by_token (L.loaded links.now)) heap.now number (shape_meant shape.entry) }
{
    let Some(sub) = heap.shape_at(number) else {
        return false;
    };
    match shape_of(links, shape) {
        Some(sup) => links.is_of(sub, sup),
        None => false,
    }
}

/// Whether a value may stand in an array of a class.
pub(crate) fn item_fits<L: LookUps>(links: &L, heap: &Heap, class: Class, value: Value) -> bool
    ensures { result ≡ item_fits (by_token (L.loaded links.now)) heap.now (class_of class) value }
{
    match value {
        Value::Num(_) => false,
        Value::Null => true,
        Value::Obj(number) => match heap.shape_at(number) {
            Some(sub) => links.is_of(sub, Shape::OfClass(class)),
            None => false,
        },
    }
}

/// Whether a number is of a type.
pub(crate) fn number_fits(sort: Sort<'_>, z: i32) -> bool
    ensures { (is_of : ℕ → ShapeOf (List ℕ) → Bool) → result ≡ fits is_of (sort_meant sort.entry) (Num z) }
{
    match sort {
        Sort::Boolean => 0 <= z && z <= 1,
        Sort::Byte => -128 <= z && z <= 127,
        Sort::Short => -32768 <= z && z <= 32767,
        Sort::Int => true,
        Sort::Reference(_) => false,
        Sort::NoValue => false,
    }
}

// Whether a value is of a type.
fn fits<L: LookUps>(links: &L, heap: &Heap, sort: Sort<'_>, value: Value) -> bool
    ensures { result ≡ fits (object_fits (by_token (L.loaded links.now)) heap.now) (sort_meant sort.entry) value }
{
    match value {
        Value::Num(z) => number_fits(sort, z),
        Value::Null => matches!(sort, Sort::Reference(_)),
        Value::Obj(number) => match sort {
            Sort::Reference(shape) => object_fits(links, heap, number, shape),
            Sort::Boolean => false,
            Sort::Byte => false,
            Sort::Short => false,
            Sort::Int => false,
            Sort::NoValue => false,
        },
    }
}

/// Whether there are as many values as types, each of its own.
pub fn all_fit<L: LookUps>(links: &L, heap: &Heap, sorts: &[Sort<'_>], values: &[Value]) -> bool
    ensures { result ≡ all_fit (object_fits (by_token (L.loaded links.now)) heap.now) (map sort_meant sorts.now)
        values.now }
{
    if sorts.len() != values.len() {
        return false;
    }
    for i in 0..sorts.len() {
        if !fits(links, heap, sorts[i], values[i]) {
            return false;
        }
    }
    true
}

/// Whether there is a value of the type where there is one, and none otherwise.
pub fn result_fits<L: LookUps>(
    links: &L,
    heap: &Heap,
    sort: Option<Sort<'_>>,
    value: Option<Value>,
) -> bool
    ensures { result ≡ result_fits (object_fits (by_token (L.loaded links.now)) heap.now) (option_map sort_meant
        sort.entry) value }
{
    match (sort, value) {
        (Some(sort), Some(value)) => fits(links, heap, sort, value),
        (Some(_), None) => false,
        (None, Some(_)) => false,
        (None, None) => true,
    }
}
