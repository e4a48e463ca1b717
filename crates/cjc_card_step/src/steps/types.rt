//! Types that instructions name by a number: newarray, checkcast and instanceof (Java Card Virtual Machine
//! Specification 2.2.2, chapter 7).

ghost use Rattle.std.specs.Prelude.{◌≡◌, option_map};
ghost use Rattle.cjc_card_semantics.specs.Machine.Operations.{element_type, type_by};
ghost use Rattle.cjc_card_frame.specs.Objects.{class_of, element_of, shape_of};

use cjc_card_frame::heap::{Class, Element, Shape};

/// The elements of an array of numbers.
pub(crate) fn element_type(number: u32) -> Option<Element>
    ensures { option_map element_of result ≡ element_type number }
{
    match number {
        10 => Some(Element::Booleans),
        11 => Some(Element::Bytes),
        12 => Some(Element::Shorts),
        13 => Some(Element::Ints),
        _ => None,
    }
}

/// A class, an array of references to it, or an array of numbers.
pub(crate) fn type_by(number: u32, class: Option<Class>) -> Option<Shape>
    ensures { option_map shape_of result ≡ type_by number (option_map class_of class) }
{
    match number {
        0 => match class {
            Some(class) => Some(Shape::OfClass(class)),
            None => None,
        },
        14 => match class {
            Some(class) => Some(Shape::OfReferences(class)),
            None => None,
        },
        _ => match element_type(number) {
            Some(element) => Some(Shape::OfNumbers(element)),
            None => None,
        },
    }
}
