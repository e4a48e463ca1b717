//! Classes, the fields of objects, and types, by token (Java Card Virtual Machine Specification 2.2.2, 6.1 and 6.8).

ghost use Rattle.std.specs.Prelude.{◌≡◌};
ghost use Rattle.cjc_card_semantics.specs.Machine.Classes.{same_class, same_element, same_field};
ghost use Rattle.cjc_card_frame.specs.Objects.{class_of, element_of, field_of};

/// A class or interface: by its package and its offset in a group, or by the number of an export file and its token.
#[derive(Clone, Copy)]
pub enum Class {
    Own(u32, u32),
    External(u32, u8),
}

/// A field of an object: the class that declares it, and its token.
#[derive(Clone, Copy)]
pub struct Field {
    pub class: Class,
    pub token: u8,
}

/// What an array of numbers holds.
#[derive(Clone, Copy)]
pub enum Element {
    Booleans,
    Bytes,
    Shorts,
    Ints,
}

/// The type of an array or object.
#[derive(Clone, Copy)]
pub enum Shape {
    OfClass(Class),
    OfNumbers(Element),
    OfReferences(Class),
}

/// Whether two classes are the same.
pub fn same_class(a: Class, b: Class) -> bool
    ensures { result ≡ same_class (class_of a) (class_of b) }
{
    match (a, b) {
        (Class::Own(p, x), Class::Own(q, y)) => p == q && x == y,
        (Class::External(p, x), Class::External(q, y)) => p == q && x == y,
        (Class::Own(_, _), Class::External(_, _)) => false,
        (Class::External(_, _), Class::Own(_, _)) => false,
    }
}

/// Whether two fields are the same.
pub fn same_field(a: Field, b: Field) -> bool
    ensures { result ≡ same_field (field_of a) (field_of b) }
{
    same_class(a.class, b.class) && a.token == b.token
}

/// Whether two arrays of numbers hold the same.
pub fn same_element(a: Element, b: Element) -> bool
    ensures { result ≡ same_element (element_of a) (element_of b) }
{
    match a {
        Element::Booleans => matches!(b, Element::Booleans),
        Element::Bytes => matches!(b, Element::Bytes),
        Element::Shorts => matches!(b, Element::Shorts),
        Element::Ints => matches!(b, Element::Ints),
    }
}
