//! Which classes and types are of others (Java Card Virtual Machine Specification 2.2.2, section 7.5).

ghost use Rattle.std.specs.Prelude.{◌≡◌, map, option_map};
ghost use Rattle.cjc_card_semantics.specs.Machine.Classes.{is_in, is_kind_of, is_object, is_of, shape_class};
ghost use Rattle.cjc_card_frame.specs.Objects.{class_of, shape_of};
ghost use Rattle.cjc_card_calls.specs.Lines.Lines.{AreLines};
ghost use Rattle.cjc_card_link.specs.Tables.{AreKept, loaded_of};

use crate::lines::lines::Lines;
use cjc_card_frame::heap::{Class, Shape, same_class, same_element};
use cjc_card_link::Tables;

// Whether a class is one of these.
fn is_in(class: Class, classes: &[Class]) -> bool
    ensures { result ≡ is_in (class_of class) (map class_of classes.now) }
{
    for other in classes {
        if same_class(class, *other) {
            return true;
        }
    }
    false
}

/// Whether a class is another or stands below it.
pub fn is_kind_of(tables: &Tables<'_>, lines: &Lines, class: Class, above: Class) -> bool
    requires { AreLines (loaded_of tables.now) lines.now }
    ensures { result ≡ is_kind_of (loaded_of tables.now) (class_of class) (class_of above) }
{
    match lines.line(class) {
        Some(line) => is_in(above, line),
        None => same_class(above, class),
    }
}

// Whether a class is java/lang/Object or stands above it.
fn is_object(tables: &Tables<'_>, lines: &Lines, above: Class) -> bool
    requires tables { AreKept tables.now }
    requires lines { AreLines (loaded_of tables.now) lines.now }
    ensures { result ≡ is_object (loaded_of tables.now) (class_of above) }
{
    match tables.object_class() {
        Some(object) => is_kind_of(tables, lines, object, above),
        None => false,
    }
}

/// Whether a type is of another.
pub fn is_of(tables: &Tables<'_>, lines: &Lines, sub: Shape, sup: Shape) -> bool
    requires tables { AreKept tables.now }
    requires lines { AreLines (loaded_of tables.now) lines.now }
    ensures { result ≡ is_of (loaded_of tables.now) (shape_of sub) (shape_of sup) }
{
    match (sub, sup) {
        (Shape::OfClass(class), Shape::OfClass(above)) => is_kind_of(tables, lines, class, above),
        (Shape::OfClass(_), Shape::OfNumbers(_)) => false,
        (Shape::OfClass(_), Shape::OfReferences(_)) => false,
        (Shape::OfNumbers(a), Shape::OfNumbers(b)) => same_element(a, b),
        (Shape::OfNumbers(_), Shape::OfClass(above)) => is_object(tables, lines, above),
        (Shape::OfNumbers(_), Shape::OfReferences(_)) => false,
        (Shape::OfReferences(class), Shape::OfReferences(above)) => {
            is_kind_of(tables, lines, class, above)
        }
        (Shape::OfReferences(_), Shape::OfClass(above)) => is_object(tables, lines, above),
        (Shape::OfReferences(_), Shape::OfNumbers(_)) => false,
    }
}

/// The class whose methods an object of a type has.
pub fn shape_class(tables: &Tables<'_>, kind: Shape) -> Option<Class>
    requires { AreKept tables.now }
    ensures { option_map class_of result ≡ shape_class (loaded_of tables.now) (shape_of kind) }
{
    match kind {
        Shape::OfClass(class) => Some(class),
        Shape::OfNumbers(_) => tables.object_class(),
        Shape::OfReferences(_) => tables.object_class(),
    }
}
