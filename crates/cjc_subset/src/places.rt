//! The places at which the rules of the subset are broken: a class, a field of it, a method of it with an
//! offset. It tests nothing.

ghost use Rattle.std.specs.Prelude.{◌≡◌, ◌<◌, length};
ghost use Rattle.cjc_bytes.specs.Order.{FilePlace};
ghost use Rattle.cjc_bytes.specs.Told.{file_place_of, spot_of};
ghost use Rattle.cjc_code.specs.ClassFile.declared.tree.ClassTree.{ClassTree as Tree};
ghost use Rattle.cjc_subset.specs.Places.{at_class, at_field, at_method};

use cjc_bytes::{FileRef, Part, PlaceRef, RulePlace};
use cjc_code::classfile::{ClassTree, FieldTree, MethodTree};

/// A class of the package, of this file.
pub fn class_spot<'w>(file: FileRef<'w>, class: &'w ClassTree<'_>) -> RulePlace<'w>
    ensures { spot_of result ≡ at_class (file_place_of file.entry) class.now }
{
    RulePlace::of_class(file, 1, class.name.items())
}

/// The field at this place of a class.
pub(crate) fn field_spot<'w>(
    class: RulePlace<'w>,
    place: usize,
    field: &'w FieldTree,
) -> RulePlace<'w>
    ensures { (f : FilePlace) (c : Tree) → spot_of class.entry ≡ at_class f c
        → spot_of result ≡ at_field f c place field.now }
{
    RulePlace {
        member: place as u128 + 1,
        place: PlaceRef {
            part: Part::Field(field.name.items(), field.desc.items()),
            offset: 0,
            ..class.place
        },
        ..class
    }
}

/// An offset of the method at this place of a class.
pub fn method_spot<'w>(
    class: RulePlace<'w>,
    tree: &'w ClassTree<'_>,
    place: usize,
    method: &'w MethodTree<'_>,
    offset: u32,
) -> RulePlace<'w>
    requires { place < length tree.now.methods }
    ensures { (f : FilePlace) → spot_of class.entry ≡ at_class f tree.now
        → spot_of result ≡ at_method f tree.now place method.now offset }
{
    RulePlace {
        member: tree.fields.items().len() as u128 + place as u128 + 1,
        place: PlaceRef {
            part: Part::Method(method.name.items(), method.desc.items()),
            offset,
            ..class.place
        },
        ..class
    }
}
