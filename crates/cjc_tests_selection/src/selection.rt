//! What is selected for packages made by hand, byte for byte, and calls of `select` on them. It shows on
//! examples that the definition of selected code means what it is to.
ghost use Rattle.std.specs.Prelude.{◌≡◌, ◌∷◌, [], Some, None, codes};
ghost use Rattle.cjc_examples.specs.NCode.declared.narrow.PoolKey.TheVariants as keys;
ghost use Rattle.cjc_examples.specs.Narrow.Calculating as Calculating;
ghost use Rattle.cjc_examples.specs.Narrow.Overriding as Overriding;
ghost use Rattle.cjc_examples.specs.Narrow.Sharing as Sharing;
ghost use Rattle.cjc_tests_selection.specs.Selection.Fields.{of_argument, or_zero, s, with_method};
ghost use Rattle.cjc_tests_selection.specs.Selection.Selected as Selected;

#[cfg(test)]
mod calls;
mod fits;

pub use fits::can_be_selected;

/// Array elements on either side of an index, divisions, shifts past a word, a mask of 16 bits, switches with
/// cases outside 16 bits, handlers of which one covers nothing, and calls: what is selected has the bytes that
/// were worked out by hand.
pub fn rows_are_selected()
    ensures calculating { Selected.bytes Calculating.files Calculating.components 17 ≡ (let m = Calculating.part.method
        in m.methods) }
    ensures handlers { Selected.handlers Calculating.files Calculating.components 17 ≡ (let m = Calculating.part.method
        in m.handlers) }
    ensures overriding { Selected.bytes Overriding.files Overriding.components 1 ≡ (let m = Overriding.part.method
        in m.methods) }
    ensures sharing { Selected.bytes Sharing.files Sharing.components 1 ≡ (let m = Sharing.part.method in m.methods) }
{}

/// A field is read by an index of one byte: the first of the pool, or the second where a catch type is written,
/// since the class of any exception stands before.
pub fn fields_are_selected()
    ensures argument { Selected.bytes (with_method of_argument) Calculating.components 1 ≡ 0x01 ∷ 0x20 ∷ 0x19 ∷ 0x85
        ∷ 0x00 ∷ 0x78 ∷ [] }
    ensures any { Selected.bytes (with_method (or_zero None)) Calculating.components 1 ≡ 0x01 ∷ 0x10 ∷ 0x18 ∷ 0x85
        ∷ 0x00 ∷ 0x78 ∷ 0x3B ∷ 0x03 ∷ 0x78 ∷ [] }
    ensures some { Selected.bytes (with_method (or_zero (Some (codes "java/lang/NullPointerException"))))
        Calculating.components 1 ≡ 0x01 ∷ 0x10 ∷ 0x18 ∷ 0x85 ∷ 0x01 ∷ 0x78 ∷ 0x3B ∷ 0x03 ∷ 0x78 ∷ [] }
    ensures keys { Selected.keys (with_method (or_zero (Some (codes "java/lang/NullPointerException"))))
        ≡ keys.Class (codes "java/lang/Object") ∷ keys.Field s ∷ keys.Class (codes "java/lang/NullPointerException")
        ∷ [] }
{}
