//! What holds of the answers for all packages. Whoever tells what a run answers cites it.

ghost use Rattle.std.specs.Prelude.{◌≡◌, ℕ, List as Items};
ghost use Rattle.cjc_captree.specs.Bytes.declared.fault.Refusal.{Refusal as Broken};
ghost use Rattle.cjc_convert.specs.Conversion.{IsConverted, IsConvertedByModes};
ghost use Rattle.cjc_convert.specs.declared.conversion.Converted.{Converted as Written};
ghost use Rattle.cjc_captree.specs.List.Listed.{ListTree};
ghost use Rattle.cjc_shape_proof.specs.Components.Components.{components_of};
ghost use Rattle.cjc_shape_proof.specs.LowerIntPackage.Components.{components_by_modes};
ghost use Rattle.cjc_shape_proof.specs.LowerShape.Whole.Conversion.{AreShort, IsRefused};

use cjc_shape_proof::shape::whole::packages_in_short_mode_are_as_before;

/// A list with its files has one refusal at most, or what is converted of it is one, and never both.
pub fn one_answer()
    ensures refused { (list : ListTree) (files : Items (Items ℕ)) (r s : Broken) → IsRefused list files r
        → IsRefused list files s → r ≡ s }
    ensures converted { (list : ListTree) (files : Items (Items ℕ)) (m n : Written) → IsConvertedByModes list files m
        → IsConvertedByModes list files n → m ≡ n }
    ensures not_both { (list : ListTree) (files : Items (Items ℕ)) (made : Written) (r : Broken)
        → IsConvertedByModes list files made → IsRefused list files r → ⊥ }
{}

/// What is converted of a package none of whose methods is in int mode is told without modes too, and what is told so
/// is by modes: of the same package. Its components are those of a package without modes.
pub fn conversions_in_short_mode_are_as_before()
    ensures short { (list : ListTree) (files : Items (Items ℕ)) (made : Written)
        → (is : IsConvertedByModes list files made) → (let p = is.whole in AreShort list.ints p.files)
        → (as_before : IsConverted list files made) × (as_before.whole ≡ is.whole) × (as_before.judged ≡ is.judged) }
    ensures by_modes { (list : ListTree) (files : Items (Items ℕ)) (made : Written)
        → (as_before : IsConverted list files made) → (is : IsConvertedByModes list files made)
        × (is.whole ≡ as_before.whole) × (is.judged ≡ as_before.judged) }
    ensures components { (list : ListTree) (files : Items (Items ℕ)) (made : Written)
        → (is : IsConvertedByModes list files made) → (let p = is.whole in AreShort list.ints p.files)
        → (let of = is.is_package in components_by_modes of.tables is.whole ≡ components_of is.whole) }
{
    packages_in_short_mode_are_as_before();
}
