//! A package none of whose methods is in int mode is by modes what it is without them. Whoever tells what such a
//! package does cites it.

ghost use Rattle.std.specs.Prelude.{◌≡◌, ◌⊎◌, ℕ, List, false};
ghost use Rattle.cjc_exported.specs.Components.Limits.{of_methods, word_breaks};
ghost use Rattle.cjc_exported.specs.Components.Package.{Package};
ghost use Rattle.cjc_judge.specs.declared.judged.Judged.{Judged};
ghost use Rattle.cjc_methods.specs.List.Listed.{ListTree};
ghost use Rattle.cjc_methods.specs.LowerIntPackage.Components.{has_int_mode};
ghost use Rattle.cjc_methods.specs.LowerIntPackage.Limits.{word_breaks_by_modes};
ghost use Rattle.cjc_shape.specs.Prepared.{IsSound};
ghost use Rattle.cjc_shape.specs.Whole.Conversion.{AreShort, IsPackageByModesOf, IsPackageOf};

use cjc_narrow_proof::intervals::range_laws::least_ranges_exist;

/// Where no method that is written is in int mode, the package of a list and its files by modes is their package
/// without them, 417 is that of arguments alone, and ACC_INT is set where int is named alone. Either none is in int
/// mode, or some method is.
pub fn packages_in_short_mode_are_as_before()
    ensures by_modes { (list : ListTree) (files : List (List ℕ)) (judged : Judged) → IsSound list files judged
        → (p : Package) → IsPackageOf list files p → IsPackageByModesOf list files p }
    ensures short { (list : ListTree) (files : List (List ℕ)) (judged : Judged) → IsSound list files judged
        → (p : Package) → IsPackageByModesOf list files p → AreShort list.ints p.files → IsPackageOf list files p }
    ensures words { (list : ListTree) (files : List (List ℕ)) (judged : Judged) → IsSound list files judged
        → (p : Package) (whole : IsPackageByModesOf list files p) → AreShort list.ints p.files
        → of_methods p (word_breaks_by_modes whole.tables p) ≡ of_methods p (word_breaks p) }
    ensures modes { (list : ListTree) (files : List (List ℕ)) (judged : Judged) → IsSound list files judged
        → (p : Package) (whole : IsPackageByModesOf list files p) → AreShort list.ints p.files
        → has_int_mode whole.tables p ≡ false }
    ensures decided { (list : ListTree) (files : List (List ℕ)) (judged : Judged) → IsSound list files judged
        → AreShort list.ints judged.world ⊎ (AreShort list.ints judged.world → ⊥) }
{
    least_ranges_exist();
}
