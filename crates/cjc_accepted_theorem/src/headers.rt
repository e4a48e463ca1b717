//! Headers: those of a converted package have the words of their methods' types.
ghost use Rattle.std.specs.Prelude.{◌≡◌, ℕ, false, List, Some, slice_get};
ghost use Rattle.cjc_verified_proof.specs.Bytes.AccessFlags.{is_interface};
ghost use Rattle.cjc_verified_proof.specs.Components.Package.{Package, world};
ghost use Rattle.cjc_theorem.specs.LowerJudge.declared.judged.Judged.{Judged};
ghost use Rattle.cjc_verified_proof.specs.List.Listed.{ListTree};
ghost use Rattle.cjc_verified_proof.specs.World.Classes.{Class};
ghost use Rattle.cjc_verified_proof.specs.World.Order.{class_order, methods_of_class};
ghost use Rattle.cjc_verified_proof.specs.World.declared.found.Found.{Found};
ghost use Rattle.cjc_accepted_proof.specs.Accepted.{HeadersFit};
ghost use Rattle.cjc_accepted_theorem.specs.Begins.{Begins};
ghost use Rattle.cjc_accepted_theorem.specs.Readable.{IsReadable};

use crate::carded::converted_packages_have_card_types;
use cjc_accepted_proof::check_proof::code::{jumps_land_in_code, methods_are_cut};
use cjc_verified_proof::layout::layouts_are_laid_out;

/// Each method of a converted package's classes begins where it stands, with the words of its type, and abstract only
/// where it is.
pub fn converted_methods_begin()
    ensures { (list : ListTree) (files : List (List ℕ)) (judged : Judged) (p : Package)
        → IsReadable list files judged p
        → (k : ℕ) (d : Class) → slice_get (class_order (world p)) k ≡ Some d → is_interface d.flags ≡ false
        → (j : ℕ) (f : Found) → slice_get (methods_of_class (world p) d) j ≡ Some f → Begins p d f }
{
    layouts_are_laid_out();
}

/// Each header that is written for a converted package has the words of its method's type, and is abstract only where
/// the package's method is.
pub fn converted_packages_have_fit_headers()
    ensures { (list : ListTree) (files : List (List ℕ)) (judged : Judged) (p : Package)
        → IsReadable list files judged p → HeadersFit p }
{
    converted_methods_begin();
    converted_packages_have_card_types();
    jumps_land_in_code();
    methods_are_cut();
}
