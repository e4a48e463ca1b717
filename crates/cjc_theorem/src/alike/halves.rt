//! The two halves of the promise of a package none of whose methods is in int mode, by the narrow code that is selected
//! for it, and that no legal layout of any package's code has fewer bytes. For whoever promises of a conversion what becomes of its class files. Laws alone:
//! nothing here runs.

ghost use Rattle.std.specs.Prelude.{◌≡◌, ◌≤◌, ℕ, Bool, List, []};
ghost use Rattle.cjc_components.specs.Components.{components_of};
ghost use Rattle.cjc_components.specs.Limits.{limit_breaks};
ghost use Rattle.cjc_components.specs.Package.{Package};
ghost use Rattle.cjc_shape_proof.specs.LowerJudge.Spelt.{IsRead};
ghost use Rattle.cjc_shape_proof.specs.LowerJudge.declared.judged.Judged.{Judged};
ghost use Rattle.cjc_token_proof.specs.Layout.Legal.{IsLeast, IsLegal};
ghost use Rattle.cjc_token_proof.specs.Layout.Sizes.{code_size};
ghost use Rattle.cjc_token_proof.specs.List.Listed.{ListTree};
ghost use Rattle.cjc_ncode.specs.declared.narrow.NInsn.{NInsn};
ghost use Rattle.cjc_shape_proof.specs.LowerShape.Prepared.{IsSound};
ghost use Rattle.cjc_shape_proof.specs.LowerShape.Whole.Conversion.{IsPackageByModesOf, IsPackageOf};
ghost use Rattle.cjc_theorem.specs.Alike.Halves.{CodeBehavesAlike, ComponentsRunAsCode, HasFewestBytes};
ghost use Rattle.cjc_theorem.specs.FairExports.Fair.{ExportsAreFair};

use crate::alike::converted_components_run_by_token;
use crate::fair_exports::fair_exports_are_sound;
use crate::sound_runs::sound_packages_run_alike;
use cjc_narrow_proof::intervals::range_laws::least_ranges_exist;

/// Of a list that was read, and files that break no rule that is tested before a package is written, where no method is
/// in int mode: the narrow code that Method has is what is selected, and it behaves as the class files do.
pub fn selected_code_behaves_alike()
    ensures { (list : ListTree) (files : List (List ℕ)) (judged : Judged) → IsRead list
        → IsSound list files judged
        → (p : Package) → IsPackageOf list files p → CodeBehavesAlike p }
{
    fair_exports_are_sound();
    least_ranges_exist();
    sound_packages_run_alike();
}

/// Where what is written breaks no rule either, and export files are fair, the components of the package give the
/// reports of that narrow code.
pub fn components_run_as_selected_code()
    ensures { (list : ListTree) (files : List (List ℕ)) (judged : Judged) → IsRead list
        → IsSound list files judged
        → (p : Package) → IsPackageOf list files p → limit_breaks p ≡ []
        → (let world = p.files in ExportsAreFair world.exports)
        → ComponentsRunAsCode list p (components_of p) }
{
    converted_components_run_by_token();
    fair_exports_are_sound();
    selected_code_behaves_alike();
}

/// The least choice of wide jumps gives the fewest bytes of all legal ones. So no legal layout of the narrow code of a
/// package's methods has fewer bytes than the one that is written.
pub fn written_code_has_fewest_bytes()
    ensures choices { (insns : List NInsn) (wide other : List Bool) → IsLeast insns wide → IsLegal insns other
        → code_size insns wide ≤ code_size insns other }
    ensures packages { (list : ListTree) (files : List (List ℕ)) (p : Package) → IsPackageByModesOf list files p
        → HasFewestBytes p }
{}
