//! What is promised of every package that is converted, whichever of its methods are in int mode: over export files that
//! are fair its class files, run by name, and its components, run by token, behave alike, and the components are
//! consistent; and each half of the first, by the narrow code between them. For whoever promises so of what was
//! converted. Laws alone: nothing here runs.
ghost use Rattle.std.specs.Prelude.{◌≡◌, ℕ, List, [], false};
ghost use Rattle.cjc_token_proof.specs.CheckRules.Consistent.{Consistent};
ghost use Rattle.cjc_classes.specs.List.Listed.{ListTree};
ghost use Rattle.cjc_components.specs.Package.{Package};
ghost use Rattle.cjc_int_components.specs.Components.{components_by_modes};
ghost use Rattle.cjc_int_components.specs.Limits.{limit_breaks_by_modes};
ghost use Rattle.cjc_int_theorem.specs.Alike.{IsJudgedByModes};
ghost use Rattle.cjc_int_theorem.specs.Halves.{CodeByModesBehavesAlike};
ghost use Rattle.cjc_shape.specs.Prepared.{IsSound};
ghost use Rattle.cjc_shape.specs.Whole.Conversion.{IsPackageByModesOf};
ghost use Rattle.cjc_shape_proof.specs.LowerJudge.Spelt.{IsRead};
ghost use Rattle.cjc_shape_proof.specs.LowerJudge.declared.judged.Judged.{Judged};
ghost use Rattle.cjc_shape_proof.specs.Written.Checked.{IsOfFiles};
ghost use Rattle.cjc_shape_proof.specs.Written.LaidOut.{IsLaidOut};
ghost use Rattle.cjc_theorem.specs.Alike.Alike.{BehaveAlike, NoneInIntMode};
ghost use Rattle.cjc_theorem.specs.Alike.Halves.{ComponentsRunAsCode};
ghost use Rattle.cjc_theorem.specs.FairExports.Fair.{ExportsAreFair};
ghost use Rattle.cjc_world.specs.Files.{Files};

use crate::alike::{components_by_modes_behave_as_class_files, passed_packages_behave_by_modes};
use crate::joined::{components_by_modes_run_by_token, packages_by_modes_are_of_files};
use crate::written::methods_by_modes_are_made;
use cjc_int_components::methods::methods_by_modes_are_consistent;
use cjc_int_components::packages::components_by_modes_are_consistent;
use cjc_shape::whole::packages_in_short_mode_are_as_before;
use cjc_theorem::alike::{
    components_of_files_are_consistent, components_run_as_selected_code, names_are_met,
    selected_code_behaves_alike,
};
use cjc_theorem::fair_exports::fair_exports_are_sound;

/// Where a list has no line `int`, no method of its files is in int mode.
pub fn lists_without_int_have_no_int_mode()
    ensures { (list : ListTree) (files : Files) → list.ints ≡ false → NoneInIntMode list files }
{}

/// Of a list that was read, and files that break no rule, nor does what is written for them, with export files that are
/// fair, the package by the modes of its methods has all that its runs rest on: it is laid out, and its code names what
/// its class files name.
pub fn converted_packages_are_judged()
    ensures judged { (list : ListTree) (files : List (List ℕ)) (judged : Judged) → IsRead list
        → IsSound list files judged → (p : Package) (is : IsPackageByModesOf list files p)
        → limit_breaks_by_modes is.tables p ≡ [] → (let world = p.files in ExportsAreFair world.exports)
        → IsJudgedByModes list files judged is.tables p }
    ensures laid { (list : ListTree) (files : List (List ℕ)) (judged : Judged) → IsRead list
        → IsSound list files judged → (p : Package) (is : IsPackageByModesOf list files p)
        → limit_breaks_by_modes is.tables p ≡ [] → IsLaidOut list files judged p }
    ensures files { (list : ListTree) (files : List (List ℕ)) (judged : Judged) → IsRead list
        → IsSound list files judged → (p : Package) (is : IsPackageByModesOf list files p)
        → limit_breaks_by_modes is.tables p ≡ [] → (let world = p.files in ExportsAreFair world.exports)
        → IsOfFiles list judged.codes p }
{
    fair_exports_are_sound();
    packages_by_modes_are_of_files();
}

/// Each half of the promise of such a package: the narrow code that Method has is what is selected by the modes of its
/// methods, and it behaves as the class files do; and its components give the reports of that code.
pub fn halves_are_kept_by_modes()
    ensures code { (list : ListTree) (files : List (List ℕ)) (judged : Judged) → IsRead list
        → IsSound list files judged → (p : Package) (is : IsPackageByModesOf list files p)
        → limit_breaks_by_modes is.tables p ≡ [] → (let world = p.files in ExportsAreFair world.exports)
        → CodeByModesBehavesAlike list p }
    ensures components { (list : ListTree) (files : List (List ℕ)) (judged : Judged) → IsRead list
        → IsSound list files judged → (p : Package) (is : IsPackageByModesOf list files p)
        → limit_breaks_by_modes is.tables p ≡ [] → (let world = p.files in ExportsAreFair world.exports)
        → ComponentsRunAsCode list p (components_by_modes is.tables p) }
{
    components_by_modes_behave_as_class_files();
    components_by_modes_run_by_token();
    converted_packages_are_judged();
    passed_packages_behave_by_modes();
}

/// So the class files and the components of the package behave alike, with at most 4,096 instructions by token for one
/// by name, and with at most 3 where no method is in int mode; and the components are consistent with the export files.
pub fn converted_packages_behave_alike()
    ensures alike { (list : ListTree) (files : List (List ℕ)) (judged : Judged) → IsRead list
        → IsSound list files judged → (p : Package) (is : IsPackageByModesOf list files p)
        → limit_breaks_by_modes is.tables p ≡ [] → (let world = p.files in ExportsAreFair world.exports)
        → BehaveAlike list p.files (components_by_modes is.tables p) }
    ensures consistent { (list : ListTree) (files : List (List ℕ)) (judged : Judged) → IsRead list
        → IsSound list files judged → (p : Package) (is : IsPackageByModesOf list files p)
        → limit_breaks_by_modes is.tables p ≡ []
        → (let world = p.files in ExportsAreFair world.exports → Consistent (components_by_modes is.tables p)
        world.exports) }
{
    components_by_modes_are_consistent();
    components_of_files_are_consistent();
    components_run_as_selected_code();
    converted_packages_are_judged();
    halves_are_kept_by_modes();
    methods_by_modes_are_consistent();
    methods_by_modes_are_made();
    names_are_met();
    packages_in_short_mode_are_as_before();
    selected_code_behaves_alike();
}
