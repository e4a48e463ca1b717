//! That the components of a package are consistent with the export files that it imports, from what is left to show of
//! it. For whoever converts a package, whichever of its methods are in int mode. Nothing here runs.

ghost use Rattle.std.specs.Prelude.{◌≡◌, ℕ, List, []};
ghost use Rattle.cjc_token_proof.specs.Components.Whole.{exports_of};
ghost use Rattle.cjc_components.specs.Components.{components_of};
ghost use Rattle.cjc_components.specs.Limits.{size_breaks};
ghost use Rattle.cjc_components.specs.Package.{Package};
ghost use Rattle.cjc_shape_proof.specs.LowerCheckProof.Code.Kinds.{AllHaveKinds};
ghost use Rattle.cjc_shape_proof.specs.LowerCheckProof.Consistent.Premises.{HasSoundMethods};
ghost use Rattle.cjc_shape_proof.specs.LowerJudge.declared.judged.Judged.{Judged};
ghost use Rattle.cjc_token_proof.specs.List.Listed.{ListTree};
ghost use Rattle.cjc_token_proof.specs.CheckRules.Consistent.{Consistent};
ghost use Rattle.cjc_shape_proof.specs.Written.Checked.{IsOfFiles};
ghost use Rattle.cjc_shape_proof.specs.Written.Converted.{IsConverted};
ghost use Rattle.cjc_shape_proof.specs.Written.LaidOut.{IsLaidOut};
ghost use Rattle.cjc_theorem.specs.Alike.Met.{NamesAreMet};

use crate::alike::converted_packages_are_laid_out;
use cjc_shape_proof::check_proof::consistent::components_are_consistent;
use cjc_shape_proof::check_proof::flags::methods_keep_flags;
use cjc_shape_proof::written::{converted_methods_are_consistent, sizes_fit};
use cjc_token_proof::tables::fields_are_typed;
use cjc_vtable::package_laws;

/// The components of a package that is laid out, and whose code names what its class files name, are consistent with
/// the export files that it imports: where neither 411 nor 416 is broken, bytes can say its methods, these stay inside
/// their code, what they name is of the kinds that their opcodes use, and what its code, its descriptors and its list
/// name is there.
pub fn components_of_files_are_consistent()
    ensures { (list : ListTree) (files : List (List ℕ)) (judged : Judged) (p : Package)
        → IsLaidOut list files judged p → IsOfFiles list judged.codes p → size_breaks p ≡ [] → HasSoundMethods p
        → AllHaveKinds p.methods → NamesAreMet p → Consistent (components_of p) (exports_of p) }
{
    components_are_consistent();
    fields_are_typed();
    methods_keep_flags();
    package_laws();
    sizes_fit();
}

/// So are those of a converted package none of whose methods is in int mode, where what its code, its descriptors and
/// its list name is there.
pub fn converted_components_are_consistent()
    ensures { (list : ListTree) (files : List (List ℕ)) (judged : Judged) (p : Package)
        → IsConverted list files judged p → NamesAreMet p → Consistent (components_of p) (exports_of p) }
{
    components_of_files_are_consistent();
    converted_methods_are_consistent();
    converted_packages_are_laid_out();
}
