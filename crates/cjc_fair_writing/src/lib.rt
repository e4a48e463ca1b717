//! The export file that a package writes over fair export files is fair with them, so that what is promised of packages over
//! fair export files is promised of packages over converted ones. For whoever converts a package over others. It has a law
//! alone; nothing here runs.
#![tactic(auto)]

ghost use Rattle.std.specs.Prelude.{◌≡◌, ℕ, List, ◌∷◌, ◌++◌};
ghost use Rattle.cjc_components.specs.ExportFile.{export_of};
ghost use Rattle.cjc_components.specs.Package.{Package};
ghost use Rattle.cjc_export.specs.declared.tree.ExportTree.{ExportTree};
ghost use Rattle.cjc_fair_exports.specs.Fair.{ExportsAreFair};
ghost use Rattle.cjc_judge.specs.declared.judged.Judged.{Judged};
ghost use Rattle.cjc_list.specs.Listed.{ListTree};
ghost use Rattle.cjc_written_laws.specs.Converted.{IsConverted};

use cjc_written_laws::converted_classes_keep_rules;

/// A converted package over fair export files writes an export file that is fair with them, wherever a later list names it
/// among them. So it is of each package over these, one behind the other.
pub fn written_export_files_are_fair()
    ensures { (list : ListTree) (files : List (List ℕ)) (judged : Judged) (p : Package) (before following : List ExportTree) → IsConverted list files judged p → (let f = p.files in f.exports ≡ before ++ following) → (let f = p.files in ExportsAreFair f.exports) → ExportsAreFair (before ++ export_of p ∷ following) }
{
    converted_classes_keep_rules();
}
