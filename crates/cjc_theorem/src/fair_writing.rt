//! The export file that a package writes is fair with those that it was converted over, and with others that packages
//! over these wrote, so that whatever is promised of packages over fair export files is promised of packages over
//! converted ones. For whoever converts a package over others. It has definitions and laws alone; nothing here runs.
ghost use Rattle.std.specs.Prelude.{◌≡◌, ℕ, List, ◌∷◌, ◌++◌};
ghost use Rattle.cjc_components.specs.ExportFile.{export_of};
ghost use Rattle.cjc_components.specs.Package.{Package};
ghost use Rattle.cjc_world.specs.ExportFile.declared.tree.ExportTree.{ExportTree};
ghost use Rattle.cjc_theorem.specs.Built.{AreBuilt, AreDistinct, IsWritten};
ghost use Rattle.cjc_theorem.specs.FairExports.Fair.{ExportsAreFair};
ghost use Rattle.cjc_shape_proof.specs.LowerJudge.declared.judged.Judged.{Judged};
ghost use Rattle.cjc_token_proof.specs.List.Listed.{ListTree};
ghost use Rattle.cjc_world.specs.Upwards.{Has};

use cjc_vtable::package_laws;

/// Of export files of platforms that are fair, and of those that packages write which were converted over such files,
/// any list is fair: in any order, shorter ones, and with packages that were converted side by side. So is the file
/// of one package with those of its own list, wherever it stands among them.
pub fn written_export_files_are_fair()
    ensures lists { (all some : List ExportTree) → AreBuilt all → AreDistinct all
        → ((t : ExportTree) → Has t some → Has t all) → ExportsAreFair some }
    ensures own_list { (list : ListTree) (files : List (List ℕ)) (judged : Judged) (p : Package)
        (before following : List ExportTree) → IsWritten list files judged p
        → (let f = p.files in f.exports ≡ before ++ following) → (let f = p.files in ExportsAreFair f.exports)
        → ExportsAreFair (before ++ export_of p ∷ following) }
{
    package_laws();
}
