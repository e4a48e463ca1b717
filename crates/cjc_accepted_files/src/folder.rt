//! The folder of a conversion: what is read there is what was written.
ghost use Rattle.std.specs.Prelude.{◌≡◌, ℕ, List, [], Some, map};
ghost use Rattle.cjc_components.specs.LowerCapWrite.Writable.{IsSpelt};
ghost use Rattle.cjc_components.specs.LowerCapWrite.declared.files.CapFiles.{CapFiles as Written};
ghost use Rattle.cjc_components.specs.LowerCapWrite.Files.{files_of};
ghost use Rattle.cjc_cmd_card.specs.CmdCheck.Folder.Breaks.{ArePartsShort, cap_in, part_breaks};
ghost use Rattle.cjc_cmd_card.specs.CmdCheck.Folder.Reads.{plan_of_parts};
ghost use Rattle.cjc_cmd_convert.specs.Publication.{below, files_made};
ghost use Rattle.cjc_components.specs.Limits.{size_breaks};
ghost use Rattle.cjc_components.specs.Package.{Package};
ghost use Rattle.cjc_shape_proof.specs.LowerJudge.declared.judged.Judged.{Judged};
ghost use Rattle.cjc_components.specs.LowerList.Listed.{ListTree};
ghost use Rattle.cjc_int_theorem.specs.Components.{components_by_modes};
ghost use Rattle.cjc_shape_proof.specs.LowerIntPackage.Modes.{Tables};
ghost use Rattle.cjc_shape_proof.specs.Written.LaidOut.{IsLaidOut};
ghost use Rattle.cjc_shelf.specs.Command.Plan.{complete, verdict};
ghost use Rattle.cjc_shelf.specs.Command.Publish.{Stand};
ghost use Rattle.cjc_shelf.specs.Shelf.{Files};
ghost use Rattle.cjc_accepted_files.specs.Folder.{parts_of};

use cjc_shape_proof::written::laid_out_packages_fit;

/// Of a folder in which the files of a package stand that is laid out and breaks neither 411 nor 416, all components are
/// read, whichever of its methods are in int mode: Directory says which are there, none is too long, none breaks its
/// format, and together they are what was written.
pub fn written_files_are_read_back()
    ensures read { (list : ListTree) (files : List (List ℕ)) (judged : Judged) (p : Package)
        → IsLaidOut list files judged p → size_breaks p ≡ []
        → (t : Tables) (caps : Written) → caps ≡ files_of (components_by_modes t p)
        → IsSpelt (components_by_modes t p) caps
        → (told : Files) (dir name export : List ℕ) → Stand told (map (below dir) (files_made name caps export))
        → verdict told (plan_of_parts dir) ≡ complete (parts_of caps) }
    ensures short { (list : ListTree) (files : List (List ℕ)) (judged : Judged) (p : Package)
        → IsLaidOut list files judged p → size_breaks p ≡ []
        → (t : Tables) (caps : Written) → caps ≡ files_of (components_by_modes t p) → ArePartsShort (parts_of caps) }
    ensures unbroken { (t : Tables) (p : Package) (caps : Written) → IsSpelt (components_by_modes t p) caps
        → part_breaks (parts_of caps) ≡ [] }
    ensures components { (t : Tables) (p : Package) (caps : Written) → IsSpelt (components_by_modes t p) caps
        → cap_in (parts_of caps) ≡ Some (components_by_modes t p) }
{
    laid_out_packages_fit();
}
