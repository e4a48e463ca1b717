//! All rules that the type checker's command tests: what a conversion wrote, read back beside the files that it was
//! made from, breaks none of them.
ghost use Rattle.std.specs.Prelude.{◌≡◌, ℕ, List as Items, [], Some, map};
ghost use Rattle.cjc_components.specs.Bytes.Breaks.{Break};
ghost use Rattle.cjc_components.specs.LowerCapRead.declared.tree.CapTree.{CapTree};
ghost use Rattle.cjc_components.specs.LowerCheckRules.Complete.{Complete, complete};
ghost use Rattle.cjc_components.specs.Bytecode.PackageCodes.{all_codes};
ghost use Rattle.cjc_components.specs.LowerClinit.Image.{IsImage};
ghost use Rattle.cjc_cmd_card.specs.Report.Runs.{AnyBreaks};
ghost use Rattle.cjc_cmd_card.specs.CmdCheck.Folder.Breaks.{cap_in};
ghost use Rattle.cjc_cmd_card.specs.CmdCheck.Folder.Reads.{plan_of_parts};
ghost use Rattle.cjc_cmd_convert.specs.Publication.{below, files_made};
ghost use Rattle.cjc_convert.specs.Conversion.{IsConvertedByModes};
ghost use Rattle.cjc_convert.specs.declared.conversion.Converted.{Converted as Written};
ghost use Rattle.cjc_shape_proof.specs.LowerJudge.Rules.{files_spelt, has_applets};
ghost use Rattle.cjc_shape_proof.specs.LowerJudge.Spelt.{FileTree, IsRead, SpellTrees, classes_of, exports_of};
ghost use Rattle.cjc_components.specs.LowerList.Listed.{ListTree};
ghost use Rattle.cjc_shelf.specs.Command.Plan.{complete as complete_with, verdict};
ghost use Rattle.cjc_shelf.specs.Command.Publish.{Stand};
ghost use Rattle.cjc_shelf.specs.Shelf.{Files};
ghost use Rattle.cjc_theorem.specs.FairExports.Fair.{ExportsAreFair};
ghost use Rattle.cjc_verified_proof.specs.Verify.Pairs.{pair_of};
ghost use Rattle.cjc_verified_proof.specs.Verify.Verified.{IsVerified};
ghost use Rattle.cjc_components.specs.World.declared.image.StaticImage.{StaticImage};
ghost use Rattle.cjc_accepted_files.specs.Folder.{input_of, parts_of};

use crate::folder::written_files_are_read_back;
use crate::paired::written_components_are_paired;
use cjc_accepted_modes::accepted::packages_by_modes_are_accepted;
use cjc_accepted_modes::readable::packages_by_modes_are_readable;
use cjc_accepted_theorem::read_back::written_components_are_accepted;
use cjc_cmd_card::check_rules::consistent_where_unbroken;
use cjc_int_theorem::whole::{converted_packages_are_judged, converted_packages_behave_alike};

/// From a folder in which the files of a conversion stand, with fair export files, all that it wrote is read, and its
/// list, its files and these components break no rule that is tested before components are run, whichever methods are in
/// int mode.
pub fn written_files_break_nothing()
    ensures read { (list : ListTree) (files : Items (Items ℕ)) (made : Written) → IsRead list
        → IsConvertedByModes list files made
        → (told : Files) (dir name export : Items ℕ) → Stand told (map (below dir) (files_made name made.caps export))
        → verdict told (plan_of_parts dir) ≡ complete_with (parts_of made.caps) }
    ensures unbroken { (list : ListTree) (files : Items (Items ℕ)) (made : Written) → IsRead list
        → IsConvertedByModes list files made
        → (trees : Items FileTree) → SpellTrees list.lines files trees → ExportsAreFair (exports_of trees)
        → (b : Break) → AnyBreaks (input_of list files made.caps) [] b → ⊥ }
{
    consistent_where_unbroken();
    converted_packages_are_judged();
    converted_packages_behave_alike();
    written_components_are_paired();
    written_files_are_read_back();
}

/// Nor do they break one of the type checker's.
pub fn written_files_are_accepted()
    ensures { (list : ListTree) (files : Items (Items ℕ)) (made : Written) → IsRead list
        → IsConvertedByModes list files made
        → (trees : Items FileTree) → SpellTrees list.lines files trees → ExportsAreFair (exports_of trees)
        → (spelt : Items FileTree) → SpellTrees list.lines files spelt
        → (image : StaticImage) → IsImage (files_spelt list spelt) (all_codes (classes_of spelt)) image
        → (cap : CapTree) → cap_in (parts_of made.caps) ≡ Some cap → (c : Complete) → complete cap ≡ Some c
        → IsVerified (pair_of (has_applets list) (files_spelt list spelt) image c) }
{
    converted_packages_are_judged();
    packages_by_modes_are_accepted();
    packages_by_modes_are_readable();
    written_components_are_accepted();
    written_files_are_read_back();
}
