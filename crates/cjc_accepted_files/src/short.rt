//! What a conversion wrote of a package none of whose methods is in int mode, told without modes. For whoever promises
//! what is so of packages that are read together. It has laws alone; nothing here runs.
ghost use Rattle.std.specs.Prelude.{◌≡◌, ℕ, List as Items, Some};
ghost use Rattle.cjc_cmd_card.specs.CmdCheck.Folder.Breaks.{cap_in};
ghost use Rattle.cjc_components.specs.Components.{components_of};
ghost use Rattle.cjc_components.specs.LowerList.Listed.{ListTree};
ghost use Rattle.cjc_convert.specs.Conversion.{IsConvertedByModes};
ghost use Rattle.cjc_convert.specs.declared.conversion.Converted.{Converted as Written};
ghost use Rattle.cjc_shape_proof.specs.LowerJudge.Spelt.{FileTree, IsRead, SpellTrees, exports_of};
ghost use Rattle.cjc_shape_proof.specs.LowerShape.Whole.Conversion.{AreShort};
ghost use Rattle.cjc_shape_proof.specs.Written.Converted.{IsConverted};
ghost use Rattle.cjc_theorem.specs.FairExports.Fair.{ExportsAreFair};
ghost use Rattle.cjc_accepted_files.specs.Folder.{parts_of};

use crate::folder::written_files_are_read_back;
use cjc_convert::conversions_in_short_mode_are_as_before;
use cjc_theorem::fair_exports::fair_exports_are_sound;

/// Where no method is in int mode, the package of a list that was read and its files, over fair export files, was
/// converted without modes, and what is read of the files that a conversion wrote are its components.
pub fn written_files_in_short_mode_are_as_before()
    ensures converted { (list : ListTree) (files : Items (Items ℕ)) (made : Written) → IsRead list
        → (is : IsConvertedByModes list files made) → (let p = is.whole in AreShort list.ints p.files)
        → (trees : Items FileTree) → SpellTrees list.lines files trees → ExportsAreFair (exports_of trees)
        → IsConverted list files is.judged is.whole }
    ensures components { (list : ListTree) (files : Items (Items ℕ)) (made : Written)
        → (is : IsConvertedByModes list files made) → (let p = is.whole in AreShort list.ints p.files)
        → cap_in (parts_of made.caps) ≡ Some (components_of is.whole) }
{
    conversions_in_short_mode_are_as_before();
    fair_exports_are_sound();
    written_files_are_read_back();
}
