//! What lies between the class files of a conversion and whichever components its files spell: the narrow code that is
//! selected for the package, each method by its mode, with each half of the promise. For whoever asks which step of a
//! conversion keeps what. Laws alone: nothing here runs.

ghost use Rattle.std.specs.Prelude.{◌≡◌, ℕ, List as Items};
ghost use Rattle.cjc_theorem.specs.CapRead.declared.tree.CapTree.{CapTree};
ghost use Rattle.cjc_convert.specs.CapWrite.Writable.{IsSpelt};
ghost use Rattle.cjc_convert.specs.Components.Package.{Package};
ghost use Rattle.cjc_convert.specs.Conversion.{IsConvertedByModes};
ghost use Rattle.cjc_convert.specs.declared.conversion.Converted.{Converted as Written};
ghost use Rattle.cjc_convert.specs.Judge.Rules.{files_spelt};
ghost use Rattle.cjc_convert.specs.Judge.Spelt.{FileTree, IsRead, SpellTrees, exports_of};
ghost use Rattle.cjc_convert.specs.List.Listed.{ListTree};
ghost use Rattle.cjc_int_theorem.specs.Components.{components_by_modes};
ghost use Rattle.cjc_int_theorem.specs.Halves.{CodeByModesBehavesAlike};
ghost use Rattle.cjc_theorem.specs.Shape.Whole.Conversion.{IsPackageByModesOf, IsPackageOf};
ghost use Rattle.cjc_theorem.specs.Alike.Halves.{CodeBehavesAlike, ComponentsRunAsCode, HasFewestBytes};
ghost use Rattle.cjc_theorem.specs.FairExports.Fair.{ExportsAreFair};

use cjc_convert::capread::readings;
use cjc_int_theorem::whole::halves_are_kept_by_modes;
use cjc_theorem::alike::{selected_code_behaves_alike, written_code_has_fewest_bytes};

/// What is converted is one package, of what its files spell, and the files that are made spell its components alone.
pub fn converted_files_spell_one_package()
    ensures some { (list : ListTree) (files : Items (Items ℕ)) (made : Written) → IsConvertedByModes list files made
        → (p : Package) × IsPackageByModesOf list files p }
    ensures one { (list : ListTree) (files : Items (Items ℕ)) (made : Written) → IsConvertedByModes list files made
        → (p q : Package) → IsPackageByModesOf list files p → IsPackageByModesOf list files q → p ≡ q }
    ensures files { (list : ListTree) (files : Items (Items ℕ)) (trees : Items FileTree)
        → SpellTrees list.lines files trees → (p : Package) → IsPackageByModesOf list files p
        → p.files ≡ files_spelt list trees }
    ensures components { (list : ListTree) (files : Items (Items ℕ)) (made : Written)
        → (is : IsConvertedByModes list files made) → (cap : CapTree) → IsSpelt cap made.caps
        → (let of = is.is_package in cap ≡ components_by_modes of.tables is.whole) }
{
    readings();
}

/// Each half of the promise of what is converted, over export files that are fair: the narrow code that is selected by
/// the modes of methods behaves as the class files, and whichever components the files that are made spell give the
/// reports of that code. Where no method is in int mode, the first is so within two instructions for one, whatever the
/// export files say. Of all legal layouts of that code none has fewer bytes than the one that is written.
pub fn both_halves_are_kept()
    ensures code { (list : ListTree) (files : Items (Items ℕ)) (made : Written) → IsRead list
        → IsConvertedByModes list files made
        → (trees : Items FileTree) → SpellTrees list.lines files trees → ExportsAreFair (exports_of trees)
        → (p : Package) → IsPackageByModesOf list files p → CodeByModesBehavesAlike list p }
    ensures short { (list : ListTree) (files : Items (Items ℕ)) (made : Written) → IsRead list
        → IsConvertedByModes list files made
        → (p : Package) → IsPackageOf list files p → CodeBehavesAlike p }
    ensures components { (list : ListTree) (files : Items (Items ℕ)) (made : Written) → IsRead list
        → IsConvertedByModes list files made
        → (trees : Items FileTree) → SpellTrees list.lines files trees → ExportsAreFair (exports_of trees)
        → (p : Package) → IsPackageByModesOf list files p → (cap : CapTree) → IsSpelt cap made.caps
        → ComponentsRunAsCode list p cap }
    ensures bytes { (list : ListTree) (files : Items (Items ℕ)) (p : Package) → IsPackageByModesOf list files p
        → HasFewestBytes p }
{
    converted_files_spell_one_package();
    halves_are_kept_by_modes();
    selected_code_behaves_alike();
    written_code_has_fewest_bytes();
}
