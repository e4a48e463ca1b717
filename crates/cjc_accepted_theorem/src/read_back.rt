//! What is read back: the type checker finds nothing in the components that are written for a converted package, beside
//! the files that it was converted from.
ghost use Rattle.std.specs.Prelude.{◌≡◌, ℕ, List, Some};
ghost use Rattle.cjc_verified_proof.specs.CheckRules.Complete.{Complete, complete};
ghost use Rattle.cjc_verified_proof.specs.Bytecode.PackageCodes.{all_codes};
ghost use Rattle.cjc_verified_proof.specs.Components.Components.{components_of};
ghost use Rattle.cjc_verified_proof.specs.Components.Package.{Package};
ghost use Rattle.cjc_theorem.specs.LowerJudge.Rules.{files_spelt, has_applets};
ghost use Rattle.cjc_theorem.specs.LowerJudge.Spelt.{FileTree, SpellTrees, classes_of};
ghost use Rattle.cjc_theorem.specs.LowerJudge.declared.judged.Judged.{Judged};
ghost use Rattle.cjc_verified_proof.specs.Clinit.Image.{IsImage};
ghost use Rattle.cjc_verified_proof.specs.List.Listed.{ListTree};
ghost use Rattle.cjc_verified_proof.specs.Verify.Pairs.{pair_of};
ghost use Rattle.cjc_verified_proof.specs.Verify.Verified.{IsVerified};
ghost use Rattle.cjc_verified_proof.specs.World.declared.image.StaticImage.{StaticImage};
ghost use Rattle.cjc_accepted_proof.specs.Written.{written_pair};
ghost use Rattle.cjc_accepted_theorem.specs.Readable.{IsReadable};

use cjc_accepted_proof::check_proof::code::components_are_whole;

/// Where what is written for a converted package breaks no rule of the type checker, what is read back breaks none:
/// whatever trees its files spell, and whatever image their initialisers make, beside the components that are written.
pub fn written_components_are_accepted()
    ensures { (list : ListTree) (files : List (List ℕ)) (judged : Judged) (p : Package)
        → IsReadable list files judged p → IsVerified (written_pair p)
        → (trees : List FileTree) → SpellTrees list.lines files trees
        → (image : StaticImage) → IsImage (files_spelt list trees) (all_codes (classes_of trees)) image
        → (c : Complete) → complete (components_of p) ≡ Some c
        → IsVerified (pair_of (has_applets list) (files_spelt list trees) image c) }
{
    components_are_whole();
}
