//! The theorem of the type checker of components: where it passes them, no run of them by token is stuck. For whoever
//! promises so of components that were read. It has a definition and laws alone; nothing here runs.
#![tactic(auto)]

// Lower crates, for those above.
/// What crates above take of verify.
pub mod verify {
    pub use cjc_verified_proof::verify::verify;
}

ghost use Rattle.std.specs.Prelude.{ℕ, List};
ghost use Rattle.cjc_verified_proof.specs.CapRead.declared.tree.CapTree.{CapTree};
ghost use Rattle.cjc_verified_proof.specs.CheckRules.Complete.{Complete};
ghost use Rattle.cjc_theorem.specs.LowerJudge.Rules.{has_applets};
ghost use Rattle.cjc_theorem.specs.LowerJudge.declared.groups.Group.{Group};
ghost use Rattle.cjc_theorem.specs.LowerJudge.declared.judged.Judged.{Judged};
ghost use Rattle.cjc_verified_proof.specs.List.Listed.{ListTree};
ghost use Rattle.cjc_theorem.specs.FairExports.Fair.{ExportsAreFair};
ghost use Rattle.cjc_verify_theorem.specs.NeverStuck.{IsNeverStuck};
ghost use Rattle.cjc_verify_theorem.specs.Passed.{IsPassed};
ghost use Rattle.cjc_verified_proof.specs.World.declared.image.StaticImage.{StaticImage};

use cjc_theorem::fair_exports::fair_exports_are_sound;
use cjc_theorem::vtable::package_laws;
use cjc_theorem::vtable::slot_laws::tokens_mean_methods;
use cjc_verified_proof::world::lookup_laws;

/// Of components that break no rule beside a package that breaks none, over export files that are fair: no run by token
/// is stuck, for any script and any number of instructions.
pub fn never_stuck()
    ensures { (list : ListTree) (files : List (List ℕ)) (tested : List Group) (judged : Judged) (cap : CapTree)
        (c : Complete) (image : StaticImage) → IsPassed list files tested judged cap c image
        → (let world = judged.world in ExportsAreFair world.exports)
        → IsNeverStuck (has_applets list) judged.world image c }
{
    fair_exports_are_sound();
    lookup_laws();
    package_laws();
    tokens_mean_methods();
}
