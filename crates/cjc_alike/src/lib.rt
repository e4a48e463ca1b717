//! That the class files of a converted package, run by name, and its components, run by token, behave alike. For whoever
//! promises so of what was converted. It has a definition and laws alone; nothing here runs.
#![tactic(auto)]

ghost use Rattle.std.specs.Prelude.{◌≡◌, ℕ, List, []};
ghost use Rattle.cjc_alike.specs.Alike.{BehaveAlike};
ghost use Rattle.cjc_components.specs.Components.{components_of};
ghost use Rattle.cjc_components.specs.Limits.{limit_breaks};
ghost use Rattle.cjc_components.specs.Package.{Package};
ghost use Rattle.cjc_fair_exports.specs.Fair.{ExportsAreFair};
ghost use Rattle.cjc_judge.specs.Spelt.{IsRead};
ghost use Rattle.cjc_judge.specs.declared.judged.Judged.{Judged};
ghost use Rattle.cjc_list.specs.Listed.{ListTree};
ghost use Rattle.cjc_prepared.specs.Prepared.{IsSound};
ghost use Rattle.cjc_whole.specs.Conversion.{IsPackageOf};
ghost use Rattle.cjc_written_sends.specs.Named.{CallsAreNamed};

use cjc_fair_exports::fair_exports_are_sound;
use cjc_insn_names::instructions_name_what_is_there;
use cjc_joined_laws::converted_components_run_by_token;
use cjc_sound_runs::sound_packages_run_alike;

/// Of a list that was read, and files that break no rule, nor does what is written for them, with export files that are fair:
/// the class files and the components of their package behave alike, where each call that its code makes names what calls can
/// name.
pub fn converted_packages_behave_alike()
    ensures { (list : ListTree) (files : List (List ℕ)) (judged : Judged) → IsRead list → IsSound list files judged
        → (p : Package) → IsPackageOf list files p → limit_breaks p ≡ [] → (let world = p.files in ExportsAreFair world.exports)
        → CallsAreNamed p → BehaveAlike list p.files (components_of p) }
{
    fair_exports_are_sound();
    instructions_name_what_is_there();
    converted_components_run_by_token();
    sound_packages_run_alike();
}
