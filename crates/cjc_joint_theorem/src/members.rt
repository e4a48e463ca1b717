//! Packages that were converted by themselves, as members of a group: each is what it was, and what is asked of them
//! together follows, but for the fields, objects and methods that code and scripts name. It has definitions and laws
//! alone.
ghost use Rattle.std.specs.Prelude.{◌≡◌, ℕ, List, Some, slice_get};
ghost use Rattle.cjc_script.specs.declared.script.Script.{Script};
ghost use Rattle.cjc_card_semantics.specs.Bytecode.Runs.{Agree};
ghost use Rattle.cjc_jvm_semantics.specs.Group.{joint_image, run_group};
ghost use Rattle.cjc_joint_proof.specs.JointCode.{run as run_in_packages};
ghost use Rattle.cjc_joint_proof.specs.JointNames.{joint_named, joint_labels};
ghost use Rattle.cjc_joint_theorem.specs.Together.Homes.{own_codes};
ghost use Rattle.cjc_joint_theorem.specs.Together.Converted.{AreConverted};
ghost use Rattle.cjc_joint_theorem.specs.Members.{Member, files_of, images_of, homes_of, tables_of, AreMembers};
ghost use Rattle.cjc_joint_theorem.specs.Members.{StandTogether, AreScripted};

/// Packages each of which was converted have together methods with tables that break no rule, classes with names of
/// classes, exceptions that are imported, and images of sound types. So they run alike, where what their code names of
/// fields, objects and methods, and what scripts name, stands for what the joint world has.
pub fn members_run_together()
    ensures converted { (members : List Member) (first : Member) → slice_get members 0 ≡ Some first
        → AreMembers members → StandTogether members → AreScripted members
        → AreConverted (files_of members) (joint_image (images_of members)) (homes_of members) (tables_of members) }
    ensures runs { (members : List Member) (first : Member) → slice_get members 0 ≡ Some first
        → AreMembers members → StandTogether members → AreScripted members → (script : Script)
        → (let codes = own_codes (homes_of members) (tables_of members) in
        Agree 2 (λ n. run_group (files_of members) (images_of members) script n)
        (λ n. run_in_packages (joint_named (files_of members) (joint_image (images_of members)) codes)
        (joint_labels (files_of members) codes) script n)) }
{}
