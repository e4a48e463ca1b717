//! Packages that were converted by themselves, by the modes of their methods, as members of a group: each is what it
//! was, and what is asked of them together follows, but for the fields, objects and methods that code and scripts name.
//! It has definitions and laws alone.
ghost use Rattle.std.specs.Prelude.{◌≡◌, ℕ, Bool, List, Some, slice_get};
ghost use Rattle.cjc_script.specs.declared.script.Script.{Script};
ghost use Rattle.cjc_card_semantics.specs.Bytecode.Runs.{Agree};
ghost use Rattle.cjc_jvm_semantics.specs.Group.{joint_image, run_group};
ghost use Rattle.cjc_jvm_semantics.specs.Linked.{Method};
ghost use Rattle.cjc_joint_proof.specs.JointCode.{run as run_in_packages};
ghost use Rattle.cjc_joint_proof.specs.JointNames.{joint_named, joint_labels};
ghost use Rattle.cjc_joint_theorem.specs.Members.{Member, files_of, images_of, homes_of, tables_of};
ghost use Rattle.cjc_joint_modes.specs.Codes.{own_codes_by_mode};
ghost use Rattle.cjc_joint_modes.specs.Converted.{AreConvertedByModes};
ghost use Rattle.cjc_joint_modes.specs.Members.{modes_of, AreMembersByModes, StandByModes, AreScriptedByModes};

/// Packages each of which was converted by the modes of its methods have together methods with tables that break no
/// rule of their mode, classes with names of classes, exceptions that are imported, and images of sound types. So they
/// run alike, where what their code names of fields, objects and methods, and what scripts name, stands for what the
/// joint world has.
pub fn members_by_modes_run_together()
    ensures converted { (members : List Member) (modes : ℕ → Method → Bool) (first : Member)
        → slice_get members 0 ≡ Some first → AreMembersByModes members modes → StandByModes members modes
        → AreScriptedByModes members modes → AreConvertedByModes (files_of members) (joint_image (images_of members))
        (homes_of members) (tables_of members) (modes_of members modes) }
    ensures runs { (members : List Member) (modes : ℕ → Method → Bool) (first : Member)
        → slice_get members 0 ≡ Some first → AreMembersByModes members modes → StandByModes members modes
        → AreScriptedByModes members modes → (script : Script)
        → (let codes = own_codes_by_mode (joint_image (images_of members)) (homes_of members) (tables_of members)
        (modes_of members modes) in
        Agree 4096 (λ n. run_group (files_of members) (images_of members) script n)
        (λ n. run_in_packages (joint_named (files_of members) (joint_image (images_of members)) codes)
        (joint_labels (files_of members) codes) script n)) }
{}
