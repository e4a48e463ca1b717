//! What packages by the modes of their methods keep together: what an invokespecial takes as its receiver is of the
//! class that it takes in the joint world, and what code and scripts name stands for what the joint world has. It has
//! laws alone.
ghost use Rattle.std.specs.Prelude.{◌≡◌, ℕ, Bool, List, Some, slice_get};
ghost use Rattle.cjc_script.specs.declared.script.Script.{Script};
ghost use Rattle.cjc_card_semantics.specs.Bytecode.Runs.{Agree};
ghost use Rattle.cjc_jvm_semantics.specs.Group.{joint_image, run_group};
ghost use Rattle.cjc_jvm_semantics.specs.Linked.{Method};
ghost use Rattle.cjc_joint_proof.specs.JointCode.{run as run_in_packages};
ghost use Rattle.cjc_joint_proof.specs.JointNames.{joint_named, joint_labels};
ghost use Rattle.cjc_joint_theorem.specs.Members.{Member, files_of, images_of, homes_of, tables_of};
ghost use Rattle.cjc_joint_modes.specs.Codes.{own_codes_by_mode};
ghost use Rattle.cjc_joint_modes.specs.Converted.{AreConvertedByModes};
ghost use Rattle.cjc_joint_modes.specs.Members.{AreMembersByModes, AreScriptedByModes, StandByModes, modes_of};
ghost use Rattle.cjc_joint_whole.specs.Told.{IsToldAbove};
ghost use Rattle.cjc_joint_whole_modes.specs.Whole.{AreWholeByModes};

/// Packages by the modes of their methods that break no rule are members of a group. What their code names of fields,
/// objects and methods stands for what the joint world has, where what stands above classes and interfaces is told; and
/// each method that scripts name is one of a class file of a package, with code that is begun by the tables of that
/// package, or the group has none for it.
pub fn whole_members_by_modes_are_members()
    ensures members { (members : List Member) (modes : ℕ → Method → Bool) → AreWholeByModes members modes
        → AreMembersByModes members modes }
    ensures stand { (members : List Member) (modes : ℕ → Method → Bool) → AreWholeByModes members modes
        → IsToldAbove members → StandByModes members modes }
    ensures scripted { (members : List Member) (modes : ℕ → Method → Bool) → AreWholeByModes members modes
        → AreScriptedByModes members modes }
{}

/// So for every script the joint run by name and that of their narrow code agree: of the notes of any two runs one begins
/// with the other; where the run by name of n instructions is over, the narrow run of at least 4,096 n ends alike; where
/// the narrow run of n is over, the run by name of at least 65,536 (n + 1) ends alike; and neither is ever stuck.
pub fn whole_members_by_modes_run_together()
    ensures converted { (members : List Member) (modes : ℕ → Method → Bool) (first : Member)
        → slice_get members 0 ≡ Some first → AreWholeByModes members modes → IsToldAbove members
        → AreConvertedByModes (files_of members) (joint_image (images_of members)) (homes_of members)
        (tables_of members) (modes_of members modes) }
    ensures runs { (members : List Member) (modes : ℕ → Method → Bool) (first : Member)
        → slice_get members 0 ≡ Some first → AreWholeByModes members modes → IsToldAbove members → (script : Script)
        → (let codes = own_codes_by_mode (joint_image (images_of members)) (homes_of members) (tables_of members)
        (modes_of members modes) in
        Agree 4096 (λ n. run_group (files_of members) (images_of members) script n)
        (λ n. run_in_packages (joint_named (files_of members) (joint_image (images_of members)) codes)
        (joint_labels (files_of members) codes) script n)) }
{}
