//! Packages whose methods are of both modes, together: the tables of each method are those of its own package and mode,
//! and what its code names is looked up there and stands for what the joint world has. It has definitions and laws
//! alone.
ghost use Rattle.std.specs.Prelude.{◌≡◌, Bool, List};
ghost use Rattle.cjc_script.specs.declared.script.Script.{Script};
ghost use Rattle.cjc_card_semantics.specs.Bytecode.Runs.{Agree};
ghost use Rattle.cjc_world.specs.Files.{Files};
ghost use Rattle.cjc_world.specs.declared.image.StaticImage.{StaticImage};
ghost use Rattle.cjc_jvm_semantics.specs.Linked.{Method};
ghost use Rattle.cjc_jvm_semantics.specs.Group.{joint_image, run_group};
ghost use Rattle.cjc_narrow_proof.specs.Runs.Tables.{Tables};
ghost use Rattle.cjc_joint_proof.specs.JointCode.{run as run_in_packages};
ghost use Rattle.cjc_joint_proof.specs.JointNames.{place_of, joint_named, joint_labels};
ghost use Rattle.cjc_joint_theorem.specs.Asked.{run as narrow_run};
ghost use Rattle.cjc_joint_theorem.specs.Together.Homes.{Homes};
ghost use Rattle.cjc_joint_modes.specs.Codes.{group_codes_by_mode, own_codes_by_mode};
ghost use Rattle.cjc_joint_modes.specs.Converted.{AreConvertedByModes};

/// The joint run of several packages by name and the run of the narrow code that is written for each by the modes of
/// its methods agree, for every script: of the notes of any two runs one begins with the other; where the run by name
/// of n instructions is not Running, the narrow run of at least 4,096 n ends alike; where the narrow run of n is not
/// Running, the run by name of at least 65,536 (n + 1) ends alike; and neither is ever stuck. So it is where the least
/// tables of all methods break no rule of their mode, and class files and export files have what code and scripts name.
/// It is so of narrow code whose calls tell who asks, and of the code that is written for each package by itself, where
/// each method knows its package.
pub fn packages_by_modes_run_together()
    ensures asked { (group : List Files) (images : List StaticImage) (homes : Homes) (tables : Tables)
        (is_int : Method → Bool) → AreConvertedByModes group (joint_image images) homes tables is_int
        → (script : Script) → Agree 4096 (λ n. run_group group images script n)
        (λ n. narrow_run group (joint_image images) (group_codes_by_mode homes tables is_int) script n) }
    ensures in_packages { (group : List Files) (images : List StaticImage) (homes : Homes) (tables : Tables)
        (is_int : Method → Bool) → AreConvertedByModes group (joint_image images) homes tables is_int
        → ((m : Method) → (let h = homes m in h.number) ≡ (let id = m.id in place_of group id.class))
        → (script : Script) → (let codes = own_codes_by_mode (joint_image images) homes tables is_int in
        Agree 4096 (λ n. run_group group images script n)
        (λ n. run_in_packages (joint_named group (joint_image images) codes) (joint_labels group codes) script n)) }
{}
