//! Packages that run together keep the rules by which whole runs of class files and of narrow code agree: the tables of
//! each method are those of its own package, and what its code names is looked up there and stands for what the joint
//! world has. It has definitions and laws alone. It knows no token and no component.
ghost use Rattle.std.specs.Prelude.{◌≡◌, List};
ghost use Rattle.cjc_script.specs.declared.script.Script.{Script};
ghost use Rattle.cjc_card_semantics.specs.Bytecode.Runs.{Agree};
ghost use Rattle.cjc_world.specs.Files.{Files};
ghost use Rattle.cjc_world.specs.declared.image.StaticImage.{StaticImage};
ghost use Rattle.cjc_jvm_semantics.specs.Linked.{Method};
ghost use Rattle.cjc_jvm_semantics.specs.Group.{joint_image, run_group};
ghost use Rattle.cjc_narrow_proof.specs.Runs.Tables.{Tables};
ghost use Rattle.cjc_joint_proof.specs.JointCode.{run as run_in_packages};
ghost use Rattle.cjc_joint_proof.specs.JointNames.{place_of, joint_named, joint_labels};
ghost use Rattle.cjc_joint_theorem.specs.Asked.{run as narrow_run};
ghost use Rattle.cjc_joint_theorem.specs.Together.Homes.{Homes, group_codes, own_codes};
ghost use Rattle.cjc_joint_theorem.specs.Together.Converted.{AreConverted};

/// The joint run of several packages by name and the run of the narrow code that is written for each agree, for every
/// script: of the notes of any two runs one begins with the other; where the run by name of n instructions is not
/// Running, the narrow run of at least 2n ends alike; where the narrow run of n is not Running, the run by name of at
/// least 65,536 (n + 1) ends alike; and neither is ever stuck. So it is where the least tables of all methods break no
/// rule, and class files and export files have what code and scripts name. It is so of narrow code whose calls tell who
/// asks, and of the code that is written for each package by itself, where each method knows its package.
pub fn packages_run_together()
    ensures asked { (group : List Files) (images : List StaticImage) (homes : Homes) (tables : Tables)
        → AreConverted group (joint_image images) homes tables → (script : Script)
        → Agree 2 (λ n. run_group group images script n) (λ n. narrow_run group (joint_image images)
        (group_codes homes tables) script n) }
    ensures in_packages { (group : List Files) (images : List StaticImage) (homes : Homes) (tables : Tables)
        → AreConverted group (joint_image images) homes tables
        → ((m : Method) → (let h = homes m in h.number) ≡ (let id = m.id in place_of group id.class))
        → (script : Script)
        → Agree 2 (λ n. run_group group images script n) (λ n. run_in_packages (joint_named group (joint_image images)
        (own_codes homes tables)) (joint_labels group (own_codes homes tables)) script n) }
{}
