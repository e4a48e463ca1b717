//! Narrow code of several packages by two machines: one whose frames know the package of their method, and one whose
//! calls tell it. They run alike. It has laws alone, for whoever joins a run of class files to one of components.
ghost use Rattle.std.specs.Prelude.{◌≡◌, ℕ, List};
ghost use Rattle.cjc_script.specs.declared.report.Outcome.TheVariants.{Stuck};
ghost use Rattle.cjc_script.specs.declared.script.Script.{Script};
ghost use Rattle.cjc_world.specs.Files.{Files};
ghost use Rattle.cjc_world.specs.declared.image.StaticImage.{StaticImage};
ghost use Rattle.cjc_ncode.specs.declared.narrow.NMethod.{NMethod};
ghost use Rattle.cjc_jvm_semantics.specs.Linked.{Method};
ghost use Rattle.cjc_joint_proof.specs.JointCode.{run as run_in_packages};
ghost use Rattle.cjc_joint_proof.specs.JointNames.{place_of, joint_named, joint_labels};
ghost use Rattle.cjc_joint_theorem.specs.Asked.{code_by, run};

/// Where the calls of each method tell its package, and that run is not stuck, the machine that knows the package of
/// each method gives the same report.
pub fn asked_code_runs_in_packages()
    ensures { (group : List Files) (image : StaticImage) (one other : Method → NMethod)
        → ((m : Method) → other m ≡ code_by (let id = m.id in place_of group id.class) (one m))
        → (script : Script) (n : ℕ)
        → ((at : ℕ) → (let r = run group image other script n in r.outcome) ≡ Stuck at → ⊥)
        → run group image other script n ≡ run_in_packages (joint_named group image one) (joint_labels group one)
        script n }
{}
