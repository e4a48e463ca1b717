//! The narrow code of a package that breaks no rule over sound export files runs as its class files: what the
//! instructions of its methods name fits their types, and what its static image says is of sound types. Laws
//! alone: nothing here runs.
ghost use Rattle.std.specs.Prelude.{ℕ, List};
ghost use Rattle.cjc_token_proof.specs.CardSemantics.Bytecode.Runs.{Agree};
ghost use Rattle.cjc_bytes.specs.Breaks.{Break};
ghost use Rattle.cjc_bytes.specs.declared.fault.MemberId.{MemberId};
ghost use Rattle.cjc_bytes.specs.declared.settings.Settings.{Settings};
ghost use Rattle.cjc_jvm_semantics.specs.ByName.{run as run_by_name};
ghost use Rattle.cjc_jvm_semantics.specs.Linked.{Method};
ghost use Rattle.cjc_token_proof.specs.Clinit.Image.{IsImage};
ghost use Rattle.cjc_token_proof.specs.Clinit.Rules.{BreaksImage};
ghost use Rattle.cjc_components.specs.Bytecode.declared.method_code.MethodCode.{MethodCode};
ghost use Rattle.cjc_token_proof.specs.Narrow.Rows.Package.{run as narrow_run};
ghost use Rattle.cjc_shape_proof.specs.Whole.{IsWhole};
ghost use Rattle.cjc_narrow_proof.specs.Runs.Converted.{IsConverted, IsFirst};
ghost use Rattle.cjc_narrow_proof.specs.Runs.Names.{AreNamed};
ghost use Rattle.cjc_narrow_proof.specs.Runs.Tables.{Tables, look_ups, narrow_codes};
ghost use Rattle.cjc_token_proof.specs.Script.declared.script.Script.{Script};
ghost use Rattle.cjc_world.specs.Files.{Files};
ghost use Rattle.cjc_world.specs.declared.image.StaticImage.{StaticImage};

/// Each instruction that the type table of a method reaches is one that the card has, and what it names is in
/// the class files and export files and fits the types of the stack. So the narrow code of the package runs as
/// its class files, for every script, where what the image says is of sound types.
pub fn instructions_fit_their_files()
    ensures named { (list : List ℕ) (files : Files) (codes : List MethodCode) (settings : Settings) (tables : Tables)
        → IsWhole list files codes settings tables
        → (image : StaticImage) (near : List MemberId) (m : Method) → AreNamed files image near tables m }
    ensures converted { (list : List ℕ) (files : Files) (codes : List MethodCode) (settings : Settings)
        (tables : Tables) → IsWhole list files codes settings tables
        → (image : StaticImage) (near : List MemberId) → IsFirst (look_ups files image near tables) files image
        → IsConverted files image near tables }
{}

/// The static image of such a package, whose initialisers break no rule, is of sound types: its arrays are of
/// so many numbers of their type, and each static cell holds what its descriptor says. So the run of the class
/// files by name and the run of the narrow code that is written for them agree, for every script.
pub fn whole_packages_run_alike()
    ensures first { (list : List ℕ) (files : Files) (codes : List MethodCode) (settings : Settings) (tables : Tables)
        → IsWhole list files codes settings tables
        → (image : StaticImage) → IsImage files codes image → ((b : Break) → BreaksImage files codes b → ⊥)
        → (near : List MemberId) → IsFirst (look_ups files image near tables) files image }
    ensures runs { (list : List ℕ) (files : Files) (codes : List MethodCode) (settings : Settings) (tables : Tables)
        → IsWhole list files codes settings tables
        → (image : StaticImage) → IsImage files codes image → ((b : Break) → BreaksImage files codes b → ⊥)
        → (near : List MemberId) → (script : Script)
        → Agree 2 (λ n. run_by_name files image script n) (λ n. narrow_run files image (narrow_codes files near tables)
        script n) }
{}
