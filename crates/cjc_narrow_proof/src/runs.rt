//! Class files and the narrow code that is written for them run alike, on numbers of 32 bits and on words of
//! 16, by the least tables of a package that break no rule. It has definitions and laws alone, for whoever
//! promises that what was converted behaves as its class files. It knows no token and no component.
ghost use Rattle.std.specs.Prelude.{List};
ghost use Rattle.cjc_bytes.specs.declared.fault.MemberId.{MemberId};
ghost use Rattle.cjc_script.specs.declared.script.Script.{Script};
ghost use Rattle.cjc_card_semantics.specs.Bytecode.Runs.{Agree};
ghost use Rattle.cjc_world.specs.Files.{Files};
ghost use Rattle.cjc_world.specs.declared.image.StaticImage.{StaticImage};
ghost use Rattle.cjc_jvm_semantics.specs.ByName.{run as run_by_name};
ghost use Rattle.cjc_narrow.specs.Rows.Package.{run as narrow_run};
ghost use Rattle.cjc_narrow_proof.specs.Runs.Tables.{Tables, narrow_codes};
ghost use Rattle.cjc_narrow_proof.specs.Runs.Converted.{IsConverted};

/// The run of a package's class files by name and the run of the narrow code that is written for its reached
/// instructions agree, for every script: of the notes of any two runs one begins with the other; where the run
/// by name of n instructions is not Running, the narrow run of at least 2n ends alike; where the narrow run of
/// n is not Running, the run by name of at least 65,536 (n + 1) ends alike; and neither is ever stuck. So it is
/// where the least tables of all methods break no rule, and class files and export files have what code and
/// scripts name.
pub fn narrow_code_runs_alike()
    ensures { (files : Files) (image : StaticImage) (near : List MemberId) (tables : Tables)
        → IsConverted files image near tables → (script : Script) → Agree 2 (λ n. run_by_name files image script n)
        (λ n. narrow_run files image (narrow_codes files near tables) script n) }
{}
