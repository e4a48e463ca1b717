//! That what the instructions of a converted package's class files name is there. For whoever promises that its
//! components do what its narrow code does. It has one law, and knows no calls; nothing here runs.

ghost use Rattle.std.specs.Prelude.{ℕ, List};
ghost use Rattle.cjc_components.specs.Package.{Package};
ghost use Rattle.cjc_shape_proof.specs.LowerJudge.declared.judged.Judged.{Judged};
ghost use Rattle.cjc_token_proof.specs.List.Listed.{ListTree};
ghost use Rattle.cjc_components.specs.Bytecode.declared.method_code.MethodCode.{MethodCode};
ghost use Rattle.cjc_shape_proof.specs.Written.Checked.{IsOfFiles};
ghost use Rattle.cjc_shape_proof.specs.Written.Converted.{IsConverted};
ghost use Rattle.cjc_components.specs.Bytecode.PackageCodes.{all_codes};
ghost use Rattle.cjc_token_proof.specs.Clinit.Image.{IsImage};
ghost use Rattle.cjc_token_proof.specs.WrittenSends.Named.{InstructionsNameWhatIsThere};

use cjc_token_proof::tables::{fields_are_typed, static_fields_are_told};

/// What an instruction of a package's methods names is there: a static field that is no constant has a cell in the
/// static image and is of a type that values have, an instance field is one of the class in which it is found, and the
/// class of a new, an anewarray, a checkcast or an instanceof is in some file. So it is where the image is what the
/// initialisers make, whichever methods are in int mode.
pub fn instructions_of_files_name_what_is_there()
    ensures { (list : ListTree) (codes : List MethodCode) (p : Package) → IsOfFiles list codes p
        → (let w = p.files in IsImage p.files (all_codes w.classes) p.image) → InstructionsNameWhatIsThere p }
{
    fields_are_typed();
    static_fields_are_told();
}

/// So it is with a converted package.
pub fn instructions_name_what_is_there()
    ensures { (list : ListTree) (files : List (List ℕ)) (judged : Judged) (p : Package)
        → IsConverted list files judged p → InstructionsNameWhatIsThere p }
{
    instructions_of_files_name_what_is_there();
}
