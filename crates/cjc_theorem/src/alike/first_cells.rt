//! What the static cells of a converted package hold at first is what cells of their types hold. For whoever
//! shows that its components run as its narrow code. It has one law; nothing here runs.

ghost use Rattle.std.specs.Prelude.{◌≡◌, ℕ, List, true};
ghost use Rattle.cjc_token_proof.specs.ByToken.Cells.{are_cells};
ghost use Rattle.cjc_token_proof.specs.Clinit.Image.{IsImage};
ghost use Rattle.cjc_shape_proof.specs.WorldProof.Initialisers.Values.{StandOnce};
ghost use Rattle.cjc_components.specs.Bytecode.declared.method_code.MethodCode.{MethodCode};
ghost use Rattle.cjc_components.specs.Package.{Package};
ghost use Rattle.cjc_shape_proof.specs.LowerClasses.Descriptor.Fits.{AreFit};
ghost use Rattle.cjc_shape_proof.specs.LowerJudge.declared.judged.Judged.{Judged};
ghost use Rattle.cjc_token_proof.specs.List.Listed.{ListTree};
ghost use Rattle.cjc_token_proof.specs.Narrow.Rows.Package.{first_memory};
ghost use Rattle.cjc_token_proof.specs.Tables.Known.{statics_of};
ghost use Rattle.cjc_token_proof.specs.Tables.Sound.{AreTyped, IsSound};
ghost use Rattle.cjc_shape_proof.specs.Written.Converted.{IsConverted};

use cjc_shape_proof::written::converted_files_are_sound;
use cjc_token_proof::tables::static_fields_are_told;

/// The static cells with which narrow code begins are those of the static fields in their order, each with a
/// value that its cell can hold: an array or null, or a number of its field's type. So it is where the static
/// image is what the initialisers make, of which each class has one, its numbers are of the types of their
/// fields, and these are types that values have; and so in each converted package.
pub fn first_cells_are_typed()
    ensures image { (list : List ℕ) (p : Package) (codes : List MethodCode) → IsSound list p.files → AreTyped p.files
        → IsImage p.files codes p.image → StandOnce p.files codes → AreFit p.image
        → are_cells (statics_of (let files = p.files in files.classes)) (let memory = first_memory p.files p.image
        in memory.statics) ≡ true }
    ensures converted { (list : ListTree) (files : List (List ℕ)) (judged : Judged) (p : Package)
        → IsConverted list files judged p
        → are_cells (statics_of (let files = p.files in files.classes)) (let memory = first_memory p.files p.image
        in memory.statics) ≡ true }
{
    static_fields_are_told();
    converted_files_are_sound();
}
