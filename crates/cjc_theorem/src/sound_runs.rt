//! A package whose files break no rule that is tested before it is written, over sound export files, has narrow
//! code that runs as its class files. Laws alone, for whoever promises that what was converted behaves as its
//! class files. Nothing here runs.
ghost use Rattle.std.specs.Prelude.{◌≡◌, ℕ, List, Option, Some, slice_get};
ghost use Rattle.cjc_token_proof.specs.CardSemantics.Bytecode.Runs.{Agree};
ghost use Rattle.cjc_jvm_semantics.specs.ByName.{run as run_by_name};
ghost use Rattle.cjc_world.specs.ClassFile.Code.{CodeTree};
ghost use Rattle.cjc_world.specs.ClassFile.declared.tree.ClassTree.{ClassTree};
ghost use Rattle.cjc_world.specs.ClassFile.declared.tree.MethodTree.{MethodTree};
ghost use Rattle.cjc_token_proof.specs.Clinit.Image.{IsImage};
ghost use Rattle.cjc_components.specs.Bytecode.PackageCodes.{all_codes};
ghost use Rattle.cjc_components.specs.Bytecode.declared.method_code.MethodCode.{MethodCode};
ghost use Rattle.cjc_components.specs.Package.{Package};
ghost use Rattle.cjc_shape_proof.specs.LowerJudge.Rules.{settings_of};
ghost use Rattle.cjc_shape_proof.specs.LowerJudge.Spelt.{IsRead};
ghost use Rattle.cjc_shape_proof.specs.LowerJudge.declared.judged.Judged.{Judged};
ghost use Rattle.cjc_token_proof.specs.List.Listed.{ListTree};
ghost use Rattle.cjc_token_proof.specs.Narrow.Rows.Package.{run as narrow_run};
ghost use Rattle.cjc_token_proof.specs.Narrow.Rows.Resolved.{constant_named};
ghost use Rattle.cjc_shape_proof.specs.Whole.{IsWhole};
ghost use Rattle.cjc_narrow_proof.specs.Runs.Tables.{Tables};
ghost use Rattle.cjc_shape_proof.specs.LowerShape.Prepared.{IsSound};
ghost use Rattle.cjc_shape_proof.specs.Intervals.Frames.{RangeState};
ghost use Rattle.cjc_shape_proof.specs.Intervals.Tables.{IsLeastRanges, Passes};
ghost use Rattle.cjc_token_proof.specs.Script.declared.script.Script.{Script};
ghost use Rattle.cjc_shape_proof.specs.WorldProof.Files.{ExportsAreSound};
ghost use Rattle.cjc_token_proof.specs.Types.Flow.{body_of};
ghost use Rattle.cjc_token_proof.specs.Types.Tables.{IsMethodOf, IsTypeTable, rows_of};
ghost use Rattle.cjc_token_proof.specs.Types.declared.table.TypeTable.{TypeTable};
ghost use Rattle.cjc_shape_proof.specs.LowerShape.Whole.Conversion.{AreShort, IsDraft, IsPackageOf};
ghost use Rattle.cjc_world.specs.Classes.{all_classes};
ghost use Rattle.cjc_token_proof.specs.WrittenCalls.Standing.{laid_code};

use crate::whole_runs::whole_packages_run_alike;
use cjc_narrow_proof::intervals::range_laws::least_ranges_exist;

/// Each number that an instruction takes lies where its rules say, by the least intervals of each method of a
/// package that breaks no rule, and none of whose methods is in int mode.
pub fn numbers_of_sound_packages_fit()
    ensures { (list : ListTree) (files : List (List ℕ)) (judged : Judged) → IsSound list files judged
        → AreShort list.ints judged.world → (k : ℕ) (code : MethodCode) → slice_get judged.codes k ≡ Some code
        → (class : ClassTree) (method : MethodTree) (tree : CodeTree)
        → IsMethodOf judged.world code class method tree
        → (table : TypeTable) → IsTypeTable (all_classes judged.world) (body_of class method tree code.insns) table
        → (ranges : List (Option RangeState)) → IsLeastRanges (body_of class method tree code.insns)
        (constant_named judged.world (all_classes judged.world)) (rows_of (body_of class method tree code.insns)
        table) ranges
        → Passes (body_of class method tree code.insns) (rows_of (body_of class method tree code.insns) table) ranges }
{}

/// Of a list that was read and files that break no rule, over sound export files, each method has its least tables,
/// where none that is written is in int mode. So the run of the package's class files by name and the run of its narrow
/// code agree, for every script: of the notes of any two runs one begins with the other; where the run by name of n
/// instructions is not Running, the narrow run of at least 2n ends alike; where the narrow run of n is not Running, the
/// run by name of at least 65,536 (n + 1) ends alike, each with the same outcome, heap and static cells; and neither is
/// ever stuck. It is so of the package before its methods are laid out, whatever static image its initialisers make,
/// and of the package that is written.
pub fn sound_packages_run_alike()
    ensures tabled { (list : ListTree) (files : List (List ℕ)) (judged : Judged) → IsRead list
        → IsSound list files judged → AreShort list.ints judged.world → ExportsAreSound judged.world
        → (tables : Tables) × IsWhole list.name judged.world judged.codes (settings_of list) tables }
    ensures drafts { (list : ListTree) (files : List (List ℕ)) (judged : Judged) → IsRead list
        → IsSound list files judged → AreShort list.ints judged.world → ExportsAreSound judged.world
        → (p : Package) → IsDraft list files p → (let w = p.files in IsImage p.files (all_codes w.classes) p.image)
        → (script : Script)
        → Agree 2 (λ n. run_by_name p.files p.image script n) (λ n. narrow_run p.files p.image (laid_code p) script n) }
    ensures packages { (list : ListTree) (files : List (List ℕ)) (judged : Judged) → IsRead list
        → IsSound list files judged → ExportsAreSound judged.world
        → (p : Package) → IsPackageOf list files p → (script : Script)
        → Agree 2 (λ n. run_by_name p.files p.image script n) (λ n. narrow_run p.files p.image (laid_code p) script n) }
{
    least_ranges_exist();
    whole_packages_run_alike();
}
