//! That the components of a package by modes behave as its class files. Laws alone: nothing here runs.
ghost use Rattle.std.specs.List.{Contains};
ghost use Rattle.std.specs.Prelude.{◌≡◌, ℕ, Bool, false, List, Some};
ghost use Rattle.cjc_bytes.specs.Descriptor.{IsClassName};
ghost use Rattle.cjc_bytes.specs.declared.fault.MemberId.{MemberId};
ghost use Rattle.cjc_check_proof.specs.TokenProof.Tables.Loading.{loaded};
ghost use Rattle.cjc_shape_proof.specs.LowerJudge.declared.judged.Judged.{Judged};
ghost use Rattle.cjc_check_proof.specs.TokenProof.WrittenCalls.Standing.{laid_code};
ghost use Rattle.cjc_jvm_semantics.specs.ByName.{run as run_by_name};
ghost use Rattle.cjc_classes.specs.JvmSemantics.Effects.{Fault, exception_class};
ghost use Rattle.cjc_classes.specs.JvmSemantics.Linked.{Method};
ghost use Rattle.cjc_classes.specs.JvmSemantics.OnePackage.{is_initialiser, method_at, method_by};
ghost use Rattle.cjc_classes.specs.List.Listed.{ListTree};
ghost use Rattle.cjc_classes.specs.Narrow.Rows.Selected.{near_fields};
ghost use Rattle.cjc_classes.specs.Types.Flow.{body_of};
ghost use Rattle.cjc_classes.specs.Types.Tables.{IsMethodOf};
ghost use Rattle.cjc_components.specs.Bytecode.declared.method_code.MethodCode.{MethodCode};
ghost use Rattle.cjc_components.specs.Package.{Package, pool};
ghost use Rattle.cjc_narrow_proof.specs.CardSemantics.Bytecode.Runs.{Agree};
ghost use Rattle.cjc_narrow_proof.specs.CardSemantics.Machine.ByToken.{run as run_by_token};
ghost use Rattle.cjc_narrow_proof.specs.Runs.Converted.{IsException, IsFirst};
ghost use Rattle.cjc_narrow_proof.specs.Runs.Tables.{Tables as RunTables};
ghost use Rattle.cjc_narrow_proof.specs.Script.declared.script.Script.{Script};
ghost use Rattle.cjc_world.specs.ClassFile.Code.{CodeTree};
ghost use Rattle.cjc_world.specs.ClassFile.declared.tree.ClassTree.{ClassTree};
ghost use Rattle.cjc_world.specs.ClassFile.declared.tree.MethodTree.{MethodTree};
ghost use Rattle.cjc_world.specs.Classes.{Class, all_classes, class_named};
ghost use Rattle.cjc_world.specs.declared.found.Found.{Found};
ghost use Rattle.cjc_int_alike.specs.ByModes.{HasIntTables, PassesInIntMode, codes_by_mode, look_ups_by_mode};
ghost use Rattle.cjc_int_alike.specs.Converted.{IsNarrowedByModes};
ghost use Rattle.cjc_int_components.specs.Modes.{Tables};
ghost use Rattle.cjc_int_narrow.specs.LowerIntMode.declared.modes.Mode.TheVariants as modes;
ghost use Rattle.cjc_int_theorem.specs.Alike.{AreRunBy, BehavesByModes, IsJudgedByModes, IsPassedByModes};
ghost use Rattle.cjc_int_theorem.specs.ByModes.{IsConvertedByModes};
ghost use Rattle.cjc_int_theorem.specs.Tabled.{AreTabledByModes};
ghost use Rattle.cjc_theorem.specs.Alike.Halves.{run_by_label};

use crate::joined::components_by_modes_run_by_token;
use cjc_int_alike::packages::packages_by_modes_run_alike;

/// What Method has of each method of a class file is its narrow code by its least tables and its mode, none of an
/// initialiser. So the class files, run by name, and that code, run by label, and the components, run by token, agree for
/// every script: of the notes of any two runs one begins with the other; where the run by name of n instructions is over, the run by token of at
/// least 4,096 n ends alike; where the run by token of n is over, the run by name of at least 65,536 (n + 1) ends
/// alike; and neither is ever stuck.
pub fn components_by_modes_behave_as_class_files()
    ensures code { (list : ListTree) (codes : List MethodCode) (t : Tables) (p : Package)
        → IsConvertedByModes list codes t p → (tables : RunTables) (in_int_mode : Method → Bool)
        → AreRunBy p.files t tables in_int_mode → (f : Found) (x : Method) → method_at p.files f ≡ Some x
        → codes_by_mode p.files p.image (near_fields (pool p)) tables in_int_mode x ≡ laid_code p x }
    ensures labels { (list : ListTree) (codes : List MethodCode) (t : Tables) (p : Package)
        → BehavesByModes list codes t p → (script : Script)
        → Agree 4096 (λ n. run_by_name p.files p.image script n) (λ n. run_by_label p script n) }
    ensures runs { (list : ListTree) (codes : List MethodCode) (t : Tables) (p : Package)
        → BehavesByModes list codes t p → (script : Script)
        → Agree 4096 (λ n. run_by_name p.files p.image script n) (λ n. run_by_token (loaded p) script n) }
{
    components_by_modes_run_by_token();
    packages_by_modes_run_alike();
}

/// Of what is asked of such a package, its rules give that classes have names of classes, that the machine's own
/// exceptions are imported, that what its image says is of sound types, and that each method in int mode has its
/// tables, where no operand breaks one of 605 and 607 to 609.
pub fn packages_by_modes_have_their_tables()
    ensures names { (list : ListTree) (codes : List MethodCode) (t : Tables) (p : Package)
        → IsConvertedByModes list codes t p → (name : List ℕ) (c : Class)
        → class_named (all_classes p.files) name ≡ Some c → IsClassName name }
    ensures exceptions { (list : ListTree) (codes : List MethodCode) (t : Tables) (p : Package)
        → IsConvertedByModes list codes t p → (fault : Fault)
        → IsException (all_classes p.files) (exception_class fault) }
    ensures first { (list : ListTree) (codes : List MethodCode) (t : Tables) (p : Package)
        → IsConvertedByModes list codes t p → (near : List MemberId) (tables : RunTables)
        (in_int_mode : Method → Bool)
        → IsFirst (look_ups_by_mode p.files p.image near tables in_int_mode) p.files p.image }
    ensures int_methods { (list : ListTree) (codes : List MethodCode) (t : Tables) (p : Package)
        → IsConvertedByModes list codes t p → (code : MethodCode) (class : ClassTree) (method : MethodTree)
        (tree : CodeTree) → IsMethodOf p.files code class method tree → Contains codes code
        → is_initialiser method.name ≡ false → (tables : RunTables) (in_int_mode : Method → Bool)
        → AreRunBy p.files t tables in_int_mode → t.mode (method_by class method (Some tree)) ≡ modes.Int
        → PassesInIntMode (body_of class method tree code.insns) (t.types (method_by class method (Some tree)))
        (t.ranges (method_by class method (Some tree)))
        → HasIntTables p.files tables (method_by class method (Some tree)) }
{}

/// And where each of its methods with code has least tables that break none of the rules of its mode, and no other has
/// a row or is in int mode, the rest is so too: what its code and scripts name is found in the class files and export
/// files, and has one word where the code is not in int mode. So its narrow code by these tables and modes runs as its
/// class files.
pub fn packages_by_modes_find_their_names()
    ensures { (list : ListTree) (codes : List MethodCode) (t : Tables) (p : Package)
        → IsConvertedByModes list codes t p → (near : List MemberId) (tables : RunTables)
        (in_int_mode : Method → Bool) → AreTabledByModes p.files codes tables in_int_mode
        → IsNarrowedByModes p.files p.image near tables in_int_mode }
{}

/// A package by modes that breaks no rule, where no number breaks one of 601 to 609 that binds the mode of its method,
/// has tables by which its components behave as its class files.
pub fn passed_packages_behave_by_modes()
    ensures { (list : ListTree) (codes : List MethodCode) (t : Tables) (p : Package)
        → IsPassedByModes list codes t p → BehavesByModes list codes t p }
{}

/// Of a list that was read and of files that were judged and break no rule, the package by the modes of its methods is
/// such a one, where it breaks none of the rules that speak of what is written for it. So its class files, run by name,
/// and its components, run by token, agree for every script.
pub fn judged_packages_behave_by_modes()
    ensures passed { (list : ListTree) (files : List (List ℕ)) (judged : Judged) (t : Tables) (p : Package)
        → IsJudgedByModes list files judged t p → IsPassedByModes list judged.codes t p }
    ensures runs { (list : ListTree) (files : List (List ℕ)) (judged : Judged) (t : Tables) (p : Package)
        → IsJudgedByModes list files judged t p → (script : Script)
        → Agree 4096 (λ n. run_by_name p.files p.image script n) (λ n. run_by_token (loaded p) script n) }
{
    components_by_modes_behave_as_class_files();
    passed_packages_behave_by_modes();
}
