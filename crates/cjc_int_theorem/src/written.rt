//! What is written for a package by the modes of its methods, which breaks no rule. Laws alone: nothing here runs.
ghost use Rattle.std.specs.Prelude.{◌≡◌, ◌≢◌, ℕ, Bool, List, [], Some, slice_get};
ghost use Rattle.cjc_check_proof.specs.TokenProof.Tables.Loading.{loaded};
ghost use Rattle.cjc_check_proof.specs.TokenProof.WrittenCalls.Standing.{AreReady, IsSmall, laid_code};
ghost use Rattle.cjc_check_proof.specs.TokenProof.WrittenSends.Named.{CodeNamesAsWritten};
ghost use Rattle.cjc_classes.specs.List.Listed.{ListTree};
ghost use Rattle.cjc_classes.specs.Narrow.Rows.Package.{run as run_by_label};
ghost use Rattle.cjc_classes.specs.Narrow.Rows.Selected.{near_fields};
ghost use Rattle.cjc_components.specs.Bytecode.declared.method_code.MethodCode.{MethodCode};
ghost use Rattle.cjc_components.specs.Names.{names};
ghost use Rattle.cjc_components.specs.Package.{Package, pool};
ghost use Rattle.cjc_narrow_proof.specs.CardSemantics.Machine.ByToken.{run as run_by_token};
ghost use Rattle.cjc_narrow_proof.specs.NCode.ByLabel.{Callee};
ghost use Rattle.cjc_narrow_proof.specs.Script.declared.report.Outcome.TheVariants.{Stuck};
ghost use Rattle.cjc_narrow_proof.specs.Script.declared.script.Script.{Script};
ghost use Rattle.cjc_int_components.specs.Made.{AllAreMadeByMode};
ghost use Rattle.cjc_int_components.specs.Modes.{Tables};
ghost use Rattle.cjc_int_components.specs.Names.{PutsNoConstants};
ghost use Rattle.cjc_shape_proof.specs.Written.Joined.{IsJoined, IsRunnable, NamesAreThere};
ghost use Rattle.cjc_int_theorem.specs.ByModes.{IsConvertedByModes};

use cjc_shape_proof::written::{checked_packages_are_runnable, joined_packages_run_by_token};

/// Code of a package by modes puts nothing into a static field that is a constant, since 206 is not broken. So what
/// each of its instructions names is what one of its method in the class file names.
pub fn packages_by_modes_put_no_constants()
    ensures puts { (list : ListTree) (codes : List MethodCode) (t : Tables) (p : Package)
        → IsConvertedByModes list codes t p → PutsNoConstants p }
    ensures names { (list : ListTree) (codes : List MethodCode) (t : Tables) (p : Package)
        → IsConvertedByModes list codes t p → CodeNamesAsWritten p (near_fields (pool p)) }
{}

/// Each of its methods comes to its code by its mode, and bytes can say it. Method has at most 65,535 bytes.
pub fn methods_by_modes_are_made()
    ensures made { (list : ListTree) (codes : List MethodCode) (t : Tables) (p : Package)
        → IsConvertedByModes list codes t p → AllAreMadeByMode (names p) p.files p.methods }
    ensures small { (list : ListTree) (codes : List MethodCode) (t : Tables) (p : Package)
        → IsConvertedByModes list codes t p → IsSmall p }
{}

/// Each of its methods can be laid out wherever it stands in Method, where what its code names stands in the pool.
pub fn methods_by_modes_are_ready()
    ensures { (list : ListTree) (codes : List MethodCode) (t : Tables) (p : Package)
        → IsConvertedByModes list codes t p → NamesAreThere p → AreReady p }
{}

/// So it has what its run by token rests on.
pub fn packages_by_modes_are_runnable()
    ensures { (list : ListTree) (codes : List MethodCode) (t : Tables) (p : Package)
        → IsConvertedByModes list codes t p → NamesAreThere p → IsRunnable list.name p }
{
    checked_packages_are_runnable();
    methods_by_modes_are_made();
    methods_by_modes_are_ready();
}

/// The components of a package by modes, run by token, give the report of its narrow code, run by name, for every
/// script and every number of instructions where narrow code is not stuck: where what is asked of its calls, operations
/// and objects holds.
pub fn packages_by_modes_run_by_token()
    ensures { (list : ListTree) (codes : List MethodCode) (t : Tables) (p : Package)
        → IsConvertedByModes list codes t p → (call : Callee → Bool) → IsJoined p call
        → (script : Script) (n : ℕ) → (let report = run_by_label p.files p.image (laid_code p) script n in (at : ℕ)
        → report.outcome ≢ Stuck at) → run_by_token (loaded p) script n ≡ run_by_label p.files p.image (laid_code p)
        script n }
{
    joined_packages_run_by_token();
    packages_by_modes_are_runnable();
}
