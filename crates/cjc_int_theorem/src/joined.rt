//! That the components of a package by modes run by token as its narrow code runs by name. Laws alone: nothing here
//! runs.
ghost use Rattle.std.specs.Prelude.{◌≡◌, ◌≢◌, ℕ, List};
ghost use Rattle.cjc_check_proof.specs.TokenProof.Tables.Loading.{loaded};
ghost use Rattle.cjc_check_proof.specs.TokenProof.WrittenCalls.Standing.{laid_code};
ghost use Rattle.cjc_check_proof.specs.TokenProof.WrittenSends.Named.{is_called};
ghost use Rattle.cjc_check_proof.specs.TokenProof.WrittenSends.Sends.{ExportsSend};
ghost use Rattle.cjc_classes.specs.List.Listed.{ListTree};
ghost use Rattle.cjc_classes.specs.Narrow.Rows.Package.{run as run_by_label};
ghost use Rattle.cjc_components.specs.Bytecode.declared.method_code.MethodCode.{MethodCode};
ghost use Rattle.cjc_components.specs.Package.{Package};
ghost use Rattle.cjc_narrow_proof.specs.CardSemantics.Machine.ByToken.{run as run_by_token};
ghost use Rattle.cjc_narrow_proof.specs.Script.declared.report.Outcome.TheVariants.{Stuck};
ghost use Rattle.cjc_narrow_proof.specs.Script.declared.script.Script.{Script};
ghost use Rattle.cjc_int_components.specs.Modes.{Tables};
ghost use Rattle.cjc_shape_proof.specs.Written.Checked.{IsOfFiles};
ghost use Rattle.cjc_shape_proof.specs.Written.Joined.{IsJoined};
ghost use Rattle.cjc_int_theorem.specs.ByModes.{IsConvertedByModes};

use crate::written::{
    methods_by_modes_are_made, packages_by_modes_are_runnable, packages_by_modes_run_by_token,
};
use cjc_int_components::methods::methods_by_modes_are_consistent;
use cjc_int_components::packages::methods_by_modes_take_their_words;
use cjc_theorem::alike::{
    calls_of_files_are_named, calls_of_files_have_opcodes, first_cells_are_typed,
    instructions_of_files_name_what_is_there, names_of_files_are_there,
};
use cjc_token_proof::written_calls::calls_take_words;
use cjc_token_proof::written_sends::{
    known_objects_receive_calls, operations_are_known, package_interfaces_ask,
    sent_methods_begin_alike,
};
use cjc_vtable::package_laws;

/// The code of a package by modes names what its class files name, and its handlers catch what theirs do.
pub fn packages_by_modes_are_of_files()
    ensures { (list : ListTree) (codes : List MethodCode) (t : Tables) (p : Package)
        → IsConvertedByModes list codes t p → IsOfFiles list codes p }
{}

/// So it has all that joins its narrow code to its components, where the calls that are known are those that its code
/// makes.
pub fn packages_by_modes_are_joined()
    ensures { (list : ListTree) (codes : List MethodCode) (t : Tables) (p : Package)
        → IsConvertedByModes list codes t p → ExportsSend p → IsJoined p (is_called p) }
{
    calls_of_files_are_named();
    calls_of_files_have_opcodes();
    calls_take_words();
    first_cells_are_typed();
    instructions_of_files_name_what_is_there();
    known_objects_receive_calls();
    methods_by_modes_are_consistent();
    methods_by_modes_are_made();
    methods_by_modes_take_their_words();
    names_of_files_are_there();
    operations_are_known();
    package_interfaces_ask();
    package_laws();
    packages_by_modes_are_of_files();
    packages_by_modes_are_runnable();
    sent_methods_begin_alike();
}

/// So its components, run by token, give the report of its narrow code, run by name, for every script and every number
/// of instructions where narrow code is not stuck.
pub fn components_by_modes_run_by_token()
    ensures { (list : ListTree) (codes : List MethodCode) (t : Tables) (p : Package)
        → IsConvertedByModes list codes t p → ExportsSend p → (script : Script) (n : ℕ)
        → (let report = run_by_label p.files p.image (laid_code p) script n in (at : ℕ) → report.outcome ≢ Stuck at)
        → run_by_token (loaded p) script n ≡ run_by_label p.files p.image (laid_code p) script n }
{
    packages_by_modes_are_joined();
    packages_by_modes_run_by_token();
}
