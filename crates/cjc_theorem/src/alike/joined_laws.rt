//! That the components of a converted package run by token as its narrow code runs by name, from what is asked
//! of its export files. For whoever promises that what was converted behaves as its class files. It has a
//! definition and laws alone; nothing here runs.

ghost use Rattle.std.specs.Prelude.{◌≡◌, ◌≢◌, ℕ, List};
ghost use Rattle.cjc_token_proof.specs.CardSemantics.Machine.ByToken.{run as run_by_token};
ghost use Rattle.cjc_components.specs.Package.{Package};
ghost use Rattle.cjc_shape_proof.specs.LowerJudge.declared.judged.Judged.{Judged};
ghost use Rattle.cjc_token_proof.specs.List.Listed.{ListTree};
ghost use Rattle.cjc_token_proof.specs.Narrow.Rows.Package.{run as run_by_label};
ghost use Rattle.cjc_token_proof.specs.Script.declared.report.Outcome.TheVariants.{Stuck};
ghost use Rattle.cjc_token_proof.specs.Script.declared.script.Script.{Script};
ghost use Rattle.cjc_token_proof.specs.Tables.Loading.{loaded};
ghost use Rattle.cjc_token_proof.specs.WrittenCalls.Standing.{laid_code};
ghost use Rattle.cjc_shape_proof.specs.Written.Converted.{IsConverted};
ghost use Rattle.cjc_shape_proof.specs.Written.Joined.{IsJoined};
ghost use Rattle.cjc_token_proof.specs.WrittenSends.Named.{is_called};
ghost use Rattle.cjc_token_proof.specs.WrittenSends.Sends.{ExportsSend};

use crate::alike::{
    calls_are_named, calls_have_opcodes, export_files_are_kept, first_cells_are_typed,
    instructions_name_what_is_there, names_are_there,
};
use cjc_narrow_proof::types::State;
use cjc_shape_proof::written::{
    converted_classes_keep_rules, converted_files_are_sound, converted_methods_are_consistent,
    converted_methods_are_in_order, converted_methods_are_ready, converted_packages_run_by_token,
};
use cjc_token_proof::written_calls::{calls_take_words, methods_take_their_words};
use cjc_token_proof::written_sends::{
    code_names_as_written, known_objects_receive_calls, operations_are_known,
    package_interfaces_ask, sent_methods_begin_alike,
};
use cjc_vtable::package_laws;

/// A converted package has all that joins its narrow code to its components, where the calls that are known are
/// those that its code makes.
pub fn converted_packages_are_joined()
    ensures { (list : ListTree) (files : List (List ℕ)) (judged : Judged) (p : Package)
        → IsConverted list files judged p → ExportsSend p → IsJoined p (is_called p) }
{
    calls_are_named();
    calls_have_opcodes();
    calls_take_words();
    code_names_as_written::<State>();
    converted_classes_keep_rules();
    converted_files_are_sound();
    converted_methods_are_consistent();
    converted_methods_are_in_order();
    converted_methods_are_ready();
    export_files_are_kept();
    first_cells_are_typed();
    instructions_name_what_is_there();
    known_objects_receive_calls();
    methods_take_their_words::<State>();
    names_are_there();
    operations_are_known();
    package_interfaces_ask();
    package_laws();
    sent_methods_begin_alike();
}

/// So its components, run by token, give the report of its narrow code, run by name, for every script and every
/// number of instructions where narrow code is not stuck.
pub fn converted_components_run_by_token()
    ensures { (list : ListTree) (files : List (List ℕ)) (judged : Judged) (p : Package)
        → IsConverted list files judged p → ExportsSend p → (script : Script) (n : ℕ)
        → (let report = run_by_label p.files p.image (laid_code p) script n in (at : ℕ) → report.outcome ≢ Stuck at)
        → run_by_token (loaded p) script n ≡ run_by_label p.files p.image (laid_code p) script n }
{
    converted_packages_are_joined();
    converted_packages_run_by_token();
}
