//! Packages whose components run by token as their narrow code does, each by itself, run so together, but for calls that
//! are selected by their receivers: what is asked of a group follows from what each package keeps. It has laws alone;
//! nothing here runs.
ghost use Rattle.std.specs.Prelude.{◌≡◌, ◌≢◌, ℕ, List, Some, slice_get};
ghost use Rattle.cjc_components.specs.Package.{Package, world};
ghost use Rattle.cjc_jvm_semantics.specs.Group.{joint_image};
ghost use Rattle.cjc_jvm_semantics.specs.Linked.{Method};
ghost use Rattle.cjc_joint_proof.specs.Begun.{all_images};
ghost use Rattle.cjc_joint_proof.specs.Imports.{AreImports};
ghost use Rattle.cjc_joint_proof.specs.JointAlike.{IsCalled};
ghost use Rattle.cjc_joint_proof.specs.JointCalled.{called_together};
ghost use Rattle.cjc_joint_proof.specs.JointCode.{run as run_in_packages};
ghost use Rattle.cjc_joint_proof.specs.JointFixed.{AreFixedNamed, JointSelectionsAgree};
ghost use Rattle.cjc_joint_proof.specs.JointNames.{joint_calls, joint_labels, joint_named};
ghost use Rattle.cjc_joint_proof.specs.JointPackages.{AreLinked, files_together};
ghost use Rattle.cjc_joint_proof.specs.JointTables.{KeepSupers, known_together, memories_together};
ghost use Rattle.cjc_joint_proof.specs.JointTogether.{methods_together, naming_together};
ghost use Rattle.cjc_joint_proof.specs.JointTowers.{loaded_together};
ghost use Rattle.cjc_joint_whole.specs.Tokens.{RunsAlone, stands_at};
ghost use Rattle.cjc_shape_proof.specs.LowerJudge.declared.judged.Judged.{Judged};
ghost use Rattle.cjc_shape_proof.specs.Written.Converted.{IsConverted};
ghost use Rattle.cjc_token_proof.specs.Calls.Reaching.{start_placed};
ghost use Rattle.cjc_token_proof.specs.CardSemantics.Machine.ByToken.{run as run_by_token};
ghost use Rattle.cjc_token_proof.specs.List.Listed.{ListTree};
ghost use Rattle.cjc_token_proof.specs.NCode.Lowering.Agreement.{known_by};
ghost use Rattle.cjc_token_proof.specs.Script.declared.report.Outcome.TheVariants.{Stuck};
ghost use Rattle.cjc_token_proof.specs.Script.declared.script.Script.{Script};
ghost use Rattle.cjc_token_proof.specs.WrittenSends.Sends.{ExportsSend};
ghost use Rattle.cjc_world.specs.Supertypes.{IsAcyclic};

use crate::exports::converted_packages_list_methods;
use cjc_components::layout::layouts_are_laid_out;
use cjc_joint_proof::calls::joint_calls_reach;
use cjc_joint_proof::classes::linked_imports_lead;
use cjc_joint_proof::runs::{
    joint_calls_agree_where_they_reach, joint_components_run_as_narrow_code,
};
use cjc_narrow_proof::types::State;
use cjc_shape_proof::written::converted_packages_are_runnable;
use cjc_theorem::alike::{calls_are_named, calls_have_opcodes, converted_packages_are_joined};
use cjc_token_proof::written_calls::{entries_are_called, methods_take_their_words};
use cjc_vtable::{dispatch_laws, token_laws};
use cjc_world::lookup_laws;

/// A converted package without a method in int mode runs by token as its narrow code does, by itself, and its code names
/// what packages of a group may name of one another.
pub fn converted_packages_run_alone()
    ensures { (list : ListTree) (files : List (List ℕ)) (judged : Judged) (p : Package)
        → IsConverted list files judged p → ExportsSend p → RunsAlone p }
{
    calls_are_named();
    calls_have_opcodes();
    converted_packages_are_joined();
    converted_packages_are_runnable();
    converted_packages_list_methods();
    methods_take_their_words::<State>();
}

/// What packages that link with one another import says of classes of packages before what stands above them there, or
/// is from outside.
pub fn linked_imports_say_what_is_so()
    ensures { (packages : List Package) → AreLinked packages
        → ((q : ℕ) (p : Package) → slice_get packages q ≡ Some p → IsAcyclic (world p))
        → AreImports (files_together packages) }
{}

/// Each static method, constructor and private method that their code calls is in the group a method of the package
/// itself, one of a class from outside, or one that another package declares, and takes its words there.
pub fn joint_fixed_calls_are_named()
    ensures { (packages : List Package) → AreLinked packages
        → ((q : ℕ) (p : Package) → slice_get packages q ≡ Some p → RunsAlone p) → AreFixedNamed packages }
{
    dispatch_laws();
    layouts_are_laid_out();
    lookup_laws();
    token_laws();
}

/// So their components, loaded together, give the report of their narrow code, for every script and every number of
/// instructions where that is not stuck, where calls that are selected by their receivers agree.
pub fn joint_components_run_alike()
    ensures { (packages : List Package) (first : Package) → slice_get packages 0 ≡ Some first → AreLinked packages
        → KeepSupers packages → ((q : ℕ) (p : Package) → slice_get packages q ≡ Some p → RunsAlone p)
        → (let files = files_together packages in let image = joint_image (all_images packages) in
        let at = stands_at first packages in let code = λ (m : Method). (let p = at m in p.method) in
        JointSelectionsAgree (naming_together packages) (methods_together packages) (memories_together packages)
        (joint_calls files (start_placed at)) (known_by (known_together packages)) (IsCalled (called_together packages))
        → (script : Script) (n : ℕ)
        → ((place : ℕ) → (let r = run_in_packages (joint_named files image code) (joint_labels files code) script n
        in r.outcome) ≢ Stuck place)
        → run_by_token (loaded_together packages) script n
        ≡ run_in_packages (joint_named files image code) (joint_labels files code) script n) }
{
    entries_are_called();
    joint_calls_agree_where_they_reach();
    joint_calls_reach();
    joint_components_run_as_narrow_code();
    joint_fixed_calls_are_named();
    linked_imports_lead();
}
