//! Calls that are dispatched by the class of their receiver, where packages are loaded together: a public or protected
//! method has one token in all packages that know its class, by which dispatch goes through packages to the method that
//! selection by name gives in the joint world. It has laws alone; nothing here runs.
ghost use Rattle.std.specs.Prelude.{◌≡◌, ◌≢◌, ℕ, List, Some, slice_get, true};
ghost use Rattle.cjc_bytes.specs.declared.fault.MemberId.{MemberId};
ghost use Rattle.cjc_components.specs.Package.{Package};
ghost use Rattle.cjc_joint_proof.specs.Begun.{all_images};
ghost use Rattle.cjc_joint_proof.specs.JointAlike.{IsCalled};
ghost use Rattle.cjc_joint_proof.specs.JointCalled.{StandByPackage, called_together};
ghost use Rattle.cjc_joint_proof.specs.JointCode.{run as run_in_packages};
ghost use Rattle.cjc_joint_proof.specs.JointFixed.{JointSelectionsAgree};
ghost use Rattle.cjc_joint_proof.specs.JointNames.{joint_labels, joint_named};
ghost use Rattle.cjc_joint_proof.specs.JointPackages.{files_together};
ghost use Rattle.cjc_joint_proof.specs.JointTables.{known_together, memories_together};
ghost use Rattle.cjc_joint_proof.specs.JointTogether.{methods_together, naming_together};
ghost use Rattle.cjc_joint_proof.specs.JointTowers.{loaded_together};
ghost use Rattle.cjc_jvm_semantics.specs.Group.{joint_image};
ghost use Rattle.cjc_jvm_semantics.specs.Linked.{Method};
ghost use Rattle.cjc_joint_whole.specs.Above.{FindsAbove};
ghost use Rattle.cjc_joint_whole.specs.Selected.{CallAgrees, InterfacesSelectAlike, JointInterfacesAgree};
ghost use Rattle.cjc_joint_whole.specs.Selected.{OpenSelectionsAgree, SelectTogether, SelectsAlone, TokensGoDown};
ghost use Rattle.cjc_joint_whole.specs.Selected.{calls_together};
ghost use Rattle.cjc_joint_whole.specs.Selected.{SentAreKnown};
ghost use Rattle.cjc_joint_whole.specs.Tokens.{stands_at};
ghost use Rattle.cjc_shape_proof.specs.LowerJudge.declared.judged.Judged.{Judged};
ghost use Rattle.cjc_shape_proof.specs.Written.Converted.{IsConverted};
ghost use Rattle.cjc_token_proof.specs.CardSemantics.Machine.ByToken.{run as run_by_token};
ghost use Rattle.cjc_token_proof.specs.List.Listed.{ListTree};
ghost use Rattle.cjc_token_proof.specs.NCode.ByLabel.{OnInterface, OnObject};
ghost use Rattle.cjc_token_proof.specs.NCode.Lowering.Agreement.{known_by};
ghost use Rattle.cjc_token_proof.specs.NCode.Lowering.Placed.{Placed};
ghost use Rattle.cjc_token_proof.specs.Script.declared.report.Outcome.TheVariants.{Stuck};
ghost use Rattle.cjc_token_proof.specs.Script.declared.script.Script.{Script};
ghost use Rattle.cjc_token_proof.specs.WrittenSends.Named.{is_called};
ghost use Rattle.cjc_token_proof.specs.WrittenSends.Sends.{ExportsSend};

use crate::above::joint_super_calls_agree;
use crate::exports::converted_packages_list_virtual_methods;
use crate::tokens::{converted_packages_run_alone, joint_components_run_alike};
use cjc_components::layout::layouts_are_laid_out;
use cjc_theorem::alike::calls_have_opcodes;
use cjc_vtable::{dispatch_laws, token_laws};

/// A converted package without a method in int mode keeps by itself what calls by receivers rest on: its code calls by
/// invokevirtual methods at which selection may end, and its export file lists of each class the virtual methods that
/// the class means by their tokens.
pub fn converted_packages_select_alone()
    ensures { (list : ListTree) (files : List (List ℕ)) (judged : Judged) (p : Package)
        → IsConverted list files judged p → ExportsSend p → SelectsAlone p }
{
    calls_have_opcodes();
    converted_packages_list_virtual_methods();
    converted_packages_run_alone();
}

/// Where selection in the joint world gives a public or protected method on a class, each package that knows the class
/// has a token for it, by which dispatch on its objects leads to the method where that stands, through whichever
/// packages. The token that a class has for a method is that of each class below it, whichever packages know them.
pub fn joint_methods_are_dispatched()
    ensures dispatched { (packages : List Package) → SelectTogether packages → OpenSelectionsAgree packages }
    ensures tokens { (packages : List Package) → SelectTogether packages → TokensGoDown packages }
{
    dispatch_laws();
    layouts_are_laid_out();
    token_laws();
}

/// What the code of a package calls by invokevirtual takes as many words by token as by name, and reaches on each
/// receiver that may be there what it reaches by name, whichever packages its class and the receiver's are of.
pub fn joint_object_calls_agree()
    ensures { (packages : List Package) → SelectTogether packages → (at : Method → Placed)
        → StandByPackage packages at → (q : ℕ) (p : Package) → slice_get packages q ≡ Some p → (m : MemberId)
        → is_called p (OnObject m) ≡ true → CallAgrees packages at q (OnObject m) }
{
    dispatch_laws();
    layouts_are_laid_out();
    token_laws();
}

/// What it calls of interfaces takes the words that it says, and reaches by token what it reaches by name: the event of
/// the interface on an object of a class from outside, or an array, and on others where both select the same methods.
pub fn joint_interface_calls_agree()
    ensures { (packages : List Package) → SelectTogether packages → (at : Method → Placed)
        → StandByPackage packages at → InterfacesSelectAlike packages → (q : ℕ) (p : Package)
        → slice_get packages q ≡ Some p → (n : ℕ) (m : MemberId) → is_called p (OnInterface n m) ≡ true
        → CallAgrees packages at q (OnInterface n m) }
{
    dispatch_laws();
    layouts_are_laid_out();
    token_laws();
}

/// What scripts send to an object or an array is a method with code of a package of the group.
pub fn joint_sent_methods_are_known()
    ensures { (packages : List Package) → SelectTogether packages → (at : Method → Placed)
        → StandByPackage packages at → SentAreKnown packages at }
{
    dispatch_laws();
    layouts_are_laid_out();
    token_laws();
}

/// All calls that are selected by their receivers agree, where those of methods of interfaces do and what scripts send.
pub fn joint_selections_agree()
    ensures { (packages : List Package) → SelectTogether packages
        → ((q : ℕ) (p : Package) → slice_get packages q ≡ Some p → FindsAbove p) → (at : Method → Placed)
        → StandByPackage packages at → JointInterfacesAgree packages at
        → JointSelectionsAgree (naming_together packages) (methods_together packages) (memories_together packages)
        (calls_together packages at) (known_by (known_together packages)) (IsCalled (called_together packages)) }
{
    joint_interface_calls_agree();
    joint_object_calls_agree();
    joint_sent_methods_are_known();
    joint_super_calls_agree();
}

/// So the components of such packages, loaded together, give the report of their narrow code, for every script and
/// every number of instructions where that is not stuck.
pub fn selected_components_run_alike()
    ensures { (packages : List Package) (first : Package) → slice_get packages 0 ≡ Some first
        → SelectTogether packages → ((q : ℕ) (p : Package) → slice_get packages q ≡ Some p → FindsAbove p)
        → (let files = files_together packages in let image = joint_image (all_images packages) in
        let at = stands_at first packages in let code = λ (m : Method). (let p = at m in p.method) in
        JointInterfacesAgree packages at → (script : Script) (n : ℕ)
        → ((place : ℕ) → (let r = run_in_packages (joint_named files image code) (joint_labels files code) script n
        in r.outcome) ≢ Stuck place)
        → run_by_token (loaded_together packages) script n
        ≡ run_in_packages (joint_named files image code) (joint_labels files code) script n) }
{
    joint_components_run_alike();
    joint_selections_agree();
}
