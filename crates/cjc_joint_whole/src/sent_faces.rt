//! What scripts send by the names of classes and interfaces, where packages are loaded together: methods of interfaces
//! too. It has laws alone; nothing here runs.
ghost use Rattle.std.specs.Prelude.{◌≡◌, ℕ, List, Some, slice_get};
ghost use Rattle.cjc_components.specs.Package.{Package};
ghost use Rattle.cjc_joint_proof.specs.JointCalled.{StandByPackage};
ghost use Rattle.cjc_joint_proof.specs.JointPackages.{files_together};
ghost use Rattle.cjc_joint_theorem.specs.Members.{Member, files_of};
ghost use Rattle.cjc_joint_whole.specs.Faces.{FacesDispatch};
ghost use Rattle.cjc_joint_whole.specs.Grouped.{AreGrouped};
ghost use Rattle.cjc_joint_whole.specs.Selected.{JointInterfacesAgree, SelectTogether};
ghost use Rattle.cjc_joint_whole.specs.Sent.{FoundAreSentAlike, LinesAreFoundAlike, LinesBindSpecials};
ghost use Rattle.cjc_joint_whole.specs.Sent.{ObjectsAreSentAlike};
ghost use Rattle.cjc_joint_whole.specs.SentFaces.{FacesStand};
ghost use Rattle.cjc_joint_whole.specs.Told.{IsToldAbove};
ghost use Rattle.cjc_joint_whole.specs.Whole.{AreWhole};
ghost use Rattle.cjc_jvm_semantics.specs.Linked.{Method};
ghost use Rattle.cjc_token_proof.specs.NCode.Lowering.Placed.{Placed};
ghost use Rattle.cjc_token_proof.specs.WrittenSends.Sends.{ExportsSend};

use crate::faces::{joint_faces_dispatch, joint_interface_methods_are_selected};
use crate::linking::grouped_packages_select_together;
use crate::sent::{joint_lines_are_sent, joint_objects_are_sent_alike};
use cjc_components::layout::layouts_are_laid_out;
use cjc_vtable::{dispatch_laws, token_laws};

/// Packages that break no rule, as members of a group, over fair export files: each method of an interface that one of
/// them knows is declared by that interface or by one above it in the joint world, and each class file of which there
/// may be objects has a method for it.
pub fn members_have_faces()
    ensures { (members : List Member) (packages : List Package) → AreWhole members → IsToldAbove members
        → files_of members ≡ files_together packages
        → ((q : ℕ) (p : Package) → slice_get packages q ≡ Some p → ExportsSend p) → FacesStand packages }
{}

/// What a script sends to an object of a class file begins by token where it begins by name, whatever class or
/// interface is named and whatever the name and descriptor are: a method of the line of a class where these are sent
/// alike, and else one of an interface above, where calls of these are dispatched as the class has its tokens.
pub fn joint_methods_are_sent_alike()
    ensures { (packages : List Package) → SelectTogether packages → FacesStand packages → FacesDispatch packages
        → (at : Method → Placed) → StandByPackage packages at → LinesAreFoundAlike packages at
        → FoundAreSentAlike packages at → LinesBindSpecials packages at → ObjectsAreSentAlike packages at }
{
    dispatch_laws();
    layouts_are_laid_out();
    token_laws();
}

/// So calls of methods of interfaces select alike in a group, and what scripts send to objects and arrays is by token what
/// it is by name.
pub fn joint_interfaces_agree()
    ensures { (packages : List Package) → AreGrouped packages → FacesStand packages → (at : Method → Placed)
        → StandByPackage packages at → JointInterfacesAgree packages at }
{
    grouped_packages_select_together();
    joint_faces_dispatch();
    joint_interface_methods_are_selected();
    joint_lines_are_sent();
    joint_methods_are_sent_alike();
    joint_objects_are_sent_alike();
}
