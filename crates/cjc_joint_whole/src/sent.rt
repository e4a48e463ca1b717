//! What scripts send to objects and arrays, where packages are loaded together. It has laws alone; nothing here runs.
ghost use Rattle.std.specs.Prelude.{◌≡◌, ◌+◌, ℕ, List, Some, false, option_and_then, slice_get, true};
ghost use Rattle.cjc_bytes.specs.AccessFlags.{is_interface};
ghost use Rattle.cjc_bytes.specs.declared.fault.MemberId.{MemberId};
ghost use Rattle.cjc_components.specs.Package.{Package, world};
ghost use Rattle.cjc_joint_proof.specs.JointCalled.{StandByPackage};
ghost use Rattle.cjc_joint_proof.specs.JointPackages.{class_together, files_together};
ghost use Rattle.cjc_joint_proof.specs.JointTables.{world_together};
ghost use Rattle.cjc_joint_proof.specs.JointTowers.{loaded_together};
ghost use Rattle.cjc_joint_proof.specs.Worlds.{before};
ghost use Rattle.cjc_joint_whole.specs.Selected.{InterfacesSelectAlike, JointInterfacesAgree, SelectTogether};
ghost use Rattle.cjc_joint_whole.specs.Sent.{FoundAreSentAlike, LinesAreFoundAlike, LinesBindSpecials};
ghost use Rattle.cjc_joint_whole.specs.Sent.{ObjectsAreSentAlike, begun};
ghost use Rattle.cjc_jvm_semantics.specs.Group.{is_open, joint, own_where, own_within};
ghost use Rattle.cjc_jvm_semantics.specs.Linked.{Method};
ghost use Rattle.cjc_jvm_semantics.specs.OnePackage.{is_initialiser, method_at};
ghost use Rattle.cjc_token_proof.specs.Calls.Selecting.{signature};
ghost use Rattle.cjc_token_proof.specs.CardSemantics.Machine.Calls.{dispatched_on, start_selected};
ghost use Rattle.cjc_token_proof.specs.CardSemantics.Machine.Dispatch.{Hidden, Open};
ghost use Rattle.cjc_token_proof.specs.NCode.Lowering.Placed.{Placed};
ghost use Rattle.cjc_tokens.specs.Lines.{line_of};
ghost use Rattle.cjc_tokens.specs.Slots.{hidden_slots, slots, token};
ghost use Rattle.cjc_vtable.specs.Calls.{finds_hidden, is_special};
ghost use Rattle.cjc_world.specs.ClassFile.declared.tree.ClassTree.{ClassTree};
ghost use Rattle.cjc_world.specs.Classes.{Class, class_named, declared};
ghost use Rattle.cjc_world.specs.Lookup.{first};
ghost use Rattle.cjc_world.specs.Supertypes.{line};
ghost use Rattle.cjc_world.specs.Upwards.{Below, OnLine};
ghost use Rattle.cjc_world.specs.declared.found.Found.{Found};

use cjc_components::layout::layouts_are_laid_out;
use cjc_joint_proof::tables::joint_classes_are_told;
use cjc_vtable::{dispatch_laws, token_laws};

/// What scripts send to objects and arrays is by token what it is by name, where it is so of objects of class files and
/// of classes at or above theirs: to arrays and objects of classes from outside nothing of a package is sent.
pub fn joint_objects_are_sent_alike()
    ensures { (packages : List Package) → SelectTogether packages → (at : Method → Placed)
        → StandByPackage packages at → ObjectsAreSentAlike packages at → InterfacesSelectAlike packages
        → JointInterfacesAgree packages at }
{
    dispatch_laws();
    joint_classes_are_told();
    layouts_are_laid_out();
    token_laws();
}

/// What a script sends by a token begins, on objects of each class below the one whose token it is, where the method
/// begins that selection by name gives there, whichever packages the classes are of: by the token that a class has for
/// a public or protected method, and by that of a package-visible method of a class file.
pub fn joint_tokens_are_sent()
    ensures shown { (packages : List Package) → SelectTogether packages → (at : Method → Placed)
        → StandByPackage packages at → (q : ℕ) (p : Package) → slice_get packages q ≡ Some p → (id : MemberId)
        → is_special (signature id) ≡ false → (y : List ℕ) (d k : Class) → class_named (world p) y ≡ Some d
        → is_interface d.flags ≡ false → class_named (world_together packages) y ≡ Some k
        → is_interface k.flags ≡ false → (t : ℕ)
        → token (slots (line_of (world p) y)) (signature id) ≡ Some t → (x : List ℕ) (c : Class)
        → class_named (world_together packages) x ≡ Some c → is_interface c.flags ≡ false
        → Below (world_together packages) x y → (f : Found)
        → first (own_where is_open id.name id.desc) (line (world_together packages) x) ≡ Some f
        → start_selected (loaded_together packages) (dispatched_on (loaded_together packages) (Some (class_together
        packages x)) (Open t))
        ≡ begun packages at (method_at (joint (files_together packages)) f) }
    ensures hidden { (packages : List Package) → SelectTogether packages → (at : Method → Placed)
        → StandByPackage packages at → (home : ℕ) (p : Package) → slice_get packages home ≡ Some p → (id : MemberId)
        → is_initialiser id.name ≡ false → (y : List ℕ) (n : ℕ) (t : ClassTree)
        → (let f = p.files in slice_get f.classes n ≡ Some t) → class_named (world p) y ≡ Some (declared n t)
        → is_interface t.flags ≡ false → finds_hidden (line_of (world p) y) (signature id) ≡ true → (number : ℕ)
        → token (hidden_slots (line_of (world p) y)) (signature id) ≡ Some number → (x : List ℕ) (c : Class)
        → class_named (world_together packages) x ≡ Some c → is_interface c.flags ≡ false
        → OnLine (world_together packages) x (declared (before (files_together packages) home + n) t)
        → start_selected (loaded_together packages) (dispatched_on (loaded_together packages) (Some (class_together
        packages x)) (Hidden home number))
        ≡ begun packages at (option_and_then (method_at (joint (files_together packages))) (first (own_within (let f
        = p.files in f.package_name) id.name id.desc) (line (world_together packages) x))) }
{
    dispatch_laws();
    layouts_are_laid_out();
    token_laws();
}

/// What is found over superclasses from a class that is no interface is found alike by name and by token, and what a
/// script sends by it begins by token where it begins by name; of a constructor or a class initialiser no token is
/// found.
pub fn joint_lines_are_sent()
    ensures lines { (packages : List Package) → SelectTogether packages → (at : Method → Placed)
        → StandByPackage packages at → LinesAreFoundAlike packages at }
    ensures found { (packages : List Package) → SelectTogether packages → (at : Method → Placed)
        → StandByPackage packages at → FoundAreSentAlike packages at }
    ensures specials { (packages : List Package) → SelectTogether packages → (at : Method → Placed)
        → StandByPackage packages at → LinesBindSpecials packages at }
{
    dispatch_laws();
    layouts_are_laid_out();
    token_laws();
}
