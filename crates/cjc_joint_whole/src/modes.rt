//! Packages by the modes of their methods, as members of a group: what is asked of one that by itself runs by token as
//! its narrow code does. It has laws alone; nothing here runs.
ghost use Rattle.std.specs.Prelude.{◌≡◌, ℕ, List, Some, slice_get};
ghost use Rattle.cjc_components.specs.Bytecode.declared.method_code.MethodCode.{MethodCode};
ghost use Rattle.cjc_components.specs.Package.{Package};
ghost use Rattle.cjc_int_components.specs.Modes.{Tables};
ghost use Rattle.cjc_int_theorem.specs.ByModes.{IsConvertedByModes};
ghost use Rattle.cjc_joint_whole.specs.Above.{FindsAbove, ImportsKeepKinds};
ghost use Rattle.cjc_joint_whole.specs.ByModes.{IsWrittenByModes};
ghost use Rattle.cjc_joint_whole.specs.Faces.{InterfacesAreKnown};
ghost use Rattle.cjc_joint_whole.specs.Grouped.{AreGrouped, InterfacesAreOpen, OutsideIsFair};
ghost use Rattle.cjc_joint_whole.specs.Linking.{KeepGroupRules};
ghost use Rattle.cjc_joint_whole.specs.Selected.{SelectsAlone};
ghost use Rattle.cjc_joint_whole.specs.Tokens.{RunsAlone};
ghost use Rattle.cjc_shape_proof.specs.LowerJudge.declared.judged.Judged.{Judged};
ghost use Rattle.cjc_shape_proof.specs.Written.LaidOut.{IsLaidOut};
ghost use Rattle.cjc_token_proof.specs.List.Listed.{ListTree};
ghost use Rattle.cjc_token_proof.specs.WrittenSends.Sends.{ExportsSend};

use crate::exports::checked_packages_list_virtual_methods;
use crate::faces::packages_of_files_name_faces;
use cjc_int_components::packages::methods_by_modes_take_their_words;
use cjc_int_theorem::joined::{packages_by_modes_are_joined, packages_by_modes_are_of_files};
use cjc_int_theorem::written::packages_by_modes_are_runnable;
use cjc_shape_proof::writing::unbound_entries_are_own;
use cjc_theorem::alike::{calls_of_files_are_named, calls_of_files_have_opcodes};

/// A package by the modes of its methods that breaks no rule runs by token as its narrow code does, by itself, and its
/// code names what packages of a group may name of one another.
pub fn packages_by_modes_run_alone()
    ensures { (list : ListTree) (files : List (List ℕ)) (judged : Judged) (t : Tables) (p : Package)
        → IsLaidOut list files judged p → IsConvertedByModes list judged.codes t p → ExportsSend p → RunsAlone p }
{
    calls_of_files_are_named();
    calls_of_files_have_opcodes();
    methods_by_modes_take_their_words();
    packages_by_modes_are_joined();
    packages_by_modes_are_of_files();
    packages_by_modes_are_runnable();
    unbound_entries_are_own();
}

/// So what its code calls by receivers rests on is kept by it too, and what it calls of a superclass is found from there.
pub fn packages_by_modes_select_alone()
    ensures selects { (list : ListTree) (files : List (List ℕ)) (judged : Judged) (t : Tables) (p : Package)
        → IsLaidOut list files judged p → IsConvertedByModes list judged.codes t p → ExportsSend p → SelectsAlone p }
    ensures above { (list : ListTree) (codes : List MethodCode) (t : Tables) (p : Package)
        → IsConvertedByModes list codes t p → ImportsKeepKinds p → FindsAbove p }
{
    calls_of_files_have_opcodes();
    checked_packages_list_virtual_methods();
    packages_by_modes_are_of_files();
    packages_by_modes_run_alone();
}

/// So packages by modes that a group links, over fair files from outside, need nothing else to run together than to know
/// what interfaces stand above those that their classes list.
pub fn packages_by_modes_are_grouped()
    ensures { (packages : List Package) → KeepGroupRules packages
        → ((q : ℕ) (p : Package) → slice_get packages q ≡ Some p → IsWrittenByModes p) → OutsideIsFair packages
        → InterfacesAreOpen packages → InterfacesAreKnown packages → AreGrouped packages }
{
    packages_by_modes_are_of_files();
    packages_by_modes_select_alone();
    packages_of_files_name_faces();
}
