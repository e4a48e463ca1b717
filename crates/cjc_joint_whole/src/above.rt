//! Calls of methods of the superclass, where packages are loaded together: the tables of the superclass stand above those
//! of the class that holds the code, whichever package it is of. It has laws alone; nothing here runs.
ghost use Rattle.std.specs.Prelude.{◌≡◌, ℕ, List, Some, slice_get, true};
ghost use Rattle.cjc_bytes.specs.declared.fault.MemberId.{MemberId};
ghost use Rattle.cjc_components.specs.Package.{Package};
ghost use Rattle.cjc_joint_proof.specs.JointCalled.{StandByPackage};
ghost use Rattle.cjc_jvm_semantics.specs.Linked.{Method};
ghost use Rattle.cjc_joint_whole.specs.Above.{FindsAbove, ImportsKeepKinds};
ghost use Rattle.cjc_joint_whole.specs.Selected.{CallAgrees, SelectTogether};
ghost use Rattle.cjc_shape_proof.specs.LowerJudge.declared.judged.Judged.{Judged};
ghost use Rattle.cjc_shape_proof.specs.Written.Converted.{IsConverted};
ghost use Rattle.cjc_token_proof.specs.List.Listed.{ListTree};
ghost use Rattle.cjc_token_proof.specs.NCode.ByLabel.{OnSuper};
ghost use Rattle.cjc_token_proof.specs.NCode.Lowering.Placed.{Placed};
ghost use Rattle.cjc_token_proof.specs.WrittenSends.Named.{is_called};

use cjc_components::layout::layouts_are_laid_out;
use cjc_theorem::alike::calls_have_opcodes;
use cjc_vtable::{dispatch_laws, token_laws};

/// What the code of a converted package calls of a superclass is found from there as a method at which selection may
/// end, where export files put no private or static one below such a method.
pub fn converted_packages_find_above()
    ensures { (list : ListTree) (files : List (List ℕ)) (judged : Judged) (p : Package)
        → IsConverted list files judged p → ImportsKeepKinds p → FindsAbove p }
{
    calls_have_opcodes();
}

/// What the code of a package calls by invokespecial of a superclass takes as many words by token as by name, and reaches
/// what it reaches by name, whichever packages the superclass and those above it are of.
pub fn joint_super_calls_agree()
    ensures { (packages : List Package) → SelectTogether packages
        → ((q : ℕ) (p : Package) → slice_get packages q ≡ Some p → FindsAbove p) → (at : Method → Placed)
        → StandByPackage packages at → (q : ℕ) (p : Package) → slice_get packages q ≡ Some p → (m : MemberId)
        → is_called p (OnSuper m) ≡ true → CallAgrees packages at q (OnSuper m) }
{
    dispatch_laws();
    layouts_are_laid_out();
    token_laws();
}
