//! Instructions: what each of a converted package's methods names in the components is what its class file names, so
//! what is written for it stands between its frames.
ghost use Rattle.std.specs.Prelude.{◌≡◌, ℕ, List, Some, false, slice_get};
ghost use Rattle.cjc_token_proof.specs.Subset.Ints.{code_works_on_int};
ghost use Rattle.cjc_verified_proof.specs.Bytecode.declared.insn.JInsn.{JInsn};
ghost use Rattle.cjc_verified_proof.specs.Components.Names.{names};
ghost use Rattle.cjc_verified_proof.specs.Components.Package.{Package, world};
ghost use Rattle.cjc_verified_proof.specs.List.Listed.{ListTree};
ghost use Rattle.cjc_check_proof.specs.Fixpoint.Tables.{HasRow};
ghost use Rattle.cjc_check_proof.specs.Types.declared.state.State.{State};
ghost use Rattle.cjc_theorem.specs.LowerJudge.declared.judged.Judged.{Judged};
ghost use Rattle.cjc_accepted_proof.specs.Beside.{Beside, IsBeside, RowsStandAlone, body_by_name, names_in};
ghost use Rattle.cjc_accepted_proof.specs.Coded.{card_type, is_of};
ghost use Rattle.cjc_accepted_proof.specs.Served.{IsServed, IsServedIn};
ghost use Rattle.cjc_accepted_proof.specs.Written.{written_pair};
ghost use Rattle.cjc_accepted_theorem.specs.CallsServed.{
  ArePaired,
  CallsAboveServed,
};
ghost use Rattle.cjc_accepted_theorem.specs.ExportsHaveCode.{ExportsHaveCode};
ghost use Rattle.cjc_accepted_theorem.specs.Readable.{IsReadable};

use crate::carded::converted_packages_have_card_types;
use crate::entries::converted_packages_have_named_entries;
use crate::headers::converted_methods_begin;
use crate::read::converted_packages_have_their_types;
use cjc_accepted_proof::described::descriptor_says_what_the_package_says;
use cjc_accepted_proof::elements::types_of_arrays_agree;
use cjc_accepted_proof::outside::rows_outside_pairs_stand;
use cjc_theorem::alike::{super_calls_are_named, types_are_known, virtual_calls_are_named};
use cjc_theorem::shape_proof::written::{sizes_fit, static_images_fit};
use cjc_theorem::vtable::slot_laws::tokens_mean_methods;
use cjc_theorem::vtable::{dispatch_laws, token_laws};
use cjc_verified_proof::layout::layouts_are_laid_out;
use cjc_verified_proof::token_proof::tables::static_fields_are_told;
use cjc_verified_proof::world::lookup_laws;

/// What all code of a method of a converted package rests on: types, the method's result and the class of exceptions.
pub fn converted_methods_are_served()
    ensures { (list : ListTree) (files : List (List ℕ)) (judged : Judged) (p : Package)
        → IsReadable list files judged p → (m : Beside) → IsBeside p m judged.codes
        → IsServedIn (card_type p) (is_of p) (world p) (written_pair p) (names p) (names_in p m) (body_by_name m)
        m.result }
{
    converted_packages_have_their_types();
    types_of_arrays_agree();
}

/// No static method and no constructor that an export file beside a converted package lists is abstract.
pub fn exports_have_code()
    ensures { (list : ListTree) (files : List (List ℕ)) (judged : Judged) (p : Package)
        → IsReadable list files judged p → ExportsHaveCode p }
{}

/// What a method of a converted package calls above the class that holds it is served, where its descriptor has no
/// int: that is no interface, and its token means a method with code from the superclass on, of the descriptor that the
/// class file names.
pub fn calls_above_are_served()
    ensures { (list : ListTree) (files : List (List ℕ)) (judged : Judged) (p : Package)
        → IsReadable list files judged p → CallsAboveServed p judged.codes }
{
    converted_methods_begin();
    converted_packages_have_card_types();
    converted_packages_have_named_entries();
    converted_packages_have_their_types();
    descriptor_says_what_the_package_says();
    dispatch_laws();
    exports_have_code();
    layouts_are_laid_out();
    lookup_laws();
    sizes_fit();
    static_fields_are_told();
    static_images_fit();
    super_calls_are_named();
    token_laws();
    tokens_mean_methods();
    types_are_known();
    virtual_calls_are_named();
}

/// What each reached instruction of a method that does not work on int names in the components of a converted package
/// is what it names in the class file.
pub fn converted_instructions_are_served()
    ensures { (list : ListTree) (files : List (List ℕ)) (judged : Judged) (p : Package)
        → IsReadable list files judged p → (m : Beside) → IsBeside p m judged.codes
        → code_works_on_int p.files m.code ≡ false
        → (at : ℕ) (i : JInsn) (x : State) → (let code = m.code in slice_get code.insns at ≡ Some i)
        → HasRow m.rows at x
        → IsServed (card_type p) (is_of p) (world p) (written_pair p) (names p) (names_in p m) (body_by_name m) i.op }
{
    calls_above_are_served();
    converted_methods_begin();
    converted_packages_have_card_types();
    converted_packages_have_named_entries();
    converted_packages_have_their_types();
    descriptor_says_what_the_package_says();
    dispatch_laws();
    exports_have_code();
    lookup_laws();
    sizes_fit();
    static_fields_are_told();
    static_images_fit();
    super_calls_are_named();
    token_laws();
    tokens_mean_methods();
    types_are_known();
    virtual_calls_are_named();
}

/// So the rows of its reached instructions outside of pairs stand.
pub fn rows_of_converted_packages_stand()
    ensures { (list : ListTree) (files : List (List ℕ)) (judged : Judged) (p : Package)
        → IsReadable list files judged p → ArePaired p judged.codes → (m : Beside) → IsBeside p m judged.codes
        → code_works_on_int p.files m.code ≡ false → RowsStandAlone p m }
{
    converted_instructions_are_served();
    converted_methods_are_served();
    rows_outside_pairs_stand();
}
