//! Instructions of methods in int mode: what each names in the components is what its class file names.
ghost use Rattle.std.specs.Prelude.{List, Some, slice_get, ℕ, ◌≡◌};
ghost use Rattle.cjc_accepted_modes.specs.InIntMode.{IntMethod, IsInIntMode, body_by_name, names_in, types_in};
ghost use Rattle.cjc_accepted_proof.specs.Coded.{card_type, is_of};
ghost use Rattle.cjc_accepted_proof.specs.Written.{written_pair};
ghost use Rattle.cjc_accepted_theorem.specs.Readable.{IsReadable};
ghost use Rattle.cjc_check_proof.specs.LowerList.Listed.{ListTree};
ghost use Rattle.cjc_check_proof.specs.TokenProof.Tables.Loading.{components};
ghost use Rattle.cjc_int_accepted.specs.Served.{IsServed, IsServedIn};
ghost use Rattle.cjc_int_components.specs.Modes.{Tables};
ghost use Rattle.cjc_int_theorem.specs.ByModes.{IsConvertedByModes};
ghost use Rattle.cjc_theorem.specs.LowerJudge.declared.judged.Judged.{Judged};
ghost use Rattle.cjc_types.specs.Bytecode.declared.insn.JInsn.{JInsn};
ghost use Rattle.cjc_types.specs.Fixpoint.Tables.{HasRow};
ghost use Rattle.cjc_types.specs.declared.state.State.{State};
ghost use Rattle.cjc_verify.specs.Bodies.{Body, bodies, type_of_body};
ghost use Rattle.cjc_verify.specs.Components.Names.{names};
ghost use Rattle.cjc_verify.specs.Components.Package.{Package, world};

use cjc_accepted_proof::check_proof::code::methods_are_cut;
use cjc_accepted_proof::described::descriptor_says_what_the_package_says;
use cjc_accepted_proof::elements::types_of_arrays_agree;
use cjc_accepted_theorem::carded::converted_packages_have_card_types;
use cjc_accepted_theorem::coded::converted_methods_are_read;
use cjc_accepted_theorem::entries::converted_packages_have_named_entries;
use cjc_accepted_theorem::headers::converted_methods_begin;
use cjc_accepted_theorem::read::converted_packages_have_their_types;
use cjc_accepted_theorem::served::exports_have_code;
use cjc_theorem::alike::{super_calls_are_named, types_are_known, virtual_calls_are_named};
use cjc_theorem::shape_proof::written::{sizes_fit, static_images_fit};
use cjc_theorem::vtable::slot_laws::tokens_mean_methods;
use cjc_theorem::vtable::{dispatch_laws, token_laws};
use cjc_verified_proof::layout::layouts_are_laid_out;
use cjc_verified_proof::token_proof::tables::static_fields_are_told;
use cjc_verified_proof::world::lookup_laws;

/// What all code of a method in int mode rests on: types, the method's result and the class of exceptions.
pub fn methods_in_int_mode_are_served()
    ensures { (list : ListTree) (files : List (List ℕ)) (judged : Judged) (t : Tables) (p : Package)
        → IsReadable list files judged p → IsConvertedByModes list judged.codes t p → (m : IntMethod) (k : ℕ)
        → IsInIntMode p t m judged.codes k → (v : Body) → slice_get (bodies (components p)) k ≡ Some v
        → IsServedIn (card_type p) (is_of p) (world p) (written_pair p) (names p) (names_in p m) (body_by_name m)
        (let y = type_of_body (components p) v in y.result) }
{
    converted_methods_are_read();
    converted_methods_begin();
    converted_packages_have_card_types();
    converted_packages_have_their_types();
    methods_are_cut();
    types_are_known();
    types_of_arrays_agree();
}

/// What each reached instruction of a method in int mode names in the components is what it names in the class file.
pub fn instructions_in_int_mode_are_served()
    ensures { (list : ListTree) (files : List (List ℕ)) (judged : Judged) (t : Tables) (p : Package)
        → IsReadable list files judged p → (m : IntMethod) (k : ℕ) → IsInIntMode p t m judged.codes k
        → (at : ℕ) (i : JInsn) (x : State) → (let code = m.code in slice_get code.insns at ≡ Some i)
        → HasRow (types_in t m) at x
        → IsServed (card_type p) (is_of p) (world p) (written_pair p) (names p) (names_in p m) (body_by_name m) i.op }
{
    converted_methods_begin();
    converted_packages_have_card_types();
    converted_packages_have_named_entries();
    converted_packages_have_their_types();
    descriptor_says_what_the_package_says();
    dispatch_laws();
    exports_have_code();
    layouts_are_laid_out();
    lookup_laws();
    sizes_fit();
    static_fields_are_told();
    static_images_fit();
    super_calls_are_named();
    token_laws();
    tokens_mean_methods();
    types_are_known();
    virtual_calls_are_named();
}
