//! Code of a package by modes: each method in int mode has a closed table of types of frames that breaks no rule.
ghost use Rattle.std.specs.Prelude.{List, Some, slice_get, ℕ, ◌≡◌};
ghost use Rattle.cjc_accepted_proof.specs.Accepted.{CodeStands, HasTable};
ghost use Rattle.cjc_accepted_theorem.specs.Readable.{IsReadable};
ghost use Rattle.cjc_accepted_theorem.specs.Stands.{StandsInIntMode};
ghost use Rattle.cjc_check_proof.specs.LowerList.Listed.{ListTree};
ghost use Rattle.cjc_check_proof.specs.TokenProof.Tables.Loading.{components};
ghost use Rattle.cjc_int_components.specs.Modes.{Tables};
ghost use Rattle.cjc_int_theorem.specs.ByModes.{IsConvertedByModes};
ghost use Rattle.cjc_theorem.specs.LowerJudge.declared.judged.Judged.{Judged};
ghost use Rattle.cjc_verify.specs.Bodies.{Body, bodies};
ghost use Rattle.cjc_verify.specs.Components.Package.{Package};

use crate::methods::methods_in_int_mode_stand_beside;
use crate::read::methods_in_int_mode_are_read;
use crate::served::{instructions_in_int_mode_are_served, methods_in_int_mode_are_served};
use cjc_accepted_theorem::coded::converted_methods_are_read;
use cjc_accepted_theorem::read::converted_packages_have_their_types;
use cjc_accepted_theorem::stands::code_of_converted_packages_stands;
use cjc_int_accepted::insns::methods_in_int_mode_stand;

/// Each method of Method in int mode has a closed table of types of frames that breaks no rule: it follows from the type
/// table of its class file.
pub fn code_in_int_mode_stands()
    ensures { (list : ListTree) (files : List (List ℕ)) (judged : Judged) (t : Tables) (p : Package)
        → IsReadable list files judged p → IsConvertedByModes list judged.codes t p → (k : ℕ) (v : Body)
        → slice_get (bodies (components p)) k ≡ Some v → StandsInIntMode p t k → HasTable p v }
{
    converted_methods_are_read();
    converted_packages_have_their_types();
    instructions_in_int_mode_are_served();
    methods_in_int_mode_are_read();
    methods_in_int_mode_are_served();
    methods_in_int_mode_stand();
    methods_in_int_mode_stand_beside();
}

/// So each method of Method of a package by modes has one, in whichever mode it is.
pub fn code_of_packages_by_modes_stands()
    ensures { (list : ListTree) (files : List (List ℕ)) (judged : Judged) (p : Package)
        → (is : IsReadable list files judged p)
        → IsConvertedByModes list judged.codes (let laid = is.laid in let q = laid.is_package in q.tables) p
        → CodeStands p }
{
    code_in_int_mode_stands();
    code_of_converted_packages_stands();
}
