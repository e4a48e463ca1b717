//! All code of a converted package: each method has a closed table of types of frames that breaks no rule.
ghost use Rattle.std.specs.Prelude.{◌≡◌, ℕ, List, Some, slice_get};
ghost use Rattle.cjc_verified_proof.specs.Components.Package.{Package};
ghost use Rattle.cjc_verified_proof.specs.List.Listed.{ListTree};
ghost use Rattle.cjc_verified_proof.specs.TokenProof.Tables.Loading.{components};
ghost use Rattle.cjc_verified_proof.specs.Verify.Bodies.{Body, bodies};
ghost use Rattle.cjc_theorem.specs.LowerJudge.declared.judged.Judged.{Judged};
ghost use Rattle.cjc_accepted_proof.specs.Accepted.{CodeStands, HasTable};
ghost use Rattle.cjc_accepted_theorem.specs.Readable.{IsReadable};
ghost use Rattle.cjc_accepted_theorem.specs.Stands.{StandsInIntMode};

use crate::coded::{
    converted_handlers_are_named, converted_methods_have_tables, converted_methods_stand_beside,
};
use cjc_accepted_proof::beside::methods_without_code_have_tables;

/// Each method of Method of a converted package has a closed table of types of frames that breaks no rule, where each in
/// int mode has one: one without instructions has the empty one, and one in short mode for a method of a class file with
/// code what follows from its type table.
pub fn code_of_converted_packages_stands()
    ensures { (list : ListTree) (files : List (List ℕ)) (judged : Judged) (p : Package)
        → (is : IsReadable list files judged p)
        → ((k : ℕ) (v : Body) → slice_get (bodies (components p)) k ≡ Some v
        → StandsInIntMode p (let laid = is.laid in laid.is_package.tables) k → HasTable p v)
        → CodeStands p }
{
    converted_handlers_are_named();
    converted_methods_have_tables();
    converted_methods_stand_beside();
    methods_without_code_have_tables();
}
