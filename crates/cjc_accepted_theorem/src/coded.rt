//! Code: what is written for a method of a converted package, the type checker accepts where it reads of it what the
//! class file says.
ghost use Rattle.std.specs.Prelude.{◌≡◌, List, Some, false, slice_get, ℕ};
ghost use Rattle.cjc_token_proof.specs.Subset.Ints.{code_works_on_int};
ghost use Rattle.cjc_verified_proof.specs.Components.Methods.{placed_at};
ghost use Rattle.cjc_verified_proof.specs.Components.Names.{names};
ghost use Rattle.cjc_verified_proof.specs.Components.Package.{Package};
ghost use Rattle.cjc_verified_proof.specs.List.Listed.{ListTree};
ghost use Rattle.cjc_verified_proof.specs.TokenProof.Tables.Loading.{components, part};
ghost use Rattle.cjc_verified_proof.specs.Verify.Bodies.{Body, bodies};
ghost use Rattle.cjc_ncode.specs.Lowering.Placed.{HandlersStand};
ghost use Rattle.cjc_theorem.specs.LowerJudge.declared.judged.Judged.{Judged};
ghost use Rattle.cjc_accepted_proof.specs.Accepted.{HasTable};
ghost use Rattle.cjc_accepted_proof.specs.Beside.{Beside, IsBeside};
ghost use Rattle.cjc_accepted_proof.specs.Checked.{CatchesAreNamed, IsReadAs};
ghost use Rattle.cjc_accepted_theorem.specs.ReadFrom.{IsReadFrom};
ghost use Rattle.cjc_accepted_theorem.specs.Stands.{StandsBeside};
ghost use Rattle.cjc_accepted_theorem.specs.Readable.{IsReadable};

use crate::carded::converted_packages_have_card_types;
use crate::headers::converted_methods_begin;
use crate::read::converted_packages_have_their_types;
use crate::served::{
    converted_instructions_are_served, converted_methods_are_served,
    rows_of_converted_packages_stand,
};
use cjc_accepted_proof::beside::{checked_methods_have_tables, methods_stand_in_pairs};
use cjc_accepted_proof::check_proof::code::methods_are_cut;
use cjc_theorem::alike::types_are_known;
use cjc_verified_proof::layout::layouts_are_laid_out;

/// Of each method of Method of a converted package the type checker reads what is laid for it.
pub fn converted_methods_are_read()
    ensures { (list : ListTree) (files : List (List ℕ)) (judged : Judged) (p : Package)
        → IsReadable list files judged p → (k : ℕ) (v : Body) → slice_get (bodies (components p)) k ≡ Some v
        → IsReadFrom p k v }
{
    layouts_are_laid_out();
    methods_are_cut();
}

/// Each method of Method of a converted package has no instructions, or is written in short mode for one of a class file
/// with code, which does not work on int, or is in int mode: in short mode the type checker reads of it the header, the
/// result and the arguments that its class file says, and its handlers stand.
pub fn converted_methods_stand_beside()
    ensures { (list : ListTree) (files : List (List ℕ)) (judged : Judged) (p : Package)
        → (is : IsReadable list files judged p) → (k : ℕ) (v : Body) → slice_get (bodies (components p)) k ≡ Some v
        → StandsBeside p judged.codes (let laid = is.laid in laid.is_package.tables) k v }
{
    converted_methods_are_read();
    converted_methods_begin();
    converted_packages_have_card_types();
    converted_packages_have_their_types();
    methods_are_cut();
    types_are_known();
}

/// The handlers of a method of Method catch by their indices the card's types of the classes that its class file names,
/// or any exception where that is java/lang/Object.
pub fn converted_handlers_are_named()
    ensures { (list : ListTree) (files : List (List ℕ)) (judged : Judged) (p : Package)
        → IsReadable list files judged p → (m : Beside) → IsBeside p m judged.codes → CatchesAreNamed p m }
{}

/// A method of Method that is written in short mode for one of a class file that does not work on int has a closed table
/// of frames that breaks no rule, where the type checker reads of it what the class file says, and its handlers stand
/// and catch what those of the class file name.
pub fn converted_methods_have_tables()
    ensures { (list : ListTree) (files : List (List ℕ)) (judged : Judged) (p : Package)
        → IsReadable list files judged p → (m : Beside) → IsBeside p m judged.codes
        → code_works_on_int p.files m.code ≡ false → (v : Body) → IsReadAs p m v
        → HandlersStand (names p) (placed_at m.offset m.laid) (part p) → CatchesAreNamed p m → HasTable p v }
{
    checked_methods_have_tables();
    converted_instructions_are_served();
    converted_methods_are_served();
    methods_stand_in_pairs();
    rows_of_converted_packages_stand();
}
