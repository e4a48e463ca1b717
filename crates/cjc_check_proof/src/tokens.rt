//! Tokens of virtual methods that are written for a package are there: the indices of interface maps, and the
//! entries of the constant pool that virtual calls and calls of a superclass's methods name. With the parts
//! that other crates have of these sentences no place of them is broken. The converter's promise rests on it.
//! Nothing here runs.
ghost use Rattle.std.specs.Prelude.{◌≡◌, ℕ, List, []};
ghost use Rattle.cjc_check_rules.specs.PoolEntries.{pool_spots};
ghost use Rattle.cjc_check_rules.specs.Tables.{map_spots};
ghost use Rattle.cjc_components.specs.Package.{Package, world};
ghost use Rattle.cjc_token_proof.specs.Components.Methods.{HasMethods};
ghost use Rattle.cjc_token_proof.specs.Components.Whole.{exports_of, whole};
ghost use Rattle.cjc_token_proof.specs.Tables.Sound.{IsSound};
ghost use Rattle.cjc_vtable.specs.Kept.{Keeps};
ghost use Rattle.cjc_vtable.specs.Meant.{HaveOneAccess};
ghost use Rattle.cjc_token_proof.specs.WrittenCalls.Calls.{KeepsTokens};
ghost use Rattle.cjc_check_proof.specs.Keys.{AllAreThere};

use crate::classes::{imported_interfaces_are_whole, maps_are_long_enough};
use crate::code::pool_entries_name_members;
use cjc_token_proof::tables::classes_keep_rules;
use cjc_vtable::slot_laws::{asked_methods_have_tokens, tokens_mean_methods};
use cjc_vtable::{dispatch_laws, token_laws};
use cjc_world::lookup_laws;

/// Each map of an interface has an index for each method of the interface, and each index is the token of a virtual
/// method that the class has: one that it or the nearest superclass declares or got.
pub fn map_indices_are_tokens()
    ensures { (list : List ℕ) (p : Package) → IsSound list p.files → Keeps (world p) → HaveOneAccess (world p)
        → KeepsTokens (world p) → map_spots (whole p) (exports_of p) ≡ [] }
{
    asked_methods_have_tokens();
    imported_interfaces_are_whole();
    lookup_laws();
    maps_are_long_enough();
    tokens_mean_methods();
}

/// The entries of the constant pool name what is there. Those of virtual methods name tokens that their class has, and
/// those of a superclass's methods tokens that the superclass has: where each key names what a call names, or a class,
/// a field, a static method, a constructor or a private method that is there.
pub fn pool_entries_name_what_is_there()
    ensures { (list : List ℕ) (p : Package) → IsSound list p.files → HasMethods p → Keeps (world p)
        → KeepsTokens (world p) → AllAreThere p → pool_spots (whole p) (exports_of p) ≡ [] }
{
    classes_keep_rules();
    dispatch_laws();
    lookup_laws();
    pool_entries_name_members();
    token_laws();
    tokens_mean_methods();
}
