//! What the type checker reads of methods in int mode.
ghost use Rattle.std.specs.Prelude.{List, Some, slice_get, ℕ, ◌≡◌};
ghost use Rattle.cjc_accepted_modes.specs.InIntMode.{
  IntMethod,
  IsInIntMode,
  body_by_name,
  names_in,
  ranges_in,
  types_in,
};
ghost use Rattle.cjc_accepted_proof.specs.Coded.{card_type};
ghost use Rattle.cjc_accepted_proof.specs.Written.{written_pair};
ghost use Rattle.cjc_accepted_theorem.specs.Readable.{IsReadable};
ghost use Rattle.cjc_check_proof.specs.LowerList.Listed.{ListTree};
ghost use Rattle.cjc_check_proof.specs.TokenProof.Tables.Loading.{components};
ghost use Rattle.cjc_int_accepted.specs.Headers.{IsReadInIntMode};
ghost use Rattle.cjc_int_components.specs.Modes.{Tables};
ghost use Rattle.cjc_int_theorem.specs.ByModes.{IsConvertedByModes};
ghost use Rattle.cjc_theorem.specs.LowerJudge.declared.judged.Judged.{Judged};
ghost use Rattle.cjc_verify.specs.Bodies.{Body, bodies};
ghost use Rattle.cjc_verify.specs.Components.Package.{Package};

use cjc_accepted_proof::check_proof::code::methods_are_cut;
use cjc_accepted_theorem::carded::converted_packages_have_card_types;
use cjc_accepted_theorem::coded::converted_methods_are_read;
use cjc_accepted_theorem::headers::converted_methods_begin;
use cjc_theorem::alike::types_are_known;

/// What the type checker reads of a method in int mode is what is written for it by its tables: its header and the types
/// of its descriptor, with int; and its arguments have locals.
pub fn methods_in_int_mode_are_read()
    ensures { (list : ListTree) (files : List (List ℕ)) (judged : Judged) (t : Tables) (p : Package)
        → IsReadable list files judged p → IsConvertedByModes list judged.codes t p → (m : IntMethod) (k : ℕ)
        → IsInIntMode p t m judged.codes k → (v : Body) → slice_get (bodies (components p)) k ≡ Some v
        → IsReadInIntMode (card_type p) (written_pair p) (names_in p m) m.tree (body_by_name m) (types_in t m)
        (ranges_in t m) v }
{
    converted_methods_are_read();
    converted_methods_begin();
    converted_packages_have_card_types();
    methods_are_cut();
    types_are_known();
}
