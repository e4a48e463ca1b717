//! Scripts of entry calls and the reports of their runs: what a run is given, and what it makes known. It
//! knows neither of the two machines.
#![tactic(auto)]

// Lower crates, for those above.
/// What crates above take of cjc_bytes.
pub mod bytes {
    pub use cjc_bytes::{Bytes, Desc, Kind, MemberId, NoMemory, Row};
}

ghost use Rattle.std.specs.Prelude.{◌≡◌, codes, pos, negsuc, true, false, Some, None, [], ◌∷◌};
ghost use Rattle.cjc_script.specs.declared.value.Value.TheVariants.{Num, Null, Obj};
ghost use Rattle.cjc_script.specs.Sorts.{Bytes as OfBytes, Shorts, OfClass, OfNumbers, OfReferences, Boolean, Byte};
ghost use Rattle.cjc_script.specs.Sorts.{Short, Int, Reference, NoValue, signature_of, field_sort, shape_named, fits};

mod report;
mod script;
mod value;

pub use report::{FieldValue, Note, Outcome, Report, Thing};
pub use script::{Act, Answer, Entry, Reply, Script};
pub use value::Value;

/// The types that descriptors say: those of parameters and of a result, arrays of numbers and of references. An
/// array of arrays and a long are types of no value, and what is no descriptor of a method has no types.
pub fn descriptors_say_types()
    ensures method { signature_of (codes "(SI[BLp/A;)V")
        ≡ Some (record {
          params = Short ∷ Int ∷ Reference (OfNumbers OfBytes) ∷ Reference (OfClass (codes "p/A")) ∷ [];
          result = None;
        }) }
    ensures result { signature_of (codes "()[Lp/A;") ≡ Some (record {
      params = [];
      result = Some (Reference (OfReferences (codes "p/A")));
    }) }
    ensures field { field_sort (codes "Z") ≡ Boolean }
    ensures arrays_of_arrays { field_sort (codes "[[S") ≡ NoValue }
    ensures long { field_sort (codes "J") ≡ NoValue }
    ensures of_field { signature_of (codes "S") ≡ None }
    ensures broken { signature_of (codes "(S") ≡ None }
    ensures array { shape_named (codes "[S") ≡ Some (OfNumbers Shorts) }
    ensures class { shape_named (codes "p/A") ≡ Some (OfClass (codes "p/A")) }
{}

/// Which numbers fit the types of numbers, and that no number is a reference and no value has a type without values.
pub fn numbers_fit_their_types()
    ensures boolean { fits (λ k shape. true) Boolean (Num (pos 2)) ≡ false }
    ensures byte { fits (λ k shape. true) Byte (Num (negsuc 127)) ≡ true }
    ensures past_byte { fits (λ k shape. true) Byte (Num (pos 128)) ≡ false }
    ensures short { fits (λ k shape. true) Short (Num (pos 32767)) ≡ true }
    ensures past_short { fits (λ k shape. true) Short (Num (pos 32768)) ≡ false }
    ensures number { fits (λ k shape. true) (Reference (OfClass [])) (Num (pos 0)) ≡ false }
    ensures null { fits (λ k shape. false) (Reference (OfClass [])) Null ≡ true }
    ensures other_class { fits (λ k shape. false) (Reference (OfClass [])) (Obj 0) ≡ false }
    ensures no_value { fits (λ k shape. true) NoValue Null ≡ false }
{}
