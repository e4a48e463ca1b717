//! Arrays of StaticField: each is of the type of its field.
ghost use Rattle.std.specs.Prelude.{◌≡◌, List, []};
ghost use Rattle.cjc_verify.specs.Clinit.Image.{IsImage};
ghost use Rattle.cjc_verify.specs.Components.Package.{Package};
ghost use Rattle.cjc_types.specs.Bytecode.declared.method_code.MethodCode.{MethodCode};
ghost use Rattle.cjc_verify.specs.Described.{all_array_spots};
ghost use Rattle.cjc_accepted_proof.specs.Written.{written_pair};

/// The arrays that are written for a static image are of the types of the fields whose cells they fill.
pub fn arrays_are_of_their_fields()
    ensures { (p : Package) (codes : List MethodCode) → IsImage p.files codes p.image
        → all_array_spots (written_pair p) ≡ [] }
{}
