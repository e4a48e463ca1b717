//! Types of arrays: those of the card say of arrays what their names say.
ghost use Rattle.std.specs.Prelude.{ℕ, List};
ghost use Rattle.cjc_types.specs.World.Classes.{Class};
ghost use Rattle.cjc_verify.specs.CapRead.declared.tree.ClassRef.{ClassRef};
ghost use Rattle.cjc_accepted_proof.specs.Elements.{ArraysAgree};
ghost use Rattle.cjc_accepted_proof.specs.Frames.{type_named};

/// The card's types of arrays begin with the nibbles of arrays, each load and store by name is served by one of its
/// letter, of int too, and those of references hold what the arrays by name hold.
pub fn types_of_arrays_agree()
    ensures { (w : List Class) (ref : List ℕ → ClassRef) → ArraysAgree (type_named w ref) }
{}
