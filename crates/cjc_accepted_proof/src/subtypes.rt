//! Types on the card: a subtype by name is one by token.
ghost use Rattle.std.specs.Prelude.{List};
ghost use Rattle.cjc_verify.specs.CardActs.CardTypes.{is_type_of};
ghost use Rattle.cjc_check_proof.specs.NCode.Lowering.Naming.{Naming};
ghost use Rattle.cjc_check_proof.specs.TokenProof.ByToken.Supers.{KindsAgree};
ghost use Rattle.cjc_types.specs.World.Classes.{Class};
ghost use Rattle.cjc_accepted_proof.specs.Frames.{NamesAgree, type_named};
ghost use Rattle.cjc_accepted_proof.specs.Read.{RefsAreRead};

/// A type that is a subtype of another by name is of it by token, where types are of each other by token as they are by
/// name, and class_refs are read back as the classes that they name.
pub fn subtypes_are_read()
    ensures { (w : List Class) (n : Naming) → KindsAgree w n → RefsAreRead w n
        → NamesAgree (type_named w n.class_ref) (is_type_of n.loaded) w }
{}
