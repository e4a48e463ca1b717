//! All rules: what is written for a package breaks none where its parts break none.
ghost use Rattle.std.specs.Prelude.{◌≡◌, List};
ghost use Rattle.cjc_check_proof.specs.Classes.Premises.{HasNearTypes};
ghost use Rattle.cjc_verify.specs.Clinit.Image.{IsImage};
ghost use Rattle.cjc_verify.specs.Components.Package.{Package};
ghost use Rattle.cjc_types.specs.Bytecode.declared.method_code.MethodCode.{MethodCode};
ghost use Rattle.cjc_check_proof.specs.TokenProof.Components.Methods.{HasMethods};
ghost use Rattle.cjc_check_proof.specs.TokenProof.Tables.Sound.{AreTyped};
ghost use Rattle.cjc_verify.specs.Verified.{IsVerified};
ghost use Rattle.cjc_accepted_proof.specs.Accepted.{CodeStands, HasNoAbstract, HeadersFit};
ghost use Rattle.cjc_accepted_proof.specs.Carded.{EntriesAreNamed, HasCardTypes};
ghost use Rattle.cjc_accepted_proof.specs.Written.{written_pair};

use crate::arrays::arrays_are_of_their_fields;
use crate::described::descriptor_says_what_the_package_says;
use crate::infos::infos_are_of_their_classes;

/// What is written for a package breaks no rule of the type checker, where the card has values of its types, the
/// entries of its pool name members of their descriptors, its headers fit, no class of which objects are made has an
/// abstract method for a token, and each method has a closed table that breaks no rule.
pub fn written_packages_are_accepted()
    ensures { (codes : List MethodCode) (p : Package) → IsImage p.files codes p.image → HasMethods p → AreTyped p.files
        → HasNearTypes p → HasCardTypes p → EntriesAreNamed p → HeadersFit p → HasNoAbstract p → CodeStands p
        → IsVerified (written_pair p) }
{
    arrays_are_of_their_fields();
    descriptor_says_what_the_package_says();
    infos_are_of_their_classes();
}
