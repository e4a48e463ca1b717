//! Descriptor: what it says of classes, members and entries of the constant pool is what the package says.
ghost use Rattle.std.specs.Prelude.{◌≡◌, []};
ghost use Rattle.cjc_check_proof.specs.Classes.Premises.{HasNearTypes};
ghost use Rattle.cjc_verify.specs.Components.Package.{Package};
ghost use Rattle.cjc_check_proof.specs.TokenProof.Tables.Sound.{AreTyped};
ghost use Rattle.cjc_verify.specs.Described.{described_spots};
ghost use Rattle.cjc_accepted_proof.specs.Carded.{EntriesAreNamed, HasCardTypes};
ghost use Rattle.cjc_accepted_proof.specs.Written.{written_pair};

use cjc_check_proof::classes::{members_have_types, pool_entries_have_types};

/// Descriptor gives each class and member that is written for a package its token, its flags, its place and its type,
/// and each entry of the constant pool the type of its member, where the card has values of these types and each entry
/// names a member of its key's descriptor.
pub fn descriptor_says_what_the_package_says()
    ensures { (p : Package) → AreTyped p.files → HasNearTypes p → HasCardTypes p → EntriesAreNamed p
        → described_spots (written_pair p) ≡ [] }
{
    members_have_types();
    pool_entries_have_types();
}
