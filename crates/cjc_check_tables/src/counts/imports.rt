//! Import names the export files (Java Card Virtual Machine Specification 2.2.2, sections 4.5.2 and 6.6). It
//! knows no other component.

ghost use Rattle.std.specs.Prelude.{◌≡◌, ◌+◌, ◌<◌, ◌^◌, ◌==◌, length};
ghost use Rattle.cjc_check_rules.specs.Complete.{import_size};
ghost use Rattle.cjc_check_rules.specs.Imports.{aid_agrees, import_spots, package_agrees};
ghost use Rattle.cjc_check_rules.specs.Spots.{first, in_info, unless};

use cjc_capread::{Import, ImportedPackage};
use cjc_check_index::lookup::{Comparison, earlier, first_beside, unless};
use cjc_check_rules::ComponentPlace;
use cjc_check_rules::export_file::ExportTree;

/// The tag of Import.
const IMPORT: u8 = 4;

/// Whether bytes are the same.
struct Same;

impl Comparison<u8, u8> for Same {
    ghost broken = { λ s at b w. unless (b == w) (in_info 4 at) };

    ghost fits = { λ s. Unit {0} };

    fn first_between(&self, at: u32, item: &u8, other: &u8) -> Option<ComponentPlace> {
        unless(*item == *other, IMPORT, at)
    }
}

/// Where an AID whose length stands at an offset is not an export file's: its length, else the first byte that is
/// another.
#[tactic(auto, using(cjc_check_rules::proofs::Firsts::first_append, cjc_check_rules::proofs::Arrays::one_each))]
fn aid_spot(at: u32, aid: &[u8], own: &[u8]) -> Option<ComponentPlace>
    requires { 4 + at + length aid.now < 2 ^ 32 }
    ensures { result ≡ first (aid_agrees at aid.now own.now) }
{
    let length = unless(aid.len() == own.len(), IMPORT, at);
    earlier(length, first_beside(&Same, at + 1, aid, own))
}

/// Whether packages are those of export files.
struct Agree;

impl Comparison<ImportedPackage, ExportTree> for Agree {
    ghost broken = { λ s. package_agrees };

    ghost fits = { λ s. Unit {0} };

    #[tactic(auto, using(cjc_check_rules::proofs::Firsts::first_append))]
    fn first_between(
        &self,
        at: u32,
        item: &ImportedPackage,
        other: &ExportTree,
    ) -> Option<ComponentPlace> {
        let major = unless(item.major == other.major, IMPORT, at + 1);
        let aid = aid_spot(at + 2, item.aid.items(), other.aid.items());
        earlier(major, aid)
    }
}

/// Where 703 is broken first: the number of packages, or a major version or an AID that is another than the export
/// file's of its place. An AID is broken at its length where that is another, else at its first byte that is. A
/// component with its tag and size has fewer than 2^32 bytes.
pub fn import_spot(import: &Import, exports: &[ExportTree]) -> Option<ComponentPlace>
    requires { 3 + import_size import.now < 2 ^ 32 }
    ensures { result ≡ first (import_spots import.now exports.now) }
{
    let packages = import.packages.items();
    let count = unless(packages.len() == exports.len(), IMPORT, 0);
    earlier(count, first_beside(&Agree, 1, packages, exports))
}
