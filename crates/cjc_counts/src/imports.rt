//! Import names the export files (Java Card Virtual Machine Specification 2.2.2, sections 4.5.2 and 6.6). It
//! knows no other component.

ghost use Rattle.std.specs.Prelude.{◌≡◌, ◌+◌, ◌<◌, ◌^◌};
ghost use Rattle.cjc_sentences.specs.Complete.{import_size};
ghost use Rattle.cjc_sentences.specs.Imports.{import_spots, package_agrees};
ghost use Rattle.cjc_sentences.specs.Spots.{first};
ghost use Rattle.std.specs.Str.{bytes_eq};

use cjc_capread::{Import, ImportedPackage};
use cjc_export::ExportTree;
use cjc_lookup::{Comparison, earlier, first_beside, unless};
use cjc_sentences::ComponentPlace;

/// The tag of Import.
const IMPORT: u8 = 4;

/// Whether a package has the AID of an export file.
fn has_aid(one: &ImportedPackage, tree: &ExportTree) -> bool
    ensures { result ≡ bytes_eq one.now.aid tree.now.aid }
{
    one.aid.items() == tree.aid.items()
}

/// Whether packages are those of export files.
struct Agree;

impl Comparison<ImportedPackage, ExportTree> for Agree {
    ghost broken = { λ s. package_agrees };

    ghost fits = { λ s. Unit {0} };

    #[tactic(auto, using(cjc_sentences::proofs::Firsts::first_append))]
    fn first_between(
        &self,
        at: u32,
        item: &ImportedPackage,
        other: &ExportTree,
    ) -> Option<ComponentPlace> {
        let major = unless(item.major == other.major, IMPORT, at + 1);
        let aid = unless(has_aid(item, other), IMPORT, at + 2);
        earlier(major, aid)
    }
}

/// Where 703 is broken first: the number of packages, a major version or an AID that is another than the export
/// file's of its place. A component with its tag and size has fewer than 2^32 bytes.
pub fn import_spot(import: &Import, exports: &[ExportTree]) -> Option<ComponentPlace>
    requires { 3 + import_size import.now < 2 ^ 32 }
    ensures { result ≡ first (import_spots import.now exports.now) }
{
    let packages = import.packages.items();
    let count = unless(packages.len() == exports.len(), IMPORT, 0);
    earlier(count, first_beside(&Agree, 1, packages, exports))
}
