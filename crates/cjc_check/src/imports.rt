//! Import names the export files (Java Card Virtual Machine Specification 2.2.2, sections 4.5.2 and 6.6). It knows no other component.

ghost use Rattle.std.specs.Prelude.{◌≡◌, ◌+◌, ◌<◌, ◌^◌, sum_by};
ghost use Rattle.cjc_check.specs.Complete.{import_size, package_size};
ghost use Rattle.cjc_check.specs.Imports.{import_spots, package_agrees, packages_agree};
ghost use Rattle.cjc_check.specs.Spots.{first};
ghost use Rattle.std.specs.Str.{bytes_eq};

use crate::spot::{Spot, earlier, unless};
use cjc_capread::{Import, ImportedPackage};
use cjc_export::ExportTree;

/// The tag of Import.
const IMPORT: u8 = 4;

/// Whether a package has the AID of an export file.
fn has_aid(one: &ImportedPackage, tree: &ExportTree) -> bool
    ensures { result ≡ bytes_eq one.now.aid tree.now.aid }
{
    one.aid.items() == tree.aid.items()
}

/// Where a package that begins at an offset is another than an export file's.
#[tactic(auto, using(crate::proofs::Firsts::first_append))]
fn package_agrees(at: u32, one: &ImportedPackage, tree: &ExportTree) -> Option<Spot>
    requires { 5 + at < 2 ^ 32 }
    ensures { result ≡ first (package_agrees at one.now tree.now) }
{
    let major = unless(one.major == tree.major, IMPORT, at + 1);
    let aid = unless(has_aid(one, tree), IMPORT, at + 2);
    earlier(major, aid)
}

/// The first package that is another than the export file of its place, as far as there are both.
fn packages_agree(packages: &[ImportedPackage], exports: &[ExportTree]) -> Option<Spot>
    requires { 4 + sum_by package_size packages.now < 2 ^ 32 }
    ensures { result ≡ first (packages_agree 1 packages.now exports.now) }
{
    let mut least = None;
    let mut at: u32 = 1;
    for (i, one) in packages.iter().enumerate() {
        if i >= exports.len() {
            return least;
        }
        least = earlier(least, package_agrees(at, one, &exports[i]));
        at += 3 + one.aid.items().len() as u32;
    }
    least
}

/// Where 703 is broken first: the number of packages, a major version or an AID that is another than the export
/// file's of its place. A component with its tag and size has fewer than 2^32 bytes.
pub fn import_spot(import: &Import, exports: &[ExportTree]) -> Option<Spot>
    requires { 3 + import_size import.now < 2 ^ 32 }
    ensures { result ≡ first (import_spots import.now exports.now) }
{
    let packages = import.packages.items();
    let count = unless(packages.len() == exports.len(), IMPORT, 0);
    earlier(count, packages_agree(packages, exports))
}
