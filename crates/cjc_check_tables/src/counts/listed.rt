//! The flags of Header say which components are there (Java Card Virtual Machine Specification 2.2.2, section
//! 6.3). It knows no other component.

ghost use Rattle.std.specs.Prelude.{◌≡◌, ◌&&◌, is_some};
ghost use Rattle.cjc_capread.specs.Bytes.AccessFlags.{has};
ghost use Rattle.cjc_check_rules.specs.Listed.{acc_applet, acc_export, flags_spots};
ghost use Rattle.cjc_check_rules.specs.Spots.{first};
ghost use Rattle.cjc_check_rules.specs.ExportFile.Members.{same_bool};

use cjc_capread::CapTree;
use cjc_capread::bytes::has;
use cjc_check_index::lookup::{same_bool, unless};
use cjc_check_rules::ComponentPlace;

/// The tag of Header.
const HEADER: u8 = 1;

const ACC_EXPORT: u16 = 2;

const ACC_APPLET: u16 = 4;

/// Whether flags say that Applet and Export are there exactly where they are.
fn flags_agree(flags: u8, applet: bool, export: bool) -> bool
    ensures { result ≡ (same_bool (has flags acc_applet) applet && same_bool (has flags acc_export) export) }
{
    let flags = u16::from(flags);
    let is_applet = same_bool(has(flags, ACC_APPLET), applet);
    let is_export = same_bool(has(flags, ACC_EXPORT), export);
    is_applet && is_export
}

/// Where 702 is broken: the flags.
pub fn flags_spot(tree: &CapTree) -> Option<ComponentPlace>
    ensures { result ≡ first (flags_spots tree.now) }
{
    let agree = flags_agree(
        tree.header.flags,
        tree.applet.is_some(),
        tree.export.is_some(),
    );
    unless(agree, HEADER, 6)
}
