//! Header: flags, version, AID and name of the package (Java Card Virtual Machine Specification 2.2.2, section
//! 6.3).

ghost use Rattle.std.specs.Prelude.{◌≡◌, ◌≤◌, if◌then◌else◌, nat_lt, length, IfOk};
ghost use Rattle.cjc_components.specs.Package.{Package, world};
ghost use Rattle.cjc_components.specs.Components.{header, header_flags, uses_int};
ghost use Rattle.cjc_components.specs.Exports.{export};

use cjc_bytes::{Bytes, NoMemory};
use cjc_components::capread::{Export, Header};
use cjc_components::list::List;
use std::alloc::Global;

const ACC_INT: u8 = 1;

const ACC_EXPORT: u8 = 2;

const ACC_APPLET: u8 = 4;

/// A bit where it is set.
fn flag(set: bool, bit: u8) -> u8
    ensures value { result ≡ (if set then bit else 0) }
    ensures low { result ≤ bit }
{
    if set { bit } else { 0 }
}

fn header_flags(ints: bool, exports: bool, applets: bool) -> u8
    ensures { result ≡ header_flags ints exports applets }
{
    flag(ints, ACC_INT) + flag(exports, ACC_EXPORT) + flag(applets, ACC_APPLET)
}

fn has_applets(list: &List) -> bool
    ensures { result ≡ nat_lt 0 (length list.now.applets) }
{
    !list.applets.items().is_empty()
}

/// Header of a package, which may use the type int and has this Export.
pub fn header(
    alloc: Global,
    list: &List,
    ints: bool,
    exports: &Option<Export>,
) -> Result<Header, NoMemory>
    ensures { (p : Package) → p.list ≡ list.now → ints ≡ uses_int (world p) → exports.now ≡ export p
        → IfOk result (λ h. h ≡ header p) }
{
    let flags = header_flags(ints, exports.is_some(), has_applets(list));
    let aid = Bytes::copy_of(alloc, list.aid.items())?;
    let name = Bytes::copy_of(alloc, list.package.items())?;
    Ok(Header {
        flags,
        minor: list.minor,
        major: list.major,
        aid,
        name,
    })
}
