//! Applet: of each applet line its AID and the offset of its install method, found from the class that the line
//! names (Java Card Virtual Machine Specification 2.2.2, section 6.5).

ghost use Rattle.std.specs.Prelude.{◌≡◌, codes, map, IfOk};
ghost use Rattle.cjc_world.specs.Classes.{all_classes};
ghost use Rattle.cjc_world.specs.Lookup.{find_method};
ghost use Rattle.cjc_components.specs.Package.{Package};
ghost use Rattle.cjc_components.specs.Components.{applet};
ghost use Rattle.cjc_classes.specs.ClassInfo.Entries.{AreOffsets, offset_in};
ghost use Rattle.cjc_classes.specs.Applets.{entry_by, where_found};

use crate::class_info::offset_in;
use cjc_bytes::{AppletLine, Bytes, MemberId, NoMemory, Row};
use cjc_components::capread::{Applet, AppletEntry};
use cjc_components::list::List;
use cjc_world::{Found, World};
use std::alloc::Global;

const INSTALL: &[u8] = b"install";

const INSTALL_DESC: &[u8] = b"([BSB)V";

fn member_id(alloc: Global, class: &[u8], name: &[u8], desc: &[u8]) -> Result<MemberId, NoMemory>
    ensures { IfOk result (λ id. id ≡ record { class = class.now; name = name.now; desc = desc.now }) }
{
    let class = Bytes::copy_of(alloc, class)?;
    let name = Bytes::copy_of(alloc, name)?;
    let desc = Bytes::copy_of(alloc, desc)?;
    Ok(MemberId { class, name, desc })
}

/// The install method that a look-up finds from a class.
fn install_method(alloc: Global, world: &World<'_>, class: &[u8]) -> Result<Option<Found>, NoMemory>
    ensures { IfOk result (λ f. f ≡ find_method (all_classes world.now) class.now (codes "install") (codes "([BSB)V")) }
{
    let id = member_id(alloc, class, INSTALL, INSTALL_DESC)?;
    Ok(world.find_method(&id))
}

fn where_found(offsets: &[Row<u64>], method: Option<Found>) -> u64
    ensures { result ≡ where_found (offset_in offsets.now) method }
{
    match method {
        None => 0,
        Some(found) => offset_in(offsets, found),
    }
}

fn applet_entry(
    alloc: Global,
    world: &World<'_>,
    offsets: &[Row<u64>],
    line: &AppletLine,
) -> Result<AppletEntry, NoMemory>
    ensures { IfOk result (λ e. e ≡ entry_by (offset_in offsets.now) (all_classes world.now) line.now) }
{
    let method = install_method(alloc, world, line.class.items())?;
    let aid = Bytes::copy_of(alloc, line.aid.items())?;
    Ok(AppletEntry {
        aid,
        install_method: where_found(offsets, method),
    })
}

fn applet_entries(
    alloc: Global,
    world: &World<'_>,
    offsets: &[Row<u64>],
    lines: &[AppletLine],
) -> Result<Row<AppletEntry>, NoMemory>
    ensures { IfOk result (λ row. row ≡ map (entry_by (offset_in offsets.now) (all_classes world.now)) lines.now) }
{
    let mut entries = Row::new(alloc);
    for line in lines {
        entries.push(applet_entry(alloc, world, offsets, line)?)?;
    }
    Ok(entries)
}

/// Applet of a package, in the order of the list; None where the list has no applet line. Offsets of methods
/// stand by the number of the class and by the place of the method there.
pub fn applet(
    alloc: Global,
    world: &World<'_>,
    list: &List,
    offsets: &[Row<u64>],
) -> Result<Option<Applet>, NoMemory>
    ensures { (p : Package) → p.list ≡ list.now → p.files ≡ world.now → AreOffsets p offsets.now
        → IfOk result (λ a. a ≡ applet p) }
{
    if list.applets.items().is_empty() {
        return Ok(None);
    }
    let applets = applet_entries(alloc, world, offsets, list.applets.items())?;
    Ok(Some(Applet { applets }))
}
