//! The components Header, Directory, Applet and Import: the package and its neighbours (6.3 to 6.6). Called by
//! `component`. Sizes and counts of Directory are compared with nothing here.

ghost use Rattle.cjc_bytes.specs.Format.{repeated};
ghost use Rattle.cjc_bytes.specs.Reading.{Reads};
ghost use Rattle.cjc_capread.specs.Header.{header};
ghost use Rattle.cjc_capread.specs.Directory.{directory};
ghost use Rattle.cjc_capread.specs.Applet.{applet_entry, applet};
ghost use Rattle.cjc_capread.specs.Import.{imported_package, import};

use crate::parts::{read_bytes1, read_numbers};
use crate::tree::{Applet, AppletEntry, Directory, Header, Import, ImportedPackage};
use cjc_bytes::{Cursor, Row, Stop};
use std::alloc::Global;

/// The content of a Header component of version 2.2: the flags, and the package with its version, AID and name.
#[tactic(auto, unfolding(crate::specs::Header::header, cjc_bytes::specs::Format::u1))]
pub(crate) fn read_header(alloc: Global, cursor: &mut Cursor<'_>) -> Result<Header, Stop>
    ensures { Reads (λ x. x) header cursor.old cursor.new result }
{
    let at = cursor.at();
    if cursor.u4()? != 0xDECA_FFED {
        return Err(Stop::Broken(at));
    }
    let at = cursor.at();
    if cursor.u1()? != 2 {
        return Err(Stop::Broken(at));
    }
    let at = cursor.at();
    if cursor.u1()? != 2 {
        return Err(Stop::Broken(at));
    }
    let flags = cursor.u1()?;
    let minor = cursor.u1()?;
    let major = cursor.u1()?;
    let aid = read_bytes1(alloc, cursor)?;
    let name = read_bytes1(alloc, cursor)?;
    Ok(Header {
        flags,
        minor,
        major,
        aid,
        name,
    })
}

/// The content of a Directory component that counts no custom components.
#[tactic(auto, unfolding(crate::specs::Directory::directory, cjc_bytes::specs::Format::u1, cjc_bytes::specs::Format::u2))]
pub(crate) fn read_directory(alloc: Global, cursor: &mut Cursor<'_>) -> Result<Directory, Stop>
    ensures { Reads (λ x. x) directory cursor.old cursor.new result }
{
    let component_sizes = read_numbers(alloc, 12, cursor)?;
    let image_size = cursor.u2()?;
    let array_init_count = cursor.u2()?;
    let array_init_size = cursor.u2()?;
    let import_count = cursor.u1()?;
    let applet_count = cursor.u1()?;
    let at = cursor.at();
    if cursor.u1()? != 0 {
        return Err(Stop::Broken(at));
    }
    Ok(Directory {
        component_sizes,
        image_size: u64::from(image_size),
        array_init_count: u64::from(array_init_count),
        array_init_size: u64::from(array_init_size),
        import_count,
        applet_count,
    })
}

#[tactic(auto, unfolding(crate::specs::Applet::applet_entry, cjc_bytes::specs::Format::u2))]
fn read_applet_entry(alloc: Global, cursor: &mut Cursor<'_>) -> Result<AppletEntry, Stop>
    ensures { Reads (λ x. x) applet_entry cursor.old cursor.new result }
{
    let aid = read_bytes1(alloc, cursor)?;
    let install_method = cursor.u2()?;
    Ok(AppletEntry {
        aid,
        install_method: u64::from(install_method),
    })
}

#[tactic(auto, using(cjc_bytes::proofs::Loops::repeated_more, cjc_bytes::proofs::Loops::repeated_stops, cjc_bytes::proofs::Loops::repeated_all, cjc_bytes::proofs::Loops::with_none))]
fn read_applets(alloc: Global, count: u8, cursor: &mut Cursor<'_>) -> Result<Row<AppletEntry>, Stop>
    ensures { Reads (λ xs. xs) (repeated count applet_entry) cursor.old cursor.new result }
{
    let mut applets = Row::new(alloc);
    for _ in 0..count {
        applets.push(read_applet_entry(alloc, cursor)?)?;
    }
    Ok(applets)
}

/// The content of an Applet component: the applets of the package.
#[tactic(auto, unfolding(crate::specs::Applet::applet, cjc_bytes::specs::Format::u1))]
pub(crate) fn read_applet(alloc: Global, cursor: &mut Cursor<'_>) -> Result<Applet, Stop>
    ensures { Reads (λ x. x) applet cursor.old cursor.new result }
{
    let count = cursor.u1()?;
    let applets = read_applets(alloc, count, cursor)?;
    Ok(Applet { applets })
}

#[tactic(auto, unfolding(crate::specs::Import::imported_package, cjc_bytes::specs::Format::u1))]
fn read_imported_package(alloc: Global, cursor: &mut Cursor<'_>) -> Result<ImportedPackage, Stop>
    ensures { Reads (λ x. x) imported_package cursor.old cursor.new result }
{
    let minor = cursor.u1()?;
    let major = cursor.u1()?;
    let aid = read_bytes1(alloc, cursor)?;
    Ok(ImportedPackage { minor, major, aid })
}

#[tactic(auto, using(cjc_bytes::proofs::Loops::repeated_more, cjc_bytes::proofs::Loops::repeated_stops, cjc_bytes::proofs::Loops::repeated_all, cjc_bytes::proofs::Loops::with_none))]
fn read_packages(
    alloc: Global,
    count: u8,
    cursor: &mut Cursor<'_>,
) -> Result<Row<ImportedPackage>, Stop>
    ensures { Reads (λ xs. xs) (repeated count imported_package) cursor.old cursor.new result }
{
    let mut packages = Row::new(alloc);
    for _ in 0..count {
        packages.push(read_imported_package(alloc, cursor)?)?;
    }
    Ok(packages)
}

/// The content of an Import component: the packages it imports.
#[tactic(auto, unfolding(crate::specs::Import::import, cjc_bytes::specs::Format::u1))]
pub(crate) fn read_import(alloc: Global, cursor: &mut Cursor<'_>) -> Result<Import, Stop>
    ensures { Reads (λ x. x) import cursor.old cursor.new result }
{
    let count = cursor.u1()?;
    let packages = read_packages(alloc, count, cursor)?;
    Ok(Import { packages })
}
