//! The bytes of Header, Directory, Applet and Import (6.3 to 6.6). Called by `files`. Directory is written as
//! it is told, and counts nothing itself.

ghost use Rattle.std.specs.Prelude.{◌≡◌, ◌++◌, OnOk};
ghost use Rattle.std.specs.List.{flat_map};
ghost use Rattle.cjc_capwrite.specs.Package.{header_bytes, directory_bytes, applet_entry_bytes, applet_bytes};
ghost use Rattle.cjc_capwrite.specs.Package.{imported_package_bytes, import_bytes};

use crate::parts::{put_bytes1, put_count1, put_numbers, put_two};
use cjc_capread::bytes::{NoMemory, Out};
use cjc_capread::{Applet, AppletEntry, Directory, Header, Import, ImportedPackage};

/// The content of a Header component of version 2.2.
#[tactic(auto, unfolding(crate::specs::Package::header_bytes))]
pub(crate) fn put_header(out: &mut Out, header: &Header) -> Result<(), NoMemory>
    ensures { OnOk result (out.new ≡ out.old ++ header_bytes header.now) }
{
    out.put4(0xDECA_FFED)?;
    out.put1(2)?;
    out.put1(2)?;
    out.put1(header.flags)?;
    out.put1(header.minor)?;
    out.put1(header.major)?;
    put_bytes1(out, header.aid.items())?;
    put_bytes1(out, header.name.items())
}

/// The content of a Directory component that counts no custom components.
#[tactic(auto, unfolding(crate::specs::Package::directory_bytes))]
pub(crate) fn put_directory(out: &mut Out, directory: &Directory) -> Result<(), NoMemory>
    ensures { OnOk result (out.new ≡ out.old ++ directory_bytes directory.now) }
{
    put_numbers(out, directory.component_sizes.items())?;
    put_two(out, directory.image_size)?;
    put_two(out, directory.array_init_count)?;
    put_two(out, directory.array_init_size)?;
    out.put1(directory.import_count)?;
    out.put1(directory.applet_count)?;
    out.put1(0)
}

#[tactic(auto, unfolding(crate::specs::Package::applet_entry_bytes))]
fn put_applet_entry(out: &mut Out, entry: &AppletEntry) -> Result<(), NoMemory>
    ensures { OnOk result (out.new ≡ out.old ++ applet_entry_bytes entry.now) }
{
    put_bytes1(out, entry.aid.items())?;
    put_two(out, entry.install_method)
}

fn put_applets(out: &mut Out, applets: &[AppletEntry]) -> Result<(), NoMemory>
    ensures { OnOk result (out.new ≡ out.old ++ flat_map applet_entry_bytes applets.now) }
{
    for entry in applets {
        put_applet_entry(out, entry)?;
    }
    Ok(())
}

/// The content of an Applet component: the applets of the package.
#[tactic(auto, unfolding(crate::specs::Package::applet_bytes))]
pub(crate) fn put_applet(out: &mut Out, applet: &Applet) -> Result<(), NoMemory>
    ensures { OnOk result (out.new ≡ out.old ++ applet_bytes applet.now) }
{
    put_count1(out, applet.applets.items())?;
    put_applets(out, applet.applets.items())
}

#[tactic(auto, unfolding(crate::specs::Package::imported_package_bytes))]
fn put_imported_package(out: &mut Out, imported: &ImportedPackage) -> Result<(), NoMemory>
    ensures { OnOk result (out.new ≡ out.old ++ imported_package_bytes imported.now) }
{
    out.put1(imported.minor)?;
    out.put1(imported.major)?;
    put_bytes1(out, imported.aid.items())
}

fn put_packages(out: &mut Out, packages: &[ImportedPackage]) -> Result<(), NoMemory>
    ensures { OnOk result (out.new ≡ out.old ++ flat_map imported_package_bytes packages.now) }
{
    for imported in packages {
        put_imported_package(out, imported)?;
    }
    Ok(())
}

/// The content of an Import component: the packages it imports.
#[tactic(auto, unfolding(crate::specs::Package::import_bytes))]
pub(crate) fn put_import(out: &mut Out, import: &Import) -> Result<(), NoMemory>
    ensures { OnOk result (out.new ≡ out.old ++ import_bytes import.now) }
{
    put_count1(out, import.packages.items())?;
    put_packages(out, import.packages.items())
}
