//! Import: of each export file of the list its package, by version and AID, in the order of the list (Java Card
//! Virtual Machine Specification 2.2.2, section 6.6).

ghost use Rattle.std.specs.Prelude.{◌≡◌, map, IfOk};
ghost use Rattle.cjc_components.specs.Package.{Package};
ghost use Rattle.cjc_components.specs.Components.{import, imported_package};

use cjc_bytes::{Bytes, NoMemory, Row};
use cjc_components::capread::{Import, ImportedPackage};
use cjc_world::World;
use cjc_world::export_file::ExportTree;
use std::alloc::Global;

/// A package by its export file.
fn imported_package(alloc: Global, tree: &ExportTree) -> Result<ImportedPackage, NoMemory>
    ensures { IfOk result (λ i. i ≡ imported_package tree.now) }
{
    let aid = Bytes::copy_of(alloc, tree.aid.items())?;
    Ok(ImportedPackage {
        minor: tree.minor,
        major: tree.major,
        aid,
    })
}

fn imported_packages(
    alloc: Global,
    exports: &[ExportTree],
) -> Result<Row<ImportedPackage>, NoMemory>
    ensures { IfOk result (λ row. row ≡ map imported_package exports.now) }
{
    let mut packages = Row::new(alloc);
    for tree in exports {
        packages.push(imported_package(alloc, tree)?)?;
    }
    Ok(packages)
}

/// Import of a package, in the order of the list.
pub fn import(alloc: Global, world: &World<'_>) -> Result<Import, NoMemory>
    ensures { (p : Package) → p.files ≡ world.now → IfOk result (λ i. i ≡ import p) }
{
    let packages = imported_packages(alloc, world.exports().items())?;
    Ok(Import { packages })
}
