//! The components of all packages of a group, run together by token. `running` calls it.

ghost use Rattle.std.specs.Prelude.{◌≡◌, List as Items, IfOk, length, map, position, unwrap_or};
ghost use Rattle.std.specs.Str.{bytes_eq};
ghost use Rattle.cjc_cmd_card.specs.CardLink.Group.{import_of};
ghost use Rattle.cjc_link_semantics.specs.CardSemantics.Machine.Loaded.{OfFile, OfGroup};
ghost use Rattle.cjc_cmd_card.specs.declared.running.input.Input.{Input as Given};
ghost use Rattle.cjc_link_semantics.specs.JvmSemantics.Group.{joint_exports};
ghost use Rattle.cjc_group.specs.World.declared.image.StaticImage.{StaticImage as Image};
ghost use Rattle.cjc_cmd_link.specs.ByToken.{AreNamed, AreParts, IsByToken, IsNamed, IsPart, import_for};
ghost use Rattle.cjc_cmd_link.specs.Working.{AreMade, IsMade, worlds_of};

use crate::joint::packages_of;
use crate::members::{ReadyGroup, Tested, parts_in};
use cjc_cmd_card::card::group::Group;
use cjc_cmd_card::card::runs::run;
use cjc_cmd_card::card_frame::parts::CellName;
use cjc_cmd_card::card_link::{ClassNames, GroupPart, Import};
use cjc_cmd_card::judge::tokens_of;
use cjc_cmd_card::jvm_link::Package;
use cjc_cmd_card::pairing::card_names::{cell_names, class_names};
use cjc_cmd_card::report::part_of;
use cjc_group::bytes::{NoMemory, Row};
use cjc_group::export_file::ExportTree;
use cjc_group::world::StaticImage;
use cjc_link_semantics::script::{Report, Script};
use std::alloc::Global;

/// The names of the classes and cells of a package.
#[derive(Drop)]
pub(crate) struct Names {
    classes: Row<ClassNames>,
    cells: Row<CellName>,
}

/// The number of the package of a name.
fn package_number(packages: &[Package<'_, '_>], name: &[u8]) -> Option<usize>
    ensures { result ≡ position (λ p. bytes_eq p.package_name name.now) packages.now }
{
    packages.iter().position(|p| p.world.package() == name)
}

/// The place of the export file of a name.
fn tree_place(trees: &[ExportTree], name: &[u8]) -> Option<usize>
    ensures { result ≡ position (λ t. bytes_eq t.name name.now) trees.now }
{
    trees.iter().position(|t| t.name.items() == name)
}

/// The number of the export file of a name; how many there are where none has it.
fn tree_number(trees: &[ExportTree], name: &[u8]) -> usize
    ensures { result ≡ unwrap_or (position (λ t. bytes_eq t.name name.now) trees.now) (length trees.now) }
{
    match tree_place(trees, name) {
        Some(number) => number,
        None => trees.len(),
    }
}

/// Another package of the group, by its number. No memory is there for so many that 32 bits can't number them.
fn of_group(number: usize) -> Result<Import, NoMemory>
    ensures { IfOk result (λ i. import_of i ≡ OfGroup number) }
{
    if number > u32::MAX as usize {
        return Err(NoMemory);
    }
    Ok(Import::OfGroup(number as u32))
}

/// A package outside, by the number of its export file. No memory is there for so many that 32 bits can't number them.
fn of_file(number: usize) -> Result<Import, NoMemory>
    ensures { IfOk result (λ i. import_of i ≡ OfFile number) }
{
    if number > u32::MAX as usize {
        return Err(NoMemory);
    }
    Ok(Import::OfFile(number as u32))
}

/// What an export file of a package stands for: another of the group, or a package outside.
fn import_by(
    packages: &[Package<'_, '_>],
    outside: &[ExportTree],
    tree: &ExportTree,
) -> Result<Import, NoMemory>
    ensures { IfOk result (λ i. import_of i ≡ import_for packages.now outside.now tree.now) }
{
    let name = tree.name.items();
    match package_number(packages, name) {
        Some(number) => of_group(number),
        None => {
            let number = tree_number(outside, name);
            of_file(number)
        }
    }
}

/// What the export files of a package stand for.
fn imports_of(
    alloc: Global,
    packages: &[Package<'_, '_>],
    outside: &[ExportTree],
    trees: &[ExportTree],
) -> Result<Row<Import>, NoMemory>
    ensures { IfOk result (λ is. map import_of is ≡ map (import_for packages.now outside.now) trees.now) }
{
    let mut imports = Row::new(alloc);
    for tree in trees {
        let import = import_by(packages, outside, tree)?;
        imports.push(import)?;
    }
    Ok(imports)
}

/// The names of a package, whose static cells hold this at first.
fn names_of(alloc: Global, member: &Tested<'_>, image: &StaticImage) -> Result<Names, NoMemory>
    requires { (given : Given) × IsMade given member.now image.now }
    ensures { IfOk result (IsNamed member.now image.now) }
{
    let world = &member.ready.judged.world;
    let tokens = tokens_of(alloc, &member.input.list, world)?;
    let classes = class_names(alloc, world, &tokens)?;
    let cells = cell_names(alloc, world, image)?;
    Ok(Names { classes, cells })
}

/// The names of all packages.
fn all_names(
    alloc: Global,
    members: &[Tested<'_>],
    images: &[StaticImage],
) -> Result<Row<Names>, NoMemory>
    requires made { (inputs : Items Given) × AreMade inputs members.now images.now }
    requires count { length images.now ≡ length members.now }
    ensures named { IfOk result (AreNamed members.now images.now) }
    ensures count { IfOk result (λ names. length names ≡ length members.now) }
{
    let mut names = Row::new(alloc);
    for (place, member) in members.iter().enumerate() {
        let image = &images[place];
        let own = names_of(alloc, member, image)?;
        names.push(own)?;
    }
    Ok(names)
}

/// A package with its names, and what it imports.
fn group_part<'t>(
    alloc: Global,
    packages: &[Package<'_, '_>],
    outside: &[ExportTree],
    member: &'t Tested<'_>,
    own: &'t Names,
) -> Result<GroupPart<'t>, NoMemory>
    requires { (given : Given) × (image : Image) × IsMade given member.now image × IsNamed member.now image own.now }
    ensures { IfOk result (λ p. (image : Image) → IsNamed member.now image own.now → IsPart packages.now outside.now
        member.now image p) }
{
    let complete = parts_in(&member.ready);
    let part = part_of(&complete, own.classes.items(), own.cells.items());
    let trees = member.ready.judged.world.exports();
    let imports = imports_of(alloc, packages, outside, trees.items())?;
    Ok(GroupPart { part, imports })
}

/// All packages with their names, and what they import.
fn group_parts<'t>(
    alloc: Global,
    packages: &[Package<'_, '_>],
    outside: &[ExportTree],
    members: &'t [Tested<'_>],
    images: &[StaticImage],
    names: &'t [Names],
) -> Result<Row<GroupPart<'t>>, NoMemory>
    requires made { (inputs : Items Given) × AreMade inputs members.now images.now }
    requires named { AreNamed members.now images.now names.now }
    requires count { length names.now ≡ length members.now }
    ensures { IfOk result (AreParts packages.now outside.now members.now images.now) }
{
    let _images = images;
    let mut parts = Row::new(alloc);
    for (place, member) in members.iter().enumerate() {
        let own = &names[place];
        let part = group_part(alloc, packages, outside, member, own)?;
        parts.push(part)?;
    }
    Ok(parts)
}

/// The report of the joint run by token of packages that were tested, over the export files of what is outside.
pub(crate) fn tokens_report(
    alloc: Global,
    members: &[Tested<'_>],
    images: &[StaticImage],
    outside: &[ExportTree],
    script: &Script,
    n: u32,
) -> Result<Report, NoMemory>
    requires made { (inputs : Items Given) × AreMade inputs members.now images.now }
    requires outside { outside.now ≡ joint_exports (worlds_of members.now) }
    ensures { IfOk result (IsByToken members.now images.now script.now n) }
{
    let packages = packages_of(alloc, members)?;
    let names = all_names(alloc, members, images)?;
    let parts = group_parts(
        alloc,
        packages.items(),
        outside,
        members,
        images,
        names.items(),
    )?;
    let loaded = Group::of_packages(alloc, parts, outside)?;
    run(alloc, &loaded, script, n)
}
