//! The world of all packages of a group, with the instructions of their methods. `running` calls it.

ghost use Rattle.std.specs.Prelude.{◌≡◌, ◌++◌, true, IfErr, IfOk, MatchOption, OnOk};
ghost use Rattle.std.specs.List.{flat_map};
ghost use Rattle.cjc_link_semantics.specs.JvmSemantics.Group.{joint, joint_classes};
ghost use Rattle.cjc_group.specs.World.Classes.{all_classes};
ghost use Rattle.cjc_group.specs.World.Files.{Files};
ghost use Rattle.cjc_group.specs.World.Rules.{has_cycle};
ghost use Rattle.cjc_link_semantics.specs.Bytecode.PackageCodes.{all_codes};
ghost use Rattle.cjc_cmd_link.specs.Refused.{IsFault};
ghost use Rattle.cjc_cmd_link.specs.Working.{AreOfGroup, IsCycle, IsJoint, lines_of, texts_of, worlds_of};

use crate::members::Tested;
use cjc_cmd_card::judge::{Codes, JointTrees, trees_of};
use cjc_cmd_card::jvm_link::{Package, joint_world};
use cjc_group::bytes::{Bytes, Fault, FileLine, NoMemory, Row, refused};
use cjc_group::world::World;
use std::alloc::Global;

/// The world of all packages of a group, and the instructions of their methods.
#[derive(Drop)]
pub(crate) struct Joint<'a> {
    pub(crate) world: World<'a>,
    pub(crate) codes: Codes,
}

/// Puts the lines of a list behind others.
fn put_lines(alloc: Global, more: &[FileLine], lines: &mut Row<FileLine>) -> Result<(), NoMemory>
    ensures { OnOk result (lines.new ≡ lines.old ++ more.now) }
{
    for line in more {
        lines.push(FileLine {
            class_file: line.class_file,
            name: Bytes::copy_of(alloc, line.name.items())?,
        })?;
    }
    Ok(())
}

/// The lines of the lists of all packages, one after the other.
pub(crate) fn all_lines(alloc: Global, members: &[Tested<'_>]) -> Result<Row<FileLine>, NoMemory>
    ensures { IfOk result (λ lines. lines ≡ flat_map lines_of members.now) }
{
    let mut lines = Row::new(alloc);
    for member in members {
        put_lines(alloc, member.input.list.lines.items(), &mut lines)?;
    }
    Ok(lines)
}

/// Puts files behind others.
fn put_files(alloc: Global, more: &[Bytes], files: &mut Row<Bytes>) -> Result<(), NoMemory>
    ensures { OnOk result (files.new ≡ files.old ++ more.now) }
{
    for file in more {
        files.push(Bytes::copy_of(alloc, file.items())?)?;
    }
    Ok(())
}

/// The files of all packages, one after the other.
pub(crate) fn all_files(alloc: Global, members: &[Tested<'_>]) -> Result<Row<Bytes>, NoMemory>
    ensures { IfOk result (λ files. files ≡ flat_map texts_of members.now) }
{
    let mut files = Row::new(alloc);
    for member in members {
        put_files(alloc, member.input.files.items(), &mut files)?;
    }
    Ok(files)
}

/// The packages by their worlds.
pub(crate) fn packages_of<'w, 'a>(
    alloc: Global,
    members: &'w [Tested<'a>],
) -> Result<Row<Package<'w, 'a>>, NoMemory>
    ensures { IfOk result (λ packages. packages ≡ worlds_of members.now) }
{
    let mut packages = Row::new(alloc);
    for member in members {
        packages.push(Package {
            world: &member.ready.judged.world,
        })?;
    }
    Ok(packages)
}

/// What the files of all packages spell, where 32 bits count their lines.
fn joint_trees<'a>(
    alloc: Global,
    members: &[Tested<'_>],
    lines: &[FileLine],
    files: &'a [Bytes],
) -> Result<JointTrees<'a>, NoMemory>
    requires made { AreOfGroup members.now }
    requires lines { lines.now ≡ flat_map lines_of members.now }
    requires files { files.now ≡ flat_map texts_of members.now }
    ensures classes { IfOk result (λ read. read.classes ≡ joint_classes (worlds_of members.now)) }
    ensures exports { IfOk result (λ read. read.exports ≡ flat_map (λ (p : Files). p.exports) (worlds_of
        members.now)) }
    ensures codes { IfOk result (λ read. read.codes ≡ all_codes read.classes) }
{
    let _members = members;
    if lines.len() > u32::MAX as usize {
        return Err(NoMemory);
    }
    trees_of(alloc, lines, files)
}

/// The world of all packages, of whose files these are the trees; none where a class is above itself.
fn joint_over<'a>(
    alloc: Global,
    members: &[Tested<'_>],
    trees: JointTrees<'a>,
) -> Result<Option<Joint<'a>>, NoMemory>
    requires classes { trees.classes ≡ joint_classes (worlds_of members.now) }
    requires exports { trees.exports ≡ flat_map (λ (p : Files). p.exports) (worlds_of members.now) }
    requires codes { trees.codes ≡ all_codes trees.classes }
    ensures { IfOk result (λ o. MatchOption o (has_cycle (all_classes (joint (worlds_of members.now))) ≡ true)
        (IsJoint (worlds_of members.now))) }
{
    let packages = packages_of(alloc, members)?;
    let JointTrees {
        classes,
        exports,
        codes,
    } = trees;
    match joint_world(alloc, packages.items(), classes, exports)? {
        Some(world) => {
            world.acyclic();
            Ok(Some(Joint { world, codes }))
        }
        None => Ok(None),
    }
}

/// The world of all packages, over these lines and files.
///
/// # Errors
///
/// A class that is above itself, at the text of this name; want of memory.
pub(crate) fn joint_of<'a>(
    alloc: Global,
    name: &[u8],
    members: &[Tested<'_>],
    lines: &[FileLine],
    files: &'a [Bytes],
) -> Result<Joint<'a>, Fault>
    requires made { AreOfGroup members.now }
    requires lines { lines.now ≡ flat_map lines_of members.now }
    requires files { files.now ≡ flat_map texts_of members.now }
    ensures joint { IfOk result (IsJoint (worlds_of members.now)) }
    ensures refused { IfErr result (IsFault (IsCycle name.now (worlds_of members.now))) }
{
    let trees = joint_trees(alloc, members, lines, files)?;
    match joint_over(alloc, members, trees)? {
        Some(joint) => Ok(joint),
        None => Err(refused(alloc, name, 204, 0)),
    }
}
