//! The package of a list and its files, judged by groups of rules. Called by every command that starts from
//! class files.

ghost use Rattle.std.specs.Prelude.{◌≡◌, [], length, All, IfOk, IfErr, OnOk};
ghost use Rattle.cjc_narrow.specs.Types.Tables.{IsOfPackage};
ghost use Rattle.cjc_world.specs.Rules.{breaks};
ghost use Rattle.cjc_bytes.specs.Breaks.{Break as Broken, IsFirstRefusal};
ghost use Rattle.cjc_judge.specs.Judged.{IsJudged, IsStopped};
ghost use Rattle.cjc_judge.specs.Rules.{world_files, BreaksFile, IsFirstFault};
ghost use Rattle.cjc_judge.specs.Spelt.{IsRead, AreFiles};

use crate::groups::Group;
use crate::judging::{Told, test};
use crate::reading::{Trees, read_files};
use cjc_bytes::{Bytes, Fault, FileLine, NoMemory, Row};
use cjc_flow::types::TypeTable;
use cjc_int_mode::modes::Mode;
use cjc_list::List;
use cjc_vtable::bytecode::Codes;
use cjc_vtable::subset::names;
use cjc_vtable::tokens::Tokens;
use cjc_world::World;
use cjc_world::classfile::ClassTree;
use cjc_world::export_file::ExportTree;
use std::alloc::Global;

/// A package that breaks no rule of those that it was tested for.
pub struct Judged<'a> {
    /// Its list.
    pub list: &'a List,
    /// The files that the list names, in its order.
    pub files: &'a Row<Bytes>,
    /// Its classes and the export files, in list order.
    pub world: World<'a>,
    /// The instructions of its methods, in the order of the classes and of their methods.
    pub codes: Codes,
    /// The types of each of these methods, where types or ranges were tested.
    pub types: Row<TypeTable>,
    /// The mode of each of these methods, where ranges were tested; short mode of an initialiser.
    pub modes: Row<Mode>,
    /// The tokens of its classes and members, and of those that export files describe, where 413 was tested.
    pub tokens: Option<Tokens>,
}

impl Drop for Judged<'_> {
    fn drop(self) {
        let Judged {
            list: _list,
            files: _files,
            world: _world,
            codes: _codes,
            types: _types,
            modes: _modes,
            tokens: _tokens,
        } = self;
    }
}

// The lines of a list that name files, in memory of their own.
fn lines_of(alloc: Global, list: &List) -> Result<Row<FileLine>, NoMemory>
    ensures { IfOk result (λ lines. lines ≡ list.now.lines) }
{
    let mut lines = Row::new(alloc);
    for line in list.lines.items() {
        lines.push(FileLine {
            class_file: line.class_file,
            name: Bytes::copy_of(alloc, line.name.items())?,
        })?;
    }
    Ok(lines)
}

// The world of the package of a list, of which these are the class files and the export files.
fn world_of<'a>(
    alloc: Global,
    list: &List,
    classes: Row<ClassTree<'a>>,
    exports: Row<ExportTree>,
) -> Result<World<'a>, Fault>
    ensures made { IfOk result (λ w. w ≡ world_files list.now classes.entry exports) }
    ensures unbroken { OnOk result (breaks list.now.name (world_files list.now classes.entry exports) ≡ []) }
    ensures refused { IfErr result (IsFirstRefusal (breaks list.now.name (world_files list.now classes.entry
        exports))) }
{
    let lines = lines_of(alloc, list)?;
    World::new(
        alloc,
        list.name.items(),
        list.package.items(),
        lines,
        classes,
        exports,
    )
}

/// Tests the files of a list, which these are in list order, each by itself: for rules 101 to 104.
///
/// # Errors
///
/// The first of these that is broken, in the order of refusals.
pub fn test_files(alloc: Global, list: &List, files: &Row<Bytes>) -> Result<(), Fault>
    requires read { IsRead list.now }
    requires count { length files.now ≡ length list.now.lines }
    requires files { AreFiles files.now }
    ensures unbroken { OnOk result ((b : Broken) → BreaksFile list.now.lines files.now b → ⊥) }
    ensures refused { IfErr result (IsFirstFault (BreaksFile list.now.lines files.now)) }
{
    let _trees = read_files(alloc, list.lines.items(), files.items())?;
    Ok(())
}

/// The package of a list, whose files these are in list order, where it breaks no rule of single files (101 to 104), of
/// the classes together (201 to 204, 207, 208), of what instructions name (203, 205, 206) and of these groups.
///
/// # Errors
///
/// The first broken rule of all these, in the order of refusals.
pub fn judge<'a>(
    alloc: Global,
    list: &'a List,
    files: &'a Row<Bytes>,
    groups: &[Group],
) -> Result<Judged<'a>, Fault>
    requires read { IsRead list.now }
    requires count { length files.now ≡ length list.now.lines }
    requires files { AreFiles files.now }
    ensures list { IfOk result (λ j. j.list.now ≡ list.now) }
    ensures files { IfOk result (λ j. j.files.now ≡ files.now) }
    ensures judged { IfOk result (IsJudged list.now files.now groups.now) }
    ensures refused { IfErr result (IsStopped list.now files.now groups.now) }
{
    let Trees {
        classes,
        exports,
        codes,
        unsupported_insns,
    } = read_files(alloc, list.lines.items(), files.items())?;
    let world = world_of(alloc, list, classes, exports)?;
    names(alloc, list.name.items(), &world, &codes)?;
    let Told {
        types,
        modes,
        tokens,
    } = test(
        alloc,
        list,
        &world,
        &codes,
        unsupported_insns.items(),
        groups,
    )?;
    Ok(Judged {
        list,
        files,
        world,
        codes,
        types,
        modes,
        tokens,
    })
}
