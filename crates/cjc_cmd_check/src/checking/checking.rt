//! What `check LIST DIR` reads and tests. The program's top call calls it. Nothing here writes.

ghost use Rattle.std.specs.Prelude.{◌≡◌, ◌∷◌, [], IfErr, IfOk, OnOk};
ghost use Rattle.cjc_bytes.specs.Breaks.{IsFirstRefusal};
ghost use Rattle.cjc_cmd_check.specs.Check.{AreConsistent, Checks, check_breaks, ok_line, plan_of_check};
ghost use Rattle.cjc_shelf.specs.Command.Gather.{Gathers, Judged};
ghost use Rattle.cjc_cmd_check.specs.Folder.Breaks.{AreRead, AreShort, AreTrees};

use crate::folder::{Folder, FolderTrees, folder_trees, gather_folder};
use cjc_bytes::{Bytes, Fault, NoMemory, Row};
use cjc_check::check;
use cjc_shelf::Shelf;
use cjc_shelf::command::{Status, Todo};
use std::alloc::Global;

/// Tests what the files of a folder say.
fn test_trees(alloc: Global, folder: &Folder, trees: FolderTrees) -> Result<(), Fault>
    requires small { AreShort folder.now }
    requires trees { AreTrees folder.now trees }
    ensures unbroken { OnOk result (check_breaks folder.now ≡ []) }
    ensures consistent { OnOk result (AreConsistent folder.now) }
    ensures refused { IfErr result (IsFirstRefusal (check_breaks folder.now)) }
{
    let _folder = folder;
    let FolderTrees { exports, cap } = trees;
    match check(alloc, cap, &exports) {
        Ok(_) => Ok(()),
        Err(fault) => Err(fault),
    }
}

/// Tests the files of a folder, and then what they say.
fn test(alloc: Global, folder: &Folder) -> Result<(), Fault>
    requires short { AreShort folder.now }
    requires read { AreRead folder.now }
    ensures unbroken { OnOk result (check_breaks folder.now ≡ []) }
    ensures consistent { OnOk result (AreConsistent folder.now) }
    ensures refused { IfErr result (IsFirstRefusal (check_breaks folder.now)) }
{
    let trees = folder_trees(alloc, folder)?;
    test_trees(alloc, folder, trees)
}

/// What is printed where nothing is broken.
pub fn print_ok(alloc: Global) -> Result<Todo, NoMemory>
    ensures { IfOk result (λ todo. todo ≡ record { files = []; lines = ok_line ∷ [] }) }
{
    let mut lines = Row::new(alloc);
    lines.push(Bytes::copy_of(alloc, b"ok\n")?)?;
    Ok(Todo {
        files: Row::new(alloc),
        lines,
    })
}

// All is computed here, the line too.
fn judge(alloc: Global, folder: &Folder) -> Result<Todo, Status>
    requires short { AreShort folder.now }
    requires read { AreRead folder.now }
    ensures { Judged (Checks folder.now) result }
{
    match test(alloc, folder) {
        Ok(()) => match print_ok(alloc) {
            Ok(todo) => Ok(todo),
            Err(NoMemory) => Err(Status::NoMemory),
        },
        Err(fault) => Err(Status::from(fault)),
    }
}

/// Reads a list, its export files and the components of a folder, and tests them.
///
/// # Errors
///
/// A list that is refused; the first file that is absent, too long or can't be read; where all are read the
/// first broken rule: of export files (104), else of components (106), else of what they say together (701 to
/// 718); want of memory.
pub fn gather_check<S: Shelf>(
    alloc: Global,
    name: &[u8],
    dir: &[u8],
    shelf: &mut S,
) -> Result<Todo, Status>
    ensures { Gathers (plan_of_check name.now dir.now) Checks (S.shelved shelf.old) (S.shelved shelf.new) result }
{
    let folder = gather_folder(alloc, name, dir, shelf)?;
    judge(alloc, &folder)
}
