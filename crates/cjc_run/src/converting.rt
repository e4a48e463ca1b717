//! What `convert LIST DIR` reads and makes: the list, its files, and of these the components, the export file and the
//! lines to print. `gather` calls it. Nothing here writes.

ghost use Rattle.std.specs.Prelude.{◌≡◌, ◌<◌, IfOk, length};
ghost use Rattle.cjc_shelf.specs.Command.Gather.{AreShort};
ghost use Rattle.cjc_cmd_verify.specs.Judge.Spelt.{IsRead};
ghost use Rattle.cjc_shelf.specs.Command.Gather.{Gathers, Judged};
ghost use Rattle.cjc_run.specs.Convert.{plan_of_convert, plan_of_list, plan_of_files, names_of, Makes};

use cjc_cmd_compat::list::{List, read_list};
use cjc_cmd_make::cmd_convert::conversion::{Converted, convert};
use cjc_cmd_make::cmd_convert::publication::publication;
use cjc_shelf::Shelf;
use cjc_shelf::bytes::{Bytes, Fault, NoMemory, Row};
use cjc_shelf::command::{Status, Todo, fetch, fetch_each};
use std::alloc::Global;

/// Reads a list and the files that it names, and converts the package.
pub(crate) fn gather_convert<S: Shelf>(
    alloc: Global,
    name: &[u8],
    dir: &[u8],
    shelf: &mut S,
) -> Result<Todo, Status>
    ensures { Gathers (plan_of_convert name.now) (Makes dir.now) (S.shelved shelf.old) (S.shelved shelf.new) result }
{
    let text = fetch(alloc, shelf, name)?;
    gather_listed(alloc, name, dir, text.items(), shelf)
}

fn gather_listed<S: Shelf>(
    alloc: Global,
    name: &[u8],
    dir: &[u8],
    text: &[u8],
    shelf: &mut S,
) -> Result<Todo, Status>
    requires { length text.now < 4294967296 }
    ensures { Gathers (plan_of_list name.now text.now) (Makes dir.now) (S.shelved shelf.old) (S.shelved shelf.new)
        result }
{
    match read_list(alloc, name, text) {
        Ok(list) => gather_files(alloc, dir, &list, shelf),
        Err(Fault::Refused(refusal)) => Err(Status::Refused(refusal)),
        Err(Fault::NoMemory) => Err(Status::NoMemory),
    }
}

fn gather_files<S: Shelf>(
    alloc: Global,
    dir: &[u8],
    list: &List,
    shelf: &mut S,
) -> Result<Todo, Status>
    requires { IsRead list.now }
    ensures { Gathers (plan_of_files list.now) (Makes dir.now) (S.shelved shelf.old) (S.shelved shelf.new) result }
{
    let names = match names_of(alloc, list) {
        Ok(names) => names,
        Err(NoMemory) => return Err(Status::NoMemory),
    };
    let files = fetch_each(alloc, shelf, names.items())?;
    judge(alloc, dir, list, &files)
}

fn names_of(alloc: Global, list: &List) -> Result<Row<Bytes>, NoMemory>
    ensures { IfOk result (λ names. names ≡ names_of list.now) }
{
    let mut names = Row::new(alloc);
    for line in list.lines.items() {
        names.push(Bytes::copy_of(alloc, line.name.items())?)?;
    }
    Ok(names)
}

// All is computed here, the names and the lines too.
fn judge(alloc: Global, dir: &[u8], list: &List, files: &Row<Bytes>) -> Result<Todo, Status>
    requires read { IsRead list.now }
    requires count { length files.now ≡ length list.now.lines }
    requires files { AreShort files.now }
    ensures { Judged (Makes dir.now (list.now, files.now)) result }
{
    match convert(alloc, list, files) {
        Ok(Converted { caps, export }) => {
            match publication(alloc, dir, list.package.items(), caps, export) {
                Ok(todo) => Ok(todo),
                Err(NoMemory) => Err(Status::NoMemory),
            }
        }
        Err(Fault::Refused(refusal)) => Err(Status::Refused(refusal)),
        Err(Fault::NoMemory) => Err(Status::NoMemory),
    }
}
