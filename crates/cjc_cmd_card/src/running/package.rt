//! Reads a list, its files and the components of a folder, each after those that stand before it. Nothing here writes.

ghost use Rattle.std.specs.Prelude.{◌<◌, ◌^◌, IfOk, length};
ghost use Rattle.cjc_cmd_card.specs.Running.Reads.{IsInput};
ghost use Rattle.cjc_cmd_jvm.specs.LowerShelf.Command.Gather.{Gathers, IsSame};
ghost use Rattle.cjc_cmd_card.specs.Running.Package.{plan_behind_list, plan_behind_text, plan_of_input};
ghost use Rattle.cjc_cmd_jvm.specs.Judge.Spelt.{IsRead};

use crate::running::input::Input;
use cjc_cmd_check::bytes::{Fault, NoMemory, Row};
use cjc_cmd_check::folder::gather_parts;
use cjc_cmd_check::list::{List, read_list};
use cjc_cmd_jvm::running::names_of;
use cjc_cmd_jvm::shelf::Shelf;
use cjc_cmd_jvm::shelf::command::{Status, fetch, fetch_each};
use std::alloc::Global;

/// Reads the files of a list, and then the components of a folder.
fn gather_listed<S: Shelf>(
    alloc: Global,
    dir: &[u8],
    list: List,
    shelf: &mut S,
) -> Result<Input, Status>
    requires { IsRead list }
    ensures gathers { Gathers (plan_behind_list dir.now list) IsSame (S.shelved shelf.old) (S.shelved shelf.new)
        result }
    ensures input { IfOk result IsInput }
{
    let names = match names_of(alloc, list.lines.items()) {
        Ok(names) => names,
        Err(NoMemory) => return Err(Status::NoMemory),
    };
    let files = fetch_each(alloc, shelf, names.items())?;
    let parts = gather_parts(alloc, dir, shelf)?;
    Ok(Input {
        list,
        files,
        parts,
        script: Row::new(alloc),
    })
}

/// Reads behind the text of a list what it names, and then the components of a folder.
fn gather_text<S: Shelf>(
    alloc: Global,
    name: &[u8],
    dir: &[u8],
    text: &[u8],
    shelf: &mut S,
) -> Result<Input, Status>
    requires { length text.now < 2 ^ 32 }
    ensures gathers { Gathers (plan_behind_text name.now dir.now text.now) IsSame (S.shelved shelf.old)
        (S.shelved shelf.new) result }
    ensures input { IfOk result IsInput }
{
    match read_list(alloc, name, text) {
        Ok(list) => gather_listed(alloc, dir, list, shelf),
        Err(Fault::Refused(refusal)) => Err(Status::Refused(refusal)),
        Err(Fault::NoMemory) => Err(Status::NoMemory),
    }
}

/// Reads a list, its files in the order of its lines, and the components of a folder by their tags. Where the bytes of
/// Directory spell none the reads end there.
///
/// # Errors
///
/// A list that is refused, before the next file is read; the first file that is absent, too long or can't be
/// read; want of memory.
pub fn gather_package<S: Shelf>(
    alloc: Global,
    name: &[u8],
    dir: &[u8],
    shelf: &mut S,
) -> Result<Input, Status>
    ensures gathers { Gathers (plan_of_input name.now dir.now) IsSame (S.shelved shelf.old) (S.shelved shelf.new)
        result }
    ensures input { IfOk result IsInput }
{
    let text = fetch(alloc, shelf, name)?;
    gather_text(alloc, name, dir, text.items(), shelf)
}
