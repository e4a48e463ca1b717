//! Reads a list, its files and a script, each after those that stand before it. Nothing here writes.

ghost use Rattle.std.specs.Prelude.{◌≡◌, ◌<◌, IfOk, length};
ghost use Rattle.cjc_shelf.specs.Command.Gather.{Gathers, IsSame};
ghost use Rattle.cjc_judge.specs.Spelt.{IsRead};
ghost use Rattle.cjc_cmd_jvm.specs.Running.Reads.{IsInput, names_of, plan_behind_list, plan_behind_text, plan_of_run};

use crate::running::input::Input;
use cjc_script_text::list::{List, read_list};
use cjc_shelf::Shelf;
use cjc_shelf::bytes::{Bytes, Fault, FileLine, NoMemory, Row};
use cjc_shelf::command::{Status, fetch, fetch_each};
use std::alloc::Global;

/// The names of the files of a list.
pub fn names_of(alloc: Global, lines: &[FileLine]) -> Result<Row<Bytes>, NoMemory>
    ensures { IfOk result (λ names. names ≡ names_of lines.now) }
{
    let mut names = Row::new(alloc);
    for line in lines {
        names.push(Bytes::copy_of(alloc, line.name.items())?)?;
    }
    Ok(names)
}

/// Reads the files of a list, and then a script.
fn gather_listed<S: Shelf>(
    alloc: Global,
    script: &[u8],
    list: List,
    shelf: &mut S,
) -> Result<Input, Status>
    requires { IsRead list }
    ensures gathers { Gathers (plan_behind_list script.now list) IsSame (S.shelved shelf.old) (S.shelved shelf.new)
        result }
    ensures input { IfOk result IsInput }
{
    let names = match names_of(alloc, list.lines.items()) {
        Ok(names) => names,
        Err(NoMemory) => return Err(Status::NoMemory),
    };
    let files = fetch_each(alloc, shelf, names.items())?;
    let script = fetch(alloc, shelf, script)?;
    Ok(Input {
        list,
        files,
        script,
    })
}

/// Reads behind the text of a list what it names, and then a script.
fn gather_text<S: Shelf>(
    alloc: Global,
    name: &[u8],
    script: &[u8],
    text: &[u8],
    shelf: &mut S,
) -> Result<Input, Status>
    requires { length text.now < 4294967296 }
    ensures gathers { Gathers (plan_behind_text name.now script.now text.now) IsSame (S.shelved shelf.old)
        (S.shelved shelf.new) result }
    ensures input { IfOk result IsInput }
{
    match read_list(alloc, name, text) {
        Ok(list) => gather_listed(alloc, script, list, shelf),
        Err(Fault::Refused(refusal)) => Err(Status::Refused(refusal)),
        Err(Fault::NoMemory) => Err(Status::NoMemory),
    }
}

/// Reads a list, its files in the order of its lines, and a script.
///
/// # Errors
///
/// A list that is refused, before the next file is read; the first file that is absent, too long or can't be
/// read; want of memory.
pub fn gather_input<S: Shelf>(
    alloc: Global,
    name: &[u8],
    script: &[u8],
    shelf: &mut S,
) -> Result<Input, Status>
    ensures gathers { Gathers (plan_of_run name.now script.now) IsSame (S.shelved shelf.old) (S.shelved shelf.new)
        result }
    ensures input { IfOk result IsInput }
{
    let text = fetch(alloc, shelf, name)?;
    gather_text(alloc, name, script, text.items(), shelf)
}
