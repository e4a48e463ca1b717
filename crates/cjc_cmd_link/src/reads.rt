//! Reads the packages of a group, each after those that stand before it, and then a script. Nothing here writes.

ghost use Rattle.std.specs.Prelude.{◌<◌, ◌^◌, IfOk, length};
ghost use Rattle.std.specs.List.{AllByRecursion};
ghost use Rattle.cjc_cmd_card.specs.Running.Reads.{IsInput};
ghost use Rattle.cjc_cmd_card.specs.Shelf.Command.Gather.{Gathers, IsSame};
ghost use Rattle.cjc_cmd_link.specs.Reads.{IsGroup, plan_behind_lines, plan_behind_text, plan_of_group};
ghost use Rattle.cjc_cmd_link.specs.Reads.{plan_of_members};

use cjc_cmd_card::running::{Input, gather_package};
use cjc_cmd_card::shelf::Shelf;
use cjc_cmd_card::shelf::command::{Status, fetch};
use cjc_group::bytes::{Bytes, Fault, Row};
use cjc_group::{PackageLine, read_group};
use std::alloc::Global;

/// What was read of a group: its packages, each with no script, and the script that runs on them.
#[derive(Drop)]
pub struct GroupInput {
    pub members: Row<Input>,
    pub script: Bytes,
}

/// Reads the packages of these lines.
fn gather_members<S: Shelf>(
    alloc: Global,
    lines: &[PackageLine],
    shelf: &mut S,
) -> Result<Row<Input>, Status>
    ensures gathers { Gathers (plan_of_members lines.now) IsSame (S.shelved shelf.old) (S.shelved shelf.new) result }
    ensures inputs { IfOk result (AllByRecursion IsInput) }
{
    let mut members = Row::new(alloc);
    for line in lines {
        let member = gather_package(alloc, line.list.items(), line.folder.items(), shelf)?;
        members.push(member)?;
    }
    Ok(members)
}

/// Reads the packages of these lines, and then a script.
fn gather_behind<S: Shelf>(
    alloc: Global,
    script: &[u8],
    lines: Row<PackageLine>,
    shelf: &mut S,
) -> Result<GroupInput, Status>
    ensures gathers { Gathers (plan_behind_lines script.now lines) IsSame (S.shelved shelf.old) (S.shelved shelf.new)
        result }
    ensures input { IfOk result IsGroup }
{
    let members = gather_members(alloc, lines.items(), shelf)?;
    let script = fetch(alloc, shelf, script)?;
    Ok(GroupInput { members, script })
}

/// Reads the packages that a text names, and then a script.
fn gather_text<S: Shelf>(
    alloc: Global,
    name: &[u8],
    script: &[u8],
    text: &[u8],
    shelf: &mut S,
) -> Result<GroupInput, Status>
    requires { length text.now < 2 ^ 32 }
    ensures gathers { Gathers (plan_behind_text name.now script.now text.now) IsSame (S.shelved shelf.old)
        (S.shelved shelf.new) result }
    ensures input { IfOk result IsGroup }
{
    match read_group(alloc, name, text) {
        Ok(lines) => gather_behind(alloc, script, lines, shelf),
        Err(Fault::Refused(refusal)) => Err(Status::Refused(refusal)),
        Err(Fault::NoMemory) => Err(Status::NoMemory),
    }
}

/// Reads a text that names packages, of each its list, the files of the list and the components of its folder, and then
/// a script.
pub(crate) fn gather_group<S: Shelf>(
    alloc: Global,
    name: &[u8],
    script: &[u8],
    shelf: &mut S,
) -> Result<GroupInput, Status>
    ensures gathers { Gathers (plan_of_group name.now script.now) IsSame (S.shelved shelf.old) (S.shelved shelf.new)
        result }
    ensures input { IfOk result IsGroup }
{
    let text = fetch(alloc, shelf, name)?;
    gather_text(alloc, name, script, text.items(), shelf)
}
