//! What `link GROUP SCRIPT N` and `linkjvm GROUP SCRIPT N` read and print. The program's top call calls it. Nothing
//! here writes.

ghost use Rattle.std.specs.Prelude.{◌≡◌, List as Items, IfErr, IfOk, OnOk};
ghost use Rattle.cjc_cmd_card.specs.declared.running.input.Input.{Input as Given};
ghost use Rattle.cjc_link_semantics.specs.JvmSemantics.Group.{group_linked, joint_image};
ghost use Rattle.cjc_cmd_card.specs.Shelf.Command.Gather.{Gathers, Judged};
ghost use Rattle.cjc_link_semantics.specs.JvmSemantics.Machine.{run as run_by_name};
ghost use Rattle.cjc_cmd_link.specs.Reads.{IsGroup};
ghost use Rattle.cjc_cmd_link.specs.Refused.{IsFault, IsRefused};
ghost use Rattle.cjc_cmd_link.specs.ByToken.{IsByToken};
ghost use Rattle.cjc_cmd_link.specs.Runs.{IsRun, RunsByName, RunsByToken, plan_of_link, report_by_name};
ghost use Rattle.cjc_cmd_link.specs.Runs.{report_by_token};
ghost use Rattle.cjc_cmd_link.specs.Working.{AreMade, AreOfGroup, IsCycle, IsFree, IsJoint, worlds_of};

use crate::joint::{Joint, all_files, all_lines, joint_of, packages_of};
use crate::members::{ReadyGroup, make_group};
use crate::reads::{GroupInput, gather_group};
use crate::tokens::tokens_report;
use cjc_cmd_card::cmd_jvm::report::has_room;
use cjc_cmd_card::cmd_jvm::running::report_todo;
use cjc_cmd_card::jvm::runs::run;
use cjc_cmd_card::jvm_link::{GroupLinks, Package, indices_of, joint_image};
use cjc_cmd_card::shelf::Shelf;
use cjc_cmd_card::shelf::command::{Status, Todo};
use cjc_group::bytes::{Fault, NoMemory};
use cjc_group::world::StaticImage;
use cjc_link_semantics::script::{Report, Script};
use std::alloc::Global;

/// The report of a run over the world of all packages, whose static cells hold this at first.
fn report_over(
    alloc: Global,
    packages: &[Package<'_, '_>],
    joint: &Joint<'_>,
    image: &StaticImage,
    script: &Script,
    n: u32,
) -> Result<Report, NoMemory>
    requires { IsJoint packages.now joint.now }
    ensures { IfOk result (λ report. report ≡ run_by_name (group_linked packages.now image.now) script.now n) }
{
    if !has_room(image, script, n) {
        return Err(NoMemory);
    }
    let indices = indices_of(alloc, joint.codes.items())?;
    let links = GroupLinks::new(
        alloc,
        packages,
        &joint.world,
        joint.codes.items(),
        indices.items(),
        image,
    )?;
    run(alloc, &links, script, n)
}

/// The joint report by name.
fn names_report(
    alloc: Global,
    group: &ReadyGroup<'_>,
    joint: &Joint<'_>,
    n: u32,
) -> Result<Report, NoMemory>
    requires { IsJoint (worlds_of group.now.members) joint.now }
    ensures { IfOk result (λ report. report ≡ run_by_name (group_linked (worlds_of group.now.members)
        (joint_image group.now.images)) group.now.script n) }
{
    let packages = packages_of(alloc, group.members.items())?;
    let image = joint_image(alloc, group.images.items())?;
    report_over(alloc, packages.items(), joint, &image, &group.script, n)
}

/// The joint report by name of packages that break no rule, where no class is above itself in the world of all.
fn report_names(alloc: Global, name: &[u8], group: &ReadyGroup<'_>, n: u32) -> Result<Report, Fault>
    requires { AreOfGroup group.now.members }
    ensures free { OnOk result (IsFree (worlds_of group.now.members)) }
    ensures report { IfOk result (λ report. report ≡ run_by_name (group_linked (worlds_of group.now.members)
        (joint_image group.now.images)) group.now.script n) }
    ensures refused { IfErr result (IsFault (IsCycle name.now (worlds_of group.now.members))) }
{
    let members = group.members.items();
    let lines = all_lines(alloc, members)?;
    let files = all_files(alloc, members)?;
    let joint = joint_of(alloc, name, members, lines.items(), files.items())?;
    Ok(names_report(alloc, group, &joint, n)?)
}

/// Tests what was read, and runs class files.
fn link_names(
    alloc: Global,
    name: &[u8],
    script: &[u8],
    input: &GroupInput,
    n: u32,
) -> Result<Todo, Fault>
    requires { IsGroup input.now }
    ensures done { IfOk result (IsRun (λ group tree. report_by_name group tree n) name.now script.now input.now) }
    ensures refused { IfErr result (IsFault (IsRefused input.now name.now script.now)) }
{
    let group = make_group(alloc, input, script)?;
    let report = report_names(alloc, name, &group, n)?;
    let todo = report_todo(alloc, &report)?;
    Ok(todo)
}

// All is computed here, the lines too.
fn judge_names(
    alloc: Global,
    name: &[u8],
    script: &[u8],
    input: &GroupInput,
    n: u32,
) -> Result<Todo, Status>
    requires { IsGroup input.now }
    ensures { Judged (RunsByName n name.now script.now input.now) result }
{
    match link_names(alloc, name, script, input, n) {
        Ok(todo) => Ok(todo),
        Err(fault) => Err(Status::from(fault)),
    }
}

/// Reads a group and a script, and runs n instructions of the class files of its packages together.
///
/// # Errors
///
/// A text or a list that is refused; the first file that is absent, too long or can't be read; where all are read the
/// first refusal of a package as the command that runs components answers it, or of the script, by the hundreds of
/// their rules; where there is none, what the packages do not agree on, then a class that implements an interface below
/// one that its package misses, and last a class that only all export files together put above itself; want of memory.
pub fn gather_linkjvm<S: Shelf>(
    alloc: Global,
    name: &[u8],
    script: &[u8],
    n: u32,
    shelf: &mut S,
) -> Result<Todo, Status>
    ensures { Gathers (plan_of_link name.now script.now) (RunsByName n name.now script.now) (S.shelved shelf.old)
        (S.shelved shelf.new) result }
{
    let input = gather_group(alloc, name, script, shelf)?;
    judge_names(alloc, name, script, &input, n)
}

/// The joint report by token of packages that break no rule, where no class is above itself in the world of all.
fn report_tokens(
    alloc: Global,
    name: &[u8],
    group: &ReadyGroup<'_>,
    n: u32,
) -> Result<Report, Fault>
    requires group { AreOfGroup group.now.members }
    requires made { (inputs : Items Given) × AreMade inputs group.now.members group.now.images }
    ensures free { OnOk result (IsFree (worlds_of group.now.members)) }
    ensures report { IfOk result (IsByToken group.now.members group.now.images group.now.script n) }
    ensures refused { IfErr result (IsFault (IsCycle name.now (worlds_of group.now.members))) }
{
    let members = group.members.items();
    let lines = all_lines(alloc, members)?;
    let files = all_files(alloc, members)?;
    let joint = joint_of(alloc, name, members, lines.items(), files.items())?;
    let outside = joint.world.exports();
    Ok(tokens_report(
        alloc,
        members,
        group.images.items(),
        outside.items(),
        &group.script,
        n,
    )?)
}

/// Tests what was read, and runs components.
fn link_tokens(
    alloc: Global,
    name: &[u8],
    script: &[u8],
    input: &GroupInput,
    n: u32,
) -> Result<Todo, Fault>
    requires { IsGroup input.now }
    ensures done { IfOk result (IsRun (λ group tree. report_by_token group tree n) name.now script.now input.now) }
    ensures refused { IfErr result (IsFault (IsRefused input.now name.now script.now)) }
{
    let group = make_group(alloc, input, script)?;
    let report = report_tokens(alloc, name, &group, n)?;
    let todo = report_todo(alloc, &report)?;
    Ok(todo)
}

// All is computed here, the lines too.
fn judge_tokens(
    alloc: Global,
    name: &[u8],
    script: &[u8],
    input: &GroupInput,
    n: u32,
) -> Result<Todo, Status>
    requires { IsGroup input.now }
    ensures { Judged (RunsByToken n name.now script.now input.now) result }
{
    match link_tokens(alloc, name, script, input, n) {
        Ok(todo) => Ok(todo),
        Err(fault) => Err(Status::from(fault)),
    }
}

/// Reads a group and a script, and runs n instructions of the components of its packages together.
///
/// # Errors
///
/// Those of `gather_linkjvm`.
pub fn gather_link<S: Shelf>(
    alloc: Global,
    name: &[u8],
    script: &[u8],
    n: u32,
    shelf: &mut S,
) -> Result<Todo, Status>
    ensures { Gathers (plan_of_link name.now script.now) (RunsByToken n name.now script.now) (S.shelved shelf.old)
        (S.shelved shelf.new) result }
{
    let input = gather_group(alloc, name, script, shelf)?;
    judge_tokens(alloc, name, script, &input, n)
}
