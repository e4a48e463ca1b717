//! What `jvm LIST SCRIPT N` reads and prints. The program's top call calls it. Nothing here writes.

ghost use Rattle.std.specs.Prelude.{IfOk};
ghost use Rattle.cjc_shelf.specs.Command.Gather.{Gathers, Judged};
ghost use Rattle.cjc_cmd_jvm.specs.Running.Ready.{IsReady};
ghost use Rattle.cjc_cmd_jvm.specs.Running.Reads.{IsInput};
ghost use Rattle.cjc_cmd_jvm.specs.Runs.{Runs, IsRun, plan_of_jvm};

use crate::report::reporting::report_of;
use crate::running::{Input, Ready, gather_input, make_ready, report_todo};
use cjc_shelf::Shelf;
use cjc_shelf::bytes::NoMemory;
use cjc_shelf::command::{Status, Todo};
use std::alloc::Global;

/// Runs what is ready, and gives the lines of its report.
fn run_ready(
    alloc: Global,
    script: &[u8],
    input: &Input,
    ready: &Ready<'_>,
    n: u32,
) -> Result<Todo, NoMemory>
    requires { IsReady input.now.list input.now.files script.now input.now.script ready.now }
    ensures { IfOk result (IsRun n script.now input.now) }
{
    let (_script, _input) = (script, input);
    let report = report_of(alloc, ready, n)?;
    report_todo(alloc, &report)
}

// All is computed here, the lines too.
fn judge(alloc: Global, script: &[u8], input: &Input, n: u32) -> Result<Todo, Status>
    requires { IsInput input.now }
    ensures { Judged (Runs n script.now input.now) result }
{
    match make_ready(
        alloc,
        &input.list,
        &input.files,
        script,
        input.script.items(),
    ) {
        Ok(ready) => match run_ready(alloc, script, input, &ready, n) {
            Ok(todo) => Ok(todo),
            Err(NoMemory) => Err(Status::NoMemory),
        },
        Err(fault) => Err(Status::from(fault)),
    }
}

/// Reads a list, its files and a script, and runs n instructions of the class files by name.
///
/// # Errors
///
/// A list that is refused; the first file that is absent, too long or can't be read; where all are read the
/// first broken rule of the first three hundreds, 105 of the script behind those of single files; want of
/// memory.
pub fn gather_run<S: Shelf>(
    alloc: Global,
    name: &[u8],
    script: &[u8],
    n: u32,
    shelf: &mut S,
) -> Result<Todo, Status>
    ensures { Gathers (plan_of_jvm name.now script.now) (Runs n script.now) (S.shelved shelf.old) (S.shelved shelf.new)
        result }
{
    let input = gather_input(alloc, name, script, shelf)?;
    judge(alloc, script, &input, n)
}
