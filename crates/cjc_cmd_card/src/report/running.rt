//! What `card LIST DIR SCRIPT N` reads and prints. The program's top call calls it. Nothing here writes.

ghost use Rattle.std.specs.Prelude.{IfErr, IfOk};
ghost use Rattle.cjc_cmd_jvm.specs.LowerShelf.Command.Gather.{Gathers, Judged};
ghost use Rattle.cjc_cmd_card.specs.Report.Runs.{AnyBreaks, IsRun, Runs, plan_of_report};
ghost use Rattle.cjc_cmd_card.specs.Running.Reads.{IsInput};
ghost use Rattle.cjc_cmd_card.specs.Running.Ready.{IsReady};
ghost use Rattle.cjc_cmd_jvm.specs.Judge.Rules.{IsFirstFault};

use crate::report::reporting::report_of;
use crate::running::{Input, Ready, gather_input, make_ready};
use cjc_card::check_rules::consistent_where_unbroken;
use cjc_cmd_check::bytes::Fault;
use cjc_cmd_jvm::running::report_todo;
use cjc_cmd_jvm::shelf::Shelf;
use cjc_cmd_jvm::shelf::command::{Status, Todo};
use std::alloc::Global;

/// Runs what is ready, and gives the lines of its report.
fn run_ready(
    alloc: Global,
    script: &[u8],
    input: &Input,
    ready: &Ready<'_>,
    n: u32,
) -> Result<Todo, Fault>
    requires { IsReady input.now script.now ready.now }
    ensures done { IfOk result (IsRun n script.now input.now) }
    ensures refused { IfErr result (IsFirstFault (AnyBreaks input.now script.now)) }
{
    consistent_where_unbroken();
    let _script = script;
    let report = report_of(alloc, input, ready, n)?;
    Ok(report_todo(alloc, &report)?)
}

/// Tests what was read, and runs it.
fn run_input(alloc: Global, script: &[u8], input: &Input, n: u32) -> Result<Todo, Fault>
    requires { IsInput input.now }
    ensures done { IfOk result (IsRun n script.now input.now) }
    ensures refused { IfErr result (IsFirstFault (AnyBreaks input.now script.now)) }
{
    let ready = make_ready(alloc, input, script)?;
    run_ready(alloc, script, input, &ready, n)
}

// All is computed here, the lines too.
fn judge(alloc: Global, script: &[u8], input: &Input, n: u32) -> Result<Todo, Status>
    requires { IsInput input.now }
    ensures { Judged (Runs n script.now input.now) result }
{
    match run_input(alloc, script, input, n) {
        Ok(todo) => Ok(todo),
        Err(fault) => Err(Status::from(fault)),
    }
}

/// Reads a list, its files, the components of a folder and a script, and runs n instructions of the components
/// by token.
///
/// # Errors
///
/// A list that is refused; the first file that is absent, too long or can't be read; where all are read the
/// first broken rule of the first three hundreds, of 401 to 409 and 413, or of 701 to 719, those of single
/// files first: 106 of components behind the files of the list, and 105 of the script behind these; want of
/// memory.
pub fn gather_card<S: Shelf>(
    alloc: Global,
    name: &[u8],
    dir: &[u8],
    script: &[u8],
    n: u32,
    shelf: &mut S,
) -> Result<Todo, Status>
    ensures { Gathers (plan_of_report name.now dir.now script.now) (Runs n script.now) (S.shelved shelf.old)
        (S.shelved shelf.new) result }
{
    let input = gather_input(alloc, name, dir, script, shelf)?;
    judge(alloc, script, &input, n)
}
