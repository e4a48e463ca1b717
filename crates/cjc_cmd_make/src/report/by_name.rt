//! The run by name of what was read. Called by making.rt. It knows no token and no component.

ghost use Rattle.std.specs.Prelude.{◌≡◌, IfErr, IfOk};
ghost use Rattle.cjc_cmd_convert.specs.Judge.Rules.{IsFirstFault};
ghost use Rattle.cjc_cmd_card.specs.LowerCmdJvm.Running.Reads.{IsInput};
ghost use Rattle.cjc_cmd_card.specs.LowerCmdJvm.Running.Ready.{Breaks, IsReady};
ghost use Rattle.cjc_cmd_make.specs.Report.Package.{script_name};
ghost use Rattle.cjc_cmd_make.specs.Report.Runs.{IsReportByName};

use cjc_cmd_card::cmd_jvm::report::report_of;
use cjc_cmd_card::cmd_jvm::running::{Input, Ready, make_ready};
use cjc_cmd_convert::bytes::{Fault, NoMemory};
use cjc_cmd_convert::script::Report;
use std::alloc::Global;

/// Runs what is ready.
fn run_ready(alloc: Global, input: &Input, ready: &Ready<'_>) -> Result<Report, NoMemory>
    requires { IsReady input.now.list input.now.files script_name input.now.script ready.now }
    ensures { IfOk result (IsReportByName input.now) }
{
    let _input = input;
    let report = report_of(alloc, ready, 1_000_000)?;
    Ok(report)
}

/// The report of 1,000,000 instructions of the class files, called by the script.
pub(crate) fn report_by_name(alloc: Global, input: &Input) -> Result<Report, Fault>
    requires { IsInput input.now }
    ensures report { IfOk result (IsReportByName input.now) }
    ensures refused { IfErr result (IsFirstFault (Breaks input.now.list input.now.files script_name input.now.script)) }
{
    let ready = make_ready(
        alloc,
        &input.list,
        &input.files,
        b"script",
        input.script.items(),
    )?;
    Ok(run_ready(alloc, input, &ready)?)
}
