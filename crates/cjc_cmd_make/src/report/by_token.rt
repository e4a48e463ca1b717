//! The run by token of what was written. Called by making.rt. What a conversion writes is tested here as `card` tests
//! what it reads, and refused as there.

ghost use Rattle.std.specs.Prelude.{◌≡◌, IfErr, IfOk};
ghost use Rattle.cjc_cmd_convert.specs.Judge.Rules.{IsFirstFault};
ghost use Rattle.cjc_cmd_card.specs.Report.Runs.{AnyBreaks};
ghost use Rattle.cjc_cmd_card.specs.Running.Reads.{IsInput};
ghost use Rattle.cjc_cmd_card.specs.Shelf.Command.Plan.{complete};
ghost use Rattle.cjc_cmd_card.specs.Shelf.Memory.{clean_shelved, files_of};
ghost use Rattle.cjc_cmd_make.specs.Report.Package.{script_name};
ghost use Rattle.cjc_cmd_make.specs.Report.Runs.{IsComponentsReport, IsReportByToken, card_end};
ghost use Rattle.cjc_cmd_make.specs.Report.Working.{IsReadFault, IsTokenFault};

use crate::report::ends::fault_of;
use cjc_cmd_card::report::report_of;
use cjc_cmd_card::running::{Input, gather_input, make_ready};
use cjc_cmd_convert::bytes::Fault;
use cjc_cmd_convert::check_rules::consistent_where_unbroken;
use cjc_cmd_convert::script::Report;
use cjc_cmd_convert::shelf::CleanShelf;
use std::alloc::Global;

/// The list, its files, the components and the script.
fn read_components(alloc: Global, shelf: &mut CleanShelf) -> Result<Input, Fault>
    ensures input { IfOk result IsInput }
    ensures read { IfOk result (λ input. card_end (files_of (clean_shelved shelf.old)) ≡ complete input) }
    ensures refused { IfErr result (IsReadFault (files_of (clean_shelved shelf.old))) }
{
    match gather_input(alloc, b"list", b"out", b"script", shelf) {
        Ok(input) => Ok(input),
        Err(end) => Err(fault_of(end)),
    }
}

/// The report of 3,000,000 instructions of the components, called by the script.
fn run_components(alloc: Global, input: &Input) -> Result<Report, Fault>
    requires { IsInput input.now }
    ensures report { IfOk result (IsComponentsReport input.now) }
    ensures refused { IfErr result (IsFirstFault (AnyBreaks input.now script_name)) }
{
    consistent_where_unbroken();
    let ready = make_ready(alloc, input, b"script")?;
    let report = report_of(alloc, input, &ready, 3_000_000)?;
    Ok(report)
}

/// The same of the components that stand on a shelf.
pub(crate) fn report_by_token(alloc: Global, shelf: &mut CleanShelf) -> Result<Report, Fault>
    ensures report { IfOk result (IsReportByToken (files_of (clean_shelved shelf.old))) }
    ensures refused { IfErr result (IsTokenFault (files_of (clean_shelved shelf.old))) }
{
    let input = read_components(alloc, shelf)?;
    let report = run_components(alloc, &input)?;
    Ok(report)
}
