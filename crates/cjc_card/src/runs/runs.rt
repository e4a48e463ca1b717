//! The run of a script by token: its start, then entry after entry, instruction after instruction, up to so
//! many, and the report of where it is then. What the crate is called for.

ghost use Rattle.std.specs.Prelude.{◌≡◌, ◌<◌, ◌≤◌, ◌+◌, ◌^◌, IfOk, OnOk};
ghost use Rattle.cjc_script.specs.declared.report.Report.{Report};
ghost use Rattle.cjc_card_semantics.specs.Bytecode.Machine.{idle, report, run as run_on, report_after_turn, turn};
ghost use Rattle.cjc_card_semantics.specs.Machine.Loaded.{Loaded};
ghost use Rattle.cjc_card_semantics.specs.Machine.ByToken.{by_token, run, start};
ghost use Rattle.cjc_card.specs.Acts.States.{StateByToken};
ghost use Rattle.cjc_card.specs.States.{frames_of, objects_at_most, with_frame};
ghost use Rattle.cjc_card.specs.Runs.Starts.{goes_on};

use crate::runs::entries::{Begun, begin};
use crate::runs::reports::report;
use crate::runs::room::has_room;
use crate::runs::starts::start;
use crate::runs::steps::step;
use crate::turns::{After, Machine};
use cjc_card_frame::frames::Frame;
use cjc_card_frame::parts::LookUps;
use cjc_script::bytes::NoMemory;
use cjc_script::{Outcome, Report, Script};
use std::alloc::Global;

// A whole turn: an entry where none is under way, and an instruction.
fn turn<L: LookUps>(
    alloc: Global,
    links: &L,
    machine: &mut Machine<'_>,
    top: Option<Frame>,
) -> Result<After, NoMemory>
    requires few { objects_at_most machine.old < 2 ^ 32 }
    requires count { machine.old.spent + 1 < 2 ^ 32 }
    ensures next { IfOk result (λ after. (go : StateByToken → Report)
        → report_after_turn (by_token (L.loaded links.now)) (turn (by_token (L.loaded links.now))
        (with_frame top machine.old)) go ≡ goes_on (L.loaded links.now) after machine.new go) }
    ensures most { OnOk result (objects_at_most machine.new ≤ objects_at_most machine.old + 1) }
    ensures spent { OnOk result (machine.new.spent ≤ machine.old.spent + 1) }
{
    if let Some(frame) = top {
        return step(alloc, links, machine, frame);
    }
    if let Some(frame) = machine.callers.pop() {
        return step(alloc, links, machine, frame);
    }
    match begin(alloc, links, machine)? {
        Begun::Frame(frame) => step(alloc, links, machine, frame),
        Begun::Ended(outcome) => Ok(After::Ended(outcome)),
    }
}

// The outcome where no instruction is left to spend.
fn idle(machine: &Machine<'_>, top: &Option<Frame>) -> Outcome
    ensures { (l : Loaded) → result ≡ idle (by_token l) (frames_of top.now machine.now.frames) machine.now.entries }
{
    if top.is_none() && machine.callers.len() == 0 && machine.entries.is_empty() {
        return Outcome::Done;
    }
    Outcome::Running
}

// Turns of a run, as long as there are instructions to spend; the outcome.
fn turns<L: LookUps>(
    alloc: Global,
    links: &L,
    machine: &mut Machine<'_>,
    n: u32,
) -> Result<Outcome, NoMemory>
    requires few { n + objects_at_most machine.old < 2 ^ 32 }
    requires count { machine.old.spent + n < 2 ^ 32 }
    ensures { IfOk result (λ outcome. run_on (by_token (L.loaded links.now)) n machine.old
        ≡ report (by_token (L.loaded links.now)) outcome machine.new) }
{
    let mut top = None;
    for i in 0..n {
        match turn(alloc, links, machine, top)? {
            After::On(next) => {
                top = next;
            }
            After::Ended(outcome) => return Ok(outcome),
            After::Stuck(at) => return Ok(Outcome::Stuck(at)),
        }
    }
    Ok(idle(machine, &top))
}

/// The run of n instructions of a script. No memory is there where these, the arrays of the packages and the acts of
/// the script are together 2^32 or more, for which arrays and objects have no numbers.
pub fn run<L: LookUps>(
    alloc: Global,
    links: &L,
    script: &Script,
    n: u32,
) -> Result<Report, NoMemory>
    ensures { IfOk result (λ report. report ≡ run (L.loaded links.now) script.now n) }
{
    let mut machine = start(alloc, links, script)?;
    if !has_room(&machine, n) {
        return Err(NoMemory);
    }
    let outcome = turns(alloc, links, &mut machine, n)?;
    report(alloc, links, machine, outcome)
}
