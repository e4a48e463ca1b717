//! The run of a script by name: its start, then entry after entry, instruction after instruction, up to so
//! many, and the report of where it is then. What the crate is called for.

ghost use Rattle.std.specs.Prelude.{◌≡◌, ◌<◌, ◌≤◌, ◌+◌, ◌^◌, length, IfOk, OnOk};
ghost use Rattle.cjc_jvm_step.specs.CardSemantics.Bytecode.Runs;
ghost use Rattle.cjc_jvm_semantics.specs.Linked.{Linked};
ghost use Rattle.cjc_jvm_semantics.specs.Machine.{move, idle, device, report, start, run};
ghost use Rattle.cjc_jvm.specs.States.{Leads, frames_of, with_frame, objects_at_most};

use crate::runs::entries::{Begun, begin};
use crate::runs::reports::report;
use crate::runs::steps::step;
use crate::turns::{After, Machine, pop};
use cjc_jvm_semantics::bytes::{NoMemory, Row};
use cjc_jvm_semantics::script::{Outcome, Report, Script};
use cjc_jvm_step::frame::{Activation, Pile};
use cjc_jvm_step::heap::Statics;
use cjc_jvm_step::step::LookUps;
use std::alloc::Global;

// A whole turn: an entry where none is under way, and an instruction.
fn turn<'a, L: LookUps>(
    alloc: Global,
    links: &'a L,
    machine: &mut Machine<'a>,
    top: Option<Activation<'a>>,
) -> Result<After<'a>, NoMemory>
    requires few { objects_at_most machine.old < 2 ^ 32 }
    requires count { machine.old.spent + 1 < 2 ^ 32 }
    ensures next { IfOk result (λ after. Leads (move (L.linked links.now) (with_frame top.entry machine.old)) after
        machine.new) }
    ensures most { OnOk result (objects_at_most machine.new ≤ objects_at_most machine.old + 1) }
    ensures spent { OnOk result (machine.new.spent ≤ machine.old.spent + 1) }
{
    if let Some(frame) = top {
        return Ok(step(alloc, links, machine, frame)?);
    }
    if let Some(frame) = pop(&mut machine.callers) {
        return Ok(step(alloc, links, machine, frame)?);
    }
    match begin(alloc, links, machine)? {
        Begun::Frame(frame) => Ok(step(alloc, links, machine, frame)?),
        Begun::Ended(outcome) => Ok(After::Ended(outcome)),
    }
}

// The outcome where no instruction is left to spend.
fn idle(machine: &Machine<'_>, top: &Option<Activation<'_>>) -> Outcome
    ensures { (l : Linked) → result ≡ idle l (frames_of top.now machine.now.frames) machine.now.entries }
{
    if top.is_none() && machine.callers.len() == 0 && machine.entries.is_empty() {
        return Outcome::Done;
    }
    Outcome::Running
}

// Turns of a run, as long as there are instructions to spend; the outcome.
fn turns<'a, L: LookUps>(
    alloc: Global,
    links: &'a L,
    machine: &mut Machine<'a>,
    n: u32,
) -> Result<Outcome, NoMemory>
    requires few { n + objects_at_most machine.old < 2 ^ 32 }
    requires count { machine.old.spent + n < 2 ^ 32 }
    ensures { IfOk result (λ outcome. Runs.run (device (L.linked links.now)) n machine.old
        ≡ report outcome machine.new) }
{
    let mut top = None;
    for i in 0..n {
        match turn(alloc, links, machine, top)? {
            After::On(next) => {
                top = next;
            }
            After::Ended(outcome) => return Ok(outcome),
        }
    }
    Ok(idle(machine, &top))
}

// The first state.
fn start<'a, L: LookUps>(
    alloc: Global,
    links: &'a L,
    script: &'a Script,
) -> Result<Machine<'a>, NoMemory>
    ensures { IfOk result (λ machine. machine ≡ start (L.linked links.now) script.now) }
{
    let statics = Statics::new(alloc, links.statics())?;
    let heap = links.heap(alloc)?;
    Ok(Machine {
        callers: Pile::new(alloc),
        heap,
        statics,
        entries: script.entries.items(),
        answers: script.answers.items(),
        notes: Row::new(alloc),
        spent: 0,
    })
}

/// The run of n instructions of a script.
pub fn run<L: LookUps>(
    alloc: Global,
    links: &L,
    script: &Script,
    n: u32,
) -> Result<Report, NoMemory>
    requires { n + objects_at_most (start (L.linked links.now) script.now) < 2 ^ 32 }
    ensures { IfOk result (λ report. report ≡ run (L.linked links.now) script.now n) }
{
    let mut machine = start(alloc, links, script)?;
    let outcome = turns(alloc, links, &mut machine, n)?;
    report(alloc, machine, outcome)
}
