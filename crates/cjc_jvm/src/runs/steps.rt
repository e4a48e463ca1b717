//! One instruction by name, counted, and what follows it: go on, raise, throw, call or return. Called by
//! `runs`, which does not look into instructions.

ghost use Rattle.std.specs.Prelude.{◌≡◌, ◌<◌, ◌≤◌, ◌+◌, ◌^◌, ◌∷◌, List, length, slice_get, IfOk, OnOk, if◌then◌else◌};
ghost use Rattle.cjc_jvm_step.specs.Script.declared.report.Report.{Report};
ghost use Rattle.cjc_jvm_semantics.specs.Linked.{Linked};
ghost use Rattle.cjc_jvm_semantics.specs.Effects.{effect};
ghost use Rattle.cjc_jvm_semantics.specs.Machine.{Frame, after_effect, after_fetch, spend_unless_stuck, step};
ghost use Rattle.cjc_jvm.specs.States.{Leads, objects_at_most};
ghost use Rattle.cjc_jvm.specs.Runs.Deeds.{IsInside, after_deed, most_after};

use crate::turns::{After, Machine, class_of};
use cjc_jvm_semantics::bytecode::JOp;
use cjc_jvm_semantics::bytes::NoMemory;
use cjc_jvm_semantics::script::Outcome;
use cjc_jvm_step::frame::{Activation, Deed};
use cjc_jvm_step::step::{LookUps, act};
use std::alloc::Global;

// An instruction of a frame, on the heap and the static cells.
fn act_on<'a, L: LookUps>(
    alloc: Global,
    links: &'a L,
    machine: &mut Machine<'a>,
    frame: &mut Activation<'a>,
    op: &'a JOp,
) -> Result<Deed<'a>, NoMemory>
    requires inside { frame.old.at < length frame.old.method.insns }
    requires few { objects_at_most machine.old < 2 ^ 32 }
    ensures next { IfOk result (λ deed. (before : List Frame) →
        after_effect (L.linked links.now) (effect (L.linked links.now) frame.old.method frame.old.at frame.old.locals
        machine.old.store op.now frame.old.stack) frame.old machine.old.frames
        (record machine.old { frames = before })
        ≡ after_deed (L.linked links.now) deed frame.new machine.new.frames (record machine.new { frames = before })) }
    ensures inside { IfOk result (λ deed. IsInside deed frame.new) }
    ensures most { IfOk result (λ deed. objects_at_most machine.new ≤ most_after deed (objects_at_most machine.old)) }
    ensures spent { OnOk result (machine.new.spent ≡ machine.old.spent) }
{
    act(
        alloc,
        links,
        frame,
        &mut machine.heap,
        &mut machine.statics,
        op,
    )
}

// The instruction at a frame's place.
fn fetch<'a, L: LookUps>(
    alloc: Global,
    links: &'a L,
    machine: &mut Machine<'a>,
    first: Activation<'a>,
) -> Result<After<'a>, NoMemory>
    requires { objects_at_most machine.old < 2 ^ 32 }
    ensures next { IfOk result (λ after. (before : List Frame) →
        Leads (after_fetch (L.linked links.now) (slice_get first.entry.method.insns first.entry.at) first.entry
        machine.old.frames (record machine.old { frames = before })) after machine.new) }
    ensures most { OnOk result (objects_at_most machine.new ≤ objects_at_most machine.old + 1) }
    ensures spent { OnOk result (machine.new.spent ≡ machine.old.spent) }
{
    let mut frame = first;
    let Some(insn) = frame.insn() else {
        return Ok(After::Ended(Outcome::Stuck(frame.offset())));
    };
    match act_on(alloc, links, machine, &mut frame, &insn.op)? {
        Deed::Go => Ok(After::On(Some(frame))),
        Deed::Raise(exception) => machine.raise(alloc, links, frame, class_of(exception)),
        Deed::Toss(object) => machine.toss(alloc, links, frame, object),
        Deed::Invoke { op, method } => machine.call(alloc, links, op, method, frame),
        Deed::Leave(value) => machine.give_back(frame, value),
        Deed::Stick => Ok(After::Ended(Outcome::Stuck(frame.offset()))),
    }
}

// Whether an instruction that ends a run so is spent.
fn is_spent(outcome: Outcome) -> bool
    ensures { (l : Linked) (r : Report) → spend_unless_stuck l outcome r ≡ (if result
        then record r { spent = r.spent + 1 } else r) }
{
    match outcome {
        Outcome::Stuck(_) => false,
        Outcome::Done => true,
        Outcome::Running => true,
        Outcome::Waiting => true,
        Outcome::Unfit(_) => true,
    }
}

/// One instruction of a frame, which is spent unless it is stuck.
pub(crate) fn step<'a, L: LookUps>(
    alloc: Global,
    links: &'a L,
    machine: &mut Machine<'a>,
    frame: Activation<'a>,
) -> Result<After<'a>, NoMemory>
    requires few { objects_at_most machine.old < 2 ^ 32 }
    requires count { machine.old.spent + 1 < 2 ^ 32 }
    ensures next { IfOk result (λ after. (before : List Frame) →
        Leads (step (L.linked links.now) (frame.entry ∷ machine.old.frames) (record machine.old { frames = before }))
        after machine.new) }
    ensures most { OnOk result (objects_at_most machine.new ≤ objects_at_most machine.old + 1) }
    ensures spent { OnOk result (machine.new.spent ≤ machine.old.spent + 1) }
{
    match fetch(alloc, links, machine, frame)? {
        After::On(top) => {
            machine.spent += 1;
            Ok(After::On(top))
        }
        After::Ended(outcome) => {
            machine.spent += u32::from(is_spent(outcome));
            Ok(After::Ended(outcome))
        }
    }
}
