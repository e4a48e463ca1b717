//! One instruction by token, counted, and what follows it: go on, raise, throw, call or return. Called by
//! `runs`, which does not look into instructions.

ghost use Rattle.std.specs.Prelude.{◌≡◌, ◌<◌, ◌≤◌, ◌+◌, ◌^◌, ◌∷◌, ℕ, List, IfOk, OnOk};
ghost use Rattle.cjc_card_semantics.specs.CapRead.Decoder.Decoded.{IsAtFront, instruction_of};
ghost use Rattle.cjc_card_semantics.specs.Bytecode.Machine.{turn_after_fetch, step};
ghost use Rattle.cjc_card_semantics.specs.Machine.ByToken.{by_token};
ghost use Rattle.cjc_card_frame.specs.Kinds.{IsDecoded};
ghost use Rattle.cjc_card.specs.Acts.States.{FrameByToken};
ghost use Rattle.cjc_card.specs.States.{Leads, objects_at_most, with_frames};
ghost use Rattle.cjc_card.specs.Runs.Steps.{after_deed, made_by, most_after, most_behind};

use crate::turns::{After, Machine};
use cjc_card_frame::frames::Frame;
use cjc_card_frame::parts::LookUps;
use cjc_card_semantics::capread::decoder::Insn;
use cjc_card_step::effects::Deed;
use cjc_card_step::steps::{Step, execute};
use cjc_script::bytes::NoMemory;
use std::alloc::Global;

// An instruction of a frame, on the heap and the static cells.
fn act_on<'a, L: LookUps>(
    alloc: Global,
    links: &'a L,
    machine: &mut Machine<'_>,
    frame: &mut Frame,
    insn: Insn<'_>,
) -> Result<Step<'a>, NoMemory>
    requires within { frame.old.at + insn.size ≤ (let code = frame.old.code in code.end) }
    requires decoded { IsDecoded (instruction_of insn) }
    requires front { (bytes : List ℕ) × IsAtFront insn bytes }
    requires few { objects_at_most machine.old < 2 ^ 32 }
    ensures next { IfOk result (λ step. (had : List FrameByToken) →
        made_by (L.loaded links.now) (instruction_of insn.entry) frame.old machine.old.frames
        (with_frames had machine.old)
        ≡ after_deed (L.loaded links.now) step.deed step.to (frame.old.at + insn.entry.size) frame.new
        machine.new.frames (with_frames had machine.new)) }
    ensures most { IfOk result (λ step. objects_at_most machine.new ≤ most_after step.deed
        (objects_at_most machine.old)) }
    ensures spent { OnOk result (machine.new.spent ≡ machine.old.spent) }
{
    execute(
        alloc,
        links,
        frame.code,
        frame.at,
        insn,
        &mut frame.cells,
        &mut machine.heap,
        &mut machine.statics,
    )
}

// What an instruction leads to that has been made; `next` is the offset behind it.
fn follow<'a, L: LookUps>(
    alloc: Global,
    links: &'a L,
    machine: &mut Machine<'_>,
    step: Step<'a>,
    next: u32,
    frame: Frame,
) -> Result<After, NoMemory>
    requires { most_behind step.deed (objects_at_most machine.old) ≤ 2 ^ 32 }
    ensures next { IfOk result (λ after. (had : List FrameByToken) →
        Leads had (after_deed (L.loaded links.now) step.entry.deed step.entry.to next frame machine.old.frames
        (with_frames had machine.old)) after machine.new) }
    ensures most { OnOk result (objects_at_most machine.new ≤ most_behind step.entry.deed
        (objects_at_most machine.old)) }
    ensures spent { OnOk result (machine.new.spent ≡ machine.old.spent) }
{
    let mut frame = frame;
    match step.deed {
        Deed::Go => {
            frame.at = step.to;
            Ok(After::On(Some(frame)))
        }
        Deed::Raise(exception) => machine.fail(alloc, links, frame, exception),
        Deed::Toss(object) => machine.toss(alloc, links, frame, object),
        Deed::Invoke(callee) => {
            frame.next = next;
            machine.call(alloc, links, callee, frame)
        }
        Deed::Leave(words) => machine.give_back(frame, words),
        Deed::Stick => Ok(After::Stuck(frame.at)),
    }
}

// The instruction at a frame's place.
fn fetch<L: LookUps>(
    alloc: Global,
    links: &L,
    machine: &mut Machine<'_>,
    first: Frame,
) -> Result<After, NoMemory>
    requires { objects_at_most machine.old < 2 ^ 32 }
    ensures next { IfOk result (λ after. (had : List FrameByToken) →
        Leads had (turn_after_fetch (by_token (L.loaded links.now))
        ((by_token (L.loaded links.now)).fetch first.code first.at) first machine.old.frames
        (with_frames had machine.old)) after machine.new) }
    ensures most { OnOk result (objects_at_most machine.new ≤ objects_at_most machine.old + 1) }
    ensures spent { OnOk result (machine.new.spent ≡ machine.old.spent) }
{
    let mut frame = first;
    let Some(insn) = links.insn_at(frame.code, frame.at) else {
        return Ok(After::Stuck(frame.at));
    };
    let next = frame.at + insn.size as u32;
    let step = act_on(alloc, links, machine, &mut frame, insn)?;
    follow(alloc, links, machine, step, next, frame)
}

/// One instruction of a frame, which is spent unless it is stuck.
pub(crate) fn step<L: LookUps>(
    alloc: Global,
    links: &L,
    machine: &mut Machine<'_>,
    frame: Frame,
) -> Result<After, NoMemory>
    requires few { objects_at_most machine.old < 2 ^ 32 }
    requires count { machine.old.spent + 1 < 2 ^ 32 }
    ensures next { IfOk result (λ after. (had : List FrameByToken) →
        Leads had (step (by_token (L.loaded links.now)) (frame ∷ machine.old.frames) (with_frames had machine.old))
        after machine.new) }
    ensures most { OnOk result (objects_at_most machine.new ≤ objects_at_most machine.old + 1) }
    ensures spent { OnOk result (machine.new.spent ≤ machine.old.spent + 1) }
{
    machine.spent += 1;
    match fetch(alloc, links, machine, frame)? {
        After::Stuck(at) => {
            machine.spent -= 1;
            Ok(After::Stuck(at))
        }
        After::On(top) => Ok(After::On(top)),
        After::Ended(outcome) => Ok(After::Ended(outcome)),
    }
}
