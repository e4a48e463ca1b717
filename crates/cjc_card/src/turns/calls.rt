//! Calls (Java Card Virtual Machine Specification 2.2.2, section 7.5: invokestatic, invokespecial, invokevirtual,
//! invokeinterface).

ghost use Rattle.std.specs.Prelude.{◌≡◌, ◌<◌, ◌≤◌, ◌+◌, ◌^◌, List, slice_get, IfOk, OnOk};
ghost use Rattle.std.specs.List.{All};
ghost use Rattle.cjc_card_semantics.specs.Bytecode.Machine.{counted, on_receiver, reaches, with_args};
ghost use Rattle.cjc_card_semantics.specs.Machine.ByToken.{by_token};
ghost use Rattle.cjc_card_frame.specs.Frame.Frames.{IsWord};
ghost use Rattle.cjc_card_frame.specs.Kinds.{callee_of, reached_of};
ghost use Rattle.cjc_card.specs.Acts.States.{FrameByToken};
ghost use Rattle.cjc_card.specs.States.{Leads, objects_at_most, with_frames};

use crate::turns::after::After;
use crate::turns::machine::Machine;
use cjc_card_frame::frames::{Frame, arguments};
use cjc_card_frame::jvm_step::frame::Exception;
use cjc_card_frame::parts::{Callee, LookUps, Reached};
use cjc_script::Value;
use cjc_script::bytes::NoMemory;
use std::alloc::Global;

// The deepest word, where there is one.
fn first_of(args: &[Value]) -> Option<Value>
    ensures { result ≡ slice_get args.now 0 }
{
    args.get(0).copied()
}

impl<'a> Machine<'a> {
    // What a call reaches; an abstract method is stuck at the call.
    fn reach<L: LookUps>(
        &mut self,
        alloc: Global,
        links: &L,
        reached: Reached<'_>,
        on_object: bool,
        args: &[Value],
        frame: Frame,
    ) -> Result<After, NoMemory>
        requires words { All IsWord args.now }
        requires few { objects_at_most self.old < 2 ^ 32 }
        ensures next { IfOk result (λ after. (had : List FrameByToken) →
            Leads had (reaches (by_token (L.loaded links.now)) (reached_of reached.entry) on_object args.now frame
            self.old.frames (with_frames had self.old)) after self.new) }
        ensures most { OnOk result (objects_at_most self.new ≤ objects_at_most self.old + 1) }
        ensures spent { OnOk result (self.new.spent ≡ self.old.spent) }
    {
        match reached {
            Reached::Nowhere => Ok(After::Stuck(frame.at)),
            Reached::Within(start) => {
                if start.is_abstract {
                    return Ok(After::Stuck(frame.at));
                }
                let entered = Frame::enter(alloc, start, args)?;
                self.callers.push(frame)?;
                Ok(After::On(Some(entered)))
            }
            Reached::Abroad(method) => {
                self.call_abroad(alloc, links, on_object, method, args, frame)
            }
        }
    }

    // By the receiver, which is the deepest argument; null raises.
    fn receive<'g, L: LookUps>(
        &mut self,
        alloc: Global,
        links: &'g L,
        callee: Callee<'g>,
        args: &[Value],
        frame: Frame,
    ) -> Result<After, NoMemory>
        requires words { All IsWord args.now }
        requires few { objects_at_most self.old < 2 ^ 32 }
        ensures next { IfOk result (λ after. (had : List FrameByToken) →
            Leads had (on_receiver (by_token (L.loaded links.now)) (callee_of callee.entry) args.now frame
            self.old.frames (with_frames had self.old)) after self.new) }
        ensures most { OnOk result (objects_at_most self.new ≤ objects_at_most self.old + 1) }
        ensures spent { OnOk result (self.new.spent ≡ self.old.spent) }
    {
        match first_of(args) {
            Some(Value::Obj(number)) => {
                let Some(kind) = self.heap.shape_at(number) else {
                    return Ok(After::Stuck(frame.at));
                };
                let reached = links.reached(callee, Some(kind));
                self.reach(alloc, links, reached, true, args, frame)
            }
            Some(Value::Null) => self.fail(alloc, links, frame, Exception::NullPointer),
            Some(Value::Num(_)) => Ok(After::Stuck(frame.at)),
            None => Ok(After::Stuck(frame.at)),
        }
    }

    // A call with its words, the deepest first.
    fn call_with<'g, L: LookUps>(
        &mut self,
        alloc: Global,
        links: &'g L,
        callee: Callee<'g>,
        args: &[Value],
        frame: Frame,
    ) -> Result<After, NoMemory>
        requires words { All IsWord args.now }
        requires few { objects_at_most self.old < 2 ^ 32 }
        ensures next { IfOk result (λ after. (had : List FrameByToken) →
            Leads had (with_args (by_token (L.loaded links.now))
            ((by_token (L.loaded links.now)).on_object (callee_of callee.entry)) (callee_of callee.entry) args.now
            frame self.old.frames (with_frames had self.old)) after self.new) }
        ensures most { OnOk result (objects_at_most self.new ≤ objects_at_most self.old + 1) }
        ensures spent { OnOk result (self.new.spent ≡ self.old.spent) }
    {
        if callee.is_on_object() {
            self.receive(alloc, links, callee, args, frame)
        } else {
            let reached = links.reached(callee, None);
            self.reach(alloc, links, reached, false, args, frame)
        }
    }

    /// A call takes its words off the stack.
    #[tactic(auto, unfolding(cjc_card_semantics::specs::Machine::ByToken::by_token))]
    pub fn call<'g, L: LookUps>(
        &mut self,
        alloc: Global,
        links: &'g L,
        callee: Callee<'g>,
        frame: Frame,
    ) -> Result<After, NoMemory>
        requires { objects_at_most self.old < 2 ^ 32 }
        ensures next { IfOk result (λ after. (had : List FrameByToken) →
            Leads had (counted (by_token (L.loaded links.now))
            ((by_token (L.loaded links.now)).words (callee_of callee.entry)) (callee_of callee.entry) frame
            self.old.frames (with_frames had self.old)) after self.new) }
        ensures most { OnOk result (objects_at_most self.new ≤ objects_at_most self.old + 1) }
        ensures spent { OnOk result (self.new.spent ≡ self.old.spent) }
    {
        let Some(count) = links.words(callee)? else {
            return Ok(After::Stuck(frame.at));
        };
        if count > frame.cells.height() as u64 {
            return Ok(After::Stuck(frame.at));
        }
        let count = count as usize;
        let args = arguments(alloc, &frame.cells, count)?;
        let mut caller = frame;
        caller.cells.forget(count);
        self.call_with(alloc, links, callee, args.items(), caller)
    }
}
