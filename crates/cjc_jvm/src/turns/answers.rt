//! What a result is to whoever waits for it, and calls that leave the class files: the event is noted, and the
//! next answer of the script is done and given back.

ghost use Rattle.std.specs.Prelude.{◌≡◌, ◌<◌, ◌≤◌, ◌+◌, ◌^◌, ◌++◌, ◌&&◌, nat_le, None, codes, List, length, option_map};
ghost use Rattle.std.specs.Prelude.{IfOk, OnOk};
ghost use Rattle.cjc_jvm_semantics.specs.Linked.{Linked};
ghost use Rattle.cjc_jvm_semantics.specs.OnePackage.{of_class};
ghost use Rattle.cjc_jvm_semantics.specs.Machine.{Frame, State, offset, room, values_of, is_at_once, after_result};
ghost use Rattle.cjc_jvm_semantics.specs.Machine.{after_return, after_reply, after_answer, imported_call};
ghost use Rattle.cjc_jvm.specs.Acts.Meant.{sort_meant};
ghost use Rattle.cjc_jvm.specs.States.{Leads, objects_at_most};

use crate::acts::{Sort, perform, result_fits};
use crate::turns::after::After;
use crate::turns::machine::{Machine, pop};
use crate::turns::notes::event;
use cjc_jvm_semantics::bytes::{MemberId, NoMemory};
use cjc_jvm_semantics::script::{Answer, Note, Outcome, Reply, Value};
use cjc_jvm_step::frame::Activation;
use cjc_jvm_step::step::LookUps;
use std::alloc::Global;

const THROWABLE: &[u8] = b"java/lang/Throwable";

// Whether a frame's stack has room for a result.
fn has_room(value: Option<Value>, frame: &Activation<'_>) -> bool
    ensures { result ≡ nat_le (length (values_of value ++ frame.now.stack)) (room frame.now) }
{
    match value {
        Some(_) => frame.height() < frame.max_stack(),
        None => frame.height() <= frame.max_stack(),
    }
}

/// A result goes to the frame that called, where its stack has room. `from` is the offset at which the state is stuck.
pub(crate) fn with_result<'a>(
    from: u32,
    value: Option<Value>,
    caller: Activation<'a>,
) -> Result<After<'a>, NoMemory>
    requires { caller.at < length caller.method.insns }
    ensures { IfOk result (λ after. (outer : List Frame) (s : State) →
        Leads (after_result from value caller.entry outer s) after (record s { frames = outer })) }
{
    if !has_room(value, &caller) {
        return Ok(After::Ended(Outcome::Stuck(from)));
    }
    let mut frame = caller;
    frame.resume(value)?;
    Ok(After::On(Some(frame)))
}

// java/lang/Object.<init>()V.
fn is_at_once(class: &[u8], id: &MemberId) -> bool
    ensures { result ≡ is_at_once (of_class class.now id.now) }
{
    class == b"java/lang/Object".as_slice()
        && (id.name.items() == b"<init>".as_slice() && id.desc.items() == b"()V".as_slice())
}

// Whether an answer may throw a class.
fn is_thrown<L: LookUps>(links: &L, class: &[u8]) -> bool
    ensures { result ≡ ((L.linked links.now).is_imported class.now && (L.linked links.now).subtype None class.now
        (codes "java/lang/Throwable")) }
{
    links.is_imported(class) && links.is_subtype(None, class, THROWABLE)
}

impl<'a> Machine<'a> {
    /// A method returns to the frame that called, or ends its entry.
    pub fn give_back(
        &mut self,
        frame: Activation<'a>,
        value: Option<Value>,
    ) -> Result<After<'a>, NoMemory>
        ensures next { IfOk result (λ after. (before : List Frame) (l : Linked) →
            Leads (after_return l value frame.entry self.old.frames (record self.old { frames = before })) after
            self.new) }
        ensures most { OnOk result (objects_at_most self.new ≡ objects_at_most self.old) }
        ensures spent { OnOk result (self.new.spent ≡ self.old.spent) }
    {
        match pop(&mut self.callers) {
            Some(caller) => with_result(frame.offset(), value, caller),
            None => {
                self.notes.push(Note::Result(value))?;
                Ok(After::On(None))
            }
        }
    }

    // A value that fits, or an imported exception.
    fn reply<L: LookUps>(
        &mut self,
        alloc: Global,
        links: &L,
        answer: &'a Answer,
        returned: Option<Sort<'_>>,
        frame: Activation<'a>,
    ) -> Result<After<'a>, NoMemory>
        requires inside { frame.at < length frame.method.insns }
        requires few { objects_at_most self.old < 2 ^ 32 }
        ensures next { IfOk result (λ after. (before : List Frame) →
            Leads (after_reply (L.linked links.now) answer.now.reply answer.now.number
            (option_map sort_meant returned.entry) frame.entry self.old.frames
            (record self.old { frames = before })) after self.new) }
        ensures most { OnOk result (objects_at_most self.new ≤ objects_at_most self.old + 1) }
        ensures spent { OnOk result (self.new.spent ≡ self.old.spent) }
    {
        match &answer.reply {
            Reply::Give(value) => {
                if result_fits(alloc, links, &self.heap, returned, *value)? {
                    with_result(frame.offset(), *value, frame)
                } else {
                    Ok(After::Ended(Outcome::Unfit(answer.number)))
                }
            }
            Reply::Throw(class) => {
                if is_thrown(links, class.items()) {
                    self.raise(alloc, links, frame, class.items())
                } else {
                    Ok(After::Ended(Outcome::Unfit(answer.number)))
                }
            }
        }
    }

    // The next answer, after its acts.
    fn answer<L: LookUps>(
        &mut self,
        alloc: Global,
        links: &L,
        returned: Option<Sort<'_>>,
        frame: Activation<'a>,
    ) -> Result<After<'a>, NoMemory>
        requires inside { frame.at < length frame.method.insns }
        requires few { objects_at_most self.old < 2 ^ 32 }
        ensures next { IfOk result (λ after. (before : List Frame) →
            Leads (after_answer (L.linked links.now) self.old.answers (option_map sort_meant returned.entry)
            frame.entry self.old.frames (record self.old { frames = before })) after self.new) }
        ensures most { OnOk result (objects_at_most self.new ≤ objects_at_most self.old + 1) }
        ensures spent { OnOk result (self.new.spent ≡ self.old.spent) }
    {
        let Some((answer, rest)) = self.answers.split_first() else {
            return Ok(After::Ended(Outcome::Waiting));
        };
        self.answers = rest;
        if perform(alloc, links, &mut self.heap, answer.acts.items())? {
            self.reply(alloc, links, answer, returned, frame)
        } else {
            Ok(After::Ended(Outcome::Unfit(answer.number)))
        }
    }

    /// An imported method: its event, and then the next answer.
    pub(crate) fn call_abroad<L: LookUps>(
        &mut self,
        alloc: Global,
        links: &L,
        class: &[u8],
        id: &MemberId,
        returned: Option<Sort<'_>>,
        args: &[Value],
        frame: Activation<'a>,
    ) -> Result<After<'a>, NoMemory>
        requires inside { frame.at < length frame.method.insns }
        requires few { objects_at_most self.old < 2 ^ 32 }
        ensures next { IfOk result (λ after. (before : List Frame) →
            Leads (imported_call (L.linked links.now) (of_class class.now id.now)
            (option_map sort_meant returned.entry) args.now frame.entry self.old.frames
            (record self.old { frames = before })) after self.new) }
        ensures most { OnOk result (objects_at_most self.new ≤ objects_at_most self.old + 1) }
        ensures spent { OnOk result (self.new.spent ≡ self.old.spent) }
    {
        if is_at_once(class, id) {
            return with_result(frame.offset(), None, frame);
        }
        self.notes.push(event(alloc, class, id, args)?)?;
        self.answer(alloc, links, returned, frame)
    }
}
