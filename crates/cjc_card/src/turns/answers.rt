//! What a result is to whoever waits for it, and calls that leave the components: the event is noted, and the
//! next answer of the script is done and given back.

ghost use Rattle.std.specs.Prelude.{◌≡◌, ◌<◌, ◌≤◌, ◌+◌, ◌^◌, List, true, option_map, IfOk, OnOk};
ghost use Rattle.std.specs.List.{All};
ghost use Rattle.cjc_script.specs.Sorts.{result_fits};
ghost use Rattle.cjc_jvm.specs.Acts.Meant.{sort_meant};
ghost use Rattle.cjc_card_semantics.specs.Bytecode.Arguments.{result_of, result_words};
ghost use Rattle.cjc_card_semantics.specs.Bytecode.Machine.{turn_after_answer, is_at_once, left, turn_after_event};
ghost use Rattle.cjc_card_semantics.specs.Bytecode.Machine.{outside, turn_after_reply, returned};
ghost use Rattle.cjc_card_semantics.specs.Machine.Loaded.{Loaded};
ghost use Rattle.cjc_card_semantics.specs.Machine.ByToken.{by_token};
ghost use Rattle.cjc_card_frame.specs.Frame.Frames.{IsWord};
ghost use Rattle.cjc_card_frame.specs.Kinds.{method_id};
ghost use Rattle.cjc_card_step.specs.Effects.Deeds.{words_in};
ghost use Rattle.cjc_card.specs.Acts.States.{FrameByToken, StateByToken};
ghost use Rattle.cjc_card.specs.States.{IsResumed, Leads, objects_at_most, with_frames};

use crate::acts::{event_values, perform, result_fits};
use crate::turns::after::After;
use crate::turns::machine::Machine;
use crate::turns::notes::event;
use cjc_card_frame::frame::words::{high_word, low_word, spelt_by};
use cjc_card_frame::frames::Frame;
use cjc_card_frame::parts::{ImportedMethod, LookUps};
use cjc_card_step::effects::Returned;
use cjc_jvm::acts::{Sort, signature_of};
use cjc_script::bytes::{NoMemory, Row};
use cjc_script::{Answer, Note, Outcome, Reply, Value};
use std::alloc::Global;

// The value of an entry's result by its words.
fn result_of(words: Returned) -> Option<Value>
    ensures { result ≡ result_of (words_in words) }
{
    match words {
        Returned::Nothing => None,
        Returned::Number(z) => Some(Value::Num(i32::from(z))),
        Returned::Null => Some(Value::Null),
        Returned::Object(number) => Some(Value::Obj(number)),
        Returned::Int(high, low) => Some(Value::Num(spelt_by(i32::from(high), i32::from(low)))),
    }
}

// The words of a result that fits its type.
fn result_words(sort: Option<Sort<'_>>, value: Option<Value>) -> Returned
    requires { result_fits (λ k shape. true) (option_map sort_meant sort) value ≡ true }
    ensures { words_in result ≡ result_words (option_map sort_meant sort.entry) value }
{
    match value {
        Some(Value::Num(z)) => match sort {
            Some(Sort::Int) => Returned::Int(high_word(z) as i16, low_word(z) as i16),
            _ => Returned::Number(z as i16),
        },
        Some(Value::Null) => Returned::Null,
        Some(Value::Obj(number)) => Returned::Object(number),
        None => Returned::Nothing,
    }
}

// A frame goes on behind its call with the words of a result, where it has room for them.
fn resume(frame: &mut Frame, words: Returned) -> Result<bool, NoMemory>
    ensures { IfOk result (λ fits. IsResumed fits (words_in words) frame.old frame.new) }
{
    match words {
        Returned::Nothing => frame.resume(&[]),
        Returned::Number(z) => frame.resume(&[Value::Num(i32::from(z))]),
        Returned::Null => frame.resume(&[Value::Null]),
        Returned::Object(number) => frame.resume(&[Value::Obj(number)]),
        Returned::Int(high, low) => {
            frame.resume(&[Value::Num(i32::from(high)), Value::Num(i32::from(low))])
        }
    }
}

// A result goes to the frame that called, where its stack has room. `from` is the offset at which the state is stuck.
fn hand_over(from: u32, words: Returned, caller: Frame) -> Result<After, NoMemory>
    ensures { IfOk result (λ after. (l : Loaded) (had outer : List FrameByToken) (s : StateByToken) →
        Leads had (returned (by_token l) from (words_in words) caller outer (with_frames had s)) after
        (with_frames outer s)) }
{
    let mut frame = caller;
    if resume(&mut frame, words)? {
        Ok(After::On(Some(frame)))
    } else {
        Ok(After::Stuck(from))
    }
}

// java/lang/Object.<init>()V.
fn is_at_once(method: ImportedMethod<'_>) -> bool
    ensures { result ≡ is_at_once (method_id method.entry) }
{
    method.class == b"java/lang/Object".as_slice()
        && (method.name == b"<init>".as_slice() && method.desc == b"()V".as_slice())
}

impl<'a> Machine<'a> {
    /// A method returns to the frame that called, or ends its entry.
    pub fn give_back(&mut self, frame: Frame, words: Returned) -> Result<After, NoMemory>
        ensures next { IfOk result (λ after. (l : Loaded) (had : List FrameByToken) →
            Leads had (left (by_token l) (words_in words) frame self.old.frames (with_frames had self.old)) after
            self.new) }
        ensures most { OnOk result (objects_at_most self.new ≡ objects_at_most self.old) }
        ensures spent { OnOk result (self.new.spent ≡ self.old.spent) }
    {
        match self.callers.pop() {
            Some(caller) => hand_over(frame.at, words, caller),
            None => {
                self.notes.push(Note::Result(result_of(words)))?;
                Ok(After::On(None))
            }
        }
    }

    // A value that fits, or an imported exception.
    fn reply<L: LookUps>(
        &mut self,
        alloc: Global,
        links: &L,
        answer: &Answer,
        sort: Option<Sort<'_>>,
        frame: Frame,
    ) -> Result<After, NoMemory>
        requires { objects_at_most self.old < 2 ^ 32 }
        ensures next { IfOk result (λ after. (had : List FrameByToken) →
            Leads had (turn_after_reply (by_token (L.loaded links.now)) answer.now.reply answer.now.number
            (option_map sort_meant sort.entry) frame self.old.frames (with_frames had self.old)) after self.new) }
        ensures most { OnOk result (objects_at_most self.new ≤ objects_at_most self.old + 1) }
        ensures spent { OnOk result (self.new.spent ≡ self.old.spent) }
    {
        match &answer.reply {
            Reply::Give(value) => {
                if result_fits(links, &self.heap, sort, *value) {
                    hand_over(frame.at, result_words(sort, *value), frame)
                } else {
                    Ok(After::Ended(Outcome::Unfit(answer.number)))
                }
            }
            Reply::Throw(class) => match links.throwable(class.items()) {
                Some(class) => self.raise(alloc, links, frame, class),
                None => Ok(After::Ended(Outcome::Unfit(answer.number))),
            },
        }
    }

    // The next answer, after its acts.
    fn answer<L: LookUps>(
        &mut self,
        alloc: Global,
        links: &L,
        sort: Option<Sort<'_>>,
        frame: Frame,
    ) -> Result<After, NoMemory>
        requires { objects_at_most self.old < 2 ^ 32 }
        ensures next { IfOk result (λ after. (had : List FrameByToken) →
            Leads had (turn_after_answer (by_token (L.loaded links.now)) self.old.answers
            (option_map sort_meant sort.entry) frame self.old.frames (with_frames had self.old)) after self.new) }
        ensures most { OnOk result (objects_at_most self.new ≤ objects_at_most self.old + 1) }
        ensures spent { OnOk result (self.new.spent ≡ self.old.spent) }
    {
        let Some((answer, rest)) = self.answers.split_first() else {
            return Ok(After::Ended(Outcome::Waiting));
        };
        self.answers = rest;
        if perform(alloc, links, &mut self.heap, answer.acts.items())? {
            self.reply(alloc, links, answer, sort, frame)
        } else {
            Ok(After::Ended(Outcome::Unfit(answer.number)))
        }
    }

    // An imported call with the values of its words: its event, and then the next answer.
    fn note_call<L: LookUps>(
        &mut self,
        alloc: Global,
        links: &L,
        method: ImportedMethod<'_>,
        sort: Option<Sort<'_>>,
        values: Option<Row<Value>>,
        frame: Frame,
    ) -> Result<After, NoMemory>
        requires { objects_at_most self.old < 2 ^ 32 }
        ensures next { IfOk result (λ after. (had : List FrameByToken) →
            Leads had (turn_after_event (by_token (L.loaded links.now)) (method_id method.entry)
            (option_map sort_meant sort.entry) values frame self.old.frames (with_frames had self.old)) after
            self.new) }
        ensures most { OnOk result (objects_at_most self.new ≤ objects_at_most self.old + 1) }
        ensures spent { OnOk result (self.new.spent ≡ self.old.spent) }
    {
        let Some(values) = values else {
            return Ok(After::Stuck(frame.at));
        };
        self.notes.push(event(alloc, method, values)?)?;
        self.answer(alloc, links, sort, frame)
    }

    /// An imported method, by the types of its descriptor.
    pub(crate) fn call_abroad<L: LookUps>(
        &mut self,
        alloc: Global,
        links: &L,
        on_object: bool,
        method: ImportedMethod<'_>,
        args: &[Value],
        frame: Frame,
    ) -> Result<After, NoMemory>
        requires words { All IsWord args.now }
        requires few { objects_at_most self.old < 2 ^ 32 }
        ensures next { IfOk result (λ after. (had : List FrameByToken) →
            Leads had (outside (by_token (L.loaded links.now)) on_object (method_id method.entry) args.now frame
            self.old.frames (with_frames had self.old)) after self.new) }
        ensures most { OnOk result (objects_at_most self.new ≤ objects_at_most self.old + 1) }
        ensures spent { OnOk result (self.new.spent ≡ self.old.spent) }
    {
        if is_at_once(method) {
            return hand_over(frame.at, Returned::Nothing, frame);
        }
        let Some(types) = signature_of(alloc, method.desc)? else {
            return Ok(After::Stuck(frame.at));
        };
        let values = event_values(alloc, on_object, types.params(), args)?;
        self.note_call(alloc, links, method, types.returned(), values, frame)
    }
}
