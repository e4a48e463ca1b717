//! Exceptions and their handlers (Java Card Virtual Machine Specification 2.2.2, section 3.8).

ghost use Rattle.std.specs.Prelude.{◌≡◌, ◌<◌, ◌≤◌, ◌+◌, ◌^◌, ◌∷◌, ℕ, List, Some, slice_get, IfOk, OnOk};
ghost use Rattle.cjc_script.specs.Sorts.{array_name};
ghost use Rattle.cjc_card_semantics.specs.Bytecode.Machine.{caught, caught_at, turn_after_fault, turn_after_raise};
ghost use Rattle.cjc_card_semantics.specs.Bytecode.Machine.{turn_after_toss, type_name};
ghost use Rattle.cjc_card_semantics.specs.Machine.ByToken.{by_token};
ghost use Rattle.cjc_card_frame.specs.Frame.Frames.{fault_of};
ghost use Rattle.cjc_card_frame.specs.Objects.{class_of, element_of, shape_of};
ghost use Rattle.cjc_card.specs.Acts.States.{FrameByToken, StateByToken, TurnByToken};
ghost use Rattle.cjc_card.specs.States.{Leads, handled, heap_of, objects_at_most, with_frames};

use crate::turns::after::After;
use crate::turns::machine::Machine;
use cjc_card_frame::frames::Frame;
use cjc_card_frame::heap::{Class, Element, HeapObject, Shape};
use cjc_card_frame::jvm_step::frame::{Exception, Pile};
use cjc_card_frame::jvm_step::step::array_of;
use cjc_card_frame::parts::LookUps;
use cjc_script::Note;
use cjc_script::bytes::{Bytes, NoMemory, Row};
use std::alloc::Global;

// The descriptor of an array of numbers.
fn array_name(element: Element) -> &'static [u8]
    ensures { result.now ≡ array_name (element_of element) }
{
    match element {
        Element::Booleans => b"[Z",
        Element::Bytes => b"[B",
        Element::Shorts => b"[S",
        Element::Ints => b"[I",
    }
}

/// The name of a class, or the descriptor of an array.
#[tactic(auto, unfolding(cjc_card_semantics::specs::Machine::ByToken::by_token))]
pub fn type_name<L: LookUps>(alloc: Global, links: &L, kind: Shape) -> Result<Bytes, NoMemory>
    ensures { IfOk result (λ name. name ≡ type_name (by_token (L.loaded links.now)) (shape_of kind)) }
{
    match kind {
        Shape::OfClass(class) => Bytes::copy_of(alloc, links.name(class)),
        Shape::OfNumbers(element) => Bytes::copy_of(alloc, array_name(element)),
        Shape::OfReferences(class) => array_of(alloc, links.name(class)),
    }
}

/// What a frame does with an exception.
#[derive(Clone, Copy)]
pub enum Handling {
    Caught,
    /// It has a handler, and no room for the exception.
    Full,
    Past,
}

// A frame goes on at its handler, if it has one.
#[tactic(auto, unfolding(cjc_card_semantics::specs::Machine::ByToken::by_token))]
fn handle<L: LookUps>(
    links: &L,
    frame: &mut Frame,
    object: u32,
    kind: Shape,
) -> Result<Handling, NoMemory>
    ensures { IfOk result (λ h. (from : ℕ) (outer : List FrameByToken) (s : StateByToken) (past : TurnByToken) →
        caught_at (by_token (L.loaded links.now)) ((by_token (L.loaded links.now)).handler frame.old.code frame.old.at
        (shape_of kind)) from frame.old outer object s past ≡ handled h from frame.new outer s past) }
{
    match links.handler(frame.code, frame.at, kind) {
        Some(target) => {
            if frame.room() == 0 {
                return Ok(Handling::Full);
            }
            frame.catch(target, object)?;
            Ok(Handling::Caught)
        }
        None => Ok(Handling::Past),
    }
}

// An exception goes outwards to the first frame that handles it, and ends the entry where none does.
fn throw<L: LookUps>(
    alloc: Global,
    links: &L,
    callers: &mut Pile<Frame>,
    notes: &mut Row<Note>,
    first: Frame,
    object: u32,
    kind: Shape,
) -> Result<After, NoMemory>
    ensures { IfOk result (λ after. (s : StateByToken) → s.notes ≡ notes.old →
        Leads s.frames (caught (by_token (L.loaded links.now)) first.at (first ∷ callers.old) object (shape_of kind)
        s) after (record s { frames = callers.new; notes = notes.new })) }
{
    let from = first.at;
    let mut frame = first;
    match handle(links, &mut frame, object, kind)? {
        Handling::Caught => return Ok(After::On(Some(frame))),
        Handling::Full => return Ok(After::Stuck(from)),
        Handling::Past => {}
    }
    'outwards: while let Some(mut caller) = callers.pop() {
        match handle(links, &mut caller, object, kind)? {
            Handling::Caught => return Ok(After::On(Some(caller))),
            Handling::Full => return Ok(After::Stuck(from)),
            Handling::Past => {}
        }
    }
    let class = type_name(alloc, links, kind)?;
    notes.push(Note::Thrown { class, object })?;
    Ok(After::On(None))
}

impl<'a> Machine<'a> {
    /// An object of a class, without fields, is made and thrown.
    pub(crate) fn raise<L: LookUps>(
        &mut self,
        alloc: Global,
        links: &L,
        frame: Frame,
        class: Class,
    ) -> Result<After, NoMemory>
        requires { objects_at_most self.old < 2 ^ 32 }
        ensures next { IfOk result (λ after. (had : List FrameByToken) (otherwise : TurnByToken) →
            Leads had (turn_after_raise (by_token (L.loaded links.now)) (Some (class_of class)) frame self.old.frames
            (with_frames had self.old) otherwise) after self.new) }
        ensures most { OnOk result (objects_at_most self.new ≤ objects_at_most self.old + 1) }
        ensures spent { OnOk result (self.new.spent ≡ self.old.spent) }
    {
        let object = self.heap.len() as u32;
        self.heap.push(HeapObject::object(class, Vec::new(alloc)))?;
        throw(
            alloc,
            links,
            &mut self.callers,
            &mut self.notes,
            frame,
            object,
            Shape::OfClass(class),
        )
    }

    /// An exception of the machine's own.
    pub fn fail<L: LookUps>(
        &mut self,
        alloc: Global,
        links: &L,
        frame: Frame,
        exception: Exception,
    ) -> Result<After, NoMemory>
        requires { objects_at_most self.old < 2 ^ 32 }
        ensures next { IfOk result (λ after. (had : List FrameByToken) →
            Leads had (turn_after_fault (by_token (L.loaded links.now)) (fault_of exception) frame self.old.frames
            (with_frames had self.old)) after self.new) }
        ensures most { OnOk result (objects_at_most self.new ≤ objects_at_most self.old + 1) }
        ensures spent { OnOk result (self.new.spent ≡ self.old.spent) }
    {
        match links.fault_class(exception) {
            Some(class) => self.raise(alloc, links, frame, class),
            None => Ok(After::Stuck(frame.at)),
        }
    }

    /// The array or object with a number is thrown, if there is one.
    pub fn toss<L: LookUps>(
        &mut self,
        alloc: Global,
        links: &L,
        frame: Frame,
        object: u32,
    ) -> Result<After, NoMemory>
        ensures next { IfOk result (λ after. (had : List FrameByToken) →
            Leads had (turn_after_toss (by_token (L.loaded links.now)) (slice_get (heap_of self.old) object) frame
            self.old.frames object (with_frames had self.old)) after self.new) }
        ensures most { OnOk result (objects_at_most self.new ≤ objects_at_most self.old) }
        ensures spent { OnOk result (self.new.spent ≡ self.old.spent) }
    {
        match self.heap.shape_at(object) {
            Some(kind) => throw(
                alloc,
                links,
                &mut self.callers,
                &mut self.notes,
                frame,
                object,
                kind,
            ),
            None => Ok(After::Stuck(frame.at)),
        }
    }
}
