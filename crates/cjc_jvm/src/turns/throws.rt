//! Exceptions and their handlers (Java Virtual Machine Specification, 2.10).

ghost use Rattle.std.specs.Prelude.{◌≡◌, ◌<◌, ◌≤◌, ◌+◌, ◌^◌, ◌∷◌, ℕ, List, length, slice_get, IfOk, OnOk};
ghost use Rattle.cjc_jvm_step.specs.CardSemantics.Bytecode.Runs.{Move};
ghost use Rattle.cjc_jvm_semantics.specs.Effects.{exception_class};
ghost use Rattle.cjc_jvm_semantics.specs.Machine.{Frame, State, heap_of, offset, handler, handler_in, at_handler};
ghost use Rattle.cjc_jvm_semantics.specs.Machine.{after_throw, after_raise, after_athrow, takes};
ghost use Rattle.cjc_jvm_step.specs.Frame.Deeds.{fault_of};
ghost use Rattle.cjc_jvm.specs.States.{Leads, handled, objects_at_most};

use crate::turns::after::After;
use crate::turns::machine::{Machine, pop};
use crate::turns::notes::thrown;
use cjc_jvm_semantics::bytes::{Bytes, NoMemory, Row};
use cjc_jvm_semantics::classfile::Catch;
use cjc_jvm_semantics::script::{Note, Outcome};
use cjc_jvm_step::frame::{Activation, Caller, Exception, Pile};
use cjc_jvm_step::heap::HeapObject;
use cjc_jvm_step::step::LookUps;
use std::alloc::Global;

/// The class of an exception of the machine's own.
pub fn class_of(exception: Exception) -> &'static [u8]
    ensures { result.now ≡ exception_class (fault_of exception) }
{
    match exception {
        Exception::Arithmetic => b"java/lang/ArithmeticException",
        Exception::NullPointer => b"java/lang/NullPointerException",
        Exception::IndexOutside => b"java/lang/ArrayIndexOutOfBoundsException",
        Exception::NegativeSize => b"java/lang/NegativeArraySizeException",
        Exception::ClassCast => b"java/lang/ClassCastException",
        Exception::ArrayStore => b"java/lang/ArrayStoreException",
    }
}

// Whether a handler takes an exception of a type.
fn takes<L: LookUps>(links: &L, holder: &[u8], class: &Option<Bytes>, exception: &[u8]) -> bool
    ensures { result ≡ takes (L.linked links.now) holder.now class.now exception.now }
{
    match class {
        Some(class) => links.is_subtype(Some(holder), exception, class.items()),
        None => true,
    }
}

// The target of the first handler that covers the offset and takes the exception.
fn handler<L: LookUps>(
    links: &L,
    holder: &[u8],
    catches: &[Catch],
    offset: u32,
    exception: &[u8],
) -> Option<u16>
    ensures { result ≡ handler (L.linked links.now) holder.now catches.now offset exception.now }
{
    for catch in catches {
        if u32::from(catch.start) <= offset
            && offset < u32::from(catch.end)
            && takes(links, holder, &catch.class, exception)
        {
            return Some(catch.target);
        }
    }
    None
}

/// What a frame does with an exception.
#[derive(Clone, Copy)]
pub enum Handling {
    Caught,
    /// It has a handler, and no room for the exception.
    Full,
    Past,
}

// A frame goes on at its handler, if it has one.
fn handle<'a, L: LookUps>(
    links: &L,
    frame: &mut Activation<'a>,
    object: u32,
    exception: &[u8],
) -> Result<Handling, NoMemory>
    ensures { IfOk result (λ h. (from : ℕ) (outer : List Frame) (s : State) (past : Move State) →
        at_handler (L.linked links.now) (handler_in (L.linked links.now) frame.old exception.now) from frame.old outer
        object s past ≡ handled h from frame.new outer s past) }
{
    let method = frame.method();
    match handler(
        links,
        method.class,
        method.catches,
        frame.offset(),
        exception,
    ) {
        Some(target) => {
            if frame.max_stack() == 0 {
                return Ok(Handling::Full);
            }
            frame.catch(u32::from(target), object)?;
            Ok(Handling::Caught)
        }
        None => Ok(Handling::Past),
    }
}

// An exception goes outwards to the first frame that handles it, and ends the entry where none does.
fn throw<'a, L: LookUps>(
    alloc: Global,
    links: &L,
    callers: &mut Pile<Caller<'a>>,
    notes: &mut Row<Note>,
    first: Activation<'a>,
    object: u32,
    exception: &[u8],
) -> Result<After<'a>, NoMemory>
    ensures { IfOk result (λ after. (s : State) → s.notes ≡ notes.old →
        Leads (after_throw (L.linked links.now) (offset first.entry) (first.entry ∷ callers.old) object exception.now
        s) after (record s { frames = callers.new; notes = notes.new })) }
{
    let from = first.offset();
    let mut frame = first;
    match handle(links, &mut frame, object, exception)? {
        Handling::Caught => return Ok(After::On(Some(frame))),
        Handling::Full => return Ok(After::Ended(Outcome::Stuck(from))),
        Handling::Past => {}
    }
    'outwards: while let Some(mut caller) = pop(callers) {
        match handle(links, &mut caller, object, exception)? {
            Handling::Caught => return Ok(After::On(Some(caller))),
            Handling::Full => return Ok(After::Ended(Outcome::Stuck(from))),
            Handling::Past => {}
        }
    }
    notes.push(thrown(alloc, exception, object)?)?;
    Ok(After::On(None))
}

impl<'a> Machine<'a> {
    /// An object of a class, without fields, is made and thrown.
    pub fn raise<L: LookUps>(
        &mut self,
        alloc: Global,
        links: &L,
        frame: Activation<'a>,
        class: &'a [u8],
    ) -> Result<After<'a>, NoMemory>
        requires { length (heap_of self.old) < 2 ^ 32 }
        ensures next { IfOk result (λ after. (before : List Frame) →
            Leads (after_raise (L.linked links.now) class.now frame.entry self.old.frames
            (record self.old { frames = before })) after self.new) }
        ensures most { OnOk result (objects_at_most self.new ≤ objects_at_most self.old + 1) }
        ensures spent { OnOk result (self.new.spent ≡ self.old.spent) }
    {
        let object = self.heap.len() as u32;
        self.heap.push(HeapObject::object(alloc, class, &[])?)?;
        throw(
            alloc,
            links,
            &mut self.callers,
            &mut self.notes,
            frame,
            object,
            class,
        )
    }

    /// The array or object with a number is thrown, if there is one.
    pub fn toss<L: LookUps>(
        &mut self,
        alloc: Global,
        links: &L,
        frame: Activation<'a>,
        object: u32,
    ) -> Result<After<'a>, NoMemory>
        ensures next { IfOk result (λ after. (before : List Frame) →
            Leads (after_athrow (L.linked links.now) (slice_get (heap_of self.old) object) frame.entry self.old.frames
            object (record self.old { frames = before })) after self.new) }
        ensures most { OnOk result (objects_at_most self.new ≤ objects_at_most self.old) }
        ensures spent { OnOk result (self.new.spent ≡ self.old.spent) }
    {
        match self.heap.type_at(object) {
            Some(exception) => throw(
                alloc,
                links,
                &mut self.callers,
                &mut self.notes,
                frame,
                object,
                exception,
            ),
            None => Ok(After::Ended(Outcome::Stuck(frame.offset()))),
        }
    }
}
