//! How an entry of a script begins by name: its acts are done, its method is found, its arguments are tested by
//! its descriptor, and a frame is made of these.

ghost use Rattle.std.specs.Prelude.{◌≡◌, ◌≤◌, [], option_map, IfOk, OnOk};
ghost use Rattle.cjc_jvm_step.specs.Script.Sorts.{signature_of};
ghost use Rattle.cjc_jvm_semantics.specs.Linked.{Linked};
ghost use Rattle.cjc_jvm_semantics.specs.Machine.{entry_method, args_fit, arguments, sent_on, begins};
ghost use Rattle.cjc_jvm.specs.States.{objects_at_most};
ghost use Rattle.cjc_jvm.specs.Runs.Starts.{Starts};

use crate::acts::{all_fit, perform, signature_of};
use crate::turns::Machine;
use cjc_jvm_semantics::bytes::{MemberId, NoMemory};
use cjc_jvm_semantics::script::{Entry, Outcome, Value};
use cjc_jvm_step::frame::{Activation, Method};
use cjc_jvm_step::heap::Heap;
use cjc_jvm_step::step::LookUps;
use std::alloc::Global;

/// The frame of an entry that begins, or the end.
#[derive(Drop)]
pub enum Begun<'a> {
    Frame(Activation<'a>),
    Ended(Outcome),
}

// The method that is sent to the first of these values.
fn sent_on<'a, L: LookUps>(
    links: &'a L,
    heap: &Heap<'a>,
    id: &MemberId,
    args: &[Value],
) -> Option<&'a Method<'a>>
    ensures { option_map (λ m. m.now) result ≡ sent_on (L.linked links.now) heap.now id.now args.now }
{
    match args {
        [Value::Obj(number), ..] => match heap.type_at(*number) {
            Some(receiver) => links.sent(receiver, id),
            None => None,
        },
        _ => None,
    }
}

// The method that an entry names.
fn entry_method<'a, L: LookUps>(
    links: &'a L,
    heap: &Heap<'a>,
    entry: &Entry,
) -> Option<&'a Method<'a>>
    ensures { option_map (λ m. m.now) result ≡ entry_method (L.linked links.now) heap.now entry.now }
{
    if entry.virtual_call {
        sent_on(links, heap, &entry.method, entry.args.items())
    } else {
        links.entry(&entry.method)
    }
}

// The arguments behind the receiver.
fn arguments(entry: &Entry) -> &[Value]
    ensures { (l : Linked) → result.now ≡ arguments l entry.now }
{
    let args = entry.args.items();
    if !entry.virtual_call {
        return args;
    }
    match args {
        [] => args,
        [_, rest @ ..] => rest,
    }
}

// Whether the arguments of an entry fit its parameters.
fn args_fit<'a, L: LookUps>(
    alloc: Global,
    links: &L,
    heap: &Heap<'a>,
    entry: &Entry,
) -> Result<bool, NoMemory>
    ensures { IfOk result (λ fit. fit ≡ args_fit (L.linked links.now) heap.now entry.now
        (signature_of (let m = entry.now.method in m.desc))) }
{
    match signature_of(alloc, entry.method.desc.items())? {
        Some(types) => Ok(all_fit(alloc, links, heap, types.params(), arguments(entry))?),
        None => Ok(false),
    }
}

/// The next entry, after its acts, or the end.
pub(crate) fn begin<'a, L: LookUps>(
    alloc: Global,
    links: &'a L,
    machine: &mut Machine<'a>,
) -> Result<Begun<'a>, NoMemory>
    ensures next { IfOk result (λ begun. Starts (begins (L.linked links.now) [] machine.old.entries machine.old) begun
        machine.new) }
    ensures frames { OnOk result (machine.new.frames ≡ machine.old.frames) }
    ensures most { OnOk result (objects_at_most machine.new ≤ objects_at_most machine.old) }
    ensures spent { OnOk result (machine.new.spent ≡ machine.old.spent) }
{
    let Some((entry, rest)) = machine.entries.split_first() else {
        return Ok(Begun::Ended(Outcome::Done));
    };
    machine.entries = rest;
    if !perform(alloc, links, &mut machine.heap, entry.acts.items())? {
        return Ok(Begun::Ended(Outcome::Unfit(entry.number)));
    }
    let Some(method) = entry_method(links, &machine.heap, entry) else {
        return Ok(Begun::Ended(Outcome::Unfit(entry.number)));
    };
    if !args_fit(alloc, links, &machine.heap, entry)? {
        return Ok(Begun::Ended(Outcome::Unfit(entry.number)));
    }
    let frame = Activation::enter(alloc, method, entry.args.items())?;
    Ok(Begun::Frame(frame))
}
