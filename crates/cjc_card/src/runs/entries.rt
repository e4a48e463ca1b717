//! How an entry of a script begins by token: its acts are done, its method is found, its arguments become
//! words, and a frame is made of these.

ghost use Rattle.std.specs.Prelude.{◌≡◌, ◌≤◌, [], true, map, option_map, IfOk, IfSome, OnOk};
ghost use Rattle.std.specs.List.{All};
ghost use Rattle.cjc_script.specs.Sorts.{signature_of};
ghost use Rattle.cjc_jvm.specs.Acts.Meant.{sort_meant};
ghost use Rattle.cjc_card_semantics.specs.Bytecode.Machine.{begins, entry_start, entry_words, fitting_words, sent_on};
ghost use Rattle.cjc_card_semantics.specs.Bytecode.Machine.{words_behind, words_for};
ghost use Rattle.cjc_card_semantics.specs.Machine.ByToken.{by_token};
ghost use Rattle.cjc_card_frame.specs.Frame.Frames.{IsWord};
ghost use Rattle.cjc_card_frame.specs.Kinds.{start_of};
ghost use Rattle.cjc_card.specs.States.{objects_at_most};
ghost use Rattle.cjc_card.specs.Runs.Starts.{Starts, has_receiver, is_object_first};

use crate::acts::{perform, put_fitting};
use crate::turns::Machine;
use cjc_card_frame::frames::Frame;
use cjc_card_frame::heap::Heap;
use cjc_card_frame::parts::{LookUps, Start};
use cjc_jvm::acts::{Signature, Sort, signature_of};
use cjc_script::bytes::{MemberId, NoMemory, Row};
use cjc_script::{Entry, Outcome, Value};
use std::alloc::Global;

/// The frame of an entry that begins, or the end.
#[derive(Drop)]
pub enum Begun {
    Frame(Frame),
    Ended(Outcome),
}

// The method that is sent to the first of these values.
#[tactic(auto, unfolding(cjc_card_semantics::specs::Machine::ByToken::by_token))]
fn sent_on<L: LookUps>(links: &L, heap: &Heap, id: &MemberId, args: &[Value]) -> Option<Start>
    ensures is { option_map start_of result ≡ sent_on (by_token (L.loaded links.now)) heap.now id.now args.now }
    ensures receiver { IfSome result (λ m. is_object_first args.now ≡ true) }
{
    match args {
        [Value::Obj(number), ..] => match heap.shape_at(*number) {
            Some(kind) => links.sent(kind, id),
            None => None,
        },
        _ => None,
    }
}

// The method that an entry names.
#[tactic(auto, unfolding(cjc_card_semantics::specs::Machine::ByToken::by_token))]
fn entry_start<L: LookUps>(links: &L, heap: &Heap, entry: &Entry) -> Option<Start>
    ensures is { option_map start_of result ≡ entry_start (by_token (L.loaded links.now)) heap.now entry.now }
    ensures receiver { IfSome result (λ m. has_receiver entry.now ≡ true) }
{
    if entry.virtual_call {
        sent_on(links, heap, &entry.method, entry.args.items())
    } else {
        links.called(&entry.method)
    }
}

// The words of values, where each fits its type.
fn fitting_words<L: LookUps>(
    alloc: Global,
    links: &L,
    heap: &Heap,
    sorts: &[Sort<'_>],
    args: &[Value],
) -> Result<Option<Row<Value>>, NoMemory>
    ensures is { IfOk result (λ words. words ≡ fitting_words (by_token (L.loaded links.now)) heap.now
        (map sort_meant sorts.now) args.now) }
    ensures fit { IfOk result (λ words. IfSome words (All IsWord)) }
{
    let mut words = Row::new(alloc);
    if put_fitting(links, heap, &mut words, sorts, args)? {
        Ok(Some(words))
    } else {
        Ok(None)
    }
}

// The same with a receiver in front.
fn words_behind<L: LookUps>(
    alloc: Global,
    links: &L,
    heap: &Heap,
    sorts: &[Sort<'_>],
    args: &[Value],
) -> Result<Option<Row<Value>>, NoMemory>
    requires { is_object_first args.now ≡ true }
    ensures is { IfOk result (λ words. words ≡ words_behind (by_token (L.loaded links.now)) heap.now
        (map sort_meant sorts.now) args.now) }
    ensures fit { IfOk result (λ words. IfSome words (All IsWord)) }
{
    let [Value::Obj(number), rest @ ..] = args else {
        return Ok(None);
    };
    let mut words = Row::new(alloc);
    words.push(Value::Obj(*number))?;
    if put_fitting(links, heap, &mut words, sorts, rest)? {
        Ok(Some(words))
    } else {
        Ok(None)
    }
}

// The words of an entry's arguments by its types.
fn words_for<L: LookUps>(
    alloc: Global,
    links: &L,
    heap: &Heap,
    entry: &Entry,
    types: Option<Signature<'_>>,
) -> Result<Option<Row<Value>>, NoMemory>
    requires { has_receiver entry.now ≡ true }
    ensures is { IfOk result (λ words. words ≡ words_for (by_token (L.loaded links.now)) heap.now entry.now
        types.entry) }
    ensures fit { IfOk result (λ words. IfSome words (All IsWord)) }
{
    let Some(types) = types else {
        return Ok(None);
    };
    if entry.virtual_call {
        words_behind(alloc, links, heap, types.params(), entry.args.items())
    } else {
        fitting_words(alloc, links, heap, types.params(), entry.args.items())
    }
}

// The words of an entry's arguments, where they fit.
fn entry_words<L: LookUps>(
    alloc: Global,
    links: &L,
    heap: &Heap,
    entry: &Entry,
) -> Result<Option<Row<Value>>, NoMemory>
    requires { has_receiver entry.now ≡ true }
    ensures is { IfOk result (λ words. words ≡ entry_words (by_token (L.loaded links.now)) heap.now entry.now) }
    ensures fit { IfOk result (λ words. IfSome words (All IsWord)) }
{
    let types = signature_of(alloc, entry.method.desc.items())?;
    words_for(alloc, links, heap, entry, types)
}

/// The next entry, after its acts, or the end.
pub(crate) fn begin<L: LookUps>(
    alloc: Global,
    links: &L,
    machine: &mut Machine<'_>,
) -> Result<Begun, NoMemory>
    ensures next { IfOk result (λ begun. Starts machine.old.entries (begins (by_token (L.loaded links.now)) []
        machine.old.entries machine.old) begun machine.new) }
    ensures frames { OnOk result (machine.new.frames ≡ machine.old.frames) }
    ensures most { OnOk result (objects_at_most machine.new ≤ objects_at_most machine.old) }
    ensures spent { OnOk result (machine.new.spent ≡ machine.old.spent) }
{
    let Some((entry, rest)) = machine.entries.split_first() else {
        return Ok(Begun::Ended(Outcome::Done));
    };
    machine.entries = rest;
    if !perform(alloc, links, &mut machine.heap, entry.acts.items())? {
        return Ok(Begun::Ended(Outcome::Unfit(entry.number)));
    }
    let Some(start) = entry_start(links, &machine.heap, entry) else {
        return Ok(Begun::Ended(Outcome::Unfit(entry.number)));
    };
    let Some(words) = entry_words(alloc, links, &machine.heap, entry)? else {
        return Ok(Begun::Ended(Outcome::Unfit(entry.number)));
    };
    let frame = Frame::enter(alloc, start, words.items())?;
    Ok(Begun::Frame(frame))
}
