//! One line of a script: an act, a call that a run begins with, or an answer to an imported call.

ghost use Rattle.std.specs.Prelude.{◌≡◌, ◌<◌, ◌^◌, length};
ghost use Rattle.cjc_list.specs.Bytes.Found.{Finds, kept};
ghost use Rattle.cjc_script_text.specs.Grammar.{call_of, send_of, give_of, throw_of, array_act, object_act, put_act};
ghost use Rattle.cjc_script_text.specs.Grammar.{act_or_reply_of, item_by, item_of, said};
ghost use Rattle.cjc_script_text.specs.Working.{AreShort};

use crate::word::{
    is_array, is_name, read_method, read_number, read_reference, read_value, read_values,
};
use cjc_list::bytes::{Bytes, Line, MemberId, Row, Stop, Word, words};
use cjc_script::{Act, Reply, Value};
use std::alloc::Global;

/// What a line says.
#[derive(Drop)]
pub(crate) enum Item {
    Act(Act),
    /// A call, on the object that stands first in `args` where it is virtual.
    Call {
        virtual_call: bool,
        method: MemberId,
        args: Row<Value>,
    },
    Reply(Reply),
}

/// `CLASS METHOD VALUE*` behind `call`.
#[tactic(auto, unfolding(crate::specs::Grammar::call_of))]
fn read_call(alloc: Global, at: u32, words: &[Word<'_>]) -> Result<Item, Stop>
    requires { AreShort words.now }
    ensures { Finds (λ i. i) (kept at (call_of words.now)) result }
{
    match words {
        [class, method, values @ ..] => {
            let method = read_method(alloc, at, class.bytes(), method.bytes())?;
            let args = read_values(alloc, at, values)?;
            Ok(Item::Call {
                virtual_call: false,
                method,
                args,
            })
        }
        _ => Err(Stop::Broken(at)),
    }
}

/// `CLASS METHOD REF VALUE*` behind `send`.
#[tactic(auto, unfolding(crate::specs::Grammar::send_of))]
fn read_send(alloc: Global, at: u32, words: &[Word<'_>]) -> Result<Item, Stop>
    requires { AreShort words.now }
    ensures { Finds (λ i. i) (kept at (send_of words.now)) result }
{
    match words {
        [class, method, receiver, ..] => {
            if read_reference(receiver.bytes()).is_none() {
                return Err(Stop::Broken(at));
            }
            let method = read_method(alloc, at, class.bytes(), method.bytes())?;
            let args = read_values(alloc, at, &words[2..])?;
            Ok(Item::Call {
                virtual_call: true,
                method,
                args,
            })
        }
        _ => Err(Stop::Broken(at)),
    }
}

/// Nothing or `VALUE` behind `give`.
#[tactic(auto, unfolding(crate::specs::Grammar::give_of))]
fn read_give(at: u32, words: &[Word<'_>]) -> Result<Item, Stop>
    ensures { Finds (λ i. i) (kept at (give_of words.now)) result }
{
    match words {
        [] => Ok(Item::Reply(Reply::Give(None))),
        [value] => {
            let value = read_value(value.bytes()).ok_or(Stop::Broken(at))?;
            Ok(Item::Reply(Reply::Give(Some(value))))
        }
        _ => Err(Stop::Broken(at)),
    }
}

/// `CLASS` behind `throw`.
#[tactic(auto, unfolding(crate::specs::Grammar::throw_of))]
fn read_throw(alloc: Global, at: u32, words: &[Word<'_>]) -> Result<Item, Stop>
    ensures { Finds (λ i. i) (kept at (throw_of words.now)) result }
{
    match words {
        [class] if is_name(class.bytes()) => {
            let class = Bytes::copy_of(alloc, class.bytes())?;
            Ok(Item::Reply(Reply::Throw(class)))
        }
        _ => Err(Stop::Broken(at)),
    }
}

/// `DESC LENGTH` behind `array`.
#[tactic(auto, unfolding(crate::specs::Grammar::array_act))]
fn read_array(alloc: Global, at: u32, words: &[Word<'_>]) -> Result<Item, Stop>
    ensures { Finds (λ i. i) (kept at (array_act words.now)) result }
{
    match words {
        [desc, length] if is_array(desc.bytes()) => {
            let length = read_number(length.bytes()).ok_or(Stop::Broken(at))?;
            let desc = Bytes::copy_of(alloc, desc.bytes())?;
            Ok(Item::Act(Act::Array { desc, length }))
        }
        _ => Err(Stop::Broken(at)),
    }
}

/// `CLASS` behind `object`.
#[tactic(auto, unfolding(crate::specs::Grammar::object_act))]
fn read_object(alloc: Global, at: u32, words: &[Word<'_>]) -> Result<Item, Stop>
    ensures { Finds (λ i. i) (kept at (object_act words.now)) result }
{
    match words {
        [class] if is_name(class.bytes()) => {
            let class = Bytes::copy_of(alloc, class.bytes())?;
            Ok(Item::Act(Act::Object { class }))
        }
        _ => Err(Stop::Broken(at)),
    }
}

/// `REF INDEX VALUE` behind `put`.
#[tactic(auto, unfolding(crate::specs::Grammar::put_act))]
fn read_put(at: u32, words: &[Word<'_>]) -> Result<Item, Stop>
    ensures { Finds (λ i. i) (kept at (put_act words.now)) result }
{
    match words {
        [array, index, value] => {
            let array = read_reference(array.bytes()).ok_or(Stop::Broken(at))?;
            let index = read_number(index.bytes()).ok_or(Stop::Broken(at))?;
            let value = read_value(value.bytes()).ok_or(Stop::Broken(at))?;
            Ok(Item::Act(Act::Put {
                array,
                index,
                value,
            }))
        }
        _ => Err(Stop::Broken(at)),
    }
}

/// What the words behind a keyword say that begins no call.
fn read_act_or_reply(
    alloc: Global,
    at: u32,
    keyword: &[u8],
    words: &[Word<'_>],
) -> Result<Item, Stop>
    ensures { Finds (λ i. i) (kept at (act_or_reply_of keyword.now words.now)) result }
{
    if keyword == b"give".as_slice() {
        return read_give(at, words);
    }
    if keyword == b"throw".as_slice() {
        return read_throw(alloc, at, words);
    }
    if keyword == b"array".as_slice() {
        return read_array(alloc, at, words);
    }
    if keyword == b"object".as_slice() {
        return read_object(alloc, at, words);
    }
    if keyword == b"put".as_slice() {
        return read_put(at, words);
    }
    Err(Stop::Broken(at))
}

/// What the words behind a keyword say.
fn read_by(alloc: Global, at: u32, keyword: &[u8], words: &[Word<'_>]) -> Result<Item, Stop>
    requires { AreShort words.now }
    ensures { Finds (λ i. i) (kept at (item_by keyword.now words.now)) result }
{
    if keyword == b"call".as_slice() {
        return read_call(alloc, at, words);
    }
    if keyword == b"send".as_slice() {
        return read_send(alloc, at, words);
    }
    read_act_or_reply(alloc, at, keyword, words)
}

/// What the words of a line say.
fn read_words(alloc: Global, at: u32, words: &[Word<'_>]) -> Result<Item, Stop>
    requires { AreShort words.now }
    ensures { Finds (λ i. i) (kept at (item_of words.now)) result }
{
    match words {
        [] => Err(Stop::Broken(at)),
        [keyword, rest @ ..] => read_by(alloc, at, keyword.bytes(), rest),
    }
}

/// What a line says.
#[tactic(auto, using(crate::proofs::Short::short_words))]
pub(crate) fn read_item(alloc: Global, line: &Line<'_>) -> Result<Item, Stop>
    requires { length line.now.text < 2 ^ 32 }
    ensures { Finds (λ i. i) (said line.now) result }
{
    let at = line.at();
    let words = words(alloc, line.text())?.ok_or(Stop::Broken(at))?;
    read_words(alloc, at, words.items())
}
