//! Arguments taken off the stack of the caller, deepest first, and set as the first locals of the method that
//! is called.

ghost use Rattle.std.specs.Prelude.{◌≡◌, ◌≤◌, ◌++◌, length, reverse, slice_get, take, IfOk, OnOk};
ghost use Rattle.std.specs.List.{All};
ghost use Rattle.cjc_card_semantics.specs.Bytecode.Machine.{locals_of};
ghost use Rattle.cjc_card_frame.specs.Frame.Frames.{IsLocal, IsWord};

use crate::frame::Cells;
use cjc_card_semantics::bytes::{NoMemory, Row};
use cjc_card_semantics::script::Value;
use std::alloc::Global;

/// The top words, the deepest first.
#[tactic(auto, using(crate::proofs::FramesLaws::Cells::none_taken))]
pub fn arguments(alloc: Global, cells: &Cells, count: usize) -> Result<Row<Value>, NoMemory>
    requires { count ≤ length cells.now.stack }
    ensures is { IfOk result (λ args. args ≡ reverse (take count cells.now.stack)) }
    ensures fit { IfOk result (λ args. All IsWord args) }
{
    let mut args = Row::new(alloc);
    let mut left = count;
    'words: while left > 0 {
        left -= 1;
        let Some(word) = cells.word(left) else {
            return Err(NoMemory);
        };
        args.push(word)?;
    }
    Ok(args)
}

/// The word in a place, where there is one.
fn word_at(words: &[Value], place: usize) -> Option<Value>
    ensures { result ≡ slice_get words.now place }
{
    words.get(place).copied()
}

/// As many locals as a method has cells: the arguments, and others that are not set.
pub(crate) fn locals_of(
    alloc: Global,
    nargs: u8,
    max_locals: u8,
    args: &[Value],
) -> Result<Vec<Option<Value>>, NoMemory>
    requires { All IsWord args.now }
    ensures is { IfOk result (λ locals. locals.items ≡ locals_of nargs max_locals args.now) }
    ensures fit { IfOk result (λ locals. All IsLocal locals.items) }
{
    let count = usize::from(nargs) + usize::from(max_locals);
    let mut locals = Vec::new(alloc);
    for i in 0..count {
        locals.push(word_at(args, i))?;
    }
    Ok(locals)
}

/// Puts words on top of the stack, the first of them deepest.
#[tactic(auto, using(crate::proofs::FramesLaws::Cells::one_put))]
pub(crate) fn put_words(cells: &mut Cells, words: &[Value]) -> Result<(), NoMemory>
    requires { All IsWord words.now }
    ensures { OnOk result (cells.new ≡ record cells.old { stack = reverse words.now ++ cells.old.stack }) }
{
    for word in words {
        cells.put(0, *word)?;
    }
    Ok(())
}
