//! What instructions take off the stack, and what they put onto it, by the letters of their names.

ghost use Rattle.std.specs.Prelude.{◌≡◌, ◌+◌, ◌≤◌, ◌∷◌, [], ℤ, List, length, drop, true, IfOk, IfSome};
ghost use Rattle.cjc_card_semantics.specs.Script.declared.value.Value.{Value};
ghost use Rattle.cjc_card_semantics.specs.Script.declared.value.Value.TheVariants.{Num};
ghost use Rattle.cjc_card_semantics.specs.Bytecode.Calculations.{int_words, is_reference, one_number, one_value};
ghost use Rattle.cjc_card_semantics.specs.Bytecode.Effects.{Stick, one_reference, onward, operand, receiver, with_some};
ghost use Rattle.cjc_card_semantics.specs.Bytecode.Effects.{word_of, words_of};
ghost use Rattle.cjc_card_frame.specs.Meanings.{letter_of};
ghost use Rattle.cjc_card_frame.specs.Frame.Frames.{IsWord};
ghost use Rattle.cjc_card_frame.specs.Cells.{Fits};
ghost use Rattle.cjc_card_step.specs.Effects.Deeds.{EffectByToken, FollowsAlone};

use crate::effects::deed::Deed;
use cjc_card_frame::frame::Cells;
use cjc_card_frame::frame::words::{low_byte, low_word};
use cjc_card_frame::opcodes::Letter;
use cjc_card_semantics::bytes::NoMemory;
use cjc_card_semantics::script::Value;

/// A word in the place of so many on top of the stack, where there is room.
pub(crate) fn put_word<'a>(
    cells: &mut Cells,
    room: usize,
    taken: usize,
    word: Value,
) -> Result<Deed<'a>, NoMemory>
    requires there { taken ≤ length cells.old.stack }
    requires fits { IsWord word }
    ensures { IfOk result (λ deed. FollowsAlone (λ next locals m stack. onward (word ∷ []) room next locals m
        (drop taken stack)) deed cells.old cells.new) }
{
    if cells.height() - taken < room {
        cells.put(taken, word)?;
        Ok(Deed::Go)
    } else {
        Ok(Deed::Stick)
    }
}

/// An int in the place of so many words on top of the stack, where there is room.
pub(crate) fn put_int<'a>(
    cells: &mut Cells,
    room: usize,
    taken: usize,
    number: i32,
) -> Result<Deed<'a>, NoMemory>
    requires { taken ≤ length cells.old.stack }
    ensures { IfOk result (λ deed. FollowsAlone (λ next locals m stack. onward (int_words number) room next locals m
        (drop taken stack)) deed cells.old cells.new) }
{
    if room >= 2 && cells.height() - taken <= room - 2 {
        cells.put_int(taken, number)?;
        Ok(Deed::Go)
    } else {
        Ok(Deed::Stick)
    }
}

/// A number in the place of so many words on top of the stack, where it has 16 bits and there is room.
fn put_if_word<'a>(
    cells: &mut Cells,
    room: usize,
    taken: usize,
    number: i32,
) -> Result<Deed<'a>, NoMemory>
    requires { taken ≤ length cells.old.stack }
    ensures { IfOk result (λ deed. FollowsAlone (λ next locals m stack. word_of number Stick (λ words. onward words room
        next locals m (drop taken stack))) deed cells.old cells.new) }
{
    if -32768 <= number && number <= 32767 {
        Ok(put_word(cells, room, taken, Value::Num(number))?)
    } else {
        Ok(Deed::Stick)
    }
}

/// A number of a letter in the place of so many words on top of the stack, where it is of the letter's kind and
/// there is room.
fn put_number<'a>(
    cells: &mut Cells,
    room: usize,
    taken: usize,
    letter: Letter,
    number: i32,
) -> Result<Deed<'a>, NoMemory>
    requires { taken ≤ length cells.old.stack }
    ensures { IfOk result (λ deed. FollowsAlone (λ next locals m stack. words_of (letter_of letter) (Num number) Stick
        (λ words. onward words room next locals m (drop taken stack))) deed cells.old cells.new) }
{
    match letter {
        Letter::Reference => Ok(Deed::Stick),
        Letter::Int => Ok(put_int(cells, room, taken, number)?),
        Letter::Byte => Ok(put_if_word(cells, room, taken, number)?),
        Letter::Short => Ok(put_if_word(cells, room, taken, number)?),
    }
}

/// A reference of a letter in the place of so many words on top of the stack, where it is of the letter's kind
/// and there is room.
fn put_reference<'a>(
    cells: &mut Cells,
    room: usize,
    taken: usize,
    letter: Letter,
    word: Value,
) -> Result<Deed<'a>, NoMemory>
    requires there { taken ≤ length cells.old.stack }
    requires reference { is_reference word ≡ true }
    ensures { IfOk result (λ deed. FollowsAlone (λ next locals m stack. words_of (letter_of letter) word Stick
        (λ words. onward words room next locals m (drop taken stack))) deed cells.old cells.new) }
{
    match letter {
        Letter::Reference => Ok(put_word(cells, room, taken, word)?),
        Letter::Byte => Ok(Deed::Stick),
        Letter::Short => Ok(Deed::Stick),
        Letter::Int => Ok(Deed::Stick),
    }
}

/// What a cell, a field or an element holds, in the place of so many words on top of the stack, where it is of the
/// letter's kind and there is room.
pub(crate) fn put_value<'a>(
    cells: &mut Cells,
    room: usize,
    taken: usize,
    letter: Letter,
    value: Value,
) -> Result<Deed<'a>, NoMemory>
    requires { taken ≤ length cells.old.stack }
    ensures { IfOk result (λ deed. FollowsAlone (λ next locals m stack. words_of (letter_of letter) value Stick
        (λ words. onward words room next locals m (drop taken stack))) deed cells.old cells.new) }
{
    match value {
        Value::Num(number) => Ok(put_number(cells, room, taken, letter, number)?),
        Value::Null => Ok(put_reference(cells, room, taken, letter, Value::Null)?),
        Value::Obj(k) => Ok(put_reference(cells, room, taken, letter, Value::Obj(k))?),
    }
}

/// Whatever an array of references holds, in the place of so many words on top of the stack, where there is
/// room. No memory is there for a number that no word holds.
pub(crate) fn put_any<'a>(
    cells: &mut Cells,
    room: usize,
    taken: usize,
    value: Value,
) -> Result<Deed<'a>, NoMemory>
    requires { taken ≤ length cells.old.stack }
    ensures { IfOk result (λ deed. FollowsAlone (λ next locals m stack. onward (value ∷ []) room next locals m
        (drop taken stack)) deed cells.old cells.new) }
{
    match value {
        Value::Num(number) => {
            if number < -32768 || number > 32767 {
                return Err(NoMemory);
            }
            Ok(put_word(cells, room, taken, Value::Num(number))?)
        }
        Value::Null => Ok(put_word(cells, room, taken, Value::Null)?),
        Value::Obj(number) => Ok(put_word(cells, room, taken, Value::Obj(number))?),
    }
}

/// The number on top of a value, below so many words.
#[tactic(auto, using(crate::proofs::EffectsLaws::Stacks::number_value))]
pub(crate) fn value_and_number(cells: &Cells, depth: usize) -> Option<(Value, i32)>
    requires { depth ≤ 2 }
    ensures is { (go : ℤ → Value → List Value → EffectByToken) → one_number Stick (drop depth cells.now.stack)
        (λ i below. one_value Stick below (go i)) ≡ with_some Stick result
        (λ p. go p.1 p.0 (drop (depth + 2) cells.now.stack)) }
    ensures there { IfSome result (λ p. depth + 2 ≤ length cells.now.stack) }
{
    match (cells.number(depth), cells.word(depth + 1)) {
        (Some(number), Some(value)) => Some((value, number)),
        (None, _) => None,
        (_, None) => None,
    }
}

/// The reference on top of the stack.
fn reference(cells: &Cells) -> Option<Value>
    ensures is { (go : Value → List Value → EffectByToken) → one_reference Stick cells.now.stack go
        ≡ with_some Stick result (λ v. go v (drop 1 cells.now.stack)) }
    ensures there { IfSome result (λ v. 1 ≤ length cells.now.stack) }
{
    match cells.word(0) {
        Some(Value::Num(_)) => None,
        Some(Value::Null) => Some(Value::Null),
        Some(Value::Obj(number)) => Some(Value::Obj(number)),
        None => None,
    }
}

/// What a letter takes off the stack for a cell, a field or an element, and how many words that is.
#[tactic(auto, using(cjc_card_frame::proofs::FrameLaws::Tops::top_number, cjc_card_frame::proofs::FrameLaws::Tops::top_int, cjc_card_frame::proofs::FrameLaws::Tops::number_high, cjc_card_frame::proofs::FrameLaws::Tops::int_high))]
pub(crate) fn operand(cells: &Cells, letter: Letter) -> Option<(Value, usize)>
    ensures is { (go : Value → List Value → EffectByToken) → operand (letter_of letter) Stick cells.now.stack go
        ≡ with_some Stick result (λ p. go p.0 (drop p.1 cells.now.stack)) }
    ensures few { IfSome result (λ p. p.1 ≤ 2) }
    ensures there { IfSome result (λ p. p.1 ≤ length cells.now.stack) }
    ensures fits { IfSome result (λ p. Fits (letter_of letter) p.0) }
{
    match letter {
        Letter::Reference => match reference(cells) {
            Some(value) => Some((value, 1)),
            None => None,
        },
        Letter::Byte => match cells.number(0) {
            Some(number) => Some((Value::Num(low_byte(number)), 1)),
            None => None,
        },
        Letter::Short => match cells.number(0) {
            Some(number) => Some((Value::Num(low_word(number)), 1)),
            None => None,
        },
        Letter::Int => match cells.int(0) {
            Some(number) => Some((Value::Num(number), 2)),
            None => None,
        },
    }
}

/// The reference below so many words, or local 0, and the words above and with it.
pub(crate) fn receiver(cells: &Cells, this: bool, depth: usize) -> Option<(Value, usize)>
    requires few { depth ≤ 2 }
    requires there { depth ≤ length cells.now.stack }
    ensures is { (go : Value → List Value → EffectByToken) → receiver this cells.now.locals (drop depth cells.now.stack)
        go ≡ with_some Stick result (λ p. go p.0 (drop p.1 cells.now.stack)) }
    ensures there { IfSome result (λ p. p.1 ≤ length cells.now.stack) }
{
    if this {
        match cells.local(0) {
            Some(Some(value)) => Some((value, depth)),
            Some(None) => None,
            None => None,
        }
    } else {
        match cells.word(depth) {
            Some(value) => Some((value, depth + 1)),
            None => None,
        }
    }
}
