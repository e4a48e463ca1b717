//! What opcodes take and give that see the stack and the locals alone, by their operands.

ghost use Rattle.std.specs.Prelude.{◌≡◌, ◌<◌, ◌≤◌, ◌+◌, ◌^◌, IfOk};
ghost use Rattle.cjc_card_acts.specs.Rows.{calculating, copying, copying_below, idle, increasing, loading};
ghost use Rattle.cjc_card_acts.specs.Rows.{loading_item, pushing, storing, storing_item, swapping, swapping_by};
ghost use Rattle.cjc_card_acts.specs.Rows.{unknown};
ghost use Rattle.cjc_card_frame.specs.Meanings.{letter_of};
ghost use Rattle.cjc_card_frame.specs.LowerCardSemantics.Bytecode.Calculations.{is_copy, is_swap};
ghost use Rattle.cjc_card_frame.specs.LowerCardSemantics.Bytecode.Effects.{Int, Short};

use crate::words;
use cjc_card_frame::opcodes::Letter;
use cjc_check_rules::bytes::{NoMemory, Row};
use cjc_frames::{Act, Given, Need};
use std::alloc::Global;

/// Nothing is taken, given or broken, and the next instruction follows.
pub fn idle(alloc: Global) -> Act
    ensures { result ≡ idle }
{
    Act {
        takes: Row::new(alloc),
        reads: Row::new(alloc),
        gives: Row::new(alloc),
        writes: Row::new(alloc),
        falls: true,
        targets: Row::new(alloc),
        ends: false,
        misfits: false,
        is_unknown: false,
        misnames: false,
    }
}

/// Words are put.
pub fn pushing(alloc: Global, words: Row<Given>) -> Act
    ensures { result ≡ pushing words }
{
    let mut act = idle(alloc);
    act.gives = words;
    act
}

/// An operand that the instruction may not have.
pub fn unknown(alloc: Global) -> Act
    ensures { result ≡ unknown }
{
    let mut act = idle(alloc);
    act.is_unknown = true;
    act
}

/// What is loaded from a local.
pub fn loading(alloc: Global, letter: Letter, local: u32) -> Result<Act, NoMemory>
    requires { local < 2 ^ 31 }
    ensures { IfOk result (λ act. act ≡ loading (letter_of letter) local) }
{
    let mut act = idle(alloc);
    match letter {
        Letter::Reference => {
            act.reads = words::reading(alloc, local, Need::ReferenceWord)?;
            act.gives.push(Given::Local(local))?;
        }
        Letter::Byte => {
            act.reads = words::reading(alloc, local, Need::NumberWord)?;
            act.gives.push(Given::ANumber)?;
        }
        Letter::Short => {
            act.reads = words::reading(alloc, local, Need::NumberWord)?;
            act.gives.push(Given::ANumber)?;
        }
        Letter::Int => {
            act.reads = words::reading_int(alloc, local)?;
            act.gives.push(Given::ANumber)?;
            act.gives.push(Given::ANumber)?;
        }
    }
    Ok(act)
}

/// What is stored into a local.
pub fn storing(alloc: Global, letter: Letter, local: u32) -> Result<Act, NoMemory>
    requires { local < 2 ^ 31 }
    ensures { IfOk result (λ act. act ≡ storing (letter_of letter) local) }
{
    let mut act = idle(alloc);
    act.takes = words::letter_needs(alloc, letter)?;
    act.writes = match letter {
        Letter::Reference => words::writing(alloc, local, Given::Reference(0))?,
        Letter::Byte => words::writing(alloc, local, Given::ANumber)?,
        Letter::Short => words::writing(alloc, local, Given::ANumber)?,
        Letter::Int => words::writing_int(alloc, local)?,
    };
    Ok(act)
}

/// A number in a local is increased, of one word.
fn increasing_word(alloc: Global, local: u32) -> Result<Act, NoMemory>
    ensures { IfOk result (λ act. act ≡ increasing Short local) }
{
    let mut act = idle(alloc);
    act.reads = words::reading(alloc, local, Need::NumberWord)?;
    act.writes = words::writing(alloc, local, Given::ANumber)?;
    Ok(act)
}

/// The same of an int.
fn increasing_int(alloc: Global, local: u32) -> Result<Act, NoMemory>
    requires { local < 2 ^ 31 }
    ensures { IfOk result (λ act. act ≡ increasing Int local) }
{
    let mut act = idle(alloc);
    act.reads = words::reading_int(alloc, local)?;
    act.writes = words::writing_int(alloc, local)?;
    Ok(act)
}

/// A number in a local is increased.
pub fn increasing(alloc: Global, letter: Letter, local: u32) -> Result<Act, NoMemory>
    requires { local < 2 ^ 31 }
    ensures { IfOk result (λ act. act ≡ increasing (letter_of letter) local) }
{
    match letter {
        Letter::Reference => increasing_word(alloc, local),
        Letter::Byte => increasing_word(alloc, local),
        Letter::Short => increasing_word(alloc, local),
        Letter::Int => increasing_int(alloc, local),
    }
}

/// The top words once more, below so many words.
pub fn copying(alloc: Global, words: u8, below: u8) -> Result<Act, NoMemory>
    ensures { IfOk result (λ act. act ≡ copying words below) }
{
    let mut act = idle(alloc);
    act.takes = words::any_words(alloc, below)?;
    words::put_operands(&mut act.gives, 0, below)?;
    words::put_operands(&mut act.gives, 0, words)?;
    Ok(act)
}

/// The top words and those beneath change places.
pub fn swapping(alloc: Global, top: u8, beneath: u8) -> Result<Act, NoMemory>
    requires { top + beneath ≤ 255 }
    ensures { IfOk result (λ act. act ≡ swapping top beneath) }
{
    let mut act = idle(alloc);
    act.takes = words::any_words(alloc, top + beneath)?;
    words::put_operands(&mut act.gives, top, beneath)?;
    words::put_operands(&mut act.gives, 0, top)?;
    Ok(act)
}

/// Whether dup_x may have these numbers.
fn is_copy(words: u8, below: u8) -> bool
    requires { words ≤ 15 }
    ensures { result ≡ is_copy words below }
{
    (1 <= words && words <= 4) && ((below == 0) || (words <= below && below <= words + 4))
}

/// Whether swap_x may have this number.
fn is_swap(words: u8) -> bool
    ensures { result ≡ is_swap words }
{
    words == 1 || words == 2
}

/// dup_x, by two nibbles: no words below is as many as are copied.
pub fn copying_below(alloc: Global, operand: u8) -> Result<Act, NoMemory>
    ensures { IfOk result (λ act. act ≡ copying_below operand) }
{
    let words = operand / 16;
    let below = operand % 16;
    if !is_copy(words, below) {
        return Ok(unknown(alloc));
    }
    copying(alloc, words, if below == 0 { words } else { below })
}

/// swap_x, by two nibbles.
pub fn swapping_by(alloc: Global, operand: u8) -> Result<Act, NoMemory>
    ensures { IfOk result (λ act. act ≡ swapping_by operand) }
{
    let top = operand / 16;
    let beneath = operand % 16;
    if is_swap(top) && is_swap(beneath) {
        return swapping(alloc, top, beneath);
    }
    Ok(unknown(alloc))
}

/// Numbers of numbers.
pub fn calculating(alloc: Global, operands: u8, results: u8) -> Result<Act, NoMemory>
    ensures { IfOk result (λ act. act ≡ calculating operands results) }
{
    let mut act = idle(alloc);
    act.takes = words::number_words(alloc, operands)?;
    act.gives = words::numbers(alloc, results)?;
    Ok(act)
}

/// An element is loaded.
pub fn loading_item(alloc: Global, letter: Letter) -> Result<Act, NoMemory>
    ensures { IfOk result (λ act. act ≡ loading_item (letter_of letter)) }
{
    let mut act = idle(alloc);
    words::put_item(alloc, &mut act.takes, letter)?;
    act.gives = words::items_of(alloc, letter)?;
    Ok(act)
}

/// An element is stored.
pub fn storing_item(alloc: Global, letter: Letter) -> Result<Act, NoMemory>
    ensures { IfOk result (λ act. act ≡ storing_item (letter_of letter)) }
{
    let mut act = idle(alloc);
    act.takes = words::letter_needs(alloc, letter)?;
    words::put_item(alloc, &mut act.takes, letter)?;
    Ok(act)
}
