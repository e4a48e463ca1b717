//! What rows take and give that see the stack and the locals alone, by the operands of an instruction. Called by
//! `acts`.

ghost use Rattle.std.specs.Prelude.{◌≡◌, ◌∷◌, ◌<◌, ◌^◌, [], replicate, None, IfOk, IfSome};
ghost use Rattle.cjc_capread.specs.Decoder.Decoded.{values};
ghost use Rattle.cjc_card_acts.specs.CardTypes.{all_arrays};
ghost use Rattle.cjc_card_acts.specs.Rows.{any_words, copying_below, idle, increasing, loading, pushing};
ghost use Rattle.cjc_card_acts.specs.Rows.{storing, swapping_by, unknown, with_local, with_number};
ghost use Rattle.cjc_card_acts.specs.CardFrame.Meanings.{letter_of};
ghost use Rattle.cjc_card_acts.specs.LowerFrames.declared.acts.Given.TheVariants.{ANull, ANumber};
ghost use Rattle.cjc_card_acts.specs.LowerFrames.declared.acts.Need.TheVariants.{OfArrays};
ghost use Rattle.cjc_verify.specs.Working.Operands.{local_by, natural, natural_of};

use cjc_bytes::{Bytes, NoMemory, Row};
use cjc_capread::decoder::Operands;
use cjc_card_acts::frames::{Act, Given, Need};
use cjc_card_acts::rows::{self, idle, pushing, unknown};
use cjc_card_acts::words;
use cjc_card_calls::card_frame::opcodes::Letter;
use std::alloc::Global;

/// A number from 0 on.
fn natural(number: i32) -> Option<u32>
    ensures is { result ≡ natural number }
    ensures small { IfSome result (λ n. n < 2 ^ 31) }
{
    if number >= 0 {
        Some(number as u32)
    } else {
        None
    }
}

/// The first operand, where it is a number from 0 on.
pub(crate) fn number_of(operands: Operands) -> Option<u32>
    ensures is { result ≡ natural_of (values operands) }
    ensures small { IfSome result (λ n. n < 2 ^ 31) }
{
    match operands {
        Operands::None => None,
        Operands::One(first) => natural(first),
        Operands::Two(first, _) => natural(first),
        Operands::Three(first, _, _) => natural(first),
    }
}

/// So many numbers that are put.
pub(crate) fn pushing_numbers(alloc: Global, count: u8) -> Result<Act, NoMemory>
    ensures { IfOk result (λ act. act ≡ pushing (replicate count ANumber)) }
{
    Ok(pushing(alloc, words::numbers(alloc, count)?))
}

/// Null is put.
pub(crate) fn pushing_null(alloc: Global) -> Result<Act, NoMemory>
    ensures { IfOk result (λ act. act ≡ pushing (ANull ∷ [])) }
{
    let mut words = Row::new(alloc);
    words.push(Given::ANull)?;
    Ok(pushing(alloc, words))
}

/// So many words of any kind are taken.
pub(crate) fn popping(alloc: Global, count: u8) -> Result<Act, NoMemory>
    ensures { IfOk result (λ act. act ≡ record idle { takes = any_words count }) }
{
    let mut act = idle(alloc);
    act.takes = words::any_words(alloc, count)?;
    Ok(act)
}

/// arraylength.
pub(crate) fn counting_items(alloc: Global) -> Result<Act, NoMemory>
    ensures { IfOk result (λ act. act ≡ record idle { takes = OfArrays all_arrays ∷ []; gives = ANumber ∷ [] }) }
{
    let mut act = idle(alloc);
    let arrays = Bytes::copy_of(alloc, &[0xA, 0xB, 0xC, 0xD, 0xE])?;
    act.takes.push(Need::OfArrays(arrays))?;
    act.gives.push(Given::ANumber)?;
    Ok(act)
}

/// The local of a number, or of the operand; where the operand names none, none.
fn local_of(local: Option<u8>, operands: Operands) -> Option<u32>
    ensures is { result ≡ local_by local (values operands) }
    ensures small { IfSome result (λ n. n < 2 ^ 31) }
{
    match local {
        Some(local) => Some(u32::from(local)),
        None => number_of(operands),
    }
}

/// What a local holds is loaded.
#[tactic(auto, using(crate::proofs::Operands::by_local, crate::proofs::Operands::no_local))]
pub(crate) fn loading(
    alloc: Global,
    letter: Letter,
    local: Option<u8>,
    operands: Operands,
) -> Result<Act, NoMemory>
    ensures { IfOk result (λ act. act ≡ with_local (loading (letter_of letter)) local (values operands)) }
{
    match local_of(local, operands) {
        Some(local) => rows::loading(alloc, letter, local),
        None => Ok(idle(alloc)),
    }
}

/// What is on top is stored into a local.
#[tactic(auto, using(crate::proofs::Operands::by_local, crate::proofs::Operands::no_local))]
pub(crate) fn storing(
    alloc: Global,
    letter: Letter,
    local: Option<u8>,
    operands: Operands,
) -> Result<Act, NoMemory>
    ensures { IfOk result (λ act. act ≡ with_local (storing (letter_of letter)) local (values operands)) }
{
    match local_of(local, operands) {
        Some(local) => rows::storing(alloc, letter, local),
        None => Ok(idle(alloc)),
    }
}

/// The number in a local is increased.
#[tactic(auto, using(crate::proofs::Operands::by_local, crate::proofs::Operands::no_local))]
pub(crate) fn increasing(alloc: Global, letter: Letter, operands: Operands) -> Result<Act, NoMemory>
    ensures { IfOk result (λ act. act ≡ with_local (increasing (letter_of letter)) None (values operands)) }
{
    match local_of(None, operands) {
        Some(local) => rows::increasing(alloc, letter, local),
        None => Ok(idle(alloc)),
    }
}

/// dup_x.
#[tactic(auto, using(crate::proofs::Operands::by_number, crate::proofs::Operands::no_number, crate::proofs::Operands::no_copy))]
pub(crate) fn copying_below(alloc: Global, operands: Operands) -> Result<Act, NoMemory>
    ensures { IfOk result (λ act. act ≡ with_number copying_below (values operands)) }
{
    match number_of(operands) {
        Some(nibbles) if nibbles < 256 => rows::copying_below(alloc, nibbles as u8),
        _ => Ok(unknown(alloc)),
    }
}

/// swap_x.
#[tactic(auto, using(crate::proofs::Operands::by_number, crate::proofs::Operands::no_number, crate::proofs::Operands::no_swap))]
pub(crate) fn swapping_by(alloc: Global, operands: Operands) -> Result<Act, NoMemory>
    ensures { IfOk result (λ act. act ≡ with_number swapping_by (values operands)) }
{
    match number_of(operands) {
        Some(nibbles) if nibbles < 256 => rows::swapping_by(alloc, nibbles as u8),
        _ => Ok(unknown(alloc)),
    }
}
