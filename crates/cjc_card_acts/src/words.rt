//! Words that rows of opcodes take, give, read and write, as rows in memory.

ghost use Rattle.std.specs.Prelude.{◌≡◌, ◌<◌, ◌≤◌, ◌+◌, ◌^◌, ◌++◌, ◌∷◌, [], replicate, IfOk, OnOk};
ghost use Rattle.cjc_card_acts.specs.CardTypes.{arrays_of};
ghost use Rattle.cjc_card_acts.specs.Rows.{any_words, items_of, letter_needs, number_words, operands_from, reading};
ghost use Rattle.cjc_card_acts.specs.Rows.{reading_int, writing, writing_int};
ghost use Rattle.cjc_card_frame.specs.Meanings.{letter_of};
ghost use Rattle.cjc_frames.specs.declared.acts.Given.TheVariants.{ANumber};
ghost use Rattle.cjc_frames.specs.declared.acts.Need.TheVariants.{NumberWord, OfArrays, ReferenceWord};

use cjc_card_frame::opcodes::Letter;
use cjc_check_rules::bytes::{Bytes, NoMemory, Row};
use cjc_frames::{Given, Need, Read, Write};
use std::alloc::Global;

/// So many words of any kind.
pub fn any_words(alloc: Global, count: u8) -> Result<Row<Need>, NoMemory>
    ensures { IfOk result (λ needs. needs ≡ any_words count) }
{
    let mut needs = Row::new(alloc);
    for _ in 0..count {
        needs.push(Need::AnyWord)?;
    }
    Ok(needs)
}

/// So many numbers.
pub fn number_words(alloc: Global, count: u8) -> Result<Row<Need>, NoMemory>
    ensures { IfOk result (λ needs. needs ≡ number_words count) }
{
    let mut needs = Row::new(alloc);
    for _ in 0..count {
        needs.push(Need::NumberWord)?;
    }
    Ok(needs)
}

/// So many references.
pub fn reference_words(alloc: Global, count: u8) -> Result<Row<Need>, NoMemory>
    ensures { IfOk result (λ needs. needs ≡ replicate count ReferenceWord) }
{
    let mut needs = Row::new(alloc);
    for _ in 0..count {
        needs.push(Need::ReferenceWord)?;
    }
    Ok(needs)
}

/// So many numbers that are given.
pub fn numbers(alloc: Global, count: u8) -> Result<Row<Given>, NoMemory>
    ensures { IfOk result (λ words. words ≡ replicate count ANumber) }
{
    let mut words = Row::new(alloc);
    for _ in 0..count {
        words.push(Given::ANumber)?;
    }
    Ok(words)
}

/// Puts so many operands from one on at the end.
#[tactic(auto, using(crate::proofs::Counted::operands_more, crate::proofs::Counted::operands_none))]
pub(crate) fn put_operands(words: &mut Row<Given>, first: u8, count: u8) -> Result<(), NoMemory>
    requires { first + count ≤ 255 }
    ensures { OnOk result (words.new ≡ words.old ++ operands_from first count) }
{
    for k in 0..count {
        words.push(Given::Operand(first + k))?;
    }
    Ok(())
}

/// What the words of a value that a letter moves are to be.
pub fn letter_needs(alloc: Global, letter: Letter) -> Result<Row<Need>, NoMemory>
    ensures { IfOk result (λ needs. needs ≡ letter_needs (letter_of letter)) }
{
    let mut needs = Row::new(alloc);
    match letter {
        Letter::Reference => needs.push(Need::ReferenceWord)?,
        Letter::Byte => needs.push(Need::NumberWord)?,
        Letter::Short => needs.push(Need::NumberWord)?,
        Letter::Int => {
            needs.push(Need::NumberWord)?;
            needs.push(Need::NumberWord)?;
        }
    }
    Ok(needs)
}

/// The nibbles of arrays of a letter's elements.
fn arrays_of(alloc: Global, letter: Letter) -> Result<Bytes, NoMemory>
    ensures { IfOk result (λ nibbles. nibbles ≡ arrays_of (letter_of letter)) }
{
    match letter {
        Letter::Reference => Bytes::copy_of(alloc, &[0xE]),
        Letter::Byte => Bytes::copy_of(alloc, &[0xA, 0xB]),
        Letter::Short => Bytes::copy_of(alloc, &[0xC]),
        Letter::Int => Bytes::copy_of(alloc, &[0xD]),
    }
}

/// Puts the index on top of the array at the end.
pub(crate) fn put_item(alloc: Global, needs: &mut Row<Need>, letter: Letter) -> Result<(), NoMemory>
    ensures { OnOk result (needs.new ≡ needs.old ++ NumberWord ∷ OfArrays (arrays_of (letter_of letter)) ∷ []) }
{
    needs.push(Need::NumberWord)?;
    needs.push(Need::OfArrays(arrays_of(alloc, letter)?))?;
    Ok(())
}

/// The words of an element of the array beneath the index.
pub(crate) fn items_of(alloc: Global, letter: Letter) -> Result<Row<Given>, NoMemory>
    ensures { IfOk result (λ words. words ≡ items_of (letter_of letter)) }
{
    let mut words = Row::new(alloc);
    match letter {
        Letter::Reference => words.push(Given::Element(1))?,
        Letter::Byte => words.push(Given::Item(1))?,
        Letter::Short => words.push(Given::Item(1))?,
        Letter::Int => {
            words.push(Given::Item(1))?;
            words.push(Given::Item(1))?;
        }
    }
    Ok(words)
}

/// A local that holds this.
pub(crate) fn reading(alloc: Global, local: u32, need: Need) -> Result<Row<Read>, NoMemory>
    ensures { IfOk result (λ reads. reads ≡ reading local need ∷ []) }
{
    let mut reads = Row::new(alloc);
    reads.push(Read { local, need })?;
    Ok(reads)
}

/// Two locals that hold an int.
pub(crate) fn reading_int(alloc: Global, local: u32) -> Result<Row<Read>, NoMemory>
    requires { local < 2 ^ 31 }
    ensures { IfOk result (λ reads. reads ≡ reading_int local) }
{
    let mut reads = reading(alloc, local, Need::NumberWord)?;
    reads.push(Read {
        local: local + 1,
        need: Need::NumberWord,
    })?;
    Ok(reads)
}

/// A local that holds this afterwards.
pub(crate) fn writing(alloc: Global, local: u32, given: Given) -> Result<Row<Write>, NoMemory>
    ensures { IfOk result (λ writes. writes ≡ writing local given ∷ []) }
{
    let mut writes = Row::new(alloc);
    writes.push(Write { local, given })?;
    Ok(writes)
}

/// Two locals that hold an int afterwards.
pub(crate) fn writing_int(alloc: Global, local: u32) -> Result<Row<Write>, NoMemory>
    requires { local < 2 ^ 31 }
    ensures { IfOk result (λ writes. writes ≡ writing_int local) }
{
    let mut writes = writing(alloc, local, Given::ANumber)?;
    writes.push(Write {
        local: local + 1,
        given: Given::ANumber,
    })?;
    Ok(writes)
}
