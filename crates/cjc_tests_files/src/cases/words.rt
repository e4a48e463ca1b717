//! Words of cases: ` = ` and what is answered end a case, and ` # ` begins a reason. A word that is not what it
//! is to be ends the case as want of memory does.

ghost use Rattle.std.specs.Prelude.{◌≤◌};

use cjc_capwrite::bytes::{Bytes, NoMemory, Row};
use std::alloc::Global;

/// The text before the first such mark, and that behind it: all of it and nothing where there is none.
pub fn cut<'t>(text: &'t str, mark: &str) -> (&'t str, &'t str) {
    match text.split_once(mark) {
        Some(parts) => parts,
        None => (text, ""),
    }
}

/// A case without its reason, cut at the answer.
pub fn question_and_answer(case: &str) -> (&str, &str) {
    let (case, _) = cut(case, " # ");
    cut(case, " = ")
}

fn number_in(word: &str, base: u32) -> Result<u32, NoMemory>
    requires least { 2 ≤ base }
    requires most { base ≤ 36 }
{
    match u32::from_str_radix(word, base) {
        Ok(number) => Ok(number),
        Err(_) => Err(NoMemory),
    }
}

/// A number in decimal digits.
pub fn number(word: &str) -> Result<u32, NoMemory> {
    number_in(word, 10)
}

fn small(number: u32) -> Result<u16, NoMemory> {
    if number < 65536 {
        Ok(number as u16)
    } else {
        Err(NoMemory)
    }
}

/// A number below 65,536.
pub fn small_number(word: &str) -> Result<u16, NoMemory> {
    small(number(word)?)
}

/// Access flags in hexadecimal digits.
pub fn flags(word: &str) -> Result<u16, NoMemory> {
    small(number_in(word, 16)?)
}

/// A byte in hexadecimal digits.
fn octet(word: &str) -> Result<u8, NoMemory> {
    let number = number_in(word, 16)?;
    if number < 256 {
        Ok(number as u8)
    } else {
        Err(NoMemory)
    }
}

/// Bytes in hexadecimal digits, with commas between them.
pub fn octets(alloc: Global, words: &str) -> Result<Vec<u8>, NoMemory> {
    let mut bytes = Vec::new(alloc);
    for word in words.split(",") {
        bytes.push(octet(word)?)?;
    }
    Ok(bytes)
}

/// Whether the word is this number.
pub fn is_number(word: &str, wanted: u32) -> bool {
    match number(word) {
        Ok(number) => number == wanted,
        Err(_) => false,
    }
}

/// The bytes of a word.
pub fn text(alloc: Global, word: &str) -> Result<Bytes, NoMemory> {
    Bytes::copy_of(alloc, word.as_bytes())
}

/// Words with commas between them; `-` is none.
pub fn texts(alloc: Global, words: &str) -> Result<Row<Bytes>, NoMemory> {
    let mut row = Row::new(alloc);
    if words != "-" {
        for word in words.split(",") {
            row.push(text(alloc, word)?)?;
        }
    }
    Ok(row)
}
