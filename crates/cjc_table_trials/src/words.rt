//! Words of cases that stand as text, a line each: ` = ` and what is answered end a case, and ` # ` begins a reason.

ghost use Rattle.std.specs.Prelude.{◌≤◌};

use cjc_bytes::NoMemory;

/// The text before the first such mark, and that behind it: all of it and nothing where there is none.
pub(crate) fn cut<'t>(text: &'t str, mark: &str) -> (&'t str, &'t str) {
    match text.split_once(mark) {
        Some(parts) => parts,
        None => (text, ""),
    }
}

/// A case without its reason, cut at the answer.
pub(crate) fn question_and_answer(case: &str) -> (&str, &str) {
    let (case, _) = cut(case, " # ");
    cut(case, " = ")
}

/// The number that a word has in this base; what is none ends the case as want of memory does.
fn number_in(word: &str, base: u32) -> Result<u32, NoMemory>
    requires least { 2 ≤ base }
    requires most { base ≤ 36 }
{
    match u32::from_str_radix(word, base) {
        Ok(number) => Ok(number),
        Err(_) => Err(NoMemory),
    }
}

/// A number in decimal digits.
pub(crate) fn number(word: &str) -> Result<u32, NoMemory> {
    number_in(word, 10)
}

/// A byte in hexadecimal digits.
pub(crate) fn octet(word: &str) -> Result<u8, NoMemory> {
    let number = number_in(word, 16)?;
    if number < 256 {
        Ok(number as u8)
    } else {
        Err(NoMemory)
    }
}

/// Whether a word is this number in decimal digits.
pub(crate) fn is_number(word: &str, wanted: u32) -> bool {
    match number(word) {
        Ok(number) => number == wanted,
        Err(_) => false,
    }
}

/// A number below 65,536.
pub(crate) fn small_number(word: &str) -> Result<u16, NoMemory> {
    let number = number(word)?;
    if number < 65536 {
        Ok(number as u16)
    } else {
        Err(NoMemory)
    }
}
