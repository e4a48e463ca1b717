//! The words of a script's line: numbers, objects, values, names of classes and methods, descriptors of arrays.

ghost use Rattle.std.specs.Prelude.{◌≡◌, ◌==◌, ◌<◌, ◌^◌, length, position};
ghost use Rattle.std.specs.List.{list_all};
ghost use Rattle.cjc_list.specs.Bytes.Found.{Finds, kept};
ghost use Rattle.cjc_list.specs.Grammar.{is_name_byte, is_name_part, is_name};
ghost use Rattle.cjc_script_text.specs.Words.{number_of, reference_of, value_of, values_of, is_method, is_array};
ghost use Rattle.cjc_script_text.specs.Words.{method_of};
ghost use Rattle.cjc_script_text.specs.Working.{AreShort};

use cjc_list::bytes::{Bytes, Desc, MemberId, Row, Stop, Word, short_decimal};
use cjc_script::Value;
use std::alloc::Global;

/// Whether the byte is a letter, a digit, `_` or `$`.
fn is_name_byte(byte: u8) -> bool
    ensures { result ≡ is_name_byte byte }
{
    match byte {
        b'a'..=b'z' | b'A'..=b'Z' | b'0'..=b'9' | b'_' | b'$' => true,
        _ => false,
    }
}

/// Whether these are such bytes.
fn has_name_bytes(part: &[u8]) -> bool
    ensures { result ≡ list_all is_name_byte part.now }
{
    part.iter().all(|byte| is_name_byte(*byte))
}

/// Whether these are one or more of them.
fn is_name_part(part: &[u8]) -> bool
    ensures { result ≡ is_name_part part.now }
{
    match part {
        [] => false,
        _ => has_name_bytes(part),
    }
}

/// Whether these are such parts, joined by `/`: the name of a class.
pub(crate) fn is_name(name: &[u8]) -> bool
    ensures { result ≡ is_name name.now }
{
    name.split(|byte| *byte == b'/')
        .all(|part| is_name_part(part))
}

/// The number of one to ten digits, behind `-` where it is negative.
pub(crate) fn read_number(text: &[u8]) -> Option<i32>
    ensures { result ≡ number_of text.now }
{
    match text {
        [b'-', digits @ ..] => {
            let n = short_decimal(digits, 10, 2_147_483_648)?;
            Some((-i64::from(n)) as i32)
        }
        _ => {
            let n = short_decimal(text, 10, 2_147_483_647)?;
            Some(n as i32)
        }
    }
}

/// The number of an object, behind `@`.
pub(crate) fn read_reference(word: &[u8]) -> Option<u32>
    ensures { result ≡ reference_of word.now }
{
    match word {
        [b'@', digits @ ..] => short_decimal(digits, 10, u32::MAX),
        _ => None,
    }
}

/// A number, `null` or an object.
pub(crate) fn read_value(word: &[u8]) -> Option<Value>
    ensures { result ≡ value_of word.now }
{
    if word == b"null".as_slice() {
        return Some(Value::Null);
    }
    if let Some(object) = read_reference(word) {
        return Some(Value::Obj(object));
    }
    let number = read_number(word)?;
    Some(Value::Num(number))
}

/// A value of each word, of a line at this place.
#[tactic(auto, using(crate::proofs::Loops::values_next, crate::proofs::Loops::values_break, crate::proofs::Loops::values_end, crate::proofs::Loops::values_begin))]
pub(crate) fn read_values(alloc: Global, at: u32, words: &[Word<'_>]) -> Result<Row<Value>, Stop>
    ensures { Finds (λ vs. vs) (kept at (values_of words.now)) result }
{
    let mut values = Row::new(alloc);
    for word in words {
        let value = read_value(word.bytes()).ok_or(Stop::Broken(at))?;
        values.push(value)?;
    }
    Ok(values)
}

/// Whether the bytes are a method's descriptor.
fn is_method(desc: &[u8]) -> bool
    requires { length desc.now < 2 ^ 32 }
    ensures { result ≡ is_method desc.now }
{
    match Desc::parse(desc) {
        Ok(desc) => desc.is_method(),
        Err(_) => false,
    }
}

/// Whether the bytes are `[Z`, `[B`, `[S`, `[I`, or `[L`, the name of a class and `;`.
pub(crate) fn is_array(desc: &[u8]) -> bool
    ensures { result ≡ is_array desc.now }
{
    match desc {
        [b'[', b'Z' | b'B' | b'S' | b'I'] => true,
        [b'[', b'L', class @ .., b';'] => is_name(class),
        _ => false,
    }
}

/// Where the first `(` stands.
fn first_bracket(text: &[u8]) -> Option<usize>
    ensures { result ≡ position (λ b. b == 40) text.now }
{
    text.iter().position(|byte| *byte == b'(')
}

/// The method of this class that a word names by its name and its descriptor, of a line at this place.
#[tactic(auto, unfolding(crate::specs::Words::method_of))]
pub(crate) fn read_method(
    alloc: Global,
    at: u32,
    class: &[u8],
    text: &[u8],
) -> Result<MemberId, Stop>
    requires { length text.now < 2 ^ 32 }
    ensures { Finds (λ m. m) (kept at (method_of class.now text.now)) result }
{
    let start = first_bracket(text).ok_or(Stop::Broken(at))?;
    let name = &text[..start];
    let desc = &text[start..];
    if name.is_empty() || !is_method(desc) || !is_name(class) {
        return Err(Stop::Broken(at));
    }
    Ok(MemberId {
        class: Bytes::copy_of(alloc, class)?,
        name: Bytes::copy_of(alloc, name)?,
        desc: Bytes::copy_of(alloc, desc)?,
    })
}
