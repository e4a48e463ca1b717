//! Text as lines, words and decimal numbers, as the program's list and its scripts have it. It knows no
//! meaning of a line.

ghost use Rattle.std.specs.Prelude.{◌≡◌, ◌==◌, ◌++◌, ◌∷◌, [], ◌<◌, ◌^◌, length, filter, position, IfOk, OnOk, IfSome};
ghost use Rattle.std.specs.Prelude.{◌≤◌, List, ℕ};
ghost use Rattle.std.specs.Str.Lines.{strip_carriage_return};
ghost use Rattle.cjc_bytes.specs.Text.{TextLine, is_kept, kept, is_filled, is_spaced, filled_parts, words, decimal};
ghost use Rattle.cjc_bytes.specs.Text.{short_decimal, kept_lines, lines_from, parts_of_text};
ghost use Rattle.cjc_bytes.specs.TextGrammar.{AreLines, AreWords};

use crate::row::Row;
use crate::stop::NoMemory;
use std::alloc::Global;
use std::marker::Model;

/// A line of a text, without what ends it.
#[derive(Drop)]
pub struct Line<'a> {
    at: u32,
    text: &'a [u8],
}

impl<'a> Model for Line<'a> {
    ghost use Rattle.cjc_bytes.specs.Text.{TextLine};

    ghost Value = { TextLine };

    ghost view = { λ l. record { at = l.at; text = l.text.now } };
}

impl<'a> Line<'a> {
    /// Where the line begins, in bytes from the start of the text.
    pub fn at(&self) -> u32
        ensures { result ≡ self.now.at }
    {
        self.at
    }

    /// The bytes of the line.
    pub fn text(&self) -> &'a [u8]
        ensures { result.now ≡ self.now.text }
    {
        self.text
    }
}

/// A word of a line.
#[derive(Drop)]
pub struct Word<'a> {
    bytes: &'a [u8],
}

impl<'a> Model for Word<'a> {
    ghost use Rattle.std.specs.Prelude.{List, ℕ};

    ghost Value = { List ℕ };

    ghost view = { λ w. w.bytes.now };
}

impl<'a> Word<'a> {
    /// The bytes of the word.
    pub fn bytes(&self) -> &'a [u8]
        ensures { result.now ≡ self.now }
    {
        self.bytes
    }
}

/// Where the byte stands first.
fn find(bytes: &[u8], byte: u8) -> Option<usize>
    ensures { result ≡ position (λ b. b == byte) bytes.now }
{
    bytes.iter().position(|b| *b == byte)
}

/// The bytes before a line feed, without one carriage return at their end.
fn without_return(bytes: &[u8]) -> &[u8]
    ensures { result.now ≡ strip_carriage_return bytes.now }
{
    let count = bytes.len();
    if count > 0 && bytes[count - 1] == b'\r' {
        return &bytes[..count - 1];
    }
    bytes
}

/// Appends the line where it is not passed over.
fn keep<'a>(lines: &mut Row<Line<'a>>, at: u32, text: &'a [u8]) -> Result<(), NoMemory>
    ensures { OnOk result (lines.new ≡ lines.old ++ filter is_kept (record { at = at; text = text.now } ∷ [])) }
{
    match text {
        [] | [b'#', ..] => Ok(()),
        _ => lines.push(Line { at, text }),
    }
}

/// The lines of a text that are not passed over. A line ends with a line feed, which the last one may lack,
/// and a carriage return before a line feed is no part of it. Empty lines and those that begin with `#`
/// are passed over.
pub fn kept_lines<'a>(alloc: Global, bytes: &'a [u8]) -> Result<Row<Line<'a>>, NoMemory>
    requires { length bytes.now < 2 ^ 32 }
    ensures { IfOk result (λ lines. lines ≡ kept_lines bytes.now) }
{
    let mut lines = Row::new(alloc);
    let mut at = 0;
    while let Some(n) = find(&bytes[at..], b'\n') {
        keep(&mut lines, at as u32, without_return(&bytes[at..at + n]))?;
        at += n + 1;
    }
    keep(&mut lines, at as u32, &bytes[at..])?;
    Ok(lines)
}

/// Whether the line begins or ends with a space.
fn is_spaced(line: &[u8]) -> bool
    ensures { result ≡ is_spaced line.now }
{
    let count = line.len();
    count > 0 && (line[0] == b' ' || line[count - 1] == b' ')
}

/// Appends the part where it is not empty.
fn add_word<'a>(words: &mut Row<Word<'a>>, bytes: &'a [u8]) -> Result<(), NoMemory>
    ensures { OnOk result (words.new ≡ words.old ++ filter is_filled (bytes.now ∷ [])) }
{
    match bytes {
        [] => Ok(()),
        _ => words.push(Word { bytes }),
    }
}

/// What stands between spaces.
fn filled_parts<'a>(alloc: Global, line: &'a [u8]) -> Result<Row<Word<'a>>, NoMemory>
    ensures { IfOk result (λ words. words ≡ filled_parts line.now) }
{
    let mut words = Row::new(alloc);
    let mut at = 0;
    while let Some(n) = find(&line[at..], b' ') {
        add_word(&mut words, &line[at..at + n])?;
        at += n + 1;
    }
    add_word(&mut words, &line[at..])?;
    Ok(words)
}

/// The words of a line, which one or more spaces part, or nothing where a line begins or ends with a space.
pub fn words<'a>(alloc: Global, line: &'a [u8]) -> Result<Option<Row<Word<'a>>>, NoMemory>
    ensures { IfOk result (λ found. found ≡ words line.now) }
{
    if is_spaced(line) {
        return Ok(None);
    }
    let words = filled_parts(alloc, line)?;
    Ok(Some(words))
}

/// The number that decimal digits spell, where the text has nothing else, at least one digit, and a number
/// of at most `limit`. Leading zeros are allowed.
pub fn decimal(text: &[u8], limit: u32) -> Option<u32>
    ensures spelt { result ≡ decimal limit text.now }
    ensures within { IfSome result (λ n. n ≤ limit) }
{
    if text.is_empty() {
        return None;
    }
    let mut value: u64 = 0;
    for digit in text {
        if *digit < b'0' || *digit > b'9' {
            return None;
        }
        value = value * 10 + u64::from(*digit - b'0');
        if value > u64::from(limit) {
            return None;
        }
    }
    Some(value as u32)
}

/// The number that decimal digits spell, as `decimal` has it, where there are at most so many digits.
pub fn short_decimal(text: &[u8], digits: usize, limit: u32) -> Option<u32>
    ensures spelt { result ≡ short_decimal digits limit text.now }
    ensures within { IfSome result (λ n. n ≤ limit) }
{
    if text.len() > digits {
        return None;
    }
    decimal(text, limit)
}

/// A text has one list of lines, and a line one list of words.
pub fn lines_and_words()
    ensures lines { (at : ℕ) (ls : List TextLine) (bytes : List ℕ) → AreLines at ls bytes
        → lines_from at (parts_of_text bytes) ≡ ls }
    ensures cut { (at : ℕ) (bytes : List ℕ) → AreLines at (lines_from at (parts_of_text bytes)) bytes }
    ensures words { (ws : List (List ℕ)) (line : List ℕ) → AreWords ws line → words line ≡ Some ws }
    ensures parted { (ws : List (List ℕ)) (line : List ℕ) → words line ≡ Some ws → AreWords ws line }
{}
