//! One line of a list: the package line, which is the first that is kept, and the lines behind it.

ghost use Rattle.std.specs.Prelude.{◌≡◌, ◌==◌, position};
ghost use Rattle.std.specs.List.{list_all};
ghost use Rattle.cjc_bytes.specs.Found.{Finds, kept};
ghost use Rattle.cjc_list.specs.Grammar.{is_name_byte, is_name_part, is_name, aid_of, version_of, begun, package_of};
ghost use Rattle.cjc_list.specs.Grammar.{applet_of, item_of, class_count, export_count, has_room, with_item, with_line};
ghost use Rattle.cjc_list.specs.Listed.{said};

use crate::listing::List;
use cjc_bytes::{AppletLine, Bytes, FileLine, Line, Row, Stop, Word, decimal, words};
use hex::FromHexError;
use std::alloc::Global;

/// What a line behind the package line says.
#[derive(Drop)]
pub(crate) enum Item {
    Applet(AppletLine),
    File(FileLine),
    /// The card has the type int.
    Int,
}

/// Whether the byte is a letter, a digit, `_` or `$`.
fn is_name_byte(byte: u8) -> bool
    ensures { result ≡ is_name_byte byte }
{
    match byte {
        b'a'..=b'z' | b'A'..=b'Z' | b'0'..=b'9' | b'_' | b'$' => true,
        _ => false,
    }
}

/// Whether these are such bytes.
fn has_name_bytes(part: &[u8]) -> bool
    ensures { result ≡ list_all is_name_byte part.now }
{
    part.iter().all(|byte| is_name_byte(*byte))
}

/// Whether these are one or more of them.
fn is_name_part(part: &[u8]) -> bool
    ensures { result ≡ is_name_part part.now }
{
    match part {
        [] => false,
        _ => has_name_bytes(part),
    }
}

/// Whether these are such parts, joined by `/`.
#[tactic(auto, unfolding(crate::specs::Grammar::is_name))]
fn is_name(name: &[u8]) -> bool
    ensures { result ≡ is_name name.now }
{
    name.split(|byte| *byte == b'/')
        .all(|part| is_name_part(part))
}

/// The AID that hexadecimal digits spell, of a line at this place.
#[tactic(auto, unfolding(crate::specs::Grammar::aid_of))]
fn read_aid(alloc: Global, at: u32, digits: &[u8]) -> Result<Bytes, Stop>
    ensures { Finds (λ a. a) (kept at (aid_of digits.now)) result }
{
    match hex::decode(alloc, digits) {
        Ok(bytes) if bytes.len() >= 5 && bytes.len() <= 16 => Ok(Row::of(bytes)),
        Err(FromHexError::OutOfMemory) => Err(Stop::NoMemory),
        _ => Err(Stop::Broken(at)),
    }
}

/// Where the first dot stands.
fn first_dot(text: &[u8]) -> Option<usize>
    ensures { result ≡ position (λ b. b == 46) text.now }
{
    text.iter().position(|byte| *byte == b'.')
}

/// The two numbers of a version, `MAJOR.MINOR`.
#[tactic(auto, unfolding(crate::specs::Grammar::version_of))]
fn version(text: &[u8]) -> Option<(u8, u8)>
    ensures { result ≡ version_of text.now }
{
    let dot = first_dot(text)?;
    let major = decimal(&text[..dot], 255)?;
    let minor = decimal(&text[dot + 1..], 255)?;
    Some((major as u8, minor as u8))
}

/// The list that the words of a package line begin.
#[tactic(auto, unfolding(crate::specs::Grammar::begun))]
fn begin(
    alloc: Global,
    name: &[u8],
    at: u32,
    package: &[u8],
    digits: &[u8],
    numbers: &[u8],
) -> Result<List, Stop>
    ensures { Finds (λ l. l) (kept at (begun name.now «package».now digits.now numbers.now)) result }
{
    let aid = read_aid(alloc, at, digits)?;
    let (major, minor) = version(numbers).ok_or(Stop::Broken(at))?;
    if !is_name(package) {
        return Err(Stop::Broken(at));
    }
    Ok(List {
        name: Bytes::copy_of(alloc, name)?,
        package: Bytes::copy_of(alloc, package)?,
        aid,
        major,
        minor,
        ints: false,
        applets: Row::new(alloc),
        lines: Row::new(alloc),
    })
}

/// The list that a package line begins.
#[tactic(auto, unfolding(crate::specs::Grammar::package_of))]
pub(crate) fn read_package(alloc: Global, name: &[u8], line: &Line<'_>) -> Result<List, Stop>
    ensures { Finds (λ l. l) (said (package_of name.now) line.now) result }
{
    let at = line.at();
    let words = words(alloc, line.text())?.ok_or(Stop::Broken(at))?;
    match words.items() {
        [keyword, package, digits, numbers] if keyword.bytes() == b"package".as_slice() => begin(
            alloc,
            name,
            at,
            package.bytes(),
            digits.bytes(),
            numbers.bytes(),
        ),
        _ => Err(Stop::Broken(at)),
    }
}

/// What an applet line says.
#[tactic(auto, unfolding(crate::specs::Grammar::applet_of))]
fn read_applet(alloc: Global, at: u32, class: &[u8], digits: &[u8]) -> Result<Item, Stop>
    ensures { Finds (λ i. i) (kept at (applet_of class.now digits.now)) result }
{
    let aid = read_aid(alloc, at, digits)?;
    if !is_name(class) {
        return Err(Stop::Broken(at));
    }
    let class = Bytes::copy_of(alloc, class)?;
    Ok(Item::Applet(AppletLine { class, aid }))
}

/// What the words of a line behind the package line say.
#[tactic(auto, unfolding(crate::specs::Grammar::item_of))]
fn read_item(alloc: Global, at: u32, words: &[Word<'_>]) -> Result<Item, Stop>
    ensures { Finds (λ i. i) (kept at (item_of words.now)) result }
{
    match words {
        [keyword, file] if keyword.bytes() == b"class".as_slice() => Ok(Item::File(FileLine {
            class_file: true,
            name: Bytes::copy_of(alloc, file.bytes())?,
        })),
        [keyword, file] if keyword.bytes() == b"export".as_slice() => Ok(Item::File(FileLine {
            class_file: false,
            name: Bytes::copy_of(alloc, file.bytes())?,
        })),
        [keyword, class, digits] if keyword.bytes() == b"applet".as_slice() => read_applet(
            alloc,
            at,
            class.bytes(),
            digits.bytes(),
        ),
        [keyword] if keyword.bytes() == b"int".as_slice() => Ok(Item::Int),
        _ => Err(Stop::Broken(at)),
    }
}

/// How many class files are named.
pub(crate) fn class_count(files: &[FileLine]) -> usize
    ensures { result ≡ class_count files.now }
{
    files.iter().filter(|file| file.class_file).count()
}

/// How many export files are named.
fn export_count(files: &[FileLine]) -> usize
    ensures { result ≡ export_count files.now }
{
    files.iter().filter(|file| !file.class_file).count()
}

/// Whether one file more of this kind is within the limit: 1,024 class files and 128 export files.
fn has_room(class_file: bool, files: &[FileLine]) -> bool
    ensures { result ≡ has_room class_file files.now }
{
    if class_file {
        class_count(files) < 1024
    } else {
        export_count(files) < 128
    }
}

/// The list with what a further line says, of a line at this place.
#[tactic(auto, unfolding(crate::specs::Grammar::with_item))]
fn add(list: List, at: u32, item: Item) -> Result<List, Stop>
    ensures { Finds (λ l. l) (kept at (with_item list item)) result }
{
    let mut list = list;
    match item {
        Item::Applet(applet) => list.applets.push(applet)?,
        Item::File(file) => {
            if !has_room(file.class_file, list.lines.items()) {
                return Err(Stop::Broken(at));
            }
            list.lines.push(file)?;
        }
        Item::Int => {
            if list.ints {
                return Err(Stop::Broken(at));
            }
            list.ints = true;
        }
    }
    Ok(list)
}

/// The list with one line more.
#[tactic(auto, unfolding(crate::specs::Grammar::with_line))]
pub(crate) fn read_line(alloc: Global, list: List, line: &Line<'_>) -> Result<List, Stop>
    ensures { Finds (λ l. l) (said (with_line list) line.now) result }
{
    let at = line.at();
    let words = words(alloc, line.text())?.ok_or(Stop::Broken(at))?;
    let item = read_item(alloc, at, words.items())?;
    add(list, at, item)
}
