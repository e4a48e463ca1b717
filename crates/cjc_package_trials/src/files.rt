//! The folder of a case, by its words: the name of an export file, the name of a class file, or `+CLASS` for an
//! applet line. Files stand under their name with `.exp` or `.class`, and the lines of the list in the order of the
//! words.

use cjc_bytes::{Bytes, NoMemory, Out, Row};
use cjc_case_files::{
    ABSTRACT, ASKS, BELOW, BELOW_IMPORTED, CALLS_FIRST, CALLS_INTERFACES, CATCHES, CAUGHT, EITHER,
    FRAMEWORK, GIVES_ONE, GIVES_TWO, INSTALLS, INTERFACE, KINDS, LANG, LOADS_A_LONG, MEMBERS,
    NARROW, NARROWER, OVERRIDES, OWN_EXCEPTION, Q, ROWS, S, SHAREABLE, SHARED, SHARES, STATICS,
    SUM, TWO_ORDERS, VISIBLE, WALLET, WIDENS, WIDER,
};
use cjc_shelf::MemShelf;
use std::alloc::Global;

/// An export file; nothing where the name is that of a class file.
fn export_file(name: &str) -> &'static [u8] {
    match name {
        "lang" => LANG,
        "q" => Q,
        "framework" => FRAMEWORK,
        "s" => S,
        "shareable" => SHAREABLE,
        _ => b"",
    }
}

pub(crate) fn class_file(name: &str) -> &'static [u8] {
    match name {
        "sum" => SUM,
        "rows" => ROWS,
        "overrides" => OVERRIDES,
        "interface" => INTERFACE,
        "abstract" => ABSTRACT,
        "below" => BELOW,
        "caught" => CAUGHT,
        "statics" => STATICS,
        "calls-first" => CALLS_FIRST,
        "asks" => ASKS,
        "installs" => INSTALLS,
        "members" => MEMBERS,
        "wider" => WIDER,
        "narrower" => NARROWER,
        "either" => EITHER,
        "gives-one" => GIVES_ONE,
        "gives-two" => GIVES_TWO,
        "two-orders" => TWO_ORDERS,
        "wallet" => WALLET,
        "loads-a-long" => LOADS_A_LONG,
        _ => compiled_class(name),
    }
}

fn compiled_class(name: &str) -> &'static [u8] {
    match name {
        "widens" => WIDENS,
        "calls-interfaces" => CALLS_INTERFACES,
        "below-imported" => BELOW_IMPORTED,
        "kinds" => KINDS,
        "own-exception" => OWN_EXCEPTION,
        "catches" => CATCHES,
        "shared" => SHARED,
        "shares" => SHARES,
        "visible" => VISIBLE,
        "narrow" => NARROW,
        _ => b"",
    }
}

/// The line of the list for a word.
fn put_line(text: &mut Out, word: &str) -> Result<(), NoMemory> {
    if let Some(class) = word.strip_prefix("+") {
        text.put_slice(b"applet ")?;
        text.put_slice(class.as_bytes())?;
        return text.put_slice(b" A00000000101\n");
    }
    let is_class = export_file(word).is_empty();
    let (kind, end) = if is_class {
        ("class ", ".class\n")
    } else {
        ("export ", ".exp\n")
    };
    text.put_slice(kind.as_bytes())?;
    text.put_slice(word.as_bytes())?;
    text.put_slice(end.as_bytes())
}

fn list_of(alloc: Global, words: &str) -> Result<Bytes, NoMemory> {
    let mut text = Out::new(alloc);
    text.put_slice(b"package p A000000001 1.0\n")?;
    for word in words.split(" ") {
        put_line(&mut text, word)?;
    }
    Ok(text.finish())
}

/// Two pieces of text, one behind the other.
pub(crate) fn joined(alloc: Global, front: &str, back: &str) -> Result<Bytes, NoMemory> {
    let mut text = Out::new(alloc);
    text.put_slice(front.as_bytes())?;
    text.put_slice(back.as_bytes())?;
    Ok(text.finish())
}

fn add_file(alloc: Global, shelf: &mut MemShelf, word: &str) -> Result<(), NoMemory> {
    let export = export_file(word);
    if export.is_empty() {
        let name = joined(alloc, word, ".class")?;
        shelf.add(name.items(), class_file(word))
    } else {
        let name = joined(alloc, word, ".exp")?;
        shelf.add(name.items(), export)
    }
}

/// A folder with the files of these words, and their list.
pub(crate) fn folder(alloc: Global, words: &str) -> Result<MemShelf, NoMemory> {
    let mut shelf = MemShelf::new(alloc, Row::new(alloc));
    let list = list_of(alloc, words)?;
    shelf.add(b"list", list.items())?;
    for word in words.split(" ") {
        add_file(alloc, &mut shelf, word)?;
    }
    Ok(shelf)
}
