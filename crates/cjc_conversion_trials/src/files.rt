//! The files of a case: its list, and what its lines name. A word of a case is a file by its name, or `+CLASS` an applet line.

use cjc_bytes::{Bytes, NoMemory, Out, Row};
use cjc_case_files::{
    ABSTRACT, BELOW, CALLS_FIRST, CAUGHT, EITHER, FRAMEWORK, GIVES_ONE, GIVES_TWO, INSTALLS,
    INTERFACE, LANG, MEMBERS, NARROWER, OVERRIDES, Q, ROWS, STATICS, SUM, TWO_ORDERS, WALLET,
    WIDER,
};
use std::alloc::Global;

/// An export file; nothing where the name is that of a class file.
fn export_file(name: &str) -> &'static [u8] {
    match name {
        "lang" => LANG,
        "q" => Q,
        "framework" => FRAMEWORK,
        _ => b"",
    }
}

fn class_file(name: &str) -> &'static [u8] {
    match name {
        "sum" => SUM,
        "rows" => ROWS,
        "overrides" => OVERRIDES,
        "interface" => INTERFACE,
        "abstract" => ABSTRACT,
        "below" => BELOW,
        "caught" => CAUGHT,
        "statics" => STATICS,
        "calls-first" => CALLS_FIRST,
        "installs" => INSTALLS,
        "members" => MEMBERS,
        "wider" => WIDER,
        "narrower" => NARROWER,
        "either" => EITHER,
        "gives-one" => GIVES_ONE,
        "gives-two" => GIVES_TWO,
        "two-orders" => TWO_ORDERS,
        "wallet" => WALLET,
        _ => b"",
    }
}

fn put_applets(text: &mut Out, words: &str) -> Result<(), NoMemory> {
    for word in words.split(" ") {
        if let Some(class) = word.strip_prefix("+") {
            text.put_slice(b"applet ")?;
            text.put_slice(class.as_bytes())?;
            text.put_slice(b" A00000000101\n")?;
        }
    }
    Ok(())
}

fn put_lines(text: &mut Out, words: &str) -> Result<(), NoMemory> {
    for word in words.split(" ") {
        if word.starts_with("+") {
            continue;
        }
        let kind = if export_file(word).is_empty() {
            b"class ".as_slice()
        } else {
            b"export ".as_slice()
        };
        text.put_slice(kind)?;
        text.put_slice(word.as_bytes())?;
        text.put_slice(b"\n")?;
    }
    Ok(())
}

/// The list of these words.
pub(crate) fn list_of(alloc: Global, words: &str) -> Result<Bytes, NoMemory> {
    let mut text = Out::new(alloc);
    text.put_slice(b"package p A000000001 1.0\n")?;
    put_applets(&mut text, words)?;
    put_lines(&mut text, words)?;
    Ok(text.finish())
}

/// The files that it names, in the order of its lines.
pub(crate) fn files_of(alloc: Global, words: &str) -> Result<Row<Bytes>, NoMemory> {
    let mut files = Row::new(alloc);
    for word in words.split(" ") {
        if word.starts_with("+") {
            continue;
        }
        let export = export_file(word);
        let bytes = if export.is_empty() {
            class_file(word)
        } else {
            export
        };
        files.push(Bytes::copy_of(alloc, bytes)?)?;
    }
    Ok(files)
}

/// The export file of java/lang.
pub(crate) fn lang(alloc: Global) -> Result<Bytes, NoMemory> {
    Bytes::copy_of(alloc, LANG)
}
