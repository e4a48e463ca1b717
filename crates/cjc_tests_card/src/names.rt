//! The names that the made components lack and a group wants: of classes, methods, fields and cells, written
//! down for `runs`.

use cjc_card::bytes::{Bytes, MemberId, NoMemory, Row};
use cjc_card::card_frame::parts::CellName;
use cjc_card::card_link::{ClassNames, FieldName, MethodName};
use cjc_tests_files::cases::{cut, number, text};
use std::alloc::Global;

/// Each class, the methods of an interface, and the instance fields: a digit for the token, a letter for the
/// name, the type.
const CLASSES: [(&str, &str, &str); 3] = [
    ("p/I", "a()S b()S", ""),
    ("p/T", "", "0bB 1sS 2iI 4rLp/T;"),
    ("p/U", "", "0tS"),
];

/// The static fields of p/T: the offset of each, its name and its type.
const CELLS: &str = "\
0 a [S
2 o Ljava/lang/Object;
4 c B
5 d S
7 j I
11 n S";

/// A method by its name of one letter and its descriptor.
fn method_name(alloc: Global, word: &str) -> Result<MethodName, NoMemory> {
    match word.as_bytes().split_first() {
        Some((name, desc)) => Ok(MethodName {
            name: Bytes::copy_of(alloc, &[*name])?,
            desc: Bytes::copy_of(alloc, desc)?,
        }),
        None => Err(NoMemory),
    }
}

fn method_names(alloc: Global, words: &str) -> Result<Row<MethodName>, NoMemory> {
    let mut names = Row::new(alloc);
    if !words.is_empty() {
        for word in words.split(" ") {
            names.push(method_name(alloc, word)?)?;
        }
    }
    Ok(names)
}

/// A field of a token below ten.
fn field_name(alloc: Global, word: &str) -> Result<FieldName, NoMemory> {
    let Some((digit, member)) = word.as_bytes().split_first() else {
        return Err(NoMemory);
    };
    let Some((name, desc)) = member.split_first() else {
        return Err(NoMemory);
    };
    Ok(FieldName {
        token: *digit & 0x0F,
        name: Bytes::copy_of(alloc, &[*name])?,
        desc: Bytes::copy_of(alloc, desc)?,
    })
}

fn field_names(alloc: Global, words: &str) -> Result<Row<FieldName>, NoMemory> {
    let mut names = Row::new(alloc);
    if !words.is_empty() {
        for word in words.split(" ") {
            names.push(field_name(alloc, word)?)?;
        }
    }
    Ok(names)
}

/// The methods of a class whose names are asked for: those of p/T begin with a row's.
fn declared<'m>(class: &str, method: &'m str) -> &'m str {
    if class == "p/T" { method } else { "" }
}

fn class_name(
    alloc: Global,
    words: (&str, &str, &str),
    method: &str,
) -> Result<ClassNames, NoMemory> {
    let (class, methods, fields) = words;
    let declared = method_names(alloc, declared(class, method))?;
    let fields = field_names(alloc, fields)?;
    let interface_methods = method_names(alloc, methods)?;
    Ok(ClassNames {
        name: text(alloc, class)?,
        methods: declared,
        fields,
        interface_methods,
    })
}

/// The names of the classes, where a row's method has this name and descriptor.
pub(crate) fn class_names(alloc: Global, method: &str) -> Result<Row<ClassNames>, NoMemory> {
    let mut names = Row::new(alloc);
    for words in CLASSES {
        names.push(class_name(alloc, words, method)?)?;
    }
    Ok(names)
}

fn cell_name(alloc: Global, words: &str) -> Result<CellName, NoMemory> {
    let (offset, words) = cut(words, " ");
    let (name, desc) = cut(words, " ");
    let id = MemberId {
        class: text(alloc, "p/T")?,
        name: text(alloc, name)?,
        desc: text(alloc, desc)?,
    };
    Ok(CellName {
        offset: u64::from(number(offset)?),
        id,
    })
}

/// The names of the static cells.
pub(crate) fn cell_names(alloc: Global) -> Result<Row<CellName>, NoMemory> {
    let mut names = Row::new(alloc);
    for words in CELLS.lines() {
        names.push(cell_name(alloc, words)?)?;
    }
    Ok(names)
}
