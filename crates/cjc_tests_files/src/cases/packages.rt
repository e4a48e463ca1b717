//! A package of classes that stand as text, and the export file of java/lang. Knows no method's code.

use crate::cases::classes::class;
use crate::cases::words::{cut, text, texts};
use cjc_capwrite::bytes::{Bytes, Fault, FileLine, NoMemory, Row};
use cjc_world::World;
use cjc_world::classfile::ClassTree;
use cjc_world::export_file::{ExportClass, ExportMethod, ExportTree};
use std::alloc::Global;

/// The classes of java/lang that the rules of a world ask for, each with its supers.
const LANGUAGE: &str = "\
java/lang/Object -
java/lang/Throwable java/lang/Object
java/lang/ArrayIndexOutOfBoundsException java/lang/Throwable,java/lang/Object
java/lang/ArrayStoreException java/lang/Throwable,java/lang/Object
java/lang/NegativeArraySizeException java/lang/Throwable,java/lang/Object
java/lang/ArithmeticException java/lang/Throwable,java/lang/Object
java/lang/ClassCastException java/lang/Throwable,java/lang/Object
java/lang/NullPointerException java/lang/Throwable,java/lang/Object";

fn constructor(alloc: Global) -> Result<Row<ExportMethod>, NoMemory> {
    let mut methods = Row::new(alloc);
    methods.push(ExportMethod {
        token: 0,
        flags: 1,
        name: text(alloc, "<init>")?,
        desc: text(alloc, "()V")?,
    })?;
    Ok(methods)
}

fn imported(alloc: Global, words: &str) -> Result<ExportClass, NoMemory> {
    let (name, supers) = cut(words, " ");
    Ok(ExportClass {
        token: 0,
        flags: 1,
        name: text(alloc, name)?,
        listed: texts(alloc, supers)?,
        supers: texts(alloc, supers)?,
        interfaces: Row::new(alloc),
        fields: Row::new(alloc),
        methods: constructor(alloc)?,
    })
}

/// The export file of java/lang, whose classes have a constructor each.
pub fn language(alloc: Global) -> Result<ExportTree, NoMemory> {
    let mut classes = Row::new(alloc);
    for words in LANGUAGE.lines() {
        classes.push(imported(alloc, words)?)?;
    }
    Ok(ExportTree {
        name: text(alloc, "java/lang")?,
        aid: Bytes::new(alloc),
        major: 1,
        minor: 0,
        library: true,
        classes,
    })
}

/// A line of the list.
pub fn line(alloc: Global, class_file: bool, name: &str) -> Result<FileLine, NoMemory> {
    Ok(FileLine {
        class_file,
        name: text(alloc, name)?,
    })
}

/// The lines of the list for so many class files, all named T, and the export file.
fn lines(alloc: Global, classes: usize) -> Result<Row<FileLine>, NoMemory> {
    let mut lines = Row::new(alloc);
    for _ in 0..classes {
        lines.push(line(alloc, true, "T")?)?;
    }
    lines.push(line(alloc, false, "java/lang")?)?;
    Ok(lines)
}

fn all_classes<'t>(alloc: Global, words: &str) -> Result<Row<ClassTree<'t>>, NoMemory> {
    let mut classes = Row::new(alloc);
    for line in words.lines() {
        classes.push(class(alloc, line)?)?;
    }
    Ok(classes)
}

/// The package p of these classes, one a line.
pub fn package<'t>(alloc: Global, classes: &str) -> Result<World<'t>, Fault> {
    let classes = all_classes(alloc, classes)?;
    let lines = lines(alloc, classes.items().len())?;
    let mut exports = Row::new(alloc);
    exports.push(language(alloc)?)?;
    World::new(alloc, b"list", b"p", lines, classes, exports)
}
