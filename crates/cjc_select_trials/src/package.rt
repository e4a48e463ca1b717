//! The package of one class p/T with a field, and the export file of java/lang.

use cjc_bytes::{Bytes, Fault, FileLine, NoMemory, Row};
use cjc_classfile::{ClassTree, FieldTree};
use cjc_export::{ExportClass, ExportMethod, ExportTree};
use cjc_world::World;
use std::alloc::Global;

const OBJECT: &[u8] = b"java/lang/Object";

const THROWABLE: &[u8] = b"java/lang/Throwable";

/// The exceptions of java/lang that the rules of a world ask for, each below Throwable.
const EXCEPTIONS: [&[u8]; 6] = [
    b"java/lang/ArrayIndexOutOfBoundsException",
    b"java/lang/ArrayStoreException",
    b"java/lang/NegativeArraySizeException",
    b"java/lang/ArithmeticException",
    b"java/lang/ClassCastException",
    b"java/lang/NullPointerException",
];

// ---- java/lang

fn constructor(alloc: Global) -> Result<Row<ExportMethod>, NoMemory> {
    let mut methods = Row::new(alloc);
    methods.push(ExportMethod {
        token: 0,
        flags: 1,
        name: Bytes::copy_of(alloc, b"<init>")?,
        desc: Bytes::copy_of(alloc, b"()V")?,
    })?;
    Ok(methods)
}

fn imported(alloc: Global, name: &[u8], supers: &[&[u8]]) -> Result<ExportClass, NoMemory> {
    let mut above = Row::new(alloc);
    for class in supers {
        above.push(Bytes::copy_of(alloc, class)?)?;
    }
    Ok(ExportClass {
        token: 0,
        flags: 1,
        name: Bytes::copy_of(alloc, name)?,
        supers: above,
        interfaces: Row::new(alloc),
        fields: Row::new(alloc),
        methods: constructor(alloc)?,
    })
}

fn language(alloc: Global) -> Result<ExportTree, NoMemory> {
    let mut classes = Row::new(alloc);
    classes.push(imported(alloc, OBJECT, &[])?)?;
    classes.push(imported(alloc, THROWABLE, &[OBJECT])?)?;
    for name in &EXCEPTIONS {
        classes.push(imported(alloc, name, &[THROWABLE, OBJECT])?)?;
    }
    Ok(ExportTree {
        name: Bytes::copy_of(alloc, b"java/lang")?,
        aid: Bytes::new(alloc),
        major: 1,
        minor: 0,
        library: true,
        classes,
    })
}

// ---- the package

fn field(alloc: Global) -> Result<Row<FieldTree>, NoMemory> {
    let mut row = Row::new(alloc);
    row.push(FieldTree {
        flags: 0,
        name: Bytes::copy_of(alloc, b"s")?,
        desc: Bytes::copy_of(alloc, b"S")?,
        constant: None,
    })?;
    Ok(row)
}

/// p/T with a short s.
pub(crate) fn class<'a>(alloc: Global) -> Result<ClassTree<'a>, NoMemory> {
    Ok(ClassTree {
        major: 52,
        flags: 0x21,
        name: Bytes::copy_of(alloc, b"p/T")?,
        superclass: Bytes::copy_of(alloc, OBJECT)?,
        interfaces: Row::new(alloc),
        pool: Row::new(alloc),
        fields: field(alloc)?,
        methods: Row::new(alloc),
    })
}

fn line(alloc: Global, class_file: bool, name: &[u8]) -> Result<FileLine, NoMemory> {
    Ok(FileLine {
        class_file,
        name: Bytes::copy_of(alloc, name)?,
    })
}

/// The package of p/T.
pub(crate) fn package<'a>(alloc: Global) -> Result<World<'a>, Fault> {
    let mut lines = Row::new(alloc);
    lines.push(line(alloc, true, b"T")?)?;
    lines.push(line(alloc, false, b"java/lang")?)?;
    let mut classes = Row::new(alloc);
    classes.push(class(alloc)?)?;
    let mut exports = Row::new(alloc);
    exports.push(language(alloc)?)?;
    World::new(alloc, b"list", b"p", lines, classes, exports)
}
