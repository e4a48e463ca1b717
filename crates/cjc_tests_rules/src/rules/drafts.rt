//! Packages, written down as lines of words:
//!
//! - `class FLAGS NAME SUPERCLASS INTERFACES | MEMBER | ..` is a class file, which is named like the class.
//! - `export PACKAGE` is an export file, and `import NAME FLAGS SUPERS INTERFACES | MEMBER | ..` a class of it.
//! - `language` is the export file of java/lang.
//! - `applet CLASS` is an applet line for a class.
//!
//! A member is `FLAGS NAME DESCRIPTOR`, with a token before where it is a method of an export file, and maybe the value
//! of a field behind it in a class file. Flags are hexadecimal, lists have commas, and `-` is an empty one. A case is
//! such lines with ` ; ` between them, then ` = ` and what is answered, then maybe ` # ` and why.

use cjc_tests_files::cases::{class, cut, flags, line, number, text, texts};
use cjc_types::classfile::ClassTree;
use cjc_vtable::bytes::{AppletLine, Bytes, Fault, FileLine, MemberId, NoMemory, Row};
use cjc_vtable::export_file::{ExportClass, ExportField, ExportMethod, ExportTree};
use cjc_vtable::world::World;
use std::alloc::Global;
use std::mem::replace;

/// Object with a constructor and equals, Throwable, and the exceptions that java/lang needs, each below Throwable.
/// Eight classes in all.
pub(crate) const LANGUAGE: &str = "\
export java/lang
import java/lang/Object 1 - - | 0 1 <init> ()V | 0 1 equals (Ljava/lang/Object;)Z
import java/lang/Throwable 1 java/lang/Object - | 0 1 <init> ()V | 0 1 equals (Ljava/lang/Object;)Z
import java/lang/ArrayIndexOutOfBoundsException 1 java/lang/Throwable,java/lang/Object - \
    | 0 1 <init> ()V | 0 1 equals (Ljava/lang/Object;)Z
import java/lang/ArrayStoreException 1 java/lang/Throwable,java/lang/Object - \
    | 0 1 <init> ()V | 0 1 equals (Ljava/lang/Object;)Z
import java/lang/NegativeArraySizeException 1 java/lang/Throwable,java/lang/Object - \
    | 0 1 <init> ()V | 0 1 equals (Ljava/lang/Object;)Z
import java/lang/ArithmeticException 1 java/lang/Throwable,java/lang/Object - \
    | 0 1 <init> ()V | 0 1 equals (Ljava/lang/Object;)Z
import java/lang/ClassCastException 1 java/lang/Throwable,java/lang/Object - \
    | 0 1 <init> ()V | 0 1 equals (Ljava/lang/Object;)Z
import java/lang/NullPointerException 1 java/lang/Throwable,java/lang/Object - \
    | 0 1 <init> ()V | 0 1 equals (Ljava/lang/Object;)Z";

/// What a package is made of.
pub(crate) struct TestPackage<'a> {
    lines: Row<FileLine>,
    classes: Row<ClassTree<'a>>,
    exports: Vec<ExportTree>,
    applets: Row<AppletLine>,
}

impl Drop for TestPackage<'_> {
    fn drop(self) {
        let TestPackage {
            lines: _lines,
            classes: _classes,
            exports: _exports,
            applets: _applets,
        } = self;
    }
}

/// What a list is, where `-` is an empty one.
pub(crate) fn list_of(text: &str) -> &str {
    if text == "-" { "" } else { text }
}

/// A token of a case.
pub(crate) fn token(word: &str) -> Result<u8, NoMemory> {
    let number = number(word)?;
    if number < 256 {
        Ok(number as u8)
    } else {
        Err(NoMemory)
    }
}

/// A class, a name and a descriptor.
pub(crate) fn member_id(alloc: Global, words: &str) -> Result<MemberId, NoMemory> {
    let (class, words) = cut(words, " ");
    let (name, desc) = cut(words, " ");
    Ok(MemberId {
        class: text(alloc, class)?,
        name: text(alloc, name)?,
        desc: text(alloc, desc)?,
    })
}

/// A static final field has a value.
fn value(flags: u16) -> Option<i32> {
    if flags & 0x18 == 0x18 { Some(1) } else { None }
}

fn is_method(words: &str) -> bool {
    words.split_once("(").is_some()
}

// ---- export files

fn listed_field(alloc: Global, words: &str) -> Result<ExportField, NoMemory> {
    let (access, words) = cut(words, " ");
    let (name, desc) = cut(words, " ");
    let flags = flags(access)?;
    Ok(ExportField {
        token: 0xFF,
        flags,
        name: text(alloc, name)?,
        desc: text(alloc, desc)?,
        constant: value(flags),
    })
}

fn listed_method(alloc: Global, words: &str) -> Result<ExportMethod, NoMemory> {
    let (number, words) = cut(words, " ");
    let (access, words) = cut(words, " ");
    let (name, desc) = cut(words, " ");
    Ok(ExportMethod {
        token: token(number)?,
        flags: flags(access)?,
        name: text(alloc, name)?,
        desc: text(alloc, desc)?,
    })
}

fn put_listed(alloc: Global, class: &mut ExportClass, words: &str) -> Result<(), NoMemory> {
    if is_method(words) {
        class.methods.push(listed_method(alloc, words)?)
    } else {
        class.fields.push(listed_field(alloc, words)?)
    }
}

/// A class of an export file without members.
fn imported(alloc: Global, words: &str) -> Result<ExportClass, NoMemory> {
    let (name, words) = cut(words, " ");
    let (access, words) = cut(words, " ");
    let (supers, interfaces) = cut(words, " ");
    Ok(ExportClass {
        token: 0,
        flags: flags(access)?,
        name: text(alloc, name)?,
        listed: texts(alloc, supers)?,
        supers: texts(alloc, supers)?,
        interfaces: texts(alloc, interfaces)?,
        fields: Row::new(alloc),
        methods: Row::new(alloc),
    })
}

fn whole_imported(alloc: Global, words: &str) -> Result<ExportClass, NoMemory> {
    let (words, members) = cut(words, " | ");
    let mut class = imported(alloc, words)?;
    if !members.is_empty() {
        for member in members.split(" | ") {
            put_listed(alloc, &mut class, member)?;
        }
    }
    Ok(class)
}

/// An export file without classes.
fn export(alloc: Global, name: &str) -> Result<ExportTree, NoMemory> {
    Ok(ExportTree {
        name: text(alloc, name)?,
        aid: Bytes::new(alloc),
        major: 1,
        minor: 0,
        library: true,
        classes: Row::new(alloc),
    })
}

// ---- packages

impl<'a> TestPackage<'a> {
    /// A draft of nothing.
    pub(crate) fn new(alloc: Global) -> TestPackage<'a> {
        TestPackage {
            lines: Row::new(alloc),
            classes: Row::new(alloc),
            exports: Vec::new(alloc),
            applets: Row::new(alloc),
        }
    }

    fn put_class(&mut self, alloc: Global, words: &str) -> Result<(), NoMemory> {
        let (_, behind) = cut(words, " ");
        let (name, _) = cut(behind, " ");
        self.lines.push(line(alloc, true, name)?)?;
        self.classes.push(class(alloc, words)?)
    }

    fn put_export(&mut self, alloc: Global, name: &str) -> Result<(), NoMemory> {
        self.lines.push(line(alloc, false, name)?)?;
        self.exports.push(export(alloc, name)?)?;
        Ok(())
    }

    fn put_import(&mut self, alloc: Global, words: &str) -> Result<(), NoMemory> {
        match self.exports.last_mut() {
            Some(file) => file.classes.push(whole_imported(alloc, words)?),
            None => Err(NoMemory),
        }
    }

    fn put_applet(&mut self, alloc: Global, class: &str) -> Result<(), NoMemory> {
        self.applets.push(AppletLine {
            class: text(alloc, class)?,
            aid: Bytes::new(alloc),
        })
    }

    fn put_line(&mut self, alloc: Global, line: &str) -> Result<(), NoMemory> {
        let (kind, words) = cut(line, " ");
        match kind {
            "class" => self.put_class(alloc, words),
            "export" => self.put_export(alloc, words),
            "import" => self.put_import(alloc, words),
            "applet" => self.put_applet(alloc, words),
            _ => Err(NoMemory),
        }
    }

    fn put(&mut self, alloc: Global, line: &str) -> Result<(), NoMemory> {
        if line != "language" {
            return self.put_line(alloc, line);
        }
        for line in LANGUAGE.lines() {
            self.put_line(alloc, line)?;
        }
        Ok(())
    }

    /// Lines, one behind the other.
    pub(crate) fn put_all(&mut self, alloc: Global, lines: &str) -> Result<(), NoMemory> {
        for line in lines.lines() {
            self.put(alloc, line)?;
        }
        Ok(())
    }

    /// The package of a case. The lines around it stand where the case has three dots.
    pub(crate) fn put_case(
        &mut self,
        alloc: Global,
        around: &str,
        case: &str,
    ) -> Result<(), NoMemory> {
        for line in case.split(" ; ") {
            if line == "..." {
                self.put_all(alloc, around)?;
            } else {
                self.put(alloc, line)?;
            }
        }
        Ok(())
    }

    /// The applet lines, which are the draft's no more.
    pub(crate) fn take_applets(&mut self, alloc: Global) -> Row<AppletLine> {
        replace(&mut self.applets, Row::new(alloc))
    }

    /// The package p of these files.
    pub(crate) fn world(self, alloc: Global) -> Result<World<'a>, Fault> {
        let TestPackage {
            lines,
            classes,
            exports,
            applets: _applets,
        } = self;
        let exports = Row::of(exports);
        World::new(alloc, b"list", b"p", lines, classes, exports)
    }
}

/// The package p of a case among the lines around it.
pub(crate) fn world_of<'a>(alloc: Global, around: &str, case: &str) -> Result<World<'a>, Fault> {
    let mut draft = TestPackage::new(alloc);
    draft.put_case(alloc, around, case)?;
    draft.world(alloc)
}
