//! Packages, written down as lines of words:
//!
//! - `class FILE:NAME FLAGS SUPERCLASS INTERFACES | MEMBER | ..` is a class file. It is named like the class where
//!   `FILE:` is left out.
//! - `classes COUNT FLAGS` are so many class files more.
//! - `export FILE:PACKAGE` is an export file, and `import NAME FLAGS SUPERS INTERFACES | MEMBER | ..` a class of it.
//! - `language` is the export file of java/lang.
//! - `applets CLASS AIDS` are applet lines for a class, `applets CLASS COUNT` so many with AIDs of their own.
//! - `insn OFFSET NAME OPERAND` is an instruction of the first method of the first class.
//!
//! A member is `FLAGS NAME DESCRIPTOR`, with a token before where it is a method of an export file, and behind it
//! `MAX_STACK MAX_LOCALS HANDLERS CAUGHT` where it is a method with code; `fields COUNT` and `methods COUNT FLAGS` are
//! so many members more. Flags are hexadecimal, lists have commas, and `-` is an empty one. A case is such lines with
//! ` ; ` between them, then ` = ` and what is answered, then maybe ` # ` and why.

ghost use Rattle.std.specs.Prelude.{◌≤◌};

use crate::instructions::instruction;
use cjc_bytes::{AppletLine, Bytes, Fault, FileLine, MemberId, NoMemory, Place, Row};
use cjc_classfile::{Catch, ClassTree, Code, FieldTree, MethodTree};
use cjc_code::JInsn;
use cjc_export::{ExportClass, ExportField, ExportMethod, ExportTree};
use cjc_world::World;
use std::alloc::Global;
use std::mem::replace;

/// Object with a constructor and equals, Throwable, and the exceptions that java/lang needs, each below Throwable.
/// Eight classes in all.
pub(crate) const LANGUAGE: &str = "\
export java/lang
import java/lang/Object 1 - - | 0 1 <init> ()V | 0 1 equals (Ljava/lang/Object;)Z
import java/lang/Throwable 1 java/lang/Object - | 0 1 <init> ()V | 0 1 equals (Ljava/lang/Object;)Z
import java/lang/ArrayIndexOutOfBoundsException 1 java/lang/Throwable,java/lang/Object - \
    | 0 1 <init> ()V | 0 1 equals (Ljava/lang/Object;)Z
import java/lang/ArrayStoreException 1 java/lang/Throwable,java/lang/Object - \
    | 0 1 <init> ()V | 0 1 equals (Ljava/lang/Object;)Z
import java/lang/NegativeArraySizeException 1 java/lang/Throwable,java/lang/Object - \
    | 0 1 <init> ()V | 0 1 equals (Ljava/lang/Object;)Z
import java/lang/ArithmeticException 1 java/lang/Throwable,java/lang/Object - \
    | 0 1 <init> ()V | 0 1 equals (Ljava/lang/Object;)Z
import java/lang/ClassCastException 1 java/lang/Throwable,java/lang/Object - \
    | 0 1 <init> ()V | 0 1 equals (Ljava/lang/Object;)Z
import java/lang/NullPointerException 1 java/lang/Throwable,java/lang/Object - \
    | 0 1 <init> ()V | 0 1 equals (Ljava/lang/Object;)Z";

/// What a package is made of.
pub(crate) struct TestPackage<'a> {
    lines: Row<FileLine>,
    classes: Row<ClassTree<'a>>,
    exports: Vec<ExportTree>,
    applets: Row<AppletLine>,
    insns: Row<JInsn>,
}

impl Drop for TestPackage<'_> {
    fn drop(self) {
        let TestPackage {
            lines: _lines,
            classes: _classes,
            exports: _exports,
            applets: _applets,
            insns: _insns,
        } = self;
    }
}

// ---- words

/// The text before the first such mark, and that behind it: all of it and nothing where there is none.
pub(crate) fn cut<'t>(text: &'t str, mark: &str) -> (&'t str, &'t str) {
    match text.split_once(mark) {
        Some(parts) => parts,
        None => (text, ""),
    }
}

/// A case without its reason, cut at the answer.
pub(crate) fn question_and_answer(case: &str) -> (&str, &str) {
    let (case, _) = cut(case, " # ");
    cut(case, " = ")
}

/// What a list is, where `-` is an empty one.
pub(crate) fn list_of(text: &str) -> &str {
    if text == "-" { "" } else { text }
}

/// The number that a word has in this base; what is none ends the case as want of memory does.
fn number_in(word: &str, base: u32) -> Result<u32, NoMemory>
    requires least { 2 ≤ base }
    requires most { base ≤ 36 }
{
    match u32::from_str_radix(word, base) {
        Ok(number) => Ok(number),
        Err(_) => Err(NoMemory),
    }
}

/// A number in decimal digits.
pub(crate) fn number(word: &str) -> Result<u32, NoMemory> {
    number_in(word, 10)
}

fn small(number: u32) -> Result<u16, NoMemory> {
    if number < 65536 {
        Ok(number as u16)
    } else {
        Err(NoMemory)
    }
}

fn small_number(word: &str) -> Result<u16, NoMemory> {
    small(number(word)?)
}

fn access_flags(word: &str) -> Result<u16, NoMemory> {
    small(number_in(word, 16)?)
}

/// A token of a case, or the type number of an array.
pub(crate) fn token(word: &str) -> Result<u8, NoMemory> {
    let number = number(word)?;
    if number < 256 {
        Ok(number as u8)
    } else {
        Err(NoMemory)
    }
}

/// Whether a word is this number in decimal digits.
pub(crate) fn is_number(word: &str, wanted: u32) -> bool {
    match number(word) {
        Ok(number) => number == wanted,
        Err(_) => false,
    }
}

/// Whether these are the bytes of a word, where `-` has none.
pub(crate) fn is_text(bytes: &Bytes, word: &str) -> bool {
    bytes.items() == list_of(word).as_bytes()
}

/// The bytes of a word, where `-` has none.
pub(crate) fn text(alloc: Global, word: &str) -> Result<Bytes, NoMemory> {
    Bytes::copy_of(alloc, list_of(word).as_bytes())
}

fn texts(alloc: Global, words: &str) -> Result<Row<Bytes>, NoMemory> {
    let mut row = Row::new(alloc);
    if words != "-" {
        for word in words.split(",") {
            row.push(text(alloc, word)?)?;
        }
    }
    Ok(row)
}

/// A class, a name and a descriptor.
pub(crate) fn member_id(alloc: Global, words: &str) -> Result<MemberId, NoMemory> {
    let (class, words) = cut(words, " ");
    let (name, desc) = cut(words, " ");
    Ok(MemberId {
        class: text(alloc, class)?,
        name: text(alloc, name)?,
        desc: text(alloc, desc)?,
    })
}

/// The name of a file, and that of what is in it.
fn file_and_name(word: &str) -> (&str, &str) {
    match word.split_once(":") {
        Some(parts) => parts,
        None => (word, word),
    }
}

fn line(alloc: Global, class_file: bool, name: &str) -> Result<FileLine, NoMemory> {
    Ok(FileLine {
        class_file,
        name: text(alloc, name)?,
    })
}

/// A name that begins so, the number behind it.
fn numbered(alloc: Global, front: &str, number: u16) -> Result<Bytes, NoMemory> {
    let mut name = Vec::from_slice(alloc, front.as_bytes())?;
    name.push(b'a' + (number / 16 % 16) as u8)?;
    name.push(b'a' + (number % 16) as u8)?;
    Ok(Bytes::of(name))
}

/// A static final field has a value.
fn value(flags: u16) -> Option<i32> {
    if flags & 0x18 == 0x18 { Some(1) } else { None }
}

fn is_method(words: &str) -> bool {
    words.split_once("(").is_some()
}

// ---- export files

fn listed_field(alloc: Global, words: &str) -> Result<ExportField, NoMemory> {
    let (flags, words) = cut(words, " ");
    let (name, desc) = cut(words, " ");
    let flags = access_flags(flags)?;
    Ok(ExportField {
        token: 0xFF,
        flags,
        name: text(alloc, name)?,
        desc: text(alloc, desc)?,
        constant: value(flags),
    })
}

fn listed_method(alloc: Global, words: &str) -> Result<ExportMethod, NoMemory> {
    let (number, words) = cut(words, " ");
    let (flags, words) = cut(words, " ");
    let (name, desc) = cut(words, " ");
    Ok(ExportMethod {
        token: token(number)?,
        flags: access_flags(flags)?,
        name: text(alloc, name)?,
        desc: text(alloc, desc)?,
    })
}

fn put_listed(alloc: Global, class: &mut ExportClass, words: &str) -> Result<(), NoMemory> {
    if is_method(words) {
        class.methods.push(listed_method(alloc, words)?)
    } else {
        class.fields.push(listed_field(alloc, words)?)
    }
}

/// A class of an export file without members.
fn imported(alloc: Global, words: &str) -> Result<ExportClass, NoMemory> {
    let (name, words) = cut(words, " ");
    let (flags, words) = cut(words, " ");
    let (supers, interfaces) = cut(words, " ");
    Ok(ExportClass {
        token: 0,
        flags: access_flags(flags)?,
        name: text(alloc, name)?,
        supers: texts(alloc, supers)?,
        interfaces: texts(alloc, interfaces)?,
        fields: Row::new(alloc),
        methods: Row::new(alloc),
    })
}

fn whole_imported(alloc: Global, words: &str) -> Result<ExportClass, NoMemory> {
    let (words, members) = cut(words, " | ");
    let mut class = imported(alloc, words)?;
    if !members.is_empty() {
        for member in members.split(" | ") {
            put_listed(alloc, &mut class, member)?;
        }
    }
    Ok(class)
}

/// An export file without classes.
fn export(alloc: Global, name: &str) -> Result<ExportTree, NoMemory> {
    Ok(ExportTree {
        name: text(alloc, name)?,
        aid: Bytes::new(alloc),
        major: 1,
        minor: 0,
        library: true,
        classes: Row::new(alloc),
    })
}

// ---- class files

fn field(alloc: Global, words: &str) -> Result<FieldTree, NoMemory> {
    let (flags, words) = cut(words, " ");
    let (name, desc) = cut(words, " ");
    let flags = access_flags(flags)?;
    Ok(FieldTree {
        flags,
        name: text(alloc, name)?,
        desc: text(alloc, desc)?,
        constant: value(flags),
    })
}

/// The class that a handler is for; all exceptions where none is named.
fn caught(alloc: Global, word: &str) -> Result<Option<Bytes>, NoMemory> {
    if word == "-" {
        return Ok(None);
    }
    Ok(Some(text(alloc, word)?))
}

/// So many handlers at offset 1.
fn catches(alloc: Global, words: &str) -> Result<Row<Catch>, NoMemory> {
    let (count, class) = cut(words, " ");
    let mut row = Row::new(alloc);
    for _ in 0..small_number(count)? {
        row.push(Catch {
            start: 0,
            end: 1,
            target: 1,
            class: caught(alloc, class)?,
        })?;
    }
    Ok(row)
}

fn code<'a>(alloc: Global, words: &str) -> Result<Option<Code<'a>>, NoMemory> {
    if words.is_empty() {
        return Ok(None);
    }
    let (max_stack, words) = cut(words, " ");
    let (max_locals, handlers) = cut(words, " ");
    Ok(Some(Code {
        max_stack: small_number(max_stack)?,
        max_locals: small_number(max_locals)?,
        bytes: &[],
        catches: catches(alloc, handlers)?,
    }))
}

fn method<'a>(alloc: Global, words: &str) -> Result<MethodTree<'a>, NoMemory> {
    let (flags, words) = cut(words, " ");
    let (name, words) = cut(words, " ");
    let (desc, words) = cut(words, " ");
    Ok(MethodTree {
        flags: access_flags(flags)?,
        name: text(alloc, name)?,
        desc: text(alloc, desc)?,
        code: code(alloc, words)?,
    })
}

/// So many fields of type short.
fn put_fields(alloc: Global, row: &mut Row<FieldTree>, count: &str) -> Result<(), NoMemory> {
    for i in 0..small_number(count)? {
        row.push(FieldTree {
            flags: 1,
            name: numbered(alloc, "n", i)?,
            desc: text(alloc, "S")?,
            constant: None,
        })?;
    }
    Ok(())
}

/// So many methods with these flags.
fn put_methods(alloc: Global, row: &mut Row<MethodTree<'_>>, words: &str) -> Result<(), NoMemory> {
    let (count, flags) = cut(words, " ");
    let flags = access_flags(flags)?;
    for i in 0..small_number(count)? {
        row.push(MethodTree {
            flags,
            name: numbered(alloc, "m", i)?,
            desc: text(alloc, "()V")?,
            code: None,
        })?;
    }
    Ok(())
}

fn put_member(alloc: Global, class: &mut ClassTree<'_>, words: &str) -> Result<(), NoMemory> {
    let (first, rest) = cut(words, " ");
    if first == "fields" {
        put_fields(alloc, &mut class.fields, rest)
    } else if first == "methods" {
        put_methods(alloc, &mut class.methods, rest)
    } else if is_method(words) {
        class.methods.push(method(alloc, words)?)
    } else {
        class.fields.push(field(alloc, words)?)
    }
}

/// A class of this name without members.
fn class<'a>(alloc: Global, name: Bytes, words: &str) -> Result<ClassTree<'a>, NoMemory> {
    let (flags, words) = cut(words, " ");
    let (superclass, interfaces) = cut(words, " ");
    Ok(ClassTree {
        major: 52,
        flags: access_flags(flags)?,
        name,
        superclass: text(alloc, superclass)?,
        interfaces: texts(alloc, interfaces)?,
        pool: Row::new(alloc),
        fields: Row::new(alloc),
        methods: Row::new(alloc),
    })
}

/// A class of this name with its members.
fn whole<'a>(alloc: Global, name: Bytes, words: &str) -> Result<ClassTree<'a>, NoMemory> {
    let (words, members) = cut(words, " | ");
    let mut class = class(alloc, name, words)?;
    if !members.is_empty() {
        for member in members.split(" | ") {
            put_member(alloc, &mut class, member)?;
        }
    }
    Ok(class)
}

// ---- packages

/// Whether two lines begin with the same two words.
fn have_one_head(line: &str, other: &str) -> bool {
    let (kind, words) = cut(line, " ");
    let (other_kind, other_words) = cut(other, " ");
    kind == other_kind && cut(words, " ").0 == cut(other_words, " ").0
}

impl<'a> TestPackage<'a> {
    /// A draft of nothing.
    pub(crate) fn new(alloc: Global) -> TestPackage<'a> {
        TestPackage {
            lines: Row::new(alloc),
            classes: Row::new(alloc),
            exports: Vec::new(alloc),
            applets: Row::new(alloc),
            insns: Row::new(alloc),
        }
    }

    fn put_class(&mut self, alloc: Global, words: &str) -> Result<(), NoMemory> {
        let (names, words) = cut(words, " ");
        let (file, name) = file_and_name(names);
        self.lines.push(line(alloc, true, file)?)?;
        let name = text(alloc, name)?;
        self.classes.push(whole(alloc, name, words)?)
    }

    fn put_classes(&mut self, alloc: Global, words: &str) -> Result<(), NoMemory> {
        let (count, flags) = cut(words, " ");
        let flags = access_flags(flags)?;
        for i in 0..small_number(count)? {
            let file = numbered(alloc, "Z", i)?;
            self.lines.push(FileLine {
                class_file: true,
                name: file,
            })?;
            let mut tree = class(alloc, numbered(alloc, "p/Z", i)?, "0 java/lang/Object -")?;
            tree.flags = flags;
            self.classes.push(tree)?;
        }
        Ok(())
    }

    fn put_export(&mut self, alloc: Global, words: &str) -> Result<(), NoMemory> {
        let (file, name) = file_and_name(words);
        self.lines.push(line(alloc, false, file)?)?;
        self.exports.push(export(alloc, name)?)?;
        Ok(())
    }

    fn put_import(&mut self, alloc: Global, words: &str) -> Result<(), NoMemory> {
        match self.exports.last_mut() {
            Some(file) => file.classes.push(whole_imported(alloc, words)?),
            None => Err(NoMemory),
        }
    }

    fn put_applet(&mut self, alloc: Global, class: &str, aid: Bytes) -> Result<(), NoMemory> {
        self.applets.push(AppletLine {
            class: text(alloc, class)?,
            aid,
        })
    }

    fn put_applets(&mut self, alloc: Global, words: &str) -> Result<(), NoMemory> {
        let (class, aids) = cut(words, " ");
        if let Ok(count) = small_number(aids) {
            for i in 0..count {
                let aid = numbered(alloc, "aid", i)?;
                self.put_applet(alloc, class, aid)?;
            }
            return Ok(());
        }
        for aid in aids.split(",") {
            let aid = text(alloc, aid)?;
            self.put_applet(alloc, class, aid)?;
        }
        Ok(())
    }

    fn put_insn(&mut self, alloc: Global, words: &str) -> Result<(), NoMemory> {
        let (at, words) = cut(words, " ");
        self.insns.push(JInsn {
            at: number(at)?,
            op: instruction(alloc, words)?,
        })
    }

    fn put_line(&mut self, alloc: Global, line: &str) -> Result<(), NoMemory> {
        let (kind, words) = cut(line, " ");
        match kind {
            "class" => self.put_class(alloc, words),
            "classes" => self.put_classes(alloc, words),
            "export" => self.put_export(alloc, words),
            "import" => self.put_import(alloc, words),
            "applets" => self.put_applets(alloc, words),
            "insn" => self.put_insn(alloc, words),
            _ => Err(NoMemory),
        }
    }

    fn put(&mut self, alloc: Global, line: &str) -> Result<(), NoMemory> {
        if line != "language" {
            return self.put_line(alloc, line);
        }
        for line in LANGUAGE.lines() {
            self.put_line(alloc, line)?;
        }
        Ok(())
    }

    fn put_all(&mut self, alloc: Global, lines: &str) -> Result<(), NoMemory> {
        for line in lines.lines() {
            self.put(alloc, line)?;
        }
        Ok(())
    }

    /// The package of a case. The lines around it stand where the case has three dots.
    pub(crate) fn put_case(
        &mut self,
        alloc: Global,
        around: &str,
        case: &str,
    ) -> Result<(), NoMemory> {
        for line in case.split(" ; ") {
            if line == "..." {
                self.put_all(alloc, around)?;
            } else {
                self.put(alloc, line)?;
            }
        }
        Ok(())
    }

    /// These lines with another one, in the place of the one that begins with the same two words, or behind them.
    pub(crate) fn put_altered(
        &mut self,
        alloc: Global,
        lines: &str,
        other: &str,
    ) -> Result<(), NoMemory> {
        let mut is_put = false;
        for line in lines.lines() {
            if have_one_head(line, other) {
                is_put = true;
                self.put(alloc, other)?;
            } else {
                self.put(alloc, line)?;
            }
        }
        if is_put {
            return Ok(());
        }
        self.put(alloc, other)
    }

    /// The applet lines, which are the draft's no more.
    pub(crate) fn take_applets(&mut self, alloc: Global) -> Row<AppletLine> {
        replace(&mut self.applets, Row::new(alloc))
    }

    /// The instructions, which are the draft's no more.
    pub(crate) fn take_insns(&mut self, alloc: Global) -> Row<JInsn> {
        replace(&mut self.insns, Row::new(alloc))
    }

    /// The package p of these files.
    pub(crate) fn world(self, alloc: Global) -> Result<World<'a>, Fault> {
        let TestPackage {
            lines,
            classes,
            exports,
            applets: _applets,
            insns: _insns,
        } = self;
        let exports = Row::of(exports);
        World::new(alloc, b"list", b"p", lines, classes, exports)
    }
}

/// The package p of a case among the lines around it.
pub(crate) fn world_of<'a>(alloc: Global, around: &str, case: &str) -> Result<World<'a>, Fault> {
    let mut draft = TestPackage::new(alloc);
    draft.put_case(alloc, around, case)?;
    draft.world(alloc)
}

// ---- answers

fn is_place(place: &Place, words: &str) -> bool {
    let (file, words) = cut(words, " ");
    let (class, words) = cut(words, " ");
    let (member, offset) = cut(words, " ");
    is_text(&place.file, file)
        && is_text(&place.class, class)
        && is_text(&place.member, member)
        && is_number(offset, place.offset)
}

/// Whether a fault is the refusal of these words: the rule, the file, the class, the member and the offset.
pub(crate) fn is_refusal(fault: &Fault, words: &str) -> bool {
    let (rule, words) = cut(words, " ");
    match fault {
        Fault::Refused(refusal) => {
            is_number(rule, refusal.rule.0 as u32) && is_place(&refusal.place, words)
        }
        Fault::NoMemory => false,
    }
}
