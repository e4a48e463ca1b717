//! Class trees: `FLAGS NAME SUPERCLASS INTERFACES | MEMBER | ..`, where a member is `FLAGS NAME DESCRIPTOR`, and maybe
//! the value of a field. Flags are hexadecimal, lists have commas, and `-` is an empty one. The code of a method stands
//! apart. Knows no world.

use crate::cases::words::{cut, flags, number, small_number, text, texts};
use cjc_capwrite::bytes::{Bytes, NoMemory, Row};
use cjc_world::classfile::{
    Catch, ClassTree, Code, FieldTree, ItemKind, MemberText, MethodTree, PoolItem,
};
use std::alloc::Global;

/// The value of a field; none where there is no word.
fn value(word: &str) -> Result<Option<i32>, NoMemory> {
    if word.is_empty() {
        return Ok(None);
    }
    match i32::from_str_radix(word, 10) {
        Ok(value) => Ok(Some(value)),
        Err(_) => Err(NoMemory),
    }
}

fn field(alloc: Global, words: &str) -> Result<FieldTree, NoMemory> {
    let (access, words) = cut(words, " ");
    let (name, words) = cut(words, " ");
    let (desc, constant) = cut(words, " ");
    Ok(FieldTree {
        flags: flags(access)?,
        name: text(alloc, name)?,
        desc: text(alloc, desc)?,
        constant: value(constant)?,
    })
}

fn method<'t>(alloc: Global, words: &str) -> Result<MethodTree<'t>, NoMemory> {
    let (access, words) = cut(words, " ");
    let (name, desc) = cut(words, " ");
    Ok(MethodTree {
        flags: flags(access)?,
        name: text(alloc, name)?,
        desc: text(alloc, desc)?,
        code: None,
    })
}

fn put_member(alloc: Global, class: &mut ClassTree<'_>, words: &str) -> Result<(), NoMemory> {
    if words.split_once("(").is_some() {
        class.methods.push(method(alloc, words)?)
    } else {
        class.fields.push(field(alloc, words)?)
    }
}

fn bare_class<'t>(alloc: Global, words: &str) -> Result<ClassTree<'t>, NoMemory> {
    let (access, words) = cut(words, " ");
    let (name, words) = cut(words, " ");
    let (superclass, interfaces) = cut(words, " ");
    Ok(ClassTree {
        major: 52,
        flags: flags(access)?,
        name: text(alloc, name)?,
        superclass: text(alloc, superclass)?,
        interfaces: texts(alloc, interfaces)?,
        pool: Row::new(alloc),
        fields: Row::new(alloc),
        methods: Row::new(alloc),
    })
}

/// A class of these words, with an empty pool and methods without code.
pub fn class<'t>(alloc: Global, words: &str) -> Result<ClassTree<'t>, NoMemory> {
    let (words, members) = cut(words, " | ");
    let mut class = bare_class(alloc, words)?;
    if !members.is_empty() {
        for member in members.split(" | ") {
            put_member(alloc, &mut class, member)?;
        }
    }
    Ok(class)
}

/// A class, a name and a descriptor.
fn member(words: &str) -> MemberText<'_> {
    let (class, words) = cut(words, " ");
    let (name, desc) = cut(words, " ");
    MemberText {
        class: class.as_bytes(),
        name: name.as_bytes(),
        desc: desc.as_bytes(),
    }
}

fn pool_item(line: &str) -> Result<PoolItem<'_>, NoMemory> {
    let (kind, words) = cut(line, " ");
    let kind = match kind {
        "int" => ItemKind::Int(number(words)?.cast_signed()),
        "class" => ItemKind::Class(words.as_bytes()),
        "field" => ItemKind::Field(member(words)),
        "method" => ItemKind::Method(member(words)),
        "interface" => ItemKind::InterfaceMethod(member(words)),
        _ => return Err(NoMemory),
    };
    Ok(PoolItem { kind })
}

/// A constant pool, an entry a line from index 1 on: `int NUMBER`, `class NAME`, or `field`, `method` or
/// `interface` with a class, a name and a descriptor.
pub fn pool<'t>(alloc: Global, lines: &'t str) -> Result<Row<PoolItem<'t>>, NoMemory> {
    let mut pool = Row::new(alloc);
    pool.push(PoolItem {
        kind: ItemKind::Other,
    })?;
    for line in lines.lines() {
        pool.push(pool_item(line)?)?;
    }
    Ok(pool)
}

/// The class that a handler is for; all exceptions where none is named.
fn caught(alloc: Global, word: &str) -> Result<Option<Bytes>, NoMemory> {
    if word.is_empty() {
        return Ok(None);
    }
    Ok(Some(text(alloc, word)?))
}

/// A handler: where its range begins, ends and where it goes, and maybe a class.
fn catch(alloc: Global, words: &str) -> Result<Catch, NoMemory> {
    let (start, words) = cut(words, " ");
    let (end, words) = cut(words, " ");
    let (target, class) = cut(words, " ");
    Ok(Catch {
        start: small_number(start)?,
        end: small_number(end)?,
        target: small_number(target)?,
        class: caught(alloc, class)?,
    })
}

/// A code of these bytes: `MAX_STACK MAX_LOCALS`, and then ` catch ` and a handler for each.
pub fn code<'t>(alloc: Global, words: &str, bytes: &'t [u8]) -> Result<Code<'t>, NoMemory> {
    let (numbers, handlers) = cut(words, " catch ");
    let (max_stack, max_locals) = cut(numbers, " ");
    let mut catches = Row::new(alloc);
    if !handlers.is_empty() {
        for handler in handlers.split(" catch ") {
            catches.push(catch(alloc, handler)?)?;
        }
    }
    Ok(Code {
        max_stack: small_number(max_stack)?,
        max_locals: small_number(max_locals)?,
        bytes,
        catches,
    })
}
