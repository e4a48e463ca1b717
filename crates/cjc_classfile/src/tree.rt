//! What a class file says (Java Virtual Machine Specification, chapter 4): the tree that its bytes spell.
//! Names and descriptors are bytes as they stand in the constant pool.

use cjc_bytes::{Bytes, Row};
use std::marker::Model;

/// The texts of the constant pool that name a field or method.
#[derive(Clone, Copy)]
pub struct MemberText<'a> {
    pub class: &'a [u8],
    pub name: &'a [u8],
    pub desc: &'a [u8],
}

/// The kinds of item, with texts that stay in the file: many entries may name one text.
#[derive(Drop)]
pub enum ItemKind<'a> {
    /// An Integer.
    Int(i32),
    /// A Class, by its name; of an array class its descriptor.
    Class(&'a [u8]),
    Field(MemberText<'a>),
    Method(MemberText<'a>),
    InterfaceMethod(MemberText<'a>),
    /// Any other entry, index 0, and the index after a Long or Double.
    Other,
}

/// What an entry of the constant pool means to code (section 4.4).
#[derive(Drop)]
pub struct PoolItem<'a> {
    pub kind: ItemKind<'a>,
}

impl<'a> Model for PoolItem<'a> {
    ghost use Rattle.cjc_classfile.specs.PoolItem.{PoolItem as Seen};
    ghost use Rattle.cjc_classfile.specs.KeptItem.{item_of};

    ghost Value = { Seen };

    ghost view = { λ i. item_of i.kind };
}

/// A field (section 4.5).
#[derive(Drop)]
pub struct FieldTree {
    pub flags: u16,
    pub name: Bytes,
    pub desc: Bytes,
    /// The number that the ConstantValue of a static field names, where that is an Integer (section 4.7.2).
    pub constant: Option<i32>,
}

/// An entry of an exception table (section 4.7.3), its places in bytes from the start of the code.
#[derive(Drop)]
pub struct Catch {
    /// The first place that is covered.
    pub start: u16,
    /// The first place after `start` that is not covered.
    pub end: u16,
    /// Where the handler begins.
    pub target: u16,
    /// The class that is caught; none where everything is.
    pub class: Option<Bytes>,
}

/// The code of a method (section 4.7.3).
pub struct Code<'a> {
    /// In words.
    pub max_stack: u16,
    /// In words.
    pub max_locals: u16,
    /// The instructions, 1 to 65,535 bytes.
    pub bytes: &'a [u8],
    pub catches: Row<Catch>,
}

impl Drop for Code<'_> {
    fn drop(self) {
        let Code {
            max_stack: _max_stack,
            max_locals: _max_locals,
            bytes: _bytes,
            catches: _catches,
        } = self;
    }
}

impl<'a> Model for Code<'a> {
    ghost use Rattle.cjc_classfile.specs.Code.{CodeTree};

    ghost Value = { CodeTree };

    ghost view = { λ c. record {
      max_stack = c.max_stack;
      max_locals = c.max_locals;
      bytes = c.bytes.now;
      catches = c.catches;
    } };
}

/// A method (section 4.6).
pub struct MethodTree<'a> {
    pub flags: u16,
    pub name: Bytes,
    pub desc: Bytes,
    /// There exactly where the method is neither abstract nor native.
    pub code: Option<Code<'a>>,
}

impl Drop for MethodTree<'_> {
    fn drop(self) {
        let MethodTree {
            flags: _flags,
            name: _name,
            desc: _desc,
            code: _code,
        } = self;
    }
}

/// A class or interface (section 4.1).
pub struct ClassTree<'a> {
    /// The major version, 45 to 52.
    pub major: u16,
    pub flags: u16,
    pub name: Bytes,
    pub superclass: Bytes,
    pub interfaces: Row<Bytes>,
    /// One item an index, from 0.
    pub pool: Row<PoolItem<'a>>,
    pub fields: Row<FieldTree>,
    pub methods: Row<MethodTree<'a>>,
}

impl Drop for ClassTree<'_> {
    fn drop(self) {
        let ClassTree {
            major: _major,
            flags: _flags,
            name: _name,
            superclass: _superclass,
            interfaces: _interfaces,
            pool: _pool,
            fields: _fields,
            methods: _methods,
        } = self;
    }
}
