//! The components of the package p, made by hand: p/I, an interface with a()S and b()S; p/T, whose static method f is a
//! row's; and p/U below it. Called by runs.rt; it knows no row.

ghost use Rattle.std.specs.Prelude.{◌≤◌};

use cjc_card::bytes::{Bytes, NoMemory, Out, Row};
use cjc_card::capread::{
    ClassInfo, Component, ConstantPool, Descriptor, Method, StaticField, read as read_component,
};
use cjc_card::export_file::{ExportTree, read as read_export};
use cjc_tests_files::case_files::{LANG, Q};
use cjc_tests_files::cases::octets;
use std::alloc::Global;

/// The constant pool; java/lang is package 0, and q package 1.
const POOL: [&str; 42] = [
    "00,29",
    "01,80,00,00", // 00 java/lang/Object
    "01,00,03,00", // 01 p/T
    "01,00,1C,00", // 02 p/U
    "01,00,02,00", // 03 p/I
    "01,80,04,00", // 04 java/lang/ArithmeticException
    "01,80,03,00", // 05 java/lang/RuntimeException
    "01,80,06,00", // 06 java/lang/NullPointerException
    "02,00,03,04", // 07 the field r of p/T
    "02,00,03,00", // 08 b
    "02,00,03,01", // 09 s
    "02,00,03,02", // 0A i
    "02,00,1C,00", // 0B t of p/U
    "03,00,03,01", // 0C p/T.v
    "03,00,03,02", // 0D w
    "03,00,03,03", // 0E x
    "03,00,03,04", // 0F g, which is abstract
    "03,00,03,05", // 10 a token past the tables
    "03,00,03,80", // 11 h, which is package-visible
    "03,80,00,00", // 12 java/lang/Object.equals
    "03,81,00,01", // 13 q/A.a
    "04,00,1C,02", // 14 w of the superclass of p/U
    "06,00,00,21", // 15 p/T.one
    "06,00,00,27", // 16 next
    "06,00,00,2D", // 17 k, which is private
    "06,00,00,4C", // 18 <init>
    "06,00,00,59", // 19 part
    "06,80,00,00", // 1A java/lang/Object.<init>
    "06,81,00,00", // 1B q/A.<init>
    "06,81,00,01", // 1C q/A.z, which is static
    "05,00,00,00", // 1D the static field a
    "05,00,00,02", // 1E o
    "05,00,00,04", // 1F c
    "05,00,00,05", // 20 d
    "05,00,00,07", // 21 j
    "05,00,00,0B", // 22 n
    "05,00,00,09", // 23 the low half of j
    "05,00,00,0D", // 24 past the image
    "01,81,00,00", // 25 q/A
    "06,00,00,5F", // 26 p/T.two
    "02,00,03,05", // 27 a field that p/T has not
    "06,81,00,05", // 28 a method that q/A has not
];

/// p/I at 2; p/T at 3, with tokens 1 to 4 and one package-visible method; p/U at 28, whose tables begin at 2 and 1.
const CLASSES: [&str; 8] = [
    "00,00",
    "80",
    "01,80,00,05,04,01,01,04,00,01",
    "00,32,00,36,00,3A,00,53", // v, w, x, g
    "00,3E", // h
    "00,02,02,02,01", // p/I.a is w, and b is v
    "00,00,03,01,FF,00,02,03,01,00",
    "00,42,FF,FF,00,55", // w, that of the superclass, g
];

/// What stands from 33 on: headers and code.
const METHODS: [&str; 13] = [
    "02,10,1C,04,41,78", // 21 one(S)S: the sum of the argument and 1
    "04,30,21,0B,42,79", // 27 next(SI)I: the sum of the second argument and 1
    "01,10,10,09,78", // 2D k()S: 9
    "01,10,04,78", // 32 v()S: 1
    "01,10,05,78", // 36 w()S: 2
    "01,10,06,78", // 3A x()S: 3
    "01,10,07,78", // 3E h()S: 4
    "02,10,18,8C,00,14,10,14,41,78", // 42 w()S of p/U: 20 and what the superclass gives
    "01,10,18,8C,00,1A,7A", // 4C <init>()V
    "40,10", // 53 g()S
    "01,10,08,78", // 55 g()S of p/U: 5
    "02,10,04,1C,47,78", // 59 part(S)S: 1 through the argument
    "01,00,05,78", // 5F two()S: 2
];

/// Descriptor up to the length of the code of f.
const DESCRIPTOR_HEAD: [&str; 6] = [
    "03",
    "FF,41,00,02,00,00,00,00,02",
    "00,41,00,00,00,00,00,00,00,00,00,00",
    "01,41,00,00,00,00,00,00,00,00,00,00",
    "FF,01,00,03,01,00,00,00,0C,00,02",
    "FF,09,00,FE,00,00",
];

/// What follows the length of the code of f.
const DESCRIPTOR_TAIL: [&str; 16] = [
    "00,00,00,00",
    "FF,09,00,21,00,00,00,04,00,00,00,00", // one
    "FF,09,00,27,00,00,00,04,00,00,00,00", // next
    "FF,02,00,2D,00,00,00,03,00,00,00,00", // k
    "01,01,00,32,00,00,00,02,00,00,00,00", // v
    "02,01,00,36,00,00,00,02,00,00,00,00", // w
    "03,01,00,3A,00,00,00,02,00,00,00,00", // x
    "80,00,00,3E,00,00,00,02,00,00,00,00", // h
    "00,81,00,4C,00,00,00,05,00,00,00,00", // <init>
    "04,41,00,53,00,00,00,00,00,00,00,00", // g
    "FF,09,00,59,00,00,00,04,00,00,00,00", // part
    "FF,09,00,5F,00,00,00,02,00,00,00,00", // two
    "FF,01,00,1C,00,00,00,00,02",
    "02,01,00,42,00,00,00,08,00,00,00,00", // w of p/U
    "04,01,00,55,00,00,00,02,00,00,00,00", // g of p/U
    "00,00",
];

/// Two references, the first to an array of the shorts 1 and -2; then seven bytes that are 0, and a short that is 7.
const STATICS: [&str; 3] = [
    "00,0D,00,02,00,01",
    "04,00,04,00,01,FF,FE",
    "00,07,00,02,00,07",
];

const ZEROS: [u8; 160] = [0; 160];

/// The components that all rows share, and the export files.
pub(crate) struct Shared {
    pub(crate) pool: ConstantPool,
    pub(crate) class: ClassInfo,
    pub(crate) statics: StaticField,
    pub(crate) exports: Row<ExportTree>,
}

impl Drop for Shared {
    fn drop(self) {
        let Shared {
            pool: _pool,
            class: _class,
            statics: _statics,
            exports: _exports,
        } = self;
    }
}

fn put_lines(alloc: Global, out: &mut Out, lines: &[&str]) -> Result<(), NoMemory> {
    for line in lines {
        if !line.is_empty() {
            let bytes = octets(alloc, line)?;
            out.put_slice(bytes.as_slice())?;
        }
    }
    Ok(())
}

fn bytes_of(alloc: Global, lines: &[&str]) -> Result<Bytes, NoMemory> {
    let mut out = Out::new(alloc);
    put_lines(alloc, &mut out, lines)?;
    Ok(out.finish())
}

fn count(number: usize) -> Result<u16, NoMemory> {
    if number < 65536 {
        Ok(number as u16)
    } else {
        Err(NoMemory)
    }
}

/// The file of a component.
fn file_of(alloc: Global, tag: u8, info: &[u8]) -> Result<Bytes, NoMemory> {
    let mut out = Out::new(alloc);
    out.put1(tag)?;
    out.put2(count(info.len())?)?;
    out.put_slice(info)?;
    Ok(out.finish())
}

fn component(alloc: Global, tag: u8, info: &[u8]) -> Result<Component, NoMemory>
    requires { (1 ≤ tag) × (tag ≤ 11) }
{
    let file = file_of(alloc, tag, info)?;
    let bytes = file.items();
    if bytes.len() > 70000 {
        return Err(NoMemory);
    }
    match read_component(alloc, b"", tag, bytes) {
        Ok(component) => Ok(component),
        Err(_) => Err(NoMemory),
    }
}

fn constant_pool(alloc: Global) -> Result<ConstantPool, NoMemory> {
    let info = bytes_of(alloc, &POOL)?;
    let component = component(alloc, 5, info.items())?;
    component.into_pool().ok_or(NoMemory)
}

fn class_info(alloc: Global) -> Result<ClassInfo, NoMemory> {
    let info = bytes_of(alloc, &CLASSES)?;
    let component = component(alloc, 6, info.items())?;
    component.into_class().ok_or(NoMemory)
}

fn static_field(alloc: Global) -> Result<StaticField, NoMemory> {
    let info = bytes_of(alloc, &STATICS)?;
    let component = component(alloc, 8, info.items())?;
    component.into_statics().ok_or(NoMemory)
}

fn export_file(alloc: Global, bytes: &[u8]) -> Result<ExportTree, NoMemory> {
    if bytes.len() > 70000 {
        return Err(NoMemory);
    }
    match read_export(alloc, b"", bytes) {
        Ok(tree) => Ok(tree),
        Err(_) => Err(NoMemory),
    }
}

fn export_files(alloc: Global) -> Result<Row<ExportTree>, NoMemory> {
    let mut exports = Row::new(alloc);
    exports.push(export_file(alloc, LANG)?)?;
    exports.push(export_file(alloc, Q)?)?;
    Ok(exports)
}

/// The components that all rows share.
pub(crate) fn made_once(alloc: Global) -> Result<Shared, NoMemory> {
    let pool = constant_pool(alloc)?;
    let class = class_info(alloc)?;
    let statics = static_field(alloc)?;
    let exports = export_files(alloc)?;
    Ok(Shared {
        pool,
        class,
        statics,
        exports,
    })
}

/// The info of Method: four handlers, those past a row's over no byte; the methods from 33 on; and a row's
/// method at 254.
fn method_info(alloc: Global, code: &[u8], handlers: &[u8]) -> Result<Bytes, NoMemory> {
    if handlers.len() > 32 {
        return Err(NoMemory);
    }
    let mut out = Out::new(alloc);
    out.put1(4)?;
    out.put_slice(handlers)?;
    out.put_slice(&ZEROS[handlers.len()..32])?;
    put_lines(alloc, &mut out, &METHODS)?;
    out.put_slice(&ZEROS[..155])?;
    out.put_slice(code)?;
    Ok(out.finish())
}

/// Method with a row's method and its handlers.
pub(crate) fn method(alloc: Global, code: &[u8], handlers: &[u8]) -> Result<Method, NoMemory> {
    let info = method_info(alloc, code, handlers)?;
    let component = component(alloc, 7, info.items())?;
    component.into_method().ok_or(NoMemory)
}

/// The bytes of the header of a method.
fn header_size(code: &[u8]) -> usize {
    match code.first() {
        Some(flags) if *flags >= 0x80 => 4,
        _ => 2,
    }
}

fn descriptor_info(alloc: Global, code: &[u8]) -> Result<Bytes, NoMemory> {
    let mut out = Out::new(alloc);
    put_lines(alloc, &mut out, &DESCRIPTOR_HEAD)?;
    out.put2(count(code.len().saturating_sub(header_size(code)))?)?;
    put_lines(alloc, &mut out, &DESCRIPTOR_TAIL)?;
    Ok(out.finish())
}

/// Descriptor, by the length of a row's method.
pub(crate) fn descriptor(alloc: Global, code: &[u8]) -> Result<Descriptor, NoMemory> {
    let info = descriptor_info(alloc, code)?;
    let component = component(alloc, 11, info.items())?;
    component.into_descriptor().ok_or(NoMemory)
}
