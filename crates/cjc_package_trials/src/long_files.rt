//! Files that are long, made of few words: the class p/T with methods f, with constants or with calls, and the export
//! file of what it calls. It knows no rule.

use cjc_bytes::{Bytes, NoMemory, Out};
use std::alloc::Global;

/// Bytes, and how often they stand behind one another.
pub(crate) type Run<'r> = (&'r [u8], usize);

/// A method f of p/T: abstract where it has no code, else static.
pub(crate) struct Method {
    pub desc: Bytes,
    pub code: Bytes,
}

impl Drop for Method {
    fn drop(self) {
        let Method {
            desc: _desc,
            code: _code,
        } = self;
    }
}

fn runs(alloc: Global, runs: &[Run<'_>]) -> Result<Bytes, NoMemory> {
    let mut out = Out::new(alloc);
    for (bytes, times) in runs {
        for _ in 0..*times {
            out.put_slice(bytes)?;
        }
    }
    Ok(out.finish())
}

pub(crate) fn make_method(
    alloc: Global,
    desc: &[Run<'_>],
    code: &[Run<'_>],
) -> Result<Method, NoMemory> {
    Ok(Method {
        desc: runs(alloc, desc)?,
        code: runs(alloc, code)?,
    })
}

fn count(number: usize) -> Result<u16, NoMemory> {
    if number < 65536 {
        Ok(number as u16)
    } else {
        Err(NoMemory)
    }
}

fn put_text(out: &mut Out, text: &[u8]) -> Result<(), NoMemory> {
    out.put1(1)?;
    out.put2(count(text.len())?)?;
    out.put_slice(text)
}

/// What stands before the pool's own entries: entry 2 is the class p/T, and entry 4 java/lang/Object.
fn put_front(out: &mut Out, entries: usize) -> Result<(), NoMemory> {
    out.put_slice(b"\xCA\xFE\xBA\xBE\x00\x00\x004")?;
    out.put2(count(entries)?)?;
    out.put_slice(b"\x01\x00\x03p/T\x07\x00\x01\x01\x00\x10java/lang/Object\x07\x00\x03")
}

/// A method whose descriptor is this entry of the pool; entry 5 is its name, and entry 6 that of its code.
fn put_method(out: &mut Out, desc: u16, code: &[u8]) -> Result<(), NoMemory> {
    if code.is_empty() {
        out.put_slice(b"\x04\x01\x00\x05")?;
        out.put2(desc)?;
        return out.put2(0);
    }
    let length = u32::from(count(code.len())?);
    out.put_slice(b"\x00\x08\x00\x05")?;
    out.put2(desc)?;
    out.put_slice(b"\x00\x01\x00\x06")?;
    out.put4(12 + length)?;
    out.put_slice(b"\x00\x01\x00\xFF")?;
    out.put4(length)?;
    out.put_slice(code)?;
    out.put4(0)
}

/// The abstract class p/T with these methods.
pub(crate) fn with_methods(alloc: Global, methods: &[Method]) -> Result<Bytes, NoMemory> {
    let number = count(methods.len())?;
    let mut out = Out::new(alloc);
    put_front(&mut out, 7 + usize::from(number))?;
    put_text(&mut out, b"f")?;
    put_text(&mut out, b"Code")?;
    for method in methods {
        put_text(&mut out, method.desc.items())?;
    }
    out.put_slice(b"\x04\x21\x00\x02\x00\x04\x00\x00\x00\x00")?;
    out.put2(number)?;
    for (place, method) in methods.iter().enumerate() {
        put_method(&mut out, count(place)?.wrapping_add(7), method.code.items())?;
    }
    out.put2(0)?;
    Ok(out.finish())
}

/// A name of four letters for a number below 65,536.
fn name(number: u16) -> [u8; 4] {
    [
        b'A' + (number >> 12) as u8,
        b'A' + (number >> 8 & 15) as u8,
        b'A' + (number >> 4 & 15) as u8,
        b'A' + (number & 15) as u8,
    ]
}

/// The class p/T with so many constants, of the values 0, 1 and so on: shorts, or where it is said the first a byte.
pub(crate) fn with_constants(alloc: Global, number: u16, byte: bool) -> Result<Bytes, NoMemory> {
    let mut out = Out::new(alloc);
    put_front(&mut out, 8 + 2 * usize::from(number))?;
    put_text(&mut out, b"S")?;
    put_text(&mut out, b"B")?;
    put_text(&mut out, b"ConstantValue")?;
    for value in 0..number {
        put_text(&mut out, &name(value))?;
        out.put1(3)?;
        out.put4(u32::from(value))?;
    }
    out.put_slice(b"\x00\x21\x00\x02\x00\x04\x00\x00")?;
    out.put2(number)?;
    for value in 0..number {
        let entry = value.wrapping_mul(2).wrapping_add(8);
        out.put2(0x19)?;
        out.put2(entry)?;
        out.put2(if byte && value == 0 { 6 } else { 5 })?;
        out.put_slice(b"\x00\x01\x00\x07\x00\x00\x00\x02")?;
        out.put2(entry.wrapping_add(1))?;
    }
    out.put4(0)?;
    Ok(out.finish())
}

/// How many classes the export file of m has, and how many static methods each of them.
const CLASSES: u8 = 255;

const METHODS: u8 = 65;

/// Puts a class of that export file, whose name has a reference at this entry of the pool.
fn put_class(out: &mut Out, token: u8, entry: u16) -> Result<(), NoMemory> {
    out.put1(token)?;
    out.put2(1)?;
    out.put2(entry)?;
    out.put_slice(b"\x00\x01\x00\x03\x00\x00\x00")?;
    out.put2(u16::from(METHODS))?;
    for method in 0..METHODS {
        out.put1(method)?;
        out.put2(9)?;
        out.put2(u16::from(method).wrapping_add(5))?;
        out.put2(4)?;
    }
    Ok(())
}

/// The name of a class of m.
fn class_name(number: u8) -> [u8; 6] {
    let [a, b, c, d] = name(u16::from(number));
    [b'm', b'/', a, b, c, d]
}

/// The export file of the package m: 255 classes with 65 static methods each, all of them without parameters and
/// result.
pub(crate) fn many_methods(alloc: Global) -> Result<Bytes, NoMemory> {
    let mut out = Out::new(alloc);
    out.put_slice(b"\x00\xFA\xCA\xDE\x02\x02\x02\x44")?;
    out.put_slice(b"\x01\x00\x01m\x0D\x01\x00\x00\x00\x01\x05\xA0\x00\x00\x00\x04")?;
    out.put_slice(b"\x01\x00\x10java/lang/Object\x07\x00\x02\x01\x00\x03()V")?;
    for method in 0..METHODS {
        put_text(&mut out, &name(u16::from(method)))?;
    }
    for class in 0..CLASSES {
        put_text(&mut out, &class_name(class))?;
        out.put1(7)?;
        out.put2(u16::from(class).wrapping_mul(2).wrapping_add(70))?;
    }
    out.put2(1)?;
    out.put1(CLASSES)?;
    for class in 0..CLASSES {
        let entry = u16::from(class).wrapping_mul(2).wrapping_add(71);
        put_class(&mut out, class, entry)?;
    }
    Ok(out.finish())
}

/// Puts the entries of the pool for what m has, and those of its first methods, so many. Entry 7 is their descriptor;
/// the first method is entry 649.
fn put_many(out: &mut Out, number: u16) -> Result<(), NoMemory> {
    for method in 0..METHODS {
        put_text(out, &name(u16::from(method)))?;
        out.put1(12)?;
        out.put2(u16::from(method).wrapping_mul(2).wrapping_add(9))?;
        out.put2(7)?;
    }
    for class in 0..CLASSES {
        put_text(out, &class_name(class))?;
        out.put1(7)?;
        out.put2(u16::from(class).wrapping_mul(2).wrapping_add(139))?;
    }
    for call in 0..number {
        out.put1(10)?;
        out.put2((call / 65).wrapping_mul(2).wrapping_add(140))?;
        out.put2((call % 65).wrapping_mul(2).wrapping_add(10))?;
    }
    Ok(())
}

/// Code that calls so many of these methods, from one on.
fn calls(alloc: Global, from: u16, number: u16) -> Result<Bytes, NoMemory> {
    let mut code = Out::new(alloc);
    for call in 0..number {
        code.put1(0xB8)?;
        code.put2(from.wrapping_add(call).wrapping_add(649))?;
    }
    code.put1(0xB1)?;
    Ok(code.finish())
}

/// The class p/T with two static methods that together call so many methods of m, each once.
pub(crate) fn with_calls(alloc: Global, number: u16) -> Result<Bytes, NoMemory> {
    let half = number / 2;
    let front = calls(alloc, 0, half)?;
    let back = calls(alloc, half, number.wrapping_sub(half))?;
    let mut out = Out::new(alloc);
    put_front(&mut out, 649 + usize::from(number))?;
    put_text(&mut out, b"f")?;
    put_text(&mut out, b"Code")?;
    put_text(&mut out, b"()V")?;
    put_text(&mut out, b"(S)V")?;
    put_many(&mut out, number)?;
    out.put_slice(b"\x04\x21\x00\x02\x00\x04\x00\x00\x00\x00\x00\x02")?;
    put_method(&mut out, 7, front.items())?;
    put_method(&mut out, 8, back.items())?;
    out.put2(0)?;
    Ok(out.finish())
}
