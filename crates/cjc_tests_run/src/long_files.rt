//! Class files that are long, made of few words: the class p/T with methods f, or with constants. It knows no rule.

use cjc_run::bytes::{Bytes, NoMemory, Out};
use std::alloc::Global;

/// Bytes, and how often they stand behind one another.
pub(crate) type Run<'r> = (&'r [u8], usize);

/// A static method f of p/T.
pub(crate) struct Method {
    pub desc: Bytes,
    pub code: Bytes,
}

impl Drop for Method {
    fn drop(self) {
        let Method {
            desc: _desc,
            code: _code,
        } = self;
    }
}

fn runs(alloc: Global, runs: &[Run<'_>]) -> Result<Bytes, NoMemory> {
    let mut out = Out::new(alloc);
    for (bytes, times) in runs {
        for _ in 0..*times {
            out.put_slice(bytes)?;
        }
    }
    Ok(out.finish())
}

pub(crate) fn make_method(
    alloc: Global,
    desc: &[Run<'_>],
    code: &[Run<'_>],
) -> Result<Method, NoMemory> {
    Ok(Method {
        desc: runs(alloc, desc)?,
        code: runs(alloc, code)?,
    })
}

fn count(number: usize) -> Result<u16, NoMemory> {
    if number < 65536 {
        Ok(number as u16)
    } else {
        Err(NoMemory)
    }
}

fn put_text(out: &mut Out, text: &[u8]) -> Result<(), NoMemory> {
    out.put1(1)?;
    out.put2(count(text.len())?)?;
    out.put_slice(text)
}

/// What stands before the pool's own entries: entry 2 is the class p/T, and entry 4 java/lang/Object.
fn put_front(out: &mut Out, entries: usize) -> Result<(), NoMemory> {
    out.put_slice(b"\xCA\xFE\xBA\xBE\x00\x00\x004")?;
    out.put2(count(entries)?)?;
    out.put_slice(b"\x01\x00\x03p/T\x07\x00\x01\x01\x00\x10java/lang/Object\x07\x00\x03")
}

/// A method whose descriptor is this entry of the pool; entry 5 is its name, and entry 6 that of its code.
fn put_method(out: &mut Out, desc: u16, code: &[u8]) -> Result<(), NoMemory> {
    let length = u32::from(count(code.len())?);
    out.put_slice(b"\x00\x08\x00\x05")?;
    out.put2(desc)?;
    out.put_slice(b"\x00\x01\x00\x06")?;
    out.put4(12 + length)?;
    out.put_slice(b"\x00\x01\x00\xFF")?;
    out.put4(length)?;
    out.put_slice(code)?;
    out.put4(0)
}

/// The abstract class p/T with these methods.
pub(crate) fn with_methods(alloc: Global, methods: &[Method]) -> Result<Bytes, NoMemory> {
    let number = count(methods.len())?;
    let mut out = Out::new(alloc);
    put_front(&mut out, 7 + usize::from(number))?;
    put_text(&mut out, b"f")?;
    put_text(&mut out, b"Code")?;
    for method in methods {
        put_text(&mut out, method.desc.items())?;
    }
    out.put_slice(b"\x04\x21\x00\x02\x00\x04\x00\x00\x00\x00")?;
    out.put2(number)?;
    for (place, method) in methods.iter().enumerate() {
        put_method(&mut out, count(place)?.wrapping_add(7), method.code.items())?;
    }
    out.put2(0)?;
    Ok(out.finish())
}

/// A name of four letters for a number below 65,536.
fn name(number: u16) -> [u8; 4] {
    [
        b'A' + (number >> 12) as u8,
        b'A' + (number >> 8 & 15) as u8,
        b'A' + (number >> 4 & 15) as u8,
        b'A' + (number & 15) as u8,
    ]
}

/// The class p/T with so many constants, of the values 0, 1 and so on: shorts, but the first, which is a byte.
pub(crate) fn with_constants(alloc: Global, number: u16) -> Result<Bytes, NoMemory> {
    let mut out = Out::new(alloc);
    put_front(&mut out, 8 + 2 * usize::from(number))?;
    put_text(&mut out, b"S")?;
    put_text(&mut out, b"B")?;
    put_text(&mut out, b"ConstantValue")?;
    for value in 0..number {
        put_text(&mut out, &name(value))?;
        out.put1(3)?;
        out.put4(u32::from(value))?;
    }
    out.put_slice(b"\x00\x21\x00\x02\x00\x04\x00\x00")?;
    out.put2(number)?;
    for value in 0..number {
        let entry = value.wrapping_mul(2).wrapping_add(8);
        out.put2(0x19)?;
        out.put2(entry)?;
        out.put2(if value == 0 { 6 } else { 5 })?;
        out.put_slice(b"\x00\x01\x00\x07\x00\x00\x00\x02")?;
        out.put2(entry.wrapping_add(1))?;
    }
    out.put4(0)?;
    Ok(out.finish())
}
