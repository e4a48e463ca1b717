//! The package of the worked example, and what is written for it, byte for byte; class files made by hand. The tests of
//! whole runs name these, and what is changed in them: `sum 97:00` is the class with the byte 0 at 97, `sum ..103` its
//! first 103 bytes, `list 300*23` the list with a byte 0x23 behind it up to 300 bytes. Nothing here runs.

use crate::words::{cut, number, octet};
use cjc_bytes::NoMemory;
use cjc_case_files::{ASKS, FRAMEWORK, LANG, Q, SUM, WALLET};
use std::alloc::Global;

/// The list of the example.
const LIST: &[u8] = b"package p A000000001 1.0\nexport lang.exp\nclass T.class\n";

/// The class of the example with the code 1A 04 60 AC: the sum is not made a short.
const NO_I2S: [u8; 103] = [
    0xCA, 0xFE, 0xBA, 0xBE, 0, 0, 0, 0x34, 0, 8, // up to the count
    1, 0, 3, b'p', b'/', b'T', 7, 0, 1, // p/T
    1, 0, 16, b'j', b'a', b'v', b'a', b'/', b'l', b'a', b'n', b'g', b'/', b'O', b'b', b'j', b'e',
    b'c', b't', 7, 0, 3, // java/lang/Object
    1, 0, 1, b'f', 1, 0, 4, b'(', b'S', b')', b'S', 1, 0, 4, b'C', b'o', b'd', b'e', // names
    0, 0x21, 0, 2, 0, 4, 0, 0, 0, 0, // the class
    0, 1, 0, 9, 0, 5, 0, 6, 0, 1, // f
    0, 7, 0, 0, 0, 16, 0, 2, 0, 1, 0, 0, 0, 4, 0x1A, 4, 0x60, 0xAC, 0, 0, 0, 0, // its code
    0, 0,
];

/// A public class p/T with an initialiser whose code is 00 B1: nop, return.
const INITIALISER: [u8; 107] = [
    0xCA, 0xFE, 0xBA, 0xBE, 0, 0, 0, 0x34, 0, 8, // up to the count
    1, 0, 3, b'p', b'/', b'T', 7, 0, 1, // p/T
    1, 0, 16, b'j', b'a', b'v', b'a', b'/', b'l', b'a', b'n', b'g', b'/', b'O', b'b', b'j', b'e',
    b'c', b't', 7, 0, 3, // java/lang/Object
    1, 0, 8, b'<', b'c', b'l', b'i', b'n', b'i', b't', b'>', 1, 0, 3, b'(', b')', b'V', 1, 0, 4,
    b'C', b'o', b'd', b'e', // names
    0, 0x21, 0, 2, 0, 4, 0, 0, 0, 0, // the class
    0, 1, 0, 8, 0, 5, 0, 6, 0, 1, // <clinit>
    0, 7, 0, 0, 0, 14, 0, 0, 0, 0, 0, 0, 0, 2, 0, 0xB1, 0, 0, 0, 0, // its code
    0, 0,
];

/// A public class p/T with a static field c:S and a field v:S, whose code runs through much of what a run by name does:
/// - static f(S)S raises one of the machine's own exceptions for 0 to 5: null.length, an index behind an array,
///   a negative length, 1 / 0, an Object stored among Ts, an Object cast to T; else it adds to c what it takes
///   and returns it.
/// - g(S)V sets v and calls this.equals(this), and sets v to -1 where that throws a RuntimeException.
/// - static n()Lp/T; makes a T.
/// - static h([BS)B is b[o + 1], static d(SS)S is a / b, static r(S)S is a >>> 20 and static l(S)S is a << 16.
const BROAD: &[u8] = b"\
    \xCA\xFE\xBA\xBE\x00\x00\x004\x00\x1F\
    \x01\x00\x03p/T\x07\x00\x01\x01\x00\x10java/lang/Object\
    \x07\x00\x03\x01\x00\x01c\x01\x00\x01S\x0C\x00\x05\x00\x06\x09\x00\x02\x00\x07\
    \x01\x00\x01v\x0C\x00\x09\x00\x06\x09\x00\x02\x00\x0A\x01\x00\x06equals\
    \x01\x00\x15(Ljava/lang/Object;)Z\
    \x0C\x00\x0C\x00\x0D\x0A\x00\x04\x00\x0E\x01\x00\x1Ajava/lang/RuntimeException\
    \x07\x00\x10\x01\x00\x04Code\x01\x00\x01f\x01\x00\x04(S)S\
    \x01\x00\x01g\x01\x00\x04(S)V\x01\x00\x01n\x01\x00\x07()Lp/T;\
    \x01\x00\x01h\x01\x00\x06([BS)B\x01\x00\x01d\x01\x00\x05(SS)S\
    \x01\x00\x01r\x01\x00\x01l\
    \x00!\x00\x02\x00\x04\x00\x00\x00\x02\x00\x09\x00\x05\x00\x06\x00\x00\x00\x00\x00\x09\x00\x06\x00\x00\x00\x07\
    \x00\x09\x00\x13\x00\x14\x00\x01\x00\x12\x00\x00\x00e\x00\x04\x00\x01\x00\x00\x00Y\x1A\xAA\x00\x00\x00\x00\x00M\x00\x00\x00\x00\x00\x00\x00\x05\x00\x00\x00'\x00\x00\x00*\x00\x00\x000\x00\x00\x005\x00\x00\x009\x00\x00\x00D\x01\xBE\xAC\x03\xBC\x09\x035\xAC\x02\xBC\x09\xBE\xAC\x04\x03l\xAC\x04\xBD\x00\x02\x03\xBB\x00\x04S\x03\xAC\xBB\x00\x04\xC0\x00\x02W\x03\xAC\xB2\x00\x08\x1A`\x93Y\xB3\x00\x08\xAC\x00\x00\x00\x00\
    \x00\x01\x00\x15\x00\x16\x00\x01\x00\x12\x00\x00\x00'\x00\x02\x00\x02\x00\x00\x00\x13*\x1B\xB5\x00\x0B**\xB6\x00\x0FW\xB1W*\x02\xB5\x00\x0B\xB1\x00\x01\x00\x05\x00\x0A\x00\x0C\x00\x11\x00\x00\
    \x00\x09\x00\x17\x00\x18\x00\x01\x00\x12\x00\x00\x00\x10\x00\x01\x00\x00\x00\x00\x00\x04\xBB\x00\x02\xB0\x00\x00\x00\x00\
    \x00\x09\x00\x19\x00\x1A\x00\x01\x00\x12\x00\x00\x00\x12\x00\x03\x00\x02\x00\x00\x00\x06*\x1B\x04`3\xAC\x00\x00\x00\x00\
    \x00\x09\x00\x1B\x00\x1C\x00\x01\x00\x12\x00\x00\x00\x11\x00\x02\x00\x02\x00\x00\x00\x05\x1A\x1Bl\x93\xAC\x00\x00\x00\x00\
    \x00\x09\x00\x1D\x00\x14\x00\x01\x00\x12\x00\x00\x00\x12\x00\x02\x00\x01\x00\x00\x00\x06\x1A\x10\x14|\x93\xAC\x00\x00\x00\x00\
    \x00\x09\x00\x1E\x00\x14\x00\x01\x00\x12\x00\x00\x00\x12\x00\x02\x00\x01\x00\x00\x00\x06\x1A\x10\x10x\x93\xAC\x00\x00\x00\x00\x00\x00";

/// Header.cap of the example.
const HEADER: [u8; 20] = [
    0x01, 0x00, 0x11, 0xDE, 0xCA, 0xFF, 0xED, 0x02, 0x02, 0x02, 0x00, 0x01, 0x05, 0xA0, 0x00, 0x00,
    0x00, 0x01, 0x01, 0x70,
];

/// Directory.cap of the example.
const DIRECTORY: [u8; 36] = [
    0x02, 0x00, 0x21, 0x00, 0x11, 0x00, 0x21, 0x00, 0x00, 0x00, 0x0B, 0x00, 0x02, 0x00, 0x0C, 0x00,
    0x07, 0x00, 0x0A, 0x00, 0x04, 0x00, 0x07, 0x00, 0x1A, 0x00, 0x00, 0x00, 0x00, 0x00, 0x00, 0x00,
    0x00, 0x01, 0x00, 0x00,
];

/// Import.cap of the example.
const IMPORT: [u8; 14] = [
    0x04, 0x00, 0x0B, 0x01, 0x00, 0x01, 0x07, 0xA0, 0x00, 0x00, 0x00, 0x62, 0x00, 0x01,
];

/// ConstantPool.cap of the example.
const POOL: [u8; 5] = [0x05, 0x00, 0x02, 0x00, 0x00];

/// Class.cap of the example.
const CLASSES: [u8; 15] = [
    0x06, 0x00, 0x0C, 0x00, 0x00, 0x00, 0x80, 0x00, 0x00, 0xFF, 0x00, 0x01, 0x00, 0x00, 0x00,
];

/// Method.cap of the example.
const METHODS: [u8; 10] = [0x07, 0x00, 0x07, 0x00, 0x02, 0x10, 0x1C, 0x04, 0x41, 0x78];

/// StaticField.cap of the example.
const STATICS: [u8; 13] = [0x08, 0x00, 0x0A, 0, 0, 0, 0, 0, 0, 0, 0, 0, 0];

/// RefLocation.cap of the example.
const LOCATIONS: [u8; 7] = [0x09, 0x00, 0x04, 0x00, 0x00, 0x00, 0x00];

/// Export.cap of the example.
const EXPORTS: [u8; 10] = [0x0A, 0x00, 0x07, 0x01, 0x00, 0x02, 0x00, 0x01, 0x00, 0x01];

/// Descriptor.cap of the example.
const DESCRIPTORS: [u8; 29] = [
    0x0B, 0x00, 0x1A, 0x01, 0x00, 0x01, 0x00, 0x02, 0x00, 0x00, 0x00, 0x00, 0x01, 0x00, 0x09, 0x00,
    0x01, 0x00, 0x02, 0x00, 0x04, 0x00, 0x00, 0x00, 0x00, 0x00, 0x00, 0x02, 0x44,
];

/// The export file of p.
const EXPORT_FILE: [u8; 130] = [
    0x00, 0xFA, 0xCA, 0xDE, 2, 2, 0, 10, // up to the count
    1, 0, 1, b'p', 13, 1, 0, 0, 0, 1, 5, 0xA0, 0, 0, 0, 1, // the package p
    1, 0, 3, b'p', b'/', b'T', 7, 0, 2, // p/T
    1, 0, 16, b'j', b'a', b'v', b'a', b'/', b'l', b'a', b'n', b'g', b'/', b'O', b'b', b'j', b'e',
    b'c', b't', 7, 0, 4, // java/lang/Object
    1, 0, 1, b'f', 1, 0, 4, b'(', b'S', b')', b'S', 1, 0, 6, b'e', b'q', b'u', b'a', b'l', b's', // names
    1, 0, 21, b'(', b'L', b'j', b'a', b'v', b'a', b'/', b'l', b'a', b'n', b'g', b'/', b'O', b'b',
    b'j', b'e', b'c', b't', b';', b')', b'Z', // the descriptor of equals
    0, 1, 1, // one class
    0, 0, 1, 0, 3, 0, 1, 0, 5, 0, 0, 0, 0, 2, // p/T, its superclass, two methods
    0, 0, 9, 0, 6, 0, 7, // f
    0, 0, 1, 0, 8, 0, 9, // equals
];

/// An abstract class p/T with so many public abstract methods, the first with a descriptor of this one letter.
fn of_methods(alloc: Global, count: u8, first: &str) -> Result<Vec<u8>, NoMemory> {
    let mut class = Vec::new(alloc);
    class.extend_from_slice(b"\xCA\xFE\xBA\xBE\x00\x00\x00\x34\x01\x00")?;
    class.extend_from_slice(
        b"\x07\x00\x02\x01\x00\x03p/T\x07\x00\x04\x01\x00\x10java/lang/Object",
    )?;
    class.extend_from_slice(b"\x01\x00\x03()V\x01\x00\x04(")?;
    class.extend_from_slice(first.as_bytes())?;
    class.extend_from_slice(b")V")?;
    for number in 7..=255 {
        let name = [0x01, 0x00, 0x02, b'a' + number / 16, b'a' + number % 16];
        class.extend_from_slice(&name)?;
    }
    class.extend_from_slice(b"\x04\x21\x00\x01\x00\x03\x00\x00\x00\x00\x00")?;
    class.push(count)?;
    for number in 0..count {
        let desc = if number == 0 { 6 } else { 5 };
        let method = [
            0x04,
            0x01,
            0x00,
            number.wrapping_add(7),
            0x00,
            desc,
            0x00,
            0x00,
        ];
        class.extend_from_slice(&method)?;
    }
    class.extend_from_slice(b"\x00\x00")?;
    Ok(class)
}

/// A class p/T up to the descriptor of its f, and from there on to the code of f. Its constant pool has the
/// Integer 65535 at 8, the static fields s:S, b:B and z:Z at 12, 16 and 20, the static g(SBZ)V at 24, and k:S,
/// which is the constant 5, at 28.
const UP_TO_DESC: &[u8] = b"\
    \xCA\xFE\xBA\xBE\x00\x00\x004\x00\x1E\
    \x01\x00\x03p/T\x07\x00\x01\x01\x00\x10java/lang/Object\
    \x07\x00\x03\x01\x00\x01f";

const UP_TO_CODE: &[u8] = b"\
    \x01\x00\x04Code\x03\x00\x00\xFF\xFF\
    \x01\x00\x01s\x01\x00\x01S\x0C\x00\x09\x00\x0A\x09\x00\x02\x00\x0B\
    \x01\x00\x01b\x01\x00\x01B\x0C\x00\x0D\x00\x0E\x09\x00\x02\x00\x0F\
    \x01\x00\x01z\x01\x00\x01Z\x0C\x00\x11\x00\x12\x09\x00\x02\x00\x13\
    \x01\x00\x01g\x01\x00\x06(SBZ)V\x0C\x00\x15\x00\x16\x0A\x00\x02\x00\x17\
    \x03\x00\x00\x00\x05\x01\x00\x01k\x0C\x00\x1A\x00\x0A\x09\x00\x02\x00\x1B\
    \x01\x00\x0DConstantValue\
    \x00!\x00\x02\x00\x04\x00\x00\x00\x04\
    \x00\x09\x00\x09\x00\x0A\x00\x00\x00\x09\x00\x0D\x00\x0E\x00\x00\x00\x09\x00\x11\x00\x12\x00\x00\
    \x00\x19\x00\x1A\x00\x0A\x00\x01\x00\x1D\x00\x00\x00\x02\x00\x19\
    \x00\x02\
    \x00\x09\x00\x15\x00\x16\x00\x01\x00\x07\x00\x00\x00\x0D\x00\x00\x00\x03\x00\x00\x00\x01\xB1\x00\x00\x00\x00\
    \x00\x09\x00\x05\x00\x06\x00\x01\x00\x07\x00\x00\x00";

/// The bytes of words.
fn octets(alloc: Global, words: &str) -> Result<Vec<u8>, NoMemory> {
    let mut bytes = Vec::new(alloc);
    for word in words.split(" ") {
        bytes.push(octet(word)?)?;
    }
    Ok(bytes)
}

/// That class, whose static f has this descriptor and this code, with a stack of 4 and 4 locals.
fn of_code(alloc: Global, desc: &str, words: &str) -> Result<Vec<u8>, NoMemory> {
    let code = octets(alloc, words)?;
    if desc.len() > 255 || code.len() > 243 {
        return Err(NoMemory);
    }
    let length = code.len() as u8;
    let mut class = Vec::from_slice(alloc, UP_TO_DESC)?;
    class.extend_from_slice(&[0x01, 0x00, desc.len() as u8])?;
    class.extend_from_slice(desc.as_bytes())?;
    class.extend_from_slice(UP_TO_CODE)?;
    class.extend_from_slice(&[
        length + 12,
        0x00,
        0x04,
        0x00,
        0x04,
        0x00,
        0x00,
        0x00,
        length,
    ])?;
    class.extend_from_slice(code.as_slice())?;
    class.extend_from_slice(&[0x00, 0x00, 0x00, 0x00, 0x00, 0x00])?;
    Ok(class)
}

/// Lists that name other files than the example's.
const TWICE: &[u8] = b"package p A000000001 1.0\nexport lang.exp\nclass T.class\nclass U.class\n";

const NO_LANG: &[u8] = b"package p A000000001 1.0\nexport p.exp\nclass T.class\n";

const ALONE: &[u8] = b"package p A000000001 1.0\nclass T.class\n";

const ASKS_LIST: &[u8] =
    b"package p A000000001 1.0\nexport lang.exp\nexport q.exp\nclass T.class\n";

const WALLET_LIST: &[u8] =
    b"package p A000000001 1.0\napplet p/Wallet A00000000101\nexport lang.exp\nexport fw.exp\nclass T.class\n";

const TWO_LANG: &[u8] =
    b"package p A000000001 1.0\nexport lang.exp\nexport lang.exp\nclass T.class\n";

/// What is read, by its name in a case; nothing by another name.
fn read_file(name: &str) -> &'static [u8] {
    match name {
        "list" => LIST,
        "twice" => TWICE,
        "no-lang" => NO_LANG,
        "alone" => ALONE,
        "two-lang" => TWO_LANG,
        "lang" => LANG,
        "sum" => SUM,
        "no-i2s" => &NO_I2S,
        "initialiser" => &INITIALISER,
        "broad" => BROAD,
        "asks" => ASKS,
        "wallet" => WALLET,
        "q" => Q,
        "framework" => FRAMEWORK,
        "asks-list" => ASKS_LIST,
        "wallet-list" => WALLET_LIST,
        _ => &[],
    }
}

/// What is read or written, by its name in a case.
fn file(name: &str) -> &'static [u8] {
    match name {
        "header" => &HEADER,
        "directory" => &DIRECTORY,
        "import" => &IMPORT,
        "pool" => &POOL,
        "classes" => &CLASSES,
        "methods" => &METHODS,
        "statics" => &STATICS,
        "locations" => &LOCATIONS,
        "exports" => &EXPORTS,
        "descriptors" => &DESCRIPTORS,
        "export-file" => &EXPORT_FILE,
        _ => read_file(name),
    }
}

/// Sets a byte. There is no memory for one that is behind the file.
fn set(bytes: &mut Vec<u8>, at: &str, to: &str) -> Result<(), NoMemory> {
    let to = octet(to)?;
    match bytes.get_mut(number(at)? as usize) {
        Some(byte) => {
            *byte = to;
            Ok(())
        }
        None => Err(NoMemory),
    }
}

/// Fills a file up to a length.
fn fill(bytes: &mut Vec<u8>, length: &str, with: &str) -> Result<(), NoMemory> {
    let with = octet(with)?;
    for _ in bytes.len()..number(length)? as usize {
        bytes.push(with)?;
    }
    Ok(())
}

/// Changes a file by one word of a case.
fn change(bytes: &mut Vec<u8>, word: &str) -> Result<(), NoMemory> {
    if let Some(length) = word.strip_prefix("..") {
        bytes.truncate(number(length)? as usize);
        return Ok(());
    }
    match word.split_once("*") {
        Some((length, with)) => fill(bytes, length, with),
        None => {
            let (at, to) = cut(word, ":");
            set(bytes, at, to)
        }
    }
}

/// The class with so many methods.
fn many(alloc: Global, words: &str) -> Result<Vec<u8>, NoMemory> {
    let (count, first) = cut(words, " ");
    let count = number(count)?;
    if count < 256 {
        of_methods(alloc, count as u8, first)
    } else {
        Err(NoMemory)
    }
}

/// The bytes of a file by its name and what is changed in it. `of-methods COUNT FIRST` is the class with so
/// many methods, and `of-code DESC CODE` the one whose f has this code, in hexadecimal words.
pub(crate) fn bytes_of(alloc: Global, words: &str) -> Result<Vec<u8>, NoMemory> {
    let (name, changes) = cut(words, " ");
    if name == "of-methods" {
        return many(alloc, changes);
    }
    if name == "of-code" {
        let (desc, code) = cut(changes, " ");
        return of_code(alloc, desc, code);
    }
    let mut bytes = Vec::from_slice(alloc, file(name))?;
    if !changes.is_empty() {
        for word in changes.split(" ") {
            change(&mut bytes, word)?;
        }
    }
    Ok(bytes)
}
