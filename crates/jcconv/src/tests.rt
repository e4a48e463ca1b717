use crate::text::status_line;
use crate::top::run;
use cjc_bytes::{Bytes, NoMemory, Row};
use cjc_shelf::{MemShelf, MemSink};
use std::alloc::Global;
use std::test::Fail;

const LIST: &[u8] = b"package p A000000001 1.0\nexport lang.exp\nclass T.class\n";

/// The export file of java/lang, AID A0000000620001, version 1.0: Object, Throwable and nine exceptions, each with its
/// constructor and `equals`, which have token 0.
const LANG: [u8; 814] = [
    0x00, 0xfa, 0xca, 0xde, 0x02, 0x02, 0x00, 0x1c, 0x01, 0x00, 0x09, 0x6a, 0x61, 0x76, 0x61, 0x2f,
    0x6c, 0x61, 0x6e, 0x67, 0x0d, 0x01, 0x00, 0x00, 0x00, 0x01, 0x07, 0xa0, 0x00, 0x00, 0x00, 0x62,
    0x00, 0x01, 0x01, 0x00, 0x10, 0x6a, 0x61, 0x76, 0x61, 0x2f, 0x6c, 0x61, 0x6e, 0x67, 0x2f, 0x4f,
    0x62, 0x6a, 0x65, 0x63, 0x74, 0x07, 0x00, 0x02, 0x01, 0x00, 0x06, 0x3c, 0x69, 0x6e, 0x69, 0x74,
    0x3e, 0x01, 0x00, 0x03, 0x28, 0x29, 0x56, 0x01, 0x00, 0x06, 0x65, 0x71, 0x75, 0x61, 0x6c, 0x73,
    0x01, 0x00, 0x15, 0x28, 0x4c, 0x6a, 0x61, 0x76, 0x61, 0x2f, 0x6c, 0x61, 0x6e, 0x67, 0x2f, 0x4f,
    0x62, 0x6a, 0x65, 0x63, 0x74, 0x3b, 0x29, 0x5a, 0x01, 0x00, 0x13, 0x6a, 0x61, 0x76, 0x61, 0x2f,
    0x6c, 0x61, 0x6e, 0x67, 0x2f, 0x54, 0x68, 0x72, 0x6f, 0x77, 0x61, 0x62, 0x6c, 0x65, 0x07, 0x00,
    0x08, 0x01, 0x00, 0x13, 0x6a, 0x61, 0x76, 0x61, 0x2f, 0x6c, 0x61, 0x6e, 0x67, 0x2f, 0x45, 0x78,
    0x63, 0x65, 0x70, 0x74, 0x69, 0x6f, 0x6e, 0x07, 0x00, 0x0a, 0x01, 0x00, 0x1a, 0x6a, 0x61, 0x76,
    0x61, 0x2f, 0x6c, 0x61, 0x6e, 0x67, 0x2f, 0x52, 0x75, 0x6e, 0x74, 0x69, 0x6d, 0x65, 0x45, 0x78,
    0x63, 0x65, 0x70, 0x74, 0x69, 0x6f, 0x6e, 0x07, 0x00, 0x0c, 0x01, 0x00, 0x1d, 0x6a, 0x61, 0x76,
    0x61, 0x2f, 0x6c, 0x61, 0x6e, 0x67, 0x2f, 0x41, 0x72, 0x69, 0x74, 0x68, 0x6d, 0x65, 0x74, 0x69,
    0x63, 0x45, 0x78, 0x63, 0x65, 0x70, 0x74, 0x69, 0x6f, 0x6e, 0x07, 0x00, 0x0e, 0x01, 0x00, 0x1c,
    0x6a, 0x61, 0x76, 0x61, 0x2f, 0x6c, 0x61, 0x6e, 0x67, 0x2f, 0x43, 0x6c, 0x61, 0x73, 0x73, 0x43,
    0x61, 0x73, 0x74, 0x45, 0x78, 0x63, 0x65, 0x70, 0x74, 0x69, 0x6f, 0x6e, 0x07, 0x00, 0x10, 0x01,
    0x00, 0x1e, 0x6a, 0x61, 0x76, 0x61, 0x2f, 0x6c, 0x61, 0x6e, 0x67, 0x2f, 0x4e, 0x75, 0x6c, 0x6c,
    0x50, 0x6f, 0x69, 0x6e, 0x74, 0x65, 0x72, 0x45, 0x78, 0x63, 0x65, 0x70, 0x74, 0x69, 0x6f, 0x6e,
    0x07, 0x00, 0x12, 0x01, 0x00, 0x23, 0x6a, 0x61, 0x76, 0x61, 0x2f, 0x6c, 0x61, 0x6e, 0x67, 0x2f,
    0x49, 0x6e, 0x64, 0x65, 0x78, 0x4f, 0x75, 0x74, 0x4f, 0x66, 0x42, 0x6f, 0x75, 0x6e, 0x64, 0x73,
    0x45, 0x78, 0x63, 0x65, 0x70, 0x74, 0x69, 0x6f, 0x6e, 0x07, 0x00, 0x14, 0x01, 0x00, 0x28, 0x6a,
    0x61, 0x76, 0x61, 0x2f, 0x6c, 0x61, 0x6e, 0x67, 0x2f, 0x41, 0x72, 0x72, 0x61, 0x79, 0x49, 0x6e,
    0x64, 0x65, 0x78, 0x4f, 0x75, 0x74, 0x4f, 0x66, 0x42, 0x6f, 0x75, 0x6e, 0x64, 0x73, 0x45, 0x78,
    0x63, 0x65, 0x70, 0x74, 0x69, 0x6f, 0x6e, 0x07, 0x00, 0x16, 0x01, 0x00, 0x24, 0x6a, 0x61, 0x76,
    0x61, 0x2f, 0x6c, 0x61, 0x6e, 0x67, 0x2f, 0x4e, 0x65, 0x67, 0x61, 0x74, 0x69, 0x76, 0x65, 0x41,
    0x72, 0x72, 0x61, 0x79, 0x53, 0x69, 0x7a, 0x65, 0x45, 0x78, 0x63, 0x65, 0x70, 0x74, 0x69, 0x6f,
    0x6e, 0x07, 0x00, 0x18, 0x01, 0x00, 0x1d, 0x6a, 0x61, 0x76, 0x61, 0x2f, 0x6c, 0x61, 0x6e, 0x67,
    0x2f, 0x41, 0x72, 0x72, 0x61, 0x79, 0x53, 0x74, 0x6f, 0x72, 0x65, 0x45, 0x78, 0x63, 0x65, 0x70,
    0x74, 0x69, 0x6f, 0x6e, 0x07, 0x00, 0x1a, 0x00, 0x01, 0x0b, 0x00, 0x00, 0x01, 0x00, 0x03, 0x00,
    0x00, 0x00, 0x00, 0x00, 0x00, 0x02, 0x00, 0x00, 0x01, 0x00, 0x04, 0x00, 0x05, 0x00, 0x00, 0x01,
    0x00, 0x06, 0x00, 0x07, 0x01, 0x00, 0x01, 0x00, 0x09, 0x00, 0x01, 0x00, 0x03, 0x00, 0x00, 0x00,
    0x00, 0x02, 0x00, 0x00, 0x01, 0x00, 0x04, 0x00, 0x05, 0x00, 0x00, 0x01, 0x00, 0x06, 0x00, 0x07,
    0x02, 0x00, 0x01, 0x00, 0x0b, 0x00, 0x02, 0x00, 0x09, 0x00, 0x03, 0x00, 0x00, 0x00, 0x00, 0x02,
    0x00, 0x00, 0x01, 0x00, 0x04, 0x00, 0x05, 0x00, 0x00, 0x01, 0x00, 0x06, 0x00, 0x07, 0x03, 0x00,
    0x01, 0x00, 0x0d, 0x00, 0x03, 0x00, 0x0b, 0x00, 0x09, 0x00, 0x03, 0x00, 0x00, 0x00, 0x00, 0x02,
    0x00, 0x00, 0x01, 0x00, 0x04, 0x00, 0x05, 0x00, 0x00, 0x01, 0x00, 0x06, 0x00, 0x07, 0x04, 0x00,
    0x01, 0x00, 0x0f, 0x00, 0x04, 0x00, 0x0d, 0x00, 0x0b, 0x00, 0x09, 0x00, 0x03, 0x00, 0x00, 0x00,
    0x00, 0x02, 0x00, 0x00, 0x01, 0x00, 0x04, 0x00, 0x05, 0x00, 0x00, 0x01, 0x00, 0x06, 0x00, 0x07,
    0x05, 0x00, 0x01, 0x00, 0x11, 0x00, 0x04, 0x00, 0x0d, 0x00, 0x0b, 0x00, 0x09, 0x00, 0x03, 0x00,
    0x00, 0x00, 0x00, 0x02, 0x00, 0x00, 0x01, 0x00, 0x04, 0x00, 0x05, 0x00, 0x00, 0x01, 0x00, 0x06,
    0x00, 0x07, 0x06, 0x00, 0x01, 0x00, 0x13, 0x00, 0x04, 0x00, 0x0d, 0x00, 0x0b, 0x00, 0x09, 0x00,
    0x03, 0x00, 0x00, 0x00, 0x00, 0x02, 0x00, 0x00, 0x01, 0x00, 0x04, 0x00, 0x05, 0x00, 0x00, 0x01,
    0x00, 0x06, 0x00, 0x07, 0x07, 0x00, 0x01, 0x00, 0x15, 0x00, 0x04, 0x00, 0x0d, 0x00, 0x0b, 0x00,
    0x09, 0x00, 0x03, 0x00, 0x00, 0x00, 0x00, 0x02, 0x00, 0x00, 0x01, 0x00, 0x04, 0x00, 0x05, 0x00,
    0x00, 0x01, 0x00, 0x06, 0x00, 0x07, 0x08, 0x00, 0x01, 0x00, 0x17, 0x00, 0x05, 0x00, 0x15, 0x00,
    0x0d, 0x00, 0x0b, 0x00, 0x09, 0x00, 0x03, 0x00, 0x00, 0x00, 0x00, 0x02, 0x00, 0x00, 0x01, 0x00,
    0x04, 0x00, 0x05, 0x00, 0x00, 0x01, 0x00, 0x06, 0x00, 0x07, 0x09, 0x00, 0x01, 0x00, 0x19, 0x00,
    0x04, 0x00, 0x0d, 0x00, 0x0b, 0x00, 0x09, 0x00, 0x03, 0x00, 0x00, 0x00, 0x00, 0x02, 0x00, 0x00,
    0x01, 0x00, 0x04, 0x00, 0x05, 0x00, 0x00, 0x01, 0x00, 0x06, 0x00, 0x07, 0x0a, 0x00, 0x01, 0x00,
    0x1b, 0x00, 0x04, 0x00, 0x0d, 0x00, 0x0b, 0x00, 0x09, 0x00, 0x03, 0x00, 0x00, 0x00, 0x00, 0x02,
    0x00, 0x00, 0x01, 0x00, 0x04, 0x00, 0x05, 0x00, 0x00, 0x01, 0x00, 0x06, 0x00, 0x07,
];

/// A public class p/T with one static method f(S)S whose code is 1A 04 60 93 AC.
const CLASS: [u8; 104] = [
    0xCA, 0xFE, 0xBA, 0xBE, 0, 0, 0, 0x34, 0, 8, // up to the count
    1, 0, 3, b'p', b'/', b'T', 7, 0, 1, // p/T
    1, 0, 16, b'j', b'a', b'v', b'a', b'/', b'l', b'a', b'n', b'g', b'/', b'O', b'b', b'j', b'e',
    b'c', b't', 7, 0, 3, // java/lang/Object
    1, 0, 1, b'f', 1, 0, 4, b'(', b'S', b')', b'S', 1, 0, 4, b'C', b'o', b'd', b'e', // names
    0, 0x21, 0, 2, 0, 4, 0, 0, 0, 0, // the class
    0, 1, 0, 9, 0, 5, 0, 6, 0, 1, // f
    0, 7, 0, 0, 0, 17, 0, 2, 0, 1, 0, 0, 0, 5, 0x1A, 4, 0x60, 0x93, 0xAC, 0, 0, 0, 0, // its code
    0, 0,
];

/// That class with the code 1A 04 60 AC: the sum is not made a short.
const NO_I2S: [u8; 103] = [
    0xCA, 0xFE, 0xBA, 0xBE, 0, 0, 0, 0x34, 0, 8, // up to the count
    1, 0, 3, b'p', b'/', b'T', 7, 0, 1, // p/T
    1, 0, 16, b'j', b'a', b'v', b'a', b'/', b'l', b'a', b'n', b'g', b'/', b'O', b'b', b'j', b'e',
    b'c', b't', 7, 0, 3, // java/lang/Object
    1, 0, 1, b'f', 1, 0, 4, b'(', b'S', b')', b'S', 1, 0, 4, b'C', b'o', b'd', b'e', // names
    0, 0x21, 0, 2, 0, 4, 0, 0, 0, 0, // the class
    0, 1, 0, 9, 0, 5, 0, 6, 0, 1, // f
    0, 7, 0, 0, 0, 16, 0, 2, 0, 1, 0, 0, 0, 4, 0x1A, 4, 0x60, 0xAC, 0, 0, 0, 0, // its code
    0, 0,
];

const HEADER: [u8; 20] = [
    0x01, 0x00, 0x11, 0xDE, 0xCA, 0xFF, 0xED, 0x02, 0x02, 0x02, 0x00, 0x01, 0x05, 0xA0, 0x00, 0x00,
    0x00, 0x01, 0x01, 0x70,
];

const DIRECTORY: [u8; 36] = [
    0x02, 0x00, 0x21, 0x00, 0x11, 0x00, 0x21, 0x00, 0x00, 0x00, 0x0B, 0x00, 0x02, 0x00, 0x0C, 0x00,
    0x07, 0x00, 0x0A, 0x00, 0x04, 0x00, 0x07, 0x00, 0x1A, 0x00, 0x00, 0x00, 0x00, 0x00, 0x00, 0x00,
    0x00, 0x01, 0x00, 0x00,
];

const IMPORT: [u8; 14] = [
    0x04, 0x00, 0x0B, 0x01, 0x00, 0x01, 0x07, 0xA0, 0x00, 0x00, 0x00, 0x62, 0x00, 0x01,
];

const POOL: [u8; 5] = [0x05, 0x00, 0x02, 0x00, 0x00];

const CLASSES: [u8; 15] = [
    0x06, 0x00, 0x0C, 0x00, 0x00, 0x00, 0x80, 0x00, 0x00, 0xFF, 0x00, 0x01, 0x00, 0x00, 0x00,
];

const METHODS: [u8; 10] = [0x07, 0x00, 0x07, 0x00, 0x02, 0x10, 0x1C, 0x04, 0x41, 0x78];

const STATICS: [u8; 13] = [0x08, 0x00, 0x0A, 0, 0, 0, 0, 0, 0, 0, 0, 0, 0];

const LOCATIONS: [u8; 7] = [0x09, 0x00, 0x04, 0x00, 0x00, 0x00, 0x00];

const EXPORTS: [u8; 10] = [0x0A, 0x00, 0x07, 0x01, 0x00, 0x02, 0x00, 0x01, 0x00, 0x01];

const DESCRIPTORS: [u8; 29] = [
    0x0B, 0x00, 0x1A, 0x01, 0x00, 0x01, 0x00, 0x02, 0x00, 0x00, 0x00, 0x00, 0x01, 0x00, 0x09, 0x00,
    0x01, 0x00, 0x02, 0x00, 0x04, 0x00, 0x00, 0x00, 0x00, 0x00, 0x00, 0x02, 0x44,
];

const EXPORT_FILE: [u8; 130] = [
    0x00, 0xFA, 0xCA, 0xDE, 2, 2, 0, 10, // up to the count
    1, 0, 1, b'p', 13, 1, 0, 0, 0, 1, 5, 0xA0, 0, 0, 0, 1, // the package p
    1, 0, 3, b'p', b'/', b'T', 7, 0, 2, // p/T
    1, 0, 16, b'j', b'a', b'v', b'a', b'/', b'l', b'a', b'n', b'g', b'/', b'O', b'b', b'j', b'e',
    b'c', b't', 7, 0, 4, // java/lang/Object
    1, 0, 1, b'f', 1, 0, 4, b'(', b'S', b')', b'S', 1, 0, 6, b'e', b'q', b'u', b'a', b'l', b's', // names
    1, 0, 21, b'(', b'L', b'j', b'a', b'v', b'a', b'/', b'l', b'a', b'n', b'g', b'/', b'O', b'b',
    b'j', b'e', b'c', b't', b';', b')', b'Z', // the descriptor of equals
    0, 1, 1, // one class
    0, 0, 1, 0, 3, 0, 1, 0, 5, 0, 0, 0, 0, 2, // p/T, its superclass, two methods
    0, 0, 9, 0, 6, 0, 7, // f
    0, 0, 1, 0, 8, 0, 9, // equals
];

/// What is written, in order, each with the number of its call of the shelf.
const FILES: [(u32, &[u8], &[u8]); 11] = [
    (3, b"out/Header.cap", &HEADER),
    (4, b"out/Directory.cap", &DIRECTORY),
    (5, b"out/Import.cap", &IMPORT),
    (6, b"out/ConstantPool.cap", &POOL),
    (7, b"out/Class.cap", &CLASSES),
    (8, b"out/Method.cap", &METHODS),
    (9, b"out/StaticField.cap", &STATICS),
    (10, b"out/RefLocation.cap", &LOCATIONS),
    (11, b"out/Export.cap", &EXPORTS),
    (12, b"out/Descriptor.cap", &DESCRIPTORS),
    (13, b"out/p.exp", &EXPORT_FILE),
];

/// Each call of the shelf, and how the run ends where it fails.
const FAULTS: [(u32, &str); 14] = [
    (0, "shelf fault list\n"),
    (1, "shelf fault lang.exp\n"),
    (2, "shelf fault T.class\n"),
    (3, "shelf fault out/Header.cap\n"),
    (4, "shelf fault out/Directory.cap\n"),
    (5, "shelf fault out/Import.cap\n"),
    (6, "shelf fault out/ConstantPool.cap\n"),
    (7, "shelf fault out/Class.cap\n"),
    (8, "shelf fault out/Method.cap\n"),
    (9, "shelf fault out/StaticField.cap\n"),
    (10, "shelf fault out/RefLocation.cap\n"),
    (11, "shelf fault out/Export.cap\n"),
    (12, "shelf fault out/Descriptor.cap\n"),
    (13, "shelf fault out/p.exp\n"),
];

const PRINTED: &str =
    "Header.cap 20\nDirectory.cap 36\nImport.cap 14\nConstantPool.cap 5\nClass.cap 15\nMethod.cap 10\nStaticField.cap 13\nRefLocation.cap 7\nExport.cap 10\nDescriptor.cap 29\np.exp 130\n";

const CONVERT: [&[u8]; 3] = [b"convert", b"list", b"out"];

fn words_of(alloc: Global, words: &[&[u8]]) -> Result<Row<Bytes>, NoMemory> {
    let mut row = Row::new(alloc);
    for word in words {
        row.push(Bytes::copy_of(alloc, word)?)?;
    }
    Ok(row)
}

fn numbers(alloc: Global, numbers: &[u32]) -> Result<Row<u32>, NoMemory> {
    let mut row = Row::new(alloc);
    for number in numbers {
        row.push(*number)?;
    }
    Ok(row)
}

/// The list, its export file and this class file.
fn package(alloc: Global, failing: &[u32], class: &[u8]) -> Result<MemShelf, Fail> {
    let mut shelf = MemShelf::new(alloc, numbers(alloc, failing)?);
    shelf.add(b"list", LIST)?;
    shelf.add(b"lang.exp", &LANG)?;
    shelf.add(b"T.class", class)?;
    Ok(shelf)
}

/// What is printed, and how the run ended, where the puts of these numbers fail.
fn printed(
    alloc: Global,
    failing: &[u32],
    words: &[&[u8]],
    shelf: &mut MemShelf,
) -> Result<(String, String), Fail> {
    let mut out = MemSink::new(alloc, numbers(alloc, failing)?);
    out.reserve()?;
    let mut errors = MemSink::new(alloc, Row::new(alloc));
    errors.reserve()?;
    let words = words_of(alloc, words)?;
    let status = run(alloc, words.items(), shelf, &mut out);
    status_line(&status, &mut errors)?;
    let text = String::from_str(alloc, str::from_utf8(out.bytes())?)?;
    let end = String::from_str(alloc, str::from_utf8(errors.bytes())?)?;
    Ok((text, end))
}

/// Whether this shelf has the files of the calls before this one whole, and none of the others.
fn stand_before(shelf: &MemShelf, call: u32) -> bool {
    FILES.iter().all(|(at, name, bytes)| {
        if *at < call {
            shelf.get(name) == Some(*bytes)
        } else {
            shelf.get(name).is_none()
        }
    })
}

#[test]
fn converts_a_sum(rt: HostRuntime) -> Result<(), Fail> {
    let mut shelf = package(rt.alloc(), &[], &CLASS)?;
    let (text, end) = printed(rt.alloc(), &[], &CONVERT, &mut shelf)?;
    assert_eq!(rt; end.as_str(), "");
    assert_eq!(rt; text.as_str(), PRINTED);
    for (_, name, bytes) in FILES {
        assert_eq!(rt; shelf.get(name), Some(bytes));
    }
    assert!(rt; shelf.get(b"out/Applet.cap").is_none());
    Ok(())
}

#[test]
fn converts_by_another_export_file(rt: HostRuntime) -> Result<(), Fail> {
    // version 2.3, another AID, Object with token 200, its `equals` protected and with token 7
    let mut lang = LANG;
    lang[24] = 3;
    lang[25] = 2;
    lang[33] = 0x7F;
    lang[458] = 200;
    lang[477] = 7;
    lang[479] = 4;
    let mut import = IMPORT;
    import[4] = 3;
    import[5] = 2;
    import[13] = 0x7F;
    let mut classes = CLASSES;
    classes[7] = 200;
    classes[11] = 8;
    let mut export = EXPORT_FILE;
    export[123] = 7;
    export[125] = 4;
    let mut shelf = package(rt.alloc(), &[], &CLASS)?;
    shelf.add(b"lang.exp", &lang)?;
    let (text, end) = printed(rt.alloc(), &[], &CONVERT, &mut shelf)?;
    assert_eq!(rt; end.as_str(), "");
    assert_eq!(rt; text.as_str(), PRINTED);
    for (call, name, bytes) in FILES {
        let want: &[u8] = match call {
            5 => &import,
            7 => &classes,
            13 => &export,
            _ => bytes,
        };
        assert_eq!(rt; shelf.get(name), Some(want));
    }
    Ok(())
}

#[test]
fn refuses_and_writes_nothing(rt: HostRuntime) -> Result<(), Fail> {
    let mut broken = CLASS;
    broken[0] = 0;
    let long = vec![in rt.alloc(); 0u8; 262_145]?;
    // nop at the end, ladd for iadd, and both
    let mut falls = CLASS;
    falls[97] = 0x00;
    let mut longs = CLASS;
    longs[95] = 0x61;
    let mut both = longs;
    both[97] = 0x00;
    let cut = &LANG[..3];
    let cases: [(&[u8], &[u8], &str); 10] = [
        (&LANG, &NO_I2S, "refused 801 list - - 0\n"),
        (&LANG, &broken, "refused 101 T.class - - 0\n"),
        (&LANG, &CLASS[..103], "refused 101 T.class - - 102\n"),
        (&LANG, &falls, "refused 103 T.class p/T f(S)S 4\n"),
        (&LANG, &longs, "refused 303 T.class p/T f(S)S 2\n"),
        (&LANG, &both, "refused 103 T.class p/T f(S)S 4\n"),
        (cut, &CLASS, "refused 104 lang.exp - - 0\n"),
        (cut, &falls, "refused 104 lang.exp - - 0\n"),
        (cut, &longs, "refused 104 lang.exp - - 0\n"),
        (&LANG, long.as_slice(), "too long T.class\n"),
    ];
    for (lang, class, want) in cases {
        let mut shelf = package(rt.alloc(), &[], class)?;
        shelf.add(b"lang.exp", lang)?;
        let (text, end) = printed(rt.alloc(), &[], &CONVERT, &mut shelf)?;
        assert_eq!(rt; end.as_str(), want);
        assert_eq!(rt; text.as_str(), "");
        assert!(rt; stand_before(&shelf, 0));
    }
    Ok(())
}

/// Lists that name other files than the first form's.
const TWICE: &[u8] = b"package p A000000001 1.0\nexport lang.exp\nclass T.class\nclass U.class\n";

const NO_LANG: &[u8] = b"package p A000000001 1.0\nexport p.exp\nclass T.class\n";

const ALONE: &[u8] = b"package p A000000001 1.0\nclass T.class\n";

const TWO_LANG: &[u8] =
    b"package p A000000001 1.0\nexport lang.exp\nexport lang.exp\nclass T.class\n";

#[test]
fn refuses_by_the_world(rt: HostRuntime) -> Result<(), Fail> {
    let mut longs = CLASS;
    longs[95] = 0x61;
    // synchronized, and a max_stack of 258
    let mut locks = CLASS;
    locks[72] = 0x29;
    let mut deep = CLASS;
    deep[85] = 1;
    let mut mixed = longs;
    mixed[72] = 0x29;
    let mut late = longs;
    late[85] = 1;
    // aconst_null, three nops, ireturn; and three constants
    let mut nulls = CLASS;
    nulls[93] = 0x01;
    nulls[94] = 0x00;
    nulls[95] = 0x00;
    nulls[96] = 0x00;
    let mut high = CLASS;
    high[93] = 0x04;
    high[95] = 0x04;
    let cases: [(&[u8], &[u8], &str); 11] = [
        (TWICE, &CLASS, "refused 202 U.class p/T - 0\n"),
        (NO_LANG, &CLASS, "refused 207 list - - 0\n"),
        (TWO_LANG, &CLASS, "refused 202 lang.exp - - 0\n"),
        (ALONE, &longs, "refused 207 list - - 0\n"),
        (LIST, &longs, "refused 303 T.class p/T f(S)S 2\n"),
        (LIST, &locks, "refused 304 T.class p/T f(S)S 0\n"),
        (LIST, &mixed, "refused 304 T.class p/T f(S)S 0\n"),
        (LIST, &deep, "refused 405 T.class p/T f(S)S 0\n"),
        (LIST, &late, "refused 303 T.class p/T f(S)S 2\n"),
        (LIST, &nulls, "refused 502 T.class p/T f(S)S 4\n"),
        (LIST, &high, "refused 503 T.class p/T f(S)S 2\n"),
    ];
    for (list, class, want) in cases {
        let mut shelf = package(rt.alloc(), &[], class)?;
        shelf.add(b"list", list)?;
        shelf.add(b"U.class", &CLASS)?;
        shelf.add(b"p.exp", &EXPORT_FILE)?;
        let (text, end) = printed(rt.alloc(), &[], &CONVERT, &mut shelf)?;
        assert_eq!(rt; end.as_str(), want);
        assert_eq!(rt; text.as_str(), "");
        assert!(rt; stand_before(&shelf, 0));
    }
    Ok(())
}

/// An abstract class p/T with so many public abstract methods, the first with a descriptor of this one letter.
fn of_methods(alloc: Global, count: u8, first: u8) -> Result<Vec<u8>, Fail> {
    let mut class = Vec::new(alloc);
    class.extend_from_slice(b"\xCA\xFE\xBA\xBE\x00\x00\x00\x34\x01\x00")?;
    class.extend_from_slice(
        b"\x07\x00\x02\x01\x00\x03p/T\x07\x00\x04\x01\x00\x10java/lang/Object",
    )?;
    class.extend_from_slice(b"\x01\x00\x03()V\x01\x00\x04(")?;
    class.push(first)?;
    class.extend_from_slice(b")V")?;
    for number in 7..=255 {
        let name = [0x01, 0x00, 0x02, b'a' + number / 16, b'a' + number % 16];
        class.extend_from_slice(&name)?;
    }
    class.extend_from_slice(b"\x04\x21\x00\x01\x00\x03\x00\x00\x00\x00\x00")?;
    class.push(count)?;
    for number in 0..count {
        let desc = if number == 0 { 6 } else { 5 };
        let method = [
            0x04,
            0x01,
            0x00,
            number.wrapping_add(7),
            0x00,
            desc,
            0x00,
            0x00,
        ];
        class.extend_from_slice(&method)?;
    }
    class.extend_from_slice(b"\x00\x00")?;
    Ok(class)
}

#[test]
fn refuses_too_many_methods(rt: HostRuntime) -> Result<(), Fail> {
    // equals of java/lang/Object has token 0; a char comes before a limit
    let cases: [(u8, u8, &str); 4] = [
        (127, b'S', "refused 801 list - - 0\n"),
        (128, b'S', "refused 413 T.class p/T - 0\n"),
        (127, b'C', "refused 301 T.class p/T ah(C)V 0\n"),
        (128, b'C', "refused 301 T.class p/T ah(C)V 0\n"),
    ];
    for (count, first, want) in cases {
        let class = of_methods(rt.alloc(), count, first)?;
        let mut shelf = package(rt.alloc(), &[], &class)?;
        let (text, end) = printed(rt.alloc(), &[], &CONVERT, &mut shelf)?;
        assert_eq!(rt; end.as_str(), want);
        assert_eq!(rt; text.as_str(), "");
        assert!(rt; stand_before(&shelf, 0));
    }
    Ok(())
}

#[test]
fn each_call_of_the_shelf_fails(rt: HostRuntime) -> Result<(), Fail> {
    for (call, want) in FAULTS {
        let mut shelf = package(rt.alloc(), &[call], &CLASS)?;
        let (text, end) = printed(rt.alloc(), &[], &CONVERT, &mut shelf)?;
        assert_eq!(rt; end.as_str(), want);
        assert_eq!(rt; text.as_str(), "");
        assert!(rt; stand_before(&shelf, call), "at {call}");
    }
    Ok(())
}

#[test]
fn each_put_fails(rt: HostRuntime) -> Result<(), Fail> {
    for put in 0..11 {
        let mut shelf = package(rt.alloc(), &[], &CLASS)?;
        let (text, end) = printed(rt.alloc(), &[put], &CONVERT, &mut shelf)?;
        assert_eq!(rt; end.as_str(), "sink fault\n");
        assert!(rt; PRINTED.starts_with(text.as_str()));
        assert!(rt; text.as_str() != PRINTED);
        assert!(rt; stand_before(&shelf, 14), "at {put}");
    }
    Ok(())
}

#[test]
fn other_words_and_no_list(rt: HostRuntime) -> Result<(), Fail> {
    let words: [&[&[u8]]; 4] = [
        &[],
        &[b"convert", b"list"],
        &[b"convert", b"list", b"out", b"out"],
        &[b"Convert", b"list", b"out"],
    ];
    for words in words {
        let mut shelf = package(rt.alloc(), &[], &CLASS)?;
        let (text, end) = printed(rt.alloc(), &[], words, &mut shelf)?;
        assert!(rt; end.as_str().starts_with("usage: jcconv convert LIST DIR"));
        assert!(rt; end.as_str().ends_with("\n"));
        assert_eq!(rt; text.as_str(), "");
        assert!(rt; stand_before(&shelf, 0));
    }
    let mut shelf = MemShelf::new(rt.alloc(), Row::new(rt.alloc()));
    let (text, end) = printed(rt.alloc(), &[], &CONVERT, &mut shelf)?;
    assert_eq!(rt; end.as_str(), "absent list\n");
    assert_eq!(rt; text.as_str(), "");
    shelf.add(b"list", LIST)?;
    shelf.add(b"lang.exp", LANG.as_slice())?;
    let (text, end) = printed(rt.alloc(), &[], &CONVERT, &mut shelf)?;
    assert_eq!(rt; end.as_str(), "absent T.class\n");
    assert_eq!(rt; text.as_str(), "");
    Ok(())
}
