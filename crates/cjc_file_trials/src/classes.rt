//! Class files written down byte by byte, and what reading gives: the tree, and the refusal of each prefix and
//! each changed field.

use cjc_bytes::{BadDesc, Desc, Fault, Rule};
use cjc_classfile::{ClassTree, MethodTree, read};
use std::test::*;

/// A public class p/T with one static method f(S)S of five bytes of code.
const CLASS: [u8; 104] = [
    0xCA, 0xFE, 0xBA, 0xBE, 0, 0, 0, 0x34, 0, 8, // up to the count
    1, 0, 3, b'p', b'/', b'T', 7, 0, 1, // p/T
    1, 0, 16, b'j', b'a', b'v', b'a', b'/', b'l', b'a', b'n', b'g', b'/', b'O', b'b', b'j', b'e',
    b'c', b't', 7, 0, 3, // java/lang/Object
    1, 0, 1, b'f', 1, 0, 4, b'(', b'S', b')', b'S', 1, 0, 4, b'C', b'o', b'd', b'e', // names
    0, 0x21, 0, 2, 0, 4, 0, 0, 0, 0, // the class
    0, 1, 0, 9, 0, 5, 0, 6, 0, 1, // f
    0, 7, 0, 0, 0, 17, 0, 2, 0, 1, 0, 0, 0, 5, 0x1A, 4, 0x60, 0x93, 0xAC, 0, 0, 0, 0, // its code
    0, 0,
];

/// Where the fields of that class file begin.
const STARTS: [u32; 42] = [
    0, 4, 6, 8, 10, 11, 13, 16, 17, 19, 20, 22, 38, 39, 41, 42, 44, 45, 46, 48, 52, 53, 55, 59, 61,
    63, 65, 67, 69, 71, 73, 75, 77, 79, 81, 85, 87, 89, 93, 98, 100, 102,
];

/// One byte of that class file changed, and the refusal.
const CHANGES: [(usize, u8, u16, u32); 16] = [
    (3, 0xBF, 101, 0), // the magic
    (7, 0x35, 102, 6), // version 53
    (7, 44, 102, 6), // version 44
    (9, 0, 101, 8), // no pool
    (10, 2, 101, 10), // no tag
    (10, 5, 101, 61), // a Long, which takes index 2 too
    (18, 9, 101, 17), // a name past the pool
    (18, 2, 101, 17), // a name that is a Class
    (62, 1, 101, 61), // this_class is a Utf8
    (64, 0, 101, 63), // no superclass
    (76, 5, 101, 75), // f is no descriptor
    (78, 0, 101, 77), // no Code
    (80, 5, 101, 79), // an attribute f in place of Code
    (71, 4, 101, 79), // an abstract method with Code
    (84, 18, 101, 81), // a length that is not the content's
    (92, 0, 101, 89), // no code
];

/// The start of a class file whose pool is cut behind the tag of its first entry.
const CUT_POOL: [u8; 12] = [0xCA, 0xFE, 0xBA, 0xBE, 0, 0, 0, 0x34, 0, 3, 1, 0];

/// The rule and the offset of the refusal, or nothing.
fn refusal(rt: &HostRuntime, bytes: &[u8]) -> Option<(u16, u32)> {
    if bytes.len() > 1000 {
        return None;
    }
    match read(rt.alloc(), b"T.class", bytes) {
        Ok(_) | Err(Fault::NoMemory) => None,
        Err(Fault::Refused(refusal)) => {
            let Rule(rule) = refusal.rule;
            Some((rule, refusal.place.offset))
        }
    }
}

fn is_the_method(method: &MethodTree<'_>) -> bool {
    method.name.items() == b"f".as_slice()
        && method.desc.items() == b"(S)S".as_slice()
        && matches!(&method.code, Some(code) if code.bytes.len() == 5 && code.max_stack == 2)
}

fn is_the_class(class: &ClassTree<'_>) -> bool {
    class.major == 52
        && class.flags == 0x21
        && class.name.items() == b"p/T".as_slice()
        && class.superclass.items() == b"java/lang/Object".as_slice()
        && class.pool.items().len() == 8
        && class.fields.items().len() == 0
        && class.methods.items().len() == 1
        && class.methods.items().iter().all(is_the_method)
}

#[test]
fn one_class(rt: HostRuntime) {
    let class = read(rt.alloc(), b"T.class", &CLASS);
    assert!(rt; matches!(&class, Ok(class) if is_the_class(class)));
}

#[test]
fn cut_files(rt: HostRuntime) {
    let mut start = 0;
    for length in 0..104 {
        if STARTS.contains(&length) {
            start = length;
        }
        let found = refusal(&rt, &CLASS[..length as usize]);
        assert_eq!(rt; found, Some((101, start)), "at {length}");
    }
}

#[test]
fn bytes_behind(rt: HostRuntime) {
    let mut longer = [0; 105];
    longer[..104].copy_from_slice(&CLASS);
    assert_eq!(rt; refusal(&rt, &longer), Some((101, 104)));
}

#[test]
fn broken_fields(rt: HostRuntime) {
    for (at, byte, rule, offset) in CHANGES {
        let mut bytes = CLASS;
        if at < bytes.len() {
            bytes[at] = byte;
        }
        assert_eq!(rt; refusal(&rt, &bytes), Some((rule, offset)), "at {at}");
    }
}

#[test]
fn cut_pool(rt: HostRuntime) {
    assert_eq!(rt; refusal(&rt, &CUT_POOL), Some((101, 11)));
}

/// Bytes that are no descriptor, and their longest prefix that some descriptor has.
const BAD: [(&[u8], u32); 14] = [
    (b"", 0),
    (b"V", 0),
    (b"SS", 1),
    (b"[", 1),
    (b"[V", 1),
    (b"L;", 1),
    (b"Lp//A;", 3),
    (b"Lp.A;", 2),
    (b"Lp/A", 4),
    (b"(", 1),
    (b"(V)V", 1),
    (b"(S)", 3),
    (b"()VV", 3),
    (b"([Lp/A;", 7),
];

/// The longest prefix of some bytes that some descriptor has, where they are none.
fn bad_at(bytes: &[u8]) -> Option<u32> {
    if bytes.len() >= 100 {
        return None;
    }
    match Desc::parse(bytes) {
        Ok(_) => None,
        Err(BadDesc { at }) => Some(at),
    }
}

#[test]
fn no_descriptors(rt: HostRuntime) {
    for (bytes, at) in BAD {
        assert_eq!(rt; bad_at(bytes), Some(at), "at {at}");
    }
}
