use super::*;
use cjc_bytes::{BadDesc, Desc, Fault, Rule};
use std::test::*;

/// A public class p/T with one static method f(S)S of five bytes of code.
const CLASS: [u8; 104] = [
    0xCA, 0xFE, 0xBA, 0xBE, 0, 0, 0, 0x34, 0, 8, // up to the count
    1, 0, 3, b'p', b'/', b'T', 7, 0, 1, // p/T
    1, 0, 16, b'j', b'a', b'v', b'a', b'/', b'l', b'a', b'n', b'g', b'/', b'O', b'b', b'j', b'e',
    b'c', b't', 7, 0, 3, // java/lang/Object
    1, 0, 1, b'f', 1, 0, 4, b'(', b'S', b')', b'S', 1, 0, 4, b'C', b'o', b'd', b'e', // names
    0, 0x21, 0, 2, 0, 4, 0, 0, 0, 0, // the class
    0, 1, 0, 9, 0, 5, 0, 6, 0, 1, // f
    0, 7, 0, 0, 0, 17, 0, 2, 0, 1, 0, 0, 0, 5, 0x1A, 4, 0x60, 0x93, 0xAC, 0, 0, 0, 0, // its code
    0, 0,
];

/// Where the fields of that class file begin.
const STARTS: [u32; 42] = [
    0, 4, 6, 8, 10, 11, 13, 16, 17, 19, 20, 22, 38, 39, 41, 42, 44, 45, 46, 48, 52, 53, 55, 59, 61,
    63, 65, 67, 69, 71, 73, 75, 77, 79, 81, 85, 87, 89, 93, 98, 100, 102,
];

/// One byte of that class file changed, and the refusal.
const CHANGES: [(usize, u8, u16, u32); 16] = [
    (3, 0xBF, 101, 0), // the magic
    (7, 0x35, 102, 6), // version 53
    (7, 44, 102, 6), // version 44
    (9, 0, 101, 8), // no pool
    (10, 2, 101, 10), // no tag
    (10, 5, 101, 61), // a Long, which takes index 2 too
    (18, 9, 101, 17), // a name past the pool
    (18, 2, 101, 17), // a name that is a Class
    (62, 1, 101, 61), // this_class is a Utf8
    (64, 0, 101, 63), // no superclass
    (76, 5, 101, 75), // f is no descriptor
    (78, 0, 101, 77), // no Code
    (80, 5, 101, 79), // an attribute f in place of Code
    (71, 4, 101, 79), // an abstract method with Code
    (84, 18, 101, 81), // a length that is not the content's
    (92, 0, 101, 89), // no code
];

/// The rule and the offset of the refusal, or nothing.
fn refusal(rt: &HostRuntime, bytes: &[u8]) -> Option<(u16, u32)> {
    if bytes.len() > 1000 {
        return None;
    }
    match read(rt.alloc(), b"T.class", bytes) {
        Ok(_) => None,
        Err(Fault::NoMemory) => None,
        Err(Fault::Refused(refusal)) => {
            let Rule(rule) = refusal.rule;
            Some((rule, refusal.place.offset))
        }
    }
}

#[test]
fn one_class(rt: HostRuntime) -> Result<(), Fail> {
    let class = read(rt.alloc(), b"T.class", &CLASS).ok().ok_or("a class")?;
    assert_eq!(rt; class.major, 52);
    assert_eq!(rt; class.flags, 0x21);
    assert_eq!(rt; class.name.items(), b"p/T".as_slice());
    assert_eq!(rt; class.superclass.items(), b"java/lang/Object".as_slice());
    assert_eq!(rt; class.pool.items().len(), 8);
    assert_eq!(rt; class.fields.items().len(), 0);
    assert_eq!(rt; class.attributes, 0);
    assert_eq!(rt; class.methods.items().len(), 1);
    for method in class.methods.items() {
        assert_eq!(rt; method.name.items(), b"f".as_slice());
        assert_eq!(rt; method.desc.items(), b"(S)S".as_slice());
        assert!(rt;
            matches!(&method.code, Some(code) if code.bytes.len() == 5 && code.max_stack == 2)
        );
    }
    Ok(())
}

#[test]
fn cut_files(rt: HostRuntime) {
    let mut start = 0;
    for length in 0..104 {
        if STARTS.contains(&length) {
            start = length;
        }
        assert_eq!(rt;
            refusal(&rt, &CLASS[..length as usize]),
            Some((101, start)),
            "at {length}"
        );
    }
    let mut longer = [0; 105];
    longer[..104].copy_from_slice(&CLASS);
    assert_eq!(rt; refusal(&rt, &longer), Some((101, 104)));
}

#[test]
fn broken_fields(rt: HostRuntime) {
    for (at, byte, rule, offset) in CHANGES {
        let mut bytes = CLASS;
        if at < bytes.len() {
            bytes[at] = byte;
        }
        assert_eq!(rt; refusal(&rt, &bytes), Some((rule, offset)), "at {at}");
    }
    let short = [0xCA, 0xFE, 0xBA, 0xBE, 0, 0, 0, 0x34, 0, 3, 1, 0];
    assert_eq!(rt; refusal(&rt, &short), Some((101, 11)));
}

/// Bytes that are no descriptor, and their longest prefix that some descriptor has.
const BAD: [(&[u8], u32); 14] = [
    (b"", 0),
    (b"V", 0),
    (b"SS", 1),
    (b"[", 1),
    (b"[V", 1),
    (b"L;", 1),
    (b"Lp//A;", 3),
    (b"Lp.A;", 2),
    (b"Lp/A", 4),
    (b"(", 1),
    (b"(V)V", 1),
    (b"(S)", 3),
    (b"()VV", 3),
    (b"([Lp/A;", 7),
];

#[test]
fn no_descriptors(rt: HostRuntime) {
    for (bytes, at) in BAD {
        if bytes.len() < 100 {
            assert!(rt;
                matches!(Desc::parse(bytes), Err(BadDesc { at: found }) if found == at),
                "at {at}"
            );
        }
    }
}
