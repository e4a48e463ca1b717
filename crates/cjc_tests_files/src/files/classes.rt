//! A class file written down byte by byte, and what reading gives: the tree, and the refusal of each prefix.

use crate::case_files::SUM;
use cjc_capwrite::bytes::{Fault, Rule};
use cjc_world::classfile::{ClassTree, MethodTree, read};
use std::test::*;

/// Where its fields begin.
const STARTS: [u32; 42] = [
    0, 4, 6, 8, 10, 11, 13, 16, 17, 19, 20, 22, 38, 39, 41, 42, 44, 45, 46, 48, 52, 53, 55, 59, 61,
    63, 65, 67, 69, 71, 73, 75, 77, 79, 81, 85, 87, 89, 93, 98, 100, 102,
];

/// The offset of the refusal by rule 101, or nothing.
fn refusal(rt: &HostRuntime, bytes: &[u8]) -> Option<u32> {
    if bytes.len() > 1000 {
        return None;
    }
    match read(rt.alloc(), b"T.class", bytes) {
        Err(Fault::Refused(refusal)) => {
            let Rule(rule) = refusal.rule;
            if rule == 101 {
                Some(refusal.place.offset)
            } else {
                None
            }
        }
        _ => None,
    }
}

fn is_the_method(method: &MethodTree<'_>) -> bool {
    method.name.items() == b"f".as_slice()
        && method.desc.items() == b"(S)S".as_slice()
        && matches!(&method.code, Some(code) if code.bytes.len() == 5 && code.max_stack == 2)
}

fn is_the_class(class: &ClassTree<'_>) -> bool {
    class.major == 52
        && class.flags == 0x21
        && class.name.items() == b"p/T".as_slice()
        && class.superclass.items() == b"java/lang/Object".as_slice()
        && class.pool.items().len() == 8
        && class.fields.items().len() == 0
        && class.methods.items().len() == 1
        && class.methods.items().iter().all(is_the_method)
}

fn is_read(rt: &HostRuntime, bytes: &[u8]) -> bool {
    if bytes.len() > 1000 {
        return false;
    }
    match read(rt.alloc(), b"T.class", bytes) {
        Ok(class) => is_the_class(&class),
        Err(_) => false,
    }
}

#[test]
fn one_class(rt: HostRuntime) {
    assert!(rt; is_read(&rt, SUM));
}

/// The first length at which a file is not refused where the last of its fields begins; nothing where there is none.
fn first_other_cut(rt: &HostRuntime, bytes: &[u8], starts: &[u32]) -> Option<usize> {
    let mut place = 0;
    let mut next = 0;
    for n in 0..bytes.len() {
        if next < starts.len() && starts[next] as usize == n {
            place = starts[next];
            next += 1;
        }
        if refusal(rt, &bytes[..n]) != Some(place) {
            return Some(n);
        }
    }
    None
}

#[test]
fn cut_short(rt: HostRuntime) {
    assert_eq!(rt; first_other_cut(&rt, SUM, &STARTS), None);
}
