//! Export files from outside, and what reading and writing them gives.

use crate::case_files::{FRAMEWORK, LANG, Q};
use cjc_capwrite::bytes::{Bytes, Fault, Rule};
use cjc_world::export_file::{ExportClass, ExportTree, read, write};
use std::test::*;

/// A package p with a public class p/T and its static method f(S)S.
const ROW: [u8; 130] = [
    0, 250, 202, 222, 2, 2, 0, 10, 1, 0, 1, 112, 13, 1, 0, 0, 0, 1, 5, 160, 0, 0, 0, 1, 1, 0, 3,
    112, 47, 84, 7, 0, 2, 1, 0, 16, 106, 97, 118, 97, 47, 108, 97, 110, 103, 47, 79, 98, 106, 101,
    99, 116, 7, 0, 4, 1, 0, 1, 102, 1, 0, 4, 40, 83, 41, 83, 1, 0, 6, 101, 113, 117, 97, 108, 115,
    1, 0, 21, 40, 76, 106, 97, 118, 97, 47, 108, 97, 110, 103, 47, 79, 98, 106, 101, 99, 116, 59,
    41, 90, 0, 1, 1, 0, 0, 1, 0, 3, 0, 1, 0, 5, 0, 0, 0, 0, 2, 0, 0, 9, 0, 6, 0, 7, 0, 0, 1, 0, 8,
    0, 9,
];

/// Where the fields of the export file of java/lang begin.
const LANG_STARTS: [u32; 283] = [
    0, 4, 5, 6, 8, 9, 11, 20, 21, 22, 24, 25, 26, 27, 34, 35, 37, 53, 54, 56, 57, 59, 65, 66, 68,
    71, 72, 74, 80, 81, 83, 104, 105, 107, 126, 127, 129, 130, 132, 151, 152, 154, 155, 157, 183,
    184, 186, 187, 189, 218, 219, 221, 222, 224, 252, 253, 255, 256, 258, 288, 289, 291, 292, 294,
    329, 330, 332, 333, 335, 375, 376, 378, 379, 381, 417, 418, 420, 421, 423, 452, 453, 455, 457,
    458, 459, 461, 463, 465, 466, 468, 470, 471, 473, 475, 477, 478, 480, 482, 484, 485, 487, 489,
    491, 493, 494, 496, 498, 499, 501, 503, 505, 506, 508, 510, 512, 513, 515, 517, 519, 521, 523,
    524, 526, 528, 529, 531, 533, 535, 536, 538, 540, 542, 543, 545, 547, 549, 551, 553, 555, 556,
    558, 560, 561, 563, 565, 567, 568, 570, 572, 574, 575, 577, 579, 581, 583, 585, 587, 589, 590,
    592, 594, 595, 597, 599, 601, 602, 604, 606, 608, 609, 611, 613, 615, 617, 619, 621, 623, 624,
    626, 628, 629, 631, 633, 635, 636, 638, 640, 642, 643, 645, 647, 649, 651, 653, 655, 657, 658,
    660, 662, 663, 665, 667, 669, 670, 672, 674, 676, 677, 679, 681, 683, 685, 687, 689, 691, 692,
    694, 696, 697, 699, 701, 703, 704, 706, 708, 710, 711, 713, 715, 717, 719, 721, 723, 725, 727,
    728, 730, 732, 733, 735, 737, 739, 740, 742, 744, 746, 747, 749, 751, 753, 755, 757, 759, 761,
    762, 764, 766, 767, 769, 771, 773, 774, 776, 778, 780, 781, 783, 785, 787, 789, 791, 793, 795,
    796, 798, 800, 801, 803, 805, 807, 808, 810, 812,
];

/// Package r with an interface and a class that has a constant, static and instance fields.
const RICH: [u8; 278] = [
    0, 250, 202, 222, 1, 2, 0, 22, 1, 0, 1, 114, 13, 2, 0, 0, 3, 1, 5, 160, 0, 0, 0, 9, 1, 0, 3,
    114, 47, 73, 7, 0, 2, 1, 0, 16, 106, 97, 118, 97, 47, 108, 97, 110, 103, 47, 79, 98, 106, 101,
    99, 116, 7, 0, 4, 1, 0, 1, 118, 1, 0, 3, 40, 41, 83, 1, 0, 1, 119, 1, 0, 3, 114, 47, 67, 7, 0,
    9, 1, 0, 1, 75, 1, 0, 1, 73, 1, 0, 13, 67, 111, 110, 115, 116, 97, 110, 116, 86, 97, 108, 117,
    101, 3, 255, 255, 255, 254, 1, 0, 1, 115, 1, 0, 1, 83, 1, 0, 1, 116, 1, 0, 1, 105, 1, 0, 10,
    68, 101, 112, 114, 101, 99, 97, 116, 101, 100, 1, 0, 6, 60, 105, 110, 105, 116, 62, 1, 0, 3,
    40, 41, 86, 0, 1, 2, 255, 6, 1, 0, 3, 0, 1, 0, 5, 0, 0, 0, 0, 2, 1, 4, 1, 0, 6, 0, 7, 0, 4, 1,
    0, 8, 0, 7, 0, 0, 1, 0, 10, 0, 1, 0, 5, 1, 0, 3, 0, 5, 255, 0, 25, 0, 11, 0, 12, 0, 1, 0, 13,
    0, 0, 0, 2, 0, 14, 255, 0, 25, 0, 15, 0, 16, 0, 0, 0, 0, 9, 0, 17, 0, 16, 0, 1, 0, 19, 0, 0, 0,
    0, 0, 0, 1, 0, 18, 0, 16, 0, 0, 1, 0, 1, 0, 17, 0, 16, 0, 0, 0, 3, 0, 0, 1, 0, 20, 0, 21, 127,
    0, 1, 0, 6, 0, 7, 0, 0, 1, 0, 8, 0, 7,
];

/// The files that writing gives again, byte for byte.
const WRITTEN: [&[u8]; 4] = [&ROW, LANG, Q, FRAMEWORK];

/// The bytes, read and written again.
fn again(rt: &HostRuntime, bytes: &[u8]) -> Option<Bytes> {
    if bytes.len() > 1000 {
        return None;
    }
    let tree = read(rt.alloc(), b"some.exp", bytes).ok()?;
    write(rt.alloc(), &tree).ok()
}

fn is_again(rt: &HostRuntime, bytes: &[u8]) -> bool {
    matches!(again(rt, bytes), Some(written) if written.items() == bytes)
}

/// Whether the bytes are written as fewer, which are written again as they are.
fn is_shortened(rt: &HostRuntime, bytes: &[u8]) -> bool {
    match again(rt, bytes) {
        Some(written) => written.items().len() < bytes.len() && is_again(rt, written.items()),
        None => false,
    }
}

/// The offset of the refusal by rule 104, or nothing.
fn refusal(rt: &HostRuntime, bytes: &[u8]) -> Option<u32> {
    if bytes.len() > 1000 {
        return None;
    }
    match read(rt.alloc(), b"some.exp", bytes) {
        Err(Fault::Refused(refusal)) => {
            let Rule(rule) = refusal.rule;
            if rule == 104 {
                Some(refusal.place.offset)
            } else {
                None
            }
        }
        _ => None,
    }
}

fn is_the_row(tree: &ExportTree) -> bool {
    tree.name.items() == b"p".as_slice()
        && tree.aid.items() == [0xA0, 0, 0, 0, 1].as_slice()
        && tree.library
        && tree.major == 1
        && tree.minor == 0
}

fn has_the_members(tree: &ExportTree) -> bool {
    tree.class_by_name(b"p/T") == Some(0)
        && tree.class_by_token(0) == Some(0)
        && tree.class_by_name(b"p/U") == None
        && tree.class_by_token(1) == None
        && tree.member(0, b"equals", b"(Ljava/lang/Object;)Z") == Some(1)
        && tree.member(0, b"f", b"()S") == None
        && tree.member(1, b"f", b"(S)S") == None
}

#[test]
fn one_static_method(rt: HostRuntime) {
    let tree = read(rt.alloc(), b"p.exp", &ROW);
    assert!(rt; matches!(&tree, Ok(tree) if is_the_row(tree) && has_the_members(tree)));
}

/// Whether K alone is a constant, and -2.
fn has_the_constant(class: &ExportClass) -> bool {
    class.fields.items().iter().all(|field| {
        let is_k = field.name.items() == b"K".as_slice();
        field.constant == if is_k { Some(-2) } else { None }
    })
}

fn is_rich(tree: &ExportTree) -> bool {
    !tree.library
        && tree.minor == 3
        && tree.class_by_name(b"r/C") == Some(1)
        && tree.member(1, b"i", b"S") == Some(3)
        && tree.member(1, b"w", b"()S") == Some(7)
}

fn has_the_fields(tree: &ExportTree) -> bool {
    tree.classes.items().iter().all(|class| {
        let count = class.fields.items().len();
        (count == 0 || count == 5) && has_the_constant(class)
    })
}

#[test]
fn fields_and_interfaces(rt: HostRuntime) {
    let tree = read(rt.alloc(), b"r.exp", &RICH);
    assert!(rt; matches!(&tree, Ok(tree) if is_rich(tree) && has_the_fields(tree)));
}

#[test]
fn written_again(rt: HostRuntime) {
    for bytes in WRITTEN {
        assert!(rt; is_again(&rt, bytes));
    }
}

/// Version 2.1, flags and attributes are not kept.
#[test]
fn written_shorter(rt: HostRuntime) {
    assert!(rt; is_shortened(&rt, &RICH));
}

/// The first length at which a file is not refused where the last of its fields begins; nothing where there is none.
fn first_other_cut(rt: &HostRuntime, bytes: &[u8], starts: &[u32]) -> Option<usize> {
    let mut place = 0;
    let mut next = 0;
    for n in 0..bytes.len() {
        if next < starts.len() && starts[next] as usize == n {
            place = starts[next];
            next += 1;
        }
        if refusal(rt, &bytes[..n]) != Some(place) {
            return Some(n);
        }
    }
    None
}

#[test]
fn cut_short(rt: HostRuntime) {
    assert_eq!(rt; first_other_cut(&rt, LANG, &LANG_STARTS), None);
}
