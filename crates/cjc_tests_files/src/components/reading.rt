//! Components that are cut, and where they are refused.

use crate::components::bytes::{
    CLASS, DESCRIPTOR, DIRECTORY, EXPORT, HEADER, IMPORT, LOCATIONS, MAPPED_CLASS, METHOD, POOL,
    STATICS,
};
use cjc_capwrite::bytes::{Fault, Rule};
use cjc_capwrite::capread::read;

// The same components cut at each length, their sizes made to fit: the offset of the refusal, 255 where the
// bytes before the cut are a whole component.
const HEADER_CUTS: [u8; 20] = [
    0, 1, 1, 3, 3, 3, 3, 7, 8, 9, 10, 11, 12, 13, 13, 13, 13, 13, 18, 19,
];

const DIRECTORY_CUTS: [u8; 36] = [
    0, 1, 1, 3, 3, 5, 5, 7, 7, 9, 9, 11, 11, 13, 13, 15, 15, 17, 17, 19, 19, 21, 21, 23, 23, 25,
    25, 27, 27, 29, 29, 31, 31, 33, 34, 35,
];

const IMPORT_CUTS: [u8; 14] = [0, 1, 1, 3, 4, 5, 6, 7, 7, 7, 7, 7, 7, 7];

const POOL_CUTS: [u8; 5] = [0, 1, 1, 3, 3];

const CLASS_CUTS: [u8; 15] = [0, 1, 1, 3, 3, 255, 6, 6, 8, 9, 10, 11, 12, 13, 14];

// Of the map's two indices the first that is missing is broken.
const MAPPED_CUTS: [u8; 20] = [
    0, 1, 1, 3, 3, 255, 6, 6, 8, 9, 10, 11, 12, 13, 14, 15, 15, 17, 18, 19,
];

const METHOD_CUTS: [u8; 10] = [0, 1, 1, 3, 255, 255, 255, 255, 255, 255];

const STATICS_CUTS: [u8; 13] = [0, 1, 1, 3, 3, 5, 5, 7, 7, 9, 9, 11, 11];

const LOCATIONS_CUTS: [u8; 7] = [0, 1, 1, 3, 3, 5, 5];

const EXPORT_CUTS: [u8; 10] = [0, 1, 1, 3, 4, 4, 6, 7, 8, 8];

const DESCRIPTOR_CUTS: [u8; 29] = [
    0, 1, 1, 3, 4, 5, 6, 6, 8, 9, 9, 11, 11, 13, 14, 15, 15, 17, 17, 19, 19, 21, 21, 23, 23, 25,
    25, 255, 28,
];

/// The offset of the refusal by rule 106, 255 where there is none.
fn place_of(rt: &HostRuntime, tag: u8, bytes: &[u8]) -> Option<u32> {
    if tag < 1 || tag > 11 || bytes.len() > 1000 {
        return None;
    }
    match read(rt.alloc(), b"some.cap", tag, bytes) {
        Ok(_) => Some(255),
        Err(Fault::Refused(refusal)) => {
            let Rule(rule) = refusal.rule;
            if rule == 106 {
                Some(refusal.place.offset)
            } else {
                None
            }
        }
        Err(_) => None,
    }
}

/// The first length at which the cut component, its size item made to fit, is answered otherwise.
fn first_other_cut(rt: &HostRuntime, tag: u8, bytes: &[u8], places: &[u8]) -> Option<usize> {
    let mut cut = [0u8; 36];
    for (to, from) in cut.iter_mut().zip(bytes) {
        *to = *from;
    }
    for (n, place) in places.iter().enumerate() {
        if n > 35 {
            return Some(n);
        }
        if n > 2 {
            cut[2] = (n - 3) as u8;
        }
        if place_of(rt, tag, &cut[..n]) != Some(u32::from(*place)) {
            return Some(n);
        }
    }
    None
}

/// A component and the offset of its refusal at each cut.
const CUTS: [(u8, &[u8], &[u8]); 11] = [
    (1, HEADER, &HEADER_CUTS),
    (2, DIRECTORY, &DIRECTORY_CUTS),
    (4, IMPORT, &IMPORT_CUTS),
    (5, POOL, &POOL_CUTS),
    (6, CLASS, &CLASS_CUTS),
    (6, MAPPED_CLASS, &MAPPED_CUTS),
    (7, METHOD, &METHOD_CUTS),
    (8, STATICS, &STATICS_CUTS),
    (9, LOCATIONS, &LOCATIONS_CUTS),
    (10, EXPORT, &EXPORT_CUTS),
    (11, DESCRIPTOR, &DESCRIPTOR_CUTS),
];

#[test]
fn cut_short(rt: HostRuntime) {
    for (tag, bytes, places) in CUTS {
        assert_eq!(rt; first_other_cut(&rt, tag, bytes, places), None);
    }
}
