//! Each row of the table at chosen ends: every landmark, both signs, divisors with 0 among them, distances
//! outside 0 to 31. The expected ends were worked out from the rows by another program. A line has the
//! ends of the left operand, of the right one (0 where the operation has none) and of the result.

use cjc_range::Interval;

const ADD: [[i32; 6]; 8] = [
    [1, 2, 10, 20, 11, 22],
    [i32::MIN, i32::MAX, 0, 0, i32::MIN, i32::MAX],
    [i32::MIN, i32::MAX, 1, 1, i32::MIN, i32::MAX],
    [i32::MAX, i32::MAX, 0, 1, i32::MIN, i32::MAX],
    [2147483646, 2147483646, 0, 1, 2147483646, i32::MAX],
    [i32::MIN, 0, -1, 0, i32::MIN, i32::MAX],
    [-32768, 32767, -65536, 65535, -98304, 98302],
    [-1, 0, 1, 127, 0, 127],
];

const SUB: [[i32; 6]; 7] = [
    [1, 2, 10, 20, -19, -8],
    [i32::MIN, -1, 0, 0, i32::MIN, -1],
    [i32::MIN, 0, 1, 1, i32::MIN, i32::MAX],
    [0, 0, i32::MIN, i32::MIN, i32::MIN, i32::MAX],
    [-1, -1, i32::MIN, i32::MAX, i32::MIN, i32::MAX],
    [0, i32::MAX, -1, 0, i32::MIN, i32::MAX],
    [-128, 127, -255, 255, -383, 382],
];

const MUL: [[i32; 6]; 9] = [
    [-3, 5, -7, 2, -35, 21],
    [-32768, 32767, -32768, 32767, -1073709056, 1073741824],
    [-65536, 65535, -32768, 32767, i32::MIN, i32::MAX],
    [-65536, 65535, -32768, 32768, i32::MIN, i32::MAX],
    [i32::MIN, i32::MIN, -1, -1, i32::MIN, i32::MAX],
    [i32::MIN, i32::MIN, 1, 1, i32::MIN, i32::MIN],
    [i32::MIN, i32::MAX, 0, 0, 0, 0],
    [-4, -2, -8, -3, 6, 32],
    [65535, 65535, 32767, 32767, 2147385345, 2147385345],
];

const DIV: [[i32; 6]; 12] = [
    [-7, 9, 2, 4, -3, 4],
    [-9, -5, 2, 4, -4, -1],
    [5, 9, 2, 4, 1, 4],
    [i32::MIN, i32::MAX, 1, 1, i32::MIN, i32::MAX],
    [i32::MIN, 5, -1, 4, i32::MIN, i32::MAX],
    [i32::MIN, i32::MIN, -1, -1, i32::MIN, i32::MAX],
    [-10, 6, 0, 0, -10, 10],
    [-10, 6, 0, 4, -10, 10],
    [3, 12, -4, -2, -12, 12],
    [0, 0, -1, 1, 0, 0],
    [i32::MIN, i32::MAX, 1, i32::MAX, i32::MIN, i32::MAX],
    [-7, 7, 127, 255, 0, 0],
];

const REM: [[i32; 6]; 14] = [
    [0, 100, 1, 10, 0, 9],
    [-100, 100, 1, 10, -9, 9],
    [-100, -1, 1, 10, -9, 0],
    [-100, 0, -10, -1, -9, 0],
    [-5, 3, 1, 1000, -5, 5],
    [3, 5, -7, 2, 0, 5],
    [
        i32::MIN,
        i32::MAX,
        i32::MIN,
        i32::MIN,
        -2147483647,
        i32::MAX,
    ],
    [i32::MIN, i32::MAX, 1, 1, 0, 0],
    [-6, 6, 0, 0, 0, 0],
    [-6, 6, 0, 1, 0, 0],
    [i32::MIN, i32::MIN, -1, i32::MAX, -2147483646, 0],
    [0, 0, 5, 5, 0, 0],
    [-32768, 32767, -32768, 32767, -32767, 32767],
    [1, i32::MAX, -65536, 255, 0, 65535],
];

const SHL: [[i32; 6]; 13] = [
    [-3, 5, 4, 4, -48, 80],
    [-3, 5, 36, 36, -48, 80],
    [-3, 5, -28, -28, -48, 80],
    [1, 1, 31, 31, i32::MIN, i32::MAX],
    [-1, 0, 31, 31, i32::MIN, 0],
    [0, 0, 31, 31, 0, 0],
    [-32768, 32767, 16, 16, i32::MIN, 2147418112],
    [-32769, 0, 16, 16, i32::MIN, i32::MAX],
    [0, 32768, 16, 16, i32::MIN, i32::MAX],
    [i32::MIN, i32::MAX, 32, 32, i32::MIN, i32::MAX],
    [0, 0, 0, 1, i32::MIN, i32::MAX],
    [-1, 1, i32::MIN, i32::MIN, -1, 1],
    [-1, 1, i32::MAX, i32::MAX, i32::MIN, i32::MAX],
];

const SHR: [[i32; 6]; 9] = [
    [-9, 5, 1, 1, -5, 2],
    [-9, 5, 33, 33, -5, 2],
    [-9, 5, -1, -1, -1, 0],
    [-9, 5, 0, 3, -9, 5],
    [4, 9, 0, 3, 0, 9],
    [-9, -4, 0, 3, -9, -1],
    [i32::MIN, i32::MAX, 31, 31, -1, 0],
    [i32::MIN, i32::MAX, 16, 16, -32768, 32767],
    [65535, 65535, 8, 8, 255, 255],
];

const USHR: [[i32; 6]; 15] = [
    [-1, -1, 20, 20, 4095, 4095],
    [4, 9, 1, 1, 2, 4],
    [-9, 5, 0, 0, -9, 5],
    [-9, 5, 32, 32, -9, 5],
    [-9, 5, 1, 1, 0, i32::MAX],
    [-9, 5, -1, -1, 0, 1],
    [i32::MIN, i32::MAX, 31, 31, 0, 1],
    [i32::MIN, -1, 1, 1, 1073741824, i32::MAX],
    [-32768, -1, 16, 16, 65535, 65535],
    [i32::MIN, i32::MIN, 31, 31, 1, 1],
    [4, 9, 0, 3, 0, 9],
    [0, i32::MAX, 0, 32, 0, i32::MAX],
    [-9, 5, 0, 3, i32::MIN, i32::MAX],
    [-9, -5, 1, 2, i32::MIN, i32::MAX],
    [0, 65535, 8, 8, 0, 255],
];

const AND: [[i32; 6]; 11] = [
    [0, 100, 0, 255, 0, 100],
    [3, 127, 65535, 65535, 0, 127],
    [-9, 5, 0, 255, 0, 255],
    [0, 65535, i32::MIN, i32::MAX, 0, 65535],
    [-9, 5, -1, 3, -16, 15],
    [-1, -1, -1, -1, -1, 0],
    [-1, 0, -1, 0, -1, 0],
    [i32::MIN, i32::MAX, -1, -1, i32::MIN, i32::MAX],
    [-32768, 32767, -128, 127, -32768, 32767],
    [-32769, 0, -1, 0, -65536, 65535],
    [0, 0, i32::MIN, i32::MIN, 0, 0],
];

const OR: [[i32; 6]; 11] = [
    [0, 100, 0, 255, 0, 255],
    [0, 0, 0, 0, 0, 0],
    [1, 1, 0, 0, 0, 1],
    [-1, 0, 0, 0, -1, 0],
    [0, 0, -1, -1, -1, 0],
    [0, 128, 3, 4, 0, 255],
    [-9, 5, 0, 3, -16, 15],
    [0, i32::MAX, 0, 1, 0, i32::MAX],
    [i32::MIN, 0, 1, 1, i32::MIN, i32::MAX],
    [-32768, 32767, 0, 65535, -65536, 65535],
    [-128, 127, -128, 127, -128, 127],
];

const XOR: [[i32; 6]; 6] = [
    [0, 127, 0, 1, 0, 127],
    [0, 256, 0, 1, 0, 511],
    [-2, 1, 0, 1, -2, 1],
    [-1, 0, -1, 0, -1, 0],
    [i32::MIN, i32::MAX, 0, 0, i32::MIN, i32::MAX],
    [-65536, 65535, 0, 0, -65536, 65535],
];

const JOIN: [[i32; 6]; 5] = [
    [1, 2, 10, 20, 1, 20],
    [10, 20, 1, 2, 1, 20],
    [-5, 30, 1, 2, -5, 30],
    [i32::MIN, -1, 0, i32::MAX, i32::MIN, i32::MAX],
    [0, 0, 0, 0, 0, 0],
];

const NEG: [[i32; 6]; 8] = [
    [1, 2, 0, 0, -2, -1],
    [-2, -1, 0, 0, 1, 2],
    [-3, 5, 0, 0, -5, 3],
    [-2147483647, i32::MAX, 0, 0, -2147483647, i32::MAX],
    [i32::MIN, i32::MAX, 0, 0, i32::MIN, i32::MAX],
    [i32::MIN, i32::MIN, 0, 0, i32::MIN, i32::MAX],
    [0, 0, 0, 0, 0, 0],
    [-32768, 32767, 0, 0, -32767, 32768],
];

const TO_BYTE: [[i32; 6]; 7] = [
    [-128, 127, 0, 0, -128, 127],
    [-129, 0, 0, 0, -128, 127],
    [0, 128, 0, 0, -128, 127],
    [-1, 1, 0, 0, -1, 1],
    [i32::MIN, i32::MIN, 0, 0, -128, 127],
    [127, 127, 0, 0, 127, 127],
    [200, 200, 0, 0, -128, 127],
];

const TO_SHORT: [[i32; 6]; 7] = [
    [-32768, 32767, 0, 0, -32768, 32767],
    [-32769, 0, 0, 0, -32768, 32767],
    [0, 32768, 0, 0, -32768, 32767],
    [-128, 255, 0, 0, -128, 255],
    [30000, 40000, 0, 0, -32768, 32767],
    [i32::MAX, i32::MAX, 0, 0, -32768, 32767],
    [65535, 65535, 0, 0, -32768, 32767],
];

const ROUND: [[i32; 6]; 23] = [
    [i32::MIN, i32::MIN, 0, 0, i32::MIN, i32::MIN],
    [-65536, -65536, 0, 0, -65536, -65536],
    [-32768, -32768, 0, 0, -32768, -32768],
    [-128, -128, 0, 0, -128, -128],
    [-1, -1, 0, 0, -1, -1],
    [0, 0, 0, 0, 0, 0],
    [1, 1, 0, 0, 1, 1],
    [127, 127, 0, 0, 127, 127],
    [255, 255, 0, 0, 255, 255],
    [32767, 32767, 0, 0, 32767, 32767],
    [65535, 65535, 0, 0, 65535, 65535],
    [i32::MAX, i32::MAX, 0, 0, i32::MAX, i32::MAX],
    [-2147483647, 2147483646, 0, 0, i32::MIN, i32::MAX],
    [-65537, 65536, 0, 0, i32::MIN, i32::MAX],
    [-65535, 65534, 0, 0, -65536, 65535],
    [-32769, 32768, 0, 0, -65536, 65535],
    [-32767, 32766, 0, 0, -32768, 32767],
    [-129, 256, 0, 0, -32768, 32767],
    [-127, 254, 0, 0, -128, 255],
    [-2, 128, 0, 0, -128, 255],
    [2, 126, 0, 0, 1, 127],
    [-5, -3, 0, 0, -128, -1],
    [300, 400, 0, 0, 255, 32767],
];

#[derive(Clone, Copy)]
enum Operation {
    Add,
    Sub,
    Mul,
    Div,
    Rem,
    Shl,
    Shr,
    Ushr,
    And,
    Or,
    Xor,
    Join,
    Neg,
    ToByte,
    ToShort,
    Round,
}

/// What an operation gives; one of one operand leaves the right one.
fn result_of(operation: Operation, left: Interval, right: Interval) -> Interval {
    match operation {
        Operation::Add => left.add(right),
        Operation::Sub => left.sub(right),
        Operation::Mul => left.mul(right),
        Operation::Div => left.div(right),
        Operation::Rem => left.rem(right),
        Operation::Shl => left.shl(right),
        Operation::Shr => left.shr(right),
        Operation::Ushr => left.ushr(right),
        Operation::And => left.and(right),
        Operation::Or => left.or(right),
        Operation::Xor => left.xor(right),
        Operation::Join => left.join(right),
        Operation::Neg => left.neg(),
        Operation::ToByte => left.to_byte(),
        Operation::ToShort => left.to_short(),
        Operation::Round => left.round(),
    }
}

/// The interval of two ends of a table; the ends of each are in order.
fn interval(low: i32, high: i32) -> Interval {
    if low <= high {
        Interval { low, high }
    } else {
        Interval { low, high: low }
    }
}

/// How many of the lines from the first on are as the operation gives.
fn agreeing(operation: Operation, cases: &[[i32; 6]]) -> usize {
    for (i, case) in cases.iter().enumerate() {
        let [left_low, left_high, right_low, right_high, low, high] = *case;
        let left = interval(left_low, left_high);
        let right = interval(right_low, right_high);
        if result_of(operation, left, right) != interval(low, high) {
            return i;
        }
    }
    cases.len()
}

#[test]
fn sums_are_their_rows(rt: HostRuntime) {
    assert_eq!(rt; agreeing(Operation::Add, &ADD), ADD.len());
}

#[test]
fn differences_are_their_rows(rt: HostRuntime) {
    assert_eq!(rt; agreeing(Operation::Sub, &SUB), SUB.len());
}

#[test]
fn products_are_their_rows(rt: HostRuntime) {
    assert_eq!(rt; agreeing(Operation::Mul, &MUL), MUL.len());
}

#[test]
fn quotients_are_their_rows(rt: HostRuntime) {
    assert_eq!(rt; agreeing(Operation::Div, &DIV), DIV.len());
}

#[test]
fn remainders_are_their_rows(rt: HostRuntime) {
    assert_eq!(rt; agreeing(Operation::Rem, &REM), REM.len());
}

#[test]
fn shifts_to_the_left_are_their_rows(rt: HostRuntime) {
    assert_eq!(rt; agreeing(Operation::Shl, &SHL), SHL.len());
}

#[test]
fn shifts_to_the_right_are_their_rows(rt: HostRuntime) {
    assert_eq!(rt; agreeing(Operation::Shr, &SHR), SHR.len());
}

#[test]
fn shifts_with_zeros_are_their_rows(rt: HostRuntime) {
    assert_eq!(rt; agreeing(Operation::Ushr, &USHR), USHR.len());
}

#[test]
fn common_bits_are_their_rows(rt: HostRuntime) {
    assert_eq!(rt; agreeing(Operation::And, &AND), AND.len());
}

#[test]
fn bits_of_either_are_their_rows(rt: HostRuntime) {
    assert_eq!(rt; agreeing(Operation::Or, &OR), OR.len());
}

#[test]
fn bits_of_one_are_their_rows(rt: HostRuntime) {
    assert_eq!(rt; agreeing(Operation::Xor, &XOR), XOR.len());
}

#[test]
fn joins_are_their_rows(rt: HostRuntime) {
    assert_eq!(rt; agreeing(Operation::Join, &JOIN), JOIN.len());
}

#[test]
fn negatives_are_their_rows(rt: HostRuntime) {
    assert_eq!(rt; agreeing(Operation::Neg, &NEG), NEG.len());
}

#[test]
fn bytes_are_their_rows(rt: HostRuntime) {
    assert_eq!(rt; agreeing(Operation::ToByte, &TO_BYTE), TO_BYTE.len());
}

#[test]
fn shorts_are_their_rows(rt: HostRuntime) {
    assert_eq!(rt; agreeing(Operation::ToShort, &TO_SHORT), TO_SHORT.len());
}

#[test]
fn landmarks_are_their_rows(rt: HostRuntime) {
    assert_eq!(rt; agreeing(Operation::Round, &ROUND), ROUND.len());
}

/// Ends of an interval, the ends to fit into, and whether it fits.
const FITS: [(i32, i32, i32, i32, bool); 5] = [
    (-32768, 32767, -32768, 32767, true),
    (-32768, 32767, -32767, 32767, false),
    (-32768, 32767, -32768, 32766, false),
    (0, 1, 0, 1, true),
    (-1, 1, 0, 1, false),
];

/// How many of the lines from the first on say whether the interval fits.
fn fitting(cases: &[(i32, i32, i32, i32, bool)]) -> usize {
    for (i, (low, high, least, most, fits)) in cases.iter().enumerate() {
        if interval(*low, *high).fits(*least, *most) != *fits {
            return i;
        }
    }
    cases.len()
}

#[test]
fn intervals_fit_where_both_ends_do(rt: HostRuntime) {
    assert_eq!(rt; fitting(&FITS), FITS.len());
}
