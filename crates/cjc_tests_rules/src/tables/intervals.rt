//! Each row of the table at chosen ends: every landmark, both signs, divisors with 0 among them, distances
//! outside 0 to 31. The expected ends were worked out from the rows by another program. A line has the operation, the
//! ends of the left operand, those of the right one (where the operation has one) and those of the result.

use cjc_tests_files::cases::cut;
use cjc_vtable::range::Interval;
use std::test::*;

const ROWS: &str = "\
add 1 2, 10 20 = 11 22
add min max, 0 0 = min max
add min max, 1 1 = min max
add max max, 0 1 = min max
add 2147483646 2147483646, 0 1 = 2147483646 max
add min 0, -1 0 = min max
add -32768 32767, -65536 65535 = -98304 98302
add -1 0, 1 127 = 0 127
sub 1 2, 10 20 = -19 -8
sub min -1, 0 0 = min -1
sub min 0, 1 1 = min max
sub 0 0, min min = min max
sub -1 -1, min max = min max
sub 0 max, -1 0 = min max
sub -128 127, -255 255 = -383 382
mul -3 5, -7 2 = -35 21
mul -32768 32767, -32768 32767 = -1073709056 1073741824
mul -65536 65535, -32768 32767 = min max
mul -65536 65535, -32768 32768 = min max
mul min min, -1 -1 = min max
mul min min, 1 1 = min min
mul min max, 0 0 = 0 0
mul -4 -2, -8 -3 = 6 32
mul 65535 65535, 32767 32767 = 2147385345 2147385345
div -7 9, 2 4 = -3 4
div -9 -5, 2 4 = -4 -1
div 5 9, 2 4 = 1 4
div min max, 1 1 = min max
div min 5, -1 4 = min max
div min min, -1 -1 = min max
div -10 6, 0 0 = -10 10
div -10 6, 0 4 = -10 10
div 3 12, -4 -2 = -12 12
div 0 0, -1 1 = 0 0
div min max, 1 max = min max
div -7 7, 127 255 = 0 0
rem 0 100, 1 10 = 0 9
rem -100 100, 1 10 = -9 9
rem -100 -1, 1 10 = -9 0
rem -100 0, -10 -1 = -9 0
rem -5 3, 1 1000 = -5 5
rem 3 5, -7 2 = 0 5
rem min max, min min = -2147483647 max
rem min max, 1 1 = 0 0
rem -6 6, 0 0 = 0 0
rem -6 6, 0 1 = 0 0
rem min min, -1 max = -2147483646 0
rem 0 0, 5 5 = 0 0
rem -32768 32767, -32768 32767 = -32767 32767
rem 1 max, -65536 255 = 0 65535
shl -3 5, 4 4 = -48 80
shl -3 5, 36 36 = -48 80
shl -3 5, -28 -28 = -48 80
shl 1 1, 31 31 = min max
shl -1 0, 31 31 = min 0
shl 0 0, 31 31 = 0 0
shl -32768 32767, 16 16 = min 2147418112
shl -32769 0, 16 16 = min max
shl 0 32768, 16 16 = min max
shl min max, 32 32 = min max
shl 0 0, 0 1 = min max
shl -1 1, min min = -1 1
shl -1 1, max max = min max
shr -9 5, 1 1 = -5 2
shr -9 5, 33 33 = -5 2
shr -9 5, -1 -1 = -1 0
shr -9 5, 0 3 = -9 5
shr 4 9, 0 3 = 0 9
shr -9 -4, 0 3 = -9 -1
shr min max, 31 31 = -1 0
shr min max, 16 16 = -32768 32767
shr 65535 65535, 8 8 = 255 255
ushr -1 -1, 20 20 = 4095 4095
ushr 4 9, 1 1 = 2 4
ushr -9 5, 0 0 = -9 5
ushr -9 5, 32 32 = -9 5
ushr -9 5, 1 1 = 0 max
ushr -9 5, -1 -1 = 0 1
ushr min max, 31 31 = 0 1
ushr min -1, 1 1 = 1073741824 max
ushr -32768 -1, 16 16 = 65535 65535
ushr min min, 31 31 = 1 1
ushr 4 9, 0 3 = 0 9
ushr 0 max, 0 32 = 0 max
ushr -9 5, 0 3 = min max
ushr -9 -5, 1 2 = min max
ushr 0 65535, 8 8 = 0 255
and 0 100, 0 255 = 0 100
and 3 127, 65535 65535 = 0 127
and -9 5, 0 255 = 0 255
and 0 65535, min max = 0 65535
and -9 5, -1 3 = -16 15
and -1 -1, -1 -1 = -1 0
and -1 0, -1 0 = -1 0
and min max, -1 -1 = min max
and -32768 32767, -128 127 = -32768 32767
and -32769 0, -1 0 = -65536 65535
and 0 0, min min = 0 0
or 0 100, 0 255 = 0 255
or 0 0, 0 0 = 0 0
or 1 1, 0 0 = 0 1
or -1 0, 0 0 = -1 0
or 0 0, -1 -1 = -1 0
or 0 128, 3 4 = 0 255
or -9 5, 0 3 = -16 15
or 0 max, 0 1 = 0 max
or min 0, 1 1 = min max
or -32768 32767, 0 65535 = -65536 65535
or -128 127, -128 127 = -128 127
xor 0 127, 0 1 = 0 127
xor 0 256, 0 1 = 0 511
xor -2 1, 0 1 = -2 1
xor -1 0, -1 0 = -1 0
xor min max, 0 0 = min max
xor -65536 65535, 0 0 = -65536 65535
join 1 2, 10 20 = 1 20
join 10 20, 1 2 = 1 20
join -5 30, 1 2 = -5 30
join min -1, 0 max = min max
join 0 0, 0 0 = 0 0
neg 1 2 = -2 -1
neg -2 -1 = 1 2
neg -3 5 = -5 3
neg -2147483647 max = -2147483647 max
neg min max = min max
neg min min = min max
neg 0 0 = 0 0
neg -32768 32767 = -32767 32768
to_byte -128 127 = -128 127
to_byte -129 0 = -128 127
to_byte 0 128 = -128 127
to_byte -1 1 = -1 1
to_byte min min = -128 127
to_byte 127 127 = 127 127
to_byte 200 200 = -128 127
to_short -32768 32767 = -32768 32767
to_short -32769 0 = -32768 32767
to_short 0 32768 = -32768 32767
to_short -128 255 = -128 255
to_short 30000 40000 = -32768 32767
to_short max max = -32768 32767
to_short 65535 65535 = -32768 32767
round min min = min min
round -65536 -65536 = -65536 -65536
round -32768 -32768 = -32768 -32768
round -128 -128 = -128 -128
round -1 -1 = -1 -1
round 0 0 = 0 0
round 1 1 = 1 1
round 127 127 = 127 127
round 255 255 = 255 255
round 32767 32767 = 32767 32767
round 65535 65535 = 65535 65535
round max max = max max
round -2147483647 2147483646 = min max
round -65537 65536 = min max
round -65535 65534 = -65536 65535
round -32769 32768 = -65536 65535
round -32767 32766 = -32768 32767
round -129 256 = -32768 32767
round -127 254 = -128 255
round -2 128 = -128 255
round 2 126 = 1 127
round -5 -3 = -128 -1
round 300 400 = 255 32767
fits -32768 32767, -32768 32767 = yes
fits -32768 32767, -32767 32767 = no
fits -32768 32767, -32768 32766 = no
fits 0 1, 0 1 = yes
fits -1 1, 0 1 = no";

/// An end of an interval.
fn end(word: &str) -> Option<i32> {
    match word {
        "min" => Some(i32::MIN),
        "max" => Some(i32::MAX),
        _ => word.parse::<i32>().ok(),
    }
}

/// The interval of two ends in order.
fn interval(words: &str) -> Option<Interval> {
    let (low, high) = cut(words, " ");
    let low = end(low)?;
    let high = end(high)?;
    if low <= high {
        Some(Interval { low, high })
    } else {
        None
    }
}

/// What an operation of one operand gives.
fn result_of_one(operation: &str, operand: Interval) -> Option<Interval> {
    match operation {
        "neg" => Some(operand.neg()),
        "to_byte" => Some(operand.to_byte()),
        "to_short" => Some(operand.to_short()),
        "round" => Some(operand.round()),
        _ => None,
    }
}

/// What an operation of two operands gives.
fn result_of_two(operation: &str, left: Interval, right: Interval) -> Option<Interval> {
    match operation {
        "add" => Some(left.add(right)),
        "sub" => Some(left.sub(right)),
        "mul" => Some(left.mul(right)),
        "div" => Some(left.div(right)),
        "rem" => Some(left.rem(right)),
        "shl" => Some(left.shl(right)),
        "shr" => Some(left.shr(right)),
        "ushr" => Some(left.ushr(right)),
        "and" => Some(left.and(right)),
        "or" => Some(left.or(right)),
        "xor" => Some(left.xor(right)),
        "join" => Some(left.join(right)),
        _ => None,
    }
}

/// Whether an interval fits between two ends.
fn is_fitting(operand: Interval, ends: Interval, answer: &str) -> bool {
    if operand.fits(ends.low, ends.high) {
        answer == "yes"
    } else {
        answer == "no"
    }
}

fn is_given(given: Option<Interval>, answer: &str) -> bool {
    match (given, interval(answer)) {
        (Some(given), Some(wanted)) => given == wanted,
        _ => false,
    }
}

/// Whether an operation gives what a line says.
fn is_row(line: &str) -> Option<bool> {
    let (question, answer) = cut(line, " = ");
    let (operation, words) = cut(question, " ");
    let (left, right) = cut(words, ", ");
    let left = interval(left)?;
    if right.is_empty() {
        return Some(is_given(result_of_one(operation, left), answer));
    }
    let right = interval(right)?;
    if operation == "fits" {
        return Some(is_fitting(left, right, answer));
    }
    Some(is_given(result_of_two(operation, left, right), answer))
}

/// The first line that says otherwise; nothing where there is none.
fn first_wrong(lines: &str) -> &str {
    for line in lines.lines() {
        match is_row(line) {
            Some(true) => {}
            _ => return line,
        }
    }
    ""
}

#[test]
fn operations_are_their_rows(rt: HostRuntime) {
    assert_eq!(rt; first_wrong(ROWS), "");
}
