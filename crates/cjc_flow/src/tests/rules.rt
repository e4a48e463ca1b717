//! The lowest rule that one instruction breaks, by the types and the intervals before it. Called by passing.rt.

ghost use Rattle.std.specs.Prelude.{◌≡◌, if◌then◌else◌, length, None};
ghost use Rattle.std.specs.List.{list_any};
ghost use Rattle.cjc_range.specs.Span.{span, short_range};
ghost use Rattle.cjc_types.specs.Flow.{Body};
ghost use Rattle.cjc_types.specs.Rules.{tests_references};
ghost use Rattle.cjc_types.specs.Steps.{compares, operand as typed_operand};
ghost use Rattle.cjc_types.specs.Types.{parts};
ghost use Rattle.cjc_intervals.specs.Bounds.{divides, index_range, may_hold_booleans, shifts_right};
ghost use Rattle.cjc_intervals.specs.Frames.{spans_of};
ghost use Rattle.cjc_intervals.specs.Steps.{operand};
ghost use Rattle.cjc_intervals.specs.Values.{is_boolean_array};
ghost use Rattle.cjc_flow.specs.Tests.Working.Search.{arguments_rule, arithmetic_rule, comparison_rule, element_rule};
ghost use Rattle.cjc_flow.specs.Tests.Working.Search.{kind_rule, low_word_rule, lower, lowest_rule, part_rule};
ghost use Rattle.cjc_flow.specs.Tests.Working.Search.{put_rule, tested, value_rule};

use crate::Ranges;
use crate::tests::passing::Tested;
use cjc_fixpoint::bytes::{Kind, MemberId};
use cjc_range::Interval;
use cjc_types::bytecode::{JOp, jvm};
use cjc_types::{Cell, Name, Operands, parsed};

/// The rule, where the interval does not lie from `low` to `high`.
fn tested(rule: u16, low: i32, high: i32, interval: Interval) -> Option<u16>
    ensures { result ≡ tested rule (span low high) interval }
{
    if low <= interval.low && interval.high <= high {
        None
    } else {
        Some(rule)
    }
}

fn short_tested(rule: u16, interval: Interval) -> Option<u16>
    ensures { result ≡ tested rule short_range interval }
{
    tested(rule, -32768, 32767, interval)
}

fn index_tested(interval: Interval) -> Option<u16>
    ensures { result ≡ tested 606 index_range interval }
{
    tested(606, -32769, 65535, interval)
}

/// The lower of two rules.
fn lower(left: Option<u16>, right: Option<u16>) -> Option<u16>
    ensures { result ≡ lower left right }
{
    match (left, right) {
        (None, other) => other,
        (Some(rule), None) => Some(rule),
        (Some(rule), Some(other)) => {
            if rule <= other {
                Some(rule)
            } else {
                Some(other)
            }
        }
    }
}

/// Of a number that is put, passed or returned as a value of a type.
fn kind_rule(kind: Kind, interval: Interval) -> Option<u16>
    ensures { result ≡ kind_rule kind interval }
{
    match kind {
        Kind::Short => short_tested(607, interval),
        Kind::Byte => tested(608, -128, 127, interval),
        Kind::Bool => tested(609, 0, 1, interval),
        _ => None,
    }
}

/// Of a number that is put or returned as a value of the type, or the result, of a descriptor.
fn result_rule(desc: &[u8], interval: Interval) -> Option<u16>
    ensures { result ≡ part_rule (parts desc.now).result interval }
{
    match parsed(desc) {
        Some(parts) => kind_rule(parts.kind(parts.params()), interval),
        None => None,
    }
}

/// Of the arguments of a call.
fn arguments_rule(method: &MemberId, before: &Ranges) -> Option<u16>
    ensures { result ≡ arguments_rule method.now (length (parts method.now.desc).params) (spans_of before.now.stack) }
{
    let mut rule = None;
    if let Some(parts) = parsed(method.desc.items()) {
        let count = parts.params();
        for k in 0..count {
            let interval = before.operand(k as usize);
            rule = lower(rule, kind_rule(parts.kind(count - 1 - k), interval));
        }
    }
    rule
}

fn tests_references(opcode: u8) -> bool
    ensures { result ≡ tests_references opcode }
{
    match opcode {
        jvm::IF_ACMPEQ | jvm::IF_ACMPNE | jvm::IFNULL | jvm::IFNONNULL => true,
        _ => false,
    }
}

fn compares(opcode: u8) -> bool
    ensures { result ≡ compares opcode }
{
    jvm::IF_ICMPEQ <= opcode && opcode <= jvm::IF_ACMPNE
}

/// 601: a comparison of numbers.
fn comparison_rule(opcode: u8, before: &Ranges) -> Option<u16>
    ensures { result ≡ comparison_rule opcode (spans_of before.now.stack) }
{
    if tests_references(opcode) {
        return None;
    }
    let right = short_tested(601, before.operand(0));
    if compares(opcode) {
        lower(right, short_tested(601, before.operand(1)))
    } else {
        lower(right, None)
    }
}

fn divides(opcode: u8) -> bool
    ensures { result ≡ divides opcode }
{
    opcode == jvm::IDIV || opcode == jvm::IREM
}

fn shifts_right(opcode: u8) -> bool
    ensures { result ≡ shifts_right opcode }
{
    opcode == jvm::ISHR || opcode == jvm::IUSHR
}

fn division_rule(opcode: u8, before: &Ranges) -> Option<u16>
    ensures { result ≡ (if divides opcode then lower (tested 602 short_range (operand (spans_of before.now.stack) 0))
        (tested 602 short_range (operand (spans_of before.now.stack) 1)) else None) }
{
    if divides(opcode) {
        lower(
            short_tested(602, before.operand(0)),
            short_tested(602, before.operand(1)),
        )
    } else {
        None
    }
}

fn shift_rule(opcode: u8, before: &Ranges) -> Option<u16>
    ensures { result ≡ (if shifts_right opcode then tested 603 short_range (operand (spans_of before.now.stack) 1)
        else None) }
{
    if shifts_right(opcode) {
        short_tested(603, before.operand(1))
    } else {
        None
    }
}

/// 602 and 603: a division, and a shift to the right.
fn arithmetic_rule(opcode: u8, before: &Ranges) -> Option<u16>
    ensures { result ≡ arithmetic_rule opcode (spans_of before.now.stack) }
{
    lower(division_rule(opcode, before), shift_rule(opcode, before))
}

fn is_booleans(name: &[u8]) -> bool
    ensures { result ≡ is_boolean_array name.now }
{
    match name {
        [b'[', b'Z'] => true,
        _ => false,
    }
}

fn has_booleans(types: &[Name]) -> bool
    ensures { result ≡ list_any is_boolean_array types.now }
{
    for name in types {
        if is_booleans(name.items()) {
            return true;
        }
    }
    false
}

fn may_hold_booleans(array: &Cell) -> bool
    ensures { result ≡ may_hold_booleans array.now }
{
    match array {
        Cell::Refs(types) => has_booleans(types.items()),
        _ => false,
    }
}

/// 609 of a byte that is stored into what may be an array of booleans.
fn element_rule(opcode: u8, types: &Operands, interval: Interval) -> Option<u16>
    ensures { result ≡ element_rule opcode (typed_operand types.now 2) interval }
{
    match types.get(2) {
        Some(array) if opcode == jvm::BASTORE && may_hold_booleans(array) => tested(
            609, 0, 1, interval,
        ),
        _ => None,
    }
}

/// 607 to 609 of a number that is put into a field.
fn put_rule(put: bool, field: &MemberId, before: &Ranges) -> Option<u16>
    ensures { result ≡ put_rule put field.now (spans_of before.now.stack) }
{
    if put {
        result_rule(field.desc.items(), before.operand(0))
    } else {
        None
    }
}

/// The lowest of 601 to 604 and 606 that an instruction breaks.
fn low_word_rule(op: &JOp, before: &Ranges) -> Option<u16>
    ensures { result ≡ low_word_rule op.now (spans_of before.now.stack) }
{
    match op {
        JOp::If { op: opcode, .. } => comparison_rule(*opcode, before),
        JOp::Arith(opcode) => arithmetic_rule(*opcode, before),
        JOp::TableSwitch { .. } | JOp::LookupSwitch { .. } => short_tested(604, before.operand(0)),
        JOp::ArrayLoad(_) => index_tested(before.operand(0)),
        JOp::ArrayStore(_) => index_tested(before.operand(1)),
        _ => None,
    }
}

/// The lowest of 605 and 607 to 609 that an instruction of a method with this descriptor breaks.
fn value_rule(desc: &[u8], op: &JOp, types: &Operands, before: &Ranges) -> Option<u16>
    ensures { (b : Body) → b.desc ≡ desc.now → result ≡ value_rule b op.now types.now (spans_of before.now.stack) }
{
    match op {
        JOp::NewArray(_) | JOp::ANewArray(_) => short_tested(605, before.operand(0)),
        JOp::ArrayStore(opcode) => element_rule(*opcode, types, before.operand(0)),
        JOp::Static { put, field } => put_rule(*put, field, before),
        JOp::Field { put, field } => put_rule(*put, field, before),
        JOp::Call { method, .. } => arguments_rule(method, before),
        JOp::Return(_) => result_rule(desc, before.operand(0)),
        _ => None,
    }
}

/// The lowest of the tested rules that an instruction of a method with this descriptor breaks.
pub(crate) fn lowest_rule(
    tested: Tested,
    desc: &[u8],
    op: &JOp,
    types: &Operands,
    before: &Ranges,
) -> Option<u16>
    ensures { (b : Body) → b.desc ≡ desc.now
        → result ≡ lowest_rule tested b op.now types.now (spans_of before.now.stack) }
{
    match tested {
        Tested::All => lower(
            low_word_rule(op, before),
            value_rule(desc, op, types, before),
        ),
        Tested::LowWords => low_word_rule(op, before),
        Tested::Values => value_rule(desc, op, types, before),
    }
}
