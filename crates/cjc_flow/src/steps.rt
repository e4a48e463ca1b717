//! What an instruction does to the intervals of a frame, where it is known which constant it gets and what the
//! elements of its array are. Called by ranging.rt.

ghost use Rattle.std.specs.Prelude.{◌≡◌, [], ◌∷◌, ◌++◌, map, drop, slice_set, option_to_list, if◌then◌else◌, IfOk};
ghost use Rattle.std.specs.Prelude.{OnOk};
ghost use Rattle.cjc_range.specs.Rows.{and_row, or_row};
ghost use Rattle.cjc_range.specs.Span.{IsWord};
ghost use Rattle.cjc_intervals.specs.Steps.{arithmetic, field_range, loaded, locals_after, narrowed, operand, stored};
ghost use Rattle.cjc_intervals.specs.Steps.{two_operands};
ghost use Rattle.cjc_intervals.specs.Values.{result_ranges};
ghost use Rattle.cjc_types.specs.Steps.{takes};
ghost use Rattle.cjc_types.specs.Types.{parts};
ghost use Rattle.cjc_flow.specs.States.{stack_in};
ghost use Rattle.cjc_flow.specs.Working.Given.{after_by, behind_by, given_by, stack_by};

use crate::intervals::{Intervals, full_interval};
use crate::state::{self, Ranges};
use crate::values;
use cjc_fixpoint::bytes::{MemberId, NoMemory, Row};
use cjc_range::Interval;
use cjc_types::bytecode::{JOp, jvm};
use cjc_types::insns;
use std::alloc::Global;

/// The same interval, of which it is known that it is one.
fn word(x: Interval) -> Interval
    ensures same { result ≡ x }
    ensures word { IsWord x }
{
    Interval {
        low: x.low,
        high: x.high,
    }
}

/// The bits that both numbers have.
fn and(x: Interval, y: Interval) -> Interval
    ensures { result ≡ and_row x y }
{
    word(x).and(word(y))
}

/// The bits that either number has, or one alone.
fn or(x: Interval, y: Interval) -> Interval
    ensures { result ≡ or_row x y }
{
    word(x).or(word(y))
}

/// Arithmetic, shifts and logic of two operands.
fn calculated(opcode: u8, x: Interval, y: Interval) -> Interval
    ensures { result ≡ two_operands opcode x y }
{
    match opcode {
        jvm::IADD => x.add(y),
        jvm::ISUB => x.sub(y),
        jvm::IMUL => x.mul(y),
        jvm::IDIV => x.div(y),
        jvm::IREM => x.rem(y),
        jvm::ISHL => x.shl(y),
        jvm::ISHR => x.shr(y),
        jvm::IUSHR => x.ushr(y),
        jvm::IAND => and(x, y),
        jvm::IOR | jvm::IXOR => or(x, y),
        _ => full_interval(),
    }
}

fn arithmetic(opcode: u8, stack: &Intervals) -> Interval
    ensures { result ≡ arithmetic opcode stack.now }
{
    if opcode == jvm::INEG {
        stack.get(0).neg()
    } else {
        calculated(opcode, stack.get(1), stack.get(0))
    }
}

/// i2b and i2s.
fn narrowed(opcode: u8, x: Interval) -> Interval
    ensures { result ≡ narrowed opcode x }
{
    if opcode == jvm::I2B {
        x.to_byte()
    } else {
        x.to_short()
    }
}

/// The interval of a local; one that is missing is full.
fn local_at(locals: &[Interval], local: u16) -> Interval
    ensures { result ≡ operand locals.now local }
{
    match locals.get(local as usize) {
        Some(interval) => *interval,
        None => full_interval(),
    }
}

/// What a load of a local gives.
fn loaded(refs: bool, locals: &[Interval], local: u16) -> Interval
    ensures { result ≡ loaded refs (operand locals.now local) }
{
    if refs {
        full_interval()
    } else {
        local_at(locals, local)
    }
}

/// What a static field instruction gives.
fn static_got(value: Option<i32>, put: bool, field: &MemberId) -> Option<Interval>
    ensures { option_to_list result ≡ (if put then [] else field_range value (parts field.now.desc).result) }
{
    match value {
        _ if put => None,
        Some(number) => Some(values::exact(number)),
        None => values::result_of(field.desc.items()),
    }
}

/// What an instruction for a field of an object gives.
fn field_got(put: bool, field: &MemberId) -> Option<Interval>
    ensures { option_to_list result ≡ (if put then [] else result_ranges (parts field.now.desc).result) }
{
    if put {
        None
    } else {
        values::result_of(field.desc.items())
    }
}

/// The operands at some places from the top.
fn operands(alloc: Global, stack: &Intervals, places: &[u8]) -> Result<Row<Interval>, NoMemory>
    ensures { IfOk result (λ cells. cells ≡ map (operand stack.now) places.now) }
{
    let mut cells = Row::new(alloc);
    for place in places {
        cells.push(stack.get(*place as usize))?;
    }
    Ok(cells)
}

/// One interval, or none.
fn listed(alloc: Global, interval: Option<Interval>) -> Result<Row<Interval>, NoMemory>
    ensures { IfOk result (λ cells. cells ≡ option_to_list interval) }
{
    let mut cells = Row::new(alloc);
    match interval {
        Some(interval) => cells.push(interval)?,
        None => {}
    }
    Ok(cells)
}

fn one(alloc: Global, interval: Interval) -> Result<Row<Interval>, NoMemory>
    ensures { IfOk result (λ cells. cells ≡ interval ∷ []) }
{
    listed(alloc, Some(interval))
}

/// What an instruction puts on the stack.
fn given(
    alloc: Global,
    value: Option<i32>,
    element: Interval,
    op: &JOp,
    locals: &[Interval],
    stack: &Intervals,
) -> Result<Row<Interval>, NoMemory>
    ensures { IfOk result (λ cells. cells ≡ given_by value element op.now locals.now stack.now) }
{
    match op {
        JOp::Null | JOp::New(_) | JOp::NewArray(_) | JOp::ANewArray(_) | JOp::CheckCast(_) => {
            one(alloc, full_interval())
        }
        JOp::Number(number) => one(alloc, values::exact(*number)),
        JOp::Load { refs, local } => one(alloc, loaded(*refs, locals, *local)),
        JOp::ArrayLoad(_) => one(alloc, element),
        JOp::Stack(opcode) => operands(alloc, stack, insns::shuffle(*opcode)),
        JOp::Arith(opcode) => one(alloc, arithmetic(*opcode, stack)),
        JOp::Narrow(opcode) => one(alloc, narrowed(*opcode, stack.get(0))),
        JOp::Static { put, field } => listed(alloc, static_got(value, *put, field)),
        JOp::Field { put, field } => listed(alloc, field_got(*put, field)),
        JOp::Call { method, .. } => listed(alloc, values::result_of(method.desc.items())),
        JOp::ArrayLength => one(alloc, values::length()),
        JOp::InstanceOf(_) => one(alloc, values::boolean()),
        _ => Ok(Row::new(alloc)),
    }
}

/// Puts intervals on the top, the last of them first.
fn put_on(stack: &mut Intervals, cells: Row<Interval>) -> Result<(), NoMemory>
    ensures { OnOk result (stack.new ≡ cells ++ stack.old) }
{
    let mut left = cells.into_vec();
    while let Some(cell) = left.pop() {
        stack.push(cell)?;
    }
    Ok(())
}

/// The stack without what an instruction takes, and with all that it puts there.
fn with_given(
    alloc: Global,
    value: Option<i32>,
    element: Interval,
    op: &JOp,
    locals: &[Interval],
    stack: Intervals,
) -> Result<Intervals, NoMemory>
    ensures { IfOk result (λ behind. behind ≡ behind_by value element op.now locals.now stack) }
{
    let mut stack = stack;
    let given = given(alloc, value, element, op, locals, &stack)?;
    stack.take_off(insns::takes(op));
    put_on(&mut stack, given)?;
    Ok(stack)
}

/// The stack without what an instruction takes, and with one interval on it.
fn with_one(op: &JOp, stack: Intervals, interval: Interval) -> Result<Intervals, NoMemory>
    ensures { IfOk result (λ behind. behind ≡ interval ∷ drop (takes op.now) stack) }
{
    let mut stack = stack;
    stack.take_off(insns::takes(op));
    stack.push(interval)?;
    Ok(stack)
}

/// The stack behind an instruction, made of the one before it. What the commonest ones put there makes no list.
fn behind(
    alloc: Global,
    value: Option<i32>,
    element: Interval,
    op: &JOp,
    locals: &[Interval],
    stack: Intervals,
) -> Result<Intervals, NoMemory>
    ensures { IfOk result (λ behind. behind ≡ behind_by value element op.now locals.now stack) }
{
    match op {
        JOp::Number(number) => with_one(op, stack, values::exact(*number)),
        JOp::Load { refs, local } => with_one(op, stack, loaded(*refs, locals, *local)),
        JOp::Arith(opcode) => {
            let interval = arithmetic(*opcode, &stack);
            with_one(op, stack, interval)
        }
        JOp::Narrow(opcode) => {
            let interval = narrowed(*opcode, stack.get(0));
            with_one(op, stack, interval)
        }
        _ => with_given(alloc, value, element, op, locals, stack),
    }
}

fn after_stack(
    alloc: Global,
    value: Option<i32>,
    element: Interval,
    op: &JOp,
    locals: &[Interval],
    stack: Option<Intervals>,
) -> Result<Option<Intervals>, NoMemory>
    ensures { IfOk result (λ after. stack_in after ≡ stack_by value element op.now locals.now (stack_in stack)) }
{
    match stack {
        Some(cells) => Ok(state::stack_of(behind(alloc, value, element, op, locals, cells)?)),
        None => Ok(None),
    }
}

/// What a store puts into a local.
fn stored(refs: bool, stack: &Option<Intervals>) -> Interval
    ensures { result ≡ stored refs (stack_in stack.now) }
{
    match stack {
        Some(cells) if !refs => cells.get(0),
        _ => full_interval(),
    }
}

/// The locals with one changed in place.
fn with_local(locals: Row<Interval>, local: u16, interval: Interval) -> Row<Interval>
    ensures { result ≡ slice_set locals local interval }
{
    let mut changed = locals.into_vec();
    let local = local as usize;
    if local < changed.len() {
        changed[local] = interval;
    }
    Row::of(changed)
}

fn after_locals(op: &JOp, locals: Row<Interval>, stack: &Option<Intervals>) -> Row<Interval>
    ensures { result ≡ locals_after op.now locals (stack_in stack.now) }
{
    match op {
        JOp::Store { refs, local } => with_local(locals, *local, stored(*refs, stack)),
        JOp::Inc { local, by } => {
            let sum = local_at(locals.items(), *local).add(values::exact_short(*by));
            with_local(locals, *local, sum)
        }
        _ => locals,
    }
}

/// The state behind an instruction, made of the one before it.
pub(crate) fn after(
    alloc: Global,
    value: Option<i32>,
    element: Interval,
    op: &JOp,
    before: Ranges,
) -> Result<Ranges, NoMemory>
    ensures { IfOk result (λ after. after ≡ after_by value element op.now before) }
{
    let Ranges { stack, locals } = before;
    let locals = after_locals(op, locals, &stack);
    let stack = after_stack(alloc, value, element, op, locals.items(), stack)?;
    Ok(Ranges { stack, locals })
}
