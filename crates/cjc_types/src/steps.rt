//! What one instruction does to a state: what it takes, what it puts on the stack by the types it names, and
//! what it sets in the locals. Rules are tested elsewhere.

ghost use Rattle.std.specs.Prelude.{◌≡◌, ◌≤◌, List, [], ◌∷◌, ◌++◌, map, length, drop, slice_set, if◌then◌else◌, IfOk};
ghost use Rattle.cjc_types.specs.Steps.{operand, local_value as value_of_local, gives, stack_behind, stack_after};
ghost use Rattle.cjc_types.specs.Steps.{takes};
ghost use Rattle.cjc_types.specs.Steps.{stored, locals_after, after as state_after};
ghost use Rattle.cjc_types.specs.Types.{parts, result_of, element_of, as_reference, array_of};
ghost use Rattle.cjc_types.specs.declared.cell.Cell.{Cell as Known};
ghost use Rattle.cjc_types.specs.declared.cell.Cell.TheVariants as cells_of;

use crate::cell::{self, Cell};
use crate::operands::{Operands, put_on};
use crate::state::{self, Stack, State};
use crate::{insns, names, types};
use cjc_bytes::{Bytes, MemberId, NoMemory, Row};
use cjc_code::JOp;
use std::alloc::Global;

/// The k-th operand from the top, once more.
fn copied_operand(stack: &Operands, k: usize) -> Result<Cell, NoMemory>
    ensures { IfOk result (λ cell. cell ≡ operand stack.now k) }
{
    match stack.get(k) {
        Some(cell) => cell::copied(cell),
        None => Ok(Cell::Unusable),
    }
}

/// The reference on the top.
fn top_reference(stack: &Operands) -> Result<Cell, NoMemory>
    ensures { IfOk result (λ cell. cell ≡ as_reference (operand stack.now 0)) }
{
    match stack.get(0) {
        Some(cell) => types::as_reference(cell),
        None => Ok(Cell::Unusable),
    }
}

/// What an array load gives.
fn element(alloc: Global, opcode: u8, stack: &Operands) -> Result<Cell, NoMemory>
    ensures { IfOk result (λ cell. cell ≡ element_of opcode (operand stack.now 1)) }
{
    match stack.get(1) {
        Some(cell) => types::element_of(alloc, opcode, cell),
        None => Ok(Cell::Unusable),
    }
}

/// What a load of a local gives.
fn local_value(refs: bool, locals: &[Cell], local: u16) -> Result<Cell, NoMemory>
    ensures { IfOk result (λ cell. cell ≡ value_of_local refs (operand locals.now local)) }
{
    match locals.get(local as usize) {
        Some(cell) if refs => types::as_reference(cell),
        None if refs => Ok(Cell::Unusable),
        _ => Ok(Cell::Number),
    }
}

/// The operands at some places from the top.
fn operands(alloc: Global, stack: &Operands, places: &[u8]) -> Result<Row<Cell>, NoMemory>
    ensures { IfOk result (λ cells. cells ≡ map (operand stack.now) places.now) }
{
    let mut cells = Row::new(alloc);
    for place in places {
        cells.push(copied_operand(stack, *place as usize)?)?;
    }
    Ok(cells)
}

fn one(alloc: Global, cell: Cell) -> Result<Row<Cell>, NoMemory>
    ensures { IfOk result (λ cells. cells ≡ cell ∷ []) }
{
    let mut cells = Row::new(alloc);
    cells.push(cell)?;
    Ok(cells)
}

/// The reference of no type, null.
fn null(alloc: Global) -> Result<Row<Cell>, NoMemory>
    ensures { IfOk result (λ cells. cells ≡ cells_of.Refs [] ∷ []) }
{
    let types = names::no_names(alloc)?;
    one(alloc, Cell::Refs(types))
}

/// A reference of this type.
fn of_type(alloc: Global, class: &[u8]) -> Result<Row<Cell>, NoMemory>
    ensures { IfOk result (λ cells. cells ≡ cells_of.Refs (class.now ∷ []) ∷ []) }
{
    let types = names::one_name(alloc, class)?;
    one(alloc, Cell::Refs(types))
}

/// What a field instruction gives.
fn got(alloc: Global, put: bool, field: &MemberId) -> Result<Row<Cell>, NoMemory>
    ensures { IfOk result (λ cells. cells ≡ (if put then [] else result_of (parts field.now.desc).result)) }
{
    if put {
        Ok(Row::new(alloc))
    } else {
        types::given_by(alloc, field.desc.items())
    }
}

/// A reference to an array of references.
fn array_of(alloc: Global, class: &Bytes) -> Result<Row<Cell>, NoMemory>
    ensures { IfOk result (λ cells. cells ≡ cells_of.Refs (array_of class.now ∷ []) ∷ []) }
{
    let array = types::array_of(alloc, class.items())?;
    of_type(alloc, array.items())
}

/// What an instruction puts on the stack.
fn given(alloc: Global, op: &JOp, locals: &[Cell], stack: &Operands) -> Result<Row<Cell>, NoMemory>
    ensures { IfOk result (λ cells. cells ≡ gives op.now locals.now stack.now) }
{
    match op {
        JOp::Null => null(alloc),
        JOp::Number(_) | JOp::Arith(_) | JOp::Narrow(_) => one(alloc, Cell::Number),
        JOp::ArrayLength | JOp::InstanceOf(_) => one(alloc, Cell::Number),
        JOp::Load { refs, local } => one(alloc, local_value(*refs, locals, *local)?),
        JOp::ArrayLoad(opcode) => one(alloc, element(alloc, *opcode, stack)?),
        JOp::Stack(opcode) => operands(alloc, stack, insns::shuffle(*opcode)),
        JOp::Static { put, field } => got(alloc, *put, field),
        JOp::Field { put, field } => got(alloc, *put, field),
        JOp::Call { method, .. } => types::given_by(alloc, method.desc.items()),
        JOp::New(class) | JOp::CheckCast(class) => of_type(alloc, class.items()),
        JOp::NewArray(number) => of_type(alloc, &[b'[', types::letter(*number)]),
        JOp::ANewArray(class) => array_of(alloc, class),
        _ => Ok(Row::new(alloc)),
    }
}

/// How many cells the result of a descriptor puts on the stack.
fn result_gives(desc: &[u8]) -> usize
    ensures { result ≡ length (result_of (parts desc.now).result) }
{
    insns::either(types::has_result(desc), 1, 0)
}

/// How many cells an instruction puts on the stack.
pub(crate) fn gives_count(op: &JOp) -> usize
    ensures count { (locals stack : List Known) → result ≡ length (gives op.now locals stack) }
    ensures small { result ≤ 6 }
{
    match op {
        JOp::Null | JOp::Number(_) | JOp::Arith(_) | JOp::Narrow(_) | JOp::Load { .. } => 1,
        JOp::ArrayLoad(_) | JOp::ArrayLength | JOp::InstanceOf(_) => 1,
        JOp::New(_) | JOp::CheckCast(_) | JOp::NewArray(_) | JOp::ANewArray(_) => 1,
        JOp::Stack(opcode) => insns::shuffle(*opcode).len(),
        JOp::Static { put, field } | JOp::Field { put, field } => {
            insns::either(*put, 0, result_gives(field.desc.items()))
        }
        JOp::Call { method, .. } => result_gives(method.desc.items()),
        _ => 0,
    }
}

/// The stack without what an instruction takes, and with all that it puts there.
fn with_given(
    alloc: Global,
    op: &JOp,
    locals: &[Cell],
    stack: Operands,
) -> Result<Operands, NoMemory>
    ensures { IfOk result (λ behind. behind ≡ stack_behind op.now locals.now stack) }
{
    let given = given(alloc, op, locals, &stack)?;
    let mut stack = stack.below(alloc, insns::takes(op))?;
    put_on(alloc, &mut stack, given)?;
    Ok(stack)
}

/// The stack without what an instruction takes, and with one cell on it.
fn with_one(alloc: Global, op: &JOp, stack: Operands, cell: Cell) -> Result<Operands, NoMemory>
    ensures { IfOk result (λ behind. behind ≡ cell ∷ drop (takes op.now) stack) }
{
    let mut stack = stack.below(alloc, insns::takes(op))?;
    stack.push(alloc, cell)?;
    Ok(stack)
}

/// The stack behind an instruction, made of the one before it. What the commonest ones put there makes no list.
fn behind(alloc: Global, op: &JOp, locals: &[Cell], stack: Operands) -> Result<Operands, NoMemory>
    ensures { IfOk result (λ behind. behind ≡ stack_behind op.now locals.now stack) }
{
    match op {
        JOp::Number(_) | JOp::Arith(_) | JOp::Narrow(_) => {
            with_one(alloc, op, stack, Cell::Number)
        }
        JOp::Load { refs, local } => {
            let cell = local_value(*refs, locals, *local)?;
            with_one(alloc, op, stack, cell)
        }
        _ => with_given(alloc, op, locals, stack),
    }
}

fn after_stack(alloc: Global, op: &JOp, locals: &[Cell], stack: Stack) -> Result<Stack, NoMemory>
    ensures { IfOk result (λ after. after ≡ stack_after op.now locals.now stack) }
{
    match stack {
        Stack::Cells(cells) => Ok(state::stack_of(behind(alloc, op, locals, cells)?)),
        Stack::Clash => Ok(Stack::Clash),
    }
}

/// What a store puts into a local.
fn stored(refs: bool, stack: &Stack) -> Result<Cell, NoMemory>
    ensures { IfOk result (λ cell. cell ≡ stored refs stack.now) }
{
    match stack {
        Stack::Cells(cells) if refs => top_reference(cells),
        Stack::Cells(_) => Ok(Cell::Number),
        Stack::Clash => Ok(Cell::Unusable),
    }
}

/// The locals with one changed in place.
fn with_local(locals: Row<Cell>, local: u16, cell: Cell) -> Row<Cell>
    ensures { result ≡ slice_set locals local cell }
{
    let mut changed = locals.into_vec();
    let local = local as usize;
    if local < changed.len() {
        changed[local] = cell;
    }
    Row::of(changed)
}

fn after_locals(op: &JOp, locals: Row<Cell>, stack: &Stack) -> Result<Row<Cell>, NoMemory>
    ensures { IfOk result (λ after. after ≡ locals_after op.now locals stack.now) }
{
    match op {
        JOp::Store { refs, local } => {
            let cell = stored(*refs, stack)?;
            Ok(with_local(locals, *local, cell))
        }
        JOp::Inc { local, .. } => Ok(with_local(locals, *local, Cell::Number)),
        _ => Ok(locals),
    }
}

/// The state behind an instruction, made of the one before it.
pub(crate) fn after(alloc: Global, op: &JOp, before: State) -> Result<State, NoMemory>
    ensures { IfOk result (λ after. after ≡ state_after op.now before) }
{
    let State { stack, locals } = before;
    let locals = after_locals(op, locals, &stack)?;
    let stack = after_stack(alloc, op, locals.items(), stack)?;
    Ok(State { stack, locals })
}
