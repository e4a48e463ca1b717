//! Rules 501, 502 and 503 at one instruction over the state before it: the kinds of its operands, the classes
//! of its references, and stack and locals. Called by `inference`.

ghost use Rattle.std.specs.Prelude.{◌≡◌, ◌+◌, ◌<◌, ◌≤◌, ◌||◌, List, length, if◌then◌else◌};
ghost use Rattle.std.specs.List.{list_all};
ghost use Rattle.cjc_world.specs.Classes.{all_classes};
ghost use Rattle.cjc_world.specs.Subtype.{is_subtype, starts};
ghost use Rattle.cjc_world.specs.Working.Known.{class_of};
ghost use Rattle.cjc_types.specs.Steps.{operand};
ghost use Rattle.cjc_types.specs.Types.{parts};
ghost use Rattle.cjc_types.specs.Rules.{is_number, is_reference, all_types, is_of, is_value};
ghost use Rattle.cjc_types.specs.Rules.{is_array_by as is_array_of, is_array_for as is_array_loaded, names_private};
ghost use Rattle.cjc_types.specs.Rules.{is_private_in, is_super_call as is_called_by_super};
ghost use Rattle.cjc_types.specs.Rules.{receiver_class as class_of_receiver, is_argument, tests_references};
ghost use Rattle.cjc_types.specs.Rules.{is_load_operand as is_operand_of_load, is_store_operand as is_operand_of_store};
ghost use Rattle.cjc_types.specs.Rules.{is_field_operand as is_operand_of_field, accepts, has_wrong};
ghost use Rattle.cjc_types.specs.Rules.{has_wrong_local as is_local_wrong, returns, is_wrong_return as is_return_wrong};
ghost use Rattle.cjc_types.specs.Rules.{is_wrong as is_stack_wrong, is_off as is_stack_off, first_rule as first_broken};
ghost use Rattle.cjc_types.specs.declared.cell.Cell.{Cell as Word};

use crate::cell::Cell;
use crate::method::Method;
use crate::names::Name;
use crate::operands::Operands;
use crate::state::{Stack, State};
use crate::{insns, steps, types};
use cjc_bytes::{Kind, MemberId, is_private};
use cjc_code::{JOp, jvm};
use cjc_world::{Found, Known, World};

fn is_number(cell: &Cell) -> bool
    ensures { result ≡ is_number cell.now }
{
    match cell {
        Cell::Number => true,
        _ => false,
    }
}

fn is_reference(cell: &Cell) -> bool
    ensures { result ≡ is_reference cell.now }
{
    match cell {
        Cell::Refs(_) => true,
        _ => false,
    }
}

/// A reference or a number.
fn is_kind(refs: bool, cell: &Cell) -> bool
    ensures { result ≡ (if refs then is_reference cell.now else is_number cell.now) }
{
    if refs {
        is_reference(cell)
    } else {
        is_number(cell)
    }
}

fn are_of(world: &World<'_>, types: &[Name], class: &[u8]) -> bool
    ensures { result ≡ list_all (λ name. is_subtype (all_classes world.now) name class.now) types.now }
{
    for name in types {
        if !world.subtype(name.items(), class) {
            return false;
        }
    }
    true
}

/// Whether a cell is a reference of a class or array type.
fn is_of(world: &World<'_>, class: &[u8], cell: &Cell) -> bool
    ensures { result ≡ is_of (all_classes world.now) class.now cell.now }
{
    match cell {
        Cell::Refs(types) => are_of(world, types.items(), class),
        _ => false,
    }
}

/// Whether a cell is a value of a type.
fn is_value(world: &World<'_>, kind: Kind, class: &[u8], cell: &Cell) -> bool
    ensures { result ≡ is_value (all_classes world.now) kind class.now cell.now }
{
    match kind {
        Kind::Bool | Kind::Byte | Kind::Short | Kind::Int => is_number(cell),
        Kind::Ref => is_of(world, class, cell),
        Kind::Other | Kind::Void => false,
    }
}

/// Whether a cell is a value of the type of a field, or of a method's result.
fn is_result(world: &World<'_>, desc: &[u8], cell: &Cell) -> bool
    ensures { result ≡ is_value (all_classes world.now) (parts desc.now).result.kind (parts desc.now).result.class
        cell.now }
{
    match types::parsed(desc) {
        Some(parsed) => {
            let last = parsed.params();
            is_value(world, parsed.kind(last), parsed.class(last), cell)
        }
        None => false,
    }
}

/// The kind of a method's result.
fn result_kind(desc: &[u8]) -> Kind
    ensures { result ≡ (parts desc.now).result.kind }
{
    match types::parsed(desc) {
        Some(parsed) => parsed.kind(parsed.params()),
        None => Kind::Void,
    }
}

fn is_array_by(letter: u8, name: &[u8]) -> bool
    ensures { result ≡ is_array_of letter name.now }
{
    match name {
        [b'[', other] => *other == letter,
        _ => false,
    }
}

fn is_array_for(opcode: u8, name: &[u8]) -> bool
    ensures { result ≡ is_array_loaded opcode name.now }
{
    if opcode == jvm::IALOAD || opcode == jvm::IASTORE {
        is_array_by(b'I', name)
    } else if opcode == jvm::AALOAD || opcode == jvm::AASTORE {
        types::held(name).is_some()
    } else if opcode == jvm::BALOAD || opcode == jvm::BASTORE {
        is_array_by(b'B', name) || is_array_by(b'Z', name)
    } else {
        is_array_by(b'S', name)
    }
}

fn are_arrays_for(opcode: u8, types: &[Name]) -> bool
    ensures { result ≡ list_all (is_array_loaded opcode) types.now }
{
    for name in types {
        if !is_array_for(opcode, name.items()) {
            return false;
        }
    }
    true
}

/// Whether a cell is an array for a load or store by this opcode.
fn is_array(opcode: u8, cell: &Cell) -> bool
    ensures { result ≡ all_types (is_array_loaded opcode) cell.now }
{
    match cell {
        Cell::Refs(types) => are_arrays_for(opcode, types.items()),
        _ => false,
    }
}

fn are_arrays(types: &[Name]) -> bool
    ensures { result ≡ list_all (starts 91) types.now }
{
    for name in types {
        if !types::starts(b'[', name.items()) {
            return false;
        }
    }
    true
}

/// Whether a cell is an array of any type.
fn is_any_array(cell: &Cell) -> bool
    ensures { result ≡ all_types (starts 91) cell.now }
{
    match cell {
        Cell::Refs(types) => are_arrays(types.items()),
        _ => false,
    }
}

/// Whether the method of a place of a class, behind its fields, is private.
fn is_private_at(class: Known<'_, '_>, found: Found) -> bool
    ensures { result ≡ is_private_in found (Some (class_of class.entry)) }
{
    let place = (found.member as usize).saturating_sub(class.field_count());
    place < class.member_count(false) && is_private(class.member_flags(false, place))
}

/// Whether an instruction names a private method.
#[tactic(auto, unfolding(crate::specs::Rules::names_private))]
fn names_private(world: &World<'_>, id: &MemberId) -> bool
    ensures { result ≡ names_private (all_classes world.now) id.now }
{
    let found = match world.find_method(id) {
        Some(found) => found,
        None => return false,
    };
    match world.class_at(found.imported, found.class) {
        Some(class) => is_private_at(class, found),
        None => false,
    }
}

/// Whether an instruction calls a method of a superclass of the class that holds the code.
fn is_super_call(world: &World<'_>, opcode: u8, id: &MemberId) -> bool
    ensures { result ≡ is_called_by_super (all_classes world.now) opcode id.now }
{
    opcode == jvm::INVOKESPECIAL
        && id.name.items() != b"<init>".as_slice()
        && !names_private(world, id)
}

/// Whether the receiver of a call may be this cell.
fn is_receiver(
    world: &World<'_>,
    method: &Method<'_>,
    opcode: u8,
    id: &MemberId,
    cell: &Cell,
) -> bool
    ensures { result ≡ is_of (all_classes world.now) (class_of_receiver (all_classes world.now) method.now opcode
        id.now) cell.now }
{
    if is_super_call(world, opcode, id) {
        is_of(world, method.class, cell)
    } else {
        is_of(world, id.class.items(), cell)
    }
}

/// Whether the k-th operand of a call from the top may be this cell.
fn is_argument(
    world: &World<'_>,
    method: &Method<'_>,
    opcode: u8,
    id: &MemberId,
    k: usize,
    cell: &Cell,
) -> bool
    ensures { result ≡ is_argument (all_classes world.now) method.now opcode id.now k cell.now }
{
    if let Some(parsed) = types::parsed(id.desc.items()) {
        let count = parsed.params() as usize;
        if k < count {
            let i = (count - 1 - k) as u32;
            return is_value(world, parsed.kind(i), parsed.class(i), cell);
        }
    }
    is_receiver(world, method, opcode, id, cell)
}

fn tests_references(opcode: u8) -> bool
    ensures { result ≡ tests_references opcode }
{
    opcode == jvm::IF_ACMPEQ
        || opcode == jvm::IF_ACMPNE
        || opcode == jvm::IFNULL
        || opcode == jvm::IFNONNULL
}

fn is_load_operand(opcode: u8, k: usize, cell: &Cell) -> bool
    ensures { result ≡ is_operand_of_load opcode k cell.now }
{
    if k == 0 {
        is_number(cell)
    } else {
        is_array(opcode, cell)
    }
}

fn is_store_operand(opcode: u8, k: usize, cell: &Cell) -> bool
    ensures { result ≡ is_operand_of_store opcode k cell.now }
{
    if k == 0 {
        if opcode == jvm::AASTORE {
            is_reference(cell)
        } else {
            is_number(cell)
        }
    } else if k == 1 {
        is_number(cell)
    } else {
        is_array(opcode, cell)
    }
}

fn is_field_operand(world: &World<'_>, put: bool, field: &MemberId, k: usize, cell: &Cell) -> bool
    ensures { result ≡ is_operand_of_field (all_classes world.now) put field.now k cell.now }
{
    if put && k == 0 {
        is_result(world, field.desc.items(), cell)
    } else {
        is_of(world, field.class.items(), cell)
    }
}

/// Whether the k-th operand of an instruction from the top may be this cell.
fn accepts(world: &World<'_>, method: &Method<'_>, op: &JOp, k: usize, cell: &Cell) -> bool
    ensures { result ≡ accepts (all_classes world.now) method.now op.now k cell.now }
{
    match op {
        JOp::Arith(_) | JOp::Narrow(_) | JOp::TableSwitch { .. } | JOp::LookupSwitch { .. } => {
            is_number(cell)
        }
        JOp::NewArray(_) | JOp::ANewArray(_) => is_number(cell),
        JOp::CheckCast(_) | JOp::InstanceOf(_) => is_reference(cell),
        JOp::Store { refs, .. } => is_kind(*refs, cell),
        JOp::If { op: opcode, .. } => is_kind(tests_references(*opcode), cell),
        JOp::ArrayLoad(opcode) => is_load_operand(*opcode, k, cell),
        JOp::ArrayStore(opcode) => is_store_operand(*opcode, k, cell),
        JOp::ArrayLength => is_any_array(cell),
        JOp::Return(_) => is_result(world, method.desc, cell),
        JOp::Static { field, .. } => is_result(world, field.desc.items(), cell),
        JOp::Field { put, field } => is_field_operand(world, *put, field, k, cell),
        JOp::Call {
            op: opcode,
            method: id,
        } => is_argument(world, method, *opcode, id, k, cell),
        JOp::Throw => is_of(world, b"java/lang/Throwable", cell),
        _ => true,
    }
}

/// Whether one of so many operands that are there is wrong.
fn has_wrong_operand(
    world: &World<'_>,
    method: &Method<'_>,
    op: &JOp,
    count: usize,
    stack: &Operands,
) -> bool
    ensures { result ≡ has_wrong (all_classes world.now) method.now op.now count 0 stack.now }
{
    for k in 0..count {
        match stack.get(k) {
            Some(cell) => {
                if !accepts(world, method, op, k, cell) {
                    return true;
                }
            }
            None => return false,
        }
    }
    false
}

/// Whether a local is there and of a kind.
fn is_local(refs: bool, locals: &[Cell], local: u16) -> bool
    ensures { result ≡ (if refs then is_reference (operand locals.now local)
        else is_number (operand locals.now local)) }
{
    match locals.get(local as usize) {
        Some(cell) => is_kind(refs, cell),
        None => false,
    }
}

fn has_wrong_local(op: &JOp, locals: &[Cell]) -> bool
    ensures { result ≡ is_local_wrong op.now locals.now }
{
    match op {
        JOp::Load { refs, local } => !is_local(*refs, locals, *local),
        JOp::Inc { local, .. } => !is_local(false, locals, *local),
        _ => false,
    }
}

fn returns(opcode: u8, kind: Kind) -> bool
    ensures { result ≡ returns opcode kind }
{
    match kind {
        Kind::Bool | Kind::Byte | Kind::Short | Kind::Int => opcode == jvm::IRETURN,
        Kind::Ref => opcode == jvm::ARETURN,
        Kind::Void => opcode == jvm::RETURN,
        Kind::Other => false,
    }
}

fn is_wrong_return(method: &Method<'_>, op: &JOp) -> bool
    ensures { result ≡ is_return_wrong method.now op.now }
{
    match op {
        JOp::Return(opcode) => !returns(*opcode, result_kind(method.desc)),
        _ => false,
    }
}

/// Whether rule 502 is broken.
fn is_wrong(
    world: &World<'_>,
    method: &Method<'_>,
    op: &JOp,
    locals: &[Cell],
    stack: &Operands,
) -> bool
    ensures { result ≡ is_stack_wrong (all_classes world.now) method.now op.now locals.now stack.now }
{
    has_wrong_operand(world, method, op, insns::takes(op), stack)
        || has_wrong_local(op, locals)
        || is_wrong_return(method, op)
}

/// Whether rule 503 is broken. Only heights are asked.
fn is_off(method: &Method<'_>, op: &JOp, height: usize) -> bool
    ensures { (locals stack : List Word) → height ≡ length stack → result ≡ is_stack_off method.now op.now locals
        stack }
{
    let max_stack = method.max_stack as usize;
    let taken = insns::takes(op);
    height < taken || max_stack < height || max_stack < height - taken + steps::gives_count(op)
}

/// The first rule that the state before an instruction breaks.
#[tactic(auto, unfolding(crate::specs::Rules::first_rule))]
pub(crate) fn first_rule(
    world: &World<'_>,
    method: &Method<'_>,
    op: &JOp,
    state: &State,
) -> Option<u16>
    ensures { result ≡ first_broken (all_classes world.now) method.now op.now state.now }
{
    let stack = match &state.stack {
        Stack::Cells(cells) => cells,
        Stack::Clash => return Some(501),
    };
    let locals = state.locals.items();
    if is_wrong(world, method, op, locals, stack) {
        Some(502)
    } else if is_off(method, op, stack.len()) {
        Some(503)
    } else {
        None
    }
}
