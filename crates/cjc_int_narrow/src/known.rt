//! What the least tables of a method say before each of its instructions. Called before code is selected.

ghost use Rattle.std.specs.Prelude.{◌≡◌, ◌<◌, Option, ℤ, List, map, option_map, IfOk};
ghost use Rattle.cjc_int_mode.specs.Bytes.declared.fault.MemberId.{MemberId as Field};
ghost use Rattle.cjc_int_mode.specs.ClassFile.Code.{CodeTree};
ghost use Rattle.cjc_int_mode.specs.ClassFile.declared.tree.ClassTree.{ClassTree as ClassFile};
ghost use Rattle.cjc_int_mode.specs.ClassFile.declared.tree.MethodTree.{MethodTree as ClassMethod};
ghost use Rattle.cjc_int_mode.specs.World.Classes.{Class, all_classes};
ghost use Rattle.cjc_narrow.specs.Types.Flow.{body_of};
ghost use Rattle.cjc_narrow.specs.Types.Rules.{is_reference};
ghost use Rattle.cjc_narrow.specs.Types.Steps.{operand as typed_operand};
ghost use Rattle.cjc_narrow.specs.Types.Tables.{IsMethodOf, IsOfPackage, IsTypeTable, rows_of, state_of};
ghost use Rattle.cjc_int_mode.specs.Flow.Constants.{AreNumbers, values_of};
ghost use Rattle.cjc_int_mode.specs.Intervals.Bounds.{index_range};
ghost use Rattle.cjc_int_mode.specs.Intervals.Steps.{operand};
ghost use Rattle.cjc_int_mode.specs.Flow.Tables.{IsRangeTable, ranges_of};
ghost use Rattle.cjc_int_mode.specs.Flow.Tests.Breaches.{lies_in};
ghost use Rattle.cjc_int_mode.specs.Written.{before, index_operand, spans_before};
ghost use Rattle.cjc_int_narrow.specs.Reached.{known};
ghost use Rattle.cjc_int_narrow.specs.Select.{AreBefore, rows_before};

use cjc_int_mode::flow::{RangeTable, Ranges, Ranging};
use cjc_int_mode::world::World;
use cjc_narrow::types::{Cell, Frame, Method, Operands, TypeTable, TypeWalk};
use cjc_ncode::bytecode::{JInsn, JOp, MethodCode};
use cjc_ncode::bytes::{NoMemory, Row};
use std::alloc::Global;

/// What is known before an instruction that is reached.
#[derive(Drop)]
pub struct Before {
    /// Whether each cell of the operand stack is a reference, the top first; one that is none is a number.
    pub references: Row<bool>,
    /// Whether the index of the element that is read or written lies within -32769 to 65535.
    pub is_index_inside: bool,
}

fn is_reference(cell: &Cell) -> bool
    ensures { result ≡ is_reference cell.now }
{
    match cell {
        Cell::Refs(_) => true,
        _ => false,
    }
}

/// Whether the k-th cell from the top is a reference; one that is missing is none.
fn is_reference_at(stack: &Operands, k: usize) -> bool
    ensures { result ≡ is_reference (typed_operand stack.now k) }
{
    match stack.get(k) {
        Some(cell) => is_reference(cell),
        None => false,
    }
}

/// Whether each cell is a reference.
fn references_of(alloc: Global, stack: &Operands) -> Result<Row<bool>, NoMemory>
    ensures { IfOk result (λ row. row ≡ map is_reference stack.now) }
{
    let mut row = Row::new(alloc);
    for k in 0..stack.len() {
        row.push(is_reference_at(stack, k))?;
    }
    Ok(row)
}

/// The operand that is the index of an element, from the top.
fn index_operand(op: &JOp) -> usize
    ensures { result ≡ index_operand op.now }
{
    match op {
        JOp::ArrayStore(_) => 1,
        _ => 0,
    }
}

/// Whether the index of the element that is read or written lies within -32769 to 65535.
fn is_index_inside(op: &JOp, before: &Option<Ranges>) -> bool
    ensures { result ≡ lies_in (operand (spans_before before.now) (index_operand op.now)) index_range }
{
    match before {
        Some(before) => {
            let interval = before.operand(index_operand(op));
            -32769 <= interval.low && interval.high <= 65535
        }
        None => false,
    }
}

/// What tables say before an instruction; nothing where the types do not reach it.
fn before_at(
    alloc: Global,
    op: &JOp,
    frame: &Option<Frame>,
    ranges: &Option<Ranges>,
) -> Result<Option<Before>, NoMemory>
    ensures { IfOk result (λ b. option_map known b ≡ option_map (λ x. before op.now x ranges.now)
        (option_map state_of frame.now)) }
{
    match frame {
        None => Ok(None),
        Some(frame) => {
            let references = references_of(alloc, &frame.stack)?;
            Ok(Some(Before {
                references,
                is_index_inside: is_index_inside(op, ranges),
            }))
        }
    }
}

/// What the tables of a method say before each of its instructions.
fn rows_before(
    alloc: Global,
    method: &Method<'_>,
    insns: &[JInsn],
    types: &TypeTable,
    ranging: &Ranging<'_>,
    table: &RangeTable,
) -> Result<Row<Option<Before>>, NoMemory>
    requires insns { insns.now ≡ method.now.insns }
    requires types { (w : List Class) × IsTypeTable w method.now types.now }
    requires body { ranging.now.body ≡ method.now }
    requires table { (constant : Field → Option ℤ) × (numbers : AreNumbers constant)
        × (values : ranging.now.values ≡ values_of constant ranging.now.body.insns)
        × IsRangeTable ranging.now.body constant ranging.now.types table.now.marks table.now.rows }
    ensures { (constant : Field → Option ℤ) → AreNumbers constant
        → ranging.now.values ≡ values_of constant ranging.now.body.insns
        → IfOk result (λ row. map (option_map known) row ≡ rows_before (ranges_of ranging.now.body constant
        ranging.now.types table.now.marks table.now.rows) 0 insns.now (rows_of method.now types.now)) }
{
    let mut frames = TypeWalk::new(method, types);
    let mut ranges = ranging.walk(table);
    let mut rows = Row::new(alloc);
    for place in 0..insns.len() {
        rows.push(before_at(alloc, &insns[place].op, frames.frame(), ranges.row())?)?;
        frames.advance(alloc)?;
        ranges.advance(alloc)?;
    }
    Ok(rows)
}

/// What the least tables of a method say before each of its instructions, nothing before one that the types do not
/// reach.
///
/// The code is that of a method of the world, and its instructions are those that `decode` gives for it; the types
/// are those that `infer` gave for it, and the intervals those that `ranges` gave.
pub fn befores(
    alloc: Global,
    world: &World<'_>,
    code: &MethodCode,
    types: &TypeTable,
    ranging: &Ranging<'_>,
    table: &RangeTable,
) -> Result<Row<Option<Before>>, NoMemory>
    requires code { IsOfPackage world.now code.now }
    requires types { (c : ClassFile) (m : ClassMethod) (t : CodeTree) → IsMethodOf world.now code.now c m t
        → IsTypeTable (all_classes world.now) (body_of c m t code.now.insns) types.now }
    requires body { (c : ClassFile) (m : ClassMethod) (t : CodeTree) → IsMethodOf world.now code.now c m t
        → ranging.now.body ≡ body_of c m t code.now.insns }
    requires rows { (c : ClassFile) (m : ClassMethod) (t : CodeTree) → IsMethodOf world.now code.now c m t
        → ranging.now.types ≡ rows_of (body_of c m t code.now.insns) types.now }
    requires table { (constant : Field → Option ℤ) × (numbers : AreNumbers constant)
        × (values : ranging.now.values ≡ values_of constant ranging.now.body.insns)
        × IsRangeTable ranging.now.body constant ranging.now.types table.now.marks table.now.rows }
    ensures { (c : ClassFile) (m : ClassMethod) (t : CodeTree) → IsMethodOf world.now code.now c m t
        → (constant : Field → Option ℤ) → AreNumbers constant → ranging.now.values ≡ values_of constant code.now.insns
        → IfOk result (AreBefore (body_of c m t code.now.insns) (rows_of (body_of c m t code.now.insns) types.now)
        (ranges_of (body_of c m t code.now.insns) constant (rows_of (body_of c m t code.now.insns) types.now)
        table.now.marks table.now.rows)) }
{
    let method = Method::new(world, code);
    let insns = code.insns.items();
    rows_before(alloc, &method, insns, types, ranging, table)
}
