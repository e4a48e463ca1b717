//! Which mode a method is in.

ghost use Rattle.std.specs.Prelude.{◌≡◌, true, Option, ℤ, IfOk};
ghost use Rattle.cjc_subset.specs.Bytes.declared.fault.MemberId.{MemberId as Field};
ghost use Rattle.cjc_flow.specs.ClassFile.Code.{CodeTree};
ghost use Rattle.cjc_flow.specs.ClassFile.declared.tree.ClassTree.{ClassTree as ClassFile};
ghost use Rattle.cjc_flow.specs.ClassFile.declared.tree.MethodTree.{MethodTree as ClassMethod};
ghost use Rattle.cjc_flow.specs.World.Classes.{all_classes};
ghost use Rattle.cjc_flow.specs.LowerTypes.Flow.{body_of};
ghost use Rattle.cjc_flow.specs.LowerTypes.Tables.{IsMethodOf, IsOfPackage, IsTypeTable, rows_of};
ghost use Rattle.cjc_flow.specs.Constants.{AreNumbers, values_of};
ghost use Rattle.cjc_flow.specs.Tables.{IsRangeTable, ranges_of};
ghost use Rattle.cjc_int_mode.specs.Modes.{IsModeOf, names_int};

use crate::modes::Mode;
use cjc_flow::tests::{Tested, first_broken};
use cjc_flow::types::TypeTable;
use cjc_flow::{RangeTable, Ranging};
use cjc_subset::any_works_on_int;
use cjc_subset::bytecode::MethodCode;
use cjc_subset::bytes::NoMemory;
use cjc_subset::world::World;
use std::alloc::Global;
use std::slice;

/// Whether a method names int.
fn names_int(world: &World<'_>, code: &MethodCode) -> bool
    ensures { (c : ClassFile) (m : ClassMethod) (t : CodeTree) → IsMethodOf world.now code.now c m t
        → result ≡ names_int (body_of c m t code.now.insns) }
{
    any_works_on_int(world, slice::from_ref(code))
}

/// The mode of a method where the list has the line `int`.
fn mode_by_need(
    alloc: Global,
    world: &World<'_>,
    code: &MethodCode,
    types: &TypeTable,
    ranging: &Ranging<'_>,
    table: &RangeTable,
) -> Result<Mode, NoMemory>
    requires code { IsOfPackage world.now code.now }
    requires types { (c : ClassFile) (m : ClassMethod) (t : CodeTree) → IsMethodOf world.now code.now c m t
        → IsTypeTable (all_classes world.now) (body_of c m t code.now.insns) types.now }
    requires body { (c : ClassFile) (m : ClassMethod) (t : CodeTree) → IsMethodOf world.now code.now c m t
        → ranging.now.body ≡ body_of c m t code.now.insns }
    requires rows { (c : ClassFile) (m : ClassMethod) (t : CodeTree) → IsMethodOf world.now code.now c m t
        → ranging.now.types ≡ rows_of (body_of c m t code.now.insns) types.now }
    requires table { (constant : Field → Option ℤ) × (numbers : AreNumbers constant)
        × (values : ranging.now.values ≡ values_of constant ranging.now.body.insns)
        × IsRangeTable ranging.now.body constant ranging.now.types table.now.marks table.now.rows }
    ensures { (c : ClassFile) (m : ClassMethod) (t : CodeTree) → IsMethodOf world.now code.now c m t
        → (constant : Field → Option ℤ) → AreNumbers constant → ranging.now.values ≡ values_of constant code.now.insns
        → IfOk result (IsModeOf true (body_of c m t code.now.insns)
        (rows_of (body_of c m t code.now.insns) types.now) (ranges_of (body_of c m t code.now.insns) constant
        (rows_of (body_of c m t code.now.insns) types.now) table.now.marks table.now.rows)) }
{
    if names_int(world, code) {
        return Ok(Mode::Int);
    }
    match first_broken(alloc, Tested::LowWords, world, code, types, ranging, table)? {
        Some(_) => Ok(Mode::Int),
        None => Ok(Mode::Short),
    }
}

/// The mode of a method, where `ints` says whether the list has the line `int`: Int exactly where it has, and the
/// method names int or has an operand that may lie outside of what 601 to 604 or 606 allow.
///
/// The code is that of a method of the world, and its instructions are those that `decode` gives for it; the types
/// are those that `infer` gave for it, and the intervals those that `ranges` gave.
pub fn mode(
    alloc: Global,
    world: &World<'_>,
    code: &MethodCode,
    types: &TypeTable,
    ranging: &Ranging<'_>,
    table: &RangeTable,
    ints: bool,
) -> Result<Mode, NoMemory>
    requires code { IsOfPackage world.now code.now }
    requires types { (c : ClassFile) (m : ClassMethod) (t : CodeTree) → IsMethodOf world.now code.now c m t
        → IsTypeTable (all_classes world.now) (body_of c m t code.now.insns) types.now }
    requires body { (c : ClassFile) (m : ClassMethod) (t : CodeTree) → IsMethodOf world.now code.now c m t
        → ranging.now.body ≡ body_of c m t code.now.insns }
    requires rows { (c : ClassFile) (m : ClassMethod) (t : CodeTree) → IsMethodOf world.now code.now c m t
        → ranging.now.types ≡ rows_of (body_of c m t code.now.insns) types.now }
    requires table { (constant : Field → Option ℤ) × (numbers : AreNumbers constant)
        × (values : ranging.now.values ≡ values_of constant ranging.now.body.insns)
        × IsRangeTable ranging.now.body constant ranging.now.types table.now.marks table.now.rows }
    ensures { (c : ClassFile) (m : ClassMethod) (t : CodeTree) → IsMethodOf world.now code.now c m t
        → (constant : Field → Option ℤ) → AreNumbers constant → ranging.now.values ≡ values_of constant code.now.insns
        → IfOk result (IsModeOf ints (body_of c m t code.now.insns)
        (rows_of (body_of c m t code.now.insns) types.now) (ranges_of (body_of c m t code.now.insns) constant
        (rows_of (body_of c m t code.now.insns) types.now) table.now.marks table.now.rows)) }
{
    if ints {
        return mode_by_need(alloc, world, code, types, ranging, table);
    }
    Ok(Mode::Short)
}
