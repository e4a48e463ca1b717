//! The first number of a method that may not lie where the rules that bind its mode need it.

ghost use Rattle.std.specs.Prelude.{◌≡◌, ℕ, Option, ℤ, IfOk};
ghost use Rattle.cjc_subset.specs.Bytes.declared.fault.MemberId.{MemberId as Field};
ghost use Rattle.cjc_flow.specs.ClassFile.Code.{CodeTree};
ghost use Rattle.cjc_flow.specs.ClassFile.declared.tree.ClassTree.{ClassTree as ClassFile};
ghost use Rattle.cjc_flow.specs.ClassFile.declared.tree.MethodTree.{MethodTree as ClassMethod};
ghost use Rattle.cjc_flow.specs.World.Classes.{all_classes};
ghost use Rattle.cjc_flow.specs.LowerTypes.Flow.{body_of};
ghost use Rattle.cjc_flow.specs.LowerTypes.Tables.{IsMethodOf, IsOfPackage, IsTypeTable, rows_of};
ghost use Rattle.cjc_flow.specs.Constants.{AreNumbers, values_of};
ghost use Rattle.cjc_flow.specs.Tables.{IsRangeTable, ranges_of};
ghost use Rattle.cjc_flow.specs.Tests.Breaches.{IsFound, is_tested};
ghost use Rattle.cjc_int_mode.specs.Modes.{binds};

use crate::modes::Mode;
use cjc_flow::tests::{Tested, first_broken};
use cjc_flow::types::TypeTable;
use cjc_flow::{RangeTable, Ranging};
use cjc_subset::bytecode::MethodCode;
use cjc_subset::bytes::{BrokenAt, NoMemory};
use cjc_subset::world::World;
use std::alloc::Global;

/// The rules that bind a mode.
fn tested_by(mode: Mode) -> Tested
    ensures { (rule : ℕ) → is_tested result rule ≡ binds mode rule }
{
    match mode {
        Mode::Short => Tested::All,
        Mode::Int => Tested::Values,
    }
}

/// The first number of a method that may not lie where its instruction needs it, by the instructions' order and then
/// by the rule, with the offset of the instruction in bytes: 601 to 609, and in int mode 605 and 607 to 609 alone.
/// Nothing where each lies there.
///
/// The code is that of a method of the world, and its instructions are those that `decode` gives for it; the types
/// are those that `infer` gave for it, and the intervals those that `ranges` gave.
pub fn passes(
    alloc: Global,
    world: &World<'_>,
    code: &MethodCode,
    types: &TypeTable,
    ranging: &Ranging<'_>,
    table: &RangeTable,
    mode: Mode,
) -> Result<Option<BrokenAt>, NoMemory>
    requires code { IsOfPackage world.now code.now }
    requires types { (c : ClassFile) (m : ClassMethod) (t : CodeTree) → IsMethodOf world.now code.now c m t
        → IsTypeTable (all_classes world.now) (body_of c m t code.now.insns) types.now }
    requires body { (c : ClassFile) (m : ClassMethod) (t : CodeTree) → IsMethodOf world.now code.now c m t
        → ranging.now.body ≡ body_of c m t code.now.insns }
    requires rows { (c : ClassFile) (m : ClassMethod) (t : CodeTree) → IsMethodOf world.now code.now c m t
        → ranging.now.types ≡ rows_of (body_of c m t code.now.insns) types.now }
    requires table { (constant : Field → Option ℤ) × (numbers : AreNumbers constant)
        × (values : ranging.now.values ≡ values_of constant ranging.now.body.insns)
        × IsRangeTable ranging.now.body constant ranging.now.types table.now.marks table.now.rows }
    ensures { (c : ClassFile) (m : ClassMethod) (t : CodeTree) → IsMethodOf world.now code.now c m t
        → (constant : Field → Option ℤ) → AreNumbers constant → ranging.now.values ≡ values_of constant code.now.insns
        → IfOk result (IsFound (binds mode) (body_of c m t code.now.insns)
        (rows_of (body_of c m t code.now.insns) types.now) (ranges_of (body_of c m t code.now.insns) constant
        (rows_of (body_of c m t code.now.insns) types.now) table.now.marks table.now.rows)) }
{
    first_broken(alloc, tested_by(mode), world, code, types, ranging, table)
}
