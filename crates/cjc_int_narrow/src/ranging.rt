//! The intervals of a method of a package, whose constants are known by name: as they are to be found, and what is
//! known by them before each instruction. Called by whoever tests rules on numbers, and before code is selected.

ghost use Rattle.std.specs.Prelude.{◌≡◌, List, Option, IfOk};
ghost use Rattle.cjc_int_mode.specs.ClassFile.Code.{CodeTree};
ghost use Rattle.cjc_int_mode.specs.ClassFile.declared.tree.ClassTree.{ClassTree as ClassFile};
ghost use Rattle.cjc_int_mode.specs.ClassFile.declared.tree.MethodTree.{MethodTree as ClassMethod};
ghost use Rattle.cjc_int_mode.specs.World.Classes.{all_classes};
ghost use Rattle.cjc_narrow.specs.Types.Flow.{body_of};
ghost use Rattle.cjc_narrow.specs.Types.Tables.{IsMethodOf, IsOfPackage, IsTypeTable, rows_of};
ghost use Rattle.cjc_int_mode.specs.Flow.Constants.{values_of};
ghost use Rattle.cjc_int_mode.specs.Intervals.Frames.{RangeState};
ghost use Rattle.cjc_intervals.specs.Tables.{IsLeastRanges};
ghost use Rattle.cjc_int_narrow.specs.Constants.{constants_of};
ghost use Rattle.cjc_int_narrow.specs.Select.{AreBefore};

use crate::constants::values_of;
use crate::known::{Before, befores};
use cjc_int_mode::flow::Ranging;
use cjc_int_mode::world::World;
use cjc_narrow::types::TypeTable;
use cjc_ncode::bytecode::MethodCode;
use cjc_ncode::bytes::{NoMemory, Row};
use std::alloc::Global;

/// A method of a package with its types, as its intervals are to be found.
///
/// The code is that of a method of the world, and the types are those that `infer` gave for it.
pub fn ranging_of<'a>(
    alloc: Global,
    world: &'a World<'_>,
    code: &'a MethodCode,
    types: &'a TypeTable,
) -> Result<Ranging<'a>, NoMemory>
    requires code { IsOfPackage world.now code.now }
    requires types { (c : ClassFile) (m : ClassMethod) (t : CodeTree) → IsMethodOf world.now code.now c m t
        → IsTypeTable (all_classes world.now) (body_of c m t code.now.insns) types.now }
    ensures { (c : ClassFile) (m : ClassMethod) (t : CodeTree) → IsMethodOf world.now code.now c m t
        → IfOk result (λ r. r ≡ record {
          body = body_of c m t code.now.insns;
          values = values_of (constants_of world.now) code.now.insns;
          types = rows_of (body_of c m t code.now.insns) types.now;
        }) }
{
    let values = values_of(alloc, world, code.insns.items())?;
    Ranging::new(alloc, world, code, types, values)
}

/// What the least tables of a method of a package say before each of its instructions. Its intervals are found here,
/// and let go.
///
/// The code is that of a method of the world, and the types are those that `infer` gave for it.
pub fn known_before(
    alloc: Global,
    world: &World<'_>,
    code: &MethodCode,
    types: &TypeTable,
) -> Result<Row<Option<Before>>, NoMemory>
    requires code { IsOfPackage world.now code.now }
    requires types { (c : ClassFile) (m : ClassMethod) (t : CodeTree) → IsMethodOf world.now code.now c m t
        → IsTypeTable (all_classes world.now) (body_of c m t code.now.insns) types.now }
    ensures some { (c : ClassFile) (m : ClassMethod) (t : CodeTree) → IsMethodOf world.now code.now c m t
        → IfOk result (λ known. (ranges : List (Option RangeState)) × (least : IsLeastRanges
        (body_of c m t code.now.insns) (constants_of world.now) (rows_of (body_of c m t code.now.insns) types.now)
        ranges) × AreBefore (body_of c m t code.now.insns) (rows_of (body_of c m t code.now.insns) types.now) ranges
        known) }
    ensures least { (c : ClassFile) (m : ClassMethod) (t : CodeTree) → IsMethodOf world.now code.now c m t
        → (ranges : List (Option RangeState))
        → IsLeastRanges (body_of c m t code.now.insns) (constants_of world.now)
        (rows_of (body_of c m t code.now.insns) types.now) ranges
        → IfOk result (AreBefore (body_of c m t code.now.insns) (rows_of (body_of c m t code.now.insns) types.now)
        ranges) }
{
    let ranging = ranging_of(alloc, world, code, types)?;
    let table = ranging.ranges(alloc)?;
    befores(alloc, world, code, types, &ranging, &table)
}
