//! The mode of a method, and the first of its numbers that may lie outside of what its instruction allows there.

ghost use Rattle.std.specs.Prelude.{◌≡◌, IfOk};
ghost use Rattle.cjc_world.specs.ClassFile.Code.{CodeTree};
ghost use Rattle.cjc_world.specs.ClassFile.declared.tree.ClassTree.{ClassTree as ClassFile};
ghost use Rattle.cjc_world.specs.ClassFile.declared.tree.MethodTree.{MethodTree as ClassMethod};
ghost use Rattle.cjc_world.specs.Classes.{all_classes};
ghost use Rattle.cjc_narrow.specs.Types.Flow.{body_of};
ghost use Rattle.cjc_narrow.specs.Types.Tables.{IsMethodOf, IsOfPackage, IsTypeTable, rows_of};
ghost use Rattle.cjc_flow.specs.Constants.{values_of};
ghost use Rattle.cjc_int_narrow.specs.Constants.{constants_of};
ghost use Rattle.cjc_judge.specs.OutOfRange.{IsVerdict};

use cjc_bytes::{BrokenAt, NoMemory};
use cjc_flow::Ranging;
use cjc_flow::types::TypeTable;
use cjc_int_mode::modes::Mode;
use cjc_int_mode::{mode, passes};
use cjc_int_narrow::ranging_of;
use cjc_vtable::bytecode::MethodCode;
use cjc_world::World;
use std::alloc::Global;

/// What is told of the numbers of a method.
#[derive(Drop)]
pub struct Verdict {
    /// Its mode.
    pub mode: Mode,
    /// The first number that may lie outside of what its instruction allows in this mode, by the instructions' order
    /// and then by the rule: 601 to 609, with the offset of the instruction in bytes.
    pub broken: Option<BrokenAt>,
}

// The same, of a method whose intervals are to be found. They are dropped here: no other method needs them.
fn verdict_by(
    alloc: Global,
    world: &World<'_>,
    code: &MethodCode,
    types: &TypeTable,
    ranging: &Ranging<'_>,
    ints: bool,
) -> Result<Verdict, NoMemory>
    requires code { IsOfPackage world.now code.now }
    requires types { (c : ClassFile) (m : ClassMethod) (t : CodeTree) → IsMethodOf world.now code.now c m t
        → IsTypeTable (all_classes world.now) (body_of c m t code.now.insns) types.now }
    requires ranging { (c : ClassFile) (m : ClassMethod) (t : CodeTree) → IsMethodOf world.now code.now c m t
        → ranging.now ≡ record {
          body = body_of c m t code.now.insns;
          values = values_of (constants_of world.now)
              code.now.insns;
          types = rows_of (body_of c m t code.now.insns) types.now;
        } }
    ensures { (c : ClassFile) (m : ClassMethod) (t : CodeTree) → IsMethodOf world.now code.now c m t
        → IfOk result (IsVerdict ints world.now (body_of c m t code.now.insns)) }
{
    let table = ranging.ranges(alloc)?;
    let mode = mode(alloc, world, code, types, ranging, &table, ints)?;
    let broken = passes(alloc, world, code, types, ranging, &table, mode)?;
    Ok(Verdict { mode, broken })
}

/// The mode of a method, where `ints` says whether it may be in int mode, and the first of its numbers that breaks one
/// of 601 to 609 there.
///
/// The code is that of a method of the world, and the types are those that `infer` gave for it.
pub fn verdict_of(
    alloc: Global,
    world: &World<'_>,
    code: &MethodCode,
    types: &TypeTable,
    ints: bool,
) -> Result<Verdict, NoMemory>
    requires code { IsOfPackage world.now code.now }
    requires types { (c : ClassFile) (m : ClassMethod) (t : CodeTree) → IsMethodOf world.now code.now c m t
        → IsTypeTable (all_classes world.now) (body_of c m t code.now.insns) types.now }
    ensures { (c : ClassFile) (m : ClassMethod) (t : CodeTree) → IsMethodOf world.now code.now c m t
        → IfOk result (IsVerdict ints world.now (body_of c m t code.now.insns)) }
{
    let ranging = ranging_of(alloc, world, code, types)?;
    verdict_by(alloc, world, code, types, &ranging, ints)
}
