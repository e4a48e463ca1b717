//! The constants that the instructions of a method get. Called by ranging.rt; it knows no rule.

ghost use Rattle.std.specs.Prelude.{◌≡◌, IfOk};
ghost use Rattle.cjc_int_mode.specs.Flow.Constants.{value_got, values_of};
ghost use Rattle.cjc_int_narrow.specs.Constants.{constants_of};

use cjc_int_mode::world::World;
use cjc_narrow::rows::constant_named;
use cjc_ncode::bytecode::{JInsn, JOp};
use cjc_ncode::bytes::{NoMemory, Row};
use std::alloc::Global;

/// The constant that an instruction gets.
fn value_got(world: &World<'_>, op: &JOp) -> Option<i32>
    ensures { result ≡ value_got (constants_of world.now) op.now }
{
    match op {
        JOp::Static { field, .. } => constant_named(world, field),
        _ => None,
    }
}

/// For each instruction the constant that it gets.
pub(crate) fn values_of(
    alloc: Global,
    world: &World<'_>,
    insns: &[JInsn],
) -> Result<Row<Option<i32>>, NoMemory>
    ensures { IfOk result (λ values. values ≡ values_of (constants_of world.now) insns.now) }
{
    let mut values = Row::new(alloc);
    for insn in insns {
        values.push(value_got(world, &insn.op))?;
    }
    Ok(values)
}
