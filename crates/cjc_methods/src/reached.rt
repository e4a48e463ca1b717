//! Which instructions of a method are reached: those before which its types have a frame. It knows no narrow code.

ghost use Rattle.std.specs.Prelude.{◌≡◌, List, IfOk};
ghost use Rattle.cjc_world.specs.ClassFile.Code.{CodeTree};
ghost use Rattle.cjc_world.specs.ClassFile.declared.tree.ClassTree.{ClassTree as ClassFile};
ghost use Rattle.cjc_world.specs.ClassFile.declared.tree.MethodTree.{MethodTree as ClassMethod};
ghost use Rattle.cjc_narrow.specs.Types.Flow.{body_of};
ghost use Rattle.cjc_narrow.specs.Types.Tables.{IsMethodOf, IsOfPackage, IsTypeTable, rows_of};
ghost use Rattle.cjc_world.specs.Classes.{Class, all_classes};
ghost use Rattle.cjc_narrow.specs.Written.Rows.{has_rows};

use cjc_bytes::{NoMemory, Row};
use cjc_narrow::bytecode::MethodCode;
use cjc_narrow::types::{Method, TypeTable, TypeWalk};
use cjc_world::World;
use std::alloc::Global;

/// For each instruction of a method whether its types reach it.
fn rows_reached(
    alloc: Global,
    method: &Method<'_>,
    types: &TypeTable,
) -> Result<Row<bool>, NoMemory>
    requires { (w : List Class) × IsTypeTable w method.now types.now }
    ensures { IfOk result (λ row. row ≡ has_rows (rows_of method.now types.now)) }
{
    let mut walk = TypeWalk::new(method, types);
    let mut row = Row::new(alloc);
    while walk.place().is_some() {
        row.push(walk.frame().is_some())?;
        walk.advance(alloc)?;
    }
    Ok(row)
}

/// For each instruction of a method of the package whether its types reach it.
pub(crate) fn reached(
    alloc: Global,
    world: &World<'_>,
    code: &MethodCode,
    types: &TypeTable,
) -> Result<Row<bool>, NoMemory>
    requires code { IsOfPackage world.now code.now }
    requires types { (c : ClassFile) (m : ClassMethod) (t : CodeTree) → IsMethodOf world.now code.now c m t
        → IsTypeTable (all_classes world.now) (body_of c m t code.now.insns) types.now }
    ensures { (c : ClassFile) (m : ClassMethod) (t : CodeTree) → IsMethodOf world.now code.now c m t
        → IfOk result (λ row. row ≡ has_rows (rows_of (body_of c m t code.now.insns) types.now)) }
{
    let method = Method::new(world, code);
    rows_reached(alloc, &method, types)
}
