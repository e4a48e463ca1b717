//! The numbers of a package's classes as Class and Descriptor have them: interfaces first, then classes in the
//! order that is given.

ghost use Rattle.std.specs.Prelude.{◌≡◌, ◌++◌, map, Some, IfOk, OnOk};
ghost use Rattle.cjc_methods.specs.Ready.{AreOrdered};
ghost use Rattle.cjc_exported.specs.World.Classes.{all_classes};
ghost use Rattle.cjc_exported.specs.World.Order.{class_order};
ghost use Rattle.cjc_classes.specs.TypeInfo.TypeTable.{class_at};

use cjc_classes::bytes::{NoMemory, Row};
use cjc_classes::class_order::classes::class_order;
use cjc_classes::world::World;
use std::alloc::Global;

/// Puts numbers at the end.
fn put_all(row: &mut Row<u32>, numbers: &[u32]) -> Result<(), NoMemory>
    ensures { OnOk result (row.new ≡ row.old ++ numbers.now) }
{
    for number in numbers {
        row.push(*number)?;
    }
    Ok(())
}

/// Interfaces before classes, which have this order.
pub(crate) fn numbers_in_order(
    alloc: Global,
    world: &World<'_>,
    classes: &[u32],
) -> Result<Row<u32>, NoMemory>
    ensures { AreOrdered world.now classes.now → IfOk result (λ order. map Some (class_order (all_classes world.now))
        ≡ map (class_at world.now.classes) order) }
{
    let mut order = class_order(alloc, world, true)?;
    put_all(&mut order, classes)?;
    Ok(order)
}
