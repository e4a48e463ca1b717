//! The order of the classes of one kind. Nothing in it is searched once per class: of what waits it is counted what it
//! waits for, and what waits for none is kept least first.

ghost use Rattle.std.specs.Prelude.{◌≡◌, map, All, IfOk, Some};
ghost use Rattle.cjc_world.specs.Classes.{all_classes};
ghost use Rattle.cjc_world.specs.Order.{in_order};
ghost use Rattle.cjc_order.specs.Classes.Numbers.{declared_at, IsOfKind};

use crate::classes::listed::{listed_classes, numbers_of_all};
use crate::classes::queue::{count_out, counts_of, ready_of};
use crate::classes::subs::subs_of;
use cjc_world::World;
use cjc_world::bytes::{NoMemory, Row};
use std::alloc::Global;

/// The numbers of the interfaces of a package, or of its classes that are no interfaces, in their order.
pub fn class_order(alloc: Global, world: &World<'_>, interfaces: bool) -> Result<Row<u32>, NoMemory>
    ensures order { IfOk result (λ order. map Some (in_order (all_classes world.now) interfaces)
        ≡ map (declared_at world.now.classes) order) }
    ensures classes { IfOk result (λ order. All (IsOfKind world.now interfaces) order) }
{
    let classes = listed_classes(world);
    if classes.len() > 0xFFFF_FFFF {
        return Err(NoMemory);
    }
    let listed = numbers_of_all(alloc, world, interfaces, classes)?;
    let subs = subs_of(alloc, listed.items())?;
    let mut counts = counts_of(alloc, listed.items())?;
    let mut ready = ready_of(alloc, interfaces, classes, &counts)?;
    let mut order = Row::new(alloc);
    for _ in 0..classes.len() {
        match ready.take_least() {
            None => return Ok(order),
            Some(number) => {
                order.push(number)?;
                let freed = subs[number as usize].items();
                count_out(interfaces, classes, &mut counts, &mut ready, freed)?;
            }
        }
    }
    Ok(order)
}
