//! The walks upwards. A name that a walk came to before is passed over, so each class is looked up once: since no
//! class stands above itself, all that stands above such a name has been seen.

ghost use Rattle.std.specs.Prelude.{◌≡◌, ◌++◌, false, true, option_map, IfOk, OnOk};
ghost use Rattle.std.specs.List.{flat_map};
ghost use Rattle.cjc_world.specs.Classes.{all_classes, class_named};
ghost use Rattle.cjc_world.specs.Supertypes.{IsAcyclic};
ghost use Rattle.cjc_world.specs.Working.Known.{class_of};
ghost use Rattle.cjc_order.specs.Supers.Supers.{interfaces, superclasses};
ghost use Rattle.cjc_order.specs.Supers.Working.Walk.{AreDone, StandAbove, interfaces_from, interfaces_in, supers_in};
ghost use Rattle.cjc_order.specs.Supers.Working.Walk.{upwards_from, with_all};

use crate::supers::seen::Seen;
use cjc_world::bytes::{Bytes, NoMemory, Row};
use cjc_world::{Known, World};
use std::alloc::Global;

/// What a class lists as supers, nothing where there is no class.
fn supers_of<'w>(class: Option<Known<'w, '_>>) -> &'w [Bytes]
    ensures { result.now ≡ supers_in (option_map class_of class.entry) }
{
    match class {
        Some(class) => class.supers(),
        None => &[],
    }
}

fn interfaces_of<'w>(class: Option<Known<'w, '_>>) -> &'w [Bytes]
    ensures { result.now ≡ interfaces_in (option_map class_of class.entry) }
{
    match class {
        Some(class) => class.interfaces(),
        None => &[],
    }
}

/// Puts the names, each followed by its superclasses, behind those that were seen.
fn put_upwards<'w>(
    world: &'w World<'_>,
    names: &'w [Bytes],
    seen: &mut Seen<'w>,
) -> Result<(), NoMemory>
    requires acyclic { IsAcyclic (all_classes world.now) }
    requires above { StandAbove (all_classes world.now) (upwards_from (all_classes world.now)) seen.now seen.now
        names.now }
    ensures put { OnOk result (seen.new ≡ with_all seen.old (flat_map (upwards_from (all_classes world.now))
        names.now)) }
    ensures done { OnOk result (AreDone (upwards_from (all_classes world.now)) seen.old seen.new seen.new) }
{
    for name in names {
        let name = name.items();
        let is_new = seen.put(name)?;
        if is_new {
            let class = world.class_named(name);
            put_upwards(world, supers_of(class), seen)?;
        }
    }
    Ok(())
}

/// Puts the interfaces of the names, and with listed ones the names themselves, behind those that were seen. What
/// it came to are the names themselves and all above them.
fn put_interfaces<'w>(
    world: &'w World<'_>,
    listed: bool,
    names: &'w [Bytes],
    came: &mut Seen<'w>,
    seen: &mut Seen<'w>,
) -> Result<(), NoMemory>
    requires acyclic { IsAcyclic (all_classes world.now) }
    requires above { StandAbove (all_classes world.now) (interfaces_from (all_classes world.now) false) came.now
        seen.now names.now }
    ensures put { OnOk result (seen.new ≡ with_all seen.old
        (flat_map (interfaces_from (all_classes world.now) listed) names.now)) }
    ensures done { OnOk result (AreDone (interfaces_from (all_classes world.now) false) came.old came.new seen.new) }
{
    for name in names {
        let name = name.items();
        let is_new = came.put(name)?;
        if is_new {
            let class = world.class_named(name);
            put_interfaces(world, false, supers_of(class), came, seen)?;
            put_interfaces(world, true, interfaces_of(class), came, seen)?;
        }
        if listed {
            seen.put(name)?;
        }
    }
    Ok(())
}

/// The names of the superclasses of a class going upwards, of an imported class the supers that its file lists
/// in the order of the file, each followed by its own, and each once. One that no file has is among them.
pub fn superclasses<'w>(
    alloc: Global,
    world: &'w World<'_>,
    class: Known<'w, '_>,
) -> Result<Row<Bytes>, NoMemory>
    ensures { IfOk result (λ names. names ≡ superclasses (all_classes world.now) (class_of class.entry)) }
{
    world.acyclic();
    let mut seen = Seen::new(alloc);
    put_upwards(world, class.supers(), &mut seen)?;
    seen.copies(alloc)
}

/// The names of the interfaces of a class: those of its supers, then each listed one preceded by its
/// superinterfaces, each once. One that no file has is among them.
pub fn interfaces<'w>(
    alloc: Global,
    world: &'w World<'_>,
    class: Known<'w, '_>,
) -> Result<Row<Bytes>, NoMemory>
    ensures { IfOk result (λ names. names ≡ interfaces (all_classes world.now) (class_of class.entry)) }
{
    world.acyclic();
    let mut came = Seen::new(alloc);
    let mut seen = Seen::new(alloc);
    put_interfaces(world, false, class.supers(), &mut came, &mut seen)?;
    put_interfaces(world, true, class.interfaces(), &mut came, &mut seen)?;
    seen.copies(alloc)
}
