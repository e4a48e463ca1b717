//! The classes of a package by their numbers, and the numbers of those of one kind that each of them lists. Called by
//! `order`.

ghost use Rattle.std.specs.Prelude.{◌≡◌, ◌++◌, map, take, IfOk, OnOk};
ghost use Rattle.cjc_world.specs.Classes.{all_classes, class_named};
ghost use Rattle.cjc_world.specs.Order.{is_of_kind};
ghost use Rattle.cjc_world.specs.Working.Known.{class_of};
ghost use Rattle.cjc_order.specs.Classes.Numbers.{class_count, listed_numbers, own_number, own_numbers};

use cjc_world::bytes::{Bytes, NoMemory, Row};
use cjc_world::classfile::ClassTree;
use cjc_world::{Known, World};
use std::alloc::Global;

/// How many class files the list names.
pub fn class_count(world: &World<'_>) -> usize
    ensures { result ≡ class_count world.now.lines }
{
    world
        .lines()
        .items()
        .iter()
        .filter(|line| line.class_file)
        .count()
}

/// The class files that have a line.
#[tactic(auto, using(std::proofs::lemmas::List::take_min))]
pub(crate) fn listed_classes<'w, 'a>(world: &'w World<'a>) -> &'w [ClassTree<'a>]
    ensures { result.now ≡ take (class_count world.now.lines) world.now.classes }
{
    let classes = world.classes().items();
    let count = class_count(world).min(classes.len());
    &classes[..count]
}

/// Whether a class is an interface, or whether it is none.
pub(crate) fn is_of_kind(interfaces: bool, class: Known<'_, '_>) -> bool
    ensures { result ≡ is_of_kind interfaces (class_of class.entry) }
{
    if interfaces {
        class.is_interface()
    } else {
        !class.is_interface()
    }
}

fn push_number(
    world: &World<'_>,
    interfaces: bool,
    numbers: &mut Row<u32>,
    name: &[u8],
) -> Result<(), NoMemory>
    ensures { OnOk result (numbers.new ≡ numbers.old ++ own_number interfaces (class_named (all_classes world.now)
        name.now)) }
{
    if let Some(class) = world.class_named(name) {
        if !class.is_imported() && is_of_kind(interfaces, class) {
            numbers.push(class.number())?;
        }
    }
    Ok(())
}

fn push_numbers(
    world: &World<'_>,
    interfaces: bool,
    numbers: &mut Row<u32>,
    names: &[Bytes],
) -> Result<(), NoMemory>
    ensures { OnOk result (numbers.new ≡ numbers.old ++ own_numbers interfaces (all_classes world.now) names.now) }
{
    for name in names {
        push_number(world, interfaces, numbers, name.items())?;
    }
    Ok(())
}

/// The numbers of the classes of this kind of the package that a class lists.
fn listed_numbers(
    alloc: Global,
    world: &World<'_>,
    interfaces: bool,
    class: &ClassTree<'_>,
) -> Result<Row<u32>, NoMemory>
    ensures { IfOk result (λ r. r ≡ listed_numbers interfaces (all_classes world.now) class.now) }
{
    let mut numbers = Row::new(alloc);
    push_number(world, interfaces, &mut numbers, class.superclass.items())?;
    push_numbers(world, interfaces, &mut numbers, class.interfaces.items())?;
    Ok(numbers)
}

/// Of each class those numbers.
pub(crate) fn numbers_of_all(
    alloc: Global,
    world: &World<'_>,
    interfaces: bool,
    classes: &[ClassTree<'_>],
) -> Result<Row<Row<u32>>, NoMemory>
    ensures { IfOk result (λ r. r ≡ map (listed_numbers interfaces (all_classes world.now)) classes.now) }
{
    let mut rows = Row::new(alloc);
    for class in classes {
        rows.push(listed_numbers(alloc, world, interfaces, class)?)?;
    }
    Ok(rows)
}
