//! The order of the classes of a package that are no interfaces: a superclass stands before its subclasses.

ghost use Rattle.std.specs.Prelude.{◌≡◌, ◌<◌, ◌^◌, ◌++◌, ℕ, List, length, map, take, All, false, not, IfOk, OnOk, MatchOption, None, Some};
ghost use Rattle.std.specs.List.{list_any};
ghost use Rattle.cjc_world.specs.Classes.{Class, all_classes, class_named};
ghost use Rattle.cjc_world.specs.Working.Known.{class_of};
ghost use Rattle.cjc_world.specs.Order.{in_order, next};
ghost use Rattle.cjc_vtable.specs.Working.Standing.{class_count, declared_at, has_mark, IsClass, IsMarked, IsNext, listed_numbers, numbered_from, own_number, own_numbers, stands_marked};

use crate::naming::class_count;
use cjc_bytes::{Bytes, NoMemory, Row};
use cjc_classfile::ClassTree;
use cjc_world::{Known, World};
use std::alloc::Global;

fn push_number(world: &World<'_>, numbers: &mut Row<u32>, name: &[u8]) -> Result<(), NoMemory>
    ensures { OnOk result (numbers.new ≡ numbers.old ++ own_number (class_named (all_classes world.now) name.now)) }
{
    if let Some(class) = world.class_named(name) {
        if !class.is_imported() && !class.is_interface() {
            numbers.push(class.number())?;
        }
    }
    Ok(())
}

fn push_numbers(world: &World<'_>, numbers: &mut Row<u32>, names: &[Bytes]) -> Result<(), NoMemory>
    ensures { OnOk result (numbers.new ≡ numbers.old ++ own_numbers (all_classes world.now) names.now) }
{
    for name in names {
        push_number(world, numbers, name.items())?;
    }
    Ok(())
}

/// The numbers of the classes of the package that a class lists and that are no interfaces.
fn listed_numbers(
    alloc: Global,
    world: &World<'_>,
    class: &ClassTree<'_>,
) -> Result<Row<u32>, NoMemory>
    ensures { IfOk result (λ r. r ≡ listed_numbers (all_classes world.now) class.now) }
{
    let mut numbers = Row::new(alloc);
    push_number(world, &mut numbers, class.superclass.items())?;
    push_numbers(world, &mut numbers, class.interfaces.items())?;
    Ok(numbers)
}

/// Of each class those numbers.
fn numbers_of_all(
    alloc: Global,
    world: &World<'_>,
    classes: &[ClassTree<'_>],
) -> Result<Row<Row<u32>>, NoMemory>
    ensures { IfOk result (λ r. r ≡ map (listed_numbers (all_classes world.now)) classes.now) }
{
    let mut rows = Row::new(alloc);
    for class in classes {
        rows.push(listed_numbers(alloc, world, class)?)?;
    }
    Ok(rows)
}

fn has_mark(marks: &[bool], number: u32) -> bool
    ensures { result ≡ has_mark marks.now number }
{
    match marks.get(number as usize) {
        None => false,
        Some(mark) => *mark,
    }
}

fn any_waits(marks: &[bool], numbers: &[u32]) -> bool
    ensures { result ≡ list_any (λ n. not (has_mark marks.now n)) numbers.now }
{
    numbers.iter().any(|number| !has_mark(marks, *number))
}

/// Whether a class waits, and none of these numbers does.
fn may_stand(marks: &[bool], class: Known<'_, '_>, listed: &[u32]) -> bool
    ensures { result ≡ stands_marked marks.now (class_of class.entry) listed.now }
{
    !class.is_imported()
        && !class.is_interface()
        && !has_mark(marks, class.number())
        && !any_waits(marks, listed)
}

/// The class files that have a line.
#[tactic(auto, using(std::proofs::lemmas::List::take_min))]
fn listed_classes<'w, 'a>(world: &'w World<'a>) -> &'w [ClassTree<'a>]
    ensures { result.now ≡ take (class_count world.now.lines) world.now.classes }
{
    let classes = world.classes().items();
    let count = class_count(world).min(classes.len());
    &classes[..count]
}

/// The number of the earliest class that may stand next, where those that have a place are marked.
fn next_class(classes: &[ClassTree<'_>], listed: &[Row<u32>], marks: &[bool]) -> Option<u32>
    requires few { length classes.now < 2 ^ 32 }
    requires same { length listed.now ≡ length classes.now }
    ensures { (w : List Class) (placed : List ℕ) → listed.now ≡ map (listed_numbers w) classes.now → IsMarked placed marks.now → MatchOption result (next w false placed (numbered_from 0 classes.now) ≡ None) (IsNext w placed classes.now) }
{
    for (number, class) in classes.iter().enumerate() {
        if may_stand(
            marks,
            Known::Declared(number as u32, class),
            listed[number].items(),
        ) {
            return Some(number as u32);
        }
    }
    None
}

/// The numbers of the classes in their order.
pub(crate) fn class_order(alloc: Global, world: &World<'_>) -> Result<Vec<u32>, NoMemory>
    ensures order { IfOk result (λ order. map Some (in_order (all_classes world.now) false) ≡ map (declared_at world.now.classes) order.items) }
    ensures classes { IfOk result (λ order. All (IsClass world.now) order.items) }
{
    let classes = listed_classes(world);
    if classes.len() > 0xFFFF_FFFF {
        return Err(NoMemory);
    }
    let listed = numbers_of_all(alloc, world, classes)?;
    let mut marks = vec![in alloc; false; classes.len()]?;
    let mut order = Vec::new(alloc);
    for _ in 0..classes.len() {
        match next_class(classes, listed.items(), &marks) {
            None => return Ok(order),
            Some(number) => {
                marks[number as usize] = true;
                order.push(number)?;
            }
        }
    }
    Ok(order)
}
