//! Where the methods of the package begin, as Descriptor says: the k-th method of the i-th class there is that of the
//! i-th class of the package. Called by whoever compares tables.

ghost use Rattle.std.specs.Prelude.{◌≡◌, ◌++◌, ℕ, List, Some, map, option_map, slice_get, IfOk, OnOk};
ghost use Rattle.std.specs.List.{find};
ghost use Rattle.cjc_world.specs.declared.found.Found.{Found as Member};
ghost use Rattle.cjc_world.specs.Classes.{all_classes, declared};
ghost use Rattle.cjc_world.specs.Order.{class_order, methods_of_class};
ghost use Rattle.cjc_classes.specs.ClassOrder.Classes.Numbers.{declared_at};
ghost use Rattle.cjc_verify.specs.Pairs.{Pair, method_offset, same_found};
ghost use Rattle.cjc_verify.specs.Offsets.{ats_at, ats_by, ats_in, offset_among};

use cjc_bytes::{NoMemory, Row};
use cjc_capread::{ClassDescriptor, MethodDescriptor};
use cjc_classes::class_order::classes::class_order;
use cjc_methods::put_methods;
use cjc_world::classfile::ClassTree;
use cjc_world::{Found, World};
use std::alloc::Global;

/// A method of the package and the offset of its header.
#[derive(Clone, Copy)]
pub(crate) struct MethodAt {
    pub(crate) found: Found,
    pub(crate) offset: u64,
}

/// Whether both are the same member of the same class of the package.
fn same_found(one: Found, other: Found) -> bool
    ensures { result ≡ same_found one other }
{
    !one.imported && !other.imported && one.class == other.class && one.member == other.member
}

fn method_of(methods: &[MethodAt], found: Found) -> Option<&MethodAt>
    ensures { option_map (λ m. m.now) result ≡ find (λ m. same_found m.found found) methods.now }
{
    methods
        .iter()
        .find(|method| same_found(method.found, found))
}

/// The offset of a method; 0 where it has none.
pub(crate) fn offset_among(methods: &[MethodAt], found: Found) -> u64
    ensures { result ≡ offset_among methods.now found }
{
    match method_of(methods, found) {
        Some(method) => method.offset,
        None => 0,
    }
}

// ---- methods beside their descriptors

/// The methods of a class of the package: those of its file, then those that it gets.
pub(crate) fn methods_of(
    alloc: Global,
    world: &World<'_>,
    number: u32,
    class: &ClassTree<'_>,
) -> Result<Row<Found>, NoMemory>
    requires { slice_get world.now.classes number ≡ Some class.now }
    ensures { IfOk result (λ row. row ≡ methods_of_class (all_classes world.now) (declared number class.now)) }
{
    let added = world.added(number).items();
    let mut row = Row::new(alloc);
    put_methods(&mut row, number, class, added.len())?;
    Ok(row)
}

/// The method at a place with the offset of its descriptor, where there are both.
fn at_place(members: &[Found], methods: &[MethodDescriptor], place: usize) -> Option<MethodAt>
    ensures { result ≡ slice_get (ats_in members.now methods.now) place }
{
    match members.get(place) {
        Some(found) => match methods.get(place) {
            Some(method) => Some(MethodAt {
                found: *found,
                offset: method.offset,
            }),
            None => None,
        },
        None => None,
    }
}

/// Puts methods with the offsets of their descriptors at the end, as far as there are both.
fn put_ats(
    row: &mut Row<MethodAt>,
    members: &[Found],
    methods: &[MethodDescriptor],
) -> Result<(), NoMemory>
    ensures { OnOk result (row.new ≡ row.old ++ ats_in members.now methods.now) }
{
    for place in 0..members.len() {
        match at_place(members, methods, place) {
            Some(method) => row.push(method)?,
            None => return Ok(()),
        }
    }
    Ok(())
}

/// Puts the methods of the class of a number at the end.
fn put_class(
    alloc: Global,
    row: &mut Row<MethodAt>,
    world: &World<'_>,
    number: u32,
    class: &ClassDescriptor,
) -> Result<(), NoMemory>
    ensures { OnOk result (row.new ≡ row.old ++ ats_at world.now number class.now) }
{
    match world.classes().items().get(number as usize) {
        Some(tree) => {
            let members = methods_of(alloc, world, number, tree)?;
            put_ats(row, members.items(), class.methods.items())
        }
        None => Ok(()),
    }
}

/// Puts the methods of the classes of these numbers at the end, as far as there are descriptors.
fn put_classes(
    alloc: Global,
    row: &mut Row<MethodAt>,
    world: &World<'_>,
    order: &[u32],
    classes: &[ClassDescriptor],
) -> Result<(), NoMemory>
    ensures { OnOk result (row.new ≡ row.old ++ ats_by world.now order.now classes.now) }
{
    for (i, number) in order.iter().enumerate() {
        if i >= classes.len() {
            return Ok(());
        }
        put_class(alloc, row, world, *number, &classes[i])?;
    }
    Ok(())
}

fn put_numbers(row: &mut Row<u32>, numbers: &[u32]) -> Result<(), NoMemory>
    ensures { OnOk result (row.new ≡ row.old ++ numbers.now) }
{
    for number in numbers {
        row.push(*number)?;
    }
    Ok(())
}

/// The numbers of the classes of the package in the order of Class.
pub(crate) fn numbers_in_order(alloc: Global, world: &World<'_>) -> Result<Row<u32>, NoMemory>
    ensures { IfOk result (λ order. map Some (class_order (all_classes world.now)) ≡ map (declared_at
        world.now.classes) order) }
{
    let interfaces = class_order(alloc, world, true)?;
    let classes = class_order(alloc, world, false)?;
    let mut order = Row::new(alloc);
    put_numbers(&mut order, interfaces.items())?;
    put_numbers(&mut order, classes.items())?;
    Ok(order)
}

/// The methods of the package with the offsets that Descriptor gives them.
pub(crate) fn method_ats(
    alloc: Global,
    world: &World<'_>,
    order: &[u32],
    classes: &[ClassDescriptor],
) -> Result<Row<MethodAt>, NoMemory>
    requires { map Some (class_order (all_classes world.now)) ≡ map (declared_at world.now.classes) order.now }
    ensures { (p : Pair) → p.files ≡ world.now → p.components.descriptor.classes ≡ classes.now
        → IfOk result (λ row. (f : Member) → offset_among row f ≡ method_offset p f) }
{
    let mut row = Row::new(alloc);
    put_classes(alloc, &mut row, world, order, classes)?;
    Ok(row)
}
