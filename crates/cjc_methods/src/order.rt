//! The methods of a package in the order of Method. It knows no code.

ghost use Rattle.std.specs.Prelude.{◌≡◌, ◌<◌, ◌^◌, ◌+◌, ◌++◌, ℕ, List, All, Some, false, length, IfOk, OnOk};
ghost use Rattle.cjc_world.specs.Classes.{Class, all_classes, class_at};
ghost use Rattle.cjc_world.specs.Order.{method_order, methods_of_class};
ghost use Rattle.cjc_world.specs.Files.{Files};
ghost use Rattle.cjc_methods.specs.Ready.{AreOrdered, IsListed, IsOwn};
ghost use Rattle.cjc_methods.specs.Working.Members.{places, written};

use cjc_bytes::{NoMemory, Row};
use cjc_world::classfile::{ClassTree, MethodTree};
use cjc_world::{Found, World};
use std::alloc::Global;

const INITIALISER: &[u8] = b"<clinit>";

/// Puts the methods of a class file at the end, the first of which has this place among the members; `<clinit>` is not
/// written.
fn put_written(
    out: &mut Row<Found>,
    class: u32,
    first: u32,
    methods: &[MethodTree<'_>],
) -> Result<(), NoMemory>
    requires { first + length methods.now < 2 ^ 32 }
    ensures { OnOk result (out.new ≡ out.old ++ written class first methods.now) }
{
    for k in 0..methods.len() {
        if methods[k].name.items() != INITIALISER {
            out.push(Found {
                imported: false,
                class,
                member: first + k as u32,
            })?;
        }
    }
    Ok(())
}

/// Puts so many members of a class at the end, from a place on.
fn put_places(out: &mut Row<Found>, class: u32, first: u32, count: u32) -> Result<(), NoMemory>
    requires { first + count < 2 ^ 32 }
    ensures { OnOk result (out.new ≡ out.old ++ places class first count) }
{
    for k in 0..count {
        out.push(Found {
            imported: false,
            class,
            member: first + k,
        })?;
    }
    Ok(())
}

/// Puts the methods of a class at the end, those that it gets behind its own.
pub fn put_methods(
    out: &mut Row<Found>,
    number: u32,
    class: &ClassTree<'_>,
    added: usize,
) -> Result<(), NoMemory>
    ensures { OnOk result (out.new ≡ (out.old ++ written number (length class.now.fields) class.now.methods)
        ++ places number (length class.now.fields + length class.now.methods) added) }
{
    let first = class.fields.items().len();
    let behind = first + class.methods.items().len();
    if behind > 0xFFFF_FFFF || added > 0xFFFF_FFFF - behind {
        return Err(NoMemory);
    }
    put_written(out, number, first as u32, class.methods.items())?;
    put_places(out, number, behind as u32, added as u32)
}

/// Puts the methods of the class of a number at the end.
fn put_class(out: &mut Row<Found>, world: &World<'_>, number: u32) -> Result<(), NoMemory>
    requires { (c : Class) × (class_at (all_classes world.now) false number ≡ Some c) }
    ensures { (c : Class) → class_at (all_classes world.now) false number ≡ Some c → OnOk result (out.new ≡ out.old
        ++ methods_of_class (all_classes world.now) c) }
{
    let class = &world.classes().items()[number as usize];
    put_methods(out, number, class, world.added(number).items().len())
}

/// The methods of a package in the order of Method, by the order of its classes.
#[tactic(auto, unfolding(cjc_world::specs::Order::method_order))]
pub fn method_order(alloc: Global, world: &World<'_>, order: &[u32]) -> Result<Row<Found>, NoMemory>
    requires { AreOrdered world.now order.now }
    ensures { IfOk result (λ members. members ≡ method_order (all_classes world.now)) }
{
    let mut out = Row::new(alloc);
    for number in order {
        put_class(&mut out, world, *number)?;
    }
    Ok(out)
}

/// The methods of a package are members of its classes, and none is an initialiser. For whoever goes through them.
pub fn methods_are_own()
    ensures own { (files : Files) (order : List ℕ) → AreOrdered files order
        → All (IsOwn files) (method_order (all_classes files)) }
    ensures listed { (files : Files) (order : List ℕ) → AreOrdered files order
        → All (IsListed files) (method_order (all_classes files)) }
{}
