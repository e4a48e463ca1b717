//! The names of the methods of a class, in the order of Descriptor, and of those of an interface by token (Java
//! Card Virtual Machine Specification 2.2.2, sections 6.8 and 6.13.3). Called by `classes`.

ghost use Rattle.std.specs.Prelude.{◌≡◌, ◌++◌, map, option_map, IfOk, OnOk};
ghost use Rattle.std.specs.List.{flat_map};
ghost use Rattle.cjc_card_link.specs.World.Classes.{all_classes, declared};
ghost use Rattle.cjc_classes.specs.LowerTokens.Working.{signature_in, signs};
ghost use Rattle.cjc_card_link.specs.Names.{method_name_of};
ghost use Rattle.cjc_classes.specs.LowerComponents.Paired.Naming.{interface_names};
ghost use Rattle.cjc_pairing.specs.CardNames.Working.Classes.{name_in, name_where};

use cjc_card_link::MethodName;
use cjc_card_link::classfile::{ClassTree, MethodTree};
use cjc_classes::bytes::{Bytes, NoMemory, Row, is_interface};
use cjc_classes::tokens::{Slot, interface_methods};
use cjc_classes::world::{Known, World};
use std::alloc::Global;

const INITIALISER: &[u8] = b"<clinit>";

fn method_name(alloc: Global, name: &[u8], desc: &[u8]) -> Result<MethodName, NoMemory>
    ensures { IfOk result (λ m. method_name_of m ≡ record { name = name.now; desc = desc.now }) }
{
    let name = Bytes::copy_of(alloc, name)?;
    let desc = Bytes::copy_of(alloc, desc)?;
    Ok(MethodName { name, desc })
}

/// Puts a method at the end, where it is no <clinit>.
fn put_method(
    alloc: Global,
    names: &mut Row<MethodName>,
    method: &MethodTree<'_>,
) -> Result<(), NoMemory>
    ensures { OnOk result (map method_name_of names.new ≡ map method_name_of names.old ++ name_where method.now) }
{
    if method.name.items() == INITIALISER {
        return Ok(());
    }
    names.push(method_name(alloc, method.name.items(), method.desc.items())?)
}

/// The methods that a class declares, without <clinit>.
pub(crate) fn method_names(
    alloc: Global,
    class: &ClassTree<'_>,
) -> Result<Row<MethodName>, NoMemory>
    ensures { IfOk result (λ names. map method_name_of names ≡ flat_map name_where class.now.methods) }
{
    let mut names = Row::new(alloc);
    for method in class.methods.items() {
        put_method(alloc, &mut names, method)?;
    }
    Ok(names)
}

/// Puts the method of a slot at the end.
fn put_slot(
    alloc: Global,
    names: &mut Row<MethodName>,
    slot: &Option<Slot<'_>>,
) -> Result<(), NoMemory>
    ensures { OnOk result (map method_name_of names.new ≡ map method_name_of names.old
        ++ name_in (option_map signature_in slot.now)) }
{
    match slot {
        None => Ok(()),
        Some(slot) => names.push(method_name(alloc, slot.name, slot.desc)?),
    }
}

fn slot_names(alloc: Global, slots: &[Option<Slot<'_>>]) -> Result<Row<MethodName>, NoMemory>
    ensures { IfOk result (λ names. map method_name_of names ≡ flat_map name_in (signs slots.now)) }
{
    let mut names = Row::new(alloc);
    for slot in slots {
        put_slot(alloc, &mut names, slot)?;
    }
    Ok(names)
}

/// The methods of an interface by token; none of a class.
pub(crate) fn interface_names(
    alloc: Global,
    world: &World<'_>,
    number: u32,
    class: &ClassTree<'_>,
) -> Result<Row<MethodName>, NoMemory>
    ensures { IfOk result (λ names. map method_name_of names ≡ interface_names (all_classes world.now)
        (declared number class.now)) }
{
    if !is_interface(class.flags) {
        return Ok(Row::new(alloc));
    }
    let slots = interface_methods(alloc, world, Known::Declared(number, class))?;
    let names = slot_names(alloc, &slots)?;
    Ok(names)
}
