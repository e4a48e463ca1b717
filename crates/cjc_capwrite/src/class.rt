//! The bytes of Class: interfaces, then classes (Java Card Virtual Machine Specification 2.2.2, 6.8). Called by
//! `files`. It tests no limit.

ghost use Rattle.std.specs.Prelude.{◌≡◌, ◌++◌, length, OnOk};
ghost use Rattle.std.specs.List.{flat_map};
ghost use Rattle.cjc_capwrite.specs.Class.{nibbles, interface_bytes, implemented_bytes, class_entry_bytes};
ghost use Rattle.cjc_capwrite.specs.Class.{class_info_bytes};

use crate::parts::{
    put_bytes1, put_class_ref, put_class_refs, put_count1, put_nibbles, put_numbers, put_two,
};
use cjc_capread::bytes::{NoMemory, Out};
use cjc_capread::{ClassEntry, ClassInfo, ImplementedInterface, InterfaceEntry};

/// Flags and the number of these items in the nibbles of a byte.
fn put_flags<T>(out: &mut Out, flags: u8, items: &[T]) -> Result<(), NoMemory>
    ensures { OnOk result (out.new ≡ out.old ++ nibbles flags (length items.now)) }
{
    put_nibbles(out, flags, (items.len() % 16) as u8)
}

#[tactic(auto, unfolding(crate::specs::Class::interface_bytes))]
fn put_interface(out: &mut Out, interface: &InterfaceEntry) -> Result<(), NoMemory>
    ensures { OnOk result (out.new ≡ out.old ++ interface_bytes interface.now) }
{
    put_flags(out, interface.flags, interface.superinterfaces.items())?;
    put_class_refs(out, interface.superinterfaces.items())
}

fn put_interfaces(out: &mut Out, interfaces: &[InterfaceEntry]) -> Result<(), NoMemory>
    ensures { OnOk result (out.new ≡ out.old ++ flat_map interface_bytes interfaces.now) }
{
    for interface in interfaces {
        put_interface(out, interface)?;
    }
    Ok(())
}

#[tactic(auto, unfolding(crate::specs::Class::implemented_bytes))]
fn put_implemented_interface(
    out: &mut Out,
    implemented: &ImplementedInterface,
) -> Result<(), NoMemory>
    ensures { OnOk result (out.new ≡ out.old ++ implemented_bytes implemented.now) }
{
    put_class_ref(out, implemented.interface)?;
    put_bytes1(out, implemented.index.items())
}

fn put_implemented_interfaces(
    out: &mut Out,
    interfaces: &[ImplementedInterface],
) -> Result<(), NoMemory>
    ensures { OnOk result (out.new ≡ out.old ++ flat_map implemented_bytes interfaces.now) }
{
    for implemented in interfaces {
        put_implemented_interface(out, implemented)?;
    }
    Ok(())
}

#[tactic(auto, unfolding(crate::specs::Class::class_entry_bytes))]
fn put_class(out: &mut Out, class: &ClassEntry) -> Result<(), NoMemory>
    ensures { OnOk result (out.new ≡ out.old ++ class_entry_bytes class.now) }
{
    put_flags(out, class.flags, class.interfaces.items())?;
    put_class_ref(out, class.superclass)?;
    out.put1(class.declared_instance_size)?;
    out.put1(class.first_reference_token)?;
    out.put1(class.reference_count)?;
    out.put1(class.public_base)?;
    put_count1(out, class.public_methods.items())?;
    out.put1(class.package_base)?;
    put_count1(out, class.package_methods.items())?;
    put_numbers(out, class.public_methods.items())?;
    put_numbers(out, class.package_methods.items())?;
    put_implemented_interfaces(out, class.interfaces.items())
}

fn put_classes(out: &mut Out, classes: &[ClassEntry]) -> Result<(), NoMemory>
    ensures { OnOk result (out.new ≡ out.old ++ flat_map class_entry_bytes classes.now) }
{
    for class in classes {
        put_class(out, class)?;
    }
    Ok(())
}

/// The content of a Class component: its interfaces, then its classes.
#[tactic(auto, unfolding(crate::specs::Class::class_info_bytes))]
pub(crate) fn put_class_info(out: &mut Out, info: &ClassInfo) -> Result<(), NoMemory>
    ensures { OnOk result (out.new ≡ out.old ++ class_info_bytes info.now) }
{
    put_two(out, 0)?;
    put_interfaces(out, info.interfaces.items())?;
    put_classes(out, info.classes.items())
}
