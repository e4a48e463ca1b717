//! The flags of infos (Java Card Virtual Machine Specification 2.2.2, section 6.8). Called by `entries`.

ghost use Rattle.std.specs.Prelude.{◌≡◌, ◌+◌, ◌&&◌, ◌||◌, IfOk, if◌then◌else◌};
ghost use Rattle.std.specs.List.{list_any};
ghost use Rattle.std.specs.Str.{bytes_eq};
ghost use Rattle.cjc_bytes.specs.AccessFlags.{is_interface};
ghost use Rattle.cjc_world.specs.Classes.{all_classes};
ghost use Rattle.cjc_world.specs.Exported.{shareable};
ghost use Rattle.cjc_world.specs.Working.Known.{class_of};
ghost use Rattle.cjc_components.specs.Class.{acc_interface, acc_shareable, info_flags, is_shareable};

use cjc_bytes::{Bytes, NoMemory};
use cjc_components::class_order::supers::interfaces;
use cjc_world::{Known, World};
use std::alloc::Global;

const SHAREABLE: &[u8] = b"javacard/framework/Shareable";

const ACC_INTERFACE: u8 = 8;

const ACC_SHAREABLE: u8 = 4;

fn is_one_of(names: &[Bytes], name: &[u8]) -> bool
    ensures { result ≡ list_any (λ x. bytes_eq x name.now) names.now }
{
    names.iter().any(|other| other.items() == name)
}

/// Whether javacard/framework/Shareable is among the interfaces of a class, or is the class itself.
fn is_shareable_where(is_below: bool, class: Known<'_, '_>) -> bool
    ensures { result ≡ (is_below || (is_interface (class_of class.entry).flags && bytes_eq (class_of class.entry).name
        shareable)) }
{
    is_below || (class.is_interface() && class.name() == SHAREABLE)
}

fn is_shareable(alloc: Global, world: &World<'_>, class: Known<'_, '_>) -> Result<bool, NoMemory>
    ensures { IfOk result (λ b. b ≡ is_shareable (all_classes world.now) (class_of class.entry)) }
{
    let names = interfaces(alloc, world, class)?;
    let is_below = is_one_of(names.items(), SHAREABLE);
    Ok(is_shareable_where(is_below, class))
}

fn flags_of(interface: bool, shareable: bool) -> u8
    ensures { result ≡ (if interface then acc_interface else 0) + (if shareable then acc_shareable else 0) }
{
    match (interface, shareable) {
        (true, true) => ACC_INTERFACE + ACC_SHAREABLE,
        (true, false) => ACC_INTERFACE,
        (false, true) => ACC_SHAREABLE,
        (false, false) => 0,
    }
}

/// The flags of the info of a class.
pub fn info_flags(alloc: Global, world: &World<'_>, class: Known<'_, '_>) -> Result<u8, NoMemory>
    ensures { IfOk result (λ f. f ≡ info_flags (all_classes world.now) (class_of class.entry)) }
{
    let shareable = is_shareable(alloc, world, class)?;
    Ok(flags_of(class.is_interface(), shareable))
}
