//! Whether Class is short enough to be made ready for a run. Called before that.

ghost use Rattle.std.specs.Prelude.{◌≡◌, ◌+◌, ◌<◌, ◌≤◌, ◌^◌, true, sum_by, IfSome};
ghost use Rattle.cjc_card.specs.CheckRules.Complete.{class_info_size, class_size, interface_size, map_size};

use cjc_card::capread::{ClassEntry, ClassInfo, ImplementedInterface, InterfaceEntry};

/// What is left of so many bytes behind a list of at most 255 items of one or two bytes each.
fn behind_items(room: u32, count: usize) -> Option<u32>
    ensures { IfSome result (λ left. count + count + left ≤ room) }
{
    if count > 255 {
        return None;
    }
    room.checked_sub(2 * count as u32)
}

/// What is left of so many bytes behind maps.
fn behind_maps(room: u32, maps: &[ImplementedInterface]) -> Option<u32>
    ensures { IfSome result (λ left. sum_by map_size maps.now + left ≤ room) }
{
    let mut left = room;
    let mut k = maps.len();
    while k > 0 {
        k -= 1;
        let less = behind_items(left, maps[k].index.items().len())?;
        left = less.checked_sub(3)?;
    }
    Some(left)
}

/// What is left of so many bytes behind a class.
fn behind_class(room: u32, class: &ClassEntry) -> Option<u32>
    ensures { IfSome result (λ left. class_size class.now + left ≤ room) }
{
    let left = room.checked_sub(10)?;
    let left = behind_items(left, class.public_methods.items().len())?;
    let left = behind_items(left, class.package_methods.items().len())?;
    behind_maps(left, class.interfaces.items())
}

/// What is left of so many bytes behind classes.
fn behind_classes(room: u32, classes: &[ClassEntry]) -> Option<u32>
    ensures { IfSome result (λ left. sum_by class_size classes.now + left ≤ room) }
{
    let mut left = room;
    let mut k = classes.len();
    while k > 0 {
        k -= 1;
        left = behind_class(left, &classes[k])?;
    }
    Some(left)
}

/// What is left of so many bytes behind interfaces.
fn behind_interfaces(room: u32, interfaces: &[InterfaceEntry]) -> Option<u32>
    ensures { IfSome result (λ left. sum_by interface_size interfaces.now + left ≤ room) }
{
    let mut left = room;
    let mut k = interfaces.len();
    while k > 0 {
        k -= 1;
        let less = behind_items(left, interfaces[k].superinterfaces.items().len())?;
        left = less.checked_sub(1)?;
    }
    Some(left)
}

/// Whether the info has at most 32,767 bytes, as the card asks. It may be missed.
pub fn is_short(class: &ClassInfo) -> bool
    ensures { result ≡ true → class_info_size class.now < 2 ^ 32 }
{
    match behind_interfaces(32765, class.interfaces.items()) {
        Some(left) => behind_classes(left, class.classes.items()).is_some(),
        None => false,
    }
}
