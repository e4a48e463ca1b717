//! Rules 311, 414 and 415 with their places. Called by `layouts`.

ghost use Rattle.std.specs.Prelude.{◌≡◌, ◌++◌, ◌||◌, nat_lt, length, Some, IfOk, option_map};
ghost use Rattle.cjc_bytes.specs.Breaks.{IsFirstOf, at, list_spot};
ghost use Rattle.cjc_bytes.specs.Told.{break_of};
ghost use Rattle.cjc_world.specs.Classes.{Class, all_classes, class_at};
ghost use Rattle.cjc_pool.specs.NCode.PoolOrder.{pool_order};
ghost use Rattle.cjc_components.specs.Descriptor.{method_in};
ghost use Rattle.cjc_components.specs.Limits.{method_spot, order_breaks};
ghost use Rattle.cjc_components.specs.Package.{Package};
ghost use Rattle.cjc_methods.specs.Ready.{IsOwn};

use crate::method_spot;
use cjc_bytes::{Break, NoMemory, RulePlace, broken, first};
use cjc_narrow::keys::number;
use cjc_narrow::ncode::NMethod;
use cjc_pool::MOST_ENTRIES;
use cjc_world::{Found, World};
use std::alloc::Global;

/// The most bytes that a method may have, counted at the widest.
const MOST_BYTES: u32 = 32767;

/// Rule 311 at a method, by the offset of its first handler that stands in another order than its offset.
fn order_break<'w>(world: &'w World<'_>, member: Found, overtaken: Option<u32>) -> Option<Break<'w>>
    requires { IsOwn world.now member }
    ensures { (p : Package) (c : Class) → p.files ≡ world.now → class_at (all_classes world.now) member.imported
        member.class ≡ Some c
        → IsFirstOf (order_breaks (method_spot p c member (method_in (all_classes world.now) c member.member))
        overtaken) (option_map break_of result) }
{
    let offset = overtaken?;
    broken(true, method_spot(world, member, offset), 311)
}

/// Rule 415 at a method. The file of its class is asked for only where it is broken.
fn length_break<'w>(world: &'w World<'_>, member: Found, widest: u32) -> Option<Break<'w>>
    requires { IsOwn world.now member }
    ensures { (p : Package) (c : Class) → p.files ≡ world.now → class_at (all_classes world.now) member.imported
        member.class ≡ Some c
        → IsFirstOf (at (nat_lt 32767 widest) (method_spot p c member (method_in (all_classes world.now) c
        member.member) 0) 415) (option_map break_of result) }
{
    if widest <= MOST_BYTES {
        return None;
    }
    broken(true, method_spot(world, member, 0), 415)
}

/// The first of both at a method.
pub(crate) fn method_break<'w>(
    world: &'w World<'_>,
    member: Found,
    widest: u32,
    overtaken: Option<u32>,
) -> Option<Break<'w>>
    requires { IsOwn world.now member }
    ensures { (p : Package) (c : Class) → p.files ≡ world.now → class_at (all_classes world.now) member.imported
        member.class ≡ Some c
        → (let place = method_spot p c member (method_in (all_classes world.now) c member.member)
        in IsFirstOf (order_breaks place overtaken ++ at (nat_lt 32767 widest) (place 0) 415)
        (option_map break_of result)) }
{
    let order = order_break(world, member, overtaken);
    first(order, length_break(world, member, widest))
}

/// Rule 414, for the pool of these methods and so many entries in that of the export file.
pub(crate) fn count_break<'w>(
    alloc: Global,
    list: &'w [u8],
    codes: &[NMethod],
    exported: usize,
) -> Result<Option<Break<'w>>, NoMemory>
    ensures { IfOk result (λ b. IsFirstOf (at (nat_lt 16383 (length (pool_order codes.now)) || nat_lt 16383 exported)
        (list_spot list.entry.now) 414) (option_map break_of b)) }
{
    let count = number(alloc, codes)?.keys().items().len();
    let is_broken = count > MOST_ENTRIES || exported > MOST_ENTRIES;
    Ok(broken(is_broken, RulePlace::of_list(list), 414))
}
