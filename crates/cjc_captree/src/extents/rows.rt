//! Rows of extents, one for each class of a package. They know no method.

ghost use Rattle.std.specs.Prelude.{◌≡◌, ◌<◌, [], Some, get_or, length, replicate, slice_get, slice_set, IfOk};
ghost use Rattle.cjc_classes.specs.ClassFile.declared.tree.ClassTree.{ClassTree};
ghost use Rattle.cjc_exported.specs.World.Classes.{all_classes, declared};
ghost use Rattle.cjc_classes.specs.Descriptor.Made.{member_count};
ghost use Rattle.cjc_captree.specs.Working.Tables.{nowhere, table_of};

use cjc_classes::bytes::{NoMemory, Row};
use cjc_classes::descriptor::Extent;
use cjc_classes::world::World;
use std::alloc::Global;
use std::mem;

/// Of a method that is not in Method.
const NOWHERE: Extent = Extent {
    offset: 0,
    bytecode_count: 0,
    handler_count: 0,
    first_handler: 0,
};

/// The members of the class of a number: fields, methods, and those that it got.
fn member_count(world: &World<'_>, number: u32) -> Result<usize, NoMemory>
    requires { number < length world.now.classes }
    ensures { (c : ClassTree) → slice_get world.now.classes number ≡ Some c
        → IfOk result (λ n. n ≡ member_count (all_classes world.now) (declared number c)) }
{
    let class = &world.classes().items()[number as usize];
    let own = class.fields.items().len();
    let methods = class.methods.items().len();
    let added = world.added(number).items().len();
    let Some(sum) = own.checked_add(methods) else {
        return Err(NoMemory);
    };
    match sum.checked_add(added) {
        None => Err(NoMemory),
        Some(sum) => Ok(sum),
    }
}

/// So many that are nowhere.
fn empty_row(alloc: Global, count: usize) -> Result<Row<Extent>, NoMemory>
    ensures { IfOk result (λ row. row ≡ replicate count nowhere) }
{
    let items = vec![in alloc; NOWHERE; count]?;
    Ok(Row::of(items))
}

/// For each member of each class that it is nowhere.
pub(crate) fn empty_rows(alloc: Global, world: &World<'_>) -> Result<Vec<Row<Extent>>, NoMemory>
    ensures { IfOk result (λ rows. rows.items ≡ table_of world.now (λ _. nowhere)) }
{
    let mut rows = Vec::new(alloc);
    for number in 0..world.classes().items().len() {
        if number > 0xFFFF_FFFF {
            return Err(NoMemory);
        }
        let count = member_count(world, number as u32)?;
        rows.push(empty_row(alloc, count)?)?;
    }
    Ok(rows)
}

/// A row with another item at a place.
fn with_item(row: Row<Extent>, place: usize, extent: Extent) -> Row<Extent>
    ensures { result ≡ slice_set row place extent }
{
    let mut items = row.into_vec();
    if place < items.len() {
        items[place] = extent;
    }
    Row::of(items)
}

/// Puts an extent at its place.
pub(crate) fn put(
    alloc: Global,
    rows: &mut [Row<Extent>],
    class: usize,
    member: usize,
    extent: Extent,
)
    ensures { rows.new ≡ slice_set rows.old class (slice_set (get_or rows.old class []) member extent) }
{
    if class < rows.len() {
        let row = mem::replace(&mut rows[class], Row::new(alloc));
        rows[class] = with_item(row, member, extent);
    }
}
