//! Of each class those that list it, each as often as it does. Called by `order`. It knows no world.

ghost use Rattle.std.specs.Prelude.{◌≡◌, ◌<◌, ◌^◌, [], length, map, IfOk, OnOk};
ghost use Rattle.std.specs.List.{fold};
ghost use Rattle.cjc_order.specs.Classes.Queue.{AreSubs, with_sub};

use cjc_world::bytes::{NoMemory, Row};
use std::alloc::Global;

/// As many empty rows as there are rows.
fn empty_rows(alloc: Global, rows: &[Row<u32>]) -> Result<Vec<Row<u32>>, NoMemory>
    ensures { IfOk result (λ empty. empty.items ≡ map (λ row. []) rows.now) }
{
    let mut empty = Vec::new(alloc);
    for _row in rows {
        empty.push(Row::new(alloc))?;
    }
    Ok(empty)
}

/// Puts a class among those that list another.
fn put_sub(subs: &mut Vec<Row<u32>>, sub: u32, listed: u32) -> Result<(), NoMemory>
    ensures { OnOk result (subs.new.items ≡ with_sub sub subs.old.items listed) }
{
    let place = listed as usize;
    if place < subs.len() {
        subs[place].push(sub)?;
    }
    Ok(())
}

/// Puts a class among those that list each of these.
fn put_subs(subs: &mut Vec<Row<u32>>, sub: u32, listed: &[u32]) -> Result<(), NoMemory>
    ensures { OnOk result (subs.new.items ≡ fold (with_sub sub) subs.old.items listed.now) }
{
    for number in listed {
        put_sub(subs, sub, *number)?;
    }
    Ok(())
}

/// Of each class those that list it, from what each class lists.
pub(crate) fn subs_of(alloc: Global, listed: &[Row<u32>]) -> Result<Vec<Row<u32>>, NoMemory>
    requires { length listed.now < 2 ^ 32 }
    ensures { IfOk result (λ subs. AreSubs listed.now subs.items) }
{
    let mut subs = empty_rows(alloc, listed)?;
    for (i, row) in listed.iter().enumerate() {
        put_subs(&mut subs, i as u32, row.items())?;
    }
    Ok(subs)
}
