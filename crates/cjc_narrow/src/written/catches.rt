//! The handlers of a method at the places of what is written. Called by whoever selects code.

ghost use Rattle.std.specs.Prelude.{◌≡◌, IfOk, OnOk, ◌++◌};
ghost use Rattle.cjc_ncode.specs.Written.{catch_at, catches_at};
ghost use Rattle.cjc_narrow.specs.Written.Working.Places.{catch_if};
ghost use Rattle.cjc_narrow.specs.Written.Labels.{place_of};

use crate::written::places::Places;
use cjc_ncode::NCatch;
use cjc_types::bytes::{Bytes, NoMemory, Row};
use cjc_types::classfile::Catch;
use std::alloc::Global;

fn class_of(alloc: Global, class: &Option<Bytes>) -> Result<Option<Bytes>, NoMemory>
    ensures { IfOk result (λ own. own ≡ class.now) }
{
    match class {
        None => Ok(None),
        Some(name) => Ok(Some(Bytes::copy_of(alloc, name.items())?)),
    }
}

fn catch_at(alloc: Global, places: &Places<'_>, catch: &Catch) -> Result<NCatch, NoMemory>
    ensures { IfOk result (λ c. c ≡ catch_at (place_of places.now) catch.now) }
{
    let class = class_of(alloc, &catch.class)?;
    Ok(NCatch {
        start: places.place(u32::from(catch.start)),
        end: places.place(u32::from(catch.end)),
        target: places.place(u32::from(catch.target)),
        class,
        at: u32::from(catch.target),
    })
}

/// Puts a handler at the end, where something in its range is written.
fn put_catch(
    alloc: Global,
    catches: &mut Row<NCatch>,
    places: &Places<'_>,
    catch: &Catch,
) -> Result<(), NoMemory>
    ensures { OnOk result (catches.new ≡ catches.old ++ catch_if (place_of places.now) catch.now) }
{
    let at = catch_at(alloc, places, catch)?;
    if at.start < at.end {
        catches.push(at)?;
    }
    Ok(())
}

/// The handlers over something that is written.
#[tactic(auto, using(crate::proofs::WrittenLaws::Order::catch_next, crate::proofs::WrittenLaws::Order::catch_end))]
pub fn catches_at(
    alloc: Global,
    places: &Places<'_>,
    catches: &[Catch],
) -> Result<Row<NCatch>, NoMemory>
    ensures { IfOk result (λ row. row ≡ catches_at (place_of places.now) catches.now) }
{
    let mut row = Row::new(alloc);
    for catch in catches {
        put_catch(alloc, &mut row, places, catch)?;
    }
    Ok(row)
}
