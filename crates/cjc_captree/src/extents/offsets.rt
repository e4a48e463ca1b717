//! The offset of each method's header without the rest of its extent, for the components that name methods by
//! offset alone.

ghost use Rattle.std.specs.Prelude.{◌≡◌, map, IfOk};

use cjc_classes::bytes::{NoMemory, Row};
use cjc_classes::descriptor::Extent;
use std::alloc::Global;

fn offsets_of(alloc: Global, extents: &[Extent]) -> Result<Row<u64>, NoMemory>
    ensures { IfOk result (λ row. row ≡ map (λ e. e.offset) extents.now) }
{
    let mut row = Row::new(alloc);
    for extent in extents {
        row.push(extent.offset)?;
    }
    Ok(row)
}

/// The offset of the header of each method, by the number of its class and of itself; 0 of what is not in Method.
pub fn method_offsets(alloc: Global, extents: &[Row<Extent>]) -> Result<Row<Row<u64>>, NoMemory>
    ensures { IfOk result (λ rows. rows ≡ map (map (λ e. e.offset)) extents.now) }
{
    let mut rows = Row::new(alloc);
    for row in extents {
        rows.push(offsets_of(alloc, row.items())?)?;
    }
    Ok(rows)
}
