//! Rows that are put together of others. Called by method.rt, and by the flows of crates above. Knows nothing
//! of what stands in a row.

ghost use Rattle.std.specs.Prelude.{◌≡◌, ◌++◌, option_to_list, OnOk};

use cjc_bytes::{NoMemory, Row};

/// Puts the item at the end, where there is one.
pub fn put_some<T: Drop>(row: &mut Row<T>, item: Option<T>) -> Result<(), NoMemory>
    ensures { OnOk result (row.new ≡ row.old ++ option_to_list item) }
{
    match item {
        Some(item) => row.push(item),
        None => Ok(()),
    }
}

/// Puts all items at the end.
pub fn put_all<T: Drop>(row: &mut Row<T>, items: Row<T>) -> Result<(), NoMemory>
    ensures { OnOk result (row.new ≡ row.old ++ items) }
{
    for item in items.into_vec() {
        row.push(item)?;
    }
    Ok(())
}
