//! How many supers the classes of export files list in all: so many steps reach all that stands above some names.

ghost use Rattle.std.specs.Prelude.{◌≡◌, ◌+◌, IfOk};
ghost use Rattle.cjc_card_semantics.specs.ExportFile.Supers.{classes_of, super_count};

use cjc_card_semantics::bytes::NoMemory;
use cjc_card_semantics::export_file::{ExportClass, ExportTree};

/// No memory is there for 2^64 steps.
pub(crate) fn sum(a: u64, b: u64) -> Result<u64, NoMemory>
    ensures { IfOk result (λ n. n ≡ a + b) }
{
    match a.checked_add(b) {
        Some(n) => Ok(n),
        None => Err(NoMemory),
    }
}

// Those of the classes of an export file.
fn file_supers(classes: &[ExportClass]) -> Result<u64, NoMemory>
    ensures { IfOk result (λ n. n ≡ super_count classes.now) }
{
    let mut count = 0;
    for class in classes {
        count = sum(count, class.supers.items().len() as u64)?;
    }
    Ok(count)
}

/// Those of export files.
pub(crate) fn super_count(trees: &[ExportTree]) -> Result<u64, NoMemory>
    ensures { IfOk result (λ n. n ≡ super_count (classes_of trees.now)) }
{
    let mut count = 0;
    for tree in trees {
        count = sum(count, file_supers(tree.classes.items())?)?;
    }
    Ok(count)
}
