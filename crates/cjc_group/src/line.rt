//! One line of a text that names a group: a package's list, and the folder of its components.

ghost use Rattle.std.specs.Prelude.{◌≡◌, length};
ghost use Rattle.cjc_bytes.specs.Found.{Finds, kept};
ghost use Rattle.cjc_group.specs.Grammar.{named_by, with_line};
ghost use Rattle.cjc_group.specs.Grouped.{said};

use cjc_bytes::{Bytes, Line, Row, Stop, Word, words};
use std::alloc::Global;

/// A package of a group, by the names of its files.
#[derive(Drop)]
pub struct PackageLine {
    /// The name of its list.
    pub list: Bytes,
    /// The name of the folder with its components.
    pub folder: Bytes,
}

/// The package that the words of a line at this place name.
#[tactic(auto, unfolding(crate::specs::Grammar::named_by))]
fn read_names(alloc: Global, at: u32, words: &[Word<'_>]) -> Result<PackageLine, Stop>
    ensures { Finds (λ p. p) (kept at (named_by words.now)) result }
{
    match words {
        [list, folder] => Ok(PackageLine {
            list: Bytes::copy_of(alloc, list.bytes())?,
            folder: Bytes::copy_of(alloc, folder.bytes())?,
        }),
        _ => Err(Stop::Broken(at)),
    }
}

/// The packages with the one that a further line names, of which there are at most 16.
#[tactic(auto, unfolding(crate::specs::Grammar::with_line))]
pub(crate) fn read_line(
    alloc: Global,
    packages: Row<PackageLine>,
    line: &Line<'_>,
) -> Result<Row<PackageLine>, Stop>
    ensures { Finds (λ ps. ps) (said (with_line packages) line.now) result }
{
    let mut packages = packages;
    let at = line.at();
    let words = words(alloc, line.text())?.ok_or(Stop::Broken(at))?;
    let package = read_names(alloc, at, words.items())?;
    if packages.items().len() >= 16 {
        return Err(Stop::Broken(at));
    }
    packages.push(package)?;
    Ok(packages)
}
