//! The size of each component that is in the tree, as Directory is to have them; one that is absent has the
//! size 0. Called by `tree`, which makes Directory last.

ghost use Rattle.std.specs.Prelude.{◌≡◌, length, map, IfOk};
ghost use Rattle.cjc_classes.specs.CapWrite.Size.{info_of};
ghost use Rattle.cjc_exported.specs.Components.Components.{tags};

use cjc_classes::bytes::{NoMemory, Row};
use cjc_classes::capread::CapTree;
use cjc_classes::capwrite::size;
use std::alloc::Global;

const TAGS: [u8; 12] = [1, 2, 3, 4, 5, 6, 7, 8, 9, 10, 11, 12];

/// The size of the component of a tag, 0 where it is absent; no memory has as many bytes as 64 bits don't count.
fn size_at(tree: &CapTree, tag: u8) -> Result<u64, NoMemory>
    ensures { IfOk result (λ n. n ≡ length (info_of tree.now tag)) }
{
    let bytes = size(tree, tag);
    if bytes == 0xFFFF_FFFF_FFFF_FFFF {
        return Err(NoMemory);
    }
    Ok(bytes)
}

fn sizes_at(alloc: Global, tree: &CapTree, tags: &[u8]) -> Result<Row<u64>, NoMemory>
    ensures { IfOk result (λ row. row ≡ map (λ tag. length (info_of tree.now tag)) tags.now) }
{
    let mut row = Row::new(alloc);
    for tag in tags {
        row.push(size_at(tree, *tag)?)?;
    }
    Ok(row)
}

/// The size of each component.
pub(crate) fn sizes_of(alloc: Global, tree: &CapTree) -> Result<Row<u64>, NoMemory>
    ensures { IfOk result (λ row. row ≡ map (λ tag. length (info_of tree.now tag)) tags) }
{
    sizes_at(alloc, tree, &TAGS)
}
