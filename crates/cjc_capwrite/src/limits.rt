//! The limits of a tree, told by its sizes before anything is written. It takes no memory.

ghost use Rattle.std.specs.Prelude.{◌≡◌, ◌<◌, ◌-◌, ◌^◌, length, nat_lt};
ghost use Rattle.std.specs.List.{list_any};
ghost use Rattle.cjc_capwrite.specs.Size.{info_of};
ghost use Rattle.cjc_capwrite.specs.Files.{infos_of, is_wide, ends_too_far, is_too_large, limit_of};

use crate::sizes::{size, types_part_size};
use cjc_capread::{CapTree, Descriptor, TypeDescriptor};

/// Whether a type has more nibbles than the byte of their count can tell.
fn is_wide(descriptor: &TypeDescriptor) -> bool
    ensures { result ≡ is_wide descriptor.now }
{
    descriptor.nibbles.items().len() > 255
}

fn has_wide(types: &[TypeDescriptor]) -> bool
    ensures { result ≡ list_any is_wide types.now }
{
    types.iter().any(|descriptor| is_wide(descriptor))
}

#[tactic(auto, using(crate::proofs::Lengths::above_capped))]
fn ends_too_far(descriptor: &Option<Descriptor>) -> bool
    ensures { result ≡ ends_too_far descriptor.now }
{
    match descriptor {
        Some(descriptor) => {
            has_wide(descriptor.types.items()) || types_part_size(descriptor) > 32767
        }
        None => false,
    }
}

/// Whether a component has more bytes of info.
#[tactic(auto, using(crate::proofs::Lengths::above_capped))]
fn is_above(tree: &CapTree, tag: u8, limit: u16) -> bool
    ensures { result ≡ nat_lt limit (length (info_of tree.now tag)) }
{
    size(tree, tag) > u64::from(limit)
}

fn is_too_large(tree: &CapTree) -> bool
    ensures { result ≡ is_too_large (infos_of tree.now) }
{
    is_above(tree, 6, 32767)
        || is_above(tree, 1, 65535)
        || is_above(tree, 2, 65535)
        || is_above(tree, 3, 65535)
        || is_above(tree, 4, 65535)
        || is_above(tree, 5, 65535)
        || is_above(tree, 8, 65535)
        || is_above(tree, 9, 65535)
        || is_above(tree, 10, 65535)
        || is_above(tree, 11, 65535)
}

/// The rule by which the tree is refused: 411 where its types end too far, else 416 where a component is too
/// large. Takes no memory.
pub fn broken_limit(tree: &CapTree) -> Option<u16>
    ensures { result ≡ limit_of tree.now }
{
    if ends_too_far(&tree.descriptor) {
        Some(411)
    } else if is_too_large(tree) {
        Some(416)
    } else {
        None
    }
}
