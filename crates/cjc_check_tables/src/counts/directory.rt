//! Directory says the sizes of the components and counts what is in them (Java Card Virtual Machine
//! Specification 2.2.2, section 6.4).

ghost use Rattle.std.specs.Prelude.{◌≡◌, ◌+◌, ◌<◌, ◌^◌, Some};
ghost use Rattle.cjc_check_rules.specs.Complete.{IsSmall, size_items, size_of, statics_size};
ghost use Rattle.cjc_check_rules.specs.Listed.{applet_count, applets_agree, array_bytes, directory_spots};
ghost use Rattle.cjc_check_rules.specs.Listed.{imports_agree, may_be_absent, size_agrees, size_spots, sizes_agree};
ghost use Rattle.cjc_check_rules.specs.Listed.{statics_agree};
ghost use Rattle.cjc_check_rules.specs.Spots.{first};

use cjc_capread::{Applet, ArrayInit, CapTree, Directory, Import, StaticField};
use cjc_check_index::lookup::{Comparison, Item, earlier, first_beside, size_items, unless};
use cjc_check_rules::ComponentPlace;

/// The tag of Directory.
const DIRECTORY: u8 = 2;

/// Whether the component of a tag may be absent.
fn may_be_absent(tag: u32) -> bool
    ensures { result ≡ may_be_absent tag }
{
    tag == 3 || tag == 10 || tag == 12
}

/// Whether sizes in Directory are those of the components, which stand by tag.
struct SizesAgree;

impl Comparison<u64, u32> for SizesAgree {
    ghost broken = { λ s. size_spots };

    ghost fits = { λ s. Unit {0} };

    fn first_between(&self, at: u32, item: &u64, other: &u32) -> Option<ComponentPlace> {
        let is_there = may_be_absent(1 + at / 2) || *other != 0;
        unless(*item == u64::from(*other) && is_there, DIRECTORY, at)
    }
}

/// The bytes of all arrays.
fn array_bytes(arrays: &[ArrayInit]) -> u32
    requires { array_bytes arrays.now < 2 ^ 32 }
    ensures { result ≡ array_bytes arrays.now }
{
    let mut size = 0;
    for array in arrays {
        size += array.values.items().len() as u32;
    }
    size
}

/// The first number of Directory that is another than StaticField's.
#[tactic(auto, using(cjc_check_rules::proofs::Arrays::bytes_fit, cjc_check_rules::proofs::Firsts::first_append))]
fn statics_agree(directory: &Directory, statics: &StaticField) -> Option<ComponentPlace>
    requires { statics_size statics.now < 2 ^ 32 }
    ensures { result ≡ first (statics_agree directory.now (Some statics.now)) }
{
    let arrays = statics.array_inits.items();
    let image = unless(directory.image_size == statics.image_size, DIRECTORY, 24);
    let count = unless(
        directory.array_init_count == arrays.len() as u64,
        DIRECTORY,
        26,
    );
    let bytes = u64::from(array_bytes(arrays));
    let size = unless(directory.array_init_size == bytes, DIRECTORY, 28);
    earlier(earlier(image, count), size)
}

/// The same where StaticField may be absent.
#[tactic(auto, unfolding(cjc_check_rules::specs::Spots::first))]
fn statics_spot(directory: &Directory, statics: &Option<StaticField>) -> Option<ComponentPlace>
    requires { size_of statics_size statics.now < 2 ^ 32 }
    ensures { result ≡ first (statics_agree directory.now statics.now) }
{
    match statics {
        Some(statics) => statics_agree(directory, statics),
        None => None,
    }
}

/// Whether Directory has the number of imported packages.
#[tactic(auto, unfolding(cjc_check_rules::specs::Spots::first))]
fn imports_spot(directory: &Directory, import: &Option<Import>) -> Option<ComponentPlace>
    ensures { result ≡ first (imports_agree directory.now import.now) }
{
    match import {
        Some(import) => {
            let count = import.packages.items().len();
            unless(usize::from(directory.import_count) == count, DIRECTORY, 30)
        }
        None => None,
    }
}

/// The number of applets.
fn applet_count(applet: &Option<Applet>) -> usize
    ensures { result ≡ applet_count applet.now }
{
    match applet {
        Some(applet) => applet.applets.items().len(),
        None => 0,
    }
}

/// The first size in Directory that is not the component's.
fn sizes_spot(tree: &CapTree) -> Option<ComponentPlace>
    requires { IsSmall tree.now }
    ensures { result ≡ first (sizes_agree tree.now.directory.component_sizes (size_items tree.now)) }
{
    let told = tree.directory.component_sizes.items();
    let own = size_items(tree);
    first_beside(&SizesAgree, 0, told, &own)
}

/// Whether Directory has the number of applets.
fn applets_spot(tree: &CapTree) -> Option<ComponentPlace>
    ensures { result ≡ first (applets_agree tree.now.directory tree.now.applet) }
{
    let count = applet_count(&tree.applet);
    unless(
        usize::from(tree.directory.applet_count) == count,
        DIRECTORY,
        31,
    )
}

/// Where 701 is broken first: the item of Directory that is not what the components have, or the size of one
/// that may not be absent. A component with its tag and size has fewer than 2^32 bytes.
#[tactic(auto, using(cjc_check_rules::proofs::Firsts::first_append))]
pub fn directory_spot(tree: &CapTree) -> Option<ComponentPlace>
    requires { IsSmall tree.now }
    ensures { result ≡ first (directory_spots tree.now) }
{
    let sizes = sizes_spot(tree);
    let statics = statics_spot(&tree.directory, &tree.statics);
    let imports = imports_spot(&tree.directory, &tree.import);
    let applets = applets_spot(tree);
    earlier(earlier(earlier(sizes, statics), imports), applets)
}
