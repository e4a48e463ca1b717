//! Descriptor and StaticField beside the package (Java Card Virtual Machine Specification 2.2.2, sections 6.10 and
//! 6.13): where a token, flags, a place or a type is another than the package's, and where an array is of another
//! type than its field. What Descriptor is to say is put together first, and then compared item by item. Called by
//! `verify`.
mod arrays;
mod cells;
mod desc;
mod entries;
mod items;
mod laws;
mod made;
mod named;
mod types;
mod walks;
mod wanted;

ghost use Rattle.std.specs.Prelude.{◌≡◌, IfOk};
ghost use Rattle.cjc_check_rules.specs.Spots.{first};
ghost use Rattle.cjc_verify.specs.Described.{all_array_spots, described_spots};
ghost use Rattle.cjc_verify.specs.WantedDescribed.{wanted_classes};

use crate::described::arrays::{arrays_differ, wanted_numbers};
use crate::described::entries::wanted_entries;
use crate::described::laws::described_beside_wanted;
use crate::described::made::Made;
use crate::described::walks::all_differ;
use crate::described::wanted::WantedClass;
use crate::package::Package;
use cjc_bytes::{NoMemory, Row};
use cjc_check_rules::ComponentPlace;
use cjc_classes::descriptor::cell_offsets;
pub(crate) use desc::card_nibbles;
use std::alloc::Global;

/// What the package wants of the classes of Descriptor.
fn wanted_classes(alloc: Global, pair: &Package<'_>) -> Result<Row<WantedClass>, NoMemory>
    ensures { IfOk result (λ row. row ≡ wanted_classes pair.now) }
{
    let cells = cell_offsets(alloc, pair.image, pair.world.classes().items())?;
    let made = Made {
        world: pair.world,
        tokens: pair.tokens,
        refs: pair.refs,
        cells: cells.items(),
    };
    made::wanted_classes(alloc, &made, pair.order)
}

/// Where 721 is broken first: an item of Descriptor that is another than the package's.
pub(crate) fn described_spot(
    alloc: Global,
    pair: &Package<'_>,
) -> Result<Option<ComponentPlace>, NoMemory>
    ensures { IfOk result (λ s. s ≡ first (described_spots pair.now)) }
{
    described_beside_wanted();
    let classes = wanted_classes(alloc, pair)?;
    let entries = wanted_entries(alloc, pair)?;
    all_differ(
        alloc,
        pair.parts.descriptor,
        classes.items(),
        entries.items(),
    )
}

/// Where 728 is broken first: an array of another type than the field whose cell it fills.
pub(crate) fn array_spot(
    alloc: Global,
    pair: &Package<'_>,
) -> Result<Option<ComponentPlace>, NoMemory>
    ensures { IfOk result (λ s. s ≡ first (all_array_spots pair.now)) }
{
    described_beside_wanted();
    let numbers = wanted_numbers(alloc, pair.image)?;
    Ok(arrays_differ(pair.parts.statics, numbers.items()))
}
