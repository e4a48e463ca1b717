//! Components beside class files: the first place where they are not of the package.

ghost use Rattle.std.specs.Prelude.{◌≡◌, ◌+◌, ◌<◌, ◌^◌, ◌==◌, [], length, IfErr, IfOk, OnOk};
ghost use Rattle.cjc_card_link.specs.Bytes.Breaks.{IsFirstRefusal};
ghost use Rattle.cjc_card_link.specs.LowerCheckIndex.Lookup.Parts.{complete_of};
ghost use Rattle.cjc_classes.specs.LowerComponents.Paired.Pairs.{ArePaired, cell_spots, info_count, pair_breaks};
ghost use Rattle.cjc_classes.specs.CheckRules.Complete.{AreSmall, described_size, descriptor_size};
ghost use Rattle.cjc_classes.specs.CheckRules.Spots.{beside, in_info, unless};
ghost use Rattle.cjc_pairing.specs.Working.Heads.{IsHead, all_spots, count_spots_at};

use crate::breaks::{in_descriptor, in_statics, or_else};
use crate::cells::has_cells;
use crate::counts::method_counts;
use cjc_card_link::capread::{ClassInfo, Descriptor, StaticField};
use cjc_card_link::check_index::lookup::{Item, Parts};
use cjc_classes::bytes::{Break, Fault, NoMemory, answer};
use cjc_classes::world::{StaticImage, World};
use std::alloc::Global;

/// Whether there are so many infos of classes and interfaces; where not, the number of classes in Descriptor.
fn count_break(class: &ClassInfo, count: usize) -> Option<Break<'static>>
    ensures { IsHead (unless (info_count class.now == count) (in_info 11 0)) result }
{
    let interfaces = class.interfaces.items().len() as u128;
    let classes = class.classes.items().len() as u128;
    in_descriptor(interfaces + classes == count as u128, 0)
}

/// Whether the classes of Descriptor have so many methods; where not, the number of methods of the first that has not.
fn method_break(descriptor: &Descriptor, counts: &[u64]) -> Option<Break<'static>>
    requires { 3 + descriptor_size descriptor.now < 2 ^ 32 }
    ensures { IsHead (beside described_size count_spots_at 1 descriptor.now.classes counts.now) result }
{
    let classes = descriptor.classes.items();
    let mut at: u32 = 1;
    for (i, class) in classes.iter().enumerate() {
        if i >= counts.len() {
            return None;
        }
        if class.methods.items().len() as u64 != counts[i] {
            return in_descriptor(false, at + 7);
        }
        at += class.size();
    }
    None
}

/// Whether the static cells have the sizes of the package's; where not, the size of the image.
fn cell_break(
    image: &StaticImage,
    statics: &StaticField,
) -> Result<Option<Break<'static>>, NoMemory>
    ensures { IfOk result (IsHead (cell_spots image.now statics.now)) }
{
    let passes = has_cells(image, statics)?;
    Ok(in_statics(passes))
}

/// The first place, by the order of components and then of offsets.
fn pair_break(
    alloc: Global,
    parts: &Parts<'_>,
    world: &World<'_>,
    image: &StaticImage,
) -> Result<Option<Break<'static>>, NoMemory>
    requires { AreSmall (complete_of parts.now) }
    ensures { IfOk result (IsHead (all_spots world.now image.now (complete_of parts.now))) }
{
    let counts = method_counts(alloc, world)?;
    let cells = cell_break(image, parts.statics)?;
    let methods = method_break(parts.descriptor, counts.items());
    let infos = count_break(parts.class, counts.items().len());
    Ok(or_else(cells, or_else(infos, methods)))
}

/// Tests whether components are of a package whose static fields hold this at first.
///
/// # Errors
///
/// Sentence 719: Class has not an info for each class of the package; a class of Descriptor has not as many
/// methods as the package gives it; or the static cells have other sizes. The place is the size of the image in
/// StaticField, else the number of classes in Descriptor, else the number of the first such class's methods there:
/// the first by the order of components and then of offsets.
pub fn test_pair(
    alloc: Global,
    parts: &Parts<'_>,
    world: &World<'_>,
    image: &StaticImage,
) -> Result<(), Fault>
    // Bytes that were read, fewer than 2^32 of each component, spell components that are small.
    requires { AreSmall (complete_of parts.now) }
    ensures paired { OnOk result (ArePaired world.now image.now (complete_of parts.now)) }
    ensures unbroken { OnOk result (pair_breaks world.now image.now (complete_of parts.now) ≡ []) }
    ensures refused { IfErr result (IsFirstRefusal (pair_breaks world.now image.now (complete_of parts.now))) }
{
    let broken = pair_break(alloc, parts, world, image)?;
    answer(alloc, broken)
}
