//! All of Descriptor beside what is wanted: the first item that differs.

ghost use Rattle.std.specs.Prelude.{◌≡◌, ◌+◌, ◌*◌, ◌<◌, ◌^◌, length, IfOk};
ghost use Rattle.cjc_check_rules.specs.ClassRefs.{pool_count_at};
ghost use Rattle.cjc_check_rules.specs.Complete.{descriptor_size, described_size};
ghost use Rattle.cjc_check_rules.specs.Spots.{beside, first};
ghost use Rattle.cjc_verify.specs.Types.{AreTypes};
ghost use Rattle.cjc_verify.specs.WantedDescriptor.{all_differ, class_differs, entry_differs};

use crate::described::types::Types;
use crate::described::wanted::{WantedClass, WantedEntry};
use cjc_bytes::NoMemory;
use cjc_capread::Descriptor;
use cjc_card_calls::check_index::lookup::{earlier, first_beside, pool_count_at, starts};
use cjc_check_rules::ComponentPlace;
use std::alloc::Global;

/// The first class that differs.
fn classes_differ(types: &Types<'_>, classes: &[WantedClass]) -> Option<ComponentPlace>
    requires ready { AreTypes types.now }
    requires small { 3 + descriptor_size types.now.descriptor.now < 2 ^ 32 }
    ensures { result ≡ first (beside described_size (class_differs types.now.descriptor.now) 1
        types.now.descriptor.now.classes classes.now) }
{
    first_beside(types, 1, types.descriptor.classes.items(), classes)
}

/// The first entry of the constant pool whose type differs.
#[tactic(auto, using(cjc_check_rules::proofs::Arrays::two_each))]
fn entries_differ(types: &Types<'_>, entries: &[WantedEntry]) -> Option<ComponentPlace>
    requires ready { AreTypes types.now }
    requires small { 3 + descriptor_size types.now.descriptor.now < 2 ^ 32 }
    ensures { result ≡ first (beside (λ x. 2) (entry_differs types.now.descriptor.now)
        (pool_count_at types.now.descriptor.now + 2) types.now.descriptor.now.pool_types entries.now) }
{
    let begin = pool_count_at(types.descriptor) + 2;
    first_beside(types, begin, types.descriptor.pool_types.items(), entries)
}

/// The first item that differs, where types are found.
#[tactic(auto, using(cjc_check_rules::proofs::Firsts::first_append))]
fn all_by_types(
    types: &Types<'_>,
    classes: &[WantedClass],
    entries: &[WantedEntry],
) -> Option<ComponentPlace>
    requires ready { AreTypes types.now }
    requires small { 3 + descriptor_size types.now.descriptor.now < 2 ^ 32 }
    ensures { result ≡ first (all_differ types.now.descriptor.now classes.now entries.now) }
{
    let broken = classes_differ(types, classes);
    earlier(broken, entries_differ(types, entries))
}

/// The first item of Descriptor that differs.
pub(crate) fn all_differ(
    alloc: Global,
    descriptor: &Descriptor,
    classes: &[WantedClass],
    entries: &[WantedEntry],
) -> Result<Option<ComponentPlace>, NoMemory>
    requires { 3 + descriptor_size descriptor.now < 2 ^ 32 }
    ensures { IfOk result (λ s. s ≡ first (all_differ descriptor.now classes.now entries.now)) }
{
    let begin = 2 + 2 * descriptor.pool_types.items().len() as u32;
    let starts = starts(alloc, begin, descriptor.types.items())?;
    let types = Types {
        descriptor,
        starts: starts.items(),
    };
    Ok(all_by_types(&types, classes, entries))
}
