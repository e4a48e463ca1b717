//! The components of the package of a list, whose files these are, or the first broken rule.

ghost use Rattle.std.specs.Prelude.{◌≡◌, ℕ, List as Items, length, IfOk, IfErr};
ghost use Rattle.cjc_components.specs.Package.{Package};
ghost use Rattle.cjc_descriptor.specs.Fits.{AreFit};
ghost use Rattle.cjc_fitting_laws.specs.LaidOut.{AidsAreShort};
ghost use Rattle.cjc_judge.specs.Spelt.{IsRead, AreFiles};
ghost use Rattle.cjc_judge_laws.specs.Tested as small;
ghost use Rattle.cjc_prepared.specs.Prepared.{IsSound};
ghost use Rattle.cjc_whole.specs.Working.Shaped.{IsShaped, Stopped};
ghost use Rattle.cjc_converting.specs.Made.{AreCaps};

use crate::caps::caps_of;
use crate::sizes::test_sizes;
use cjc_bytes::{Bytes, Fault, Row};
use cjc_capread::CapTree;
use cjc_fitting_laws::static_images_fit;
use cjc_judge::{Group, Judged, judge};
use cjc_list::List;
use cjc_whole::{Shaped, shape};
use std::alloc::Global;

/// The components of a package that is laid out, where they keep the limits of sizes.
fn caps_within(
    alloc: Global,
    list: &List,
    judged: &Judged<'_>,
    shaped: &Shaped,
) -> Result<CapTree, Fault>
    requires { (files : Items (Items ℕ)) × (p : Package) × IsSound list.now files judged.now × IsShaped list.now files shaped.now p × AreFit p.image }
    ensures made { (files : Items (Items ℕ)) (p : Package) → IsSound list.now files judged.now → IsShaped list.now files shaped.now p → IfOk result (AreCaps list.now files) }
    ensures refused { (files : Items (Items ℕ)) (p : Package) → IsSound list.now files judged.now → IsShaped list.now files shaped.now p → IfErr result (Stopped list.now files) }
{
    let caps = caps_of(alloc, list, judged, shaped)?;
    test_sizes(
        alloc,
        list.name.items(),
        shaped.methods.codes.items(),
        &caps,
    )?;
    Ok(caps)
}

/// The components of a package that breaks no rule of its files.
fn caps_judged(alloc: Global, list: &List, judged: &Judged<'_>) -> Result<CapTree, Fault>
    requires read { IsRead list.now }
    requires aids { AidsAreShort list.now }
    requires sound { (files : Items (Items ℕ)) × IsSound list.now files judged.now }
    ensures made { (files : Items (Items ℕ)) → IsSound list.now files judged.now → IfOk result (AreCaps list.now files) }
    ensures refused { (files : Items (Items ℕ)) → IsSound list.now files judged.now → IfErr result (Stopped list.now files) }
{
    static_images_fit();
    let shaped = shape(alloc, list, judged)?;
    caps_within(alloc, list, judged, &shaped)
}

/// The components of the package of a list, whose files these are in list order.
///
/// # Errors
///
/// The first rule that the files break: 101 to 104, else one of 201 to 208, 301 to 310, 401 to 409 and 413, 501 to 503, 601 to
/// 609; where they break none, 417; else 311, 414 or 415; else 411 or 416.
pub fn components_of_files(alloc: Global, list: &List, files: &Row<Bytes>) -> Result<CapTree, Fault>
    requires read { IsRead list.now }
    requires aids { AidsAreShort list.now }
    requires count { length files.now ≡ length list.now.lines }
    requires files { AreFiles files.now }
    requires bytes { small.AreFiles files.now }
    ensures made { IfOk result (AreCaps list.now files.now) }
    ensures refused { IfErr result (Stopped list.now files.now) }
{
    let groups = [
        Group::Unsupported,
        Group::Initialisers,
        Group::Limits,
        Group::Tokens,
        Group::Ranges,
    ];
    let judged = judge(alloc, list, files, &groups)?;
    caps_judged(alloc, list, &judged)
}
