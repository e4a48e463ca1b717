//! What a package is made of on the way from its list and its files to its components, or the first broken
//! rule: its files judged, and the components of a package that is laid out.

ghost use Rattle.std.specs.Prelude.{◌≡◌, ◌≤◌, ◌^◌, ℕ, [], List as Items, length, All, IfOk, IfErr};
ghost use Rattle.cjc_components.specs.Components.{components_of};
ghost use Rattle.cjc_components.specs.Limits.{size_breaks};
ghost use Rattle.cjc_components.specs.Package.{Package};
ghost use Rattle.cjc_judge.specs.Spelt.{IsRead};
ghost use Rattle.cjc_shape.specs.Prepared.{IsSound};
ghost use Rattle.cjc_shape.specs.Whole.Working.Shaped.{IsShaped, Stopped};
ghost use Rattle.cjc_convert.specs.Made.{AreCaps};

use crate::converting::caps::caps_of;
use crate::converting::files::are_bytes;
use crate::converting::sizes::test_sizes;
use cjc_bytes::{Bytes, Fault, Row};
use cjc_capread::CapTree;
use cjc_judge::{Group, Judged, judge};
use cjc_list::List;
use cjc_shape::whole::{Shaped, shape};
use cjc_shape_proof::writing::aids_are_short;
use cjc_shape_proof::written::static_images_fit;
use std::alloc::Global;

/// What the files of a list say, which these are in list order and of 512 MiB at most, where they break no rule
/// of files.
///
/// # Errors
///
/// The first rule that they break: 101 to 104, else one of 201 to 208, 301 to 310, 401 to 409 and 413, 501 to
/// 503, 601 to 609.
pub fn judge_files<'a>(
    alloc: Global,
    list: &List,
    files: &'a Row<Bytes>,
) -> Result<Judged<'a>, Fault>
    requires read { IsRead list.now }
    requires count { length files.now ≡ length list.now.lines }
    requires files { All (λ bytes. length bytes ≤ 2 ^ 29) files.now }
    ensures sound { IfOk result (IsSound list.now files.now) }
    ensures refused { IfErr result (Stopped list.now files.now) }
{
    are_bytes(files);
    let groups = [
        Group::Unsupported,
        Group::Initialisers,
        Group::Limits,
        Group::Tokens,
        Group::Ranges,
    ];
    judge(alloc, list, files, &groups)
}

/// The components of a package whose methods are laid out.
///
/// # Errors
///
/// 411 or 416, whichever is the first broken one.
pub fn shaped_components(
    alloc: Global,
    list: &List,
    judged: &Judged<'_>,
    shaped: &Shaped,
) -> Result<CapTree, Fault>
    requires read { IsRead list.now }
    requires shaped { (files : Items (Items ℕ)) × (p : Package) × IsSound list.now files judged.now
        × IsShaped list.now files shaped.now p }
    ensures made { (files : Items (Items ℕ)) (p : Package) → IsSound list.now files judged.now
        → IsShaped list.now files shaped.now p → IfOk result (λ t. t ≡ components_of p) }
    ensures sizes { (files : Items (Items ℕ)) (p : Package) → IsSound list.now files judged.now
        → IsShaped list.now files shaped.now p → IfOk result (λ _. size_breaks p ≡ []) }
    ensures refused { (files : Items (Items ℕ)) (p : Package) → IsSound list.now files judged.now
        → IsShaped list.now files shaped.now p → IfErr result (Stopped list.now files) }
{
    aids_are_short();
    static_images_fit();
    let caps = caps_of(alloc, list, judged, shaped)?;
    test_sizes(
        alloc,
        list.name.items(),
        shaped.methods.codes.items(),
        &caps,
    )?;
    Ok(caps)
}

/// The components of a package that breaks no rule of its files.
fn judged_components(alloc: Global, list: &List, judged: &Judged<'_>) -> Result<CapTree, Fault>
    requires read { IsRead list.now }
    requires sound { (files : Items (Items ℕ)) × IsSound list.now files judged.now }
    ensures made { (files : Items (Items ℕ)) → IsSound list.now files judged.now
        → IfOk result (AreCaps list.now files) }
    ensures refused { (files : Items (Items ℕ)) → IsSound list.now files judged.now
        → IfErr result (Stopped list.now files) }
{
    let shaped = shape(alloc, list, judged)?;
    shaped_components(alloc, list, judged, &shaped)
}

/// The components of the package of a list, whose files these are in list order, each of 512 MiB at most.
///
/// # Errors
///
/// The first rule that the files break: 101 to 104, else one of 201 to 208, 301 to 310, 401 to 409 and 413, 501
/// to 503, 601 to 609; where they break none, 417; else 311, 414 or 415; else 411 or 416.
pub fn components_of_files(alloc: Global, list: &List, files: &Row<Bytes>) -> Result<CapTree, Fault>
    requires read { IsRead list.now }
    requires count { length files.now ≡ length list.now.lines }
    requires files { All (λ bytes. length bytes ≤ 2 ^ 29) files.now }
    ensures made { IfOk result (AreCaps list.now files.now) }
    ensures refused { IfErr result (Stopped list.now files.now) }
{
    let judged = judge_files(alloc, list, files)?;
    judged_components(alloc, list, &judged)
}
